//! The spans of words in a recording.

use std::alloc::{AllocError, Global};

/// A word in a recording: its 32 bits, and from when until when it is there, in microseconds. A word that came in is there as
/// long as it is the latest of its source, a word that was sent at the time of its record.
#[derive(Clone, Copy)]
pub struct Span {
    pub raw: u32,
    pub from: u64,
    pub until: u64,
}

/// The spans of a recording's words, and the times of its first and its last word.
#[derive(Drop)]
pub struct Recorded {
    pub spans: Vec<Span>,
    pub begin: u64,
    pub end: u64,
}

/// By what spans are sorted: their bits, and then their times.
fn key(span: &Span) -> u128 {
    u128::from(span.raw) * 18_446_744_073_709_551_616 + u128::from(span.from)
}

/// Whether a span begins at most this long after the end of another one of the same word.
fn follows(span: &Span, last: &Span, quiet: u64) -> bool {
    span.raw == last.raw && span.from <= last.until.saturating_add(quiet)
}

/// Spans of words, sorted by their bits. Spans of a word that are at most `quiet` microseconds apart are one. Error: an
/// allocation failed.
pub fn joined(alloc: Global, spans: &[Span], quiet: u64) -> Result<Vec<Span>, AllocError> {
    let mut sorted = Vec::from_slice(alloc, spans)?;
    sorted.sort_unstable_by_key(|span| key(span));
    let mut all = Vec::new(alloc);
    let mut last: Option<Span> = None;
    for span in &sorted {
        match last {
            Some(before) if follows(span, &before, quiet) => {
                last = Some(Span {
                    until: before.until.max(span.until),
                    ..before
                });
            }
            Some(before) => {
                all.push(before)?;
                last = Some(*span);
            }
            None => last = Some(*span),
        }
    }
    if let Some(before) = last {
        all.push(before)?;
    }
    Ok(all)
}

/// How many of sorted spans have lower bits than these.
pub fn count_below(spans: &[Span], raw: u32) -> usize {
    spans.partition_point(|span| span.raw < raw)
}

/// How many have these bits or lower ones.
pub fn count_up_to(spans: &[Span], raw: u32) -> usize {
    spans.partition_point(|span| span.raw <= raw)
}
