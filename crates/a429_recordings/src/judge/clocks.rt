//! The clock of what was sent, by the words that came in.
ghost use Rattle.std.specs.Prelude.{◌≤◌};

use crate::judge::boxes::restarted;
use crate::judge::marks::accepting;
use crate::judge::words::{BoxPart, BoxWord, read_words};
use crate::logs::views::{ClockMove, LogView};
use a429_align::{Alignment, Recorded, Span, align};
use a429_console::files::FileReader;
use a429_equipment::Equipment;
use a429_logs::Reading;
use a429_replay::Names;
use a429_slots::{GroupPlan, OUTPUTS, OutputId, Proposal, latency_us, slots_us};
use a429_text::Gathered;
use std::alloc::{AllocError, Global};

/// The texts of logs, which words of them are read, and which of these are taken.
#[derive(Clone, Copy)]
pub struct BoxTexts<'a> {
    pub view: LogView<'a>,
    pub part: BoxPart,
    pub texts: &'a [Vec<Vec<u8>>],
}

/// These spans, with the times of the first and the last of them.
fn recorded(spans: Vec<Span>) -> Recorded {
    let begin = match spans.first() {
        Some(first) => first.from,
        None => 0,
    };
    let end = match spans.last() {
        Some(last) => last.until,
        None => 0,
    };
    Recorded { spans, begin, end }
}

/// A word at its time alone.
fn span_of(word: &BoxWord) -> Span {
    Span {
        raw: word.raw,
        from: word.time,
        until: word.time,
    }
}

/// What was sent, in logs after those of what came in, by the times of their own clock. `None` if a line is faulty, or an
/// allocation fails.
fn sent_spans<'a, F: FileReader>(
    alloc: Global,
    files: &F,
    names: &Names,
    after: Reading<'a>,
    sent: BoxTexts<'a>,
) -> Option<Recorded> {
    let view = LogView {
        clock: ClockMove::none(),
        from: 0,
        until: None,
        ..sent.view
    };
    let next = restarted(after);
    let read = read_words(alloc, files, names, view, sent.part, next, sent.texts);
    let words = read.ok()?.words;
    let mut spans = Gathered::new(alloc);
    for word in &words {
        spans.push(span_of(word));
    }
    Some(recorded(spans.into_vec().ok()?))
}

/// The latest word of a source, and since when it is that.
#[derive(Clone, Copy)]
struct Latest {
    raw: u32,
    from: u64,
}

/// Notes a word that a source accepts at a time. The word before it ends, unless it is the same.
fn note_latest(spans: &mut Gathered<Span>, latest: &mut Option<Latest>, raw: u32, time: u64) {
    if let Some(before) = *latest {
        if before.raw == raw {
            return;
        }
        spans.push(Span {
            raw: before.raw,
            from: before.from,
            until: time,
        });
    }
    *latest = Some(Latest { raw, from: time });
}

/// Ends the latest words of all sources.
fn end_latest(spans: &mut Gathered<Span>, latest: &[Option<Latest>], end: u64) {
    for source in latest {
        if let Some(last) = source {
            spans.push(Span {
                raw: last.raw,
                from: last.from,
                until: end,
            });
        }
    }
}

/// The words that sources accepted, as long as each was the latest of its source, by times that are counted from this one.
/// Error: an allocation failed.
fn heard_spans(
    alloc: Global,
    equipment: &Equipment,
    words: &[BoxWord],
    from: u64,
) -> Result<Recorded, AllocError> {
    let none: Option<Latest> = None;
    let mut latest = Vec::from_elem(alloc, none, equipment.sources().len())?;
    let mut spans = Gathered::new(alloc);
    let mut begin = None;
    let mut end = from;
    for word in words {
        end = from.saturating_add(word.time);
        begin = Some(begin.unwrap_or(end));
        if let Some(source) = accepting(equipment, *word) {
            if source < latest.len() {
                note_latest(&mut spans, &mut latest[source], word.raw, end);
            }
        }
    }
    end_latest(&mut spans, &latest, end);
    Ok(Recorded {
        spans: spans.into_vec()?,
        begin: begin.unwrap_or(0),
        end,
    })
}

/// The longest latency of an output of a group with this bit rate, and a longer one of others.
fn longest_of(longest: u64, rate: u32, table: &GroupPlan<OUTPUTS>) -> u64
    requires { 1 ≤ rate }
{
    let mut longest = longest;
    for output in 0..table.outputs() {
        let period = table.place(OutputId::new(output)).period;
        longest = longest.max(latency_us(rate, period));
    }
    longest
}

/// The longest latency of an output of a plan, and its longest slot, both in microseconds.
fn longest_times(proposal: &Proposal<OUTPUTS>) -> (u64, u64) {
    let equipment = proposal.equipment();
    equipment.rows_are_sound();
    let mut longest = 0;
    let mut slot = 0;
    for group in 0..equipment.groups().len() {
        let rate = equipment.group_rate(group);
        longest = longest_of(longest, rate, proposal.plan().group(group));
        slot = slots_us(rate, 1).max(slot);
    }
    (longest, slot)
}

/// The clock of what was sent. `None` if the words say nothing of it, or a line is faulty. Error: an allocation failed.
pub fn found_clock<'a, F: FileReader>(
    alloc: Global,
    files: &F,
    proposal: &Proposal<OUTPUTS>,
    names: &Names,
    heard: BoxTexts<'a>,
    sent: BoxTexts<'a>,
    reading: Reading<'a>,
) -> Result<Option<Alignment>, AllocError> {
    let read = read_words(
        alloc,
        files,
        names,
        heard.view,
        heard.part,
        reading,
        heard.texts,
    );
    let Ok(words) = read else {
        return Ok(None);
    };
    let from = sent.view.after(words.next).from;
    let came = heard_spans(alloc, proposal.equipment(), &words.words, from)?;
    let Some(went) = sent_spans(alloc, files, names, words.next, sent) else {
        return Ok(None);
    };
    let (longest, slot) = longest_times(proposal);
    align(alloc, &came, &went, longest, slot)
}
