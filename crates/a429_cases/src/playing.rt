//! Plays cases one by one, and reports those that fail.

use crate::case::{Case, case_of};
use crate::files::CaseFiles;
use crate::outcome::Outcome;
use crate::played::Played;
use crate::spelling::{after, cut, words_of};
use crate::written::Written;
use a429_cli::{MemoryWords, run_program};
use a429_hints::HintLines;
use a429_text::Text;
use std::io;
use std::io::ErrorKind;
use std::sync::Wait;
use std::thread::Threads;

/// What is before the title of a case.
const SECTION: &str = "\n=== ";

/// Keeps the text of a file for later cases, and plays the cases that it has.
pub fn take_file<R: AllocGlobal + Threads + Wait>(
    rt: &R,
    played: &mut Played,
    path: &str,
    text: &io::Result<String>,
) {
    match text {
        Ok(text) => {
            played.keep(path, text);
            play_sections(rt, played, text);
        }
        Err(_) => played.failed.fill(&[path, ": not a file of text\n"], &[]),
    }
}

/// Plays the cases of each section, or keeps the text that it shares. Comments are before the first one.
fn play_sections<R: AllocGlobal + Threads + Wait>(rt: &R, played: &mut Played, text: &str) {
    let (_, mut rest) = cut(text, SECTION);
    for _ in 0..text.len() {
        let (section, others) = cut(rest, SECTION);
        match after(section, "text ") {
            Some(part) => played.share(part),
            None => play_rows(rt, played, section),
        }
        rest = others;
        if rest.is_empty() {
            break;
        }
    }
}

/// Plays a case for each row of a section, or one if it has no rows.
fn play_rows<R: AllocGlobal + Threads + Wait>(rt: &R, played: &mut Played, section: &str) {
    let (title, text) = cut(section.trim_end_matches('\n'), "\n");
    let (text, mut rest) = cut(text, "\n--- rows\n");
    for _ in 0..section.len() {
        let (row, after) = cut(rest, "\n");
        play(rt, played, Written { title, text, row });
        rest = after;
        if rest.is_empty() {
            break;
        }
    }
}

/// Plays a case.
fn play<R: AllocGlobal + Threads + Wait>(rt: &R, played: &mut Played, written: Written<'_>) {
    played.cases = played.cases.saturating_add(1);
    match case_of(rt.alloc(), &played.texts, written) {
        Some(case) => play_case(rt, &mut played.failed, written, &case),
        None => written.report(&mut played.failed, "\ncannot be read\n"),
    }
}

fn play_case<R: AllocGlobal + Threads + Wait>(
    rt: &R,
    failed: &mut Text,
    written: Written<'_>,
    case: &Case,
) {
    let whole = run(rt, case, usize::MAX, ErrorKind::WriteZero);
    if !is_met(rt, case, &whole) {
        written.report(failed, "\n--- out ");
        whole.report(failed);
    }
}

/// Runs the program on a case. The output that is to fail does so after this number of calls.
fn run<R: AllocGlobal + Threads + Wait>(
    rt: &R,
    case: &Case,
    good_calls: usize,
    kind: ErrorKind,
) -> Outcome {
    let mut outcome = case.begin(rt.alloc(), good_calls, kind);
    if let Ok(words) = words_of(rt.alloc(), &case.line) {
        run_words(rt, case, &words, &mut outcome);
    }
    outcome
}

fn run_words<'a, R: AllocGlobal + Threads + Wait>(
    rt: &R,
    case: &'a Case,
    words: &[&'a [u8]],
    outcome: &mut Outcome,
) {
    let mut files = CaseFiles::new(rt.alloc(), &case.files, words);
    outcome.status = run_program(
        rt,
        &MemoryWords { words },
        &HintLines,
        &mut files,
        &mut outcome.out,
        &mut outcome.err,
        &outcome.reported,
    );
    outcome.has_reread = files.has_reread;
}

/// Whether the program did what the case states. If an output is to fail, it ends at each call that fails, both by an error
/// and because a reader closed the output.
fn is_met<R: AllocGlobal + Threads + Wait>(rt: &R, case: &Case, whole: &Outcome) -> bool {
    for good_calls in 0..case.failing_calls(whole) {
        if !ends_short(rt, case, whole, good_calls, ErrorKind::WriteZero)
            || !ends_short(rt, case, whole, good_calls, ErrorKind::BrokenPipe)
        {
            return false;
        }
    }
    case.is_met(rt.alloc(), whole)
}

fn ends_short<R: AllocGlobal + Threads + Wait>(
    rt: &R,
    case: &Case,
    whole: &Outcome,
    good_calls: usize,
    kind: ErrorKind,
) -> bool {
    let cut = run(rt, case, good_calls, kind);
    case.ends_short(whole, &cut, good_calls, kind)
}
