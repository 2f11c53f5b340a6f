//! Hints about two logs of `judge` that do not fit together.

use crate::hint::HintText;
use a429_arguments::times::{Drift, Shift};
use a429_console::hints::warnings::FoundClock;
use a429_logs::TimeUnit;
use a429_text::{Sheet, SheetForm};

/// Says that a log has no time in common with that of the words that came in.
pub fn tell_apart(heard: &str, is_mixed: bool, hint: &HintText) {
    if is_mixed {
        return hint.say_line(
            "no time is within the words of receivers and within those of groups; without OUT this log must have both",
        );
    }
    hint.line_one(
        "no time is within this log and within {?}; both logs need times of one clock; --align finds how to move this one",
        heard,
    );
}

/// Says by how much times are moved, as an option.
fn say_shift(shift: Shift, hint: &HintText) {
    match shift {
        Shift::Later(by) => hint.say_one("--shift={}", by),
        Shift::Earlier(by) => hint.say_one("--shift=-{}", by),
    }
}

/// Says by how much a clock is fast, as an option, unless it is not.
fn say_drift(drift: Drift, hint: &HintText) {
    match drift {
        Drift::Fast(0) => {}
        Drift::Fast(parts) => hint.say_one(" --drift={}", parts),
        Drift::Slow(parts) => hint.say_one(" --drift=-{}", parts),
    }
}

/// Says how the times of this log were moved to the clock of another one, and how sure that is.
pub fn tell_clock(heard: &str, clock: Option<FoundClock>, hint: &HintText) {
    let Some(clock) = clock else {
        return hint.line_one(
            "no clock was found by which this log fits {?}: too few words change, or most do not fit; give --shift",
            heard,
        );
    };
    hint.begin(": ");
    say_shift(clock.shift, hint);
    say_drift(clock.drift, hint);
    hint.say_two(
        " was found by {} changes of words, give or take {} us",
        clock.words,
        clock.margin,
    );
    if clock.unfit > 0 {
        hint.say_one("; {} of them do not fit", clock.unfit);
    }
    hint.end("");
}

/// A box with fewer sends says nothing of clocks.
const FEWEST_SENDS: u64 = 4;

/// How many words the outputs sent, how many of these are known, how many known ones are not right, and how many come too soon
/// or too late. How many outputs send, how many of them fall silent, and how many words are of no output.
#[derive(Clone, Copy)]
struct Sends {
    sent: u64,
    known: u64,
    wrong: u64,
    soon: u64,
    late: u64,
    outputs: u64,
    silent: u64,
    foreign: u64,
}

/// The number of a row of comma-separated values in a column. `None` if it has none.
fn number_in(heading: &str, row: &str, column: &str) -> Option<u64> {
    let mut fields = heading.split(',').zip(row.split(','));
    let (_, field) = fields.find(|(name, _)| *name == column)?;
    field.parse::<u64>().ok()
}

/// A sum with the number of a row in a column, if it has one.
fn with_number(sum: u64, heading: &str, row: &str, column: &str) -> u64 {
    sum.saturating_add(number_in(heading, row, column).unwrap_or(0))
}

impl Sends {
    /// Adds those of a row. That of words of no output has their number alone.
    fn add(&mut self, heading: &str, row: &str) {
        let Some(known) = number_in(heading, row, "known") else {
            self.foreign = with_number(self.foreign, heading, row, "sent");
            return;
        };
        let sent = number_in(heading, row, "sent").unwrap_or(0);
        self.sent = self.sent.saturating_add(sent);
        self.outputs = self.outputs.saturating_add(sent.min(1));
        self.known = self.known.saturating_add(known);
        self.wrong = with_number(self.wrong, heading, row, "wrong");
        self.wrong = with_number(self.wrong, heading, row, "stale");
        self.soon = with_number(self.soon, heading, row, "soon");
        self.late = with_number(self.late, heading, row, "late");
        self.silent = with_number(self.silent, heading, row, "silent");
    }

    /// Whether all outputs that send fall silent.
    fn end_early(self) -> bool {
        self.outputs > 0 && self.silent == self.outputs
    }

    /// Whether most words are not right, though hardly any comes at a wrong interval.
    fn look_shifted(self) -> bool {
        self.known >= FEWEST_SENDS
            && self.wrong > self.known / 2
            && self.soon.saturating_add(self.late) <= self.known / 10
    }

    /// Whether nearly all words come too soon after the one before.
    fn look_fast(self) -> bool {
        let later = self.sent.saturating_sub(self.outputs);
        later >= FEWEST_SENDS && self.soon >= later - later / 10
    }

    /// Whether most words are of no output.
    fn look_foreign(self) -> bool {
        self.foreign >= FEWEST_SENDS && self.foreign > self.sent
    }
}

/// The sends of all rows of comma-separated values.
fn all_sends(text: &str) -> Sends {
    let mut all = Sends {
        sent: 0,
        known: 0,
        wrong: 0,
        soon: 0,
        late: 0,
        outputs: 0,
        silent: 0,
        foreign: 0,
    };
    let mut lines = text.split('\n');
    let heading = lines.next().unwrap_or("");
    for row in lines {
        all.add(heading, row);
    }
    all
}

/// Says what may be wrong with the log of what was sent, by the rows of `judge`: it may have another clock than the log of what
/// came in, another unit of times, or words of other outputs. Or it may end earlier.
pub fn tell_clocks(
    heard: &str,
    unit: Option<TimeUnit>,
    aligned: bool,
    judged: &Sheet,
    hint: &HintText,
) {
    let Ok(bytes) = judged.render(hint.alloc, SheetForm::Csv) else {
        return hint.give_up();
    };
    let text = str::from_utf8(&bytes).unwrap_or("");
    tell_sends(heard, unit, aligned, all_sends(text), hint);
}

/// Says what the sends of all outputs are like.
fn tell_sends(heard: &str, unit: Option<TimeUnit>, aligned: bool, sends: Sends, hint: &HintText) {
    if sends.end_early() {
        hint.line_one(
            "no output sends until the logs end: the box stopped, or this log ends too early; then cut {?} at the same time",
            heard,
        );
    }
    if sends.look_shifted() && !aligned {
        hint.line_one(
            "most words are wrong or stale, and hardly any is soon or late: perhaps this log and {?} are not on one clock; then give --align",
            heard,
        );
    }
    if sends.look_fast() && unit.unwrap_or(TimeUnit::Microseconds) == TimeUnit::Microseconds {
        hint.say_line(
            "nearly all words come too soon: if the times of both logs are milliseconds, give --time ms",
        );
    }
    if sends.look_foreign() {
        hint.say_line(
            "most words are of no output: perhaps a channel is taken as the wrong group or bus, or TABLE is of another revision",
        );
    }
}
