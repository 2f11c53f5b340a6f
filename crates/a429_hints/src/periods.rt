//! Hints about transmit intervals: without a grid period, or perhaps in milliseconds.

use crate::hint::HintText;
use a429_equipment::LONGEST_INTERVAL;
use a429_grid::{SLOT_TIME, grid_period};
use a429_import::{ImportColumn, column_in, is_column_named};

/// The periods of the grid, in slots (profile).
const PERIODS: [u64; 14] = [
    1, 2, 4, 8, 16, 32, 64, 128, 256, 512, 1024, 2048, 4096, 8192,
];

/// A transmit interval in microseconds, and the bit rate of its group in bit/s.
#[derive(Clone, Copy)]
pub struct Interval {
    pub min_us: u32,
    pub max_us: u32,
    pub rate: u32,
}

impl Interval {
    /// A time in microseconds times the bit rate in bit/s.
    fn slot_time(self, us: u32) -> u64 {
        u64::from(us).saturating_mul(u64::from(self.rate))
    }
}

/// Says a time in slots with thousandths. The time is given as microseconds times bit/s.
fn say_slots(time: u64, hint: &HintText) {
    let (whole, thousandths) = (time / SLOT_TIME, time % SLOT_TIME / (SLOT_TIME / 1000));
    write!(hint, "{whole}.{thousandths:03}");
}

/// Says how long an interval is in slots, and that it has no period. If it is the first such interval, says how to correct it.
pub fn tell_unfit(interval: Interval, is_first: bool, hint: &HintText) {
    hint.say_two(": {} to {} us are ", interval.min_us, interval.max_us);
    say_slots(interval.slot_time(interval.min_us), hint);
    hint.say(" to ");
    say_slots(interval.slot_time(interval.max_us), hint);
    hint.end_one(
        " slots at {} bit/s, and no period (1, 2, 4 .. 8192 slots) lies within",
        interval.rate,
    );
    if is_first {
        tell_period_below(interval, hint);
        tell_period_above(interval, hint);
        tell_period_of_millis(interval, hint);
    }
}

/// Says which period an interval has when read as milliseconds, if it has one.
fn tell_period_of_millis(interval: Interval, hint: &HintText) {
    let Interval {
        min_us,
        max_us,
        rate,
    } = interval;
    let (min_us, max_us) = (min_us.saturating_mul(1000), max_us.saturating_mul(1000));
    match grid_period(min_us, max_us, rate) {
        Some(period) if max_us <= LONGEST_INTERVAL => {
            let form = "if these are milliseconds: min_us = {}, max_us = {} would have period {}";
            hint.line_three(form, min_us, max_us, period.slots());
        }
        _ => {}
    }
}

/// Says which minimum interval would allow the next shorter period, if there is one.
fn tell_period_below(interval: Interval, hint: &HintText) {
    let shortest = interval.slot_time(interval.min_us);
    let mut periods = PERIODS.iter().rev();
    if let Some(slots) = periods.find(|slots| slots.saturating_mul(SLOT_TIME) < shortest) {
        let us = slots.saturating_mul(SLOT_TIME) / u64::from(interval.rate.max(1));
        hint.line_two("min_us = {} would allow period {}", us, *slots);
    }
}

/// Says which maximum interval would allow the next longer period, if there is one.
fn tell_period_above(interval: Interval, hint: &HintText) {
    let longest = interval.slot_time(interval.max_us);
    let mut periods = PERIODS.iter();
    if let Some(slots) = periods.find(|slots| slots.saturating_mul(SLOT_TIME) > longest) {
        let time = slots.saturating_mul(SLOT_TIME);
        let us = time.div_ceil(u64::from(interval.rate.max(1)));
        hint.line_two("max_us = {} would allow period {}", us, *slots);
    }
}

/// Says that the intervals of a group may be milliseconds, why, and which options read them so.
pub fn tell_millis(group: &str, reason: &str, maps: &[&str], hint: &HintText) {
    hint.begin(": ");
    hint.say_two(
        "the intervals of group {} are all below {}; if they are in ms, name the columns min_ms and max_ms, or give",
        group,
        reason,
    );
    hint.end_two(
        " --map \"{..}=min_ms\" --map \"{..}=max_ms\"",
        heading_for(maps, ImportColumn::MinUs),
        heading_for(maps, ImportColumn::MaxUs),
    );
}

/// The heading of a column of intervals, by texts HEADING=COLUMN; without such a text, the name of the column.
fn heading_for<'a>(maps: &[&'a str], column: ImportColumn) -> &'a str {
    for text in maps {
        if is_column_named(column, column_in(*text)) {
            let (heading, _) = text.rsplit_once('=').unwrap_or((*text, ""));
            return heading;
        }
    }
    column.name()
}
