//! Hints about the rows of `lint` and `diff`.

use crate::hint::HintText;
use crate::lists::text_in;
use a429_text::{Row, Rows};

/// The kinds of findings, in the order in which `lint` prints them, with what each means and what to do about it.
static ADVICE: [&str; 12] = [
    "unfit: no transmit period lies within the interval, so the table has no plan: `a429 plan` prints intervals that work",
    "too-many-buses: a group can have at most 16 buses, so the table has no plan: give some of its outputs a longer max_us, or move them to another group",
    "unheard: no filter of the receiver passes the source's label, so its words are never accepted: add a filter LLL/377, or remove the filters",
    "unsent: no group sends the source: add an output, or remove the source, which makes another station",
    "idle: the receiver has no source, so its words are never accepted: add a source, or remove the receiver",
    "blind: the filter passes no label of the receiver's sources: correct it, or remove it",
    "alike: two outputs send the same label, one of them with sdi = \"any\", so an LRU cannot always distinguish them: give both sources a number as `sdi`, or send them in two groups",
    "full: the group's buses have no empty cell, so one more output needs one more bus: `a429 margin` prints what would free cells",
    "coarse: the period is shorter than two thirds of max_us, since periods are powers of two of slots: a little more max_us may halve the load of the output, and `a429 margin` prints how much",
    "same-filters: both receivers pass the same labels: if they hear one bus, one of them is enough; otherwise each source needs an SDI or a receiver of its own",
    "crowded: more than 80 per cent of the bus is filled: `a429 load --limit 80` prints the fewest buses that keep to that",
    "milliseconds: each maximum interval is below 5 ms, and an output takes a quarter of a bus: if the intervals are milliseconds, multiply them by 1000, or import them as min_ms and max_ms",
];

/// The kinds of findings that can be corrected in receivers, filters or sources.
static STATION_KINDS: [&str; 5] = ["unheard", "unsent", "idle", "blind", "alike"];

/// What such a correction means for a station that runs.
const OTHER_STATION: &str =
    "a table with other receivers, filters, sources or groups is one of another station: a station that runs takes no plan of it";

/// Whether a row has this kind in its first column.
fn has_row(rows: &[Row], kind: &str) -> bool {
    rows.iter().any(|row| text_in(row, 0) == kind)
}

/// Says what to do about each kind of finding in the rows of `lint`, one line a kind.
pub fn tell_findings(rows: &Rows, hint: &HintText) {
    let Ok(rows) = rows.as_slice() else {
        return hint.give_up();
    };
    for advice in &ADVICE {
        let (kind, _) = advice.split_once(':').unwrap_or((*advice, ""));
        if has_row(rows, kind) {
            hint.say_line(*advice);
        }
    }
    if STATION_KINDS.iter().any(|kind| has_row(rows, *kind)) {
        hint.say_line(OTHER_STATION);
    }
}

/// Says that the second of two tables is of another station, by the rows of `diff`.
pub fn tell_changes(rows: &Rows, hint: &HintText) {
    match rows.as_slice() {
        Ok(rows) if has_row(rows, "station") => hint.say_line(
            "it is a table of another station: a station that runs with the first table takes no plan of it",
        ),
        _ => {}
    }
}
