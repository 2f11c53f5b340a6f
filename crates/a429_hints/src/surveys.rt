//! Hints about the rows of `survey --table`.

use crate::hint::HintText;
use crate::lists::text_in;
use a429_logs::TimeUnit;
use a429_text::{Row, Sheet};

/// Fewer rows say nothing of units or labels.
const FEWEST_ROWS: usize = 3;

/// Whether a name is for this line: its name, or that and a full stop before more.
fn is_on(name: &str, line: &str) -> bool {
    let (group, _) = name.split_once('.').unwrap_or((name, ""));
    name == line || group == line
}

/// Whether a row shows that the table expects something under a name.
fn is_known_by(row: &Row, says: usize, name: &str) -> bool {
    match text_in(row, says) {
        "missing" => is_on(name, text_in(row, 0)),
        "expected" | "fast" | "slow" => text_in(row, 0) == name,
        _ => false,
    }
}

/// Of how many rows the table says this.
fn count_of(rows: &[Row], says: usize, word: &str) -> usize {
    rows.iter().filter(|row| text_in(row, says) == word).count()
}

/// Says whether nearly all words come too fast, or most are none of the table's.
fn tell_counts(unit: Option<TimeUnit>, rows: &[Row], says: usize, hint: &HintText) {
    let fast = count_of(rows, says, "fast");
    let fit = count_of(rows, says, "expected").saturating_add(count_of(rows, says, "slow"));
    let taken = fit.saturating_add(fast);
    if unit.is_none() && fast >= FEWEST_ROWS && fast >= taken - taken / 10 {
        hint.say_line(
            "nearly all words come too fast: if the times are milliseconds, give --time ms",
        );
    }
    let unexpected = count_of(rows, says, "unexpected");
    if unexpected >= FEWEST_ROWS && unexpected > taken {
        hint.say_line(
            "most labels are not in the table: perhaps a name is that of another line, TABLE is of another revision, or the bits of labels are reversed; then give --reversed label",
        );
    }
}

/// Says what may be wrong with a log, by the rows of `survey --table`: names that are none of the table's, another unit of
/// times, or other labels.
pub fn tell_survey(unit: Option<TimeUnit>, sheet: &Sheet, hint: &HintText) {
    let Ok(rows) = sheet.rows.as_slice() else {
        return hint.give_up();
    };
    // what the table says is in the last column
    let says = sheet.columns.len().saturating_sub(1);
    tell_unknown_names(rows, says, hint);
    tell_counts(unit, rows, says, hint);
}

/// Says for which names of a log the table expects nothing.
fn tell_unknown_names(rows: &[Row], says: usize, hint: &HintText) {
    for row in rows {
        let name = text_in(row, 0);
        // the row of all words has no label
        let has_label = !text_in(row, 1).is_empty();
        if !has_label && !rows.iter().any(|row| is_known_by(row, says, name)) {
            hint.line_two(
                "the table expects nothing under the name {?}; to take it as a receiver or a group, give --channel {..}=NAME; to pass over its words, --ignore",
                name,
                name,
            );
        }
    }
}
