//! Hints about the heading of rows of comma-separated values that `import` refuses.

use crate::file_rows::FileRows;
use crate::guesses::{guess_for, guesses_of, is_missing, nearest, times_in};
use crate::hint::HintText;
use crate::lists::{LISTED, field_count, say_more, text_of};
use crate::retries::{say_command, say_map};
use a429_import::{IMPORT_COLUMNS, ImportColumn, has_heading, is_column, is_column_named, is_met};
use a429_text::CsvLine;
use std::cmp::min;

/// Says which of the texts HEADING=COLUMN is not met. If all are, names each column that the heading lacks or has twice.
pub fn tell_heading(file: FileRows, hint: &HintText) {
    hint.turn_to_line(file.titles.number as usize);
    let mut are_met = true;
    for text in file.texts {
        if !is_met(file.texts, file.titles, *text) {
            are_met = false;
            tell_unmet(file, *text, hint);
        }
    }
    if are_met {
        tell_columns(file, hint);
    }
}

/// Says why a text HEADING=COLUMN is not met: of `--keep-columns` if COLUMN is `#:`, otherwise of `--map`.
fn tell_unmet(file: FileRows, text: &str, hint: &HintText) {
    let (name, column) = text.rsplit_once('=').unwrap_or(("", ""));
    hint.begin(": ");
    if column == "#:" {
        hint.say_one("--keep-columns {?}", name);
        if has_heading(file.titles, text) {
            return hint.end(
                ": only a column that is there once, and is not read as another, can go along",
            );
        }
    } else {
        hint.say_one("--map {?}", text);
        if !is_column(column.as_bytes()) {
            return hint.end_one(
                ": there is no column {?}; the columns are group, rate, source, receiver, label, sdi, min_us, min_ms or max_hz, max_us, max_ms or min_hz, interval_us, interval_ms or rate_hz for both, hold and filters",
                column,
            );
        }
    }
    tell_missing(file, name, hint);
}

/// Says that the heading lacks a field, which field is nearest, and which fields it has.
fn tell_missing(file: FileRows, name: &str, hint: &HintText) {
    hint.say_one(": the heading has no {?}", name);
    if let Some(place) = nearest(hint.alloc, file, name) {
        hint.say_one("; the nearest is {?}", file.title(place));
    }
    end_fields(file.titles, hint);
}

/// Names each column that the heading lacks or has twice, and the fields that are likely meant.
fn tell_columns(file: FileRows, hint: &HintText) {
    for column in IMPORT_COLUMNS.as_slice() {
        let times = times_in(&file.heading.line, *column);
        if times > 1 {
            tell_twice(file, *column, times, hint);
        }
    }
    match guesses_of(hint.alloc, file) {
        Ok(guesses) => {
            let guesses = guesses.as_slice();
            let file = FileRows { guesses, ..file };
            tell_guesses(file, hint);
            tell_unlike(file, hint);
        }
        Err(_) => hint.give_up(),
    }
}

/// Says that several fields of the heading name a column. Limits of intervals have several names, so these are shown.
fn tell_twice(file: FileRows, column: ImportColumn, times: usize, hint: &HintText) {
    hint.begin(": ");
    hint.say_two(
        "the column {} is in the heading {} times",
        column.name(),
        times,
    );
    if matches!(column, ImportColumn::MinUs | ImportColumn::MaxUs) {
        hint.say(", as");
        for place in 0..field_count(file.titles) {
            if is_column_named(column, file.heading.line.field(place)) {
                hint.say_one(" {?}", file.title(place));
            }
        }
    }
    hint.end("; name it once");
}

/// Says with which command the fields that are likely meant are read as the columns that the heading lacks.
fn tell_guesses(file: FileRows, hint: &HintText) {
    match file.guesses {
        [] => return,
        [guess] => {
            hint.begin(": ");
            hint.say_two(
                "the column {} is missing; the nearest is {?}; rename it, or write ",
                guess.name,
                file.title(guess.place),
            );
        }
        _ => hint.begin(": columns have other names; rename them, or write "),
    }
    say_command(file, hint);
    for column in IMPORT_COLUMNS.as_slice() {
        if let Some(guess) = guess_for(file.guesses, *column) {
            say_map(file.title(guess.place), guess.name, hint);
        }
    }
    hint.end("");
}

/// Names the columns that the heading lacks and that no field is like, and the fields of the heading.
fn tell_unlike(file: FileRows, hint: &HintText) {
    let columns = IMPORT_COLUMNS.as_slice();
    let unlike = columns.iter().filter(|column| is_missing(file, **column));
    hint.begin(match unlike.count() {
        0 => return,
        1 => ": this column is missing:",
        _ => ": these columns are missing:",
    });
    for column in columns {
        if is_missing(file, *column) {
            hint.say_one(" {}", column.name());
        }
    }
    end_fields(file.titles, hint);
}

/// Names the fields of a heading, and ends the line.
fn end_fields(titles: &CsvLine, hint: &HintText) {
    hint.say("; the heading has");
    for place in 0..min(titles.len(), LISTED) {
        hint.say_one(" {?}", text_of(titles.field(place)));
    }
    say_more(titles.len(), hint);
    hint.end("");
}
