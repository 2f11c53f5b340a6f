//! Hints about tables with a fault.

use crate::hint::{HintText, LINES};
use crate::keys::{form, is_faulty, kilobits};
use crate::lists::say_unknown;
use crate::nearest::Nearest;
use crate::rows::{TableRow, integer_at, say_found, say_row, short_text};
use crate::twins::twin_of;
use crate::words::say_meant_filter;
use a429_equipment::TableVersion;
use a429_filter::Filter;
use a429_table::{
    Column, FaultKind, RefusedTable, Shape, TablePlace, columns_of, places_of, rows_at, text_at,
    version_of,
};
use toml::Value;

/// Why the sources of two rows clash.
pub const SAME_SOURCE: &str =
    "have the same receiver and label, and their SDIs overlap (equal, or one is \"any\")";

/// Says what is at each place of a table with a fault of this kind, and what must be there. No line is named: the reader
/// of TOML reports the line and the column only for what it refuses itself.
pub fn tell_table_fault(document: &RefusedTable, kind: FaultKind, hint: &HintText) {
    match document {
        RefusedTable::Tree(root) => tell_places(root, kind, hint),
        RefusedTable::NotToml(error) => match error.to_string(hint.alloc) {
            Ok(text) => {
                for line in text.as_str().lines() {
                    hint.say_line(line);
                }
            }
            Err(_) => hint.give_up(),
        },
    }
}

fn tell_places(root: &Value, kind: FaultKind, hint: &HintText) {
    let Ok(places) = places_of(hint.alloc, root, kind, LINES) else {
        return hint.give_up();
    };
    for place in &places.first {
        if let Some(row) = TableRow::at(root, *place) {
            tell_row(kind, &row, hint);
        }
    }
    hint.leave_out(places.more);
}

/// Begins a line about a row of a table.
fn begin_row(row: &TableRow, hint: &HintText) {
    hint.begin(": ");
    say_row(row, hint);
}

fn tell_row(kind: FaultKind, row: &TableRow, hint: &HintText) {
    match kind {
        FaultKind::UnknownKey => tell_unknown_keys(row, hint),
        FaultKind::UnknownName => tell_unknown_name(row, hint),
        FaultKind::DuplicateName | FaultKind::DuplicateSource | FaultKind::DuplicateOutput => {
            tell_twin(kind, row, hint);
        }
        FaultKind::Interval => {
            tell_values(kind, row, hint);
            tell_order(row, hint);
        }
        _ => tell_values(kind, row, hint),
    }
}

/// Says with which earlier row a row clashes, in what, and what to do.
fn tell_twin(kind: FaultKind, row: &TableRow, hint: &HintText) {
    let Some(twin) = twin_of(row, kind) else {
        return;
    };
    begin_row(row, hint);
    hint.say(" and ");
    say_row(&twin, hint);
    match kind {
        FaultKind::DuplicateName => hint.end(" have the same name; rename one of them"),
        FaultKind::DuplicateSource => hint.end_one(
            " {}; give them different SDIs, neither of them \"any\", or remove one",
            SAME_SOURCE,
        ),
        _ => hint.end(
            " send the same label and SDI; remove one of them, send it in another group, or give its source another SDI",
        ),
    }
}

/// Says what is wrong with each value of a row that has a fault of its own.
fn tell_values(kind: FaultKind, row: &TableRow, hint: &HintText) {
    if !row.value.is_table() {
        begin_row(row, hint);
        say_found(" is ", Some(row.value), hint);
        return hint.end("; it must be a table");
    }
    for column in columns_of(version_of(row.root), row.place) {
        let found = row.value.get(column.key);
        if is_faulty(column, kind, found) {
            tell_value(column, row, found, hint);
        }
    }
    if kind == FaultKind::Version {
        tell_late_version(row, hint);
    }
    tell_filter(kind, row, hint);
}

/// Says what is at a key, and what must be there.
fn tell_value(column: &Column, row: &TableRow, found: Option<&Value>, hint: &HintText) {
    begin_row(row, hint);
    hint.say_one(": `{}", column.key);
    match (found, column.shape) {
        // the table may write it with other digits
        (Some(Value::Integer(_)), Shape::Text) => hint.say("` is an integer"),
        _ => say_found("` is ", found, hint),
    }
    match kilobits(found) {
        Some(rate) if column.key == "rate" => {
            hint.end_one("; the unit is bit/s: write {}", rate);
        }
        _ => hint.end_two(
            "; it must be {}{}",
            form(column),
            way_to_write(column, found),
        ),
    }
}

/// How to write a value instead, if its kind shows what was meant.
fn way_to_write(column: &Column, found: Option<&Value>) -> &'static str {
    match (found, column.shape) {
        (Some(Value::Float(_)), Shape::Integer) => ", without a decimal point",
        (Some(Value::Table(_)), Shape::Tables) => ", with two brackets on each side",
        _ => "",
    }
}

/// Says that the ends of an interval are in the wrong order, if they are.
fn tell_order(row: &TableRow, hint: &HintText) {
    let min_us = integer_at(row.value, "min_us").unwrap_or(0);
    let max_us = integer_at(row.value, "max_us").unwrap_or(0);
    if min_us > max_us {
        begin_row(row, hint);
        hint.end_two(
            ": `min_us` is {} and `max_us` is {}; `min_us` must not be greater than `max_us`",
            min_us,
            max_us,
        );
    }
}

/// What is wrong with a version after the first row.
const LATE_VERSION: &str =
    "`version` is after a [[{}]] and so belongs to it: move it to the top of the table";

/// Says which array has the version of a table, if a row has it instead of the top.
fn tell_late_version(row: &TableRow, hint: &HintText) {
    for key in ["receiver", "source", "group"] {
        if have_version(rows_at(row.root, key)) {
            return hint.line_one(LATE_VERSION, key);
        }
    }
    let mut groups = rows_at(row.root, "group").iter();
    if groups.any(|group| have_version(rows_at(group, "output"))) {
        hint.line_one(LATE_VERSION, "group.output");
    }
}

/// Whether one of these rows has a key `version`.
fn have_version(rows: &[Value]) -> bool {
    rows.iter().any(|row| row.get("version").is_some())
}

/// Says what is wrong with the first filter of a receiver that is not a text of the form LLL/MMM.
fn tell_filter(kind: FaultKind, row: &TableRow, hint: &HintText) {
    for (number, filter) in rows_at(row.value, "filters").iter().enumerate() {
        if is_faulty_filter(kind, filter) {
            begin_row(row, hint);
            hint.say_one(": filter {}", number.saturating_add(1));
            say_found(" is ", Some(filter), hint);
            hint.say(
                "; it must be a text LLL/MMM, label and mask, each three octal digits from 000 to 377",
            );
            if let Value::String(text) = filter {
                say_meant_filter(text.as_str(), hint);
            }
            return hint.end("");
        }
    }
}

fn is_faulty_filter(kind: FaultKind, filter: &Value) -> bool {
    match (kind, filter) {
        (FaultKind::Label, Value::String(text)) => Filter::parse(text.as_str()).is_err(),
        (FaultKind::WrongKind, Value::String(_)) => false,
        (FaultKind::WrongKind, _) => true,
        _ => false,
    }
}

/// Names each key that a row must not have, the keys that it can have, and the right place of the key or the nearest key.
fn tell_unknown_keys(row: &TableRow, hint: &HintText) {
    let Value::Table(table) = row.value else {
        return;
    };
    let version = version_of(row.root);
    for key in table.keys() {
        if !has_key(version, row.place, key.as_str()) {
            tell_unknown_key(version, row, key.as_str(), hint);
        }
    }
}

fn tell_unknown_key(version: TableVersion, row: &TableRow, key: &str, hint: &HintText) {
    begin_row(row, hint);
    hint.say_two(
        ": unknown key {?}; the keys in version {} are",
        key,
        version.number(),
    );
    for column in columns_of(version, row.place) {
        hint.say_one(" `{}`", column.key);
    }
    match where_it_belongs(version, row.place, key) {
        Some(place) => hint.end_one("; {}", place),
        None => say_nearest_key(version, row.place, key, hint),
    }
}

/// Says which key is the nearest to an unknown one, and ends the line.
fn say_nearest_key(version: TableVersion, place: TablePlace, key: &str, hint: &HintText) {
    let shown = short_text(key);
    let mut nearest = Nearest::to(shown.as_str());
    for column in columns_of(version, place) {
        nearest = nearest.or(hint.alloc, column.key);
    }
    nearest.tell("; the nearest is `{}`", hint);
    hint.end("");
}

/// The right place of a key that this row must not have in the version of its table. `None` if no row has the key.
fn where_it_belongs(version: TableVersion, place: TablePlace, key: &str) -> Option<&'static str> {
    match (key, place, version) {
        ("version", _, _) => Some(
            "`version` belongs to the top of the table, before the first [[..]]",
        ),
        ("output", TablePlace::Root, _) => Some(
            "outputs belong to a group: [[group.output]] after its [[group]]",
        ),
        ("rate", TablePlace::Root, _) => Some("in version 2 each [[group]] has its own `rate`"),
        ("rate", TablePlace::Group(_), _) => Some("`rate` of a group needs version = 2"),
        ("rate", _, TableVersion::One) => Some(
            "`rate` belongs to the top of the table, before the first [[..]]",
        ),
        ("rate", _, TableVersion::Two) => Some(
            "`rate` belongs to a [[group]], before its first [[group.output]]",
        ),
        ("hold", TablePlace::Output(_, _), _) => Some("`hold` needs version = 2"),
        _ => None,
    }
}

fn has_key(version: TableVersion, place: TablePlace, text: &str) -> bool {
    let mut columns = columns_of(version, place).iter();
    columns.any(|column| column.key == text)
}

/// Says which name of a row is unknown, which name is the nearest, and which names there are.
fn tell_unknown_name(row: &TableRow, hint: &HintText) {
    let key = match row.place {
        TablePlace::Source(_) => "receiver",
        _ => "source",
    };
    begin_row(row, hint);
    hint.say(": ");
    let rows = rows_at(row.root, key);
    say_unknown(key, text_at(row.value, key), rows, hint);
    hint.end("");
}
