//! What must be at each key of a table, as a text.

use crate::lists::text_under;
use a429_equipment::{GROUPS, LONGEST_INTERVAL, OUTPUTS, RECEIVERS, SOURCES};
use a429_filter::FILTERS;
use a429_table::{Column, FaultKind, Shape};
use toml::Value;

/// The keys of arrays of tables, and what must be at each.
static ARRAYS: [&str; 4] = [
    "receiver: an array of at most 16 tables, [[receiver]]",
    "source: an array of at most 256 tables, [[source]]",
    "group: an array of at most 8 tables, [[group]]",
    "output: an array of 1 to 128 tables, [[group.output]]",
];

/// The other keys, and what must be at each.
static VALUES: [&str; 11] = [
    "version: an integer, 1 or 2",
    "rate: an integer, 100000 or 12000 to 14500 (bit/s)",
    "name: a text of 1 to 16 characters of `a` to `z`, `0` to `9`, `-` and `_`",
    "filters: an array of at most 32 texts LLL/MMM, such as [\"200/370\"]",
    "receiver: a text, the name of a receiver",
    "label: a text of three octal digits from 000 to 377, such as \"203\"",
    "sdi: an integer from 0 to 3, or the text \"any\"",
    "source: a text, the name of a source",
    "min_us: an integer from 1 to max_us (microseconds)",
    "max_us: an integer from min_us to 30000000 (microseconds)",
    "hold: an integer from 1 to 1000000; without a limit leave the key out",
];

/// What must be at a key, as a text for people; the empty text for a key that has no such text.
pub fn form(column: &Column) -> &'static str {
    match column.shape {
        Shape::Tables => text_under(&ARRAYS, column.key),
        _ => text_under(&VALUES, column.key),
    }
}

/// Whether the value at a key has a fault of this kind, seen from this key alone.
pub fn is_faulty(column: &Column, kind: FaultKind, found: Option<&Value>) -> bool {
    match (kind, found) {
        (FaultKind::MissingKey, None) => column.required,
        (FaultKind::WrongKind, Some(value)) => !takes(column.shape, value),
        (FaultKind::TooMany, Some(Value::Array(rows))) => rows.len() > most(column.key),
        (FaultKind::Hold, None) => false,
        (FaultKind::Interval, Some(Value::Integer(us))) => {
            column.key == "min_us" && *us < 1
                || column.key == "max_us" && *us > i64::from(LONGEST_INTERVAL)
        }
        _ => column.key == key_of(kind),
    }
}

/// The key that a fault of this kind is about; empty if it may be any, or two.
fn key_of(kind: FaultKind) -> &'static str {
    match kind {
        FaultKind::Version => "version",
        FaultKind::Rate => "rate",
        FaultKind::Name => "name",
        FaultKind::Label => "label",
        FaultKind::Sdi => "sdi",
        FaultKind::EmptyGroup => "output",
        FaultKind::Hold => "hold",
        _ => "",
    }
}

/// Whether a value has the kind that must be at a key.
fn takes(shape: Shape, value: &Value) -> bool {
    match shape {
        Shape::Integer => value.is_integer(),
        Shape::Text => value.is_str(),
        Shape::IntegerOrText => value.is_integer() || value.is_str(),
        Shape::Texts | Shape::Tables => value.is_array(),
    }
}

/// The maximum number of rows at a key.
fn most(key: &str) -> usize {
    match key {
        "receiver" => RECEIVERS,
        "source" => SOURCES,
        "group" => GROUPS,
        "filters" => FILTERS,
        _ => OUTPUTS,
    }
}

/// The bit rate in bit/s, if a number is one of the two usual bit rates in kbit/s, 100 and 12.5. `None` for any other
/// value.
pub fn kilobits(found: Option<&Value>) -> Option<u32> {
    match found {
        Some(Value::Integer(100)) => Some(100000),
        Some(Value::Float(number)) if *number == 100.0 => Some(100000),
        Some(Value::Float(number)) if *number == 12.5 => Some(12500),
        _ => None,
    }
}
