//! Rows of a table and their values, as a person sees them.

use crate::hint::HintText;
use a429_table::{TablePlace, rows_at};
use std::fmt::InlineText;
use toml::Value;

/// A row of the table: the table itself, or an element of one of its arrays.
#[derive(Clone, Copy)]
pub struct TableRow<'a> {
    pub root: &'a Value,
    pub place: TablePlace,
    pub value: &'a Value,
}

impl<'a> TableRow<'a> {
    /// The row of a place. `None` if there is no such row.
    pub fn at(root: &'a Value, place: TablePlace) -> Option<TableRow<'a>> {
        let value = match place {
            TablePlace::Root => root,
            TablePlace::Receiver(row) => rows_at(root, "receiver").get(row)?,
            TablePlace::Source(row) => rows_at(root, "source").get(row)?,
            TablePlace::Group(row) => rows_at(root, "group").get(row)?,
            TablePlace::Output(group, row) => {
                let group = rows_at(root, "group").get(group)?;
                rows_at(group, "output").get(row)?
            }
        };
        Some(TableRow { root, place, value })
    }
}

/// Says the place of a row as the refusal writes it, and its name: `source 3 "alt"`. The name of an output is that of its
/// source.
pub fn say_row(row: &TableRow, hint: &HintText) {
    hint.say_value("", row.place);
    let key = match row.place {
        TablePlace::Output(_, _) => "source",
        _ => "name",
    };
    if let Some(Value::String(name)) = row.value.get(key) {
        hint.say_one(" {?}", name.as_str());
    }
}

/// Says words, and what is at a key: a single value as a table writes it, or the kind of value.
pub fn say_found(words: &str, found: Option<&Value>, hint: &HintText) {
    hint.say(words);
    match found {
        Some(Value::String(text)) => hint.say_one("{?}", text.as_str()),
        Some(Value::Integer(number)) => hint.say_value("", *number),
        Some(Value::Float(number)) => write!(hint, "{number:?}"),
        Some(Value::Boolean(is_so)) => hint.say_value("", *is_so),
        Some(Value::Datetime(_)) => hint.say("a date or a time"),
        Some(Value::Array(rows)) => hint.say_one("an array of {}", rows.len()),
        Some(Value::Table(_)) => hint.say("a table"),
        None => hint.say("missing"),
    }
}

/// The first 48 bytes of a text, or fewer if a character would be cut. A longer text ends in dots.
pub fn short_text(text: &str) -> InlineText<48> {
    InlineText::of(text)
}

/// The integer at a key. `None` if there is none.
pub fn integer_at(table: &Value, key: &str) -> Option<i64> {
    match table.get(key) {
        Some(Value::Integer(number)) => Some(*number),
        _ => None,
    }
}
