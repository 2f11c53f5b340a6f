//! The value at a key of a table.

ghost use Rattle.std.specs.Prelude.{◌≡◌, map, Some};
ghost use Rattle.toml.specs.Data.{get};
ghost use Rattle.toml.specs.View.{view};
ghost use Rattle.a429_table.specs.Tree.{text_of, text_at, integer_at, get_integer, rows_at};

use toml::Value;

/// The text at a key; the empty text if there is no text.
#[tactic(auto, unfolding(crate::specs::Tree::text_at))]
pub fn text_at<'a>(table: &'a Value, key: &str) -> &'a str
    ensures { result.now ≡ text_at key.now (view table.now) }
{
    match table.get(key) {
        Some(Value::String(text)) => text.as_str(),
        _ => "",
    }
}

/// The integer at a key; 0 if there is no integer.
#[tactic(auto, unfolding(crate::specs::Tree::integer_at))]
pub fn integer_at(table: &Value, key: &str) -> i64
    ensures { result ≡ integer_at key.now (view table.now) }
{
    match table.get(key) {
        Some(Value::Integer(number)) => *number,
        _ => 0,
    }
}

/// The integer at a key. `None` if the key is absent or its value is no integer.
#[tactic(auto, unfolding(crate::specs::Tree::get_integer))]
pub fn get_integer(table: &Value, key: &str) -> Option<i64>
    ensures { result ≡ get_integer key.now (view table.now) }
{
    match table.get(key) {
        Some(Value::Integer(number)) => Some(*number),
        _ => None,
    }
}

/// The elements of the array at a key; nothing if there is no array.
#[tactic(auto, unfolding(crate::specs::Tree::rows_at))]
pub fn rows_at<'a>(table: &'a Value, key: &str) -> &'a [Value]
    ensures { map view result.now ≡ rows_at key.now (view table.now) }
{
    match table.get(key) {
        Some(Value::Array(rows)) => rows.as_slice(),
        _ => &[],
    }
}

/// A text; the empty text if the value is not a text.
pub fn text_of(value: &Value) -> &str
    ensures { result.now ≡ text_of (Some (view value.now)) }
{
    match value {
        Value::String(text) => text.as_str(),
        _ => "",
    }
}
