//! Faults in the shape of a table: its version, its keys, and the kinds of its values.

ghost use Rattle.std.specs.Prelude.{◌≡◌, not};
ghost use Rattle.std.specs.List.{list_any};
ghost use Rattle.toml.specs.Data.{get};
ghost use Rattle.toml.specs.View.{view, table_view};
ghost use Rattle.a429_table.specs.Tree.{is_table, member_keys};
ghost use Rattle.a429_table.specs.Columns.{column_view};
ghost use Rattle.a429_table.specs.Stops.{stop_view};
ghost use Rattle.a429_table.specs.Faults.{is_text, has_shape, misfits, fills, fits_columns, is_column_key, has_wrong_version, has_unknown_key, lacks_key, has_wrong_kind};

use crate::columns::{Column, Shape, columns_of};
use crate::fault::TablePlace;
use crate::tree::integer_at;
use crate::walk::Stop;
use a429_equipment::TableVersion;
use toml::{Table, Value};

/// Whether `version` is absent, or is neither the integer 1 nor the integer 2.
#[tactic(auto, unfolding(crate::specs::Faults::has_wrong_version))]
pub fn has_wrong_version(stop: &Stop) -> bool
    ensures { result ≡ has_wrong_version stop.now.place (view stop.now.value.now) }
{
    match stop.place {
        TablePlace::Root => !matches!(integer_at(stop.value, "version"), 1 | 2),
        _ => false,
    }
}

fn is_column_key(version: TableVersion, place: TablePlace, key: &str) -> bool
    ensures { result ≡ is_column_key version place key.now }
{
    columns_of(version, place)
        .iter()
        .any(|column| column.key == key)
}

/// Whether the table has a key that is not one of its columns.
#[tactic(auto, unfolding(crate::specs::Faults::has_unknown_key))]
pub fn has_unknown_key(version: TableVersion, stop: &Stop) -> bool
    ensures { result ≡ has_unknown_key version stop.now.place (view stop.now.value.now) }
{
    match stop.value {
        Value::Table(table) => table_has_unknown_key(version, stop.place, table),
        _ => false,
    }
}

fn table_has_unknown_key(version: TableVersion, place: TablePlace, table: &Table) -> bool
    ensures { result ≡ list_any (λ key. not (is_column_key version place key)) (member_keys (table_view table.now)) }
{
    table
        .keys()
        .any(|key| !is_column_key(version, place, key.as_str()))
}

/// Whether the table lacks a key that it must have.
#[tactic(auto, unfolding(crate::specs::Faults::lacks_key))]
pub fn lacks_key(version: TableVersion, stop: &Stop) -> bool
    ensures { result ≡ lacks_key version stop.now.place (view stop.now.value.now) }
{
    stop.value.is_table()
        && columns_of(version, stop.place).iter().any(|column| column.required
            && stop.value.get(column.key).is_none())
}

fn is_text(value: &Value) -> bool
    ensures { result ≡ is_text (view value.now) }
{
    matches!(value, Value::String(_))
}

fn has_shape(shape: Shape, value: &Value) -> bool
    ensures { result ≡ has_shape shape (view value.now) }
{
    match (shape, value) {
        (Shape::Integer | Shape::IntegerOrText, Value::Integer(_)) => true,
        (Shape::Text | Shape::IntegerOrText, Value::String(_)) => true,
        (Shape::Texts, Value::Array(values)) => values.iter().all(is_text),
        (Shape::Tables, Value::Array(_)) => true,
        _ => false,
    }
}

fn misfits(value: &Value, c: &Column) -> bool
    ensures { result ≡ misfits (view value.now) (column_view c.now) }
{
    match value.get(c.key) {
        Some(found) => !has_shape(c.shape, found),
        None => false,
    }
}

/// Whether the value at a column has its shape, or there is none and none is required.
fn fills(value: &Value, column: &Column) -> bool
    ensures { result ≡ fills (view value.now) (column_view column.now) }
{
    match value.get(column.key) {
        Some(found) => has_shape(column.shape, found),
        None => !column.required,
    }
}

/// Whether the value is a table that lacks no key, and each value in it is of the kind of its column. This takes one walk
/// over the columns.
#[tactic(auto, unfolding(crate::specs::Faults::fits_columns))]
pub fn fits_columns(version: TableVersion, stop: &Stop) -> bool
    ensures { result ≡ fits_columns version (stop_view stop.now) }
{
    stop.value.is_table()
        && columns_of(version, stop.place)
            .iter()
            .all(|column| fills(stop.value, column))
}

/// Whether the value is something other than a table, or a value in it is not of the kind of its column.
#[tactic(auto, unfolding(crate::specs::Faults::has_wrong_kind))]
pub fn has_wrong_kind(version: TableVersion, stop: &Stop) -> bool
    ensures { result ≡ has_wrong_kind version stop.now.place (view stop.now.value.now) }
{
    !stop.value.is_table()
        || columns_of(version, stop.place)
            .iter()
            .any(|column| misfits(stop.value, column))
}
