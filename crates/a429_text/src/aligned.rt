//! A sheet in columns, for people.
ghost use Rattle.std.specs.Prelude.{◌≡◌, ◌<◌, ◌++◌, length, slice_index, IfOk};
ghost use Rattle.std.specs.List.{flat_map, list_any};
ghost use Rattle.a429_text.specs.Aligned.{aligned_row, aligned_text, begins_character, characters, column_text, columns_of, is_control, padded, shown, shown_byte, width_of, widths_of};

use crate::fields::TextRow;
use crate::gathered::Gathered;
use crate::text::Text;
use std::alloc::{AllocError, Global};

/// Whether a byte is a control character of ASCII, which a terminal may obey.
fn is_control(byte: u8) -> bool
    ensures { result ≡ is_control byte }
{
    byte < 32 || byte == 127
}

/// Whether a byte begins a character of UTF-8.
fn begins_character(byte: u8) -> bool
    ensures { result ≡ begins_character byte }
{
    byte < 128 || 191 < byte
}

/// How many characters a text has.
fn characters(text: &[u8]) -> usize
    ensures { result ≡ characters text.now }
{
    text.iter().filter(|byte| begins_character(**byte)).count()
}

/// How many characters the widest text of a column has.
fn width(rows: &[TextRow], column: usize) -> usize
    ensures { result ≡ width_of column rows.now }
{
    rows.iter()
        .fold(0, |width, row| width.max(characters(row.field(column))))
}

/// How many texts the longest row has.
fn columns(rows: &[TextRow]) -> usize
    ensures { result ≡ columns_of rows.now }
{
    rows.iter().fold(0, |columns, row| columns.max(row.len()))
}

/// The width of each column.
fn widths(alloc: Global, rows: &[TextRow]) -> Gathered<usize>
    ensures { result ≡ widths_of rows.now }
{
    let mut widths = Gathered::new(alloc);
    for column in 0..columns(rows) {
        widths.push(width(rows, column));
    }
    widths
}

/// Writes a byte, or the picture of a control character.
fn put_byte(text: &mut Text, byte: u8)
    ensures { text.new ≡ text.old ++ shown_byte byte }
{
    if byte == 127 {
        text.put_bytes(&[226, 144, 161]);
    } else if byte < 32 {
        text.put_bytes(&[226, 144, 128 + byte]);
    } else {
        text.put_bytes(&[byte]);
    }
}

/// Writes a text with pictures in the place of its control characters.
fn put_pictures(text: &mut Text, field: &[u8])
    ensures { text.new ≡ text.old ++ shown field.now }
{
    for byte in field {
        put_byte(text, *byte);
    }
}

/// Whether a text has a control character.
fn has_control(field: &[u8]) -> bool
    ensures { result ≡ list_any is_control field.now }
{
    field.iter().any(|byte| is_control(*byte))
}

/// Writes a text as people read it. Most have no control character, and are written in one call.
fn put_shown(text: &mut Text, field: &[u8])
    ensures { text.new ≡ text.old ++ shown field.now }
{
    if has_control(field) {
        put_pictures(text, field);
    } else {
        text.put_bytes(field);
    }
}

/// Writes a text, and spaces after it up to the width of its column.
fn put_padded(text: &mut Text, width: usize, field: &[u8])
    ensures { text.new ≡ text.old ++ padded width field.now }
{
    put_shown(text, field);
    text.put_spaces(width.saturating_sub(characters(field)));
}

/// The width of a column; after the last column, none.
fn width_at(widths: &[usize], column: usize) -> usize
    ensures { result ≡ slice_index widths.now column }
{
    widths.get(column).copied().unwrap_or(0)
}

/// Writes the text of a row in a column, and what is between it and the next.
fn put_column(text: &mut Text, widths: &[usize], row: &TextRow, column: usize)
    requires { column < length row.now }
    ensures { text.new ≡ text.old ++ column_text widths.now row.now column }
{
    let fields = row.len();
    let field = row.field(column);
    if column + 1 < fields {
        put_padded(text, width_at(widths, column), field);
        text.put_spaces(2);
    } else {
        put_shown(text, field);
    }
}

/// Writes a row as a line.
fn put_row(text: &mut Text, widths: &[usize], row: &TextRow)
    ensures { text.new ≡ text.old ++ aligned_row widths.now row.now }
{
    for column in 0..row.len() {
        put_column(text, widths, row, column);
    }
    text.put("\n");
}

/// Writes a line for each row.
fn put_rows(text: &mut Text, widths: &[usize], rows: &[TextRow])
    ensures { text.new ≡ text.old ++ flat_map (aligned_row widths.now) rows.now }
{
    for row in rows {
        put_row(text, widths, row);
    }
}

/// A line for each row. Each column is as wide as its widest text, in characters, and two spaces are between two columns. A
/// control character of ASCII is shown by its picture in Unicode. Error: an allocation failed.
#[tactic(auto, unfolding(crate::specs::Aligned::aligned_text))]
pub fn aligned_text(alloc: Global, rows: &[TextRow]) -> Result<Vec<u8>, AllocError>
    ensures { IfOk result (λ text. text.items ≡ aligned_text rows.now) }
{
    let widths = widths(alloc, rows).into_vec()?;
    let mut text = Text::new(alloc);
    put_rows(&mut text, &widths, rows);
    text.into_bytes()
}
