//! A sheet as JSON (RFC 8259): an array of objects, a line each.
ghost use Rattle.std.specs.Prelude.{◌≡◌, ◌++◌, ◌<◌, [], codes, map, IfOk, OnOk};
ghost use Rattle.std.specs.List.{flat_map};
ghost use Rattle.a429_text.specs.Fields.{escaped, field_json, hex_digit, json_text, lines_json, members, quoted, row_json};
ghost use Rattle.a429_text.specs.Sheets.{kept_field};

use crate::cells::{KeptCell, Row};
use crate::rows::Rows;
use crate::text::Text;
use std::alloc::{AllocError, Global};

/// A digit of a number in hexadecimal.
fn hex_digit(number: u8) -> u8
    requires { number < 16 }
    ensures { result ≡ hex_digit number }
{
    if number < 10 {
        b'0' + number
    } else {
        b'a' + (number - 10)
    }
}

/// Writes a byte of a text within quotes.
fn put_escaped(text: &mut Text, byte: u8)
    ensures { text.new ≡ text.old ++ escaped byte }
{
    if byte == b'"' || byte == b'\\' {
        text.put_bytes(&[b'\\', byte]);
    } else if byte < 32 {
        text.put("\\u00");
        text.put_bytes(&[hex_digit(byte / 16), hex_digit(byte % 16)]);
    } else {
        text.put_bytes(&[byte]);
    }
}

/// Writes the bytes of a text, each as it is written within quotes.
fn put_all_escaped(text: &mut Text, words: &[u8])
    ensures { text.new ≡ text.old ++ flat_map escaped words.now }
{
    for byte in words {
        put_escaped(text, *byte);
    }
}

/// Writes a text within quotes.
fn put_quoted(text: &mut Text, words: &[u8])
    ensures { text.new ≡ text.old ++ quoted words.now }
{
    text.put("\"");
    put_all_escaped(text, words);
    text.put("\"");
}

/// Writes a cell.
fn put_cell(text: &mut Text, cell: &KeptCell) -> Result<(), AllocError>
    ensures { OnOk result (text.new ≡ text.old ++ field_json (kept_field cell.now)) }
{
    match cell {
        KeptCell::Text(words) => put_quoted(text, words.as_bytes()?),
        KeptCell::Number(number) => text.put_number(*number),
        KeptCell::Signed(number) => text.put_signed(*number),
        KeptCell::Tenths(number) => text.put_tenths(*number),
        KeptCell::Absent => text.put("null"),
    }
    Ok(())
}

/// Writes a member of an object, after the mark that comes before it.
fn put_member(text: &mut Text, mark: &[u8], name: &str, cell: &KeptCell) -> Result<(), AllocError>
    ensures { OnOk result (text.new ≡ text.old ++ (mark.now ++ (quoted name.now ++ (codes ":" ++ field_json (kept_field cell.now))))) }
{
    text.put_bytes(mark);
    put_quoted(text, name.as_bytes());
    text.put(":");
    put_cell(text, cell)
}

/// Writes the members of an object, after the mark that comes before the first.
fn put_members(
    text: &mut Text,
    mark: &[u8],
    columns: &[&str],
    cells: &[KeptCell],
) -> Result<(), AllocError>
    ensures { OnOk result (text.new ≡ text.old ++ members mark.now (map (λ name. name.now) columns.now) (map kept_field cells.now)) }
{
    let Some((name, names)) = columns.split_first() else {
        return Ok(());
    };
    let Some((cell, others)) = cells.split_first() else {
        return Ok(());
    };
    put_member(text, mark, *name, cell)?;
    put_members(text, b",", names, others)
}

/// Writes a row as an object.
fn put_row(text: &mut Text, columns: &[&str], row: &Row) -> Result<(), AllocError>
    ensures { OnOk result (text.new ≡ text.old ++ row_json (map (λ name. name.now) columns.now) row.now) }
{
    text.put("{");
    put_members(text, b"", columns, row.cells()?)?;
    text.put("}");
    Ok(())
}

/// Writes each row as an object.
fn put_rows(text: &mut Text, columns: &[&str], rows: &[Row]) -> Result<(), AllocError>
    ensures { OnOk result (text.new ≡ text.old ++ lines_json [] (map (λ name. name.now) columns.now) rows.now) }
{
    let mut mark: &[u8] = b"";
    for row in rows {
        text.put_bytes(mark);
        put_row(text, columns, row)?;
        mark = b",\n";
    }
    Ok(())
}

/// An array with an object for each row, whose members have the names of the columns. Error: an allocation failed.
#[tactic(auto, unfolding(crate::specs::Fields::json_text))]
pub fn json_text(alloc: Global, columns: &[&str], rows: &Rows) -> Result<Vec<u8>, AllocError>
    ensures { IfOk result (λ text. text.items ≡ json_text (map (λ name. name.now) columns.now) rows.now) }
{
    let mut text = Text::new(alloc);
    text.put("[\n");
    put_rows(&mut text, columns, rows.as_slice()?)?;
    text.put("\n]\n");
    text.into_bytes()
}
