//! Rows as texts.
ghost use Rattle.std.specs.Prelude.{◌≡◌, length, map, IfOk, OnOk};
ghost use Rattle.std.specs.Fmt.{decimal, signed_decimal};
ghost use Rattle.csv.specs.Records.{fields_of};
ghost use Rattle.a429_text.specs.Aligned.{field_in};
ghost use Rattle.a429_text.specs.CsvLines.{HasGained, IsWhole};
ghost use Rattle.a429_text.specs.Fields.{field_text, texts_of};
ghost use Rattle.a429_text.specs.Sheets.{kept_field};
ghost use Rattle.a429_text.specs.Texts.{tenths};

use crate::cells::{KeptCell, Row};
use crate::rows::Rows;
use crate::text::Text;
use csv::ByteRecord;
use itoa::Buffer;
use std::alloc::{AllocError, Global};
use std::marker::Model;

/// The texts of a row.
#[derive(Drop)]
pub struct TextRow {
    fields: ByteRecord,
}

impl Model for TextRow {
    ghost use Rattle.std.specs.Prelude.{List, ℕ};
    ghost use Rattle.csv.specs.Records.{fields_of};

    ghost Value = { List (List ℕ) };

    ghost view = { λ row. fields_of row.fields };
}

impl TextRow {
    /// How many texts there are.
    pub fn len(&self) -> usize
        ensures { result ≡ length self.now }
    {
        self.fields.len()
    }

    /// The text in a column, counted from 0; after the last one, an empty text.
    pub fn field(&self, column: usize) -> &[u8]
        ensures { result.now ≡ field_in column self.now }
    {
        match self.fields.get(column) {
            Some(field) => field,
            None => &[],
        }
    }

    /// The texts, as the library `csv` takes them.
    pub fn record(&self) -> &ByteRecord
        ensures { fields_of result.now ≡ self.now }
    {
        &self.fields
    }
}

/// Adds a text at the end of a record.
fn push(fields: &mut ByteRecord, text: &[u8]) -> Result<(), AllocError>
    requires { IsWhole fields.old }
    ensures { OnOk result (HasGained fields.old fields.new text.now) }
{
    fields.push_field(text)
}

/// Adds a number in decimal.
fn push_number(fields: &mut ByteRecord, number: u64) -> Result<(), AllocError>
    requires { IsWhole fields.old }
    ensures { OnOk result (HasGained fields.old fields.new (decimal number)) }
{
    let mut room = Buffer::new();
    push(fields, room.format(number).as_bytes())
}

/// Adds a number that may be below 0 in decimal.
fn push_signed(fields: &mut ByteRecord, number: i32) -> Result<(), AllocError>
    requires { IsWhole fields.old }
    ensures { OnOk result (HasGained fields.old fields.new (signed_decimal number)) }
{
    let mut room = Buffer::new();
    push(fields, room.format(number).as_bytes())
}

/// Adds a number of tenths in decimal, with one digit after the point.
fn push_tenths(alloc: Global, fields: &mut ByteRecord, number: u64) -> Result<(), AllocError>
    requires { IsWhole fields.old }
    ensures { OnOk result (HasGained fields.old fields.new (tenths number)) }
{
    let mut text = Text::new(alloc);
    text.put_tenths(number);
    push(fields, text.as_bytes()?)
}

/// Adds the text of a cell, this one if nothing is said.
fn push_cell(
    alloc: Global,
    fields: &mut ByteRecord,
    absent: &str,
    cell: &KeptCell,
) -> Result<(), AllocError>
    requires { IsWhole fields.old }
    ensures { OnOk result (HasGained fields.old fields.new (field_text absent.now (kept_field cell.now))) }
{
    match cell {
        KeptCell::Text(text) => push(fields, text.as_bytes()?),
        KeptCell::Number(number) => push_number(fields, *number),
        KeptCell::Signed(number) => push_signed(fields, *number),
        KeptCell::Tenths(number) => push_tenths(alloc, fields, *number),
        KeptCell::Absent => push(fields, absent.as_bytes()),
    }
}

/// The names of columns.
fn names(alloc: Global, columns: &[&str]) -> Result<TextRow, AllocError>
    ensures { IfOk result (λ row. row ≡ map (λ name. name.now) columns.now) }
{
    let mut fields = ByteRecord::new(alloc);
    for name in columns {
        push(&mut fields, name.as_bytes())?;
    }
    Ok(TextRow { fields })
}

/// The texts of the cells of a row.
fn texts_of_row(alloc: Global, absent: &str, row: &Row) -> Result<TextRow, AllocError>
    ensures { IfOk result (λ texts. texts ≡ map (field_text absent.now) row.now) }
{
    let mut fields = ByteRecord::new(alloc);
    for cell in row.cells()? {
        push_cell(alloc, &mut fields, absent, cell)?;
    }
    Ok(TextRow { fields })
}

/// The names of columns, and then the texts of each row. An absent cell has the text `absent`. Error: an allocation
/// failed.
pub fn texts_of(
    alloc: Global,
    absent: &str,
    columns: &[&str],
    rows: &Rows,
) -> Result<Vec<TextRow>, AllocError>
    ensures { IfOk result (λ texts. texts.items ≡ texts_of absent.now (map (λ name. name.now) columns.now) rows.now) }
{
    let mut texts = Vec::new(alloc);
    texts.push(names(alloc, columns)?)?;
    for row in rows.as_slice()? {
        texts.push(texts_of_row(alloc, absent, row)?)?;
    }
    Ok(texts)
}
