//! A sheet as comma-separated values.
ghost use Rattle.std.specs.Prelude.{◌≡◌, IfOk, OnOk};
ghost use Rattle.csv.specs.Writing.{default_writer, row_text};
ghost use Rattle.a429_text.specs.CsvLines.{IsAtLine, WritesText};
ghost use Rattle.a429_text.specs.Sheets.{csv_text_of};

use crate::fields::TextRow;
use csv::{Error, Writer};
use std::alloc::{AllocError, Global};
use std::io::Write;

/// Writes a row as a line.
fn write_row<W: Write + Drop>(writer: &mut Writer<W>, row: &TextRow) -> Result<(), Error>
    requires { IsAtLine writer.old }
    ensures line { OnOk result (IsAtLine writer.new) }
    ensures text { WritesText W.contents result writer.old writer.new (row_text default_writer row.now) }
{
    writer.write_byte_record(row.record())
}

/// Writes a line for each row.
#[tactic(auto, unfolding(crate::specs::Sheets::csv_text_of))]
fn write_rows<W: Write + Drop>(writer: &mut Writer<W>, rows: &[TextRow]) -> Result<(), Error>
    requires { IsAtLine writer.old }
    ensures line { OnOk result (IsAtLine writer.new) }
    ensures text { WritesText W.contents result writer.old writer.new (csv_text_of rows.now) }
{
    for row in rows {
        write_row(writer, row)?;
    }
    Ok(())
}

/// A line for each row, with commas between its fields (RFC 4180, with a line feed at each line's end). Error: an
/// allocation failed, or the rows have different numbers of fields.
pub fn csv_text(alloc: Global, rows: &[TextRow]) -> Result<Vec<u8>, AllocError>
    ensures { IfOk result (λ text. text.items ≡ csv_text_of rows.now) }
{
    let mut writer = Writer::from_writer(Vec::new(alloc));
    if write_rows(&mut writer, rows).is_err() {
        return Err(AllocError);
    }
    writer.into_inner().map_err(|_| AllocError)
}
