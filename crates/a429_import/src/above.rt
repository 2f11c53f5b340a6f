//! Rows of data above the heading: a sheet that was sorted with its heading has them. They would be passed over, as titles are.
ghost use Rattle.std.specs.Prelude.{◌≡◌, IfOk};
ghost use Rattle.csv.specs.Records.{fields_of};
ghost use Rattle.a429_import.specs.FaultLines.{data_line, data_line_above, first_row, is_data};
ghost use Rattle.a429_import.specs.ImportMaps.{given_texts, names_by};
ghost use Rattle.a429_import.specs.Imports.{separated};
ghost use Rattle.a429_import.specs.LineCounts.{IsEnd};

use crate::columns::Heading;
use crate::fault::ImportColumn;
use crate::fields::label_in;
use crate::forms::{Form, text_before};
use crate::lines::{count_before, line_of, rows_of};
use crate::maps::named_by;
use crate::refused::{RefusedRows, titled_rows};
use a429_text::CsvLine;
use csv::ByteRecord;
use std::alloc::{AllocError, Global};

/// The heading of a text, as it is written; a row without fields if the text has none. The form is that of the text.
fn titles_of(alloc: Global, text: &[u8], form: Form<'_>) -> Result<CsvLine, AllocError>
    requires { IsEnd text.now form.text.now }
    ensures { IfOk result (λ line. fields_of line.fields ≡ first_row (separated form.entry.separator) form.entry.text.now) }
{
    let mut count = count_before(text, form.text);
    let mut rows = rows_of(alloc, form);
    let first = rows.next();
    // One call, instead of a drop of each of its parts.
    std::mem::drop(rows);
    match first {
        Some(row) => {
            let line = line_of(alloc, text, form, &mut count, row)?;
            Ok(line)
        }
        None => Ok(CsvLine {
            number: 1,
            separator: form.separator,
            fields: ByteRecord::new(alloc),
        }),
    }
}

/// Whether a row is one of data: it has as many fields as the heading, and a label.
fn is_data(heading: &Heading, row: &CsvLine) -> bool
    ensures { result ≡ is_data (fields_of heading.now.line.fields) (fields_of row.now.fields) }
{
    row.len() == heading.line.len()
        && label_in(heading.field_of(row, ImportColumn::Label)).is_some()
}

/// The line on which the first row of data of a text begins.
fn data_line(alloc: Global, heading: &Heading, form: Form<'_>) -> Result<Option<u64>, AllocError>
    ensures { IfOk result (λ line. line
        ≡ data_line (separated form.entry.separator) (fields_of heading.now.line.fields) form.entry.text.now) }
{
    let mut count = count_before(form.text, form.text);
    let mut found = None;
    for row in rows_of(alloc, form) {
        let line = line_of(alloc, form.text, form, &mut count, row)?;
        found = found.or(is_data(heading, &line).then_some(line.number));
    }
    Ok(found)
}

/// The line on which the first row of data above the heading begins, counted from 1. `None` if no row of data is above
/// it; otherwise `refused` gets the heading. The form is that of the text. Error: an allocation failed.
pub fn line_above(
    alloc: Global,
    maps: &[&str],
    text: &[u8],
    form: Form<'_>,
    refused: &mut Option<RefusedRows>,
) -> Result<Option<u64>, AllocError>
    requires { IsEnd text.now form.text.now }
    ensures { IfOk result (λ line. line
        ≡ data_line_above (separated form.entry.separator) (given_texts maps.now) form.entry.text.now text.now) }
{
    let above = text_before(form.text, text);
    if above.is_empty() {
        return Ok(None);
    }
    let titles = titles_of(alloc, text, form)?;
    let rows = titled_rows(alloc, &titles)?;
    let lines = Form {
        separator: form.separator,
        text: above,
    };
    let heading = Heading::of(named_by(alloc, maps, titles)?);
    let line = data_line(alloc, &heading, lines)?;
    if line.is_some() {
        *refused = Some(rows);
    }
    Ok(line)
}
