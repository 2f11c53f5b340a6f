//! Sheets, and the forms in which they are given.
ghost use Rattle.std.specs.Prelude.{◌≡◌, map, IfOk};
ghost use Rattle.a429_text.specs.Sheets.{sheet_text};

use crate::aligned::aligned_text;
use crate::csv_text::csv_text;
use crate::fields::texts_of;
use crate::json::json_text;
use crate::rows::Rows;
use std::alloc::{AllocError, Global};

/// The form in which a sheet is given.
#[derive(Clone, Copy)]
pub enum SheetForm {
    /// In columns, for people: each is as wide as its widest field, and two spaces are between two.
    Columns,
    /// As comma-separated values (RFC 4180, with a line feed at each line's end).
    Csv,
    /// As JSON (RFC 8259): an array with an object for each row, whose members have the names of the columns.
    Json,
}

/// Rows of cells under named columns.
#[derive(Drop)]
pub struct Sheet {
    pub columns: &'static [&'static str],
    pub rows: Rows,
}

/// Rows under the names of columns in a form: the names and then a line for each row, or an array of objects. An absent
/// cell is `-` in columns, nothing in comma-separated values, and `null` in JSON. Error: an allocation failed for a row or
/// for the text.
pub fn render_rows(
    alloc: Global,
    form: SheetForm,
    columns: &[&str],
    rows: &Rows,
) -> Result<Vec<u8>, AllocError>
    ensures { IfOk result (λ text. text.items ≡ sheet_text form (map (λ name. name.now) columns.now) rows.now) }
{
    match form {
        SheetForm::Columns => aligned_text(alloc, &texts_of(alloc, "-", columns, rows)?),
        SheetForm::Csv => csv_text(alloc, &texts_of(alloc, "", columns, rows)?),
        SheetForm::Json => json_text(alloc, columns, rows),
    }
}

impl Sheet {
    /// The sheet in a form: what `render_rows` gives. Error: an allocation failed for a row or for the text.
    pub fn render(&self, alloc: Global, form: SheetForm) -> Result<Vec<u8>, AllocError>
        ensures { IfOk result (λ text. text.items ≡ sheet_text form (map (λ name. name.now) self.now.columns.now) self.now.rows) }
    {
        render_rows(alloc, form, self.columns, &self.rows)
    }
}
