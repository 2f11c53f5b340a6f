//! Rows of cells.
ghost use Rattle.std.specs.Prelude.{◌≡◌, ◌==◌, ◌++◌, ◌∷◌, [], length, map, option_map, IfOk, OnOk};
ghost use Rattle.a429_text.specs.Sheets.{field_of, text_at};

use crate::cells::{Cell, Row};
use crate::gathered::Gathered;
use std::alloc::{AllocError, Global};
use std::marker::Model;

/// Rows of cells. Clauses see all rows that were added. If an allocation fails for one, the call that reads them
/// returns the error.
#[derive(Drop)]
pub struct Rows {
    alloc: Global,
    rows: Gathered<Row>,
}

impl Model for Rows {
    ghost use Rattle.std.specs.Prelude.{List};
    ghost use Rattle.a429_text.specs.Fields.{Field};

    ghost Value = { List (List Field) };

    ghost view = { λ r. r.rows };
}

impl Rows {
    /// An empty list of rows.
    pub fn new(alloc: Global) -> Rows
        ensures { result ≡ [] }
    {
        Rows {
            alloc,
            rows: Gathered::new(alloc),
        }
    }

    /// Adds a row of these cells at the end.
    pub fn add(&mut self, cells: &[Cell<'_>])
        ensures { self.new ≡ self.old ++ map field_of cells.now ∷ [] }
    {
        self.rows.push(Row::of(self.alloc, cells));
    }

    /// Adds a row with further cells at its end. Error: an allocation failed for a cell of the row.
    pub fn add_wider(&mut self, row: &Row, more: &[Cell<'_>]) -> Result<(), AllocError>
        ensures { OnOk result (self.new ≡ self.old ++ (row.now ++ map field_of more.now) ∷ []) }
    {
        self.rows.push(row.wider(self.alloc, more)?);
        Ok(())
    }

    /// Whether there is no row. Error: an allocation failed for a row.
    pub fn is_empty(&self) -> Result<bool, AllocError>
        ensures { IfOk result (λ empty. empty ≡ (length self.now == 0)) }
    {
        let rows = self.as_slice()?;
        Ok(rows.is_empty())
    }

    /// The text in a row and a column, counted from 0; `None` if the cell is absent or outside the rows. Error: an
    /// allocation failed.
    pub fn text(&self, row: usize, column: usize) -> Result<Option<&[u8]>, AllocError>
        ensures { IfOk result (λ text. option_map (λ t. t.now) text ≡ text_at row column self.now) }
    {
        match self.as_slice()?.get(row) {
            Some(row) => row.text(column),
            None => Ok(None),
        }
    }

    /// The rows. Error: an allocation failed for one of them.
    pub fn as_slice(&self) -> Result<&[Row], AllocError>
        ensures { IfOk result (λ rows. rows.now ≡ self.now) }
    {
        self.rows.as_slice()
    }
}
