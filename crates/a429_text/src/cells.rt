//! Cells of a sheet.
ghost use Rattle.std.specs.Prelude.{◌≡◌, ◌++◌, map, option_map, IfOk};
ghost use Rattle.a429_text.specs.Sheets.{field_of, kept_field, text_in};
ghost use Rattle.a429_text.specs.Texts.{formula, octal};

use crate::gathered::Gathered;
use crate::text::Text;
use std::alloc::{AllocError, Global};
use std::marker::Model;

/// What is written into a cell.
#[derive(Clone, Copy)]
pub enum Cell<'a> {
    Text(&'a str),
    Number(u64),
    /// A number that may be below 0.
    Signed(i32),
    /// A number of tenths, as a number with one decimal: 37 is `3.7`.
    Tenths(u64),
    /// A raw word as eight hexadecimal digits: a text.
    Hex(u32),
    /// Three octal digits, as labels are written: a text.
    Octal(u8),
    /// Three octal digits, as labels are written, as a formula of a spreadsheet such as `="003"`. Its value is the text,
    /// so that a spreadsheet keeps zeros.
    OctalFormula(u8),
    /// There is nothing to say in this column: `-`, as comma-separated values nothing, in JSON `null`.
    Absent,
}

/// Puts three octal digits as a formula of a spreadsheet.
fn put_formula(text: &mut Text, value: u8)
    ensures { text.new ≡ text.old ++ formula (octal value) }
{
    text.put("=\"");
    text.put_octal(value);
    text.put("\"");
}

/// A cell as a row keeps it.
#[derive(Drop)]
pub enum KeptCell {
    Text(Text),
    Number(u64),
    Signed(i32),
    Tenths(u64),
    Absent,
}

impl KeptCell {
    fn of(alloc: Global, cell: &Cell<'_>) -> KeptCell
        ensures { kept_field result ≡ field_of cell.now }
    {
        match cell {
            Cell::Text(words) => {
                let mut text = Text::new(alloc);
                text.put(*words);
                KeptCell::Text(text)
            }
            Cell::Number(number) => KeptCell::Number(*number),
            Cell::Signed(number) => KeptCell::Signed(*number),
            Cell::Tenths(tenths) => KeptCell::Tenths(*tenths),
            Cell::Hex(raw) => {
                let mut text = Text::new(alloc);
                text.put_hex(*raw);
                KeptCell::Text(text)
            }
            Cell::Octal(value) => {
                let mut text = Text::new(alloc);
                text.put_octal(*value);
                KeptCell::Text(text)
            }
            Cell::OctalFormula(value) => {
                let mut text = Text::new(alloc);
                put_formula(&mut text, *value);
                KeptCell::Text(text)
            }
            Cell::Absent => KeptCell::Absent,
        }
    }

    /// A copy of the cell. Error: an allocation failed for its text.
    fn copied(&self, alloc: Global) -> Result<KeptCell, AllocError>
        ensures { IfOk result (λ cell. kept_field cell ≡ kept_field self.now) }
    {
        match self {
            KeptCell::Text(text) => {
                let mut copy = Text::new(alloc);
                copy.put_bytes(text.as_bytes()?);
                Ok(KeptCell::Text(copy))
            }
            KeptCell::Number(number) => Ok(KeptCell::Number(*number)),
            KeptCell::Tenths(tenths) => Ok(KeptCell::Tenths(*tenths)),
            KeptCell::Signed(number) => Ok(KeptCell::Signed(*number)),
            KeptCell::Absent => Ok(KeptCell::Absent),
        }
    }
}

/// A row of a sheet.
#[derive(Drop)]
pub struct Row {
    cells: Gathered<KeptCell>,
}

impl Model for Row {
    ghost use Rattle.std.specs.Prelude.{List, map};
    ghost use Rattle.a429_text.specs.Fields.{Field};
    ghost use Rattle.a429_text.specs.Sheets.{kept_field};

    ghost Value = { List Field };

    ghost view = { λ row. map kept_field row.cells };
}

impl Row {
    /// A row of these cells.
    pub fn of(alloc: Global, cells: &[Cell<'_>]) -> Row
        ensures { result ≡ map field_of cells.now }
    {
        let mut row = Row {
            cells: Gathered::new(alloc),
        };
        row.add(alloc, cells);
        row
    }

    /// Adds cells at the end.
    fn add(&mut self, alloc: Global, cells: &[Cell<'_>])
        ensures { self.new ≡ self.old ++ map field_of cells.now }
    {
        for cell in cells {
            self.cells.push(KeptCell::of(alloc, cell));
        }
    }

    /// A copy of the row. Error: an allocation failed for a cell.
    fn copied(&self, alloc: Global) -> Result<Row, AllocError>
        ensures { IfOk result (λ row. row ≡ self.now) }
    {
        let mut copy = Row {
            cells: Gathered::new(alloc),
        };
        for cell in self.cells()? {
            copy.cells.push(cell.copied(alloc)?);
        }
        Ok(copy)
    }

    /// A copy of the row with further cells at its end. Error: an allocation failed for a cell of the row.
    pub fn wider(&self, alloc: Global, more: &[Cell<'_>]) -> Result<Row, AllocError>
        ensures { IfOk result (λ row. row ≡ self.now ++ map field_of more.now) }
    {
        let mut row = self.copied(alloc)?;
        row.add(alloc, more);
        Ok(row)
    }

    /// The text in a column; `None` for an absent cell and after the last cell. Error: an allocation failed for a cell.
    pub fn text(&self, column: usize) -> Result<Option<&[u8]>, AllocError>
        ensures { IfOk result (λ text. option_map (λ t. t.now) text ≡ text_in column self.now) }
    {
        match self.cells()?.get(column) {
            Some(KeptCell::Text(text)) => Ok(Some(text.as_bytes()?)),
            _ => Ok(None),
        }
    }

    /// The cells of the row. Error: an allocation failed for one of them.
    pub fn cells(&self) -> Result<&[KeptCell], AllocError>
        ensures { IfOk result (λ cells. map kept_field cells.now ≡ self.now) }
    {
        self.cells.as_slice()
    }
}
