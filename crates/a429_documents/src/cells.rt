//! Cells that several documents have.
ghost use Rattle.std.specs.Prelude.{◌≡◌};
ghost use Rattle.a429_text.specs.Fields.{Number};
ghost use Rattle.a429_text.specs.Sheets.{field_of};
ghost use Rattle.a429_documents.specs.Document.{limit_field, sdi_field, sdi_text};

use a429_text::Cell;
use a429_word::Sdi;

/// The cell of a number.
pub fn number(value: u32) -> Cell<'static>
    ensures { field_of result ≡ Number value }
{
    Cell::Number(u64::from(value))
}

/// An SDI as a text: `0` to `3`, or `any` for `None`.
pub(crate) fn sdi_text(sdi: Option<Sdi>) -> &'static str
    ensures { result.now ≡ sdi_text sdi }
{
    match sdi {
        None => "any",
        Some(sdi) if sdi.value() == 0 => "0",
        Some(sdi) if sdi.value() == 1 => "1",
        Some(sdi) if sdi.value() == 2 => "2",
        Some(_) => "3",
    }
}

/// The cell of an SDI, a text.
pub fn sdi_cell(sdi: Option<Sdi>) -> Cell<'static>
    ensures { field_of result ≡ sdi_field sdi }
{
    Cell::Text(sdi_text(sdi))
}

/// The cell of a limit, which says nothing if there is none.
pub fn limit_cell(limit: Option<u32>) -> Cell<'static>
    ensures { field_of result ≡ limit_field limit }
{
    match limit {
        None => Cell::Absent,
        Some(limit) => number(limit),
    }
}
