//! Columns of a sheet that comments of a table bring, such as titles and units.
ghost use Rattle.std.specs.Prelude.{◌≡◌, ◌++◌, ◌∷◌, ◌+◌, ◌||◌, ◌&&◌, [], IfOk, OnOk, drop, filter_map, length, map, nat_le, not, option_map};
ghost use Rattle.std.specs.List.{list_any};
ghost use Rattle.std.specs.Str.{bytes_eq};
ghost use Rattle.std.specs.Option.{option_copied};
ghost use Rattle.a429_text.specs.CutText.{cut};
ghost use Rattle.a429_text.specs.Sheets.{field_of};
ghost use Rattle.a429_documents.specs.KeptColumns.{after_mark, with_column, with_columns, field_at, in_parts, kept_field, kept_in, kept_sheet, kept_texts, of_source, part_in, said_by, trimmed, utf8_text, wider_row};

use a429_text::cut::cut_at;
use a429_text::{Cell, Gathered, Row, Rows, Sheet, SheetForm, render_rows};
use std::alloc::{AllocError, Global};

/// The most columns that comments bring (profile).
const MOST: usize = 16;

/// What a comment says of a source: the text in a column.
#[derive(Clone, Copy)]
pub struct KeptText<'a> {
    pub source: &'a str,
    pub column: &'a str,
    pub text: &'a str,
}

/// A text without the blanks at both ends.
#[tactic(auto, unfolding(crate::specs::KeptColumns::trimmed))]
fn trimmed(text: &[u8]) -> &[u8]
    ensures { result.now ≡ trimmed text.now }
{
    text.trim_ascii()
}

/// Bytes as a text, if they are UTF-8.
fn utf8_text(bytes: &[u8]) -> Option<&str>
    ensures { option_map (λ text. text.now) result ≡ utf8_text bytes.now }
{
    match str::from_utf8(bytes) {
        Ok(text) => Some(text),
        Err(_) => None,
    }
}

/// A part of a comment, without the blanks at both ends.
#[tactic(auto, unfolding(crate::specs::KeptColumns::part_in))]
fn part_in(bytes: &[u8]) -> Option<&str>
    ensures { option_map (λ text. text.now) result ≡ part_in bytes.now }
{
    utf8_text(trimmed(bytes))
}

/// What a comment says: `COLUMN | TEXT`, of this source.
fn of_source<'a>(source: &'a [u8], rest: &'a [u8]) -> Option<KeptText<'a>>
    ensures { option_map said_by result ≡ of_source source.now (cut 124 rest.now) }
{
    let (column, text) = cut_at(rest, b'|')?;
    let (source, column, text) = (part_in(source), part_in(column), part_in(text));
    match (source, column, text) {
        (Some(source), Some(column), Some(text)) => Some(KeptText {
            source,
            column,
            text,
        }),
        _ => None,
    }
}

/// What follows the mark of such a comment.
fn after_mark(line: &[u8]) -> Option<&[u8]>
    ensures { option_map (λ rest. rest.now) result ≡ after_mark line.now }
{
    match line {
        [b'#', b':', rest @ ..] => Some(rest),
        _ => None,
    }
}

/// What a line `#: SOURCE | COLUMN | TEXT` says. `None` for any other line.
#[tactic(auto, unfolding(crate::specs::KeptColumns::kept_in))]
fn kept_in(line: &[u8]) -> Option<KeptText<'_>>
    ensures { option_map said_by result ≡ kept_in line.now }
{
    let said = after_mark(line)?;
    let (source, rest) = cut_at(said, b'|')?;
    of_source(source, rest)
}

/// Adds what a line says.
fn add_line<'a>(texts: &mut Gathered<KeptText<'a>>, line: &'a [u8])
    ensures { map said_by texts.new ≡ map said_by texts.old ++ filter_map kept_in (line.now ∷ []) }
{
    if let Some(text) = kept_in(line) {
        texts.push(text);
    }
}

/// What the comments of a table say. Error: an allocation failed.
pub(crate) fn kept_texts<'a>(
    alloc: Global,
    table: &'a [u8],
) -> Result<Vec<KeptText<'a>>, AllocError>
    ensures { IfOk result (λ texts. map said_by texts.items ≡ kept_texts table.now) }
{
    let mut texts = Gathered::new(alloc);
    let mut rest = table;
    while let Some((line, next)) = cut_at(rest, b'\n') {
        add_line(&mut texts, line);
        rest = next;
    }
    add_line(&mut texts, rest);
    texts.into_vec()
}

/// Whether one of these columns has this name.
fn has_column(columns: &[&str], column: &str) -> bool
    ensures { result ≡ list_any (bytes_eq column.now) (map (λ name. name.now) columns.now) }
{
    for name in columns {
        if column == *name {
            return true;
        }
    }
    false
}

/// Adds a column that comments bring, if there is room for it and if it is new. Error: an allocation failed.
fn add_column<'a>(columns: &mut Vec<&'a str>, own: usize, column: &'a str) -> Result<(), AllocError>
    ensures { OnOk result (map (λ name. name.now) columns.new.items
        ≡ with_column own (map (λ name. name.now) columns.old.items) column.now) }
{
    if has_column(columns, column) || columns.len().saturating_sub(own) >= MOST {
        return Ok(());
    }
    columns.push(column)?;
    Ok(())
}

/// The columns of a sheet, and those that comments bring after them. Error: an allocation failed.
fn all_columns<'a>(
    alloc: Global,
    names: &[&'a str],
    texts: &[KeptText<'a>],
) -> Result<Vec<&'a str>, AllocError>
    ensures { IfOk result (λ columns. map (λ name. name.now) columns.items
        ≡ with_columns (length names.now) (map (λ name. name.now) names.now) (map said_by texts.now)) }
{
    let mut columns = names.to_vec(alloc)?;
    for text in texts {
        add_column(&mut columns, names.len(), text.column)?;
    }
    Ok(columns)
}

/// Whether a comment is about this column of a source.
fn is_about(text: &KeptText<'_>, source: &[u8], column: &str) -> bool
    ensures { result ≡ (bytes_eq text.now.source.now source.now && bytes_eq text.now.column.now column.now) }
{
    text.source.as_bytes() == source && text.column == column
}

/// What comments say of a source in a column.
fn kept_cell<'a>(texts: &[KeptText<'a>], source: &[u8], column: &str) -> Cell<'a>
    ensures { field_of result ≡ kept_field (map said_by texts.now) source.now column.now }
{
    for text in texts {
        if is_about(text, source, column) {
            return Cell::Text(text.text);
        }
    }
    Cell::Absent
}

/// The same of a row: one without a source has nothing there.
fn cell_at<'a>(texts: &[KeptText<'a>], source: Option<&[u8]>, column: &str) -> Cell<'a>
    ensures { field_of result ≡ field_at (map said_by texts.now) (option_copied source.entry) column.now }
{
    match source {
        None => Cell::Absent,
        Some(source) => kept_cell(texts, source, column),
    }
}

/// The cells that comments bring into a row with this source. Error: an allocation failed.
fn cells_at<'a>(
    alloc: Global,
    texts: &[KeptText<'a>],
    source: Option<&[u8]>,
    columns: &[&str],
) -> Result<Vec<Cell<'a>>, AllocError>
    ensures { IfOk result (λ cells. map field_of cells.items
        ≡ map (field_at (map said_by texts.now) (option_copied source.entry)) (map (λ name. name.now) columns.now)) }
{
    let mut cells = Gathered::new(alloc);
    for column in columns {
        cells.push(cell_at(texts, source, *column));
    }
    cells.into_vec()
}

/// Adds a row with the cells that comments bring; its source is in this place. Error: an allocation failed.
fn add_wider(
    alloc: Global,
    rows: &mut Rows,
    row: &Row,
    place: usize,
    texts: &[KeptText<'_>],
    columns: &[&str],
) -> Result<(), AllocError>
    ensures { OnOk result (rows.new ≡ rows.old
        ++ wider_row (map said_by texts.now) (map (λ name. name.now) columns.now) place row.now ∷ []) }
{
    let cells = cells_at(alloc, texts, row.text(place)?, columns)?;
    rows.add_wider(row, &cells)
}

/// Rows with the cells that comments bring. Error: an allocation failed.
fn wider_rows(
    alloc: Global,
    rows: &Rows,
    place: usize,
    texts: &[KeptText<'_>],
    columns: &[&str],
) -> Result<Rows, AllocError>
    ensures { IfOk result (λ wider. wider
        ≡ map (wider_row (map said_by texts.now) (map (λ name. name.now) columns.now) place) rows.now) }
{
    let mut wider = Rows::new(alloc);
    for row in rows.as_slice()? {
        add_wider(alloc, &mut wider, row, place, texts, columns)?;
    }
    Ok(wider)
}

/// The columns after the sheet's own.
fn further<'a, 'b>(columns: &'b [&'a str], own: usize) -> &'b [&'a str]
    ensures { map (λ name. name.now) result.now ≡ drop own (map (λ name. name.now) columns.now) }
{
    if own < columns.len() {
        &columns[own..]
    } else {
        &[]
    }
}

/// A sheet in a form, with the columns that comments bring. Error: an allocation failed.
fn render_wider(
    alloc: Global,
    form: SheetForm,
    texts: &[KeptText<'_>],
    sheet: &Sheet,
    place: usize,
) -> Result<Vec<u8>, AllocError>
    ensures { IfOk result (λ text. text.items
        ≡ kept_sheet form (map said_by texts.now) (map (λ name. name.now) sheet.now.columns.now) place sheet.now.rows) }
{
    let columns = all_columns(alloc, sheet.columns, texts)?;
    let more = further(&columns, sheet.columns.len());
    let rows = wider_rows(alloc, &sheet.rows, place, texts, more)?;
    render_rows(alloc, form, &columns, &rows)
}

/// The same; if comments say nothing, the sheet as it is.
fn render_texts(
    alloc: Global,
    form: SheetForm,
    texts: &[KeptText<'_>],
    sheet: &Sheet,
    place: usize,
) -> Result<Vec<u8>, AllocError>
    ensures { IfOk result (λ text. text.items
        ≡ kept_sheet form (map said_by texts.now) (map (λ name. name.now) sheet.now.columns.now) place sheet.now.rows) }
{
    if texts.is_empty() {
        sheet.render(alloc, form)
    } else {
        render_wider(alloc, form, texts, sheet, place)
    }
}

/// A sheet in a form, with a column for each that comments `#: SOURCE | COLUMN | TEXT` of the table name: the text of the
/// row's source, which is in the column at this place (profile: docs/FORMATS.md, Columns of your own). At most 16 such
/// columns come, in the order of their first lines, and none that the sheet has. Of two texts of a source in a column the
/// first counts. Without such comments it is what `Sheet::render` gives. Error: an allocation failed.
pub fn render_kept(
    alloc: Global,
    form: SheetForm,
    table: &[u8],
    sheet: &Sheet,
    place: usize,
) -> Result<Vec<u8>, AllocError>
    ensures { IfOk result (λ text. text.items
        ≡ kept_sheet form (kept_texts table.now) (map (λ name. name.now) sheet.now.columns.now) place sheet.now.rows) }
{
    let texts = kept_texts(alloc, table)?;
    render_texts(alloc, form, &texts, sheet, place)
}
