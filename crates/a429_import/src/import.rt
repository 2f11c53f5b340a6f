//! An equipment table from rows of comma-separated values.
ghost use Rattle.std.specs.Prelude.{◌≡◌, [], ◌∷◌, false, IfOk, List, None, Some};
ghost use Rattle.a429_text.specs.declared.csv_line.CsvLine.{CsvLine};
ghost use Rattle.a429_import.specs.ImportForms.{from_heading, separator_in};
ghost use Rattle.a429_import.specs.ImportMaps.{given_texts};
ghost use Rattle.a429_import.specs.ImportReading.{StandsFor};
ghost use Rattle.a429_import.specs.Imports.{IsImport, IsImportFrom, IsTableOf, is_unfit};
ghost use Rattle.a429_import.specs.KeptFields.{lines_kept};
ghost use Rattle.a429_import.specs.IndexedRows.{IsIndexed};
ghost use Rattle.a429_import.specs.NumberRanges.{HaveRanges};
ghost use Rattle.a429_import.specs.Renamed.{all_renamed};
ghost use Rattle.a429_import.specs.SheetReading.{ReadsSheet};
ghost use Rattle.a429_import.specs.TableTexts.{AreSound, rows_before};

use crate::above::line_above;
use crate::columns::Heading;
use crate::comments::Comments;
use crate::fault::{CsvFaultKind, ImportColumn, ImportFault, csv_fault};
use crate::forms::{Form, form_of};
use crate::indexed_rows::IndexedRows;
use crate::kept::KeptTexts;
use crate::quotes::misquoted_line_of;
use crate::reading::LinesRead;
use crate::refused::{RefusedRows, misquoted_rows};
use crate::renamed::{all_names, all_renamed};
use crate::sheet_reading::{BelowRead, SheetRead, Watch, read_lines};
use crate::tables::table_text;
use a429_equipment::Equipment;
use a429_table::read_equipment;
use std::alloc::{AllocError, Global};

/// How rows are read.
#[derive(Clone, Copy)]
pub struct ImportOptions {
    /// Whether an empty field of a group, a bit rate or a receiver is that of the row above.
    pub fills: bool,
    /// Whether the texts of groups, sources and receivers become names.
    pub makes_names: bool,
}

/// The equipment table that rows describe.
#[derive(Drop)]
pub struct Imported {
    /// The table as TOML of version 2.
    pub text: Vec<u8>,
    /// The equipment that the text states.
    pub equipment: Equipment,
    /// The number of rows that are notes: those below the last one that has a label.
    pub notes: usize,
}

/// The table that known rows describe, with comments and a number of notes.
fn table_of_rows(
    alloc: Global,
    comments: Comments<'_>,
    known: &IndexedRows,
    notes: usize,
) -> Result<Imported, ImportFault>
    requires known { IsIndexed known.now }
    requires comments { AreSound comments }
    ensures table { HaveRanges known.now.rows.items
        → IsTableOf (lines_kept comments.entry.kept.now) (rows_before comments.entry.made_of) known.now.rows.items result }
    ensures notes { IfOk result (λ made. made.notes ≡ notes) }
{
    let text = table_text(alloc, comments, known)?;
    match read_equipment(alloc, text.as_str().as_bytes()) {
        Ok(equipment) => Ok(Imported {
            text: text.into_bytes(),
            equipment,
            notes,
        }),
        Err(fault) => Err(ImportFault::from(fault)),
    }
}

/// The same with names.
fn table_with_names(
    alloc: Global,
    known: &IndexedRows,
    kept: &KeptTexts,
    notes: usize,
) -> Result<Imported, ImportFault>
    requires known { IsIndexed known.now }
    ensures table { HaveRanges known.now.rows.items
        → IsTableOf (lines_kept kept.now) (Some known.now.rows.items) (all_renamed known.now.rows.items) result }
    ensures notes { IfOk result (λ made. made.notes ≡ notes) }
{
    let names = all_names(alloc, known)?;
    let renamed = all_renamed(alloc, known, &names)?;
    let comments = Comments {
        made_of: Some(known),
        kept,
    };
    table_of_rows(alloc, comments, &renamed, notes)
}

/// The table that lines below a heading describe.
fn table_below(
    alloc: Global,
    makes_names: bool,
    heading: &Heading,
    read: &mut LinesRead,
) -> Result<Imported, ImportFault>
    requires { (below : List CsvLine) × StandsFor heading.now.line read.old below }
    ensures { (below : List CsvLine) → StandsFor heading.now.line read.old below
        → IsImportFrom makes_names (heading.now.line ∷ below) result }
{
    match read.fault.take() {
        Some(fault) => return Err(fault),
        None => {}
    }
    let notes = read.notes.rows.len();
    if makes_names {
        return table_with_names(alloc, &read.known, &read.kept, notes);
    }
    let comments = Comments {
        made_of: None,
        kept: &read.kept,
    };
    table_of_rows(alloc, comments, &read.known, notes)
}

/// The table that a text of this form describes, by what is known before its first line.
fn read_table<W: Watch>(
    alloc: Global,
    maps: &[&str],
    options: ImportOptions,
    text: &[u8],
    form: Form<'_>,
    watch: &W,
    read: &mut SheetRead,
) -> Result<Imported, ImportFault>
    requires separator { form.separator ≡ separator_in (given_texts maps.now) text.now }
    requires text { form.text.now ≡ from_heading (given_texts maps.now) text.now }
    requires read { ReadsSheet options (given_texts maps.now) read.old [] }
    ensures { is_unfit (given_texts maps.now) text.now ≡ false → IsImport (given_texts maps.now) options text.now result }
{
    read_lines(alloc, maps, options, text, form, watch, read)?;
    watch.show_done(text.len(), text.len());
    match &read.heading {
        None => Err(csv_fault(1, CsvFaultKind::Column, Some(ImportColumn::Group))),
        Some(heading) => { table_below(alloc, options.makes_names, heading, &mut read.below.lines) }
    }
}

/// The table that a text of this form describes, if no fault comes before those of its rows. If the rows are refused,
/// `refused` gets them.
fn table_of_text<W: Watch>(
    alloc: Global,
    maps: &[&str],
    options: ImportOptions,
    text: &[u8],
    form: Form<'_>,
    watch: &W,
    refused: &mut Option<RefusedRows>,
) -> Result<Imported, ImportFault>
    requires separator { form.separator ≡ separator_in (given_texts maps.now) text.now }
    requires text { form.text.now ≡ from_heading (given_texts maps.now) text.now }
    ensures { is_unfit (given_texts maps.now) text.now ≡ false → IsImport (given_texts maps.now) options text.now result }
{
    let mut read = SheetRead::new(alloc);
    let table = read_table(alloc, maps, options, text, form, watch, &mut read);
    let SheetRead { heading, below } = read;
    let BelowRead { refused: rows, .. } = below;
    *refused = Some(rows.ended(heading));
    table
}

/// The equipment table, as TOML of version 2, that rows of comma-separated values describe (profile: import): a row of
/// column names, and a row for each output, or for a source that no group sends. Columns may come in any order; columns
/// that `ImportColumn` does not have are skipped. So are lines above the heading, such as titles, but a row of data there is
/// refused. With a text HEADING=COLUMN a heading is the name of a column. Receivers, sources and groups are in the order of
/// their first rows, outputs in the order of the rows of their group. `read_equipment` reads the answer. Error: the first
/// fault of the rows, otherwise the first of the table, or `NoMemory` if an allocation fails.
///
/// Rows below the last one that has a label are notes: they are not read, but counted. If no row has a label, none is a note.
///
/// With `fills`, a field `group`, `rate` or `receiver` that is empty is that of the row above, after that was filled. In the
/// first row it stays empty. Then no row below one with a group states a source alone.
///
/// With `makes_names`, the texts of groups, sources and receivers become names, and no two become one name. Sources then
/// differ if their texts, receivers, labels or SDIs do. `made_name` makes the name, if no other text of the column would have
/// it. Otherwise the name of a source has its receiver, its label and its SDI, and that of another text has what is left of
/// its beginning and its end. A number follows if another text has that name. The answer has a comment above each group, source
/// and receiver whose text differs from its name. Without a heading no names are made.
///
/// `watch` shows how many bytes are read. If the rows are refused, `refused` gets those that a hint needs.
pub fn import_table<W: Watch>(
    alloc: Global,
    maps: &[&str],
    options: ImportOptions,
    bytes: &[u8],
    watch: &W,
    refused: &mut Option<RefusedRows>,
) -> Result<Imported, ImportFault>
    ensures { IsImport (given_texts maps.now) options bytes.now result }
{
    let form = form_of(maps, bytes);
    watch.show_done(0, bytes.len());
    if let Some(line) = misquoted_line_of(bytes, form) {
        *refused = Some(misquoted_rows(alloc));
        return Err(csv_fault(line, CsvFaultKind::Form, None));
    }
    match line_above(alloc, maps, bytes, form, refused)? {
        Some(line) => Err(csv_fault(line, CsvFaultKind::Form, None)),
        None => table_of_text(alloc, maps, options, bytes, form, watch, refused),
    }
}
