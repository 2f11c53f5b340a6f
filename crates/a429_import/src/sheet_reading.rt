//! The lines of a sheet, one after the other, from its heading on.
ghost use Rattle.std.specs.Prelude.{◌≡◌, ◌++◌, ◌∷◌, ℕ, [], filter, IfOk, List, OnOk};
ghost use Rattle.csv.specs.Records.{fields_of};
ghost use Rattle.a429_import.specs.declared.import.ImportOptions.{ImportOptions};
ghost use Rattle.a429_text.specs.declared.csv_line.CsvLine.{CsvLine};
ghost use Rattle.a429_import.specs.FilledLines.{IsFilledLine, filled_below, is_filled_column};
ghost use Rattle.a429_import.specs.ImportForms.{from_heading, separator_in};
ghost use Rattle.a429_import.specs.ImportMaps.{IsNamedBy, given_texts};
ghost use Rattle.a429_import.specs.Imports.{AreLines, has_text};
ghost use Rattle.a429_import.specs.SheetReading.{IsFilledIf, ReadsBelow, ReadsKeyed, ReadsNothing, ReadsSheet};

use crate::columns::{Heading, is_named};
use crate::fault::ImportColumn;
use crate::forms::Form;
use crate::import::ImportOptions;
use crate::keyed_lines::{KeyedRoom, put_keyed};
use crate::lines::{LineCount, count_before, has_text, line_of, rows_of};
use crate::maps::named_by;
use crate::reading::{LinesRead, heading_fault, take_line};
use crate::refused::RefusedRows;
use a429_text::{CsvLine, field_at};
use csv::ByteRecord;
use std::alloc::{AllocError, Global};

/// After how many bytes it is shown again how many are read.
const STRIDE: usize = 1 << 16;

/// Shows to a person who waits how many bytes are read. No contract rests on it.
pub trait Watch {
    /// Shows how many of all bytes are read.
    fn show_done(&self, _done: usize, _all: usize) {}
}

/// Shows how many bytes of a text are counted, now and then. The answer is how many were when it was shown last.
fn show_count<W: Watch>(watch: &W, count: &LineCount, text: &[u8], shown: usize) -> usize {
    if count.at.saturating_sub(shown) < STRIDE {
        return shown;
    }
    watch.show_done(count.at, text.len());
    count.at
}

/// What is known of the lines below a heading.
#[derive(Drop)]
pub struct BelowRead {
    pub lines: LinesRead,
    /// The fields of the line above, after it was filled. None if no line is below the heading.
    above: ByteRecord,
    room: KeyedRoom,
    /// What a hint needs if the sheet is refused.
    pub refused: RefusedRows,
}

/// What is known of the lines of a sheet.
#[derive(Drop)]
pub struct SheetRead {
    pub heading: Option<Heading>,
    pub below: BelowRead,
}

impl SheetRead {
    /// What is known before the first line.
    pub fn new(alloc: Global) -> SheetRead
        ensures { (options : ImportOptions) (maps : List (List ℕ)) → ReadsSheet options maps result [] }
    {
        SheetRead {
            heading: None,
            below: BelowRead {
                lines: LinesRead::new(alloc),
                above: ByteRecord::new(alloc),
                room: KeyedRoom::new(alloc),
                refused: RefusedRows::new(alloc),
            },
        }
    }
}

/// Whether a field of the heading is the name of a column that is filled.
fn is_filled_column(heading: &[u8]) -> bool
    ensures { result ≡ is_filled_column heading.now }
{
    is_named(ImportColumn::Group, heading)
        || is_named(ImportColumn::Rate, heading)
        || is_named(ImportColumn::Receiver, heading)
}

/// The field below a field of the heading; the one above it if it is empty and its column is filled.
fn filled_below<'a>(heading: &[u8], above: &'a [u8], field: &'a [u8]) -> &'a [u8]
    ensures { result.now ≡ filled_below heading.now above.now field.now }
{
    if is_filled_column(heading) && field.is_empty() {
        above
    } else {
        field
    }
}

/// A line below a heading, filled from the line above it, as merged cells of a spreadsheet are meant.
fn filled_line(
    alloc: Global,
    heading: &ByteRecord,
    above: &ByteRecord,
    line: &CsvLine,
) -> Result<CsvLine, AllocError>
    ensures { IfOk result (λ filled. IsFilledLine (fields_of heading.now) (fields_of above.now) line.now filled) }
{
    let mut fields = ByteRecord::new(alloc);
    for place in 0..line.len() {
        let field = filled_below(
            field_at(heading, place),
            field_at(above, place),
            line.field(place),
        );
        fields.push_field(field)?;
    }
    Ok(CsvLine {
        number: line.number,
        separator: line.separator,
        fields,
    })
}

/// A line below a heading. If the flag is set, it is filled from the fields of the line above it, and takes their place.
fn filled_if(
    alloc: Global,
    fills: bool,
    heading: &CsvLine,
    above: &mut ByteRecord,
    line: CsvLine,
) -> Result<CsvLine, AllocError>
    ensures { IfOk result (λ filled. IsFilledIf fills (fields_of heading.now.fields) (fields_of above.old) line
        (fields_of above.new) filled) }
{
    if !fills {
        return Ok(line);
    }
    let filled = filled_line(alloc, &heading.fields, above, &line)?;
    let fields = filled.fields.clone()?;
    *above = fields;
    Ok(filled)
}

/// Takes one more line below a heading, with the key of its source if the flag is set. Error: an allocation failed for the key.
fn take_keyed(
    alloc: Global,
    makes_names: bool,
    heading: &Heading,
    read: &mut LinesRead,
    room: &mut KeyedRoom,
    line: &CsvLine,
) -> Result<(), AllocError>
    requires { (lines : List CsvLine) × ReadsKeyed makes_names heading.now.line read.old lines }
    ensures { OnOk result ((lines : List CsvLine) → ReadsKeyed makes_names heading.now.line read.old lines
        → ReadsKeyed makes_names heading.now.line read.new (lines ++ line.now ∷ [])) }
{
    if !makes_names {
        take_line(alloc, heading, read, line);
        return Ok(());
    }
    put_keyed(room, heading, line)?;
    take_line(alloc, heading, read, &room.line);
    Ok(())
}

/// Takes one more line below a heading, filled and with the key of its source if the options say so.
fn take_below(
    alloc: Global,
    options: ImportOptions,
    heading: &Heading,
    read: &mut BelowRead,
    line: CsvLine,
) -> Result<(), AllocError>
    requires { (lines : List CsvLine) × ReadsBelow options heading.now.line read.old lines }
    ensures { OnOk result ((lines : List CsvLine) → ReadsBelow options heading.now.line read.old lines
        → ReadsBelow options heading.now.line read.new (lines ++ line ∷ [])) }
{
    let filled = filled_if(alloc, options.fills, &heading.line, &mut read.above, line)?;
    let had_fault = read.lines.fault.is_some();
    let before = read.lines.known.rows.len();
    take_keyed(
        alloc,
        options.makes_names,
        heading,
        &mut read.lines,
        &mut read.room,
        &filled,
    )?;
    let is_new = before < read.lines.known.rows.len();
    let is_refused = read.lines.fault.is_some() && !had_fault;
    read.refused.note(heading, is_new, is_refused, filled)?;
    Ok(())
}

/// Takes the heading, which gets its names by texts HEADING=COLUMN.
fn take_heading(
    alloc: Global,
    maps: &[&str],
    read: &mut BelowRead,
    line: CsvLine,
) -> Result<Heading, AllocError>
    ensures named { IfOk result (λ heading. IsNamedBy (given_texts maps.now) line heading.line) }
    ensures read { IfOk result (λ heading. (options : ImportOptions) → ReadsNothing read.old
        → ReadsBelow options heading.line read.new []) }
{
    read.refused.note_titles(&line)?;
    let named = named_by(alloc, maps, line)?;
    let fault = heading_fault(&named);
    read.refused.is_heading_wrong = fault.is_some();
    read.lines.fault = fault;
    Ok(Heading::of(named))
}

/// Takes one more line, unless its fields are all empty. The first one is the heading.
fn take_row(
    alloc: Global,
    maps: &[&str],
    options: ImportOptions,
    read: &mut SheetRead,
    line: CsvLine,
) -> Result<(), AllocError>
    requires { (lines : List CsvLine) × ReadsSheet options (given_texts maps.now) read.old lines }
    ensures { OnOk result ((lines : List CsvLine) → ReadsSheet options (given_texts maps.now) read.old lines
        → ReadsSheet options (given_texts maps.now) read.new (lines ++ filter (λ l. has_text (fields_of l.fields)) (line ∷ []))) }
{
    if !has_text(&line) {
        return Ok(());
    }
    match &read.heading {
        None => {
            let heading = take_heading(alloc, maps, &mut read.below, line)?;
            read.heading = Some(heading);
            Ok(())
        }
        Some(heading) => take_below(alloc, options, heading, &mut read.below, line),
    }
}

/// Takes all lines of a text of this form from its heading on. Error: an allocation failed.
pub fn read_lines<W: Watch>(
    alloc: Global,
    maps: &[&str],
    options: ImportOptions,
    text: &[u8],
    form: Form<'_>,
    watch: &W,
    read: &mut SheetRead,
) -> Result<(), AllocError>
    requires separator { form.separator ≡ separator_in (given_texts maps.now) text.now }
    requires text { form.text.now ≡ from_heading (given_texts maps.now) text.now }
    requires read { ReadsSheet options (given_texts maps.now) read.old [] }
    ensures { OnOk result ((all : List CsvLine) × AreLines (given_texts maps.now) text.now all
        × ReadsSheet options (given_texts maps.now) read.new all) }
{
    let mut count = count_before(text, form.text);
    let mut shown = 0;
    for row in rows_of(alloc, form) {
        let line = line_of(alloc, text, form, &mut count, row)?;
        take_row(alloc, maps, options, read, line)?;
        shown = show_count(watch, &count, text, shown);
    }
    Ok(())
}
