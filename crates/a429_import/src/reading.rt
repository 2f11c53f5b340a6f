//! What rows say, one line after the other. No line is kept.
ghost use Rattle.std.specs.Prelude.{◌≡◌, ◌++◌, [], ◌∷◌, List, OnOk};
ghost use Rattle.std.specs.Result.{result_map_both};
ghost use Rattle.csv.specs.Records.{fields_of};
ghost use Rattle.a429_text.specs.declared.csv_line.CsvLine.{CsvLine};
ghost use Rattle.a429_import.specs.ImportClashes.{Agree};
ghost use Rattle.a429_import.specs.ImportReading.{AreBelow, AreTaken, IsTaken, KnowsNothing, StandsFor, heading_fault};
ghost use Rattle.a429_import.specs.ImportRows.{next_row, row_view, with_line};
ghost use Rattle.a429_import.specs.KeptFields.{KeepsTexts};
ghost use Rattle.a429_import.specs.IndexedRows.{IsIndexed};

use crate::clashes::first_clash;
use crate::columns::{Heading, wrong_column};
use crate::fault::{CsvFaultKind, ImportColumn, ImportFault, csv_fault};
use crate::indexed_rows::IndexedRows;
use crate::kept::KeptTexts;
use crate::notes::{Notes, has_label};
use crate::rows::{RowFields, row_of};
use a429_text::CsvLine;
use std::alloc::Global;

/// What is known of lines below a heading.
#[derive(Drop)]
pub struct LinesRead {
    /// What they say.
    pub known: IndexedRows,
    /// Those of them that may be notes.
    pub notes: Notes,
    /// What sources say in the columns that go along.
    pub kept: KeptTexts,
    /// The first fault, after which lines are not looked at.
    pub fault: Option<ImportFault>,
}

impl LinesRead {
    /// What is known before the first line.
    pub fn new(alloc: Global) -> LinesRead
        ensures { KnowsNothing result }
    {
        LinesRead {
            known: IndexedRows::new(alloc),
            notes: Notes::new(alloc),
            kept: KeptTexts::new(alloc),
            fault: None,
        }
    }
}

/// What a row says, if it has its form and agrees with all earlier ones. Error: what is wrong with it, and the column.
fn next_row<'a>(
    known: &IndexedRows,
    heading: &Heading,
    line: &'a CsvLine,
) -> Result<RowFields<'a>, (CsvFaultKind, Option<ImportColumn>)>
    requires { IsIndexed known.now }
    ensures { Agree known.now.rows.items → result_map_both row_view (λ f. (line.now.number, f.0, f.1)) result
        ≡ next_row (fields_of heading.now.line.fields) known.now.rows.items line.now }
{
    match row_of(heading, line) {
        Ok(row) => match first_clash(known, &row) {
            None => Ok(row),
            Some(column) => Err((CsvFaultKind::Differs, Some(column))),
        },
        Err(column) => Err((CsvFaultKind::Form, column)),
    }
}

/// Takes a row that is no note, unless it says nothing new.
fn take_below(
    alloc: Global,
    known: &mut IndexedRows,
    heading: &Heading,
    line: &CsvLine,
) -> Result<(), ImportFault>
    requires { IsIndexed known.old }
    ensures { Agree known.old.rows.items
        → IsTaken result known.new (with_line (fields_of heading.now.line.fields) known.old.rows.items line.now) }
{
    let row = match next_row(known, heading, line) {
        Ok(row) => row,
        Err((kind, column)) => return Err(csv_fault(line.number, kind, column)),
    };
    if known.has_all_of(&row) {
        return Ok(());
    }
    known.push(alloc, &row)?;
    match known.too_many(&row) {
        None => Ok(()),
        Some(column) => Err(csv_fault(line.number, CsvFaultKind::TooMany, Some(column))),
    }
}

/// Takes a line below the heading, which may be a note, and what it says in the columns that go along. If it is none since it
/// has a label, the rows above it are none either: the fault of the first of them is the answer.
fn take_row_or_note(
    alloc: Global,
    read: &mut LinesRead,
    heading: &Heading,
    line: &CsvLine,
) -> Result<(), ImportFault>
    requires { (below : List CsvLine) × AreBelow (fields_of heading.now.line.fields) below read.old.known read.old.notes }
    ensures taken { (below : List CsvLine) → AreBelow (fields_of heading.now.line.fields) below read.old.known read.old.notes
        → AreTaken result (fields_of heading.now.line.fields) (below ++ line.now ∷ []) read.new.known read.new.notes }
    ensures kept { OnOk result ((below : List CsvLine) → KeepsTexts read.old.kept (fields_of heading.now.line.fields) below
        → KeepsTexts read.new.kept (fields_of heading.now.line.fields) (below ++ line.now ∷ [])) }
{
    read.kept.note(alloc, heading, line)?;
    let is_labelled = has_label(heading, line);
    if read.notes.may_take(is_labelled) {
        read.notes.hold(heading, line)?;
        return Ok(());
    }
    match read.notes.end(is_labelled) {
        Some(fault) => Err(fault),
        None => take_below(alloc, &mut read.known, heading, line),
    }
}

/// The fault of a heading, if it lacks a column or has it twice.
pub fn heading_fault(line: &CsvLine) -> Option<ImportFault>
    ensures { result ≡ heading_fault line.now }
{
    let column = wrong_column(line)?;
    Some(csv_fault(line.number, CsvFaultKind::Column, Some(column)))
}

/// Takes one more line below a heading, unless one before it has a fault.
pub fn take_line(alloc: Global, heading: &Heading, read: &mut LinesRead, line: &CsvLine)
    requires { (below : List CsvLine) × StandsFor heading.now.line read.old below }
    ensures { (below : List CsvLine) → StandsFor heading.now.line read.old below
        → StandsFor heading.now.line read.new (below ++ line.now ∷ []) }
{
    if read.fault.is_none() {
        let taken = take_row_or_note(alloc, read, heading, line);
        read.fault = taken.err();
    }
}
