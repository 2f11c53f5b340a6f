//! Rows that may be notes: those below the last row that has a label. They are notes unless a row with a label comes below.
ghost use Rattle.std.specs.Prelude.{◌≡◌, ◌+◌, ◌&&◌, ◌||◌, false, None, not, OnOk, vec_len};
ghost use Rattle.csv.specs.Records.{fields_of};
ghost use Rattle.a429_import.specs.ImportReading.{HasNoRow, HoldsFault, HoldsFirst};
ghost use Rattle.a429_import.specs.ImportRows.{has_label, row_of};

use crate::columns::Heading;
use crate::fault::{CsvFaultKind, ImportColumn, ImportFault, csv_fault};
use crate::rows::form_fault;
use a429_text::CsvLine;
use std::alloc::{AllocError, Global};

/// What is known of rows that may be notes.
#[derive(Drop)]
pub struct Notes {
    /// Whether a row has a label. Before one has, no row is a note.
    pub is_labelled: bool,
    /// The fault of the first row that may be a note. It is the first fault if a row with a label comes below.
    pub held: Option<ImportFault>,
    /// As many as there are rows that may be notes. They take no memory.
    pub rows: Vec<()>,
}

/// Whether a row has a label: its field in that column is not empty.
pub fn has_label(heading: &Heading, line: &CsvLine) -> bool
    ensures { result ≡ has_label (fields_of heading.now.line.fields) line.now }
{
    !heading.field_of(line, ImportColumn::Label).is_empty()
}

/// The fault of a row without a label, by itself.
fn fault_of(heading: &Heading, line: &CsvLine) -> Option<ImportFault>
    ensures { has_label (fields_of heading.now.line.fields) line.now ≡ false
        → HoldsFault result (row_of (fields_of heading.now.line.fields) line.now) }
{
    match form_fault(heading, line) {
        Some(column) => Some(csv_fault(line.number, CsvFaultKind::Form, column)),
        None => None,
    }
}

impl Notes {
    /// What is known before the first row.
    pub fn new(alloc: Global) -> Notes
        ensures { HasNoRow result }
    {
        Notes {
            is_labelled: false,
            held: None,
            rows: Vec::new(alloc),
        }
    }

    /// Whether a row may be a note: it has no label, and a row above it has one.
    pub fn may_take(&self, is_labelled: bool) -> bool
        ensures { result ≡ (self.now.is_labelled && not is_labelled) }
    {
        self.is_labelled && !is_labelled
    }

    /// Takes a row without a label. Error: an allocation failed.
    pub fn hold(&mut self, heading: &Heading, line: &CsvLine) -> Result<(), AllocError>
        ensures count { OnOk result (vec_len self.new.rows ≡ vec_len self.old.rows + 1) }
        ensures labelled { OnOk result (self.new.is_labelled ≡ self.old.is_labelled) }
        ensures held { OnOk result (has_label (fields_of heading.now.line.fields) line.now ≡ false
            → HoldsFirst self.old.held self.new.held (row_of (fields_of heading.now.line.fields) line.now)) }
    {
        self.rows.push(())?;
        if self.held.is_none() {
            self.held = fault_of(heading, line);
        }
        Ok(())
    }

    /// Takes a row that is no note: then those above it are none. The answer is the fault of the first of these.
    pub fn end(&mut self, has_label: bool) -> Option<ImportFault>
        ensures fault { result ≡ self.old.held }
        ensures held { self.new.held ≡ None }
        ensures count { vec_len self.new.rows ≡ 0 }
        ensures labelled { self.new.is_labelled ≡ (self.old.is_labelled || has_label) }
    {
        self.rows.clear();
        self.is_labelled = self.is_labelled || has_label;
        self.held.take()
    }
}
