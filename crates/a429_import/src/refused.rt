//! The rows of a refused sheet, for a person: those that say something new, and the first ones with a fault. No contract
//! rests on them.

use crate::columns::Heading;
use crate::notes::has_label;
use crate::rows::form_fault;
use a429_text::CsvLine;
use std::alloc::{AllocError, Global};

/// How many faulty rows are kept.
const FAULTY_ROWS: usize = 3;

/// How many rows are kept below a heading that has a fault: more than a table can have.
const ROWS_BELOW: usize = 2000;

/// Rows that are refused.
#[derive(Drop)]
pub struct RefusedRows {
    /// The heading as it is written. `None` if there is none.
    pub titles: Option<CsvLine>,
    /// The heading by the names of its columns. `None` if no row was looked at.
    pub heading: Option<CsvLine>,
    /// The rows above the first fault that say something new, in order. Below a heading with a fault, its first rows.
    pub rows: Vec<CsvLine>,
    /// The first row with a fault, and the next two that have one by themselves. None of them is a note.
    pub faulty: Vec<CsvLine>,
    /// How many rows have such a fault.
    pub count: usize,
    /// Whether the quotes of a field are wrong. Then no row was looked at.
    pub is_misquoted: bool,
    pub is_heading_wrong: bool,
    /// Whether a row has a label.
    is_labelled: bool,
    /// How many of `count` are no notes, whatever follows.
    settled_count: usize,
}

impl RefusedRows {
    /// No rows.
    pub fn new(alloc: Global) -> RefusedRows {
        RefusedRows {
            titles: None,
            heading: None,
            rows: Vec::new(alloc),
            faulty: Vec::new(alloc),
            count: 0,
            is_misquoted: false,
            is_heading_wrong: false,
            is_labelled: false,
            settled_count: 0,
        }
    }

    /// Notes a heading as it is written. Error: an allocation failed.
    pub fn note_titles(&mut self, line: &CsvLine) -> Result<(), AllocError> {
        self.titles = Some(line.copy()?);
        Ok(())
    }

    /// Notes a line below the heading that was taken: whether it says something new, and whether it is refused. Error: an
    /// allocation failed.
    pub fn note(
        &mut self,
        heading: &Heading,
        is_new: bool,
        is_refused: bool,
        line: CsvLine,
    ) -> Result<(), AllocError> {
        if self.is_heading_wrong {
            if self.rows.len() < ROWS_BELOW {
                self.rows.push(line)?;
            }
            return Ok(());
        }
        let has_label = has_label(heading, &line);
        let may_be_note = self.is_labelled && !has_label;
        self.is_labelled = self.is_labelled || has_label;
        // rows that may have been notes were refused before this one
        let differs = is_refused && self.count == self.settled_count;
        if differs || form_fault(heading, &line).is_some() {
            self.count = self.count.saturating_add(1);
            if self.faulty.len() < FAULTY_ROWS {
                self.faulty.push(line)?;
            }
        } else if is_new {
            self.rows.push(line)?;
        }
        if !may_be_note {
            self.settled_count = self.count;
        }
        Ok(())
    }

    /// The same with the heading by the names of its columns, and without notes.
    pub fn ended(mut self, heading: Option<Heading>) -> RefusedRows {
        self.count = self.settled_count;
        self.faulty.truncate(self.count);
        self.heading = heading.map(|Heading { line, .. }| line);
        self
    }
}

/// A text whose quotes are wrong.
pub fn misquoted_rows(alloc: Global) -> RefusedRows {
    let mut rows = RefusedRows::new(alloc);
    rows.is_misquoted = true;
    rows
}

/// A text with a row of data above its heading, which is given as it is written. Error: an allocation failed.
pub fn titled_rows(alloc: Global, titles: &CsvLine) -> Result<RefusedRows, AllocError> {
    let mut rows = RefusedRows::new(alloc);
    rows.note_titles(titles)?;
    Ok(rows)
}
