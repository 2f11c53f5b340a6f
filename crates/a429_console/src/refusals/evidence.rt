//! What was read of a refused text, for a hint.

use crate::answered::Objection;
use crate::files::FileTrouble;
pub use crate::refusals::logs::{LogEvidence, LogRefusal};
use crate::refusals::rows::RowsEvidence;
use a429_equipment::Equipment;
use a429_slots::{OUTPUTS, Proposal};
use a429_table::RefusedTable;
use a429_text::cut::{first_line, lines_from};
use std::alloc::{AllocError, Global};

/// What a hint about a refusal needs beyond it. No contract rests on it.
#[derive(Drop)]
pub enum Evidence {
    /// Nothing: the refusal says all, or an allocation failed.
    Nothing,
    /// Why the file cannot be read.
    File(FileTrouble),
    /// What was read of the refused table, and whether it is the second of two.
    Table {
        table: TableEvidence,
        is_second: bool,
    },
    /// The plan of a table that does not have what was asked for.
    Proposal(Proposal<OUTPUTS>),
    /// What the check found wrong in a plan text, and whether it is that of the second of two tables.
    Plan {
        objection: Objection,
        text: Vec<u8>,
        is_second: bool,
    },
    /// The refused line of a script or of a file of words.
    Line(LineEvidence),
    /// The line of a line file up to the refused byte, and that byte.
    Byte {
        line: LineEvidence,
        byte: u8,
    },
    /// The refused line of a log.
    Log {
        line: LineEvidence,
        log: LogEvidence,
    },
    /// The refused rows of comma-separated values.
    Rows(RowsEvidence),
    /// How many threads the run needs.
    Threads(usize),
}

impl Evidence {
    /// What was read of a table.
    pub fn of_table(table: TableEvidence) -> Evidence {
        let is_second = false;
        Evidence::Table { table, is_second }
    }

    /// A refused line of a script or of a file of words; nothing if an allocation failed.
    pub fn of_line(line: Option<LineEvidence>) -> Evidence {
        match line {
            Some(line) => Evidence::Line(line),
            None => Evidence::Nothing,
        }
    }

    /// The byte at this place of a line file, and its line up to that byte.
    pub fn of_byte(alloc: Global, bytes: &[u8], place: usize) -> Evidence {
        match (LineEvidence::at(alloc, bytes, place), bytes.get(place)) {
            (Some(line), Some(byte)) => Evidence::Byte { line, byte: *byte },
            _ => Evidence::Nothing,
        }
    }

    /// A refused line of a log; nothing if `line` is `None`, since an allocation failed.
    pub fn of_log(line: Option<LineEvidence>, log: LogEvidence) -> Evidence {
        match line {
            Some(line) => Evidence::Log { line, log },
            None => Evidence::Nothing,
        }
    }

    /// This evidence, as that of the second of two tables if it is of a table or its plan text.
    pub fn of_second_table(self) -> Evidence {
        let is_second = true;
        match self {
            Evidence::Table { table, .. } => Evidence::Table { table, is_second },
            Evidence::Plan {
                objection,
                text,
                ..
            } => Evidence::Plan {
                objection,
                text,
                is_second,
            },
            other => other,
        }
    }

    /// This evidence, or this plan if there is none.
    pub fn or_plan(self, proposal: Proposal<OUTPUTS>) -> Evidence {
        match self {
            Evidence::Nothing => Evidence::Proposal(proposal),
            other => other,
        }
    }

    /// This evidence; if it is of a log, then of one that comes after this number of other logs.
    pub fn after_logs(self, before: usize) -> Evidence {
        match self {
            Evidence::Log { line, log } => Evidence::Log {
                line,
                log: LogEvidence {
                    number: log.number.saturating_add(before),
                    ..log
                },
            },
            other => other,
        }
    }

    /// What was read of a table; nothing if it is evidence of something else.
    pub fn into_table(self) -> TableEvidence {
        match self {
            Evidence::Table { table, .. } => table,
            _ => TableEvidence::nothing(),
        }
    }
}

/// A refused line of a script, of a file of words or of a log; of a line file, its part before the refused byte.
pub struct LineEvidence {
    /// Its number, from 1.
    pub number: usize,
    /// Its bytes, without the line feed.
    pub bytes: Vec<u8>,
    /// Whether it has a line feed.
    pub is_ended: bool,
    /// The last line before it that states something: empty ones and comments do not.
    pub before: Vec<u8>,
    /// The names of the receivers and of the groups that it can name.
    pub receivers: Vec<String>,
    pub groups: Vec<String>,
    /// How many further tables it can publish.
    pub further: usize,
}

// Written by hand, a drop is one call in the proofs of its owners.
impl Drop for LineEvidence {
    fn drop(self) {
        let Self {
            number: _,
            bytes: _,
            is_ended: _,
            before: _,
            receivers: _,
            groups: _,
            further: _,
        } = self;
    }
}

/// The last line of a text that states something; empty lines and comments do not. Empty if there is none.
pub fn last_stated(text: &[u8]) -> &[u8] {
    for line in text.rsplit(|byte| *byte == b'\n') {
        if !line.is_empty() && !line.starts_with(b"#") {
            return line;
        }
    }
    &[]
}

impl LineEvidence {
    /// The line of this number. Error: an allocation fails.
    pub fn of(alloc: Global, text: &[u8], number: usize) -> Result<LineEvidence, AllocError> {
        let rest = lines_from(text, number);
        let line = first_line(rest);
        let above = text.len().saturating_sub(rest.len());
        let before = last_stated(text.get(..above).unwrap_or(&[]));
        Ok(LineEvidence {
            number,
            bytes: Vec::from_slice(alloc, line)?,
            is_ended: line.len() < rest.len(),
            before: Vec::from_slice(alloc, before)?,
            receivers: Vec::new(alloc),
            groups: Vec::new(alloc),
            further: 0,
        })
    }

    /// This line, by its number in a longer text. There `above` is the last line before this text that states something.
    pub fn in_text(mut self, number: usize, above: &[u8]) -> LineEvidence {
        self.number = number;
        if self.before.is_empty() {
            let _ = self.before.extend_from_slice(above);
        }
        self
    }

    /// The line of the byte at this place, up to that byte. `None`: there is none, or an allocation fails.
    fn at(alloc: Global, bytes: &[u8], place: usize) -> Option<LineEvidence> {
        let before = bytes.get(..place)?;
        let mut number: usize = 1;
        for byte in before {
            number = number.saturating_add(usize::from(*byte == b'\n'));
        }
        LineEvidence::of(alloc, before, number).ok()
    }
}

/// What a text looks like that is given as a table.
#[derive(Clone, Copy, PartialEq, Eq)]
pub enum TableLook {
    PlanText,
    Script,
    /// Rows for `import`.
    Rows,
    /// The line of a refusal.
    Refusal,
    Log,
    /// A text in UTF-16.
    Utf16,
    /// A table with a header such as `[source]`, which has two brackets on each side.
    SingleBrackets,
    /// A table whose reader stopped at a line with typographic quotes.
    CurlyQuotes,
    Other,
}

impl TableLook {
    /// What a refused text looks like, by its first words or its last line.
    pub fn of(text: &[u8]) -> TableLook {
        if text.starts_with(b"plan ") {
            TableLook::PlanText
        } else if has_event(text) {
            TableLook::Script
        } else if text.starts_with(b"refused ") {
            TableLook::Refusal
        } else if has_columns(text) {
            TableLook::Rows
        } else if let [b'0'..=b'9', ..] = last_stated(text) {
            TableLook::Log
        } else if is_utf16(text) {
            TableLook::Utf16
        } else {
            TableLook::Other
        }
    }

    /// By the text as a whole, otherwise by the line of it at which the reader of TOML stopped.
    fn of_refused(text: &[u8], document: &Option<RefusedTable>) -> TableLook {
        match (TableLook::of(text), document) {
            (TableLook::Other, Some(RefusedTable::NotToml(error))) => {
                TableLook::of_stop(text, error.span().map_or(0, |span| span.start))
            }
            (look, _) => look,
        }
    }

    /// By its lines, if the reader of TOML stopped at this place.
    fn of_stop(text: &[u8], stop: usize) -> TableLook {
        if has_curly_quote(line_at(text, stop)) {
            TableLook::CurlyQuotes
        } else if has_single_brackets(text) {
            TableLook::SingleBrackets
        } else {
            TableLook::Other
        }
    }
}

/// Whether a text is in UTF-16: by its byte order mark, or because the second byte of its first letter is 0.
fn is_utf16(text: &[u8]) -> bool {
    text.starts_with(b"\xFF\xFE") || text.starts_with(b"\xFE\xFF") || text.get(1) == Some(&0)
}

/// The line of a text that has this place.
fn line_at(text: &[u8], place: usize) -> &[u8] {
    let mut end: usize = 0;
    for line in text.split(|byte| *byte == b'\n') {
        end = end.saturating_add(line.len()).saturating_add(1);
        if place < end {
            return line;
        }
    }
    &[]
}

/// Whether a line has a quote that is none of TOML: U+2018 to U+201F, in UTF-8.
fn has_curly_quote(line: &[u8]) -> bool {
    for place in 0..line.len() {
        if let Some([0xE2, 0x80, 0x98..=0x9F, ..]) = line.get(place..) {
            return true;
        }
    }
    false
}

/// Whether a line of a text is the header of a row of an array, but with one bracket on each side.
fn has_single_brackets(text: &[u8]) -> bool {
    for line in text.split(|byte| *byte == b'\n') {
        if line.starts_with(b"[receiver]")
            || line.starts_with(b"[source]")
            || line.starts_with(b"[group]")
            || line.starts_with(b"[group.output]")
        {
            return true;
        }
    }
    false
}

/// Whether a text begins with an event of a script.
fn has_event(text: &[u8]) -> bool {
    text.starts_with(b"arrive ")
        || text.starts_with(b"cell ")
        || text.starts_with(b"frame ")
        || text.starts_with(b"publish ")
}

/// Whether the first line of a text names columns of rows for `import`, separated by commas.
fn has_columns(text: &[u8]) -> bool {
    for name in first_line(text).split(|byte| *byte == b',') {
        if name == b"source".as_slice() || name == b"min_us".as_slice() {
            return true;
        }
    }
    false
}

/// What was read of a table that has a fault or no plan.
pub struct TableEvidence {
    /// Which kind of file it looks like.
    pub looks: TableLook,
    /// The parsed document of the refused table.
    pub document: Option<RefusedTable>,
    /// Its equipment, if it has no plan.
    pub equipment: Option<Equipment>,
}

// Written by hand, a drop is one call in the proofs of its owners.
impl Drop for TableEvidence {
    fn drop(self) {
        let Self {
            looks: _,
            document: _,
            equipment: _,
        } = self;
    }
}

impl TableEvidence {
    /// Nothing was read.
    pub fn nothing() -> TableEvidence {
        TableEvidence {
            looks: TableLook::Other,
            document: None,
            equipment: None,
        }
    }

    /// A text that is refused as a table, and its document if it has one.
    pub fn of_text(text: &[u8], document: Option<RefusedTable>) -> TableEvidence {
        TableEvidence {
            looks: TableLook::of_refused(text, &document),
            document,
            equipment: None,
        }
    }

    /// The equipment of a table that was read.
    pub fn of_equipment(equipment: Equipment) -> TableEvidence {
        TableEvidence {
            looks: TableLook::Other,
            document: None,
            equipment: Some(equipment),
        }
    }
}
