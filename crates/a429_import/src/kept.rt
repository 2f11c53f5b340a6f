//! Columns of a sheet that go along as comments of the table.
ghost use Rattle.std.specs.Prelude.{◌≡◌, ◌++◌, ◌∷◌, [], ℕ, IfOk, List, OnOk, option_map};
ghost use Rattle.csv.specs.Records.{fields_of};
ghost use Rattle.a429_text.specs.declared.csv_line.CsvLine.{CsvLine};
ghost use Rattle.a429_import.specs.KeptFields.{KeepsTexts, TakesText, kept_at, kept_heading, kept_in, kept_line, lines_kept, shown, shown_byte};

use crate::columns::Heading;
use crate::fault::ImportColumn;
use crate::fields::utf8_in;
use crate::notes::has_label;
use a429_text::{CsvLine, Text};
use std::alloc::{AllocError, Global};

/// The heading of a column that goes along: what follows `#:` in its name.
fn kept_heading(name: &[u8]) -> Option<&[u8]>
    ensures { option_map (λ heading. heading.now) result ≡ kept_heading name.now }
{
    match name {
        [b'#', b':', heading @ ..] => Some(heading),
        _ => None,
    }
}

/// A byte as a comment has it.
fn shown_byte(is_text: bool, is_heading: bool, byte: u8) -> u8
    ensures { result ≡ shown_byte is_text is_heading byte }
{
    if byte < 32 || byte == 127 {
        b' '
    } else if byte == b'|' && is_heading {
        b'/'
    } else if byte < 128 || is_text {
        byte
    } else {
        b'?'
    }
}

/// Writes a heading or a field as a comment has it: with spaces for control characters, and `?` for bytes above 127 if it is
/// no UTF-8. In a heading `|` becomes `/`.
#[tactic(auto, unfolding(crate::specs::ImportFields::utf8_in))]
pub fn put_shown(text: &mut Text, is_heading: bool, bytes: &[u8])
    ensures { text.new ≡ text.old ++ shown is_heading bytes.now }
{
    let is_text = utf8_in(bytes).is_some();
    for byte in bytes {
        text.put_bytes(&[shown_byte(is_text, is_heading, *byte)]);
    }
}

/// Writes the line of a field below a field of the heading, if its column goes along and the field is not empty.
fn put_line(text: &mut Text, name: &[u8], field: &[u8])
    ensures { text.new ≡ text.old ++ kept_line (kept_heading name.now) field.now }
{
    match kept_heading(name) {
        Some(heading) if !field.is_empty() => {
            put_shown(text, true, heading);
            text.put(" | ");
            put_shown(text, false, field);
            text.put_bytes(b"\n");
        }
        _ => {}
    }
}

/// What a row says in the columns that go along: a line `HEADING | FIELD` for each field that is not empty.
fn kept_in(alloc: Global, heading: &CsvLine, line: &CsvLine) -> Result<Vec<u8>, AllocError>
    ensures { IfOk result (λ text. text.items ≡ kept_in (fields_of heading.now.fields) (fields_of line.now.fields)) }
{
    let mut text = Text::new(alloc);
    for place in 0..line.len() {
        put_line(&mut text, heading.field(place), line.field(place));
    }
    text.into_bytes()
}

/// What the first row of a source says in the columns that go along, of those rows that say something there.
#[derive(Drop)]
struct KeptText {
    source: Vec<u8>,
    lines: Vec<u8>,
}

/// For each source, what its first row says in the columns that go along.
#[derive(Drop)]
pub struct KeptTexts {
    texts: Vec<KeptText>,
}

impl KeptTexts {
    /// What is known before the first row.
    pub fn new(alloc: Global) -> KeptTexts
        ensures { (heading : List (List ℕ)) → KeepsTexts result heading [] }
    {
        KeptTexts {
            texts: Vec::new(alloc),
        }
    }

    /// The lines of a source. `None` if there are none.
    fn find(&self, source: &[u8]) -> Option<&[u8]>
        ensures { option_map (λ lines. lines.now) result ≡ kept_at self.now source.now }
    {
        for text in &self.texts {
            if source == text.source.as_slice() {
                return Some(text.lines.as_slice());
            }
        }
        None
    }

    /// The lines of a source; nothing if there are none.
    pub fn text_of(&self, source: &[u8]) -> &[u8]
        ensures { result.now ≡ lines_kept self.now source.now }
    {
        self.find(source).unwrap_or(&[])
    }

    /// Takes the lines of a source, unless it has some.
    fn take(&mut self, alloc: Global, source: &[u8], lines: Vec<u8>) -> Result<(), AllocError>
        ensures { OnOk result (TakesText self.old self.new source.now lines.items) }
    {
        if self.find(source).is_none() {
            self.texts.push(KeptText {
                source: Vec::from_slice(alloc, source)?,
                lines,
            })?;
        }
        Ok(())
    }

    /// Takes what one more row says, unless it may be a note. Error: an allocation failed.
    pub fn note(
        &mut self,
        alloc: Global,
        heading: &Heading,
        line: &CsvLine,
    ) -> Result<(), AllocError>
        ensures { OnOk result ((below : List CsvLine) → KeepsTexts self.old (fields_of heading.now.line.fields) below
            → KeepsTexts self.new (fields_of heading.now.line.fields) (below ++ line.now ∷ [])) }
    {
        if !has_label(heading, line) {
            return Ok(());
        }
        let text = kept_in(alloc, &heading.line, line)?;
        if text.is_empty() {
            return Ok(());
        }
        self.take(alloc, heading.field_of(line, ImportColumn::Source), text)
    }
}
