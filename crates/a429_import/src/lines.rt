//! The rows of a text of comma-separated values.
ghost use Rattle.std.specs.Prelude.{◌≡◌, ◌<◌, ◌≤◌, ◌+◌, [], IfOk, List, OnOk, drop, false, length, map, true, ℕ};
ghost use Rattle.csv.specs.Machine.{in_field, step};
ghost use Rattle.csv.specs.Reading.{owned_rows_left, owned_rows_reader};
ghost use Rattle.csv.specs.Records.{fields_of};
ghost use Rattle.csv.specs.declared.parser.State.TheVariants as st;
ghost use Rattle.a429_import.specs.ImportReading.{IsReadRow, IsUnread};
ghost use Rattle.a429_import.specs.Imports.{has_text, separated};
ghost use Rattle.a429_import.specs.ImportSteps.{state_of};
ghost use Rattle.a429_import.specs.ImportWords.{trimmed};
ghost use Rattle.a429_import.specs.LineCounts.{HasCounted, IsBefore, IsEnd, begins_with_end, is_between, row_end};
ghost use Rattle.a429_import.specs.RowLines.{ends_here, from_row, line_of};

use crate::blanks::trimmed_row;
use crate::forms::{Form, ends_line};
use a429_text::CsvLine;
use a429_text::cut::without_byte_order_mark;
use csv::{ByteRecord, ByteRecordsIntoIter, Error, ReaderBuilder};
use std::alloc::{AllocError, Global};

/// Whether a line has a field that is not empty.
pub fn has_text(line: &CsvLine) -> bool
    ensures { result ≡ has_text (fields_of line.now.fields) }
{
    for place in 0..line.len() {
        if !line.field(place).is_empty() {
            return true;
        }
    }
    false
}

/// Where in a row a byte is.
#[derive(Clone, Copy)]
pub enum Part {
    /// Before its first field.
    Row,
    /// Before its first field, after a carriage return.
    Return,
    /// At the beginning of a field after the first.
    Field,
    /// In a field, outside quotes.
    Text,
    /// Inside quotes.
    Quoted,
    /// After a quote inside quotes: it closes them, or it is the first of two.
    Quote,
}

/// Whether no byte of a row was passed.
fn is_between(part: Part) -> bool
    ensures { result ≡ is_between (state_of part) }
{
    matches!(part, Part::Row | Part::Return)
}

/// Passes a byte of a field outside quotes.
#[inline(always)]
fn pass_text(separator: u8, byte: u8) -> Part
    ensures { state_of result ≡ (in_field (separated separator) byte).0 }
{
    match byte {
        _ if byte == separator => Part::Field,
        b'\r' => Part::Return,
        b'\n' => Part::Row,
        _ => Part::Text,
    }
}

/// Passes a byte as the library `csv` does.
#[inline(always)]
pub fn pass(separator: u8, part: Part, byte: u8) -> Part
    ensures { state_of result ≡ (step (separated separator) (state_of part) byte).0 }
{
    match part {
        Part::Text => pass_text(separator, byte),
        Part::Quoted if byte == b'"' => Part::Quote,
        Part::Quoted => Part::Quoted,
        Part::Quote if byte == b'"' => Part::Quoted,
        Part::Quote => pass_text(separator, byte),
        Part::Row | Part::Return if ends_line(byte) => Part::Row,
        _ if byte == b'"' => Part::Quoted,
        _ => pass_text(separator, byte),
    }
}

/// Whether a byte ends a line, which ends with a line feed, with a carriage return, or with both in this order.
fn ends_here(is_after_return: bool, byte: u8) -> bool
    ensures { result ≡ ends_here is_after_return byte }
{
    byte == b'\r' || byte == b'\n' && !is_after_return
}

/// Counts the lines of a text up to a place in it.
#[derive(Clone, Copy)]
pub struct LineCount {
    /// The place of the next byte: the number of bytes that are counted.
    pub at: usize,
    /// How many lines end before that byte.
    ended: u64,
    is_after_return: bool,
    /// Where in a row that byte is.
    part: Part,
}

impl LineCount {
    /// The count before the byte at a place of a text.
    fn before(text: &[u8], place: usize) -> LineCount
        requires { place ≤ length text.now }
        ensures counted { HasCounted text.now result }
        ensures at { result.at ≡ place }
        ensures start { state_of result.part ≡ st.StartRecord }
    {
        let mut count = LineCount {
            at: 0,
            ended: 0,
            is_after_return: false,
            part: Part::Row,
        };
        while count.at < place {
            count.pass_byte(text);
        }
        count
    }

    fn pass_byte(&mut self, text: &[u8])
        requires counted { HasCounted text.now self.old }
        requires below { self.old.at < length text.now }
        ensures counted { HasCounted text.now self.new }
        ensures at { self.new.at ≡ self.old.at + 1 }
        ensures part { self.new.part ≡ self.old.part }
    {
        let byte = text[self.at];
        self.ended += u64::from(ends_here(self.is_after_return, byte));
        self.is_after_return = byte == b'\r';
        self.at += 1;
    }

    fn is_at_end(&self, text: &[u8]) -> bool
        ensures { result ≡ begins_with_end (drop self.now.at text.now) }
    {
        match text.get(self.at) {
            Some(byte) => ends_line(*byte),
            None => false,
        }
    }

    /// Counts the line ends before the next row.
    fn pass_ends(&mut self, text: &[u8])
        requires counted { HasCounted text.now self.old }
        requires between { is_between (state_of self.old.part) ≡ true }
        ensures counted { HasCounted text.now self.new }
        ensures rest { drop self.new.at text.now ≡ from_row (drop self.old.at text.now) }
        ensures none { begins_with_end (drop self.new.at text.now) ≡ false }
        ensures row { (separator : ℕ) → row_end (separated separator) (state_of self.new.part) (drop self.new.at text.now)
            ≡ row_end (separated separator) (state_of self.old.part) (drop self.old.at text.now) }
    {
        while self.is_at_end(text) {
            self.pass_byte(text);
            self.part = Part::Row;
        }
    }

    /// The line of the next byte, counted from 1.
    fn line(&self, text: &[u8]) -> u64
        requires { HasCounted text.now self.now }
        ensures { result ≡ line_of text.now (drop self.now.at text.now) }
    {
        self.ended.saturating_add(1)
    }

    /// The line on which the next row begins, counted from 1. Counts that row.
    fn row_line(&mut self, text: &[u8], separator: u8) -> u64
        requires counted { HasCounted text.now self.old }
        requires between { is_between (state_of self.old.part) ≡ true }
        ensures line { result ≡ line_of text.now (from_row (drop self.old.at text.now)) }
        ensures counted { HasCounted text.now self.new }
        ensures row { row_end (separated separator) (state_of self.old.part) (drop self.old.at text.now)
            ≡ (state_of self.new.part, drop self.new.at text.now) }
        ensures between { is_between (state_of self.new.part) ≡ true }
    {
        self.pass_ends(text);
        let line = self.line(text);
        while self.at < text.len() {
            let part = pass(separator, self.part, text[self.at]);
            self.pass_byte(text);
            self.part = part;
            if is_between(part) {
                return line;
            }
        }
        self.part = Part::Row;
        line
    }
}

/// The count before the rows of an end of a text.
pub fn count_before(text: &[u8], end: &[u8]) -> LineCount
    requires { IsEnd text.now end.now }
    ensures { IsBefore text.now end.now result }
{
    LineCount::before(text, text.len() - without_byte_order_mark(end).len())
}

/// The line on which the first row of an end of a text begins, counted from 1.
pub fn line_at(text: &[u8], end: &[u8]) -> u64
    requires { IsEnd text.now end.now }
    ensures { result ≡ line_of text.now (from_row end.now) }
{
    let mut count = LineCount::before(text, text.len() - end.len());
    count.pass_ends(text);
    count.line(text)
}

/// The rows of a text of this form, as the library `csv` reads them.
pub fn rows_of<'a>(alloc: Global, form: Form<'a>) -> ByteRecordsIntoIter<&'a [u8]>
    ensures before { IsUnread form.entry.separator form.entry.text.now (owned_rows_reader result) }
    ensures left { 0 < owned_rows_left result }
{
    let reader = ReaderBuilder::new()
        .has_headers(false)
        .flexible(true)
        .delimiter(form.separator)
        .from_reader(alloc, form.text);
    reader.into_byte_records()
}

/// A line, from what the library `csv` reads, without blanks round its fields. It is the next one that is counted. The library
/// refuses no row, so its only error is that an allocation failed.
pub fn line_of(
    alloc: Global,
    text: &[u8],
    form: Form<'_>,
    count: &mut LineCount,
    row: Result<ByteRecord, Error>,
) -> Result<CsvLine, AllocError>
    requires counted { HasCounted text.now count.old }
    requires between { is_between (state_of count.old.part) ≡ true }
    ensures fields { IfOk result (λ line. IsReadRow (λ fields. fields_of line.fields ≡ map trimmed (fields_of fields)) row) }
    ensures separator { IfOk result (λ line. line.separator ≡ form.entry.separator) }
    ensures number { IfOk result (λ line. line.number ≡ line_of text.now (from_row (drop count.old.at text.now))) }
    ensures counted { OnOk result (HasCounted text.now count.new) }
    ensures row { OnOk result (row_end (separated form.entry.separator) (state_of count.old.part) (drop count.old.at text.now)
        ≡ (state_of count.new.part, drop count.new.at text.now)) }
    ensures between { OnOk result (is_between (state_of count.new.part) ≡ true) }
{
    let Ok(fields) = row else {
        return Err(AllocError);
    };
    let number = count.row_line(text, form.separator);
    let fields = trimmed_row(alloc, fields)?;
    Ok(CsvLine {
        number,
        separator: form.separator,
        fields,
    })
}
