//! What a row says by itself.
ghost use Rattle.std.specs.Prelude.{◌≡◌, IfOk, None, option_map};
ghost use Rattle.std.specs.Result.{result_err, result_map_both};
ghost use Rattle.csv.specs.Records.{fields_of};
ghost use Rattle.a429_import.specs.ImportFields.{filters_in, hold_in, label_in, rate_in, sdi_in, text_in};
ghost use Rattle.a429_import.specs.ImportRows.{column_form, interval_at, is_least, names_group, numbers_of, output_at, row_of, row_view, stated_at, texts_of, texts_view};

use crate::columns::Heading;
use crate::fault::{CsvFaultKind, ImportColumn};
use crate::fields::{filters_in, hold_in, if_group, label_in, sdi_in, text_in};
use crate::intervals::interval_in;
use crate::rates::rate_in;
use a429_text::CsvLine;
use a429_word::{Label, Sdi};
use std::alloc::{AllocError, Global};
use std::marker::Model;

/// A text of a row, of any length.
#[derive(Drop)]
pub struct RowText {
    text: String,
}

impl Model for RowText {
    ghost use Rattle.std.specs.Prelude.{List, ℕ, string_bytes};

    ghost Value = { List ℕ };

    ghost view = { λ t. string_bytes t.text };
}

impl RowText {
    ghost use Rattle.std.specs.Prelude.{◌≡◌, IfOk};

    fn copy_of(alloc: Global, text: &str) -> Result<RowText, AllocError>
        ensures { IfOk result (λ t. t ≡ text.now) }
    {
        let text = String::from_str(alloc, text)?;
        Ok(RowText { text })
    }

    /// The text itself.
    pub fn as_str(&self) -> &str
        ensures { result.now ≡ self.now }
    {
        self.text.as_str()
    }
}

/// The texts of a row. Their form is not checked here. The name of the group is empty if the row has none.
#[derive(Drop)]
pub struct RowTexts {
    pub group: RowText,
    pub source: RowText,
    pub receiver: RowText,
    /// Filters, separated by spaces.
    pub filters: RowText,
}

/// The texts, as the fields have them.
#[derive(Clone, Copy)]
pub struct TextFields<'a> {
    pub group: &'a str,
    pub source: &'a str,
    pub receiver: &'a str,
    pub filters: &'a str,
}

/// The numbers of a row. Those of an output are 0 or `None` if the row has no group.
#[derive(Clone, Copy)]
pub struct RowNumbers {
    /// In bit/s.
    pub rate: u32,
    pub label: Label,
    /// `None` if the SDI is any.
    pub sdi: Option<Sdi>,
    /// In microseconds.
    pub min_us: u32,
    /// In microseconds.
    pub max_us: u32,
    /// `None` if there is no limit.
    pub hold: Option<u32>,
}

/// What a row says: an output of a group, with its source, the source's receiver, and the receiver's filters. Without a group,
/// the source and its receiver alone.
#[derive(Drop)]
pub struct ImportRow {
    pub texts: RowTexts,
    pub numbers: RowNumbers,
}

/// What a row says, with its texts as the fields have them, by reference.
#[derive(Clone, Copy)]
pub struct RowFields<'a> {
    pub texts: TextFields<'a>,
    pub numbers: RowNumbers,
}

/// The numbers of a row. Error: the first column with a wrong form.
#[tactic(auto, unfolding(crate::specs::ImportRows::numbers_of))]
pub fn row_numbers(heading: &Heading, line: &CsvLine) -> Result<RowNumbers, ImportColumn>
    ensures { result ≡ numbers_of line.now.separator (fields_of heading.now.line.fields) (fields_of line.now.fields) }
{
    let has_group = !heading.field_of(line, ImportColumn::Group).is_empty();
    let rate = heading.field_of(line, ImportColumn::Rate);
    let rate = if_group(has_group, rate, rate_in(rate), 0).ok_or(ImportColumn::Rate)?;
    let label = label_in(heading.field_of(line, ImportColumn::Label)).ok_or(ImportColumn::Label)?;
    let sdi = sdi_in(heading.field_of(line, ImportColumn::Sdi)).ok_or(ImportColumn::Sdi)?;
    let min_us = heading.field_of(line, ImportColumn::MinUs);
    let least = interval_in(true, heading.min_form, line.separator, min_us);
    let min_us = if_group(has_group, min_us, least, 0).ok_or(ImportColumn::MinUs)?;
    let max_us = heading.field_of(line, ImportColumn::MaxUs);
    let most = interval_in(false, heading.max_form, line.separator, max_us);
    let max_us = if_group(has_group, max_us, most, 0).ok_or(ImportColumn::MaxUs)?;
    let hold = heading.field_of(line, ImportColumn::Hold);
    let hold = if_group(has_group, hold, hold_in(hold), None).ok_or(ImportColumn::Hold)?;
    Ok(RowNumbers {
        rate,
        label,
        sdi,
        min_us,
        max_us,
        hold,
    })
}

/// The texts of a row. Error: the first column that is not UTF-8, or whose filters have a wrong form.
#[tactic(auto, unfolding(crate::specs::ImportRows::texts_of))]
fn text_fields<'a>(heading: &Heading, line: &'a CsvLine) -> Result<TextFields<'a>, ImportColumn>
    ensures { result_map_both texts_view (λ c. c) result ≡ texts_of (fields_of heading.now.line.fields) (fields_of line.now.fields) }
{
    Ok(TextFields {
        group: text_in(heading.field_of(line, ImportColumn::Group)).ok_or(ImportColumn::Group)?,
        source: text_in(heading.field_of(line, ImportColumn::Source)).ok_or(ImportColumn::Source)?,
        receiver: text_in(heading.field_of(line, ImportColumn::Receiver)).ok_or(
            ImportColumn::Receiver,
        )?,
        filters: filters_in(heading.field_of(line, ImportColumn::Filters)).ok_or(
            ImportColumn::Filters,
        )?,
    })
}

/// What a row says, without the other rows. Error: the column with a wrong form; `None` if the row has more or fewer
/// fields than the heading.
#[tactic(auto, unfolding(crate::specs::ImportRows::row_of))]
pub fn row_of<'a>(
    heading: &Heading,
    line: &'a CsvLine,
) -> Result<RowFields<'a>, Option<ImportColumn>>
    ensures { result_map_both row_view (λ column. (line.now.number, CsvFaultKind.Form, column)) result
        ≡ row_of (fields_of heading.now.line.fields) line.now }
{
    if line.len() != heading.line.len() {
        return Err(None);
    }
    let numbers = row_numbers(heading, line).map_err(Some)?;
    let texts = text_fields(heading, line).map_err(Some)?;
    Ok(RowFields { texts, numbers })
}

/// What is wrong with a row by itself: the column with a wrong form; `Some(None)` if the row has more or fewer fields than
/// the heading. `None` if nothing is.
pub fn form_fault(heading: &Heading, line: &CsvLine) -> Option<Option<ImportColumn>>
    ensures { option_map (λ column. (line.now.number, CsvFaultKind.Form, column)) result
        ≡ result_err (row_of (fields_of heading.now.line.fields) line.now) }
{
    match row_of(heading, line) {
        Ok(_) => None,
        Err(column) => Some(column),
    }
}

/// A copy of what a row says. Error: an allocation failed.
pub fn copy_of(alloc: Global, row: &RowFields<'_>) -> Result<ImportRow, AllocError>
    ensures { IfOk result (λ copy. copy ≡ row_view row.now) }
{
    let group = RowText::copy_of(alloc, row.texts.group)?;
    let source = RowText::copy_of(alloc, row.texts.source)?;
    let receiver = RowText::copy_of(alloc, row.texts.receiver)?;
    let filters = RowText::copy_of(alloc, row.texts.filters)?;
    let texts = RowTexts {
        group,
        source,
        receiver,
        filters,
    };
    Ok(ImportRow {
        texts,
        numbers: row.numbers,
    })
}
