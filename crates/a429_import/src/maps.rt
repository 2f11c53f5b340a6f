//! The heading of rows, by texts HEADING=COLUMN: such a text says that a heading is the name of a column.
ghost use Rattle.std.specs.Prelude.{◌≡◌, ◌++◌, ◌∷◌, [], IfOk, List, OnOk, codes, map, option_map, string_bytes, true};
ghost use Rattle.std.specs.List.{find, list_all, list_any};
ghost use Rattle.csv.specs.Records.{fields_of, partial_of};
ghost use Rattle.a429_text.specs.declared.csv_line.CsvLine.{CsvLine};
ghost use Rattle.a429_import.specs.ImportRows.{is_column};
ghost use Rattle.a429_import.specs.ImportMaps.{AreNamedBy, IsNamedBy, can_keep, column_in, counts, is_about, is_keep, is_met, is_once, keep_text, mapped, names_by, given_texts, titled};

use crate::columns::is_column;
use crate::plain::same_heading;
use a429_text::renames::halves;
use a429_text::{CsvLine, Text};
use csv::ByteRecord;
use std::alloc::{AllocError, Global};

/// Whether the HEADING of a text is this field.
pub fn is_about(field: &[u8], text: &str) -> bool
    ensures { result ≡ is_about field.now text.now }
{
    match halves(text.as_bytes()) {
        Some((heading, _)) => same_heading(heading, field),
        None => false,
    }
}

/// The COLUMN of a text HEADING=COLUMN: what follows its last `=`. It is empty if the text has no `=`.
pub fn column_in(text: &str) -> &[u8]
    ensures { result.now ≡ column_in text.now }
{
    match halves(text.as_bytes()) {
        Some((_, column)) => column,
        None => &[],
    }
}

/// The first text that is about a field.
fn text_about<'a>(maps: &[&'a str], field: &[u8]) -> Option<&'a str>
    ensures { option_map (λ text. text.now) result ≡ find (is_about field.now) (given_texts maps.now) }
{
    maps.iter().copied().find(|text| is_about(field, *text))
}

/// Whether the name of a field of a heading is that of a column: COLUMN of the first text that is about it, or its own.
pub fn names_column_by(maps: &[&str], field: &[u8]) -> bool
    ensures { result ≡ is_column (mapped (given_texts maps.now) field.now) }
{
    match text_about(maps, field) {
        Some(text) => is_column(column_in(text)),
        None => is_column(field),
    }
}

/// Whether COLUMN of a text is `#:`, which means that the column of HEADING goes along as comments.
fn is_keep(text: &str) -> bool
    ensures { result ≡ is_keep text.now }
{
    column_in(text) == "#:".as_bytes()
}

/// Adds the name of a field in a heading, after `#:` if its column goes along. Otherwise it is COLUMN of the first text that
/// is about the field, or its own.
fn push_titled(
    alloc: Global,
    names: &mut ByteRecord,
    maps: &[&str],
    field: &[u8],
) -> Result<(), AllocError>
    requires { partial_of names.old ≡ [] }
    ensures fields { OnOk result (fields_of names.new ≡ fields_of names.old ++ titled (given_texts maps.now) field.now ∷ []) }
    ensures partial { OnOk result (partial_of names.new ≡ []) }
{
    match text_about(maps, field) {
        Some(text) if is_keep(text) => {
            let mut name = Text::new(alloc);
            name.put("#:");
            name.put_bytes(field);
            names.push_field(&name.into_bytes()?)
        }
        Some(text) => names.push_field(column_in(text)),
        None => names.push_field(field),
    }
}

/// Whether HEADING of a text HEADING=COLUMN is a field of the heading.
pub fn has_heading(heading: &CsvLine, text: &str) -> bool
    ensures { result ≡ list_any (λ field. is_about field text.now) (fields_of heading.now.fields) }
{
    for place in 0..heading.len() {
        if is_about(heading.field(place), text) {
            return true;
        }
    }
    false
}

/// Whether a column can go along: it has a heading, which is no name of a column, and the first text about it says so.
fn can_keep(maps: &[&str], field: &[u8]) -> bool
    ensures { result ≡ can_keep (given_texts maps.now) field.now }
{
    match text_about(maps, field) {
        Some(text) => is_keep(text) && !(field.is_empty() || is_column(field)),
        None => false,
    }
}

/// Whether a text is about a field; if the flag is set, whether also its column can go along.
fn counts(maps: &[&str], text: &str, is_kept: bool, field: &[u8]) -> bool
    ensures { result ≡ counts (given_texts maps.now) text.now is_kept field.now }
{
    is_about(field, text) && (!is_kept || can_keep(maps, field))
}

/// Whether there is one such field in a heading.
fn is_once(maps: &[&str], heading: &CsvLine, text: &str, is_kept: bool) -> bool
    ensures { result ≡ is_once (given_texts maps.now) (fields_of heading.now.fields) text.now is_kept }
{
    let mut count = 0;
    for place in 0..heading.len() {
        count += usize::from(counts(maps, text, is_kept, heading.field(place)));
    }
    count == 1
}

/// Whether COLUMN of a text is the name of a column, and HEADING a field of the heading. Or COLUMN is `#:`, and HEADING is one
/// field, whose column can go along as comments.
pub fn is_met(maps: &[&str], heading: &CsvLine, text: &str) -> bool
    ensures { result ≡ is_met (given_texts maps.now) (fields_of heading.now.fields) text.now }
{
    if is_keep(text) {
        is_once(maps, heading, text, false) && is_once(maps, heading, text, true)
    } else {
        is_column(column_in(text)) && has_heading(heading, text)
    }
}

fn are_met(heading: &CsvLine, maps: &[&str]) -> bool
    ensures { result ≡ list_all (is_met (given_texts maps.now) (fields_of heading.now.fields)) (given_texts maps.now) }
{
    maps.iter().all(|text| is_met(maps, heading, *text))
}

/// The names of the fields of a heading; none if one of the texts is not met.
fn names_of(alloc: Global, maps: &[&str], heading: &CsvLine) -> Result<ByteRecord, AllocError>
    ensures { IfOk result (λ names. fields_of names ≡ names_by (given_texts maps.now) (fields_of heading.now.fields)) }
{
    let bytes = heading.fields.as_slice().len();
    let mut names = ByteRecord::with_capacity(alloc, bytes, heading.len())?;
    if !are_met(heading, maps) {
        return Ok(names);
    }
    for place in 0..heading.len() {
        push_titled(alloc, &mut names, maps, heading.field(place))?;
    }
    Ok(names)
}

/// A heading with its names by texts HEADING=COLUMN. It has no name if one of the texts is not met. Error: an allocation
/// failed.
pub fn named_by(alloc: Global, maps: &[&str], heading: CsvLine) -> Result<CsvLine, AllocError>
    ensures { IfOk result (λ named. IsNamedBy (given_texts maps.now) heading named) }
{
    if maps.is_empty() {
        return Ok(heading);
    }
    Ok(CsvLine {
        number: heading.number,
        separator: heading.separator,
        fields: names_of(alloc, maps, &heading)?,
    })
}

/// The texts `HEADING=#:`, by which the columns of headings go along as comments. Error: an allocation failed.
pub fn keep_texts(alloc: Global, headings: &[&str]) -> Result<Vec<String>, AllocError>
    ensures { IfOk result (λ texts. map string_bytes texts.items ≡ map keep_text (given_texts headings.now)) }
{
    let mut texts = Vec::new(alloc);
    for heading in headings {
        texts.push(format!(in alloc; "{heading}=#:")?)?;
    }
    Ok(texts)
}

/// All texts HEADING=COLUMN: those of columns that are read, and those of headings that go along. Error: an allocation failed.
pub fn heading_texts<'a>(
    alloc: Global,
    texts: &[&'a str],
    further: &'a [String],
) -> Result<Vec<&'a str>, AllocError>
    ensures { IfOk result (λ all. given_texts all.items ≡ given_texts texts.now ++ map string_bytes further.now) }
{
    let mut all = texts.to_vec(alloc)?;
    for text in further {
        all.push(text.as_str())?;
    }
    Ok(all)
}
