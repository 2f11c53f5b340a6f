//! Rows whose texts of groups, sources and receivers become names.
ghost use Rattle.std.specs.Prelude.{◌≡◌, ◌++◌, [], IfOk, not, unwrap_or};
ghost use Rattle.std.specs.List.{count_by};
ghost use Rattle.std.specs.Str.{bytes_eq};
ghost use Rattle.a429_import.specs.ImportFields.{field_in, utf8_in};
ghost use Rattle.a429_import.specs.ImportTables.{name_in};
ghost use Rattle.a429_import.specs.ImportRows.{texts_view};
ghost use Rattle.a429_import.specs.IndexedRows.{IsIndexed};
ghost use Rattle.a429_import.specs.Renamed.{AreNames, all_renamed, base_of, chosen, end_of, is_alone, is_taken, long_name, name_for, names_in, names_of_row, plain_of, plains_of, text_of, texts_of};

use crate::fields::utf8_in;
use crate::firsts::Part;
use crate::indexed_rows::IndexedRows;
use crate::made_names::{in_room_or, label_end_len, numbered_name, plain_name, put_label_end};
use crate::rows::{ImportRow, RowFields, TextFields};
use std::alloc::{AllocError, Global};

/// How many texts of a column are kept apart: as many as a table has sources at most.
const MOST_TEXTS: usize = 256;

/// How many long names are tried. Fewer are taken.
const NUMBERS: u64 = 1000;

/// The text of a row's receiver, source or group; a source has its key.
pub fn name_in(part: Part, row: &ImportRow) -> &str
    ensures { result.now ≡ name_in part row.now }
{
    match part {
        Part::Receivers => row.texts.receiver.as_str(),
        Part::Sources => row.texts.source.as_str(),
        Part::Groups => row.texts.group.as_str(),
    }
}

/// The text of a row's receiver, source or group; that of a source is without the rest of its key.
pub fn text_of(part: Part, row: &ImportRow) -> &[u8]
    ensures { result.now ≡ text_of part row.now }
{
    let name = name_in(part, row).as_bytes();
    match part {
        Part::Sources => {
            let end = 1 + row.texts.receiver.as_str().len() + label_end_len(row.numbers.sdi);
            &name[..name.len().saturating_sub(end)]
        }
        Part::Receivers | Part::Groups => name,
    }
}

/// The name that the text would have alone.
#[tactic(auto, unfolding(crate::specs::Renamed::plain_of))]
fn plain_of(alloc: Global, part: Part, row: &ImportRow) -> Result<Vec<u8>, AllocError>
    ensures { IfOk result (λ name. name.items ≡ plain_of part row.now) }
{
    plain_name(alloc, text_of(part, row))
}

/// The beginning of the long name: for a source its receiver.
#[tactic(auto, unfolding(crate::specs::Renamed::base_of))]
fn base_of(alloc: Global, part: Part, row: &ImportRow) -> Result<Vec<u8>, AllocError>
    ensures { IfOk result (λ base. base.items ≡ base_of part row.now) }
{
    let receiver = row.texts.receiver.as_str().as_bytes();
    match part {
        Part::Receivers => in_room_or(alloc, "receiver", 16, receiver),
        Part::Sources => in_room_or(alloc, "r", 10, receiver),
        Part::Groups => in_room_or(alloc, "group", 16, row.texts.group.as_str().as_bytes()),
    }
}

/// The end of the long name: for a source its label and its SDI.
#[tactic(auto, unfolding(crate::specs::Renamed::end_of))]
fn end_of(alloc: Global, part: Part, row: &ImportRow) -> Result<Vec<u8>, AllocError>
    ensures { IfOk result (λ end. end.items ≡ end_of part row.now) }
{
    let mut end = Vec::new(alloc);
    match part {
        Part::Sources => put_label_end(&mut end, row.numbers.label, row.numbers.sdi)?,
        Part::Receivers | Part::Groups => {}
    }
    Ok(end)
}

/// How many of these names are this one.
fn times(names: &[Vec<u8>], name: &[u8]) -> usize
    ensures { result ≡ count_by (bytes_eq name.now) (texts_of names.now) }
{
    let mut count = 0;
    for other in names {
        count += usize::from(name == other.as_slice());
    }
    count
}

/// Whether a name is none of these, and none of others.
fn is_free(names: &[Vec<u8>], others: &[Vec<u8>], name: &[u8]) -> bool
    ensures { result ≡ not (is_taken (texts_of names.now ++ texts_of others.now) name.now) }
{
    !(0 < times(names, name) || 0 < times(others, name))
}

/// Whether one text alone has this plain name.
fn is_alone(plains: &[Vec<u8>], plain: &[u8]) -> bool
    ensures { result ≡ is_alone (texts_of plains.now) plain.now }
{
    !plain.is_empty() && !(1 < times(plains, plain))
}

/// The first long name that is none of these, and none of others.
#[tactic(auto, unfolding(crate::specs::Renamed::long_name))]
fn long_name(
    alloc: Global,
    names: &[Vec<u8>],
    others: &[Vec<u8>],
    base: &[u8],
    end: &[u8],
) -> Result<Vec<u8>, AllocError>
    ensures { IfOk result (λ name. name.items ≡ long_name (texts_of names.now ++ texts_of others.now) base.now end.now) }
{
    for number in 0..NUMBERS {
        let name = numbered_name(alloc, base, end, number)?;
        if is_free(names, others, &name) {
            return Ok(name);
        }
    }
    Ok(Vec::new(alloc))
}

/// The name of a row's receiver, source or group, after names that earlier ones have.
#[tactic(auto, unfolding(crate::specs::Renamed::chosen))]
fn chosen(
    alloc: Global,
    plains: &[Vec<u8>],
    earlier: &[Vec<u8>],
    part: Part,
    row: &ImportRow,
) -> Result<Vec<u8>, AllocError>
    ensures { IfOk result (λ name. name.items ≡ chosen (texts_of plains.now) (texts_of earlier.now) part row.now) }
{
    if plains.len() > MOST_TEXTS {
        return Vec::from_slice(alloc, name_in(part, row).as_bytes());
    }
    if text_of(part, row).is_empty() {
        return Ok(Vec::new(alloc));
    }
    let plain = plain_of(alloc, part, row)?;
    if is_alone(plains, &plain) {
        return Ok(plain);
    }
    let base = base_of(alloc, part, row)?;
    let end = end_of(alloc, part, row)?;
    long_name(alloc, plains, earlier, &base, &end)
}

/// The plain names of the receivers, the sources or the groups.
fn plains_of(alloc: Global, part: Part, known: &IndexedRows) -> Result<Vec<Vec<u8>>, AllocError>
    requires { IsIndexed known.now }
    ensures { IfOk result (λ plains. texts_of plains.items ≡ plains_of part known.now.rows.items) }
{
    let mut plains = Vec::new(alloc);
    for place in 0..known.count(part) {
        plains.push(plain_of(alloc, part, known.first_row(part, place))?)?;
    }
    Ok(plains)
}

/// The names of the receivers, the sources or the groups, in the order of their first rows.
#[tactic(auto, unfolding(crate::specs::Renamed::names_in))]
fn names_in(alloc: Global, part: Part, known: &IndexedRows) -> Result<Vec<Vec<u8>>, AllocError>
    requires { IsIndexed known.now }
    ensures { IfOk result (λ names. texts_of names.items ≡ names_in part known.now.rows.items) }
{
    let plains = plains_of(alloc, part, known)?;
    let mut names = Vec::new(alloc);
    for place in 0..known.count(part) {
        let name = chosen(alloc, &plains, &names, part, known.first_row(part, place))?;
        names.push(name)?;
    }
    Ok(names)
}

/// The names of all receivers, sources and groups, in the order of their first rows.
#[derive(Drop)]
pub struct AllNames {
    pub receivers: Vec<Vec<u8>>,
    pub sources: Vec<Vec<u8>>,
    pub groups: Vec<Vec<u8>>,
}

/// The names of all receivers, sources and groups of known rows. Error: an allocation failed.
pub fn all_names(alloc: Global, known: &IndexedRows) -> Result<AllNames, AllocError>
    requires { IsIndexed known.now }
    ensures { IfOk result (λ names. AreNames names known.now.rows.items) }
{
    let receivers = names_in(alloc, Part::Receivers, known)?;
    let sources = names_in(alloc, Part::Sources, known)?;
    Ok(AllNames {
        groups: names_in(alloc, Part::Groups, known)?,
        receivers,
        sources,
    })
}

fn name_at(names: &[Vec<u8>], place: usize) -> &str
    ensures { result.now ≡ unwrap_or (utf8_in (field_in place (texts_of names.now))) [] }
{
    match names.get(place) {
        Some(name) => utf8_in(name.as_slice()).unwrap_or(""),
        None => "",
    }
}

/// The name of a row's receiver, source or group, of those of the known rows.
fn name_for<'a>(part: Part, known: &IndexedRows, names: &'a [Vec<u8>], row: &ImportRow) -> &'a str
    requires known { IsIndexed known.now }
    requires names { texts_of names.now ≡ names_in part known.now.rows.items }
    ensures { result.now ≡ name_for part known.now.rows.items row.now }
{
    let place = known.named(part).find(name_in(part, row));
    name_at(names, place.unwrap_or(0))
}

/// The names of a row, and its filters.
fn names_of<'a>(known: &IndexedRows, names: &'a AllNames, row: &'a ImportRow) -> TextFields<'a>
    requires known { IsIndexed known.now }
    requires names { AreNames names.now known.now.rows.items }
    ensures { texts_view result ≡ names_of_row known.now.rows.items row.now }
{
    TextFields {
        group: name_for(Part::Groups, known, &names.groups, row),
        source: name_for(Part::Sources, known, &names.sources, row),
        receiver: name_for(Part::Receivers, known, &names.receivers, row),
        filters: row.texts.filters.as_str(),
    }
}

/// What known rows say with names. Error: an allocation failed.
pub fn all_renamed(
    alloc: Global,
    known: &IndexedRows,
    names: &AllNames,
) -> Result<IndexedRows, AllocError>
    requires known { IsIndexed known.now }
    requires names { AreNames names.now known.now.rows.items }
    ensures known { IfOk result IsIndexed }
    ensures rows { IfOk result (λ all. all.rows.items ≡ all_renamed known.now.rows.items) }
{
    let mut renamed = IndexedRows::new(alloc);
    for row in &known.rows {
        let fields = RowFields {
            texts: names_of(known, names, row),
            numbers: row.numbers,
        };
        renamed.push(alloc, &fields)?;
    }
    Ok(renamed)
}
