//! The rows of a table. They say what it says if it has no fault.

ghost use Rattle.std.specs.Prelude.{◌≡◌, ◌≤◌, ◌^◌, All, map, length, codes, option_map, Some, IfOk};
ghost use Rattle.toml.specs.View.{view};
ghost use Rattle.a429_table.specs.Tree.{rows_at};
ghost use Rattle.a429_table.specs.Faults.{sdi_at};
ghost use Rattle.a429_table.specs.Names.{name_of};
ghost use Rattle.a429_table.specs.Repeats.{AreRowsOf, shortened};
ghost use Rattle.a429_table.specs.Stops.{table_of};
ghost use Rattle.a429_word.specs.Texts.{octal_number};
ghost use Rattle.a429_filter.specs.FilterTexts.{filter_of};
ghost use Rattle.a429_table.specs.Stated.{natural, filter_row, filters_of, receiver_row, source_row, rate_at, rate_of, group_row, hold_of, output_row, output_rows};

use crate::table_index::TableIndex;
use crate::tree::{get_integer, integer_at, rows_at, text_at, text_of};
use a429_equipment::{GroupRow, Name, OutputRow, ReceiverRow, SourceRow, TableVersion};
use a429_filter::{Filter, FilterSet};
use a429_word::{Label, Sdi};
use std::alloc::{AllocError, Global};
use toml::Value;

fn number(value: i64) -> u32
    ensures { result ≡ natural (2 ^ 32) value }
{
    if 0 <= value && value < 4294967296 {
        value as u32
    } else {
        0
    }
}

fn rate_at(table: &Value) -> u32
    ensures { result ≡ rate_at (view table.now) }
{
    number(integer_at(table, "rate"))
}

/// The bit rate of all groups, in bit/s, which the root has in version 1. `None` in version 2.
pub fn rate_of(version: TableVersion, root: &Value) -> Option<u32>
    ensures { result ≡ rate_of version (view root.now) }
{
    match version {
        TableVersion::One => Some(rate_at(root)),
        TableVersion::Two => None,
    }
}

/// The number of a source's SDI; none is any.
fn sdi_at(source: &Value) -> Option<i64>
    ensures { result ≡ sdi_at (view source.now) }
{
    match source.get("sdi") {
        Some(Value::Integer(number)) => Some(*number),
        _ => None,
    }
}

fn sdi_number(value: i64) -> Sdi
    ensures { result ≡ natural 4 value }
{
    if 0 <= value && value < 4 {
        Sdi::new(value as u8)
    } else {
        Sdi::new(0)
    }
}

/// The label of a text that states one; in a table without faults each label text does.
#[tactic(auto, unfolding(a429_word::specs::Texts::octal_number))]
fn label_of(text: &str) -> Label
    ensures { result ≡ octal_number text.now }
{
    Label::of_digits(text.as_bytes()).unwrap_or(Label::new(0))
}

/// The filter of a text that states one; in a table without faults each filter text does.
#[tactic(auto, unfolding(a429_filter::specs::FilterTexts::filter_of))]
fn filter_of(text: &str) -> Filter
    ensures { result ≡ filter_of text.now }
{
    match Filter::parse(text) {
        Ok(filter) => filter,
        Err(_) => Filter {
            label: Label::new(0),
            mask: 0,
        },
    }
}

fn filter_list(texts: &[Value]) -> FilterSet
    requires { length texts.now ≤ 32 }
    ensures { result ≡ Some (map filter_row (map view texts.now)) }
{
    let mut filters = FilterSet::none();
    for text in texts {
        // A set takes 32 filters, so none of these is refused.
        let _ = filters.add(filter_of(text_of(text)));
    }
    filters
}

fn filters_of(receiver: &Value) -> FilterSet
    requires { length (rows_at (codes "filters") (view receiver.now)) ≤ 32 }
    ensures { result ≡ filters_of (view receiver.now) }
{
    if receiver.get("filters").is_none() {
        return FilterSet::all();
    }
    filter_list(rows_at(receiver, "filters"))
}

#[tactic(auto, using(crate::proofs::ShortNames::short_is), unfolding(crate::specs::Stated::receiver_row))]
fn receiver_row(table: &Value) -> ReceiverRow
    requires filters { length (rows_at (codes "filters") (view table.now)) ≤ 32 }
    requires name { length (name_of (view table.now)) ≤ 16 }
    ensures { result ≡ receiver_row (view table.now) }
{
    ReceiverRow {
        name: Name::of(text_at(table, "name")),
        filters: filters_of(table),
    }
}

/// The row of each receiver of a table, in order: its name and its filters. Error: an allocation failed.
pub fn receiver_rows(alloc: Global, tables: &[Value]) -> Result<Vec<ReceiverRow>, AllocError>
    requires filters { All (λ d. length (rows_at (codes "filters") (view d)) ≤ 32) tables.now }
    requires names { All (λ d. length (name_of (view d)) ≤ 16) tables.now }
    ensures { IfOk result (λ v. v.items ≡ map receiver_row (map view tables.now)) }
{
    let mut rows = Vec::new(alloc);
    for table in tables {
        rows.push(receiver_row(table))?;
    }
    Ok(rows)
}

/// A source with this SDI. A name of more than 16 bytes, which is a fault, is left out.
#[tactic(auto, unfolding(crate::specs::Stated::source_row))]
fn source_row(index: &TableIndex<'_>, table: &Value, sdi: Option<Sdi>) -> SourceRow
    requires { sdi ≡ option_map (natural 4) (sdi_at (view table.now)) }
    ensures { result ≡ shortened (source_row (table_of index.now) (view table.now)) }
{
    SourceRow {
        name: Name::of(text_at(table, "name")),
        receiver: index.receiver(text_at(table, "receiver")).unwrap_or(0),
        label: label_of(text_at(table, "label")),
        sdi,
    }
}

fn source_rows(
    alloc: Global,
    index: &TableIndex<'_>,
    tables: &[Value],
) -> Result<Vec<SourceRow>, AllocError>
    ensures { IfOk result (λ v. v.items ≡ map shortened (map (source_row (table_of index.now)) (map view tables.now))) }
{
    let mut rows = Vec::new(alloc);
    for table in tables {
        let sdi = sdi_at(table).map(sdi_number);
        rows.push(source_row(index, table, sdi))?;
    }
    Ok(rows)
}

#[tactic(auto, using(crate::proofs::ShortNames::short_is), unfolding(crate::specs::Stated::group_row))]
fn group_row(rate: Option<u32>, table: &Value) -> GroupRow
    requires { length (name_of (view table.now)) ≤ 16 }
    ensures { result ≡ group_row rate (view table.now) }
{
    GroupRow {
        name: Name::of(text_at(table, "name")),
        rate: rate.unwrap_or(rate_at(table)),
    }
}

/// The groups: each has this bit rate, if there is one, and otherwise its own. Error: an allocation failed.
pub fn group_rows(
    alloc: Global,
    rate: Option<u32>,
    tables: &[Value],
) -> Result<Vec<GroupRow>, AllocError>
    requires { All (λ d. length (name_of (view d)) ≤ 16) tables.now }
    ensures { IfOk result (λ v. v.items ≡ map (group_row rate) (map view tables.now)) }
{
    let mut rows = Vec::new(alloc);
    for table in tables {
        rows.push(group_row(rate, table))?;
    }
    Ok(rows)
}

fn hold_of(version: TableVersion, output: &Value) -> Option<u32>
    ensures { result ≡ hold_of version (view output.now) }
{
    match version {
        TableVersion::One => None,
        TableVersion::Two => get_integer(output, "hold").map(number),
    }
}

#[tactic(auto, unfolding(crate::specs::Stated::output_row))]
fn output_row(index: &TableIndex<'_>, table: &Value) -> OutputRow
    ensures { result ≡ output_row (table_of index.now) (view table.now) }
{
    OutputRow {
        source: index.source(text_at(table, "source")).unwrap_or(0),
        min_us: number(integer_at(table, "min_us")),
        max_us: number(integer_at(table, "max_us")),
        hold: hold_of(index.version, table),
    }
}

fn output_rows(
    alloc: Global,
    index: &TableIndex<'_>,
    tables: &[Value],
) -> Result<Vec<OutputRow>, AllocError>
    ensures { IfOk result (λ v. v.items ≡ map (output_row (table_of index.now)) (map view tables.now)) }
{
    let mut rows = Vec::new(alloc);
    for table in tables {
        rows.push(output_row(index, table))?;
    }
    Ok(rows)
}

/// The outputs of each group.
fn group_outputs(
    alloc: Global,
    index: &TableIndex<'_>,
    groups: &[Value],
) -> Result<Vec<Vec<OutputRow>>, AllocError>
    ensures { IfOk result (λ v. map (λ w. w.items) v.items ≡ map (output_rows (table_of index.now)) (map view groups.now)) }
{
    let mut outputs = Vec::new(alloc);
    for group in groups {
        outputs.push(output_rows(alloc, index, rows_at(group, "output"))?)?;
    }
    Ok(outputs)
}

/// The rows of sources, and those of the outputs of each group.
#[derive(Drop)]
pub struct WordRows {
    pub sources: Vec<SourceRow>,
    pub outputs: Vec<Vec<OutputRow>>,
}

/// The rows of the sources and of the outputs of a table. In one with a fault, a value that is missing or wrong is 0, and
/// a name that is too long is empty. Error: an allocation failed.
#[tactic(auto, unfolding(crate::specs::Stated::stated))]
pub fn word_rows(alloc: Global, index: &TableIndex<'_>) -> Result<WordRows, AllocError>
    ensures { IfOk result (AreRowsOf (table_of index.now)) }
{
    let sources = source_rows(alloc, index, rows_at(index.root, "source"))?;
    let outputs = group_outputs(alloc, index, rows_at(index.root, "group"))?;
    Ok(WordRows { sources, outputs })
}
