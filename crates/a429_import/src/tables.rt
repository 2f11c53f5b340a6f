//! The equipment table that rows describe, as TOML.
ghost use Rattle.std.specs.Prelude.{◌≡◌, ◌==◌, IfOk, OnOk, [], ◌∷◌, codes, filter, if◌then◌else◌, map, string_bytes};
ghost use Rattle.toml.specs.Data.{string};
ghost use Rattle.toml.specs.View.{table_view, view};
ghost use Rattle.a429_word.specs.Texts.{octal};
ghost use Rattle.a429_import.specs.ImportBuilding.{Puts, PutsFilters, PutsHold};
ghost use Rattle.a429_import.specs.declared.rows.ImportRow.{ImportRow};
ghost use Rattle.a429_import.specs.KeptFields.{lines_kept};
ghost use Rattle.a429_import.specs.PrintedTables.{GainsDocument, IsWithTables, PutsEmpty, alone, head_members, part_key};
ghost use Rattle.a429_import.specs.ImportTables.{group_tree, is_stated, number, output_tree, part_tree, receiver_tree, rows_of_group, sdi_data, source_tree, words};
ghost use Rattle.a429_import.specs.IndexedRows.{IsIndexed};
ghost use Rattle.a429_import.specs.TableTexts.{AreSound, IsTableText, above_of, is_placed, piece_of, pieces, rows_before};

use crate::comments::{Comments, put_above, row_before};
use crate::firsts::Part;
use crate::indexed_rows::IndexedRows;
use crate::rows::ImportRow;
use std::alloc::{AllocError, Global};
use toml::{Table, Value};

/// Puts a value at a key that comes before those of the table. The key is copied.
fn put(alloc: Global, table: &mut Table, key: &str, value: Value) -> Result<(), AllocError>
    ensures { Puts result (table_view table.old) (table_view table.new) key.now (view value) }
{
    match table.insert(String::from_str(alloc, key)?, value) {
        Ok(_) => Ok(()),
        Err(_) => Err(AllocError),
    }
}

fn put_text(alloc: Global, table: &mut Table, key: &str, text: &str) -> Result<(), AllocError>
    ensures { Puts result (table_view table.old) (table_view table.new) key.now (string text.now) }
{
    let value = Value::string(alloc, text)?;
    put(alloc, table, key, value)
}

fn put_number(alloc: Global, table: &mut Table, key: &str, value: u32) -> Result<(), AllocError>
    ensures { Puts result (table_view table.old) (table_view table.new) key.now (number value) }
{
    put(alloc, table, key, Value::Integer(i64::from(value)))
}

/// The words of a text, which are separated by spaces.
#[tactic(auto, unfolding(crate::specs::ImportTables::words))]
fn words(alloc: Global, text: &str) -> Result<Vec<Value>, AllocError>
    ensures { IfOk result (λ values. map view values.items ≡ map (λ word. string word) (words text.now)) }
{
    let words: Vec<&str> = text
        .split(' ')
        .filter(|part| !part.is_empty())
        .collect(alloc)?;
    let mut values = Vec::new(alloc);
    for word in &words {
        values.push(Value::string(alloc, *word)?)?;
    }
    Ok(values)
}

/// Puts the filters of a receiver, if it has any.
fn put_filters(alloc: Global, table: &mut Table, text: &str) -> Result<(), AllocError>
    ensures { PutsFilters result (table_view table.old) (table_view table.new) (words text.now) }
{
    let words = words(alloc, text)?;
    if words.is_empty() {
        return Ok(());
    }
    put(alloc, table, "filters", Value::Array(words))
}

#[tactic(auto, unfolding(crate::specs::ImportTables::receiver_tree))]
fn receiver_table(alloc: Global, row: &ImportRow) -> Result<Value, AllocError>
    ensures { IfOk result (λ value. view value ≡ receiver_tree row.now) }
{
    let mut table = Table::new(alloc);
    put_text(alloc, &mut table, "name", row.texts.receiver.as_str())?;
    put_filters(alloc, &mut table, row.texts.filters.as_str())?;
    Ok(Value::Table(table))
}

/// Puts the SDI of a source, or `any`.
fn put_sdi(alloc: Global, table: &mut Table, row: &ImportRow) -> Result<(), AllocError>
    ensures { Puts result (table_view table.old) (table_view table.new) (codes "sdi") (sdi_data row.now.numbers.sdi) }
{
    match row.numbers.sdi {
        None => put_text(alloc, table, "sdi", "any"),
        Some(sdi) => put_number(alloc, table, "sdi", u32::from(sdi.value())),
    }
}

#[tactic(auto, unfolding(crate::specs::ImportTables::source_tree))]
fn source_table(alloc: Global, row: &ImportRow) -> Result<Value, AllocError>
    ensures { IfOk result (λ value. view value ≡ source_tree row.now) }
{
    let mut table = Table::new(alloc);
    put_sdi(alloc, &mut table, row)?;
    put_text(alloc, &mut table, "receiver", row.texts.receiver.as_str())?;
    put_text(alloc, &mut table, "name", row.texts.source.as_str())?;
    let label = row.numbers.label.to_string(alloc)?;
    put_text(alloc, &mut table, "label", label.as_str())?;
    Ok(Value::Table(table))
}

/// Puts the hold of an output, if it has one.
fn put_hold(alloc: Global, table: &mut Table, hold: Option<u32>) -> Result<(), AllocError>
    ensures { PutsHold result (table_view table.old) (table_view table.new) hold }
{
    match hold {
        None => Ok(()),
        Some(hold) => put_number(alloc, table, "hold", hold),
    }
}

#[tactic(auto, unfolding(crate::specs::ImportTables::output_tree))]
fn output_table(alloc: Global, row: &ImportRow) -> Result<Value, AllocError>
    ensures { IfOk result (λ value. view value ≡ output_tree row.now) }
{
    let mut table = Table::new(alloc);
    put_text(alloc, &mut table, "source", row.texts.source.as_str())?;
    put_number(alloc, &mut table, "min_us", row.numbers.min_us)?;
    put_number(alloc, &mut table, "max_us", row.numbers.max_us)?;
    put_hold(alloc, &mut table, row.numbers.hold)?;
    Ok(Value::Table(table))
}

/// The tables of the outputs of the group of a row. There are 8 groups and some 1,300 rows at most.
fn output_tables(
    alloc: Global,
    rows: &[ImportRow],
    group: &ImportRow,
) -> Result<Vec<Value>, AllocError>
    ensures { IfOk result (λ values. map view values.items ≡ map output_tree (rows_of_group rows.now group.now)) }
{
    let mut outputs = Vec::new(alloc);
    for row in rows {
        if group.texts.group.as_str() == row.texts.group.as_str() {
            outputs.push(output_table(alloc, row)?)?;
        }
    }
    Ok(outputs)
}

#[tactic(auto, unfolding(crate::specs::ImportTables::group_tree))]
fn group_table(alloc: Global, rows: &[ImportRow], row: &ImportRow) -> Result<Value, AllocError>
    ensures { IfOk result (λ value. view value ≡ group_tree rows.now row.now) }
{
    let outputs = output_tables(alloc, rows, row)?;
    let mut table = Table::new(alloc);
    put_number(alloc, &mut table, "rate", row.numbers.rate)?;
    put(alloc, &mut table, "output", Value::Array(outputs))?;
    put_text(alloc, &mut table, "name", row.texts.group.as_str())?;
    Ok(Value::Table(table))
}

/// The table of the receiver, the source or the group of a row.
fn part_table(
    alloc: Global,
    part: Part,
    rows: &[ImportRow],
    row: &ImportRow,
) -> Result<Value, AllocError>
    ensures { IfOk result (λ value. view value ≡ part_tree part rows.now row.now) }
{
    match part {
        Part::Receivers => receiver_table(alloc, row),
        Part::Sources => source_table(alloc, row),
        Part::Groups => group_table(alloc, rows, row),
    }
}

/// Whether a row states a receiver, a source or a group: it has no group if its name is empty.
fn is_stated(part: Part, row: &ImportRow) -> bool
    ensures { result ≡ is_stated part row.now }
{
    match part {
        Part::Receivers | Part::Sources => true,
        Part::Groups => !row.texts.group.as_str().is_empty(),
    }
}

/// The key of the receivers, the sources or the groups in a table.
fn key_of(part: Part) -> &'static str
    ensures { result.now ≡ part_key part }
{
    match part {
        Part::Receivers => "receiver",
        Part::Sources => "source",
        Part::Groups => "group",
    }
}

/// A document with one table at a key.
fn table_alone(alloc: Global, key: &str, value: Value) -> Result<Table, AllocError>
    ensures { IfOk result (λ table. table_view table ≡ alone key.now (view value)) }
{
    let mut tables = Vec::new(alloc);
    tables.push(value)?;
    let mut table = Table::new(alloc);
    put(alloc, &mut table, key, Value::Array(tables))?;
    Ok(table)
}

/// Writes a document at the end of a text.
fn put_document(alloc: Global, shown: &mut String, table: &Table) -> Result<(), AllocError>
    ensures { GainsDocument result (string_bytes shown.old) (string_bytes shown.new) (table_view table.now) }
{
    match toml::table_to_string(alloc, table) {
        Ok(text) => shown.push_str(text.as_str()),
        Err(_) => Err(AllocError),
    }
}

/// Writes the table of the receiver, the source or the group at a place, below its comments, if the row states one.
fn put_table(
    alloc: Global,
    shown: &mut String,
    comments: Comments<'_>,
    part: Part,
    rows: &[ImportRow],
    place: usize,
    row: &ImportRow,
) -> Result<(), AllocError>
    requires { AreSound comments }
    ensures { OnOk result (IsWithTables (string_bytes shown.old) (string_bytes shown.new) (part_key part)
        (map (piece_of (lines_kept comments.entry.kept.now) (rows_before comments.entry.made_of) part rows.now)
        (filter (is_placed part) ((place, row.now) ∷ [])))) }
{
    if !is_stated(part, row) {
        return Ok(());
    }
    let before = row_before(comments.made_of, part, place);
    let value = part_table(alloc, part, rows, row)?;
    let table = table_alone(alloc, key_of(part), value)?;
    put_above(alloc, shown, comments.kept, part, before, row)?;
    put_document(alloc, shown, &table)
}

/// Writes the tables of the receivers, the sources or the groups, in the order of their first rows, each below its comments.
fn put_tables(
    alloc: Global,
    shown: &mut String,
    comments: Comments<'_>,
    known: &IndexedRows,
    part: Part,
) -> Result<(), AllocError>
    requires known { IsIndexed known.now }
    requires comments { AreSound comments }
    ensures { OnOk result (IsWithTables (string_bytes shown.old) (string_bytes shown.new) (part_key part)
        (pieces (lines_kept comments.entry.kept.now) (rows_before comments.entry.made_of) part known.now.rows.items)) }
{
    for place in 0..known.count(part) {
        let row = known.first_row(part, place);
        put_table(alloc, shown, comments, part, &known.rows, place, row)?;
    }
    Ok(())
}

/// Puts an array without tables at a key that comes before those of the table, if it has none.
fn put_empty(alloc: Global, table: &mut Table, key: &str, count: usize) -> Result<(), AllocError>
    ensures { PutsEmpty result (table_view table.old) (table_view table.new) key.now count }
{
    if count == 0 {
        put(alloc, table, key, Value::Array(Vec::new(alloc)))
    } else {
        Ok(())
    }
}

/// The pairs above all tables: the arrays that have none, and the version.
fn head_table(alloc: Global, known: &IndexedRows) -> Result<Table, AllocError>
    requires { IsIndexed known.now }
    ensures { IfOk result (λ table. table_view table ≡ head_members known.now.rows.items) }
{
    let mut table = Table::new(alloc);
    put_number(alloc, &mut table, "version", 2)?;
    put_empty(alloc, &mut table, "source", known.count(Part::Sources))?;
    put_empty(alloc, &mut table, "receiver", known.count(Part::Receivers))?;
    put_empty(alloc, &mut table, "group", known.group_count())?;
    Ok(table)
}

/// The equipment table that known rows describe, as TOML of version 2, with comments. Error: an allocation failed.
pub fn table_text(
    alloc: Global,
    comments: Comments<'_>,
    known: &IndexedRows,
) -> Result<String, AllocError>
    requires known { IsIndexed known.now }
    requires comments { AreSound comments }
    ensures { IfOk result (λ text. IsTableText (lines_kept comments.entry.kept.now) (rows_before comments.entry.made_of)
        known.now.rows.items (string_bytes text)) }
{
    let head = head_table(alloc, known)?;
    let mut shown = String::new(alloc);
    put_document(alloc, &mut shown, &head)?;
    put_tables(alloc, &mut shown, comments, known, Part::Groups)?;
    put_tables(alloc, &mut shown, comments, known, Part::Receivers)?;
    put_tables(alloc, &mut shown, comments, known, Part::Sources)?;
    Ok(shown)
}
