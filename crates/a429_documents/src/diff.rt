//! What changes between two proposals.
ghost use Rattle.std.specs.Prelude.{◌≡◌, ◌==◌, ◌++◌, IfOk, OnOk, length, map, string_bytes};
ghost use Rattle.a429_documents.specs.Diff.{diff_columns, diff_rows, equipment_rows, plan_rows, table_change, table_rows, with_rates};

pub(crate) mod names;
mod outputs;
mod rows;
mod sides;
mod stations;
mod texts;

use crate::diff::outputs::{add_groups, add_moved};
use crate::diff::rows::{Subject, add_change};
use crate::diff::stations::{add_lists, add_station};
use crate::diff::texts::{put_number_change, wide};
use a429_equipment::Equipment;
use a429_slots::{OUTPUTS, Proposal};
use a429_text::{Rows, Sheet};
use std::alloc::{AllocError, Global};

/// The names of the columns.
const COLUMNS: &[&str] = &[
    "kind",
    "group",
    "name",
    "change",
    "gap_slots",
    "gap_us",
    "over_max",
];

/// Whether a table has no groups.
fn is_bare(equipment: &Equipment) -> bool
    ensures { result ≡ (length equipment.now.groups == 0) }
{
    equipment.groups().is_empty()
}

/// Writes the bit rates of two tables without groups, if they differ.
fn put_rates(text: &mut String, a: &Equipment, b: &Equipment) -> Result<(), AllocError>
    ensures { OnOk result (string_bytes text.new ≡ with_rates a.now b.now (string_bytes text.old)) }
{
    if is_bare(a) && is_bare(b) {
        return put_number_change(text, "rate", wide(a.rate()), wide(b.rate()));
    }
    Ok(())
}

/// What changes of the tables as a whole: the version, and the bit rate of tables without groups.
fn table_change(alloc: Global, a: &Equipment, b: &Equipment) -> Result<String, AllocError>
    ensures { IfOk result (λ text. string_bytes text ≡ table_change a.now b.now) }
{
    let (first, second) = (u64::from(a.version()), u64::from(b.version()));
    let mut text = String::new(alloc);
    put_number_change(&mut text, "version", Some(first), Some(second))?;
    put_rates(&mut text, a, b)?;
    Ok(text)
}

/// Adds what changes of the tables as a whole.
fn add_table(alloc: Global, rows: &mut Rows, a: &Equipment, b: &Equipment) -> Result<(), AllocError>
    ensures { OnOk result (rows.new ≡ rows.old ++ table_rows a.now b.now) }
{
    let change = table_change(alloc, a, b)?;
    add_change(rows, &Subject::of_kind("table"), &change);
    Ok(())
}

/// Adds a row for each thing that differs between two tables, except for groups that both have, and outputs.
fn add_equipments(
    alloc: Global,
    rows: &mut Rows,
    a: &Equipment,
    b: &Equipment,
) -> Result<(), AllocError>
    ensures { OnOk result (rows.new ≡ rows.old ++ equipment_rows a.now b.now) }
{
    add_table(alloc, rows, a, b)?;
    add_station(rows, a, b);
    add_lists(alloc, rows, a, b)
}

/// Adds a row for each thing that differs between the groups that both proposals have.
fn add_plans(
    alloc: Global,
    rows: &mut Rows,
    a: &Proposal<OUTPUTS>,
    b: &Proposal<OUTPUTS>,
    all: bool,
) -> Result<(), AllocError>
    ensures { OnOk result (rows.new ≡ rows.old ++ plan_rows a.now b.now all) }
{
    let has_gap = a.equipment().same_station(b.equipment());
    add_groups(alloc, rows, all, has_gap, a, b)?;
    if !all {
        add_moved(alloc, rows, a, b)?;
    }
    Ok(())
}

/// What changes from one proposal to another (profile: diff rows): a row for each thing that differs, with all that changes
/// of it. The rows are those of the tables, of the station, of receivers, sources and groups, and of each group that both
/// have: as a whole, and of its outputs. If `all` is set, an output that only changes its offset has a row too. Otherwise a
/// last row has the number of these outputs, unless it is 0. If nothing changes, there is no row. Error: an allocation
/// failed.
pub fn diff_sheet(
    alloc: Global,
    first: &Proposal<OUTPUTS>,
    second: &Proposal<OUTPUTS>,
    all: bool,
) -> Result<Sheet, AllocError>
    ensures columns { IfOk result (λ sheet. map (λ name. name.now) sheet.columns.now ≡ diff_columns) }
    ensures rows { IfOk result (λ sheet. sheet.rows ≡ diff_rows first.now second.now all) }
{
    let mut rows = Rows::new(alloc);
    add_equipments(alloc, &mut rows, first.equipment(), second.equipment())?;
    add_plans(alloc, &mut rows, first, second, all)?;
    Ok(Sheet {
        columns: COLUMNS,
        rows,
    })
}
