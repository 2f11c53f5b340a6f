//! The equipment that a table states, read.
ghost use Rattle.std.specs.Prelude.{◌≡◌, IfOk, None};
ghost use Rattle.toml.specs.View.{view};
ghost use Rattle.a429_equipment.specs.TableRecord.{record_of};
ghost use Rattle.std.specs.List.{flat_map};
ghost use Rattle.a429_table.specs.Early.{early_kinds};
ghost use Rattle.a429_table.specs.Faults.{faults, faults_of, first};
ghost use Rattle.a429_table.specs.Reading.{GivesUnlessMemory, IsJudged, reading};
ghost use Rattle.a429_table.specs.Repeats.{AreRowsOf};
ghost use Rattle.a429_table.specs.Stated.{stated};
ghost use Rattle.a429_table.specs.Stops.{table_of};

use crate::build::{WordRows, group_rows, rate_of, receiver_rows, word_rows};
use crate::document::{RefusedTable, document};
use crate::early::early_fault;
use crate::fault::TableFault;
use crate::search::fault_of;
use crate::table_index::TableIndex;
use crate::tree::rows_at;
use crate::version::version_of;
use a429_equipment::{Equipment, StationRows};
use std::alloc::{AllocError, Global};
use toml::Value;

/// Reads an equipment table, as TOML (profile: equipment table, versions 1 and 2). Error: the first fault by kind, and of its
/// kind the first in walk order: root, receivers, sources, then each group followed by its outputs. Or `NoMemory`: memory ran
/// out, which is answered only for bytes that are UTF-8; for other bytes the fault is `NotToml`.
pub fn read_equipment(alloc: Global, bytes: &[u8]) -> Result<Equipment, TableFault>
    ensures { GivesUnlessMemory (λ e. e) bytes.now result (reading bytes.now) }
{
    let mut unused = None;
    read_or_keep(alloc, bytes, &mut unused)
}

/// Reads an equipment table. If the table is refused, `kept` gets what it was read as, for a hint to a person. Error: that of
/// `read_equipment`.
#[tactic(auto, using(crate::proofs::Documents::judged_gives))]
pub fn read_or_keep(
    alloc: Global,
    bytes: &[u8],
    kept: &mut Option<RefusedTable>,
) -> Result<Equipment, TableFault>
    ensures { GivesUnlessMemory (λ e. e) bytes.now result (reading bytes.now) }
{
    let root = document(alloc, bytes, kept)?;
    let answer = equipment_of_root(alloc, &root);
    if answer.is_err() {
        *kept = Some(RefusedTable::Tree(root));
    }
    answer
}

/// The equipment of a root table, or its first fault.
fn equipment_of_root(alloc: Global, root: &Value) -> Result<Equipment, TableFault>
    ensures { IsJudged (view root.now) result }
{
    if let Some((kind, place)) = early_fault(version_of(root), root) {
        return Err(TableFault::At(kind, place));
    }
    let index = TableIndex::of(alloc, root)?;
    equipment_of_index(alloc, &index)
}

/// The equipment of a table in which no row shows a fault by itself, or its first fault.
fn equipment_of_index(alloc: Global, index: &TableIndex<'_>) -> Result<Equipment, TableFault>
    requires { first (flat_map (faults_of (table_of index.now)) early_kinds) ≡ None }
    ensures { IsJudged (table_of index.now) result }
{
    let words = word_rows(alloc, index)?;
    equipment_with(alloc, index, words)
}

/// The equipment of such a table with these rows of its sources and outputs, or its first fault.
fn equipment_with(
    alloc: Global,
    index: &TableIndex<'_>,
    words: WordRows,
) -> Result<Equipment, TableFault>
    requires rows { AreRowsOf (table_of index.now) words }
    requires none_early { first (flat_map (faults_of (table_of index.now)) early_kinds) ≡ None }
    ensures { IsJudged (table_of index.now) result }
{
    if let Some((kind, place)) = fault_of(alloc, index, &words)? {
        return Err(TableFault::At(kind, place));
    }
    Ok(build_equipment(alloc, index, words)?)
}

/// The equipment of a table without faults.
fn build_equipment(
    alloc: Global,
    index: &TableIndex<'_>,
    words: WordRows,
) -> Result<Equipment, AllocError>
    requires faultless { first (faults (table_of index.now)) ≡ None }
    requires words { AreRowsOf (table_of index.now) words }
    ensures { IfOk result (λ e. e ≡ stated (table_of index.now)) }
{
    let rows = build_rows(alloc, index, words)?;
    Equipment::of_rows(alloc, rows)
}

/// The rows of a table without faults.
#[tactic(auto, using(crate::proofs::ShortNames::stated_sources), unfolding(crate::specs::Stated::stated))]
fn build_rows(
    alloc: Global,
    index: &TableIndex<'_>,
    words: WordRows,
) -> Result<StationRows, AllocError>
    requires faultless { first (faults (table_of index.now)) ≡ None }
    requires words { AreRowsOf (table_of index.now) words }
    ensures { IfOk result (λ rows. record_of rows ≡ stated (table_of index.now)) }
{
    let root = index.root;
    let rate = rate_of(index.version, root);
    let receivers = receiver_rows(alloc, rows_at(root, "receiver"))?;
    let groups = group_rows(alloc, rate, rows_at(root, "group"))?;
    Ok(StationRows {
        version: index.version,
        rate,
        receivers,
        sources: words.sources,
        groups,
        outputs: words.outputs,
    })
}
