//! Likely mistakes in a table: what is never received, never sent or cannot be planned.
ghost use Rattle.std.specs.Prelude.{◌≡◌, ◌++◌, IfOk, map};
ghost use Rattle.std.specs.List.{flat_map};
ghost use Rattle.a429_documents.specs.Lint.{AreAsked, AreFindings, finding_rows, lint_columns};

mod demands;
mod groups;
mod millis;
mod receivers;
mod sources;

use crate::lint::demands::demands_of_groups;
use crate::lint::groups::add_groups;
pub use crate::lint::millis::is_millis_group;
use crate::lint::receivers::add_receivers;
use crate::lint::sources::add_sources;
use a429_equipment::Equipment;
use a429_pack::Demand;
use a429_text::{Rows, Sheet};
use std::alloc::{AllocError, Global};

/// A finding of a group.
#[derive(Clone, Copy)]
pub enum GroupFinding {
    /// An output has no grid period.
    Unfit,
    /// The outputs need more than 16 buses.
    TooManyBuses,
    /// Two outputs have one label, and only one of them has SDI any.
    Alike,
    /// No cell of a frame is empty.
    Full,
    /// The grid period of an output is shorter than two thirds of its maximum interval.
    Coarse,
    /// More than 80 per cent of a bus is filled.
    Crowded,
    /// The intervals may be milliseconds.
    Millis,
}

/// A finding of a source.
#[derive(Clone, Copy)]
pub enum SourceFinding {
    /// No filter of its receiver passes its label.
    Unheard,
    /// No group sends it.
    Unsent,
}

/// A finding of a receiver.
#[derive(Clone, Copy)]
pub enum ReceiverFinding {
    /// It has no source.
    Idle,
    /// A filter passes no label of its sources.
    Blind,
    /// A later receiver has the same filters.
    SameFilters,
}

/// A kind of finding.
#[derive(Clone, Copy)]
pub enum Finding {
    OfGroup(GroupFinding),
    OfSource(SourceFinding),
    OfReceiver(ReceiverFinding),
}

/// The kinds, in the order of the rows.
const FINDINGS: [Finding; 12] = [
    Finding::OfGroup(GroupFinding::Unfit),
    Finding::OfGroup(GroupFinding::TooManyBuses),
    Finding::OfSource(SourceFinding::Unheard),
    Finding::OfSource(SourceFinding::Unsent),
    Finding::OfReceiver(ReceiverFinding::Idle),
    Finding::OfReceiver(ReceiverFinding::Blind),
    Finding::OfGroup(GroupFinding::Alike),
    Finding::OfGroup(GroupFinding::Full),
    Finding::OfGroup(GroupFinding::Coarse),
    Finding::OfReceiver(ReceiverFinding::SameFilters),
    Finding::OfGroup(GroupFinding::Crowded),
    Finding::OfGroup(GroupFinding::Millis),
];

/// The names of the columns.
const COLUMNS: &[&str] = &[
    "finding", "group", "receiver", "source", "other", "number", "percent",
];

/// Adds the findings of one kind, in table order.
fn add_finding(found: &mut Rows, equipment: &Equipment, asked: &[Vec<Demand>], finding: Finding)
    requires asked { AreAsked equipment.now (map (λ v. v.items) asked.now) }
    ensures { found.new ≡ found.old ++ finding_rows equipment.now (map (λ v. v.items) asked.now) finding }
{
    match finding {
        Finding::OfGroup(kind) => add_groups(found, equipment, asked, kind),
        Finding::OfSource(kind) => add_sources(found, equipment, kind),
        Finding::OfReceiver(kind) => add_receivers(found, equipment, kind),
    }
}

/// Adds the findings of these kinds, one after the other.
fn add_findings(found: &mut Rows, equipment: &Equipment, asked: &[Vec<Demand>], kinds: &[Finding])
    requires asked { AreAsked equipment.now (map (λ v. v.items) asked.now) }
    ensures { found.new ≡ found.old ++ flat_map (finding_rows equipment.now (map (λ v. v.items) asked.now)) kinds.now }
{
    for number in 0..kinds.len() {
        add_finding(found, equipment, asked, kinds[number]);
    }
}

/// The findings of an equipment (profile: lint), one row each. First come the outputs without a grid period and the
/// groups that need more than 16 buses. Then come the sources that no filter passes, the sources that no group sends, the
/// receivers without a source, and the filters that pass no source. Then come the outputs that a display cannot
/// distinguish, and the groups without an empty cell. Then come what costs load: periods far below their maximum interval,
/// receivers with the same filters, and buses that are filled to more than 80 per cent. Last come the groups whose
/// intervals may be milliseconds. If nothing is found, there is no row. Error: an allocation failed.
pub fn lint_sheet(alloc: Global, equipment: &Equipment) -> Result<Sheet, AllocError>
    ensures columns { IfOk result (λ sheet. map (λ name. name.now) sheet.columns.now ≡ lint_columns) }
    ensures rows { IfOk result (λ sheet. AreFindings equipment.now sheet.rows) }
{
    let asked = demands_of_groups(alloc, equipment)?;
    let mut found = Rows::new(alloc);
    add_findings(&mut found, equipment, &asked, &FINDINGS);
    Ok(Sheet {
        columns: COLUMNS,
        rows: found,
    })
}
