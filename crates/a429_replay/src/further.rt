//! Further tables, each read and planned when it is first published.
ghost use Rattle.std.specs.Prelude.{◌≡◌, ◌≢◌, ◌++◌, ◌∷◌, [], ℕ, List, true, IfOk, IfSome, IsNone, OnErr, OnOk};
ghost use Rattle.a429_equipment.specs.SameStation.{same_station};
ghost use Rattle.std.specs.List.{AllByRecursion};
ghost use Rattle.a429_console.specs.Files.{bytes_of};
ghost use Rattle.a429_console.specs.declared.refusals.CommandRefusal.TheVariants.{Memory};
ghost use Rattle.a429_console.specs.Tables.{IsProposedBy, IsProposing, IsTakenBy};
ghost use Rattle.a429_replay.specs.Playing.{PlaysTable};
ghost use Rattle.a429_replay.specs.Views.{told_refusal};

use crate::names::Names;
use crate::pending::Pending;
use crate::script::ScriptEvent;
use crate::views::View;
use a429_console::hints::warnings::{FurtherCause, Warning};
use a429_console::planning::propose;
use a429_console::refusals::evidence::TableEvidence;
use a429_console::refusals::{CommandRefusal, Refused};
use a429_core::StationState;
use a429_core::laws::calls_are_answered;
use a429_equipment::Equipment;
use a429_slots::laws::plans_are_unique;
use a429_slots::{OUTPUTS, Proposal};
use std::alloc::{AllocError, Global};
use std::marker::Model;

/// Reads a further table, and plans it.
fn propose_further(alloc: Global, bytes: &[u8]) -> Result<Proposal<OUTPUTS>, Refused>
    ensures { IsProposing bytes.now result }
{
    match propose(alloc, bytes) {
        Ok(proposal) => Ok(proposal),
        Err(refused) => Err(refused.of_further(bytes.len())),
    }
}

/// What was planned of a table before. If nothing was, the table is read and planned now.
fn planned_or_propose(
    alloc: Global,
    before: Option<Result<Proposal<OUTPUTS>, Refused>>,
    bytes: &[u8],
) -> Result<Proposal<OUTPUTS>, Refused>
    requires { IfSome before (IsProposing bytes.now) }
    ensures { IsProposing bytes.now result }
{
    match before {
        Some(planned) => planned,
        None => propose_further(alloc, bytes),
    }
}

/// What was read of a table that has no plan, for a hint.
fn evidence_of(planned: Result<Proposal<OUTPUTS>, Refused>) -> TableEvidence {
    match planned {
        Ok(_) => TableEvidence::nothing(),
        Err(refusal) => refusal.into_parts().1.into_table(),
    }
}

/// A table by its bytes. It is read and planned when it is first published, and what that gives is kept.
pub struct FurtherTable {
    bytes: Vec<u8>,
    planned: Option<Result<Proposal<OUTPUTS>, Refused>>,
}

// Written by hand, a drop is one call in the proofs of its owners.
impl Drop for FurtherTable {
    fn drop(self) {
        let Self {
            bytes: _,
            planned: _,
        } = self;
    }
}

impl Model for FurtherTable {
    ghost use Rattle.std.specs.Prelude.{ℕ, List, IfSome};
    ghost use Rattle.a429_console.specs.RefusalText.{refusal_line};
    ghost use Rattle.a429_console.specs.declared.refusals.CommandRefusal.TheVariants.{Memory};
    ghost use Rattle.a429_console.specs.Tables.{IsProposing};

    ghost Value = { List ℕ };

    ghost view = { λ t. t.bytes.items };

    ghost invariant = { λ t. IfSome t.planned (IsProposing t.bytes.items) };
}

impl FurtherTable {
    /// A table that was not yet published.
    pub fn of(bytes: Vec<u8>) -> FurtherTable
        ensures { result ≡ bytes.items }
    {
        FurtherTable {
            bytes,
            planned: None,
        }
    }

    /// Publishes it on a station, and appends what is printed of the answer, or of the refusal of the table or of its plan.
    /// Error: an allocation failed; then nothing is appended.
    pub fn publish(
        &mut self,
        alloc: Global,
        state: &mut StationState,
        view: View,
        names: &Names,
        lines: &mut Pending,
    ) -> Result<(), AllocError>
        ensures played { OnOk result (PlaysTable view names.now self.old
            state.old state.new lines.old.text.items lines.new.text.items) }
        ensures kept { OnErr result (lines.new.text.items ≡ lines.old.text.items) }
        ensures same { self.new ≡ self.old }
    {
        let planned = planned_or_propose(alloc, self.planned.take(), &self.bytes);
        let played = publish_or_refuse(state, view, names, &planned, lines);
        self.planned = Some(planned);
        played
    }

    /// Notes it by its number, from 1, for a hint, if it was published and a station does not take its plan.
    fn note_fault(
        self,
        alloc: Global,
        station: &Equipment,
        number: usize,
        warnings: &mut Vec<Warning>,
    )
        ensures { IsTakenBy station.now self → warnings.new.items ≡ warnings.old.items }
    {
        let FurtherTable { bytes: _, planned } = self;
        let Some(planned) = planned else {
            return;
        };
        if let Some(cause) = cause_at(alloc, station, &planned) {
            Warning::note_further(warnings, number, cause, evidence_of(planned));
        }
    }
}

/// Publishes the plan of a table that has one, and appends the line of the answer; otherwise the line of the refusal. If an
/// allocation fails, nothing is appended.
fn publish_or_refuse(
    state: &mut StationState,
    view: View,
    names: &Names,
    proposal: &Result<Proposal<OUTPUTS>, Refused>,
    lines: &mut Pending,
) -> Result<(), AllocError>
    ensures played { (table : List ℕ) → IsProposing table proposal.now → OnOk result (PlaysTable view names.now table
        state.old state.new lines.old.text.items lines.new.text.items) }
    ensures kept { OnErr result (lines.new.text.items ≡ lines.old.text.items) }
{
    match proposal {
        Ok(proposal) => publish_plan(state, view, names, proposal, lines),
        Err(refusal) => refuse_table(view, refusal, lines),
    }
}

/// Appends what is printed of the refusal of a table. If an allocation failed when the table was planned, or fails now, nothing is
/// appended.
fn refuse_table(view: View, refusal: &Refused, lines: &mut Pending) -> Result<(), AllocError>
    ensures other { OnOk result (refusal.now ≢ Memory) }
    ensures line { OnOk result (lines.new.text.items ≡ lines.old.text.items ++ told_refusal view refusal.now) }
    ensures kept { OnErr result (lines.new.text.items ≡ lines.old.text.items) }
{
    match refusal.refusal() {
        CommandRefusal::Memory => Err(AllocError),
        refusal => lines.push_refusal(view, refusal),
    }
}

/// Publishes the plan of a proposal, and appends the line of the answer. If an allocation fails, nothing is appended.
fn publish_plan(
    state: &mut StationState,
    view: View,
    names: &Names,
    proposal: &Proposal<OUTPUTS>,
    lines: &mut Pending,
) -> Result<(), AllocError>
    ensures played { (table : List ℕ) → IsProposedBy table proposal.now → OnOk result (PlaysTable view names.now table
        state.old state.new lines.old.text.items lines.new.text.items) }
    ensures kept { OnErr result (lines.new.text.items ≡ lines.old.text.items) }
{
    calls_are_answered();
    let answer = state.publish(proposal);
    lines.push_answer(view, names, ScriptEvent::Publish(1), answer)
}

/// Why a station does not take the plan of a table, for a hint. `None` if the station takes it, or if an allocation fails.
fn cause_at(
    alloc: Global,
    station: &Equipment,
    proposal: &Result<Proposal<OUTPUTS>, Refused>,
) -> Option<FurtherCause>
    ensures { (table : List ℕ) → IsProposing table proposal.now → IsTakenBy station.now table → IsNone result }
{
    plans_are_unique();
    match proposal {
        Err(refusal) => FurtherCause::of(refusal.refusal()),
        Ok(proposal) => cause_of_proposal(alloc, station, proposal),
    }
}

/// Why a station does not take a plan, for a hint.
fn cause_of_proposal(
    alloc: Global,
    station: &Equipment,
    proposal: &Proposal<OUTPUTS>,
) -> Option<FurtherCause>
    ensures { same_station station.now proposal.now.station ≡ true → IsNone result }
{
    let other = proposal.equipment();
    if station.same_station(other) {
        None
    } else {
        FurtherCause::of_stations(alloc, station, other)
    }
}

/// Further tables of a replay, of which none was published yet. Error: an allocation failed.
pub fn further_tables(alloc: Global, tables: Vec<Vec<u8>>) -> Result<Vec<FurtherTable>, AllocError>
    ensures { IfOk result (λ further. further.items ≡ bytes_of tables.items) }
{
    let mut further = Vec::new(alloc);
    for bytes in tables {
        further.push(FurtherTable::of(bytes))?;
    }
    Ok(further)
}

/// Notes the tables that were published and whose plans a station does not take, for a hint.
pub fn note_faults(
    alloc: Global,
    station: &Equipment,
    further: Vec<FurtherTable>,
    warnings: &mut Vec<Warning>,
)
    ensures { AllByRecursion (IsTakenBy station.now) further.items → warnings.new.items ≡ warnings.old.items }
{
    let mut number: usize = 0;
    for table in further {
        number = number.saturating_add(1);
        table.note_fault(alloc, station, number, warnings);
    }
}
