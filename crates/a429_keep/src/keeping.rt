//! A plan whose outputs stay, as far as they can.
ghost use Rattle.std.specs.Prelude.{◌≡◌, ◌<◌, IfErr, IfOk, OnOk, length, map};
ghost use Rattle.std.specs.List.{AllByRecursion, list_all};
ghost use Rattle.a429_slots.specs.Tables.{groups_of, outputs_of};
ghost use Rattle.a429_keep.specs.Keeping.{ArePlaces, IsGroupKept};
ghost use Rattle.a429_keep.specs.KeptPlans.{IsKeepFault, IsKept, is_inside, kept_places};
ghost use Rattle.a429_keep.specs.Rows.{row_view};

use crate::fault::KeepFault;
use crate::places::{frame_period, places_of, stands_of};
use crate::placing::place_all;
use crate::reading::read_rows;
use crate::rows::Row;
use a429_equipment::{GroupRow, SourceRow};
use a429_slots::{GroupPlan, MoveFault, OUTPUTS, Proposal, SlotPlace};
use std::alloc::{AllocError, Global};

/// The places that the outputs of a group keep, by their numbers. Error: an allocation failed.
fn places_in(
    alloc: Global,
    rows: &[Row<'_>],
    group: &GroupRow,
    sources: &[SourceRow],
    table: &GroupPlan<OUTPUTS>,
) -> Result<Vec<SlotPlace>, AllocError>
    requires { AllByRecursion (λ o. o.source < length sources.now) (outputs_of table.now) }
    ensures { IfOk result (λ places. places.items ≡ kept_places sources.now (map row_view rows.now) group.now table.now) }
{
    let frame = frame_period(table);
    let mut stands = stands_of(alloc, rows, group, sources, table)?;
    place_all(table.buses(), frame, &mut stands);
    places_of(alloc, frame, table, &stands)
}

/// The places that the outputs of this group of a proposal keep. Error: an allocation failed.
fn kept_places(
    alloc: Global,
    proposal: &Proposal<OUTPUTS>,
    group: usize,
    rows: &[Row<'_>],
) -> Result<Vec<SlotPlace>, AllocError>
    requires { group < length (groups_of proposal.now.plan) }
    ensures { IfOk result (λ places. ArePlaces (map row_view rows.now) proposal.now group places.items) }
{
    let equipment = proposal.equipment();
    equipment.rows_are_sound();
    let row = &equipment.groups()[group];
    let table = proposal.plan().group(group);
    places_in(alloc, rows, row, equipment.sources(), table)
}

/// Whether a place is on one of these buses, at an offset below its period, which is at most a frame of these slots.
fn is_inside(buses: u32, slots: u32, place: &SlotPlace) -> bool
    ensures { result ≡ is_inside buses slots place.now }
{
    let period = place.period.slots();
    place.bus < buses && place.offset < period && period <= slots
}

/// Whether each place is so.
fn are_inside(buses: u32, slots: u32, places: &[SlotPlace]) -> bool
    ensures { result ≡ list_all (is_inside buses slots) places.now }
{
    places.iter().all(|place| is_inside(buses, slots, place))
}

/// Gives the outputs of a group the places that they keep, unless they cannot have them. Error: an allocation failed.
fn keep_group(
    alloc: Global,
    proposal: &mut Proposal<OUTPUTS>,
    group: usize,
    rows: &[Row<'_>],
) -> Result<(), AllocError>
    requires { group < length (groups_of proposal.old.plan) }
    ensures { OnOk result (IsGroupKept (map row_view rows.now) proposal.old proposal.new group) }
{
    let places = kept_places(alloc, proposal, group, rows)?;
    let table = proposal.plan().group(group);
    if !are_inside(table.buses(), table.frame(), &places) {
        return Ok(());
    }
    match proposal.place(alloc, group, &places) {
        Ok(()) => Ok(()),
        Err(MoveFault::Shared) => Ok(()),
        Err(MoveFault::NoMemory) => Err(AllocError),
    }
}

/// Gives the outputs of a proposal's plan the places of an earlier plan text (profile: plan text, in the version of the
/// equipment table). An output stays if it was listed with the same group, source and period, and its bus is still there.
/// The others are placed, those with the most cells first: each in the smallest free block that has room for it; if there
/// is none, in the block of its size from which the fewest outputs move. Errors: `Line`, the first line of the earlier text
/// that is refused; `NoMemory`, an allocation failed.
pub fn keep(
    alloc: Global,
    proposal: &mut Proposal<OUTPUTS>,
    earlier: &[u8],
) -> Result<(), KeepFault>
    ensures kept { OnOk result (IsKept earlier.now proposal.old proposal.new) }
    ensures fault { IfErr result (IsKeepFault proposal.old.station earlier.now) }
{
    let rows = read_rows(alloc, proposal.equipment(), earlier)?;
    for group in 0..proposal.plan().groups() {
        keep_group(alloc, proposal, group, &rows)?;
    }
    Ok(())
}
