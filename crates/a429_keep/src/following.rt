//! A plan that a text states.
ghost use Rattle.std.specs.Prelude.{◌≡◌, ◌<◌, IfErr, IfOk, OnOk, length};
ghost use Rattle.a429_cert.specs.Lines.{lines_of, lines_of_groups};
ghost use Rattle.a429_slots.specs.Tables.{groups_of};
ghost use Rattle.a429_keep.specs.Followed.{IsFollowFault, IsFollowed};
ghost use Rattle.a429_keep.specs.Following.{AreGroupPlaces, AreTablesByLines, IsGroupFollowed, StateGroups, StatesGroup, rest_lines};

use crate::stated::stated_places;
use a429_cert::{Lines, No, NoVerdict, Verdict, judge};
use a429_pack::laws::fewest_by_demand;
use a429_slots::laws::planned_tables_are_spaced;
use a429_slots::{MoveFault, OUTPUTS, Proposal, SlotPlace};
use std::alloc::{AllocError, Global};

/// Why a text gives a table no plan.
#[derive(Clone, Copy)]
pub enum FollowFault {
    /// The check refuses this line of the text, for this reason.
    No(No),
    /// An allocation failed.
    NoMemory,
}

/// The places that the lines of a group state, by the numbers of its outputs. Error: an allocation failed.
fn group_places(
    alloc: Global,
    proposal: &Proposal<OUTPUTS>,
    group: usize,
    lines: &mut Lines<'_>,
) -> Result<Vec<SlotPlace>, AllocError>
    requires group { group < length (groups_of proposal.now.plan) }
    requires states { StatesGroup proposal.now.station group (rest_lines lines.old) }
    ensures { IfOk result (λ places. AreGroupPlaces proposal.now group (rest_lines lines.old) (rest_lines lines.new) places.items) }
{
    fewest_by_demand();
    planned_tables_are_spaced();
    let equipment = proposal.equipment();
    equipment.rows_are_sound();
    let table = proposal.plan().group(group);
    let rows = equipment.outputs(group);
    lines.next_line();
    let places = stated_places(
        alloc,
        equipment.version(),
        equipment.sources(),
        rows,
        table,
        lines,
    )?;
    lines.next_line();
    Ok(places)
}

/// Gives the outputs of a group the places that its lines state. Error: an allocation failed.
fn follow_group(
    alloc: Global,
    proposal: &mut Proposal<OUTPUTS>,
    group: usize,
    lines: &mut Lines<'_>,
) -> Result<(), AllocError>
    requires group { group < length (groups_of proposal.old.plan) }
    requires states { StatesGroup proposal.old.station group (rest_lines lines.old) }
    ensures { OnOk result (IsGroupFollowed proposal.old proposal.new group (rest_lines lines.old) (rest_lines lines.new)) }
{
    let places = group_places(alloc, proposal, group, lines)?;
    match proposal.place(alloc, group, &places) {
        Ok(()) => Ok(()),
        Err(MoveFault::Shared) => unreachable!(),
        Err(MoveFault::NoMemory) => Err(AllocError),
    }
}

/// Gives the outputs of each group the places that these lines state. Error: an allocation failed.
fn follow_groups(
    alloc: Global,
    proposal: &mut Proposal<OUTPUTS>,
    mut lines: Lines<'_>,
) -> Result<(), AllocError>
    requires { StateGroups proposal.old.station (rest_lines lines) }
    ensures station { OnOk result (proposal.new.station ≡ proposal.old.station) }
    ensures tables { OnOk result (AreTablesByLines proposal.old.station (groups_of proposal.new.plan) (rest_lines lines.entry)) }
{
    proposal.equipment().rows_are_sound();
    for group in 0..proposal.plan().groups() {
        follow_group(alloc, proposal, group, &mut lines)?;
    }
    Ok(())
}

/// The lines of a plan text from the first group on, by the bit rate that all groups of the table have, if there is one.
fn group_lines(rate: Option<u32>, text: &[u8]) -> Lines<'_>
    ensures { rest_lines result ≡ lines_of_groups rate (lines_of text.now) }
{
    let mut lines = Lines::of(text);
    lines.next_line();
    match rate {
        Some(_) => {
            lines.next_line();
            lines
        }
        None => lines,
    }
}

/// Gives the outputs of a proposal's plan the places that a plan text states, if the check accepts the text (profile: plan
/// text, in the version of the equipment table). Errors: `No`, the check refuses the text; `NoMemory`, an allocation failed.
pub fn follow(
    alloc: Global,
    proposal: &mut Proposal<OUTPUTS>,
    text: &[u8],
) -> Result<(), FollowFault>
    ensures followed { OnOk result (IsFollowed text.now proposal.old proposal.new) }
    ensures fault { IfErr result (IsFollowFault proposal.old.station text.now) }
{
    let equipment = proposal.equipment();
    let rate = equipment.rate();
    match judge(alloc, equipment, text) {
        Ok(Verdict::Fewest) => match follow_groups(alloc, proposal, group_lines(rate, text)) {
            Ok(()) => Ok(()),
            Err(AllocError) => Err(FollowFault::NoMemory),
        },
        Ok(Verdict::No(no)) => Err(FollowFault::No(no)),
        Err(NoVerdict::NoMemory) => Err(FollowFault::NoMemory),
        Err(NoVerdict::Unfit { .. }) => unreachable!(),
    }
}
