//! Calls without threads: a word in a slot, a plan, the machine.
ghost use Rattle.std.specs.Prelude.{◌≡◌, [], IfOk, IfSome, map};
ghost use Rattle.a429_core.specs.Happened.{event_of};
ghost use Rattle.a429_slots.specs.Answers.{answers};
ghost use Rattle.a429_slots.specs.Planned.{IsPlanOf};
ghost use Rattle.a429_uses.specs.Calls.{IsSlotOf, opening};

use a429_core::{Answer, Event, OpenFault, StationState};
use a429_line::{SLOT, Symbol, write_slot};
use a429_slots::{OUTPUTS, Proposal};
use a429_table::read_equipment;
use a429_word::{DataRange, Label, Sdi, Ssm, Word};
use std::alloc::Global;

/// The symbols of a slot with a word of this label and this data. Error: the data has more than 19 bits. It allocates
/// no memory.
pub fn slot_of(label: Label, value: u32) -> Result<[Symbol; SLOT], DataRange>
    ensures { IfOk result (IsSlotOf label value) }
{
    let word = Word::build(label, Sdi::new(0), value, Ssm::new(3))?;
    Ok(write_slot(Some(word)))
}

/// The equipment that a table states, with its plan. `None` if the table has a fault or no plan, or an allocation
/// failed.
pub fn plan_table(alloc: Global, table: &[u8]) -> Option<Proposal<OUTPUTS>>
    ensures { IfSome result (λ p. IsPlanOf p.station p.plan) }
{
    let equipment = read_equipment(alloc, table).ok()?;
    equipment.rows_are_sound();
    Proposal::of(alloc, equipment).ok()
}

/// What a station answers to these events, one after another, from slot 0 on. Errors: the slots of its first frames
/// cannot be counted, or an allocation fails.
pub fn simulate(
    alloc: Global,
    proposal: Proposal<OUTPUTS>,
    events: Vec<Event>,
) -> Result<Vec<Answer>, OpenFault>
    ensures { IfOk result (λ all. all.items ≡ answers 41 (opening proposal) [] (map event_of events.items)) }
{
    let mut state = StationState::open(alloc, proposal, 0)?;
    Ok(state.run(alloc, events)?)
}
