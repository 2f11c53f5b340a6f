//! Slot tables: which output is in which cell, and the plans of a station (profile: layout).
//!
//! `plan` makes the plan of an equipment: a `GroupPlan` for each group, on the fewest buses. A `Proposal` is an
//! equipment with its own plan. `GroupPlan::at` says which output is in a cell, `place` which cells an output has.
//! `CachedSender` and `GroupSends` go through the cells of frames, for the machine and for transmitters. `gap` is the number
//! of slots between two cells of an output at a change of plan.
//!
//! ```text
//! let made: Plan<OUTPUTS> = plan(alloc, &equipment).expect(rt, "a plan");
//! ..
//! *made.group(0)
//! ..
//! let place = group.place(output);
//! let slots = place.period.slots();
//! (group.source(output), place.bus, place.offset, slots)
//! ..
//! let output = group.at(bus, slot)?;
//! Some(output.number())
//! ..
//! Some(gap(before, second, after, second))
//! ```
#![tactic(auto)]

mod answers;
mod changes;
mod group_plan;
mod group_sends;
pub mod laws;
mod layout;
mod limits;
mod moves;
mod open_fault;
mod outputs;
mod planner;
mod plans;
mod proposals;
mod senders;
mod sends;
mod times;

pub use a429_equipment::{GROUPS, OUTPUTS};
pub use a429_pack::BUSES;
pub use answers::{Answer, Refusal};
pub use changes::gap;
pub use group_plan::{GroupPlan, SendLimits, SlotPlace};
pub use group_sends::GroupSends;
pub use moves::MoveFault;
pub use open_fault::OpenFault;
pub use outputs::OutputId;
pub use planner::{PlanFault, demands_of, plan};
pub use plans::Plan;
pub use proposals::{NoProposal, Proposal};
pub use senders::Due;
pub use senders::cached::CachedSender;
pub use sends::LastSend;
pub use times::{latency_us, slots_us};
