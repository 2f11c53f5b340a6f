//! Plans that stay: the plan of a table whose outputs keep the places of an earlier plan text, as far as they can (profile:
//! docs/RULES.md, Plans that stay).
//!
//! `keep` makes such a plan of a proposal, on the same buses. `follow` makes the plan of a text that the check accepts.
//! `read_rows` gives the outputs that a plan text lists, and `changes_between` says what changes from one text to another: how
//! many outputs stay, are new or gone, and which move.
//!
//! Errors: a line of the earlier text is refused, or an allocation failed. `KeepFault` has the line and the reason.
//!
//! ```text
//! match keep(alloc, &mut proposal, earlier) {
//!     Ok(()) => told_kept(alloc, &proposal, earlier, form, warnings),
//!     ..
//! }
//! ```
#![tactic(auto)]

mod blocks;
mod changes;
mod fault;
mod following;
mod keeping;
pub mod laws;
mod places;
mod placing;
mod reading;
mod rows;
mod spots;
mod stated;

pub use changes::{Changes, Move, changes_between};
pub use fault::{KeepFault, KeepReason};
pub use following::{FollowFault, follow};
pub use keeping::keep;
pub use reading::read_rows;
pub use rows::Row;
