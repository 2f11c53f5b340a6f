//! The command `replay`, and what other commands share that play a station: its names, its machine, and lines on their way
//! out.
//!
//! `replay` plays the events of a script on the station of a table, and puts a line for each. `Names` gives the names of
//! receivers, sources and groups by their numbers, and the numbers by the names. `open_machine` opens the machine of a
//! proposal at slot 0. `put_if_full` puts lines out when they have become many.
//!
//! ```text
//! match asked.verb {
//!     ..
//!     Verb::Replay => {
//!         let view = ReplayForm::of(asked);
//!         let table = TableNames::of(asked);
//!         replay(alloc, files, table, second, more, &view, warnings, out)
//!     }
//!     ..
//! }
//! ```
#![tactic(auto)]

mod answers;
mod further;
mod kept;
mod names;
mod opening;
mod pending;
mod playing;
mod reading;
pub mod replay;
mod script;
mod slots;
mod station;
pub mod views;

pub use answers::refusal_reason;
pub use names::Names;
pub use opening::open_machine;
pub use pending::put_if_full;
