//! An equipment: the station that its table states, and the sources that words are for.
//!
//! `Equipment` is made by `read_equipment` of `a429_table`. `receivers`, `sources`, `groups` and `outputs` are its
//! rows, in table order, which number them from 0. `source_for` says for which source a word of a receiver is, or why
//! for none. `same_station` compares two equipments as a change of plan does. Most limits of tables and runs are
//! constants here; those of filters and of buses are in `a429_filter` and `a429_pack`.
//!
//! ```text
//! let equipment = read_equipment(rt.alloc(), &request.table)?;
//! let (receivers, groups) = (equipment.receivers().len(), equipment.groups().len());
//! ```
//!
//! `source_for` says for which source a word is that comes in at a receiver:
//!
//! ```text
//! match self.equipment.source_for(receiver, raw) {
//!     Err(refusal) => Answer::Refused(Refusal::from(refusal)),
//!     Ok((source, word)) => {
//!         if keep(&mut self.sources, self.limit, source, word) {
//!             Answer::Accepted { source }
//!         } else {
//!             Answer::Refused(Refusal::CountSpent)
//!         }
//!     }
//! }
//! ```
#![tactic(auto)]

mod arrivals;
mod copies;
mod equipment;
mod index;
pub mod laws;
mod limits;
mod loads;
mod names;
mod rows;
mod same;
mod version;

pub use arrivals::ArrivalRefusal;
pub use equipment::Equipment;
pub use limits::{
    COUNT_BITS, FRAMES, GROUPS, HOLD, LONGEST_INTERVAL, OUTPUTS, RECEIVERS, SOURCES, WORDS,
};
pub use loads::Load;
pub use names::Name;
pub use rows::{GroupRow, OutputRow, ReceiverRow, SourceRow, StationRows, receiver_name};
pub use same::{same_filters, same_number, same_sdi};
pub use version::TableVersion;
