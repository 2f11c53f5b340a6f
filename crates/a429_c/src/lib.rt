//! The machine for programs in C: a station in memory of its own, and a call for each thing that it does. The header
//! `c/a429.h` says what a caller owes.
//!
//! Each call answers a status: 0 for success, otherwise the reason of its refusal as a number. A refused call changes
//! only the text of the last refusal. A call on a closed station is refused for that first, even if something else is
//! wrong too.
#![tactic(auto)]

mod answers;
mod events;
mod handle;
pub mod laws;
mod machine;
mod naming;
mod pointers;
mod refusal_text;
mod slot_tables;
mod station;
mod statuses;
mod tables;
mod words;

pub use answers::{CellAnswer, PlaceAnswer};
pub use handle::Handle;
pub use refusal_text::RefusalText;
pub use station::StationHandle;
pub use words::WordFields;
