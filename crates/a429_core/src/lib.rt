//! The machine: the answer to each event of a station.
//!
//! `State::open` begins a station by a proposal, at a slot. `step` takes one event: a word arrives, a cell or a frame
//! is due, a plan is published. `run` takes a list of them. `step` allocates no memory. The machine has neither threads
//! nor a clock: the caller says what happens when. `laws` has what is proved of whole histories, such as bounds of
//! latency.
//!
//! ```text
//! let Ok(mut state) = StationState::open(alloc, proposal, 0) else {
//!     return None;
//! };
//! let Ok(Answer::Accepted { source: one }) = state.step(Event::Arrive {
//!     receiver,
//!     raw: first,
//! }) else {
//!     return None;
//! };
//! ..
//! let Ok(
//!     Answer::Sent {
//!         word: Some(word),
//!         ..
//!     },
//! ) = state.step(Event::Cell { group: 0 })
//! else {
//!     return None;
//! };
//! ```
#![tactic(auto)]

mod events;
pub mod laws;
mod passed;
mod sends;
mod sources;
mod state;

pub use a429_equipment::COUNT_BITS;
pub use a429_slots::{Answer, OpenFault, Refusal};
pub use events::Event;
pub use sends::SentCell;
pub use state::{State, StationState};
