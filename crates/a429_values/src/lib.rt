//! The current value of each source, shared by threads: receivers accept words, and transmitters load the last
//! accepted one, each by one step on one word of a table.
//!
//! `Hub::open` makes the shared table of an equipment, and a `Desk`, which gives out each receiver and each transmitter once.
//! `Receiver::accept` takes a raw word. `Transmitter::load` has an accepted word of a source; tests say that it is the last
//! one. Its clauses promise only that the count of accepted words does not fall, until `Transmitter::meet` shows that what
//! was loaded is what the receiver accepted. The three wait for nobody and allocate no memory, on any threads.
//!
//! ```text
//! let (hub, mut desk) = Hub::<SOURCES, COUNT_BITS>::open(alloc, equipment)?;
//! let receiver = desk.receiver(alloc, &hub, 0)?;
//! let transmitter = desk.transmitter(&hub, 0)?;
//! ```
//!
//! On the receiver's thread:
//!
//! ```text
//! match receiver.accept(raw) {
//!     Accept::Accepted(_) => heard.accepted = heard.accepted.saturating_add(1),
//!     ..
//! }
//! ```
//!
//! On the transmitter's thread:
//!
//! ```text
//! transmitter.meet(receiver);
//! let word = transmitter.load(source);
//! ```
#![tactic(auto)]

mod desk;
mod hub;
mod receiver;
mod shared_words;
mod steps;
mod transmitter;
mod view;
mod wired;

pub use desk::{Desk, HubFault};
pub use hub::Hub;
pub use receiver::{Accept, Receiver};
pub use transmitter::Transmitter;
