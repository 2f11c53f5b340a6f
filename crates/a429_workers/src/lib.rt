//! Transmitters over shared values and published plans, and the loops of a running station.
//!
//! `Transmit` joins a transmitter of `a429_values` and a watcher of `a429_board`: `cell` is the next cell of its
//! frame, `change` begins the next frame by the newest plan. `receive_all` takes the words of a line for a receiver, a
//! million at most, and hands back the one after them; `send_frames` sends whole frames to a `BusSink`. A `Gate` holds
//! loops in tests; `OpenGate` holds none.
//!
//! ```text
//! receive_all(line, receiver, 0, &OpenGate).is_ok()
//! ..
//! send_frames(transmit, sink, 0, frames, &OpenGate).is_ok()
//! ..
//! transmit.meet(first);
//! transmit.meet(second);
//! ```
#![tactic(auto)]

mod cells;
mod gates;
pub mod laws;
mod receiving;
mod sending;
mod sinks;
mod transmit;

pub use a429_equipment::WORDS;
pub use a429_slots::OpenFault;
pub use cells::{ChangeFault, FrameEnd, Sent};
pub use gates::{Gate, GateFault, OpenGate, Point};
pub use receiving::{ReceiveFault, ReceiveTotals, receive_all};
pub use sending::{SendFault, SendTotals, send_frames};
pub use sinks::{BusSink, CountSink, MemorySink, SinkFault};
pub use transmit::Transmit;
