//! The packing of a group's outputs onto the fewest buses (profile: layout).
//!
//! `pack` takes the demand of each output: its period, label and SDI. Its answer has the frame, the number of buses,
//! and the outputs in the order in which they are laid out. `SumTable` keeps running sums and finds a place in them.
//! `raw_bound` and `widening_saves` say how few buses other intervals would need.
//!
//! ```text
//! demands.push(Demand {
//!     period,
//!     label: source.label,
//!     sdi: source.sdi,
//! })?;
//! ..
//! let packed = pack(alloc, &demands)?;
//! ```
//!
//! The answer has the outputs in the order in which they are laid out:
//!
//! ```text
//! let frame = packed.frame();
//! ..
//! for place in 0..packed.len() {
//!     let start = packed.sums().start(place);
//!     let output = packed.input(place);
//!     buses[output] = start / frame.slots();
//!     offsets[output] = offset_at(start, frame);
//! }
//! ```
#![tactic(auto)]

mod bounds;
mod demands;
mod entry;
pub mod laws;
mod packed;
mod packing;
mod sums;
mod widening;

pub use bounds::raw_bound;
pub use demands::{BUSES, Demand, PackFault};
pub use packed::Packed;
pub use packing::pack;
pub use sums::SumTable;
pub use widening::widening_saves;
