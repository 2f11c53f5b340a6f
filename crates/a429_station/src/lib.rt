//! A running station: its receivers and groups on threads of their own, and plans that are published during the run.
//!
//! `live` runs a station of an equipment, with a line for each receiver and a bus for each group, and answers their
//! totals when all have ended. A `Control` runs at the same time on the calling thread: `Station::resubmit` publishes
//! the plan of a further table. `live_planned` does the same by a plan that was made before. `docs/EMBEDDING.md` has a
//! program.
//!
//! ```text
//! live(
//!     rt,
//!     alloc,
//!     equipment,
//!     lines,
//!     sinks,
//!     setup.frames,
//!     gate,
//!     control,
//! )
//! ..
//! impl<'a, R: Wait> Control<R> for Publishes<'a> {
//!     fn run(&mut self, station: &mut Station<'_, R>) -> Result<(), AllocError> {
//!         self.published = matches!(station.resubmit(THREE_FASTER.as_bytes()), Ok(1));
//!         ..
//!         Ok(())
//!     }
//! }
//! ```
#![tactic(auto)]

mod control;
mod faults;
pub mod laws;
mod lists;
mod reports;
mod running;
mod station;
mod threads;
mod working;

pub use a429_equipment::FRAMES;
pub use control::{Control, NoControl};
pub use faults::LiveFault;
pub use reports::Report;
pub use running::{live, live_planned};
pub use station::{ReplanFault, Station};
