//! Plans, published to threads that never wait for them.
//!
//! `Board::open` makes a `Planner` and as many `Watcher`s as asked for, one for each thread that reads plans.
//! `Planner::publish` gives a plan the next number; it may wait. `Watcher::newest` answers the newest plan, or what it
//! knows of it without waiting and without memory. `Planner::tell` brings a watcher up to date, `close` ends the
//! board.
//!
//! ```text
//! let (planner, mut watchers) = Board::open(rt, alloc, plan, 1)?;
//! ..
//! planner.close(rt);
//! ```
//!
//! While the board is open, a watcher reads on its thread, and the planner publishes:
//!
//! ```text
//! let (number, plan) = watcher.newest();
//! ..
//! if planner.publish(rt, plan).is_ok() {
//!     published = published.wrapping_add(1);
//! }
//! ```
#![tactic(auto)]

mod board;
mod front;
mod planner;
mod rule;
mod watcher;

pub use board::Board;
pub use planner::{BoardFault, Planner};
pub use watcher::Watcher;
