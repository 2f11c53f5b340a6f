//! The command `live`: the station of a table on threads of its own, from files to its report.
//!
//! `run_station` reads the table, the file of words and the further tables, runs the station, and answers the report, or a
//! refusal. While the station runs, a `Progress` gets reports of its progress: `ProgressLine` shows them on a
//! terminal, `NoProgress` shows nothing.
//!
//! ```text
//! let mut warnings = Vec::new(alloc);
//! let reply = run_station(rt, alloc, files, &asked, &mut warnings, progress);
//! ```
#![tactic(auto)]

mod control;
mod progress;
mod report;
mod running;
mod words;

pub use progress::{NoProgress, Progress, ProgressLine};
pub use running::run_station;
