//! Whether what a box sent is right, by a log of what came in and a log of what it sent.
//!
//! A `Judge` takes the words of both logs. It says of each output (`Duty`) whether its words were the latest accepted
//! ones, and whether their times are those of its plan. Times may be wrong by the tolerance.
//!
//! ```text
//! let outputs = vec![in alloc; DUTY].expect(rt, "outputs");
//! let groups = vec![in alloc; outputs].expect(rt, "groups");
//! let mut judge = Judge::new(alloc, groups).expect(rt, "a judge");
//! judge.heard(Some(0), mark(1000));
//! judge.sent(sent(1440));
//! ..
//! let judgement = judge.judgement(alloc, 0, 0).expect(rt, "a judgement");
//! ```
#![tactic(auto)]

mod duties;
mod facts;
mod figures;
mod findings;
mod groups;
mod holds;
mod judgements;
mod known;
pub mod laws;
mod outputs;
mod recordings;
mod rows;
mod told;
mod windows;

pub use duties::{Duty, Heard, Sent};
pub use facts::{Facts, Mark, Span, default_tolerance};
pub use findings::{Finding, Kind};
pub use judgements::{Judgement, Verdict};
pub use recordings::{Judge, JudgeFault};
pub use rows::{COLUMNS, add_foreign_row, add_output_row};
pub use told::Told;
