//! What is on the lines of a recording.
//!
//! `Survey::note` takes the words of a recording one by one. `Survey::sheet` gives a row for each label and SDI of each
//! receiver or channel, and a row for all words of each. `Survey::compared_sheet` adds their data and what a table says. The
//! memory that a survey needs grows with the number of names, and not with the number of words.
//!
//! ```text
//! let mut survey = Survey::new(alloc);
//! for (time, raw) in WORDS {
//!     survey.note("a", time, raw).expect(rt, "a word");
//! }
//! let sheet = survey.sheet(alloc, 100000).expect(rt, "a sheet");
//! ```
#![tactic(auto)]

mod cells;
mod expected;
mod extents;
mod figures;
mod lines;
mod missing;
mod names;
mod past;
mod rows;
mod starts;
mod survey;

pub use expected::Expected;
pub use missing::has_finding;
pub use survey::{NoteFault, Survey};
