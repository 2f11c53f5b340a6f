//! The text of a plan, and the check of any text against an equipment table (profile: plan text).
//!
//! `plan_text` is the text of a proposal, with the bound that shows how few buses are enough. `check` reads a table and
//! a text from any author, and answers `Fewest`, or the first line that is wrong with the reason. `judge` does the same
//! with an equipment that was read before, and `refusal_of` also says what was expected at that line.
//!
//! ```text
//! let Ok(proposal) = Proposal::of(alloc, equipment) else {
//!     return None;
//! };
//! let Ok(text) = plan_text(alloc, &proposal) else {
//!     return None;
//! };
//! Some(check(alloc, table, &text))
//! ```
//!
//! If a text is wrong, the refusal has the line, the reason and what was expected:
//!
//! ```text
//! let no = refusal.no();
//! Some(Objection {
//!     line: no.line,
//!     reason: no.reason.text(),
//!     expected: format!(in alloc; "{}", refusal.expected()).ok()?,
//! })
//! ```
#![tactic(auto)]

mod checking;
mod due;
mod earlier;
mod expected;
mod group_lines;
mod judging;
pub mod laws;
mod line;
mod lines;
mod output_lines;
mod stops;
mod table_lines;
mod text;
mod verdicts;

pub use checking::{CheckFault, check};
pub use expected::{Expected, LineForm};
pub use judging::{NoVerdict, judge, refusal_of};
pub use line::{
    BoundLine, GroupLine, OutputLine, bound_line, group_line, output_line, plan_line, rate_line,
};
pub use lines::Lines;
pub use output_lines::shares;
pub use stops::Refusal;
pub use text::plan_text;
pub use verdicts::{No, Reason, Verdict};
