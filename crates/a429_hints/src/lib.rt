//! Hints after a refusal: lines on standard error that begin with `a429: ` and say what to do.
//!
//! A hint is made from what the command read and refused: no file is read again and nothing is planned again. No contract
//! is about hints. `run_program` of `a429_cli` takes them as `HintLines`.
//!
//! ```text
//! let mut files = ShownFiles::new(rt.alloc(), disk, &rt, rt.stderr());
//! run_program(&rt, &rt, &HintLines, &mut files, &mut out, &mut err, &line)
//! ```
#![tactic(auto)]

mod checks;
mod clocks;
mod column_forms;
mod differences;
mod faults;
mod file_rows;
mod files;
mod findings;
mod guesses;
mod headings;
mod hint;
mod imported;
mod imports;
mod keeping;
mod keys;
mod lists;
mod log_parts;
mod logs;
mod mistakes;
mod nearest;
mod periods;
mod plans;
mod reasons;
mod retries;
mod rows;
mod scripts;
mod surveys;
mod telling;
mod twins;
mod whole_logs;
mod words;

pub use telling::HintLines;
