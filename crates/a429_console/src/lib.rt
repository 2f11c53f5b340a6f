//! What commands of the program `a429` share: files, the output, and refusals.
//!
//! `replies` answers arguments that ask for no command. `files` gives the bytes of files, from the disk or from memory
//! (`FileReader`). `output` takes bytes and counts what failed. `planning` reads
//! and plans tables. `refusals` has the line of each refusal, and a refusal with what was read before (`Refused`). `answered`
//! has what a command answered, and `reply` puts what one prints that has its whole answer first. `hints` writes lines on
//! standard error, and `terminal` one line that shows how far the work is. It is for commands: a program that embeds the
//! libraries does not need it.
//!
//! ```text
//! let mut proposal = propose(alloc, table)?;
//! ```
#![tactic(auto)]

pub mod answered;
pub mod files;
pub mod hints;
pub mod output;
pub mod planning;
pub mod refusals;
pub mod replies;
pub mod reply;
pub mod terminal;
