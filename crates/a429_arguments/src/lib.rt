//! The arguments of the program `a429`: which commands there are, and what the arguments ask for.
//!
//! `forms` has a row for each command, `options` one for each option, and `rules` the rules between options. All else that
//! depends on the commands and options of the program comes from these rows. `requests` reads what is asked for (`Asked`),
//! and `given` the arguments that a system gives; `memory` has arguments in memory. `times` has the units and origins of the
//! times in a log, and `tolerances` the texts of `--tolerance`. `laws` says that a request in its plain form is read as that
//! request. It is for commands: a program that embeds the libraries does not need it.
//!
//! ```text
//! match parse(alloc, words) {
//! ```
#![tactic(auto)]

pub mod command_forms;
pub mod command_line;
pub mod forms;
pub mod given;
mod help;
pub mod laws;
pub mod memory;
pub mod options;
mod program_help;
pub mod requests;
pub mod rules;
pub mod times;
pub mod tolerances;
mod values;
