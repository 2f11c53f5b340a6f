//! The plan of a table on which a command or a program in C works: the table's own, or the one that a plan text states.
//!
//! `GivenTable` reads the files of both, and gives the plan. `plan_in` gives it by the bytes of both. `keep_refusal` is the
//! refusal of a text whose places are kept, and `objection_of` is what a hint says of a refused line.
//!
//! Errors: the table has a fault, it has no plan, a line of the text is refused, or an allocation failed.
//!
//! ```text
//! let table = GivenTable::read(alloc, files, TableNames::of(asked))?;
//! stamped_reply(alloc, asked, &table)
//! ```
#![tactic(auto)]

mod given_plans;
mod tables;

pub use given_plans::{keep_refusal, objection_of, plan_in};
pub use tables::{GivenTable, TableNames};
