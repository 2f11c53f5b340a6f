//! The commands of a429 for a web page: one call, which takes arguments and files in memory, and gives what the command
//! writes.
//!
//! `page/` at the top of the repository has the page, and the way from this library to its module of WebAssembly.
#![tactic(auto)]

mod answering;
mod command;
mod files;
mod parts;
mod room;

pub use command::{Answer, a429_command};
