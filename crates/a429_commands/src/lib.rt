//! Callers of commands and of the program that conclude from what these promise.
#![tactic(auto)]

pub mod replays;
pub mod words;
