//! Commands on recordings of words.
//!
//! `survey_reply` says what is on the lines of logs, and `judge_reply` whether what a box sent is right. Each answers a `Reply`.
//!
//! ```text
//! Verb::Survey => survey_reply(alloc, files, asked, warnings),
//! Verb::Judge => judge_reply(alloc, files, asked, warnings),
//! ```
//!
//! `simulate` plays the words of a log on the station of a table, at their times. It puts a line for each word that is sent
//! or refused, or the summary of what each output sent, as it is asked for.
#![tactic(auto)]

pub mod judge;
pub mod laws;
mod logs;
pub mod simulate;
pub mod survey;
