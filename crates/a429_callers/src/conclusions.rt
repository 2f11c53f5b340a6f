//! Short callers, each with a conclusion in plain words. It follows from what the crates below promise in public, and
//! from nothing else of them.

pub mod buses;
pub mod loads;
pub mod own_texts;
pub mod refusals;
pub mod stations;
pub mod verdicts;
pub mod words;
