//! Tests across crates of what no command reaches: last slots and counts, writers and readers that fail, what
//! a terminal shows during a run, and public functions called by themselves. What commands write is stated by the cases
//! of `a429_cases`.
#![tactic(auto)]

#[cfg(test)]
mod fields;
#[cfg(test)]
mod grid;
#[cfg(test)]
mod lines;
#[cfg(test)]
mod logs;
#[cfg(test)]
mod machine;
#[cfg(test)]
mod packing;
#[cfg(test)]
mod plans;
#[cfg(test)]
mod progress;
#[cfg(test)]
mod recordings;
#[cfg(test)]
mod records;
#[cfg(test)]
mod sockets;
#[cfg(test)]
mod support;
