//! Tests of what threads share: the plans of a board, current values, and stations that run.
#![tactic(auto)]

#[cfg(test)]
mod boards;
#[cfg(test)]
mod devices;
#[cfg(test)]
mod ends;
#[cfg(test)]
mod runs;
#[cfg(test)]
mod stations;
#[cfg(test)]
mod support;
#[cfg(test)]
mod values;
