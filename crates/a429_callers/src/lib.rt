//! Callers that use only what the libraries below promise in public: each is checked, and its conclusion is in plain
//! words. There is also a law of definitions that no running code uses.
#![tactic(auto)]

pub mod boxes;
pub mod client;
pub mod conclusions;
pub mod latency;
pub mod laws;
