//! Finds the clock of one recording by another: how far it is off, and how fast it is (profile: judge).
//!
//! Both recordings have words of the same sources: one has them as they came in, the other as they were sent on. A word that
//! none of its sources had for some seconds is recorded in the second one only after it came in, and not after a newer word
//! came in. So each such word says between which bounds the two clocks are apart.
//!
//! `corrected` is exact by its clause. What `align` finds is tested, and not proved: a verdict on a log that is moved so is
//! exact for this move.
#![tactic(auto)]

mod corrections;
mod fits;
mod pairs;
mod search;
mod spans;

pub use corrections::corrected;
pub use search::{Alignment, align};
pub use spans::{Recorded, Span};
