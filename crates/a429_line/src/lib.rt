//! Lines of ARINC 429: from symbols to words, and back (ARINC 429 Part 1, levels and gap).
//!
//! A line is a list of symbols, high, null or low. `LineReader` takes it in pieces of any length and reports words,
//! words of even parity, runs of another length, and short gaps: `feed` for symbols, `next` for bytes of a line file.
//! `write_slot` makes the 36 symbols of a slot, and allocates no memory.
//!
//! ```text
//! let mut reader = LineReader::new();
//! let mut found = Vec::new(alloc);
//! ..
//! reader.feed(&[Null], &mut found).expect(rt, "memory");
//! ..
//! [Found::Word(word)] => word.raw() == 0x6000_00c1,
//! ..
//! assert!(rt; write_slot(Some(word(&rt))) == SENT_SLOT);
//! assert!(rt; write_slot(None) == [Null; SLOT]);
//! ```
#![tactic(auto)]

mod found;
pub mod laws;
mod line_bytes;
mod reader;
mod slot;
mod stage;
mod stretches;

pub use found::{Found, Symbol};
pub use line_bytes::first_bad_byte;
pub use reader::LineReader;
pub use slot::{SLOT, write_slot};
