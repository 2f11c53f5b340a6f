//! The symbols of a line, and what a reader reports of it.

use a429_word::Word;

/// The level of a line for one bit time (ARINC 429 Part 1).
#[derive(Clone, Copy, PartialEq, Eq)]
pub enum Symbol {
    /// A one.
    Hi,
    /// No bit: what separates words.
    Null,
    /// A zero.
    Lo,
}

/// The report of a run, a maximal stretch of ones and zeros (profile). A run has at most one report: the first that
/// fits, in the order Gap, Long, Short, then Word or Parity.
#[derive(Clone, Copy, PartialEq, Eq)]
pub enum Found {
    /// 32 bits of odd parity; reported at the Null after them.
    Word(Word),
    /// 32 bits of even parity, as the number that they make; reported at the Null after them.
    Parity(u32),
    /// Fewer than 32 bits, and how many; reported at the Null after them.
    Short(u32),
    /// More than 32 bits; reported at the 33rd.
    Long,
    /// Fewer than four Nulls before the run, and how many; reported at its first bit.
    Gap(u32),
}
