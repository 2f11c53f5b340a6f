//! What a reader keeps between two symbols.
ghost use Rattle.std.specs.Prelude.{◌≡◌};
ghost use Rattle.a429_line.specs.Reports.{report_of_32};
ghost use Rattle.a429_line.specs.Stages.{after, after_bit, after_null, due, due_at_bit, due_at_null};

use crate::found::{Found, Symbol};
use a429_word::Word;

/// How many Nulls separate words, at least (ARINC 429 Part 1).
const GAP: u32 = 4;

/// The bits of a word (ARINC 429 Part 1).
const BITS: u32 = 32;

/// What a reader keeps of the symbols so far.
#[derive(Clone, Copy, PartialEq, Eq)]
pub enum Stage {
    /// Between runs, after this number of Nulls, of which at most four are counted.
    Between(u32),
    /// In a run without a report: its length, and the number that its bits make.
    Within(u32, u32),
    /// In a run that was reported.
    Reported,
}

/// The report of 32 bits.
fn whole(raw: u32) -> Found
    ensures { result ≡ report_of_32 raw }
{
    match Word::from_raw(raw) {
        Ok(word) => Found::Word(word),
        Err(_) => Found::Parity(raw),
    }
}

impl Stage {
    /// Takes one symbol, and gives the report that is due at it. `None` if none is due.
    pub fn take(&mut self, symbol: Symbol) -> Option<Found>
        ensures due { result ≡ due self.old symbol }
        ensures after { self.new ≡ after self.old symbol }
    {
        match symbol {
            Symbol::Hi => self.take_bit(1),
            Symbol::Null => self.take_null(),
            Symbol::Lo => self.take_bit(0),
        }
    }

    fn take_null(&mut self) -> Option<Found>
        ensures due { result ≡ due_at_null self.old }
        ensures after { self.new ≡ after_null self.old }
    {
        match *self {
            Stage::Between(nulls) => {
                *self = Stage::Between(if nulls < GAP { nulls + 1 } else { nulls });
                None
            }
            Stage::Within(len, raw) => {
                *self = Stage::Between(1);
                Some(if len < BITS {
                    Found::Short(len)
                } else {
                    whole(raw)
                })
            }
            Stage::Reported => {
                *self = Stage::Between(1);
                None
            }
        }
    }

    fn take_bit(&mut self, bit: u32) -> Option<Found>
        ensures due { result ≡ due_at_bit self.old }
        ensures after { self.new ≡ after_bit bit self.old }
    {
        match *self {
            Stage::Between(nulls) if nulls < GAP => {
                *self = Stage::Reported;
                Some(Found::Gap(nulls))
            }
            Stage::Between(_) => {
                *self = Stage::Within(1, bit);
                None
            }
            Stage::Within(len, raw) if len < BITS => {
                *self = Stage::Within(len + 1, raw | (bit << len));
                None
            }
            Stage::Within(_, _) => {
                *self = Stage::Reported;
                Some(Found::Long)
            }
            Stage::Reported => None,
        }
    }
}
