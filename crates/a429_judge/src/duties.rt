//! The outputs of a box, and the words of its logs.
ghost use Rattle.std.specs.Prelude.{◌≡◌, ◌==◌, true};
ghost use Rattle.std.specs.Option.{option_map_or};
ghost use Rattle.a429_judge.specs.Recordings.{fits, overlaps};

use crate::facts::{Facts, Mark};
use a429_word::Word;

/// An output: which words are its own, and what is known of it.
#[derive(Clone, Copy)]
pub struct Duty {
    /// The number of its group.
    pub group: usize,
    /// The number of its source.
    pub source: usize,
    /// The label of its source.
    pub label: u8,
    /// The SDI of its source; `None`: any.
    pub sdi: Option<u8>,
    /// The number of its bus within its group.
    pub bus: u32,
    pub facts: Facts,
}

/// A word that a source accepted.
#[derive(Clone, Copy)]
pub struct Heard {
    /// The number of the source.
    pub source: usize,
    pub mark: Mark,
}

/// A word that was sent.
#[derive(Clone, Copy)]
pub struct Sent {
    /// The number of the group.
    pub group: usize,
    /// The number of the bus within the group; `None`: the log does not say.
    pub bus: Option<u32>,
    pub mark: Mark,
}

/// Whether there is no number, or this one.
fn is_or_any(number: Option<u32>, other: u32) -> bool
    ensures { result ≡ option_map_or (λ n. n == other) number true }
{
    match number {
        None => true,
        Some(number) => number == other,
    }
}

impl Duty {
    /// Whether the SDI is that of the source, or the source has any.
    fn has_sdi(&self, sdi: u8) -> bool
        ensures { result ≡ option_map_or (λ k. k == sdi) self.now.sdi true }
    {
        match self.sdi {
            None => true,
            Some(own) => own == sdi,
        }
    }

    /// Whether a word that was sent is of this output.
    pub fn fits(&self, sent: &Sent) -> bool
        ensures { result ≡ fits self.now sent.now }
    {
        if sent.group != self.group {
            return false;
        }
        let Ok(word) = Word::from_raw(sent.mark.raw) else {
            return false;
        };
        self.label == word.label().value()
            && self.has_sdi(word.sdi().value())
            && is_or_any(sent.bus, self.bus)
    }

    /// Whether a label and an SDI may be those of both outputs.
    pub fn overlaps(&self, other: &Duty) -> bool
        ensures { result ≡ overlaps self.now other.now }
    {
        if self.label != other.label {
            return false;
        }
        match (self.sdi, other.sdi) {
            (Some(own), Some(others)) => own == others,
            (Some(_own), None) => true,
            (None, _others) => true,
        }
    }
}
