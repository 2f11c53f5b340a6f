//! A text that proofs alone read whole.
ghost use Rattle.std.specs.Prelude.{◌≡◌, ◌++◌, ◌∷◌, []};
ghost use Rattle.a429_text.specs.Said.{bytes_of};

use std::snapshot::Snapshot;

/// The bytes of a text, one after another. A program has only the last one. Those before it are in a snapshot, which
/// proofs read and which takes no memory, even for a long text.
#[derive(Drop)]
pub enum Said {
    Nothing,
    Then(Snapshot<Said>, u8),
}

impl Said {
    /// Adds a byte at the end.
    fn push(&mut self, byte: u8)
        ensures { bytes_of self.new ≡ bytes_of self.old ++ byte ∷ [] }
    {
        let before = Snapshot::of(self);
        *self = Said::Then(before, byte);
    }

    /// Adds bytes at the end.
    pub fn append(&mut self, bytes: &[u8])
        ensures { bytes_of self.new ≡ bytes_of self.old ++ bytes.now }
    {
        for byte in bytes {
            self.push(*byte);
        }
    }
}
