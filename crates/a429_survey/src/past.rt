//! Words that proofs alone read.
ghost use Rattle.std.specs.Prelude.{◌≡◌, ◌++◌, ◌∷◌, [], string_bytes};
ghost use Rattle.a429_survey.specs.Past.{words_in};

use std::snapshot::Snapshot;

/// The words that were noted, oldest first. A program has only the time and the bits of the last one. The others are in
/// snapshots, which proofs read and which take no memory.
#[derive(Drop)]
pub enum Past {
    Nothing,
    Then(Snapshot<Past>, Snapshot<String>, u64, u32),
}

impl Past {
    /// Adds a word at the end.
    pub fn add(&mut self, name: &String, time: u64, raw: u32)
        ensures { words_in self.new ≡ words_in self.old ++ record { time = time; name = string_bytes name.now; raw = raw } ∷ [] }
    {
        let before = Snapshot::of(self);
        *self = Past::Then(before, Snapshot::of(name), time, raw);
    }
}
