//! Lists that proofs alone read whole.
ghost use Rattle.std.specs.Prelude.{◌≡◌, ◌++◌, ◌∷◌, []};
ghost use Rattle.a429_uses.specs.Histories.{items_of};

use std::snapshot::Snapshot;

/// What happened, one item after another. A program has only the last item. Those before it are in a snapshot, which
/// proofs read and which takes no memory, even for a long history.
#[derive(Drop)]
pub enum History<T: Drop> {
    Nothing,
    Then(Snapshot<History<T>>, T),
}

impl<T: Drop> History<T> {
    /// Adds an item at the end.
    pub fn push(&mut self, item: T)
        ensures { items_of self.new ≡ items_of self.old ++ item ∷ [] }
    {
        let before = Snapshot::of(self);
        *self = History::Then(before, item);
    }
}
