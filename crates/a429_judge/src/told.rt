//! A list that proofs alone read.
ghost use Rattle.std.specs.Prelude.{◌≡◌, ◌++◌, ◌∷◌, []};

use std::marker::Model;
use std::snapshot::Snapshot;

/// The items of a list, one after another.
#[derive(Drop)]
enum Items<T: Drop> {
    Nothing,
    More(Snapshot<Items<T>>, Snapshot<T>),
}

/// A list that proofs alone read: clauses see all its items, and the program keeps none. It takes no memory for them.
#[derive(Drop)]
pub struct Told<T: Drop> {
    items: Items<T>,
}

impl<T: Drop> Model for Told<T> {
    ghost use Rattle.std.specs.Prelude.{List};
    ghost use Rattle.a429_judge.specs.Told.{told_by};

    ghost Value = { List T };

    ghost view = { λ t. told_by t.items };
}

impl<T: Drop> Told<T> {
    /// A list without items.
    pub fn new() -> Told<T>
        ensures { result ≡ [] }
    {
        Told {
            items: Items::Nothing,
        }
    }

    /// Adds an item at the end.
    pub fn push(&mut self, item: &T)
        ensures { self.new ≡ self.old ++ item.now ∷ [] }
    {
        let before = Snapshot::of(&self.items);
        self.items = Items::More(before, Snapshot::of(item));
    }
}
