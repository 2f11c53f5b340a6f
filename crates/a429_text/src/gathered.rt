//! A list that is gathered item by item.
ghost use Rattle.std.specs.Prelude.{◌≡◌, ◌++◌, ◌∷◌, [], IfOk};

use crate::lost::Lost;
use std::alloc::{AllocError, Global};
use std::marker::Model;
use std::snapshot::Snapshot;

/// A list that is gathered item by item. Clauses see all items that were added. Adding an item has no error: if an
/// allocation fails, the list is dropped, and the call that takes the list returns the error.
pub struct Gathered<T: Drop> {
    kept: Vec<T>,
    /// All that was added, if an allocation failed.
    lost: Option<Lost<T>>,
}

// Written by hand, a drop is one call in the proofs of its owners.
impl<T: Drop> Drop for Gathered<T> {
    fn drop(self) {
        let Self { kept: _, lost: _ } = self;
    }
}

impl<T: Drop> Model for Gathered<T> {
    ghost use Rattle.std.specs.Prelude.{List};
    ghost use Rattle.a429_text.specs.Gathering.{gathered};

    ghost Value = { List T };

    ghost view = { λ g. gathered g.lost g.kept.items };
}

impl<T: Drop> Gathered<T> {
    /// An empty list.
    pub fn new(alloc: Global) -> Gathered<T>
        ensures { result ≡ [] }
    {
        Gathered {
            kept: Vec::new(alloc),
            lost: None,
        }
    }

    /// Adds an item at the end.
    pub fn push(&mut self, item: T)
        ensures { self.new ≡ self.old ++ item ∷ [] }
    {
        let last = Snapshot::of(&item);
        let before = match &self.lost {
            Some(lost) => Snapshot::of(lost),
            None => {
                let kept = Lost::Kept(Snapshot::of(&self.kept));
                if self.kept.push(item).is_ok() {
                    return;
                }
                self.lost = Some(Lost::Then(Snapshot::of(&kept), last));
                return;
            }
        };
        self.lost = Some(Lost::Then(before, last));
    }

    /// The list. Error: an allocation failed for an item of it.
    pub fn as_slice(&self) -> Result<&[T], AllocError>
        ensures { IfOk result (λ list. list.now ≡ self.now) }
    {
        match &self.lost {
            None => Ok(self.kept.as_slice()),
            Some(_) => Err(AllocError),
        }
    }

    /// Gives the list. Error: an allocation failed for an item of it.
    pub fn into_vec(self) -> Result<Vec<T>, AllocError>
        ensures { IfOk result (λ list. list.items ≡ self) }
    {
        let Gathered { kept, lost } = self;
        match lost {
            None => Ok(kept),
            Some(_) => Err(AllocError),
        }
    }
}
