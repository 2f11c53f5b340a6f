//! What all ends of a hub share.
ghost use Rattle.std.specs.Prelude.{◌≡◌, ◌<◌, ◌≤◌, length, replicate, IfOk};

use crate::shared_words::SharedWords;
use a429_equipment::Equipment;
use std::alloc::{AllocError, Global};

#[derive(Drop)]
pub struct Wired {
    pub shared_words: SharedWords,
    pub equipment: Equipment,
    ghost tied: { shared_words.shared.key.value ≡ equipment },
    ghost room: { (length equipment.sources ≤ shared_words.shared.table_id.words) × (0 < shared_words.shared.table_id.words) },
}

/// This number of zeros. Error: an allocation failed.
pub fn zeros(alloc: Global, count: usize) -> Result<Vec<u64>, AllocError>
    ensures len { IfOk result (λ v. length v.items ≡ count) }
    ensures items { IfOk result (λ v. v.items ≡ replicate count 0) }
{
    Vec::from_elem(alloc, 0, count)
}
