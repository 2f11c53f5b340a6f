//! Copies of a proposal.
ghost use Rattle.std.specs.Prelude.{◌≡◌, ◌≤◌, IfOk};

use crate::proposals::Proposal;
use std::alloc::{AllocError, Global};

impl<const N: usize> Proposal<N> {
    /// A copy of the proposal. Error: an allocation failed.
    pub fn copied(&self, alloc: Global) -> Result<Proposal<N>, AllocError>
        // A plan of at most 65536 outputs fits in memory.
        requires size { N ≤ 65536 }
        ensures { IfOk result (λ p. p ≡ self.now) }
    {
        let equipment = self.equipment.copied(alloc)?;
        match Box::new(alloc, self.plan.copied()) {
            Ok(plan) => Ok(Proposal { equipment, plan }),
            Err(_) => Err(AllocError),
        }
    }
}
