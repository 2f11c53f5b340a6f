//! The fault of opening a machine or a transmitter.

use std::alloc::AllocError;
use thiserror::Error;

/// Why opening a machine of all groups, or a transmitter of one, failed.
#[derive(Clone, Copy, Debug, PartialEq, Eq, Error)]
pub enum OpenFault {
    /// The first frame of a group that is opened has slots that 64 bits cannot count.
    #[error("slots spent")]
    SlotsSpent,
    /// An allocation failed.
    #[error("out of memory")]
    NoMemory,
}

impl From<AllocError> for OpenFault {
    ghost use Rattle.std.specs.Prelude.{◌≡◌};
    ghost use Rattle.a429_slots.specs.declared.open_fault.OpenFault.TheVariants as fault;

    ghost from_gives = { λ _ e. e ≡ fault.NoMemory };

    fn from(_error: AllocError) -> OpenFault {
        OpenFault::NoMemory
    }
}
