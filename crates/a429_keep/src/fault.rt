//! Why no plan is kept.

use std::alloc::{AllocError, AllocFailed};
use thiserror::Error;

/// What is wrong with a line of an earlier plan text.
#[derive(Clone, Copy, Debug, PartialEq, Eq, Error)]
pub enum KeepReason {
    /// The line is not of the form of a plan text.
    #[error("form")]
    Form,
    /// A group of the table has another bit rate, so that its slots are other times.
    #[error("rate")]
    Rate,
    /// The offset is not below the period.
    #[error("place")]
    Place,
    /// An earlier output of the group has the same bus, and an offset that is equal modulo the smaller of the two periods.
    #[error("shared")]
    Shared,
}

/// Why no plan is kept.
#[derive(Clone, Copy, Debug, PartialEq, Eq, Error)]
pub enum KeepFault {
    /// The line of this number, from 1, is the first that is refused, for this reason.
    #[error("line {line} {reason}")]
    Line { line: usize, reason: KeepReason },
    /// An allocation failed.
    #[error("out of memory")]
    NoMemory,
}

impl From<AllocError> for KeepFault {
    ghost use Rattle.std.specs.Prelude.{◌≡◌};
    ghost use Rattle.a429_keep.specs.declared.fault.KeepFault.TheVariants.{NoMemory};

    ghost from_gives = { λ _ e. e ≡ NoMemory };

    fn from(_error: AllocError) -> KeepFault {
        KeepFault::NoMemory
    }
}

impl<T: Drop> From<AllocFailed<T>> for KeepFault {
    ghost use Rattle.std.specs.Prelude.{◌≡◌};
    ghost use Rattle.a429_keep.specs.declared.fault.KeepFault.TheVariants.{NoMemory};

    ghost from_gives = { λ _ e. e ≡ NoMemory };

    fn from(_error: AllocFailed<T>) -> KeepFault {
        KeepFault::NoMemory
    }
}

/// Why a line is not taken.
#[derive(Drop)]
pub enum LineStop {
    Refused(KeepReason),
    /// An allocation failed.
    Memory,
}

impl From<KeepReason> for LineStop {
    ghost use Rattle.std.specs.Prelude.{◌≡◌};
    ghost use Rattle.a429_keep.specs.declared.fault.LineStop.TheVariants.{Refused};

    ghost from_gives = { λ reason e. e ≡ Refused reason };

    fn from(reason: KeepReason) -> LineStop {
        LineStop::Refused(reason)
    }
}

impl<T: Drop> From<AllocFailed<T>> for LineStop {
    ghost use Rattle.std.specs.Prelude.{◌≡◌};
    ghost use Rattle.a429_keep.specs.declared.fault.LineStop.TheVariants.{Memory};

    ghost from_gives = { λ _ e. e ≡ Memory };

    fn from(_error: AllocFailed<T>) -> LineStop {
        LineStop::Memory
    }
}
