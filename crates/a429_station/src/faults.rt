//! Why a station did not run to its end.
ghost use Rattle.std.specs.Prelude.{◌≢◌};
ghost use Rattle.a429_station.specs.Faults.{IsOfGroup};
ghost use Rattle.a429_workers.specs.declared.sending.SendFault.TheVariants.{Change};

use a429_slots::PlanFault;
use a429_workers::{ReceiveFault, SendFault};
use std::alloc::{AllocError, AllocFailed};
use thiserror::Error;

/// Why a station did not run, or not to its end.
#[derive(Clone, Copy, Debug, PartialEq, Eq, Error)]
pub enum LiveFault {
    /// The equipment has no plan. Nothing was started.
    #[error("{0}")]
    Plan(PlanFault),
    /// More than a million frames were asked for, and nothing was started; or a line gave a word after a million.
    #[error("too many frames or words")]
    TooMuch,
    /// A thread could not be started or joined.
    #[error("a thread could not be started or taken in")]
    Join,
    /// The source of a line failed.
    #[error("a line's source failed")]
    Source,
    /// The gate ended a worker.
    #[error("the gate is shut")]
    Gate,
    /// The sink of a group failed.
    #[error("a group's sink failed")]
    Sink,
    /// An allocation failed.
    #[error("out of memory")]
    NoMemory,
}

impl From<PlanFault> for LiveFault {
    ghost use Rattle.std.specs.Prelude.{◌≡◌};
    ghost use Rattle.a429_station.specs.declared.faults.LiveFault.TheVariants as fault;

    ghost from_gives = { λ why e. e ≡ fault.Plan why };

    fn from(why: PlanFault) -> LiveFault {
        LiveFault::Plan(why)
    }
}

impl From<AllocError> for LiveFault {
    ghost use Rattle.std.specs.Prelude.{◌≡◌};
    ghost use Rattle.a429_station.specs.declared.faults.LiveFault.TheVariants as fault;

    ghost from_gives = { λ _ e. e ≡ fault.NoMemory };

    fn from(_error: AllocError) -> LiveFault {
        LiveFault::NoMemory
    }
}

impl<T: Drop> From<AllocFailed<T>> for LiveFault {
    ghost use Rattle.std.specs.Prelude.{◌≡◌};
    ghost use Rattle.a429_station.specs.declared.faults.LiveFault.TheVariants as fault;

    ghost from_gives = { λ _ e. e ≡ fault.NoMemory };

    fn from(_failed: AllocFailed<T>) -> LiveFault {
        LiveFault::NoMemory
    }
}

impl From<ReceiveFault> for LiveFault {
    ghost use Rattle.std.specs.Prelude.{◌≡◌};
    ghost use Rattle.a429_station.specs.Faults.{of_receiver};

    ghost from_gives = { λ why e. e ≡ of_receiver why };

    fn from(why: ReceiveFault) -> LiveFault {
        match why {
            ReceiveFault::Source => LiveFault::Source,
            ReceiveFault::Gate => LiveFault::Gate,
            ReceiveFault::TooMuch { .. } => LiveFault::TooMuch,
        }
    }
}

/// The fault of a group. The slots of a million frames can be counted, so `Change` never comes.
pub(crate) fn group_fault(why: SendFault) -> LiveFault
    requires { why ≢ Change }
    ensures { IsOfGroup why result }
{
    match why {
        SendFault::Sink => LiveFault::Sink,
        SendFault::Gate => LiveFault::Gate,
        SendFault::Change => unreachable!(),
    }
}
