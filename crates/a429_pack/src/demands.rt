//! What is asked of a layout, and why there may be none.

use crate::entry::Entry;
use a429_grid::Period;
use a429_word::{Label, Sdi};
use std::alloc::AllocFailed;
use thiserror::Error;

/// How many buses a group can have (profile).
pub const BUSES: usize = 16;

/// What an output asks of the layout of its group: its grid period, and the label and SDI of its source. The period is
/// `None` if the output's interval allows no grid period; the SDI is `None` if the source takes any SDI.
#[derive(Clone, Copy, PartialEq, Eq)]
pub struct Demand {
    pub period: Option<Period>,
    pub label: Label,
    pub sdi: Option<Sdi>,
}

/// Why a group has no layout. Outputs are numbered from 0 in the order given.
#[derive(Clone, Copy, Debug, PartialEq, Eq, Error)]
pub enum PackFault {
    /// The output is the first one without a grid period.
    #[error("output {0} has no period")]
    Unfit(usize),
    /// Every output has a grid period, and the fewest buses that serve them are this many, more than 16.
    #[error("the group needs {0} buses")]
    TooManyBuses(usize),
    /// An allocation failed.
    #[error("out of memory")]
    NoMemory,
}

impl From<AllocFailed<Entry>> for PackFault {
    ghost use Rattle.std.specs.Prelude.{◌≡◌};
    ghost use Rattle.a429_pack.specs.declared.demands.PackFault.TheVariants.{NoMemory};

    ghost from_gives = { λ _ e. e ≡ NoMemory };

    fn from(_error: AllocFailed<Entry>) -> PackFault {
        PackFault::NoMemory
    }
}
