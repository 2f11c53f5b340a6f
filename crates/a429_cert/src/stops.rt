//! How a check ends early.

ghost use Rattle.std.specs.Prelude.{◌≡◌, Ok, Err, MatchResult};

use crate::expected::Expected;
use crate::verdicts::{No, Reason};
use std::alloc::{AllocError, AllocFailed};
use std::marker::Model;

/// Why a line is refused, and what was expected. Clauses see the reason.
#[derive(Drop)]
pub struct Fault {
    reason: Reason,
    expected: Expected,
}

impl Model for Fault {
    ghost use Rattle.a429_cert.specs.declared.verdicts.Reason.{Reason};

    ghost Value = { Reason };

    ghost view = { λ f. f.reason };
}

/// The refusal of a line, and what was expected there. Clauses see the line with the reason.
#[derive(Drop)]
pub struct Refusal {
    no: No,
    expected: Expected,
}

impl Model for Refusal {
    ghost use Rattle.a429_cert.specs.declared.verdicts.No.{No};

    ghost Value = { No };

    ghost view = { λ r. r.no };
}

impl Fault {
    ghost use Rattle.std.specs.Prelude.{◌≡◌};

    /// A fault of a line: the reason why it is refused, and what was expected in its place.
    pub fn new(reason: Reason, expected: Expected) -> Fault
        ensures { result ≡ reason }
    {
        Fault { reason, expected }
    }

    /// The refusal of the line with this number.
    pub fn at_line(self, line: usize) -> Refusal
        ensures { result ≡ record { reason = self; line = line } }
    {
        Refusal {
            no: No {
                reason: self.reason,
                line,
            },
            expected: self.expected,
        }
    }
}

impl Refusal {
    ghost use Rattle.std.specs.Prelude.{◌≡◌};

    /// The line with the reason.
    pub fn no(&self) -> No
        ensures { result ≡ self.now }
    {
        self.no
    }

    /// What was expected, for people: no clause is about it.
    pub fn expected(&self) -> Expected {
        self.expected
    }
}

/// What ends a check early.
#[derive(Drop)]
pub enum CheckStop {
    /// An allocation failed.
    Memory,
    /// A line is refused.
    Refused(Refusal),
}

impl From<AllocError> for CheckStop {
    ghost use Rattle.std.specs.Prelude.{◌≡◌};
    ghost use Rattle.a429_cert.specs.declared.stops.CheckStop.TheVariants.{Memory};

    ghost from_gives = { λ _ e. e ≡ Memory };

    fn from(_error: AllocError) -> CheckStop {
        CheckStop::Memory
    }
}

impl<T: Drop> From<AllocFailed<T>> for CheckStop {
    ghost use Rattle.std.specs.Prelude.{◌≡◌};
    ghost use Rattle.a429_cert.specs.declared.stops.CheckStop.TheVariants.{Memory};

    ghost from_gives = { λ _ e. e ≡ Memory };

    fn from(_error: AllocFailed<T>) -> CheckStop {
        CheckStop::Memory
    }
}

/// What a line says. Error: the line has a fault; it is then refused with its number.
pub fn with_line_number<T: Drop>(line: usize, said: Result<T, Fault>) -> Result<T, CheckStop>
    ensures { MatchResult said (λ x. result ≡ Ok x) (λ r. result ≡ Err (CheckStop.Refused (record { reason = r; line = line }))) }
{
    match said {
        Ok(said) => Ok(said),
        Err(fault) => Err(CheckStop::Refused(fault.at_line(line))),
    }
}
