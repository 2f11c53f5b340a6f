//! The verdict on a plan text by an equipment.

ghost use Rattle.std.specs.Prelude.{◌≡◌, None, IfOk, IfErr};
ghost use Rattle.a429_cert.specs.declared.due.DueTable.{DueTable as Due};
ghost use Rattle.a429_cert.specs.Due.{IsDue};
ghost use Rattle.a429_cert.specs.Verdicts.{verdict, verdict_of};
ghost use Rattle.a429_cert.specs.Judged.{IsNoVerdict, ShowsFewest};

use crate::due::due_of;
use crate::stops::{CheckStop, Refusal};
use crate::table_lines::check_lines;
use crate::verdicts::Verdict;
use a429_equipment::Equipment;
use a429_pack::laws::fewest_by_demand;
use std::alloc::{AllocError, AllocFailed, Global};
use thiserror::Error;

/// Why there is no verdict. Groups and outputs are numbered from 0 in table order.
#[derive(Clone, Copy, Debug, PartialEq, Eq, Error)]
pub enum NoVerdict {
    /// The output is the first in table order whose interval allows no period of the grid.
    #[error("output {output} of group {group} has no period")]
    Unfit { group: usize, output: usize },
    /// An allocation failed. This may come instead of any other answer.
    #[error("out of memory")]
    NoMemory,
}

impl From<AllocError> for NoVerdict {
    ghost use Rattle.std.specs.Prelude.{◌≡◌};
    ghost use Rattle.a429_cert.specs.declared.judging.NoVerdict.TheVariants as none;

    ghost from_gives = { λ _ e. e ≡ none.NoMemory };

    fn from(_error: AllocError) -> NoVerdict {
        NoVerdict::NoMemory
    }
}

impl<T: Drop> From<AllocFailed<T>> for NoVerdict {
    ghost use Rattle.std.specs.Prelude.{◌≡◌};
    ghost use Rattle.a429_cert.specs.declared.judging.NoVerdict.TheVariants as none;

    ghost from_gives = { λ _ e. e ≡ none.NoMemory };

    fn from(_error: AllocFailed<T>) -> NoVerdict {
        NoVerdict::NoMemory
    }
}

/// The refusal of a plan text by an equipment (profile: plan text, in the version of the equipment table). The text is
/// compared line by line with the table. The refusal is that of the first line that fails, counted from 1, with the first
/// reason that fits it; `None` if no line fails. Errors: `Unfit`, the first output in table order whose interval allows no
/// grid period at the bit rate of its group; `NoMemory`, an allocation failed.
pub fn refusal_of(
    alloc: Global,
    equipment: &Equipment,
    text: &[u8],
) -> Result<Option<Refusal>, NoVerdict>
    // The first line that fails, with its first reason.
    ensures answer { IfOk result (λ r. (t : Due) × IsDue equipment.now t × (verdict_of r ≡ verdict t text.now)) }
    // Of each group the text states a plan, and no schedule that serves the group has fewer buses.
    ensures fewest { IfOk result (λ r. r ≡ None → ShowsFewest equipment.now text.now) }
    ensures fault { IfErr result (IsNoVerdict equipment.now) }
{
    fewest_by_demand();
    equipment.rows_are_sound();
    let due = due_of(alloc, equipment)?;
    match check_lines(alloc, &due, text) {
        Ok(()) => Ok(None),
        Err(CheckStop::Refused(refusal)) => Ok(Some(refusal)),
        Err(CheckStop::Memory) => Err(NoVerdict::NoMemory),
    }
}

/// Judges a plan text by an equipment: the verdict is `Fewest`, or `No` with what `refusal_of` answers. Errors:
/// `Unfit`, the first output in table order whose interval allows no grid period at the bit rate of its group; `NoMemory`,
/// an allocation failed.
pub fn judge(alloc: Global, equipment: &Equipment, text: &[u8]) -> Result<Verdict, NoVerdict>
    // The first line that fails, with its first reason.
    ensures answer { IfOk result (λ v. (t : Due) × IsDue equipment.now t × (v ≡ verdict t text.now)) }
    // Of each group the text states a plan, and no schedule that serves the group has fewer buses.
    ensures fewest { IfOk result (λ v. v ≡ Verdict.Fewest → ShowsFewest equipment.now text.now) }
    ensures fault { IfErr result (IsNoVerdict equipment.now) }
{
    match refusal_of(alloc, equipment, text) {
        Ok(None) => Ok(Verdict::Fewest),
        Ok(Some(refusal)) => Ok(Verdict::No(refusal.no())),
        Err(none) => Err(none),
    }
}
