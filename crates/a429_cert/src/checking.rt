//! The check of a plan text against the bytes of an equipment table.

ghost use Rattle.std.specs.Prelude.{◌≡◌, Ok, IfOk, IfErr};
ghost use Rattle.a429_cert.specs.Judged.{IsCheckFault, IsVerdictOnBytes, ShowsFewestOfBytes};

use crate::judging::{NoVerdict, judge};
use crate::verdicts::Verdict;
use a429_table::{TableFault, read_equipment};
use std::alloc::Global;
use thiserror::Error;

/// Why a text was not checked. Groups and outputs are numbered from 0 in table order.
#[derive(Debug, Drop, Error)]
pub enum CheckFault {
    /// The table is not read, for this kind of fault at this place. If memory runs out, the error is `NoMemory`.
    #[error("{0}")]
    Table(TableFault),
    /// The output is the first in table order whose interval allows no period of the grid.
    #[error("output {output} of group {group} has no period")]
    Unfit { group: usize, output: usize },
    /// An allocation failed. This may come instead of any other answer.
    #[error("out of memory")]
    NoMemory,
}

impl From<TableFault> for CheckFault {
    ghost use Rattle.std.specs.Prelude.{◌≡◌};
    ghost use Rattle.a429_cert.specs.Judged.{of_table};

    ghost from_gives = { λ fault e. e ≡ of_table fault };

    fn from(fault: TableFault) -> CheckFault {
        match fault {
            TableFault::At(kind, place) => CheckFault::Table(TableFault::At(kind, place)),
            TableFault::NoMemory => CheckFault::NoMemory,
        }
    }
}

impl From<NoVerdict> for CheckFault {
    ghost use Rattle.std.specs.Prelude.{◌≡◌};
    ghost use Rattle.a429_cert.specs.Judged.{of_judge};

    ghost from_gives = { λ none e. e ≡ of_judge none };

    fn from(none: NoVerdict) -> CheckFault {
        match none {
            NoVerdict::Unfit { group, output } => CheckFault::Unfit { group, output },
            NoVerdict::NoMemory => CheckFault::NoMemory,
        }
    }
}

/// Checks a plan text against the bytes of an equipment table (profile: plan text and equipment table, versions 1 and
/// 2). Errors, in this order: `Table`, a fault of the table; `Unfit`, the first output in table order whose interval
/// allows no grid period; `NoMemory` at any time. Then the text is judged in the way of `judge`.
pub fn check(alloc: Global, table: &[u8], text: &[u8]) -> Result<Verdict, CheckFault>
    // The first line that fails, with its first reason.
    ensures answer { IfOk result (IsVerdictOnBytes table.now text.now) }
    // Of each group the text states a plan, and no schedule that serves the group has fewer buses.
    ensures fewest { IfOk result (λ v. v ≡ Verdict.Fewest → ShowsFewestOfBytes table.now text.now) }
    ensures fault { IfErr result (IsCheckFault table.now) }
{
    let equipment = read_equipment(alloc, table)?;
    Ok(judge(alloc, &equipment, text)?)
}
