//! Tables: their equipment and their proposals.
ghost use Rattle.std.specs.Prelude.{◌≡◌, Ok, MatchResult};
ghost use Rattle.a429_slots.specs.Faults.{IsFaultOf};
ghost use Rattle.a429_table.specs.Reading.{reading};
ghost use Rattle.a429_console.specs.RefusalText.{OrMemory};
ghost use Rattle.a429_console.specs.Tables.{IsPlanRefusal, IsProposedBy, IsTableFault, IsTableRefusal};

use crate::refusals::evidence::{Evidence, TableEvidence};
use crate::refusals::tables::plan_refusal;
use crate::refusals::{CommandRefusal, Refused};
use a429_equipment::Equipment;
use a429_slots::{NoProposal, OUTPUTS, Proposal};
use a429_table::{TableFault, read_or_keep};
use std::alloc::Global;

/// The proposal of a table's bytes. Error: the fault of the table, otherwise the first fault of its plan. `Memory` if an
/// allocation fails.
pub fn propose(alloc: Global, table: &[u8]) -> Result<Proposal<OUTPUTS>, Refused>
    ensures { MatchResult result (IsProposedBy table.now) (OrMemory (IsTableRefusal table.now)) }
{
    let equipment = read_table(alloc, table)?;
    match Proposal::of(alloc, equipment) {
        Ok(proposal) => Ok(proposal),
        Err(none) => Err(refuse_plan(none)),
    }
}

/// The refusal of an equipment that has no plan, with that equipment.
fn refuse_plan(none: NoProposal) -> Refused
    ensures { IsFaultOf none.equipment none.fault → OrMemory (IsPlanRefusal none.equipment) result }
{
    let refusal = plan_refusal(&none);
    Refused::of_table(refusal, TableEvidence::of_equipment(none.equipment))
}

/// What is done with the plan of a table. Error: the given refusal; if it has no evidence, the plan becomes its evidence.
pub fn with_plan<T: Drop>(
    done: Result<T, Refused>,
    proposal: Proposal<OUTPUTS>,
) -> Result<T, Refused>
    ensures { result ≡ done }
{
    match done {
        Ok(done) => Ok(done),
        Err(refusal) => Err(refusal.or_plan(proposal)),
    }
}

/// The equipment of a table's bytes. Error: the fault of the table, or `Memory` if an allocation fails.
pub fn read_table(alloc: Global, table: &[u8]) -> Result<Equipment, Refused>
    ensures { MatchResult result (λ t. reading table.now ≡ Ok t) (OrMemory (IsTableFault table.now)) }
{
    let mut document = None;
    match read_or_keep(alloc, table, &mut document) {
        Ok(equipment) => Ok(equipment),
        Err(TableFault::NoMemory) => Err(Refused::plain(CommandRefusal::Memory)),
        Err(TableFault::At(kind, place)) => {
            let refusal = CommandRefusal::Table(kind, place);
            Err(Refused::of_table(refusal, TableEvidence::of_text(table, document)))
        }
    }
}
