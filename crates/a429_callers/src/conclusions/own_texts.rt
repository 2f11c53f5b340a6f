//! The text of a table's own plan.
ghost use Rattle.std.specs.Prelude.{◌≡◌, ◌⊎◌, Ok, Err, IfSome};

use a429_cert::laws::own_text_is_fewest;
use a429_cert::{CheckFault, Verdict, check, plan_text};
use a429_slots::Proposal;
use a429_table::read_equipment;
use std::alloc::Global;

/// What the check of the text of a table's own plan answers: that it shows the fewest buses. Error: an allocation failed.
/// `None` if the table has a fault or no plan, or if there was no memory for its plan or text.
pub fn own_text_checked(alloc: Global, table: &[u8]) -> Option<Result<Verdict, CheckFault>>
    ensures { IfSome result (λ r. (r ≡ Ok Verdict.Fewest) ⊎ (r ≡ Err CheckFault.NoMemory)) }
{
    own_text_is_fewest();
    let Ok(equipment) = read_equipment(alloc, table) else {
        return None;
    };
    equipment.rows_are_sound();
    let Ok(proposal) = Proposal::of(alloc, equipment) else {
        return None;
    };
    let Ok(text) = plan_text(alloc, &proposal) else {
        return None;
    };
    Some(check(alloc, table, &text))
}
