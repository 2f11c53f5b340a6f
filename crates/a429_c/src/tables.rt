//! Tables: their proposals, or why there is none.
ghost use Rattle.std.specs.Prelude.{◌≡◌, MatchResult, option_map};
ghost use Rattle.a429_console.specs.RefusalText.{refusal_line};
ghost use Rattle.a429_c.specs.Calls.{kept_text, text_in};
ghost use Rattle.a429_c.specs.Openings.{HasProposal, IsNoProposal, IsPutAs, IsPutFor, given_length};
ghost use Rattle.a429_c.specs.Statuses.{table_code};
ghost use Rattle.a429_c.specs.declared.tables.TableRefusal.{TableRefusal};

use crate::refusal_text::RefusalText;
use crate::statuses::{Status, table_code};
use a429_console::refusals::CommandRefusal;
use a429_given::plan_in;
use a429_slots::{OUTPUTS, Proposal};
use std::alloc::Global;
use std::io::Write;

/// The greatest table or plan text, in bytes: 16 MiB.
const TABLE_LIMIT: usize = 16_777_216;

/// Why a table is refused.
#[derive(Drop)]
pub enum TableRefusal {
    /// For a cause of the call.
    Call(Status),
    /// The table, its plan or a plan text has a fault, or an allocation failed. Its text is the line that the program prints.
    Table(CommandRefusal),
}

/// How many bytes a plan text has, if one is given.
fn given_length(plan: Option<&[u8]>) -> usize
    ensures { result ≡ given_length (option_map (λ p. p.now) plan.entry) }
{
    match plan {
        Some(plan) => plan.len(),
        None => 0,
    }
}

/// The proposal of a table's bytes: its own plan, or that of a plan text if one is given. Error: one of them has more than
/// 16 MiB, the table or its plan has a fault, a line of the text is refused, or an allocation failed.
pub(crate) fn read_proposal(
    alloc: Global,
    table: &[u8],
    plan: Option<&[u8]>,
) -> Result<Proposal<OUTPUTS>, TableRefusal>
    ensures { MatchResult result (HasProposal table.now (option_map (λ p. p.now) plan.entry))
        (IsNoProposal table.now (option_map (λ p. p.now) plan.entry)) }
{
    if table.len() > TABLE_LIMIT || given_length(plan) > TABLE_LIMIT {
        return Err(TableRefusal::Call(Status::TooLarge));
    }
    match plan_in(alloc, table, plan) {
        Ok(proposal) => Ok(proposal),
        Err(refusal) => Err(TableRefusal::Table(refusal.into_parts().0)),
    }
}

/// Keeps the text of a refusal, and gives its number. If an allocation for the text fails, they are those of `refused
/// memory`.
pub(crate) fn refuse_table(
    alloc: Global,
    refusal: TableRefusal,
    refusal_text: &mut RefusalText,
) -> u32
    ensures { (put : TableRefusal) × IsPutFor refusal put × IsPutAs put result (text_in refusal_text.new) }
{
    match refusal {
        TableRefusal::Call(status) => refusal_text.refuse(status),
        TableRefusal::Table(refusal) => {
            let mut line = Vec::new(alloc);
            match write!(line, "{refusal}") {
                Ok(()) => {
                    refusal_text.keep(&line);
                    table_code(&refusal)
                }
                Err(_) => refusal_text.refuse(Status::Memory),
            }
        }
    }
}
