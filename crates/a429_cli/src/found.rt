//! Rows of what was found, and the status that says whether there are any.
ghost use Rattle.std.specs.Prelude.{◌≡◌, ◌≤◌, IfOk};
ghost use Rattle.a429_cli.specs.Findings.{IsFound, found_status, names_of};

use a429_console::answered::Found;
use a429_console::reply::Reply;
use a429_text::{Rows, Sheet, SheetForm};
use std::alloc::{AllocError, Global};

/// The status that belongs to rows: 0 if there is none, otherwise 1. Error: an allocation for a row failed.
fn found_status(rows: &Rows) -> Result<u8, AllocError>
    ensures due { IfOk result (λ status. status ≡ found_status rows.now) }
    ensures few { IfOk result (λ status. status ≤ 1) }
{
    let rows = rows.as_slice()?;
    Ok(if rows.is_empty() { 0 } else { 1 })
}

/// Rows that were found, in a form. Error: an allocation failed.
pub fn found_reply(alloc: Global, sheet: &Sheet, form: SheetForm) -> Result<Reply, AllocError>
    ensures { IfOk result (λ reply. IsFound form (names_of sheet.now) sheet.now.rows reply.status reply.bytes.items) }
{
    let status = found_status(&sheet.rows)?;
    let bytes = sheet.render(alloc, form)?;
    Ok(Reply {
        bytes,
        status,
        found: Found::Nothing,
    })
}
