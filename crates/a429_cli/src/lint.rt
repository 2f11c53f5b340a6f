//! The command `lint`.
ghost use Rattle.std.specs.Prelude.{IfOk};
ghost use Rattle.a429_arguments.specs.Given.{form_of};
ghost use Rattle.a429_arguments.specs.Requests.{asked_of};
ghost use Rattle.a429_console.specs.Readings.{HasRead};
ghost use Rattle.a429_cli.specs.Findings.{IsLint, IsLinted, IsNoLint};
ghost use Rattle.a429_cli.specs.Stamping.{IsStamped, stamp_line};
ghost use Rattle.a429_console.specs.WholeReplies.{Replies};

use crate::found::found_reply;
use crate::stamping::stamped;
use a429_arguments::requests::Asked;
use a429_console::answered::Found;
use a429_console::files::FileReader;
use a429_console::files::reading::read_file;
use a429_console::planning::read_table;
use a429_console::refusals::Refused;
use a429_console::reply::Reply;
use a429_documents::{TableFile, lint_sheet};
use a429_equipment::Equipment;
use a429_text::SheetForm;
use std::alloc::{AllocError, Global};

/// The likely mistakes in an equipment. Its rows are left for a hint.
fn lint(alloc: Global, equipment: &Equipment, form: SheetForm) -> Result<Reply, AllocError>
    ensures { IfOk result (λ reply. IsLint form equipment.now reply.status reply.bytes.items) }
{
    let sheet = lint_sheet(alloc, equipment)?;
    let reply = found_reply(alloc, &sheet, form)?;
    Ok(reply.with(Found::Rows(sheet)))
}

/// The likely mistakes in the equipment of a table, as asked for.
fn stamped_lint(
    alloc: Global,
    asked: &Asked,
    table: &[u8],
    equipment: &Equipment,
) -> Result<Reply, AllocError>
    ensures { IfOk result (λ reply. IsStamped (asked_of asked.now).given (stamp_line (asked_of asked.now).first table.now)
        (IsLint (form_of (asked_of asked.now).given) equipment.now) reply.status reply.bytes.items) }
{
    let reply = lint(alloc, equipment, asked.form())?;
    let file = TableFile {
        name: asked.first,
        bytes: table,
    };
    stamped(alloc, asked, file, reply)
}

/// The likely mistakes in the table in a file, a row for each finding. The status is 0 if there is none, otherwise 1.
/// Errors, in this order: the file is refused, or the table has a fault. `Memory` if an allocation fails.
pub fn lint_reply<F: FileReader>(
    alloc: Global,
    files: &mut F,
    asked: &Asked,
) -> Result<Reply, Refused>
    ensures { HasRead F.answers (λ file. Replies (IsLinted file (asked_of asked.now))
        (IsNoLint file (asked_of asked.now).first) result) files.old files.new }
{
    let table = read_file(alloc, files, asked.first)?;
    let equipment = read_table(alloc, &table)?;
    Ok(stamped_lint(alloc, asked, &table, &equipment)?)
}
