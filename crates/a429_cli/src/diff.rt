//! The command `diff`.
ghost use Rattle.std.specs.Prelude.{◌≡◌, ◌++◌, IfOk, MatchResult};
ghost use Rattle.a429_arguments.specs.Given.{form_of, has_given};
ghost use Rattle.a429_arguments.specs.Requests.{asked_of};
ghost use Rattle.a429_arguments.specs.declared.options.OptionName.TheVariants as option;
ghost use Rattle.a429_console.specs.Readings.{HasRead};
ghost use Rattle.a429_console.specs.RefusalText.{OrMemory};
ghost use Rattle.a429_given.specs.GivenPlans.{IsGivenPlan, IsNoGivenPlan};
ghost use Rattle.a429_given.specs.GivenTables.{table_names, table_texts};
ghost use Rattle.a429_documents.specs.Diff.{diff_columns, diff_rows};
ghost use Rattle.a429_cli.specs.Findings.{AnswersDiff, IsDiffBetween, IsFound, IsNoDiffBetween, other_table};
ghost use Rattle.a429_cli.specs.Stamping.{IsStamped, stamp_line};
ghost use Rattle.a429_console.specs.WholeReplies.{Replies};

use crate::found::found_reply;
use crate::stamping::stamped_both;
use a429_arguments::options::OptionName;
use a429_arguments::requests::Asked;
use a429_console::answered::Found;
use a429_console::files::FileReader;
use a429_console::refusals::Refused;
use a429_console::reply::Reply;
use a429_documents::{TableFile, diff_sheet};
use a429_given::{GivenTable, TableNames};
use a429_slots::{OUTPUTS, Proposal};
use a429_text::SheetForm;
use std::alloc::{AllocError, Global};

/// The plan of the second of two tables. Error: there is none.
fn propose_second(alloc: Global, table: &GivenTable) -> Result<Proposal<OUTPUTS>, Refused>
    ensures { MatchResult result (IsGivenPlan (table_texts table.now)) (OrMemory (IsNoGivenPlan (table_texts table.now))) }
{
    match table.propose(alloc) {
        Ok(proposal) => Ok(proposal),
        Err(refusal) => Err(refusal.of_second_table()),
    }
}

/// What changes from one plan to another. Its rows are left for a hint. Error: an allocation failed.
fn diff_of(
    alloc: Global,
    first: &Proposal<OUTPUTS>,
    second: &Proposal<OUTPUTS>,
    all: bool,
    form: SheetForm,
) -> Result<Reply, AllocError>
    ensures { IfOk result (λ reply. IsFound form diff_columns (diff_rows first.now second.now all) reply.status reply.bytes.items) }
{
    let sheet = diff_sheet(alloc, first, second, all)?;
    let reply = found_reply(alloc, &sheet, form)?;
    Ok(reply.with(Found::Rows(sheet)))
}

/// What changes from the plan of a table to that of another. The first table is refused first, then its plan, then the
/// second table, then its plan.
fn diff_between(
    alloc: Global,
    table: &GivenTable,
    other: &GivenTable,
    all: bool,
    form: SheetForm,
) -> Result<Reply, Refused>
    ensures { Replies (IsDiffBetween all form (table_texts table.now) (table_texts other.now))
        (IsNoDiffBetween (table_texts table.now) (table_texts other.now)) result }
{
    let first = table.propose(alloc)?;
    let second = propose_second(alloc, other)?;
    Ok(diff_of(alloc, &first, &second, all, form)?)
}

/// What changes from one plan to another, as asked for.
fn stamped_diff(
    alloc: Global,
    asked: &Asked,
    table: &GivenTable,
    other: &GivenTable,
) -> Result<Reply, Refused>
    ensures { Replies (IsStamped (asked_of asked.now).given
        (stamp_line (asked_of asked.now).first (table_texts table.now).table ++ stamp_line (asked_of asked.now).second (table_texts other.now).table)
        (IsDiffBetween (has_given (asked_of asked.now).given option.All) (form_of (asked_of asked.now).given)
        (table_texts table.now) (table_texts other.now))) (IsNoDiffBetween (table_texts table.now) (table_texts other.now)) result }
{
    let reply = diff_between(
        alloc,
        table,
        other,
        asked.has(OptionName::All),
        asked.form(),
    )?;
    let first = TableFile {
        name: asked.first,
        bytes: &table.table,
    };
    let second = TableFile {
        name: asked.second,
        bytes: &other.table,
    };
    Ok(stamped_both(alloc, asked, first, second, reply)?)
}

/// The second table that a request names, with the plan of `--other-plan`.
fn other_names<'a>(asked: &Asked<'a>) -> TableNames<'a>
    ensures { table_names result ≡ other_table (asked_of asked.now) }
{
    TableNames {
        table: asked.second,
        plan: asked.text(OptionName::OtherPlan),
    }
}

/// What changes from the plan of the table in a file to that of the table in another, a row for each thing that differs.
/// Each plan is the table's own, or that of a plan text if one is given.
/// With `--all` each output that only changes its place has a row, otherwise one row has their number. The status is 0 if
/// nothing changes, otherwise 1. Errors, in this order: a file is refused; a table has a fault or no
/// plan, or a line of its plan text is refused. `Memory` if an allocation fails.
pub fn diff_reply<F: FileReader>(
    alloc: Global,
    files: &mut F,
    asked: &Asked,
) -> Result<Reply, Refused>
    ensures { HasRead F.answers (λ file. AnswersDiff file (asked_of asked.now) result) files.old files.new }
{
    let table = GivenTable::read(alloc, files, TableNames::of(asked))?;
    let other = GivenTable::read(alloc, files, other_names(asked))?;
    stamped_diff(alloc, asked, &table, &other)
}
