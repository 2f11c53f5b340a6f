//! Tables that commands are given, with plan texts of them.
ghost use Rattle.std.specs.Prelude.{◌≡◌, IfOk, MatchResult, None, Some};
ghost use Rattle.a429_arguments.specs.Requests.{asked_of};
ghost use Rattle.a429_console.specs.Readings.{HasRead};
ghost use Rattle.a429_console.specs.RefusalText.{OrMemory};
ghost use Rattle.a429_slots.specs.Planned.{IsPlanOf};
ghost use Rattle.a429_given.specs.GivenPlans.{IsGivenPlan, IsNoGivenPlan};
ghost use Rattle.a429_given.specs.GivenTables.{IsTableReading, named_table, table_names, table_texts};

use crate::given_plans::{followed, stays_planned};
use a429_arguments::options::OptionName;
use a429_arguments::requests::Asked;
use a429_console::files::FileReader;
use a429_console::files::reading::read_file;
use a429_console::planning::propose;
use a429_console::refusals::Refused;
use a429_slots::{OUTPUTS, Proposal};
use std::alloc::Global;

/// The names of the files of a table, and of a plan text of it if one is given.
#[derive(Clone, Copy)]
pub struct TableNames<'a> {
    pub table: &'a str,
    pub plan: Option<&'a str>,
}

impl<'a> TableNames<'a> {
    /// The table that a request names first, with the plan of `--plan`.
    pub fn of(asked: &Asked<'a>) -> TableNames<'a>
        ensures { table_names result ≡ named_table (asked_of asked.now) }
    {
        TableNames {
            table: asked.first,
            plan: asked.text(OptionName::Plan),
        }
    }
}

/// The bytes of a table, and the plan text of it if one is given.
#[derive(Drop)]
pub struct GivenTable {
    pub table: Vec<u8>,
    pub plan: Option<Vec<u8>>,
}

/// Reads the file of a table. Error: it cannot be read or is larger than 16 MiB, or an allocation failed.
fn read_own<F: FileReader>(alloc: Global, files: &mut F, table: &str) -> Result<GivenTable, Refused>
    ensures { HasRead F.answers (λ file. IsTableReading file (record { table = table.now; plan = None }) result) files.old files.new }
{
    let table = read_file(alloc, files, table)?;
    Ok(GivenTable { table, plan: None })
}

/// Reads the file of a table, then that of a plan text. Error: the first file that cannot be read or is larger than 16 MiB, or
/// an allocation failed.
fn read_both<F: FileReader>(
    alloc: Global,
    files: &mut F,
    table: &str,
    plan: &str,
) -> Result<GivenTable, Refused>
    ensures { HasRead F.answers (λ file. IsTableReading file (record { table = table.now; plan = Some plan.now }) result)
        files.old files.new }
{
    let table = read_file(alloc, files, table)?;
    let plan = read_file(alloc, files, plan)?;
    Ok(GivenTable {
        table,
        plan: Some(plan),
    })
}

impl GivenTable {
    /// Reads the files of these names: the table, then the plan. Error: the first file that cannot be read or is larger than
    /// 16 MiB, or an allocation failed.
    pub fn read<F: FileReader>(
        alloc: Global,
        files: &mut F,
        names: TableNames<'_>,
    ) -> Result<GivenTable, Refused>
        ensures { HasRead F.answers (λ file. IsTableReading file (table_names names.entry) result) files.old files.new }
    {
        match names.plan {
            Some(plan) => read_both(alloc, files, names.table, plan),
            None => read_own(alloc, files, names.table),
        }
    }

    /// The plan of the table: its own, or that of the plan text.
    fn given_plan(&self, alloc: Global) -> Result<Proposal<OUTPUTS>, Refused>
        ensures { MatchResult result (IsGivenPlan (table_texts self.now)) (OrMemory (IsNoGivenPlan (table_texts self.now))) }
    {
        match &self.plan {
            Some(plan) => followed(alloc, &self.table, plan),
            None => propose(alloc, &self.table),
        }
    }

    /// The plan on which a command works: the table's own, or that of the plan text. Errors: those of `plan_in`.
    pub fn propose(&self, alloc: Global) -> Result<Proposal<OUTPUTS>, Refused>
        ensures given { MatchResult result (IsGivenPlan (table_texts self.now)) (OrMemory (IsNoGivenPlan (table_texts self.now))) }
        ensures planned { IfOk result (λ q. IsPlanOf q.station q.plan) }
    {
        match self.given_plan(alloc) {
            Ok(proposal) => {
                stays_planned(&proposal);
                Ok(proposal)
            }
            Err(refusal) => Err(refusal),
        }
    }
}
