//! `survey --table`: what is on the lines of logs, and what a table says of it.
ghost use Rattle.std.specs.Prelude.{◌≡◌, ◌∷◌, IfOk, Some};
ghost use Rattle.a429_arguments.specs.Requests.{asked_of};
ghost use Rattle.a429_console.specs.Files.{logs_of};
ghost use Rattle.a429_console.specs.Readings.{HasRead};
ghost use Rattle.a429_console.specs.WholeReplies.{Replies};
ghost use Rattle.a429_recordings.specs.Comparing.{AreCompared, IsCompared, IsComparedSheet, IsUncompared, SurveyedBy, UnsurveyedBy};
ghost use Rattle.a429_recordings.specs.LogItems.{PassesNone};
ghost use Rattle.a429_recordings.specs.SimulationReplies.{PassesNoAskedLine};
ghost use Rattle.a429_recordings.specs.Surveys.{IsWordFault};

use crate::survey::expected::expected_by;
use crate::survey::{SurveyForm, survey_of};
use a429_arguments::requests::Asked;
use a429_console::answered::Found;
use a429_console::files::FileReader;
use a429_console::files::reading::{read_file, read_logs};
use a429_console::hints::warnings::Warning;
use a429_console::planning::read_table;
use a429_console::refusals::Refused;
use a429_console::reply::{Reply, finding_status};
use a429_equipment::Equipment;
use a429_survey::{Survey, has_finding};
use std::alloc::{AllocError, Global};

/// The sheet of a survey with what a table says, which is left for a hint. Error: an allocation failed.
fn sheet_of(
    alloc: Global,
    survey: &Survey,
    equipment: &Equipment,
    form: SurveyForm<'_>,
) -> Result<Reply, AllocError>
    ensures { IfOk result (λ reply. IsComparedSheet form.entry equipment.now survey.now reply.status reply.bytes.items) }
{
    let expected = expected_by(alloc, equipment)?;
    let sheet = survey.compared_sheet(alloc, form.rate, &expected)?;
    let status = finding_status(has_finding(&sheet.rows)?);
    let bytes = sheet.render(alloc, form.form)?;
    Ok(Reply {
        bytes,
        status,
        found: Found::Rows(sheet),
    })
}

/// What is on the lines of logs, with what a table says. What is passed over is noted. Error: the first faulty line.
fn compare_words<'a, F: FileReader>(
    alloc: Global,
    files: &F,
    equipment: &Equipment,
    logs: &'a [Vec<Vec<u8>>],
    form: SurveyForm<'a>,
    warnings: &mut Vec<Warning>,
) -> Result<Reply, Refused>
    ensures silent { PassesNone form.entry.reading (logs_of logs.now) → warnings.new.items ≡ warnings.old.items }
    ensures replied { Replies (AreCompared equipment.now form.entry (logs_of logs.now)) (IsWordFault form.entry (logs_of logs.now)) result }
{
    let survey = survey_of(alloc, files, form, logs, warnings)?;
    Ok(sheet_of(alloc, &survey, equipment, form)?)
}

/// What is on the lines of logs, with what the table of these bytes says. Errors: the table's fault; the first faulty line.
fn compare_bytes<'a, F: FileReader>(
    alloc: Global,
    files: &F,
    table: &[u8],
    logs: &'a [Vec<Vec<u8>>],
    form: SurveyForm<'a>,
    warnings: &mut Vec<Warning>,
) -> Result<Reply, Refused>
    ensures silent { PassesNone form.entry.reading (logs_of logs.now) → warnings.new.items ≡ warnings.old.items }
    ensures compared { Replies (IsCompared table.now form.entry (logs_of logs.now))
        (IsUncompared table.now form.entry (logs_of logs.now)) result }
{
    let equipment = read_table(alloc, table)?;
    compare_words(alloc, files, &equipment, logs, form, warnings)
}

/// What is on the lines of logs, as a sheet, with what the table in the file of this name says of each label and SDI, and what is
/// missing. The table need not have a plan. Errors, in this order: a file cannot be read, that of the table first; the table has a
/// fault; a log has a faulty line. `Memory` if an allocation fails. What is passed over is noted.
pub fn compared_reply<F: FileReader>(
    alloc: Global,
    files: &mut F,
    table: &str,
    asked: &Asked,
    warnings: &mut Vec<Warning>,
) -> Result<Reply, Refused>
    ensures silent { HasRead F.answers (λ file. PassesNoAskedLine file ((asked_of asked.now).first ∷ (asked_of asked.now).more)
        (asked_of asked.now).given → warnings.new.items ≡ warnings.old.items) files.old files.new }
    ensures answer { HasRead F.answers (λ file. Replies (SurveyedBy (Some table.now) file (asked_of asked.now))
        (UnsurveyedBy (Some table.now) file (asked_of asked.now)) result) files.old files.new }
{
    let form = SurveyForm::of(asked);
    let table = read_file(alloc, files, table)?;
    let logs = read_logs(alloc, files, asked.first, &asked.more)?;
    compare_bytes(alloc, files, &table, &logs, form, warnings)
}
