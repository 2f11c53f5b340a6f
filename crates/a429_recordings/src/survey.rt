//! The command `survey`.
ghost use Rattle.std.specs.Prelude.{◌≡◌, ◌∷◌, None, Ok, IfOk, MatchResult, option_map};
ghost use Rattle.a429_arguments.specs.Requests.{asked_of};
ghost use Rattle.a429_console.specs.Files.{logs_of};
ghost use Rattle.a429_console.specs.Readings.{HasRead};
ghost use Rattle.a429_console.specs.RefusalText.{OrMemory};
ghost use Rattle.a429_console.specs.WholeReplies.{Replies};
ghost use Rattle.a429_recordings.specs.Comparing.{IsSurveyed, IsUnsurveyed, SurveyedBy, UnsurveyedBy};
ghost use Rattle.a429_recordings.specs.LogItems.{PassesNone};
ghost use Rattle.a429_recordings.specs.SimulationReplies.{PassesNoAskedLine};
ghost use Rattle.a429_recordings.specs.Surveys.{IsWordFault, survey_text, text_in, words_in};

mod compare;
mod expected;

use crate::logs::keeping::{KeepFault, WordKeeper, keep_logs};
use crate::logs::reading_for;
use crate::logs::views::{ClockMove, LogView};
use crate::survey::compare::compared_reply;
use a429_arguments::options::OptionName;
use a429_arguments::requests::Asked;
use a429_console::files::FileReader;
use a429_console::files::reading::read_logs;
use a429_console::hints::warnings::Warning;
use a429_console::refusals::Refused;
use a429_console::refusals::evidence::{LineEvidence, LogRefusal};
use a429_console::reply::Reply;
use a429_logs::{Reading, StatedWord};
use a429_survey::Survey;
use a429_text::SheetForm;
use std::alloc::{AllocError, Global};
use std::str;

/// The bit rate of lines, in bit/s, if none is given: high speed (ARINC 429 Part 1).
const HIGH_SPEED: u32 = 100_000;

/// By how much intervals are widened, in per cent, if it is not given (profile).
const USUAL_SLACK: u32 = 25;

/// What a survey prints: its sheet in a form at a bit rate in bit/s, or the start of a table; and of which words.
#[derive(Clone, Copy)]
pub struct SurveyForm<'a> {
    pub rate: u32,
    /// Rows for `import` are printed, and their intervals are widened by this part of them, in per cent.
    pub slack: Option<u32>,
    pub form: SheetForm,
    pub view: LogView<'a>,
    /// How the first line of the first log is read.
    pub reading: Reading<'a>,
}

impl<'a> SurveyForm<'a> {
    ghost use Rattle.a429_arguments.specs.Requests.{asked_of};
    ghost use Rattle.a429_recordings.specs.Surveys.{IsSurveyForm};

    /// The form that a request asks for.
    pub fn of(asked: &'a Asked<'_>) -> SurveyForm<'a>
        ensures { IsSurveyForm (asked_of asked.now).given result }
    {
        let slack = if asked.has(OptionName::Rows) {
            Some(asked.number(OptionName::Slack).unwrap_or(USUAL_SLACK))
        } else {
            None
        };
        SurveyForm {
            rate: asked.number(OptionName::Rate).unwrap_or(HIGH_SPEED),
            slack,
            form: asked.form(),
            view: LogView::window(asked, ClockMove::none()),
            reading: reading_for(asked),
        }
    }
}

/// The text of a name. `None` if it is not UTF-8.
#[tactic(auto, unfolding(crate::specs::Surveys::text_in))]
fn text_in(name: &[u8]) -> Option<&str>
    ensures { option_map (λ text. text.now) result ≡ text_in name.now }
{
    match str::from_utf8(name) {
        Ok(text) => Some(text),
        Err(_) => None,
    }
}

impl WordKeeper for Survey {
    ghost use Rattle.std.specs.Prelude.{ℕ};
    ghost use Rattle.a429_survey.specs.Figures.{Noted};
    ghost use Rattle.a429_recordings.specs.LogViews.{one_item};
    ghost use Rattle.a429_recordings.specs.Surveys.{noted_of};

    ghost Item = { Noted };

    ghost items = { λ _. one_item noted_of };

    ghost kept = { λ noted. noted };

    ghost Fixed = { ℕ };

    ghost fixed = { λ _. 0 };

    /// Notes a word. Error: its name is not UTF-8, or an allocation failed.
    #[tactic(auto, using(crate::proofs::LogLines::kept_one), unfolding(crate::specs::Surveys::noted_of))]
    fn keep(&mut self, word: StatedWord<'_>) -> Result<(), KeepFault> {
        let Some(name) = text_in(word.name) else {
            return Err(KeepFault::Line(LogRefusal::Name));
        };
        match self.note(name, word.time, word.raw) {
            Ok(()) => Ok(()),
            Err(_) => Err(KeepFault::NoMemory),
        }
    }

    fn line_evidence(&self, alloc: Global, text: &[u8], line: usize) -> Option<LineEvidence> {
        LineEvidence::of(alloc, text, line).ok()
    }
}

/// The survey of logs, read one after another as if they were one. What is passed over is noted. Error: the first faulty line.
fn survey_of<'a, F: FileReader>(
    alloc: Global,
    files: &F,
    form: SurveyForm<'a>,
    logs: &'a [Vec<Vec<u8>>],
    warnings: &mut Vec<Warning>,
) -> Result<Survey, Refused>
    ensures silent { PassesNone form.entry.reading (logs_of logs.now) → warnings.new.items ≡ warnings.old.items }
    ensures survey { MatchResult result (λ survey. words_in form.entry (logs_of logs.now) ≡ Ok survey)
        (OrMemory (IsWordFault form.entry (logs_of logs.now))) }
{
    let (view, reading) = (form.view, form.reading);
    let mut survey = Survey::new(alloc);
    match keep_logs(alloc, files, &mut survey, view, reading, 0, logs, warnings) {
        Ok(_) => Ok(survey),
        Err(refusal) => Err(refusal),
    }
}

/// The sheet of a survey. Error: an allocation failed.
fn text_of(alloc: Global, survey: &Survey, form: SurveyForm<'_>) -> Result<Vec<u8>, AllocError>
    ensures { IfOk result (λ text. text.items ≡ survey_text form.entry form.entry.slack survey.now) }
{
    match form.slack {
        Some(slack) => {
            let sheet = survey.start_sheet(alloc, form.rate, slack)?;
            sheet.render(alloc, SheetForm::Csv)
        }
        None => {
            let sheet = survey.sheet(alloc, form.rate)?;
            sheet.render(alloc, form.form)
        }
    }
}

/// What is on the lines of logs, without a table.
fn plain_reply<F: FileReader>(
    alloc: Global,
    files: &mut F,
    asked: &Asked,
    warnings: &mut Vec<Warning>,
) -> Result<Reply, Refused>
    ensures silent { HasRead F.answers (λ file. PassesNoAskedLine file ((asked_of asked.now).first ∷ (asked_of asked.now).more)
        (asked_of asked.now).given → warnings.new.items ≡ warnings.old.items) files.old files.new }
    ensures answer { HasRead F.answers (λ file. Replies (SurveyedBy None file (asked_of asked.now))
        (UnsurveyedBy None file (asked_of asked.now)) result) files.old files.new }
{
    let form = SurveyForm::of(asked);
    let logs = read_logs(alloc, files, asked.first, &asked.more)?;
    let survey = survey_of(alloc, files, form, &logs, warnings)?;
    Ok(Reply::done(text_of(alloc, &survey, form)?))
}

/// What is on the lines of a log and of those that follow it, as a sheet or as rows for `import`, with status 0. If a table is
/// given, its column `table` has what that says, and the status is 1 if something is found. Errors, in this order: a file is refused,
/// that of the table first; the table has a fault; a line is faulty, as the reader of logs says, or since its name is not UTF-8.
/// `Memory` if an allocation fails. What is passed over in a log is noted.
pub fn survey_reply<F: FileReader>(
    alloc: Global,
    files: &mut F,
    asked: &Asked,
    warnings: &mut Vec<Warning>,
) -> Result<Reply, Refused>
    ensures silent { HasRead F.answers (λ file. PassesNoAskedLine file ((asked_of asked.now).first ∷ (asked_of asked.now).more)
        (asked_of asked.now).given → warnings.new.items ≡ warnings.old.items) files.old files.new }
    ensures answer { HasRead F.answers (λ file. Replies (IsSurveyed file (asked_of asked.now))
        (IsUnsurveyed file (asked_of asked.now)) result) files.old files.new }
{
    match asked.text(OptionName::Table) {
        Some(table) => compared_reply(alloc, files, table, asked, warnings),
        None => plain_reply(alloc, files, asked, warnings),
    }
}
