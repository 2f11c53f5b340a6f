//! What is judged: the bytes of files, and what is asked for.
ghost use Rattle.std.specs.Prelude.{◌≡◌};
ghost use Rattle.a429_arguments.specs.Requests.{asked_of};
ghost use Rattle.a429_console.specs.Files.{logs_of};
ghost use Rattle.a429_console.specs.Readings.{HasRead};
ghost use Rattle.a429_recordings.specs.JudgeReplies.{IsBoxReading, files_of, given_clock};

use crate::judge::words::{BoxLog, BoxPart};
use crate::logs::reading_for;
use crate::logs::views::{ClockMove, LogView};
use a429_arguments::options::OptionName;
use a429_arguments::requests::Asked;
use a429_console::files::FileReader;
use a429_console::files::reading::{read_log_files, read_logs};
use a429_console::refusals::Refused;
use a429_given::{GivenTable, TableNames};
use a429_logs::Reading;
use a429_text::SheetForm;
use std::alloc::Global;

/// Which words of the logs are judged and how, and what is printed of it.
#[derive(Clone, Copy)]
pub struct JudgeTerms<'a> {
    pub heard_view: LogView<'a>,
    pub sent_view: LogView<'a>,
    /// Whether the clock of what was sent is looked for. If one is found, it counts instead of that of the view.
    pub aligned: bool,
    /// Each is US, or GROUP=US for one group, in microseconds. The tolerance of a group without one is two slots, or half its
    /// shortest period if that is less.
    pub tolerances: &'a [&'a str],
    /// How the first line of the first log is read.
    pub reading: Reading<'a>,
    /// There is a row for each finding, instead of one for each output.
    pub events: bool,
    pub form: SheetForm,
}

/// How a request moves the times of what was sent.
fn given_clock(asked: &Asked) -> ClockMove
    ensures { result ≡ given_clock (asked_of asked.now).given }
{
    ClockMove {
        drift: asked.drift(),
        shift: asked.shift(),
    }
}

impl<'a> JudgeTerms<'a> {
    ghost use Rattle.a429_recordings.specs.JudgeReplies.{AreAskedTerms, terms_of};

    /// What a request asks for.
    pub fn of(asked: &'a Asked<'_>) -> JudgeTerms<'a>
        ensures { AreAskedTerms (asked_of asked.now).given (terms_of result) }
    {
        JudgeTerms {
            heard_view: LogView::window(asked, ClockMove::none()),
            sent_view: LogView::window(asked, given_clock(asked)),
            aligned: asked.has(OptionName::Align),
            tolerances: asked.texts(OptionName::Tolerance),
            reading: reading_for(asked),
            events: asked.has(OptionName::Events),
            form: asked.form(),
        }
    }
}

/// The bytes of the files that are judged: a table, the logs of what came in, and those of what was sent. Without one of those, the
/// logs of what came in have both.
#[derive(Drop)]
pub struct JudgeInput<'a> {
    pub table: GivenTable,
    pub heard: Vec<Vec<Vec<u8>>>,
    pub sent: Vec<Vec<Vec<u8>>>,
    pub terms: JudgeTerms<'a>,
}

impl JudgeInput<'_> {
    ghost use Rattle.a429_recordings.specs.JudgeReplies.{has_both, is_mixed, logs_of_sent};

    /// Whether the logs of what came in have what was sent too.
    #[tactic(auto, using(crate::proofs::JudgedFiles::same_count))]
    pub fn is_mixed(&self) -> bool
        ensures { result ≡ is_mixed (files_of self.now) }
    {
        self.sent.is_empty()
    }

    /// The logs that have what was sent.
    pub fn logs_of_sent(&self) -> &[Vec<Vec<u8>>]
        ensures { logs_of result.now ≡ logs_of_sent (files_of self.now) }
    {
        if self.is_mixed() {
            &self.heard
        } else {
            &self.sent
        }
    }

    /// These words of the logs.
    pub fn part(&self, log: BoxLog) -> BoxPart
        ensures { result ≡ record { log = log; is_mixed = is_mixed (files_of self.now) } }
    {
        BoxPart {
            log,
            is_mixed: self.is_mixed(),
        }
    }
}

/// Reads the files that a request names.
pub fn read_input<'a, F: FileReader>(
    alloc: Global,
    files: &mut F,
    asked: &'a Asked<'_>,
) -> Result<JudgeInput<'a>, Refused>
    ensures { HasRead F.answers (λ file. IsBoxReading file (asked_of asked.now) result) files.old files.new }
{
    let table = GivenTable::read(alloc, files, TableNames::of(asked))?;
    let heard = read_logs(alloc, files, asked.second, asked.texts(OptionName::In))?;
    let sent = read_log_files(alloc, files, &asked.more)?;
    let terms = JudgeTerms::of(asked);
    Ok(JudgeInput {
        table,
        heard,
        sent,
        terms,
    })
}
