//! The logs of a box, noted.
ghost use Rattle.std.specs.Prelude.{◌≡◌, false, true};
ghost use Rattle.a429_console.specs.Files.{logs_of};
ghost use Rattle.a429_arguments.specs.Texts.{texts_of};
ghost use Rattle.a429_console.specs.Names.{naming_of};
ghost use Rattle.a429_judge.specs.Recordings.{nothing_noted};
ghost use Rattle.a429_recordings.specs.BoxLogs.{IsLaterNoting, IsNoting, IsSentNoting, part_word_by, restarted, texts_of_logs};
ghost use Rattle.a429_recordings.specs.JudgedPlans.{all_duties};
ghost use Rattle.a429_recordings.specs.JudgeReplies.{IsRecorded, PassesNoneOf, aligned_by, files_of, is_mixed, view_on};
ghost use Rattle.a429_recordings.specs.LogItems.{PassesNone};
ghost use Rattle.a429_recordings.specs.LogViews.{view_of};
ghost use Rattle.a429_recordings.specs.declared.judge.words.BoxLog.TheVariants.{Heard};

use crate::judge::duties::all_duties;
use crate::judge::input::JudgeInput;
use crate::judge::noting::{LogTexts, NotedLogs, PartLogs, note_logs};
use crate::judge::spans::meet;
use crate::judge::words::{BoxLog, BoxPart};
use crate::logs::views::{ClockMove, LogView};
use a429_align::Alignment;
use a429_console::files::FileReader;
use a429_console::hints::warnings::Warning;
use a429_console::refusals::{CommandRefusal, Refused};
use a429_equipment::Equipment;
use a429_judge::Judge;
use a429_logs::{Clock, Reading};
use a429_replay::Names;
use a429_slots::{OUTPUTS, Proposal};
use std::alloc::Global;

/// The logs that have what was sent: which of their words are taken, whether they have what came in too, how many logs are before
/// them, and their texts.
#[derive(Drop)]
pub struct SentLogs<'a> {
    pub view: LogView<'a>,
    pub is_mixed: bool,
    pub first: usize,
    pub texts: Vec<Vec<Vec<u8>>>,
}

/// How the first line of the logs of what was sent is read, after those of what came in: its times begin again. If no word
/// came in, they are counted from the first.
pub fn restarted(reading: Reading<'_>) -> Reading<'_>
    ensures { result ≡ restarted reading.entry }
{
    let base = match reading.clock.base {
        Some(_) => Some(0),
        None => None,
    };
    Reading {
        shape: None,
        calendar: reading.calendar.begun_again(),
        clock: Clock { base, last: 0 },
        ..reading
    }
}

/// Which words of what was sent are taken, on the clock that is found, otherwise on that which is given.
fn sent_view<'a>(view: LogView<'a>, found: Option<Alignment>) -> LogView<'a>
    ensures { view_of result ≡ view_on found (view_of view.entry) }
{
    match found {
        Some(alignment) => view.on_clock(ClockMove {
            drift: alignment.drift,
            shift: alignment.shift,
        }),
        None => view,
    }
}

/// Notes what was sent, after what came in was noted. What is passed over in logs that have both is not noted again. Error: the first
/// faulty line.
fn note_sent<'a, F: FileReader>(
    alloc: Global,
    files: &F,
    equipment: &Equipment,
    names: &Names,
    heard: NotedLogs<'a>,
    logs: SentLogs<'a>,
    warnings: &mut Vec<Warning>,
) -> Result<NotedLogs<'a>, Refused>
    ensures silent { logs.entry.is_mixed ≡ false → PassesNone (restarted heard.entry.next) (logs_of logs.entry.texts.items)
        → warnings.new.items ≡ warnings.old.items }
    ensures mixed { logs.entry.is_mixed ≡ true → warnings.new.items ≡ warnings.old.items }
    ensures noted { IsSentNoting equipment.now names.now (view_of logs.entry.view) logs.entry.is_mixed heard.entry.next
        (logs_of logs.entry.texts.items) heard.entry.judge result }
{
    let part = PartLogs {
        view: logs.view.after(heard.next),
        part: BoxPart {
            log: BoxLog::Sent,
            is_mixed: logs.is_mixed,
        },
        reading: restarted(heard.next),
        first: logs.first,
    };
    let (texts, judge) = (LogTexts::Freed(logs.texts), heard.judge);
    if logs.is_mixed {
        let mut passed: Vec<Warning> = Vec::new(alloc);
        return note_logs(
            alloc,
            files,
            equipment,
            names,
            part,
            texts,
            judge,
            &mut passed,
        );
    }
    match note_logs(alloc, files, equipment, names, part, texts, judge, warnings) {
        Ok(noted) => Ok(noted),
        Err(refusal) => Err(refusal.after_logs(logs.first)),
    }
}

/// Notes what was sent, if both logs have a time in common. Errors: the first faulty line; they have none.
fn note_later<'a, F: FileReader>(
    alloc: Global,
    files: &F,
    equipment: &Equipment,
    names: &Names,
    heard: NotedLogs<'a>,
    logs: SentLogs<'a>,
    warnings: &mut Vec<Warning>,
) -> Result<Judge, Refused>
    ensures silent { logs.entry.is_mixed ≡ false → PassesNone (restarted heard.entry.next) (logs_of logs.entry.texts.items)
        → warnings.new.items ≡ warnings.old.items }
    ensures mixed { logs.entry.is_mixed ≡ true → warnings.new.items ≡ warnings.old.items }
    ensures noted { IsLaterNoting equipment.now names.now (view_of logs.entry.view) logs.entry.is_mixed heard.entry
        (logs_of logs.entry.texts.items) result }
{
    let span = heard.span;
    match note_sent(alloc, files, equipment, names, heard, logs, warnings) {
        Ok(sent) if meet(span, sent.span) => Ok(sent.judge),
        Ok(_) => Err(Refused::plain(CommandRefusal::Apart)),
        Err(refusal) => Err(refusal),
    }
}

/// Notes what came in. Error: the first faulty line.
fn note_heard<'a, F: FileReader>(
    alloc: Global,
    files: &F,
    proposal: &Proposal<OUTPUTS>,
    names: &Names,
    tolerances: &[&str],
    logs: PartLogs<'a>,
    texts: LogTexts<'_>,
    warnings: &mut Vec<Warning>,
) -> Result<NotedLogs<'a>, Refused>
    ensures silent { PassesNone logs.entry.reading (texts_of_logs texts.entry) → warnings.new.items ≡ warnings.old.items }
    ensures noted { IsNoting proposal.now.station logs.entry.part.log (part_word_by names.now (view_of logs.entry.view) logs.entry.part)
        logs.entry.reading (texts_of_logs texts.entry) (nothing_noted (all_duties proposal.now (texts_of tolerances.now))) result }
{
    let duties = all_duties(alloc, proposal, tolerances)?;
    let judge = Judge::new(alloc, duties)?;
    let equipment = proposal.equipment();
    note_logs(alloc, files, equipment, names, logs, texts, judge, warnings)
}

/// How what came in is read.
fn heard_part<'a>(input: &JudgeInput<'a>, reading: Reading<'a>) -> PartLogs<'a>
    ensures view { result.view ≡ input.now.terms.heard_view }
    ensures part { result.part ≡ record { log = Heard; is_mixed = is_mixed (files_of input.now) } }
    ensures reading { result.reading ≡ reading.entry }
{
    PartLogs {
        view: input.terms.heard_view,
        part: input.part(BoxLog::Heard),
        reading,
        first: 0,
    }
}

/// The words of the logs, noted, on the clock that is found, otherwise on that which is given. Errors: the first faulty line;
/// the two logs have no time in common.
pub fn read_notes<'a, F: FileReader>(
    alloc: Global,
    files: &F,
    proposal: &Proposal<OUTPUTS>,
    names: &Names,
    input: JudgeInput<'a>,
    found: Option<Alignment>,
    reading: Reading<'a>,
    warnings: &mut Vec<Warning>,
) -> Result<Judge, Refused>
    requires { names.now ≡ naming_of proposal.now.station }
    ensures silent { PassesNoneOf (files_of input.entry) reading.entry → warnings.new.items ≡ warnings.old.items }
    ensures recorded { IsRecorded proposal.now (aligned_by found (files_of input.entry)) reading.entry result }
{
    let part = heard_part(&input, reading);
    let (view, is_mixed) = (sent_view(input.terms.sent_view, found), input.is_mixed());
    let equipment = proposal.equipment();
    let tolerances = input.terms.tolerances;
    let JudgeInput { heard, sent, .. } = input;
    if is_mixed {
        let texts = LogTexts::Kept(&heard);
        return match note_heard(
            alloc, files, proposal, names, tolerances, part, texts, warnings,
        ) {
            Ok(noted) => {
                let logs = SentLogs {
                    view,
                    is_mixed,
                    first: 0,
                    texts: heard,
                };
                note_later(alloc, files, equipment, names, noted, logs, warnings)
            }
            Err(refusal) => Err(refusal),
        };
    }
    let logs = SentLogs {
        view,
        is_mixed,
        first: heard.len(),
        texts: sent,
    };
    let texts = LogTexts::Freed(heard);
    match note_heard(
        alloc, files, proposal, names, tolerances, part, texts, warnings,
    ) {
        Ok(noted) => note_later(alloc, files, equipment, names, noted, logs, warnings),
        Err(refusal) => Err(refusal),
    }
}
