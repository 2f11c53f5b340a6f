//! A run of the station, from files to its report.
ghost use Rattle.std.specs.Prelude.{◌≡◌, IfOk, MatchResult, vec_len};
ghost use Rattle.a429_console.specs.Files.{bytes_of};
ghost use Rattle.a429_slots.specs.Planned.{IsPlanOf};
ghost use Rattle.a429_live.specs.LiveReplies.{IsLiveReading, IsLiveRefusal, IsNoLiveStart, IsPreparedLive, IsReportOf, IsRunResult, TakesLive, files_of, refusal_of};
ghost use Rattle.a429_live.specs.WordsFile.{IsWordsReading};
ghost use Rattle.a429_console.specs.Names.{naming_of};
ghost use Rattle.a429_arguments.specs.Requests.{asked_of};
ghost use Rattle.a429_console.specs.Readings.{HasRead};
ghost use Rattle.a429_console.specs.RefusalText.{OrMemory};
ghost use Rattle.a429_console.specs.Tables.{IsTakenBy};
ghost use Rattle.a429_console.specs.WholeReplies.{IsDone, Replies};
ghost use Rattle.std.specs.List.{AllByRecursion};

use crate::control::Resubmits;
use crate::progress::{Progress, ProgressGate};
use crate::report::report_reply;
use crate::words::{Arrival, line_sources, read_words};
use a429_arguments::requests::Asked;
use a429_console::files::FileReader;
use a429_console::files::reading::{read_file, read_files};
use a429_console::hints::warnings::Warning;
use a429_console::refusals::evidence::Evidence;
use a429_console::refusals::{CommandRefusal, Refused};
use a429_console::reply::Reply;
use a429_equipment::Equipment;
use a429_given::{GivenTable, TableNames};
use a429_replay::Names;
use a429_slots::laws::plans_are_unique;
use a429_slots::{OUTPUTS, Plan, Proposal};
use a429_station::{LiveFault, live_planned};
use a429_workers::CountSink;
use std::alloc::{AllocError, Global};
use std::sync::Wait;
use std::thread::Threads;

/// The bytes of the files that a run reads.
#[derive(Drop)]
struct LiveInput {
    table: GivenTable,
    words: Vec<u8>,
    further: Vec<Vec<u8>>,
}

/// A station and the words that come in.
#[derive(Drop)]
struct PreparedRun {
    proposal: Proposal<OUTPUTS>,
    arrivals: Vec<Arrival>,
}

/// Reads the files of a run, in the order of the command line.
fn read_input<F: FileReader>(
    alloc: Global,
    files: &mut F,
    asked: &Asked,
) -> Result<LiveInput, Refused>
    ensures { HasRead F.answers (λ file. IsLiveReading file (asked_of asked.now) result) files.old files.new }
{
    let table = GivenTable::read(alloc, files, TableNames::of(asked))?;
    let words = read_file(alloc, files, asked.second)?;
    let further = read_files(alloc, files, &asked.more)?;
    Ok(LiveInput {
        table,
        words,
        further,
    })
}

/// The words of a file for the receivers of a station. Error: the file is refused.
fn read_arrivals(
    alloc: Global,
    equipment: &Equipment,
    words: &[u8],
) -> Result<Vec<Arrival>, Refused>
    ensures { IsWordsReading (naming_of equipment.now) words.now result }
{
    let names = Names::of(alloc, equipment)?;
    read_words(alloc, &names, words)
}

/// The station and the words that are given. Error: the table, its plan, or the file of words is refused.
fn prepare(alloc: Global, input: &LiveInput) -> Result<PreparedRun, Refused>
    ensures { MatchResult result (IsPreparedLive (files_of input.now)) (OrMemory (IsNoLiveStart (files_of input.now))) }
{
    let proposal = input.table.propose(alloc)?;
    let arrivals = read_arrivals(alloc, proposal.equipment(), &input.words)?;
    Ok(PreparedRun { proposal, arrivals })
}

/// This number of sinks, which count their cells.
fn count_sinks(alloc: Global, groups: usize) -> Result<Vec<CountSink>, AllocError>
    ensures { IfOk result (λ sinks. vec_len sinks ≡ groups) }
{
    let mut sinks = Vec::new(alloc);
    while sinks.len() < groups {
        sinks.push(CountSink::new())?;
    }
    Ok(sinks)
}

/// How many threads a run needs: one for each receiver and each group.
fn threads_of(equipment: &Equipment) -> usize {
    equipment.rows_are_sound();
    equipment.receivers().len() + equipment.groups().len()
}

/// The refusal for a fault of a run. The plan was made before, so a fault of it now means that an allocation failed.
fn run_refusal(equipment: &Equipment, fault: LiveFault) -> Refused
    ensures { result ≡ refusal_of fault }
{
    let refusal = match fault {
        LiveFault::TooMuch => CommandRefusal::TooMuch,
        LiveFault::Join => CommandRefusal::Join,
        LiveFault::Source => CommandRefusal::Source,
        LiveFault::Gate => CommandRefusal::Gate,
        LiveFault::Sink => CommandRefusal::Sink,
        LiveFault::Plan(_) | LiveFault::NoMemory => CommandRefusal::Memory,
    };
    Refused::with(refusal, Evidence::Threads(threads_of(equipment)))
}

/// Runs a station with the words of its receivers for this number of frames, and resubmits further tables during the
/// run. Answers the report. The further tables whose plans the station does not take are noted.
fn run<'a, R: Threads + Wait, P: Progress + Sync>(
    rt: &R,
    alloc: Global,
    equipment: &'a Equipment,
    plan: &Plan<OUTPUTS>,
    arrivals: &[Arrival],
    frames: u32,
    further: &'a [Vec<u8>],
    gate: &ProgressGate<P>,
    warnings: &mut Vec<Warning>,
) -> Result<Reply, Refused>
    requires planned { IsPlanOf equipment.now plan.now }
    ensures report { IsRunResult equipment.now arrivals.now frames (bytes_of further.now) result }
    ensures taken { AllByRecursion (IsTakenBy equipment.now) (bytes_of further.now) → warnings.new.items ≡ warnings.old.items }
{
    plans_are_unique();
    let sources = line_sources(alloc, arrivals, equipment.receivers().len())?;
    let sinks = count_sinks(alloc, equipment.groups().len())?;
    let mut control = Resubmits::new(alloc, equipment, further);
    match live_planned(
        rt,
        alloc,
        equipment,
        *plan,
        sources,
        sinks,
        frames,
        gate,
        &mut control,
    ) {
        Ok(report) => {
            control.hand_warnings(warnings);
            report_reply(alloc, equipment, further, &control.answers, &report)
        }
        Err(fault) => Err(run_refusal(equipment, fault)),
    }
}

/// Runs the station of a table, by its own plan or that of a plan text, on threads of its own. Answers the report of the run, with status
/// 0. While the station runs, `progress` gets reports of its progress. Error: a file, the table, its plan, the file of words, or the run
/// is refused. The run is refused as `TooMuch` for more than a million frames or words of a receiver, and as `Join` if a thread could
/// not be started or joined.
pub fn run_station<R: Threads + Wait, F: FileReader, P: Progress + Sync>(
    rt: &R,
    alloc: Global,
    files: &mut F,
    asked: &Asked,
    warnings: &mut Vec<Warning>,
    progress: &P,
) -> Result<Reply, Refused>
    ensures report { HasRead F.answers (λ file. Replies (IsDone (IsReportOf file (asked_of asked.now)))
        (IsLiveRefusal file (asked_of asked.now)) result) files.old files.new }
    ensures taken { HasRead F.answers (λ file. TakesLive file (asked_of asked.now)
        → warnings.new.items ≡ warnings.old.items) files.old files.new }
{
    let input = read_input(alloc, files, asked)?;
    let prepared = prepare(alloc, &input)?;
    let equipment = prepared.proposal.equipment();
    let (arrivals, further) = (&prepared.arrivals, &input.further);
    let frames = asked.number;
    let plan = prepared.proposal.plan();
    let gate = ProgressGate::begin(progress, plan, frames);
    let result = run(
        rt, alloc, equipment, plan, arrivals, frames, further, &gate, warnings,
    );
    progress.end();
    result
}
