//! Stations that run, on threads of their own. The words: 00000080 has label 001, 00000040 has 002, 80000021 has 204.
ghost use Rattle.std.specs.Prelude.{◌≡◌, length, vec_len};

mod holds;
mod in_turn;
mod spacing;
mod stopping;

use crate::devices::{FailingLine, FailingSink, line_of, sink_of};
use crate::support::{EVEN, FIRST, HELD, ONE, SECOND, THREE, THREE_FASTER, TWO, let_go, read};
use a429_equipment::Equipment;
use a429_station::{Control, LiveFault, Report, Station, live};
use a429_word::Word;
use a429_workers::{Gate, ReceiveTotals, Sent};
use holds::{CONTROL, Held, MarksRun, TURNS, gate};
use spacing::count_spaced_words;
use std::alloc::{AllocError, Global};
use std::process::Abort;
use std::sync::Wait;
use std::sync::atomic::{AtomicU64, Ordering};
use std::thread::Threads;
use std::time::Clock;

/// What a station is to do.
#[derive(Clone, Copy)]
struct Setup<'a> {
    table: &'a str,
    /// The words of each line.
    words: &'a [&'a [u32]],
    frames: u32,
    /// Whether the second line fails after its first word, and each sink after its first cell.
    line_fails: bool,
    sinks_fail: bool,
}

/// What a station is to do whose devices do not fail.
fn setup_of<'a>(table: &'a str, words: &'a [&'a [u32]], frames: u32) -> Setup<'a> {
    Setup {
        table,
        words,
        frames,
        line_fails: false,
        sinks_fail: false,
    }
}

/// The call in which a device fails: its second, or none.
fn failing(fails: bool) -> u64 {
    if fails { 2 } else { 0 }
}

/// Adds a line.
fn push_line<R: Abort>(rt: &R, lines: &mut Vec<FailingLine>, line: FailingLine) {
    lines.push(line).expect(rt, "memory");
}

fn lines_of<R: Abort>(rt: &R, alloc: Global, setup: &Setup<'_>) -> Vec<FailingLine> {
    let mut lines = Vec::new(alloc);
    for words in setup.words {
        let fails = setup.line_fails && lines.len() == 1;
        push_line(rt, &mut lines, line_of(rt, alloc, *words, failing(fails)));
    }
    lines
}

fn sinks_of<R: Abort>(rt: &R, alloc: Global, count: usize, fail: bool) -> Vec<FailingSink> {
    let mut sinks = Vec::new(alloc);
    for _ in 0..count {
        sinks
            .push(sink_of(alloc, failing(fail)))
            .expect(rt, "memory");
    }
    sinks
}

/// The lines of all receivers.
fn lines_for<R: Abort>(
    rt: &R,
    alloc: Global,
    setup: &Setup<'_>,
    equipment: &Equipment,
) -> Vec<FailingLine>
    ensures { vec_len result ≡ length equipment.now.receivers }
{
    let lines = lines_of(rt, alloc, setup);
    assert!(rt; lines.len() == equipment.receivers().len());
    lines
}

/// The sinks of all groups.
fn sinks_for<R: Abort>(
    rt: &R,
    alloc: Global,
    setup: &Setup<'_>,
    equipment: &Equipment,
) -> Vec<FailingSink>
    ensures { vec_len result ≡ length equipment.now.groups }
{
    let sinks = sinks_of(rt, alloc, equipment.groups().len(), setup.sinks_fail);
    assert!(rt; sinks.len() == equipment.groups().len());
    sinks
}

type Devices = Report<FailingLine, FailingSink>;

/// Runs a station of this equipment.
fn run_with<R: Threads + Wait + Abort, G: Gate + Sync, K: Control<R>>(
    rt: &R,
    alloc: Global,
    equipment: &Equipment,
    setup: &Setup<'_>,
    gate: &G,
    control: &mut K,
) -> Result<Devices, LiveFault> {
    let lines = lines_for(rt, alloc, setup, equipment);
    let sinks = sinks_for(rt, alloc, setup, equipment);
    live(
        rt,
        alloc,
        equipment,
        lines,
        sinks,
        setup.frames,
        gate,
        control,
    )
}

/// A cell: bus, slot and word.
type CellRow = (u32, u64, Option<u32>);

/// What a run came to.
#[derive(Clone, Copy)]
struct Outcome {
    fault: Option<LiveFault>,
    /// The marks of its gate, and how often a worker came to one of its points.
    marks: u64,
    passed: u64,
    /// How many words two receivers accepted, and how many cells the sinks of two groups took.
    accepted: (u64, u64),
    cells: (usize, usize),
    /// Of the first receiver, the words of even parity and those without a source.
    refused: (u64, u64),
    /// Of the first group, the words and the plan in force at the end.
    words: u64,
    plan: u64,
    /// The first cell of the first group, and how many of its cells have a word, if those are two slots apart.
    first: Option<CellRow>,
    spaced: usize,
}

const NOTHING: Outcome = Outcome {
    fault: None,
    marks: 0,
    passed: 0,
    accepted: (0, 0),
    cells: (0, 0),
    refused: (0, 0),
    words: 0,
    plan: 0,
    first: None,
    spaced: 0,
};

fn heard(report: &Devices, receiver: usize) -> ReceiveTotals {
    match report.receivers.get(receiver) {
        Some(totals) => *totals,
        None => ReceiveTotals {
            accepted: 0,
            parity: 0,
            filtered: 0,
            no_source: 0,
            spent: 0,
        },
    }
}

/// The cells that the sink of a group took.
fn sent(report: &Devices, group: usize) -> &[Sent] {
    match report.sinks.get(group) {
        Some(sink) => sink.sink.sent(),
        None => &[],
    }
}

fn first_cell(report: &Devices) -> Option<CellRow> {
    let cell = sent(report, 0).get(0)?;
    Some((cell.bus, cell.slot, cell.word.map(Word::raw)))
}

/// The words of the first group, and the plan in force at the end.
fn words_and_plan(report: &Devices) -> (u64, u64) {
    match report.groups.get(0) {
        Some(totals) => (totals.words, totals.plan),
        None => (0, 0),
    }
}

fn outcome_of(report: &Devices) -> Outcome {
    let first = heard(report, 0);
    let (words, plan) = words_and_plan(report);
    Outcome {
        accepted: (first.accepted, heard(report, 1).accepted),
        cells: (sent(report, 0).len(), sent(report, 1).len()),
        refused: (first.parity, first.no_source),
        words,
        plan,
        first: first_cell(report),
        spaced: count_spaced_words(sent(report, 0)),
        ..NOTHING
    }
}

/// What a run came to that has this answer.
fn outcome_after(answer: Result<Devices, LiveFault>) -> Outcome {
    match answer {
        Ok(report) => {
            let outcome = outcome_of(&report);
            let_go(report);
            outcome
        }
        Err(fault) => Outcome {
            fault: Some(fault),
            ..NOTHING
        },
    }
}

/// Runs a station.
fn run<R: Threads + Wait + Abort, G: Gate + Sync, K: Control<R>>(
    rt: &R,
    alloc: Global,
    setup: &Setup<'_>,
    gate: &G,
    control: &mut K,
) -> Outcome {
    let equipment = read(rt, alloc, setup.table);
    let answer = run_with(rt, alloc, &equipment, setup, gate, control);
    let_go(equipment);
    outcome_after(answer)
}

/// Runs a station at a gate that holds so, with a control that makes its mark.
fn run_held<R: Threads + Wait + Clock + Abort + Sync>(
    rt: &R,
    alloc: Global,
    setup: &Setup<'_>,
    held: Held,
) -> Outcome {
    let gate = gate(rt, held, TURNS);
    let mut control = MarksRun { made: &gate.made };
    let outcome = run(rt, alloc, setup, &gate, &mut control);
    let marks = gate.made.load(Ordering::SeqCst);
    let passed = gate.passed.load(Ordering::SeqCst);
    let_go(gate);
    Outcome {
        marks,
        passed,
        ..outcome
    }
}

/// A word for each of two receivers.
const WORDS: &[&[u32]] = &[&[0x00000080], &[0x00000040]];

/// Two words for the one receiver, and one.
const TWO_WORDS: &[&[u32]] = &[&[FIRST, SECOND]];

const ONE_WORD: &[&[u32]] = &[&[FIRST]];

#[test]
fn word_taken_before_a_cell_goes_out_in_it(rt: HostRuntime) {
    let outcome = run_held(&rt, rt.alloc(), &setup_of(ONE, TWO_WORDS, 1), Held::InTurn);
    assert!(rt; outcome.accepted == (2, 0) && outcome.cells == (1, 0));
    assert!(rt; outcome.first == Some((0, 0, Some(FIRST))));
}

#[test]
fn a_word_is_sent_as_often_as_it_may_be_held(rt: HostRuntime) {
    let outcome = run_held(&rt, rt.alloc(), &setup_of(HELD, ONE_WORD, 4), Held::InTurn);
    assert!(rt; outcome.cells == (4, 0) && outcome.words == 2);
}

/// A word of label 001, one of even parity, and one of a label without a source.
const MIXED_WORDS: &[&[u32]] = &[&[0x00000080, EVEN, 0x80000021]];

/// How often two receivers accepted, how many cells two groups sent, and how many words of even parity and without a
/// source the first receiver had; how often workers came to the gate, twice for a word or a cell; and the fault.
type Counts = (
    (u64, u64),
    (usize, usize),
    (u64, u64),
    u64,
    Option<LiveFault>,
);

/// A run at a gate that holds so, and its counts.
type RunRow = (&'static str, &'static [&'static [u32]], u32, Held, Counts);

static RUNS: [RunRow; 4] = [
    // Workers and control run at once.
    (
        TWO,
        WORDS,
        1,
        Held::UntilAll,
        ((1, 1), (1, 1), (0, 0), 8, None),
    ),
    // A run of no frames takes its words.
    (
        ONE,
        ONE_WORD,
        0,
        Held::Nothing,
        ((1, 0), (0, 0), (0, 0), 2, None),
    ),
    // Words and cells are counted.
    (
        THREE,
        MIXED_WORDS,
        2,
        Held::Nothing,
        ((1, 0), (8, 0), (1, 1), 22, None),
    ),
    // The frames of one run are few.
    (
        TWO,
        WORDS,
        1000001,
        Held::UntilAll,
        ((0, 0), (0, 0), (0, 0), 0, Some(LiveFault::TooMuch)),
    ),
];

/// Whether the run of a row comes to that. A run that is refused begins nothing: its control does not run.
fn comes_to<R: Threads + Wait + Clock + Abort + Sync>(rt: &R, alloc: Global, row: &RunRow) -> bool {
    let (table, words, frames, held, counts) = *row;
    let outcome = run_held(rt, alloc, &setup_of(table, words, frames), held);
    let Outcome {
        accepted,
        cells,
        refused,
        passed,
        fault,
        ..
    } = outcome;
    (accepted, cells, refused, passed, fault) == counts
        && fault.is_none() == (outcome.marks & CONTROL > 0)
}

#[test]
fn runs_are_counted(rt: HostRuntime) {
    for row in &RUNS {
        assert!(rt; comes_to(&rt, rt.alloc(), row));
    }
}

/// Submits a table of its station.
#[derive(Drop)]
struct Publishes<'a> {
    made: &'a AtomicU64,
    published: bool,
}

impl<'a, R: Wait> Control<R> for Publishes<'a> {
    fn run(&mut self, station: &mut Station<'_, R>) -> Result<(), AllocError> {
        self.published = matches!(station.resubmit(THREE_FASTER.as_bytes()), Ok(1));
        self.made.fetch_or(CONTROL, Ordering::SeqCst);
        Ok(())
    }
}

/// Runs two frames of the station while that table is submitted, and says whether it was published.
fn run_publishing<R: Threads + Wait + Clock + Abort + Sync>(
    rt: &R,
    alloc: Global,
) -> (Outcome, bool) {
    let gate = gate(rt, Held::UntilAnswered, TURNS);
    let mut control = Publishes {
        made: &gate.made,
        published: false,
    };
    let setup = setup_of(THREE, NO_WORDS, 2);
    let outcome = run(rt, alloc, &setup, &gate, &mut control);
    let published = control.published;
    let_go(control);
    let_go(gate);
    (outcome, published)
}

const NO_WORDS: &[&[u32]] = &[&[]];

#[test]
fn resubmitted_plans_come_into_force(rt: HostRuntime) {
    let (outcome, published) = run_publishing(&rt, rt.alloc());
    // Four cells by the table, then eight of two buses by the plan that was published.
    assert!(rt; published && outcome.cells == (12, 0) && outcome.words == 0 && outcome.plan == 1);
}
