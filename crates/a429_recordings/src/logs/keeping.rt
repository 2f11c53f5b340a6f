//! Logs that are read one after another, as if they were one.
ghost use Rattle.std.specs.Prelude.{◌≡◌, ◌≤◌, [], IfOk, None, OnOk, Option, List, drop, length};
ghost use Rattle.a429_logs.specs.LogRows.{Stated, stated_by};
ghost use Rattle.a429_logs.specs.Logs.{joined};
ghost use Rattle.a429_console.specs.Files.{bytes_of, logs_of};
ghost use Rattle.a429_recordings.specs.LogItems.{AreKept, GoesOnFrom, KeepsLog, KeepsLogs, KeepsPiece, KeepsPieces, PassesNone, left_at, whole_log};
ghost use Rattle.a429_logs.specs.LogsLeft.{reading_at, tail_at_point, tail_of, titles_at, titles_of};
ghost use Rattle.a429_recordings.specs.LogViews.{view_of, viewed};

mod faulty;
pub mod freeing;

use crate::logs::keeping::faulty::{LogPieces, last_line, refuse_line};
use crate::logs::views::LogView;
use a429_console::files::FileReader;
use a429_console::hints::warnings::{PassedLines, Warning};
use a429_console::refusals::evidence::{LineEvidence, LogRefusal};
use a429_console::refusals::{CommandRefusal, Refused};
use a429_logs::{LogPoint, LogReader, PassedOver, Reading, StatedWord};
use std::alloc::{AllocFailed, Global};

/// Why a word of a log was not kept.
#[derive(Clone, Copy)]
pub enum KeepFault {
    /// It makes its line faulty.
    Line(LogRefusal),
    /// An allocation failed.
    NoMemory,
}

impl<T: Drop> From<AllocFailed<T>> for KeepFault {
    ghost use Rattle.std.specs.Prelude.{◌≡◌};
    ghost use Rattle.a429_recordings.specs.declared.logs.keeping.KeepFault.TheVariants.{NoMemory};

    ghost from_gives = { λ _ e. e ≡ NoMemory };

    fn from(_error: AllocFailed<T>) -> KeepFault {
        KeepFault::NoMemory
    }
}

/// What keeps the words of logs, one after another.
pub trait WordKeeper {
    /// The type of what is kept of a word.
    ghost Item: { Type 0 };

    /// What is kept of a word: nothing, if it is passed over. `None` if the word makes its line faulty.
    ghost items: { Self → Stated → Option (List Self.Item) };

    /// What was kept, in order.
    ghost kept: { Self → List Self.Item };

    /// The type of what stays the same.
    ghost Fixed: { Type 0 };

    /// What stays the same, whatever is kept.
    ghost fixed: { Self → Self.Fixed };

    /// Keeps a word. Error: it makes its line faulty, or an allocation failed.
    fn keep(&mut self, word: StatedWord<'_>) -> Result<(), KeepFault>
        ensures kept { AreKept (items self.old (stated_by word.entry)) (kept self.old) (kept self.new) result }
        ensures same { items self.new ≡ items self.old }
        ensures fixed { fixed self.new ≡ fixed self.old };

    /// The line of this number of a log, for a hint. `None` if an allocation fails.
    fn line_evidence(&self, alloc: Global, text: &[u8], line: usize) -> Option<LineEvidence>;
}

/// One of several logs: its number from 0, and how its first line is read.
#[derive(Clone, Copy)]
struct NumberedLog<'a> {
    number: usize,
    reading: Reading<'a>,
    /// How many bytes this log and those before it have, and how many all have.
    until: usize,
    all: usize,
}

/// After how many lines it is shown again how much is done.
const STRIDE: usize = 1 << 14;

/// How many bytes the pieces of a log have together.
fn bytes_of_log(pieces: &[Vec<u8>]) -> usize {
    let mut bytes: usize = 0;
    for piece in pieces {
        bytes = bytes.saturating_add(piece.len()).saturating_add(1);
    }
    bytes
}

/// How many bytes logs have together.
pub fn bytes_in(logs: &[Vec<Vec<u8>>]) -> usize {
    let mut bytes: usize = 0;
    for log in logs {
        bytes = bytes.saturating_add(bytes_of_log(log));
    }
    bytes
}

/// Shows how much of the logs is done after this line, now and then.
fn show_line<F: FileReader>(
    files: &F,
    log: &NumberedLog<'_>,
    reader: &LogReader<'_, '_>,
    line: usize,
) {
    if line % STRIDE == 0 {
        files.show_done(log.until.saturating_sub(reader.bytes_left()), log.all);
    }
}

/// Notes what is passed over in a log of this number, if anything is.
fn note_passed(log: usize, passed: PassedOver, warnings: &mut Vec<Warning>)
    ensures { passed.titles ≡ 0 → passed.tail ≡ None → warnings.new.items ≡ warnings.old.items }
{
    if passed.titles == 0 && passed.tail.is_none() {
        return;
    }
    let lines = PassedLines {
        log,
        titles: passed.titles,
        tail: passed.tail,
    };
    Warning::note_passed(warnings, lines);
}

/// How the log after a log is read, and what is passed over in that.
#[derive(Clone, Copy)]
struct LogEnd<'a> {
    next: Reading<'a>,
    passed: PassedOver,
}

/// Keeps a word as it is taken, unless it is passed over. Error: it makes its line faulty, or an allocation failed.
#[inline(always)]
#[tactic(auto, using(crate::proofs::LogLines::kept_items, crate::proofs::LogLines::kept_nothing))]
fn keep_taken<'a, T: WordKeeper>(
    keeper: &mut T,
    view: LogView<'a>,
    word: StatedWord<'a>,
) -> Result<(), KeepFault>
    ensures kept { AreKept (viewed (view_of view.entry) (T.items keeper.old) (stated_by word.entry))
        (T.kept keeper.old) (T.kept keeper.new) result }
    ensures same { T.items keeper.new ≡ T.items keeper.old }
    ensures fixed { T.fixed keeper.new ≡ T.fixed keeper.old }
{
    match view.taken(word) {
        Some(word) => keeper.keep(word),
        None => Ok(()),
    }
}

/// Keeps the words of the piece of a log that is read, as they are taken. Error: the first faulty line, or an allocation failed.
#[tactic(auto, using(crate::proofs::LogLines::kept_more))]
fn keep_piece<'a, T: WordKeeper, F: FileReader>(
    alloc: Global,
    files: &F,
    keeper: &mut T,
    view: LogView<'a>,
    log: NumberedLog<'a>,
    pieces: LogPieces<'_>,
    reader: &mut LogReader<'a, '_>,
) -> Result<(), Refused>
    ensures kept { KeepsPiece (viewed (view_of view.entry) (T.items keeper.old)) reader.old reader.new
        (T.kept keeper.old) (T.kept keeper.new) result }
    ensures goes_on { OnOk result (GoesOnFrom reader.old reader.new) }
    ensures same { T.items keeper.new ≡ T.items keeper.old }
    ensures fixed { T.fixed keeper.new ≡ T.fixed keeper.old }
{
    while let Some(entry) = reader.next_here() {
        let entry = match entry {
            Ok(entry) => entry,
            Err(fault) => {
                let (shape, why) = (reader.shape(), LogRefusal::Line(fault.why));
                return Err(refuse_line(alloc, keeper, log, pieces, shape, fault.line, why));
            }
        };
        match keep_taken(keeper, view, entry.word) {
            Ok(()) => {}
            Err(KeepFault::Line(why)) => {
                let shape = reader.shape();
                return Err(refuse_line(alloc, keeper, log, pieces, shape, entry.line, why));
            }
            Err(KeepFault::NoMemory) => return Err(Refused::plain(CommandRefusal::Memory)),
        }
        show_line(files, &log, reader, entry.line);
    }
    Ok(())
}

/// How far a log is read: the number of the first of its pieces that was not begun, and how the log goes on there.
#[derive(Clone, Copy)]
struct PieceEnd<'a> {
    next: usize,
    point: LogPoint<'a>,
}

impl<'a> PieceEnd<'a> {
    /// How the next log is read, and what is passed over, if no piece is left.
    fn log_end(&self) -> LogEnd<'a>
        ensures next { result.next ≡ reading_at self.now.point [] }
        ensures titles { result.passed.titles ≡ titles_at self.now.point }
        ensures tail { result.passed.tail ≡ tail_at_point self.now.point [] }
    {
        LogEnd {
            next: self.point.for_next_log(),
            passed: self.point.passed_over(),
        }
    }
}

/// Keeps the words of the first piece of a log that has rows, as they are taken. Error: the first faulty line, or an allocation failed.
fn keep_first<'a, T: WordKeeper, F: FileReader>(
    alloc: Global,
    files: &F,
    keeper: &mut T,
    view: LogView<'a>,
    log: NumberedLog<'a>,
    pieces: &[Vec<u8>],
) -> Result<PieceEnd<'a>, Refused>
    ensures kept { KeepsPieces (viewed (view_of view.entry) (T.items keeper.old)) (whole_log log.entry.reading (joined (bytes_of pieces.now)))
        pieces.now (T.kept keeper.old) (T.kept keeper.new) result }
    ensures same { T.items keeper.new ≡ T.items keeper.old }
    ensures fixed { T.fixed keeper.new ≡ T.fixed keeper.old }
{
    let mut reader = LogReader::open(log.reading, pieces);
    let all = LogPieces {
        pieces,
        lines: 0,
        above: &[],
    };
    match keep_piece(alloc, files, keeper, view, log, all, &mut reader) {
        Ok(()) => Ok(PieceEnd {
            next: reader.next_piece(),
            point: reader.point(),
        }),
        Err(refusal) => Err(refusal),
    }
}

/// Keeps the words of the next piece of a log from this point on, as they are taken. Above it, `above` is the last line that
/// states something. Error: the first faulty line, or an allocation failed.
fn keep_next<'a, T: WordKeeper, F: FileReader>(
    alloc: Global,
    files: &F,
    keeper: &mut T,
    view: LogView<'a>,
    log: NumberedLog<'a>,
    point: LogPoint<'a>,
    above: &[u8],
    pieces: &[Vec<u8>],
) -> Result<PieceEnd<'a>, Refused>
    ensures kept { KeepsPieces (viewed (view_of view.entry) (T.items keeper.old)) (left_at point.entry (bytes_of pieces.now))
        pieces.now (T.kept keeper.old) (T.kept keeper.new) result }
    ensures same { T.items keeper.new ≡ T.items keeper.old }
    ensures fixed { T.fixed keeper.new ≡ T.fixed keeper.old }
{
    let mut reader = LogReader::go_on(point, pieces);
    let left = LogPieces {
        pieces,
        lines: point.lines_before(),
        above,
    };
    match keep_piece(alloc, files, keeper, view, log, left, &mut reader) {
        Ok(()) => Ok(PieceEnd {
            next: reader.next_piece(),
            point: reader.point(),
        }),
        Err(refusal) => Err(refusal),
    }
}

/// Keeps the words of a log as they are taken. The answer is how the next log is read, and what is passed over. Error: the first faulty line of the
/// log, or an allocation failed.
fn keep_log<'a, T: WordKeeper, F: FileReader>(
    alloc: Global,
    files: &F,
    keeper: &mut T,
    view: LogView<'a>,
    log: NumberedLog<'a>,
    pieces: &[Vec<u8>],
) -> Result<LogEnd<'a>, Refused>
    ensures kept { KeepsLog (viewed (view_of view.entry) (T.items keeper.old)) log.entry.reading (joined (bytes_of pieces.now))
        (T.kept keeper.old) (T.kept keeper.new) result }
    ensures titles { IfOk result (λ end. end.passed.titles ≡ titles_of log.entry.reading (joined (bytes_of pieces.now))) }
    ensures tail { IfOk result (λ end. end.passed.tail ≡ tail_of log.entry.reading (joined (bytes_of pieces.now))) }
    ensures same { T.items keeper.new ≡ T.items keeper.old }
    ensures fixed { T.fixed keeper.new ≡ T.fixed keeper.old }
{
    let mut left = pieces;
    let mut above: &[u8] = &[];
    let mut end = keep_first(alloc, files, keeper, view, log, left)?;
    while end.next < left.len() {
        let (read, rest) = left.split_at(end.next);
        above = last_line(above, read);
        left = rest;
        end = match keep_next(alloc, files, keeper, view, log, end.point, above, left) {
            Ok(end) => end,
            Err(refusal) => return Err(refusal),
        };
    }
    Ok(end.log_end())
}

/// Keeps the words of logs as they are taken, one after another as if they were one. The first has this number. The answer is
/// how the next log would be read. What is passed over is noted. Error: the number of the first faulty line, from 1 in its log, or an allocation failed.
#[tactic(auto, using(crate::proofs::LogLines::before_more, crate::proofs::LogLines::logs_left))]
pub fn keep_logs<'a, T: WordKeeper, F: FileReader>(
    alloc: Global,
    files: &F,
    keeper: &mut T,
    view: LogView<'a>,
    reading: Reading<'a>,
    first: usize,
    logs: &[Vec<Vec<u8>>],
    warnings: &mut Vec<Warning>,
) -> Result<Reading<'a>, Refused>
    requires { T.kept keeper.old ≡ [] }
    ensures silent { PassesNone reading.entry (logs_of logs.now) → warnings.new.items ≡ warnings.old.items }
    ensures kept { KeepsLogs (viewed (view_of view.entry) (T.items keeper.old)) reading.entry (logs_of logs.now)
        (T.kept keeper.new) result }
    ensures fixed { T.fixed keeper.new ≡ T.fixed keeper.old }
{
    let mut next = reading;
    let mut until: usize = 0;
    let all = bytes_in(logs);
    for number in 0..logs.len() {
        let pieces = &logs[number];
        until = until.saturating_add(bytes_of_log(pieces));
        let log = NumberedLog {
            number,
            reading: next,
            until,
            all,
        };
        match keep_log(alloc, files, keeper, view, log, pieces) {
            Ok(end) => {
                note_passed(first.saturating_add(number), end.passed, warnings);
                next = end.next;
            }
            Err(refusal) => {
                files.show_end();
                return Err(refusal);
            }
        }
    }
    files.show_end();
    Ok(next)
}
