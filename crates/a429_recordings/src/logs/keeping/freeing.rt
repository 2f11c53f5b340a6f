//! Logs whose memory is given back as they are read.
ghost use Rattle.std.specs.Prelude.{◌≡◌, ◌≤◌, [], IfOk, drop, length};
ghost use Rattle.a429_logs.specs.Logs.{joined};
ghost use Rattle.a429_logs.specs.LogsLeft.{tail_of, titles_of};
ghost use Rattle.a429_console.specs.Files.{bytes_of, logs_of};
ghost use Rattle.a429_recordings.specs.LogItems.{KeepsLog, KeepsLogs, PassesNone};
ghost use Rattle.a429_recordings.specs.LogViews.{view_of, viewed};

use crate::logs::keeping::faulty::last_line;
use crate::logs::keeping::{
    LogEnd, NumberedLog, WordKeeper, bytes_in, bytes_of_log, keep_first, keep_next, note_passed,
};
use crate::logs::views::LogView;
use a429_console::files::FileReader;
use a429_console::hints::warnings::Warning;
use a429_console::refusals::Refused;
use a429_logs::Reading;
use std::alloc::Global;

/// Gives back the memory of the first pieces.
fn drop_first(pieces: &mut Vec<Vec<u8>>, count: usize)
    requires { count ≤ length pieces.old.items }
    ensures { pieces.new.items ≡ drop count pieces.old.items }
{
    for _dropped in 0..count {
        pieces.remove(0);
    }
}

/// Notes the last line of pieces that states something, if there is one. If an allocation fails, nothing is noted.
fn note_above(above: &mut Vec<u8>, pieces: &[Vec<u8>]) {
    let last = last_line(&[], pieces);
    if !last.is_empty() {
        above.clear();
        let _ = above.extend_from_slice(last);
    }
}

/// Keeps the words of a log as `keep_log` does, and gives back the memory of each piece once it is read.
fn keep_and_free<'a, T: WordKeeper, F: FileReader>(
    alloc: Global,
    files: &F,
    keeper: &mut T,
    view: LogView<'a>,
    log: NumberedLog<'a>,
    pieces: Vec<Vec<u8>>,
) -> Result<LogEnd<'a>, Refused>
    ensures kept { KeepsLog (viewed (view_of view.entry) (T.items keeper.old)) log.entry.reading (joined (bytes_of pieces.items))
        (T.kept keeper.old) (T.kept keeper.new) result }
    ensures titles { IfOk result (λ end. end.passed.titles ≡ titles_of log.entry.reading (joined (bytes_of pieces.items))) }
    ensures tail { IfOk result (λ end. end.passed.tail ≡ tail_of log.entry.reading (joined (bytes_of pieces.items))) }
    ensures same { T.items keeper.new ≡ T.items keeper.old }
    ensures fixed { T.fixed keeper.new ≡ T.fixed keeper.old }
{
    let mut left = pieces;
    let mut above = Vec::new(alloc);
    let mut end = keep_first(alloc, files, keeper, view, log, &left)?;
    while end.next < left.len() {
        note_above(&mut above, &left[..end.next]);
        drop_first(&mut left, end.next);
        end = keep_next(alloc, files, keeper, view, log, end.point, &above, &left)?;
    }
    Ok(end.log_end())
}

/// Keeps the words of logs as `keep_logs` does, and gives back the memory of the logs as they are read.
pub fn keep_logs_and_free<'a, T: WordKeeper, F: FileReader>(
    alloc: Global,
    files: &F,
    keeper: &mut T,
    view: LogView<'a>,
    reading: Reading<'a>,
    first: usize,
    logs: Vec<Vec<Vec<u8>>>,
    warnings: &mut Vec<Warning>,
) -> Result<Reading<'a>, Refused>
    requires { T.kept keeper.old ≡ [] }
    ensures silent { PassesNone reading.entry (logs_of logs.items) → warnings.new.items ≡ warnings.old.items }
    ensures kept { KeepsLogs (viewed (view_of view.entry) (T.items keeper.old)) reading.entry (logs_of logs.items)
        (T.kept keeper.new) result }
    ensures fixed { T.fixed keeper.new ≡ T.fixed keeper.old }
{
    let all = bytes_in(&logs);
    let (mut left, mut number, mut until) = (logs, first, 0);
    let mut next = reading;
    while !left.is_empty() {
        let pieces = left.remove(0);
        until = usize::saturating_add(until, bytes_of_log(&pieces));
        let log = NumberedLog {
            number: number.saturating_sub(first),
            reading: next,
            until,
            all,
        };
        match keep_and_free(alloc, files, keeper, view, log, pieces) {
            Ok(end) => {
                note_passed(number, end.passed, warnings);
                next = end.next;
                number = number.saturating_add(1);
            }
            Err(refusal) => {
                files.show_end();
                return Err(refusal);
            }
        }
    }
    files.show_end();
    Ok(next)
}
