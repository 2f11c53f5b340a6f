//! Faulty lines of logs.
ghost use Rattle.std.specs.Prelude.{◌≡◌};
ghost use Rattle.a429_console.specs.declared.refusals.CommandRefusal.TheVariants.{LogLine};

use crate::logs::keeping::{NumberedLog, WordKeeper};
use a429_console::refusals::evidence::{
    Evidence, LineEvidence, LogEvidence, LogRefusal, last_stated,
};
use a429_console::refusals::{CommandRefusal, Refused};
use a429_logs::{Reading, Shape, TimeUnit};
use std::alloc::Global;

/// Pieces of a log, how many lines are above them, and the last of these that states something.
#[derive(Clone, Copy)]
pub struct LogPieces<'a> {
    pub pieces: &'a [Vec<u8>],
    pub lines: usize,
    pub above: &'a [u8],
}

/// The unit of the times of a log whose rows have this form so far.
fn unit_in(shape: Option<Shape>, reading: Reading<'_>) -> TimeUnit {
    match shape {
        Some(shape) => shape.unit,
        None => reading.unit.unwrap_or(TimeUnit::Microseconds),
    }
}

/// The last line of pieces that states something. If there is none, that above them.
pub fn last_line<'a>(above: &'a [u8], pieces: &'a [Vec<u8>]) -> &'a [u8] {
    let mut last = above;
    for piece in pieces {
        let line = last_stated(piece);
        if !line.is_empty() {
            last = line;
        }
    }
    last
}

/// The line of this number of a log, for a hint. `None` if an allocation fails.
fn line_evidence<T: WordKeeper>(
    alloc: Global,
    keeper: &T,
    pieces: LogPieces<'_>,
    line: usize,
) -> Option<LineEvidence> {
    let LogPieces {
        pieces,
        mut lines,
        above,
    } = pieces;
    for (place, piece) in pieces.iter().enumerate() {
        let feeds = piece.iter().filter(|byte| **byte == b'\n').count();
        let until = lines.saturating_add(feeds).saturating_add(1);
        if line <= until {
            let evidence = keeper.line_evidence(alloc, piece, line.saturating_sub(lines))?;
            return Some(evidence.in_text(line, last_line(above, pieces.split_at(place).0)));
        }
        lines = until;
    }
    None
}

/// The refusal of a faulty line of a log, with that line. The log's rows have this form so far.
pub fn refuse_line<T: WordKeeper>(
    alloc: Global,
    keeper: &T,
    log: NumberedLog<'_>,
    pieces: LogPieces<'_>,
    shape: Option<Shape>,
    line: usize,
    why: LogRefusal,
) -> Refused
    ensures { result ≡ LogLine line }
{
    let evidence = LogEvidence {
        why,
        number: log.number,
        shape,
        unit: unit_in(shape, log.reading),
    };
    Refused::with(
        CommandRefusal::LogLine { line },
        Evidence::of_log(line_evidence(alloc, keeper, pieces, line), evidence),
    )
}
