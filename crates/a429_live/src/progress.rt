//! How far a run is, shown while it works.
ghost use Rattle.a429_word.specs.Written.{Gains};
ghost use Rattle.a429_live.specs.ProgressLines.{counts_text, progress_line};

use a429_console::terminal::{TerminalLine, push_rest};
use a429_slots::{OUTPUTS, Plan};
use a429_values::Accept;
use a429_workers::{Gate, GateFault, Point, ReceiveTotals};
use std::alloc::Global;
use std::io;
use std::io::Write;
use std::rt::Clock;
use std::sync::atomic::{AtomicU64, Ordering};

/// The number of cells of a group, or of accepted words of a receiver, that are reported together.
const STRIDE: u64 = 4096;

/// What gets the progress of a run from its threads. Nothing that it does changes what the run answers.
pub trait Progress {
    /// The run begins. By the plan that it begins with, it sends this number of cells.
    fn begin(&self, cells: u64);

    /// This number of further cells was sent.
    fn tell_sent(&self, cells: u64);

    /// This number of further words was accepted.
    fn tell_accepted(&self, words: u64);

    /// The run has ended.
    fn end(&self);
}

/// Shows nothing.
#[derive(Clone, Copy, PartialEq, Eq)]
pub struct NoProgress;

impl Progress for NoProgress {
    fn begin(&self, _cells: u64) {}

    fn tell_sent(&self, _cells: u64) {}

    fn tell_accepted(&self, _words: u64) {}

    fn end(&self) {}
}

/// Shows on a terminal how many cells of all were sent, and how many words were accepted: one line, which comes after a
/// second, is written again while the run goes on, and is wiped at its end. If the clock, the terminal or an allocation
/// fails, nothing is shown.
#[derive(Drop)]
pub struct ProgressLine<'a, C, W> {
    line: TerminalLine<'a, C, W>,
    all: AtomicU64,
    cells: AtomicU64,
    words: AtomicU64,
}

/// Appends how many cells were sent, of how many, and how many words were accepted. Error: an allocation fails.
#[tactic(auto, unfolding(crate::specs::ProgressLines::counts_text))]
fn push_counts(text: &mut Vec<u8>, cells: u64, all: u64, words: u64) -> io::Result<()>
    ensures { Gains result text.old.items text.new.items (counts_text cells all words) }
{
    write!(
        text,
        "cells sent {cells} of {all}, words accepted {words}, "
    )
}

/// Appends the line's text. Error: an allocation fails.
fn push_line(text: &mut Vec<u8>, cells: u64, all: u64, words: u64, spent: u32) -> io::Result<()>
    ensures { Gains result text.old.items text.new.items (progress_line cells all words spent) }
{
    push_counts(text, cells, all, words)?;
    push_rest(text, cells.min(all), all, spent)
}

impl<'a, C: Clock, W: Write + Copy> ProgressLine<'a, C, W> {
    /// A progress line with all counters at 0.
    pub fn new(alloc: Global, clock: &'a C, terminal: W) -> ProgressLine<'a, C, W> {
        ProgressLine {
            line: TerminalLine::new(alloc, clock, terminal),
            all: AtomicU64::new(0),
            cells: AtomicU64::new(0),
            words: AtomicU64::new(0),
        }
    }

    /// Writes the line.
    fn show(&self, cells: u64, spent: u32) -> io::Result<()> {
        let (all, words) = (
            self.all.load(Ordering::Relaxed),
            self.words.load(Ordering::Relaxed),
        );
        let mut text = self.line.start()?;
        push_line(&mut text, cells, all, words, spent)?;
        self.line.write(text)
    }
}

impl<C: Clock, W: Write + Copy> Progress for ProgressLine<'_, C, W> {
    fn begin(&self, cells: u64) {
        self.all.store(cells, Ordering::Relaxed);
        self.line.begin();
    }

    fn tell_sent(&self, cells: u64) {
        let before = self.cells.fetch_add(cells, Ordering::Relaxed);
        if let Some(spent) = self.line.due() {
            let _ = self.show(before.wrapping_add(cells), spent);
        }
    }

    fn tell_accepted(&self, words: u64) {
        self.words.fetch_add(words, Ordering::Relaxed);
    }

    fn end(&self) {
        self.line.end();
    }
}

/// A gate that lets every loop pass, and reports the progress of the run.
#[derive(Drop)]
pub struct ProgressGate<'a, P> {
    progress: &'a P,
}

impl<'a, P: Progress> ProgressGate<'a, P> {
    /// The run begins. Each group sends this number of frames.
    pub fn begin(progress: &'a P, plan: &Plan<OUTPUTS>, frames: u32) -> ProgressGate<'a, P> {
        progress.begin(cells_of_run(plan, frames));
        ProgressGate { progress }
    }
}

/// How many cells are sent in this number of frames of each group, as far as 64 bits count.
fn cells_of_run(plan: &Plan<OUTPUTS>, frames: u32) -> u64 {
    let mut cells: u64 = 0;
    for group in 0..plan.groups() {
        let table = plan.group(group);
        let frame = u64::from(table.frame()).saturating_mul(u64::from(table.buses()));
        cells = cells.saturating_add(frame.saturating_mul(u64::from(frames)));
    }
    cells
}

/// Whether a cell, counted from 0, is the last of a stride.
fn is_last(cell: u64) -> bool {
    cell % STRIDE == STRIDE - 1
}

impl<P: Progress> Gate for ProgressGate<'_, P> {
    ghost shuts = { λ _ _. ⊥ };

    fn pass<S>(&self, point: Point, _shown: &S) -> Result<(), GateFault> {
        match point {
            Point::AfterCell(_, cell) if is_last(cell) => self.progress.tell_sent(STRIDE),
            _ => {}
        }
        Ok(())
    }

    fn tell_counted(&self, answer: Accept, totals: &ReceiveTotals) {
        if matches!(answer, Accept::Accepted(_)) && totals.accepted % STRIDE == 0 {
            self.progress.tell_accepted(STRIDE);
        }
    }
}
