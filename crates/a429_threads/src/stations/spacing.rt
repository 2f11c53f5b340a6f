//! A station whose plan changes again and again.
ghost use Rattle.a429_station.specs.Resubmitting.{GoesOn};

use super::{Outcome, run, setup_of};
use crate::support::{SPACED, SPACED_FASTER, let_go};
use a429_station::{Control, Station};
use a429_values::Accept;
use a429_workers::{Gate, GateFault, Point, ReceiveTotals, Sent};
use std::alloc::{AllocError, Global};
use std::process::Abort;
use std::sync::Wait;
use std::sync::atomic::{AtomicU64, Ordering};
use std::thread;
use std::thread::Threads;
use std::time::{Clock, Duration};

/// A word of label 003.
const WORD: u32 = 0x800000c0;

/// The mark of the word, which was taken. Those of the four plans are above it.
const TAKEN: u64 = 1;

/// How many cells go out by a plan before the next is published, at least.
const CELLS: u64 = 40;

/// Which marks were made, and how many cells were sent.
#[derive(Drop)]
struct Course<'a, R: Clock> {
    rt: &'a R,
    made: AtomicU64,
    cells: AtomicU64,
}

/// Whether a number comes up to another, within 10000 turns of a millisecond.
fn comes<R: Clock>(rt: &R, number: &AtomicU64, least: u64) -> bool {
    for _ in 0..10000 {
        if number.load(Ordering::SeqCst) >= least {
            return true;
        }
        thread::sleep(rt, Duration::from_millis(1));
    }
    false
}

/// The marks that a cell waits for: of the word, and of a plan for each `CELLS` cells. As marks are made in order, they
/// are a number that grows.
fn marks_before(cell: u64) -> u64 {
    match cell / CELLS {
        0 => 3,
        1 => 7,
        2 => 15,
        _ => 31,
    }
}

impl<'a, R: Clock> Gate for Course<'a, R> {
    fn pass<S>(&self, point: Point, _shown: &S) -> Result<(), GateFault> {
        let goes_on = match point {
            Point::AfterAccept(_, _) => {
                self.made.fetch_or(TAKEN, Ordering::SeqCst);
                true
            }
            Point::BeforeCell(_, cell) => comes(self.rt, &self.made, marks_before(cell)),
            Point::AfterCell(_, cell) => {
                self.cells.store(cell.saturating_add(1), Ordering::SeqCst);
                true
            }
            _ => true,
        };
        if goes_on { Ok(()) } else { Err(GateFault) }
    }

    fn tell_counted(&self, _answer: Accept, _totals: &ReceiveTotals) {}
}

/// Resubmits two tables alternately, four times in all. Each waits until enough cells went out by the one before.
#[derive(Drop)]
struct Alternates<'a, R: Clock> {
    course: &'a Course<'a, R>,
    published: bool,
}

/// Sets the mark of a published plan, once the word was taken, and waits until this number of cells went out.
fn mark<R: Clock>(course: &Course<'_, R>, mark: u64, cells: u64) {
    comes(course.rt, &course.made, TAKEN);
    course.made.fetch_or(mark, Ordering::SeqCst);
    comes(course.rt, &course.cells, cells);
}

/// Resubmits a table, makes its mark, and waits until this number of cells went out.
fn publish<R: Wait, C: Clock>(
    station: &mut Station<'_, R>,
    course: &Course<'_, C>,
    table: &str,
    own: u64,
    cells: u64,
) -> bool
    ensures after { GoesOn station.old station.new }
{
    let published = station.resubmit(table.as_bytes()).is_ok();
    mark(course, own, cells);
    published
}

/// Resubmits the faster table and then the first, each with its mark and the number of cells that it waits for.
fn publish_both<R: Wait, C: Clock>(
    station: &mut Station<'_, R>,
    course: &Course<'_, C>,
    faster: (u64, u64),
    first: (u64, u64),
) -> bool
    ensures after { GoesOn station.old station.new }
{
    let one = publish(station, course, SPACED_FASTER, faster.0, faster.1);
    let other = publish(station, course, SPACED, first.0, first.1);
    one && other
}

impl<'a, R: Wait, C: Clock> Control<R> for Alternates<'a, C> {
    fn run(&mut self, station: &mut Station<'_, R>) -> Result<(), AllocError> {
        let course = self.course;
        let early = publish_both(station, course, (2, CELLS), (4, 2 * CELLS));
        let late = publish_both(station, course, (8, 3 * CELLS), (16, 0));
        self.published = early && late;
        Ok(())
    }
}

/// How many cells have a word, if those are two slots apart; otherwise 0.
pub fn count_spaced_words(sent: &[Sent]) -> usize {
    let mut words: usize = 0;
    // The first slot in which the next word may be.
    let mut next: u64 = 0;
    for cell in sent {
        if cell.word.is_none() {
            continue;
        }
        if cell.slot < next {
            return 0;
        }
        next = cell.slot.saturating_add(2);
        words = words.saturating_add(1);
    }
    words
}

/// Runs 50 frames of the station while its plan changes. What they came to, and whether all plans were published.
fn run_changing<R: Threads + Wait + Clock + Abort + Sync>(
    rt: &R,
    alloc: Global,
) -> (Outcome, bool) {
    let course = Course {
        rt,
        made: AtomicU64::new(0),
        cells: AtomicU64::new(0),
    };
    let mut control = Alternates {
        course: &course,
        published: false,
    };
    let outcome = run(
        rt,
        alloc,
        &setup_of(SPACED, LINE, 50),
        &course,
        &mut control,
    );
    let published = control.published;
    let_go(control);
    let_go(course);
    (outcome, published)
}

const LINE: &[&[u32]] = &[&[WORD]];

#[test]
fn words_keep_their_spacing_as_plans_change(rt: HostRuntime) {
    let (outcome, published) = run_changing(&rt, rt.alloc());
    // Each of the 50 frames has one cell of the word, of which a change of the plan may empty one.
    assert!(rt; published && outcome.plan == 4 && outcome.spaced >= 46);
}
