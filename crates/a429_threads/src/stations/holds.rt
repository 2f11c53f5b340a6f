//! A gate that holds workers back until others have reached their points.

use a429_station::{Control, Station};
use a429_values::Accept;
use a429_workers::{Gate, GateFault, Point, ReceiveTotals};
use std::alloc::AllocError;
use std::sync::Wait;
use std::sync::atomic::{AtomicU64, Ordering};
use std::thread;
use std::time::{Clock, Duration};

/// What a gate holds back.
#[derive(Clone, Copy)]
pub enum Held {
    /// The first word until a cell is asked for, that cell until the word was taken, the second word until the cell
    /// was sent.
    InTurn,
    /// The first word of both receivers and the first cell of both groups, until all four and the control were entered.
    UntilAll,
    /// The first cell, until the control has its first answer.
    UntilAnswered,
    /// Nothing.
    Nothing,
}

const CELL: u64 = 1;

const TAKEN: u64 = 2;

const SENT: u64 = 4;

const WORD: u64 = 8;

const SECOND_CELL: u64 = 16;

const SECOND_WORD: u64 = 32;

pub const CONTROL: u64 = 64;

const ALL: u64 = CELL | WORD | SECOND_CELL | SECOND_WORD | CONTROL;

fn bits_in_turn(point: Point) -> (u64, u64) {
    match point {
        Point::BeforeAccept(0, 0) => (WORD, CELL),
        Point::AfterAccept(0, 0) => (TAKEN, 0),
        Point::BeforeCell(0, 0) => (CELL, TAKEN),
        Point::AfterCell(0, 0) => (SENT, 0),
        Point::BeforeAccept(0, 1) => (0, SENT),
        _ => (0, 0),
    }
}

fn bits_until_all(point: Point) -> (u64, u64) {
    match point {
        Point::BeforeAccept(0, 0) => (WORD, ALL),
        Point::BeforeAccept(1, 0) => (SECOND_WORD, ALL),
        Point::BeforeCell(0, 0) => (CELL, ALL),
        Point::BeforeCell(1, 0) => (SECOND_CELL, ALL),
        _ => (0, 0),
    }
}

fn bits_until_answered(point: Point) -> (u64, u64) {
    match point {
        Point::BeforeCell(0, 0) => (CELL, CONTROL),
        _ => (0, 0),
    }
}

/// The mark of a point, and the marks that it waits for.
fn bits(held: Held, point: Point) -> (u64, u64) {
    match held {
        Held::InTurn => bits_in_turn(point),
        Held::UntilAll => bits_until_all(point),
        Held::UntilAnswered => bits_until_answered(point),
        Held::Nothing => (0, 0),
    }
}

/// How many turns a gate waits if other threads run. On one thread alone it waits `TURNS_ALONE`: a further turn would
/// not change what is waited for.
pub const TURNS: u64 = 10000;

pub const TURNS_ALONE: u64 = 50;

/// Holds back each point until the marks that it waits for were made, for at most this number of turns of a
/// millisecond.
#[derive(Drop)]
pub struct Holds<'a, R: Clock> {
    rt: &'a R,
    held: Held,
    turns: u64,
    pub made: AtomicU64,
    /// How often a worker came to one of its points.
    pub passed: AtomicU64,
}

/// The gate that holds so, before any mark.
pub fn gate<'a, R: Clock>(rt: &'a R, held: Held, turns: u64) -> Holds<'a, R> {
    Holds {
        rt,
        held,
        turns,
        made: AtomicU64::new(0),
        passed: AtomicU64::new(0),
    }
}

/// Whether these marks are made within this number of turns.
fn are_made<R: Clock>(rt: &R, made: &AtomicU64, awaited: u64, turns: u64) -> bool {
    for _ in 0..turns {
        if made.load(Ordering::SeqCst) & awaited == awaited {
            return true;
        }
        thread::sleep(rt, Duration::from_millis(1));
    }
    false
}

impl<'a, R: Clock> Gate for Holds<'a, R> {
    fn pass<S>(&self, point: Point, _shown: &S) -> Result<(), GateFault> {
        let (own, awaited) = bits(self.held, point);
        self.passed.fetch_add(1, Ordering::SeqCst);
        self.made.fetch_or(own, Ordering::SeqCst);
        if are_made(self.rt, &self.made, awaited, self.turns) {
            return Ok(());
        }
        Err(GateFault)
    }

    fn tell_counted(&self, _answer: Accept, _totals: &ReceiveTotals) {}
}

/// Makes the mark of the control, and publishes nothing.
#[derive(Drop)]
pub struct MarksRun<'a> {
    pub made: &'a AtomicU64,
}

impl<'a, R: Wait> Control<R> for MarksRun<'a> {
    fn run(&mut self, _station: &mut Station<'_, R>) -> Result<(), AllocError> {
        self.made.fetch_or(CONTROL, Ordering::SeqCst);
        Ok(())
    }
}
