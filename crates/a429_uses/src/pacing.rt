//! When sending begins.

use a429_values::Accept;
use a429_workers::{Gate, GateFault, Point, ReceiveTotals};
use std::sync::atomic::{AtomicU64, Ordering};
use std::thread;
use std::time::{Clock, Duration};

/// How many words were taken so far, and how many further tables were answered.
#[derive(Drop)]
pub struct Marks {
    pub words: AtomicU64,
    pub plans: AtomicU64,
}

impl Marks {
    /// Marks of which none was made.
    pub fn none() -> Marks {
        Marks {
            words: AtomicU64::new(0),
            plans: AtomicU64::new(0),
        }
    }
}

/// How many turns of a millisecond a group waits at most.
const TURNS: u64 = 10000;

/// Lets the group send only after this number of words was taken and the further table was answered, so that the same
/// words go out in each run. A station with real buses takes `OpenGate` instead.
#[derive(Drop)]
pub struct LateStart<'a, R: Clock> {
    pub rt: &'a R,
    pub words: u64,
    pub marks: &'a Marks,
}

impl<'a, R: Clock> LateStart<'a, R> {
    /// Waits for the words and the plan. The error is that they did not come in time.
    fn wait(&self) -> Result<(), GateFault> {
        let marks = self.marks;
        for _ in 0..TURNS {
            let words = marks.words.load(Ordering::SeqCst);
            if words >= self.words && marks.plans.load(Ordering::SeqCst) > 0 {
                return Ok(());
            }
            thread::sleep(self.rt, Duration::from_millis(1));
        }
        Err(GateFault)
    }
}

impl<'a, R: Clock> Gate for LateStart<'a, R> {
    fn pass<S>(&self, point: Point, _shown: &S) -> Result<(), GateFault> {
        match point {
            Point::AfterAccept(..) => {
                self.marks.words.fetch_add(1, Ordering::SeqCst);
                Ok(())
            }
            Point::BeforeCell(_, 0) => self.wait(),
            _ => Ok(()),
        }
    }

    fn tell_counted(&self, _answer: Accept, _totals: &ReceiveTotals) {}
}
