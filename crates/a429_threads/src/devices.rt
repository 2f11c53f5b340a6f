//! Devices that fail in one call and go on after it, and a gate that is shut at one point.
use a429_filter::{LineSource, MemoryLine, SourceFault};
use a429_values::Accept;
use a429_workers::{BusSink, Gate, GateFault, MemorySink, Point, ReceiveTotals, Sent, SinkFault};
use std::alloc::Global;
use std::process::Abort;

/// Words in memory, with a failure in the call of this number, counted from 1; by 0 in none.
#[derive(Drop)]
pub struct FailingLine {
    pub line: MemoryLine,
    pub fails_in: u64,
    pub failures: u64,
    pub ended: bool,
}

/// The line of these words.
pub fn line_of<R: Abort>(rt: &R, alloc: Global, words: &[u32], fails_in: u64) -> FailingLine {
    let given = Vec::from_slice(alloc, words).expect(rt, "memory");
    FailingLine {
        line: MemoryLine::from_words(given),
        fails_in,
        failures: 0,
        ended: false,
    }
}

impl LineSource for FailingLine {
    ghost use Rattle.std.specs.Prelude.{Some};

    ghost given = { λ s. s.line.given };

    ghost ended = { λ s. s.ended };

    ghost failed = { λ s. s.failures };

    ghost left = { λ s. Some s.line.left };

    fn next(&mut self) -> Result<Option<u32>, SourceFault> {
        self.fails_in = self.fails_in.wrapping_sub(1);
        if self.fails_in == 0 {
            self.ended = false;
            self.failures = self.failures.saturating_add(1);
            return Err(SourceFault::Failed);
        }
        let answer = self.line.next();
        self.ended = answer == Ok(None);
        answer
    }

    fn failures(&self) -> u64 {
        self.failures
    }
}

/// A sink in memory, with a failure in the call of this number, counted from 1; by 0 in none.
#[derive(Drop)]
pub struct FailingSink {
    pub sink: MemorySink,
    pub fails_in: u64,
    pub failures: u64,
}

/// An empty sink.
pub fn sink_of(alloc: Global, fails_in: u64) -> FailingSink {
    FailingSink {
        sink: MemorySink::new(alloc),
        fails_in,
        failures: 0,
    }
}

impl BusSink for FailingSink {
    ghost use Rattle.std.specs.Prelude.{Some};

    ghost taken = { λ s. Some s.sink.sent };

    ghost failed = { λ s. s.failures };

    fn put(&mut self, sent: &Sent) -> Result<(), SinkFault> {
        self.fails_in = self.fails_in.wrapping_sub(1);
        if self.fails_in == 0 {
            self.failures = self.failures.saturating_add(1);
            return Err(SinkFault);
        }
        let answer = self.sink.put(sent);
        if answer.is_err() {
            self.failures = self.failures.saturating_add(1);
        }
        answer
    }

    fn failures(&self) -> u64 {
        self.failures
    }
}

/// Shut at one point.
#[derive(Clone, Copy)]
pub struct ShutGate {
    pub at: Point,
}

impl Gate for ShutGate {
    fn pass<S>(&self, point: Point, _shown: &S) -> Result<(), GateFault> {
        if point == self.at {
            return Err(GateFault);
        }
        Ok(())
    }

    fn tell_counted(&self, _answer: Accept, _totals: &ReceiveTotals) {}
}
