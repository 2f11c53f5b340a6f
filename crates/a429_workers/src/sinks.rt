//! The sinks of a group's cells.
ghost use Rattle.std.specs.Prelude.{◌≡◌, ◌++◌, [], List, ℕ, Option, None, option_map};
ghost use Rattle.a429_workers.specs.Sinks.{counted_by, failures_by, taken_by};
ghost use Rattle.a429_workers.specs.declared.cells.Sent.{Sent as Cell};

use crate::cells::Sent;
use std::alloc::Global;
use std::marker::Model;
use thiserror::Error;

/// The sink took nothing. The next call goes on.
#[derive(Clone, Copy, Debug, PartialEq, Eq, Error)]
#[error("the sink failed")]
pub struct SinkFault;

/// Takes the cells of a group's buses, in order (profile).
pub trait BusSink {
    /// The cells that it took so far, if it says so.
    ghost taken: { Self → Option (List Cell) };

    /// How many cells it took so far, as far as 64 bits count, if it says so.
    ghost counted: { Self → Option ℕ } = { λ _. None };

    /// How many of its calls answered a fault, as far as 64 bits count.
    ghost failed: { Self → ℕ };

    /// Takes the next cell. Error: the sink failed; then it takes nothing.
    fn put(&mut self, sent: &Sent) -> Result<(), SinkFault>
        ensures taken { taken self.new ≡ option_map (λ cells. cells ++ taken_by sent.now result) (taken self.old) }
        ensures counted { counted self.new ≡ option_map (λ n. counted_by n result) (counted self.old) }
        ensures failed { failed self.new ≡ failures_by (failed self.old) result };

    /// How many calls of `put` answered a fault. At the last value of 64 bits it counts no more.
    fn failures(&self) -> u64
        ensures { result ≡ failed self.now };
}

/// A sink that keeps its cells in memory. It fails if an allocation for a cell fails.
#[derive(Drop)]
pub struct MemorySink {
    sent: Vec<Sent>,
    failures: u64,
}

impl Model for MemorySink {
    ghost use Rattle.a429_workers.specs.Sinks.{SinkRecord};

    ghost Value = { SinkRecord };

    ghost view = { λ s. record { sent = s.sent.items; failures = s.failures } };
}

impl MemorySink {
    /// A sink that took nothing.
    pub fn new(alloc: Global) -> MemorySink
        ensures { result ≡ record { sent = []; failures = 0 } }
    {
        MemorySink {
            sent: Vec::new(alloc),
            failures: 0,
        }
    }

    /// The cells that it took, in order.
    pub fn sent(&self) -> &[Sent]
        ensures { result.now ≡ self.now.sent }
    {
        self.sent.as_slice()
    }
}

// Keeps one more cell. Error: an allocation failed.
fn keep(kept: &mut Vec<Sent>, sent: Sent) -> Result<(), SinkFault>
    ensures { kept.new.items ≡ kept.old.items ++ taken_by sent result }
{
    // The borrow checker needs the type of the word.
    let _word = sent.word;
    kept.push(sent).map_err(|_| SinkFault)
}

impl BusSink for MemorySink {
    ghost use Rattle.std.specs.Prelude.{Some};

    ghost taken = { λ s. Some s.sent };

    ghost failed = { λ s. s.failures };

    fn put(&mut self, sent: &Sent) -> Result<(), SinkFault> {
        let MemorySink {
            sent: kept,
            failures,
        } = self;
        let answer = keep(kept, *sent);
        if answer.is_err() {
            *failures = failures.saturating_add(1);
        }
        answer
    }

    fn failures(&self) -> u64 {
        self.failures
    }
}

/// A sink that counts its cells and keeps none. It never fails, and it does not say which cells it took.
#[derive(Clone, Copy, PartialEq, Eq)]
pub struct CountSink {
    count: u64,
}

impl Model for CountSink {
    ghost use Rattle.std.specs.Prelude.{ℕ};

    ghost Value = { ℕ };

    ghost view = { λ s. s.count };

    ghost inverse = { λ n. record { count = n } };
}

impl CountSink {
    /// A sink that took nothing.
    pub fn new() -> CountSink
        ensures { result ≡ 0 }
    {
        CountSink { count: 0 }
    }

    /// How many cells it took, up to the last value of 64 bits.
    pub fn count(&self) -> u64
        ensures { result ≡ self.now }
    {
        self.count
    }
}

impl BusSink for CountSink {
    ghost use Rattle.std.specs.Prelude.{None, Some};

    ghost taken = { λ _. None };

    ghost counted = { λ s. Some s };

    ghost failed = { λ _. 0 };

    fn put(&mut self, _sent: &Sent) -> Result<(), SinkFault> {
        self.count = self.count.saturating_add(1);
        Ok(())
    }

    fn failures(&self) -> u64 {
        0
    }
}
