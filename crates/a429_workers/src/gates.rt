//! Gates, which the loops of a station pass at each word and each cell.
ghost use Rattle.std.specs.Prelude.{⊤, OnErr, OnOk};
ghost use Rattle.a429_values.specs.declared.receiver.Accept.{Accept as Answer};
ghost use Rattle.a429_workers.specs.declared.gates.Point.{Point as At};
ghost use Rattle.a429_workers.specs.declared.receiving.ReceiveTotals.{ReceiveTotals as Totals};

use crate::receiving::ReceiveTotals;
use a429_values::Accept;
use thiserror::Error;

/// A place in a loop. Receivers and groups have their numbers; words and cells are counted from 0.
#[derive(Clone, Copy, PartialEq, Eq)]
pub enum Point {
    /// A receiver was given a word, and has not taken it yet.
    BeforeAccept(usize, u64),
    /// It took the word.
    AfterAccept(usize, u64),
    /// A group has a cell due, and has not asked for it yet.
    BeforeCell(usize, u64),
    /// Its sink took the cell.
    AfterCell(usize, u64),
}

/// The gate let nobody pass. The loop ends then.
#[derive(Clone, Copy, Debug, PartialEq, Eq, Error)]
#[error("the gate is shut")]
pub struct GateFault;

/// A test hook of loops: at each point it lets the loop pass, delays it, or ends it (profile: for tests of what runs at
/// once).
pub trait Gate {
    /// The points at which it may end a loop; by default all.
    ghost shuts: { Self → At → Type 0 } = { λ _ _. ⊤ };

    /// The points at which it may let a loop go on; by default all. A loop over any gate knows this of a point only by
    /// asking there.
    ghost passes: { Self → At → Type 0 } = { λ _ _. ⊤ };

    /// What holds once it was asked at a point and shown a value there; by default nothing more than before. A loop over
    /// any gate knows this of a receiver or a sink only by asking there while it is in that state.
    ghost asked: { Self → At → (S : Type 0) → S → Type 0 } = { λ _ _ _ _. ⊤ };

    /// What holds once it was given an answer and totals; by default nothing more than before. A loop over any gate knows
    /// this only by giving it these.
    ghost told: { Self → Answer → Totals → Type 0 } = { λ _ _ _. ⊤ };

    /// Lets the loop at this point go on. Error: the gate ends the loop here. The loop shows what it works on, as it is
    /// then: its receiver at the points of a word, its sink at those of a cell.
    fn pass<S>(&self, point: Point, shown: &S) -> Result<(), GateFault>
        ensures passed { OnOk result (passes self.now point) }
        ensures shut { OnErr result (shuts self.now point) }
        ensures asked { asked self.now point S shown.now };

    /// Gets the answer of a receiver to its last word, and what it counted so far: between the two points of that word.
    fn tell_counted(&self, answer: Accept, totals: &ReceiveTotals)
        ensures { told self.now answer totals.now };
}

/// A gate that always lets pass.
#[derive(Clone, Copy, PartialEq, Eq)]
pub struct OpenGate;

impl Gate for OpenGate {
    ghost shuts = { λ _ _. ⊥ };

    fn pass<S>(&self, _point: Point, _shown: &S) -> Result<(), GateFault> {
        Ok(())
    }

    fn tell_counted(&self, _answer: Accept, _totals: &ReceiveTotals) {}
}
