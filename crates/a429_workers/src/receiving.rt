//! The loop of a receiver.
ghost use Rattle.std.specs.Prelude.{◌≡◌, ◌+◌, ◌<◌, ◌∷◌, [], ℕ, true, OnOk, OnErr};
ghost use Rattle.a429_values.specs.Ends.{accept_answer};
ghost use Rattle.a429_workers.specs.Gates.{HasTaken, IsHeardAt, IsShutAt, listening, point_after_word, point_before_word, points_of};
ghost use Rattle.a429_workers.specs.Receives.{AreAtMost, IsSameReceiver, after_words, counted, source_failures};

use crate::gates::{Gate, GateFault, Point};
use a429_equipment::WORDS;
use a429_filter::LineSource;
use a429_values::{Accept, Receiver};
use thiserror::Error;

/// How many words of a line a receiver accepted, and how many it refused for which reason.
#[derive(Clone, Copy, Debug, PartialEq, Eq)]
pub struct ReceiveTotals {
    pub accepted: u64,
    pub parity: u64,
    pub filtered: u64,
    pub no_source: u64,
    pub spent: u64,
}

/// Why the loop of a receiver ended before its line.
#[derive(Clone, Copy, Debug, PartialEq, Eq, Error)]
pub enum ReceiveFault {
    /// The line failed.
    #[error("the line's source failed")]
    Source,
    /// The gate ended the loop.
    #[error("the gate is shut")]
    Gate,
    /// The line gave a million words and then this one, which is handed back: the receiver has not taken it. With it
    /// come the totals of the million before it.
    #[error("too many words")]
    TooMuch { raw: u32, totals: ReceiveTotals },
}

/// Counts one more answer.
fn count(totals: &mut ReceiveTotals, answer: Accept)
    requires room { (n : ℕ) × AreAtMost n totals.old × (n < 1000000) }
    ensures { totals.new ≡ counted totals.old answer }
{
    match answer {
        Accept::Accepted(_) => totals.accepted += 1,
        Accept::Parity => totals.parity += 1,
        Accept::Filtered => totals.filtered += 1,
        Accept::NoSource => totals.no_source += 1,
        Accept::CountSpent => totals.spent += 1,
    }
}

/// One word passes the gate, goes to the receiver, and passes the gate again.
fn receive<G: Gate>(
    receiver: &mut Receiver,
    number: usize,
    place: u64,
    raw: u32,
    totals: &mut ReceiveTotals,
    gate: &G,
) -> Result<(), GateFault>
    requires room { AreAtMost place totals.old × (place < 1000000) }
    ensures ok { OnOk result (receiver.new ≡ after_words receiver.old (raw ∷ [])) }
    ensures totals { OnOk result (totals.new ≡ counted totals.old (accept_answer receiver.old raw)) }
    ensures same { IsSameReceiver receiver.old receiver.new }
    ensures passed { OnOk result (G.passes gate.now (point_before_word number place) × G.passes gate.now (point_after_word number place)) }
    ensures order { OnOk result (IsHeardAt (points_of G.Gate gate.now) number place raw totals.old receiver.old receiver.new) }
    ensures shut { OnErr result (IsShutAt (points_of G.Gate gate.now) number place raw totals.old receiver.old receiver.new) }
{
    gate.pass(Point::BeforeAccept(number, place), &*receiver)?;
    let answer = receiver.accept(raw);
    count(totals, answer);
    gate.tell_counted(answer, totals);
    gate.pass(Point::AfterAccept(number, place), &*receiver)
}

/// Takes the words of a line for a receiver, each between two points of the gate, until the line ends. The gate is
/// shown the receiver before the word and after it, and given the answer between. Answers how many it accepted and
/// refused. Errors: `Source` if the line failed. `TooMuch` if the line gave a word after a million: this word comes
/// with the error, before its gate, and the receiver has not taken it; the totals of the million come too. `Gate` if
/// the gate ended the loop, at the point that the loop had reached. A word is taken only after its first point. On an
/// error, what was taken stays taken, and what was accepted stays accepted. After `TooMuch` nothing is lost: give the
/// word to `Receiver::accept` and call again. The call allocates no memory.
pub fn receive_all<L: LineSource, G: Gate>(
    line: &mut L,
    receiver: &mut Receiver,
    number: usize,
    gate: &G,
) -> Result<ReceiveTotals, ReceiveFault>
    ensures taken { HasTaken L.LineSource (points_of G.Gate gate.now) number
        (listening line.old receiver.old) (listening line.new receiver.new) result }
    ensures same { IsSameReceiver receiver.old receiver.new }
    ensures ended { OnOk result (L.ended line.new ≡ true) }
    ensures failed { L.failed line.new ≡ source_failures (L.failed line.old) result }
{
    let mut totals = ReceiveTotals {
        accepted: 0,
        parity: 0,
        filtered: 0,
        no_source: 0,
        spent: 0,
    };
    for place in 0..WORDS {
        let raw = match line.next() {
            Ok(Some(raw)) => raw,
            Ok(None) => return Ok(totals),
            Err(_) => return Err(ReceiveFault::Source),
        };
        if let Err(_) = receive(receiver, number, place, raw, &mut totals, gate) {
            return Err(ReceiveFault::Gate);
        }
    }
    match line.next() {
        Ok(Some(raw)) => Err(ReceiveFault::TooMuch { raw, totals }),
        Ok(None) => Ok(totals),
        Err(_) => Err(ReceiveFault::Source),
    }
}
