//! A receiver and its line, of any length.
ghost use Rattle.std.specs.Prelude.{IfOk};
ghost use Rattle.a429_workers.specs.Receives.{IsSameReceiver};
ghost use Rattle.a429_uses.specs.Listening.{HasHeard, HasListened, HasListenedToEnd, heard_at};

use a429_filter::{LineSource, SourceFault};
use a429_values::{Accept, Receiver};
use a429_workers::{Gate, Point};

/// How many words of a line a receiver accepted, and how many it refused, as far as 64 bits count.
#[derive(Clone, Copy)]
pub struct LineCount {
    pub accepted: u64,
    pub refused: u64,
}

/// Gives the next word of a line to a receiver, and counts its answer. Answers whether the line had one. The error is
/// that the line failed: the next call goes on.
fn hear<L: LineSource>(
    line: &mut L,
    receiver: &mut Receiver,
    heard: &mut LineCount,
) -> Result<bool, SourceFault>
    ensures heard { HasHeard L.LineSource (heard_at line.old receiver.old heard.old) (heard_at line.new receiver.new heard.new) result }
    ensures same { IsSameReceiver receiver.old receiver.new }
{
    let Some(raw) = line.next()? else {
        return Ok(false);
    };
    match receiver.accept(raw) {
        Accept::Accepted(_) => heard.accepted = heard.accepted.saturating_add(1),
        Accept::Parity | Accept::Filtered | Accept::NoSource | Accept::CountSpent => {
            heard.refused = heard.refused.saturating_add(1)
        }
    }
    Ok(true)
}

/// Takes the words of a line for a receiver until the line ends, without a limit. Error: the line failed, or the gate
/// ended the loop after a word. In any case the receiver took each word that the line gave. The call allocates no
/// memory.
#[tactic(auto, using(crate::proofs::Listened::none_heard, crate::proofs::Listened::heard_more, crate::proofs::Listened::heard_end, crate::proofs::Listened::heard_is_listened, a429_workers::proofs::Hearing::same_receiver))]
pub fn listen<L: LineSource, G: Gate>(
    line: &mut L,
    receiver: &mut Receiver,
    gate: &G,
) -> anyhow::Result<LineCount>
    ensures listened { HasListened L.given line.old receiver.old line.new receiver.new }
    ensures whole { IfOk result (HasListenedToEnd L.LineSource line.old receiver.old line.new receiver.new) }
    ensures same { IsSameReceiver receiver.old receiver.new }
{
    let number = receiver.number();
    let mut heard = LineCount {
        accepted: 0,
        refused: 0,
    };
    for place in 0..u64::MAX {
        if !hear(line, receiver, &mut heard)? {
            return Ok(heard);
        }
        gate.pass(Point::AfterAccept(number, place), &*receiver)?;
    }
    Ok(heard)
}
