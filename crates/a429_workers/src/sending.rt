//! The loop of a group.
ghost use Rattle.std.specs.Prelude.{◌≡◌, ◌≤◌, ◌+◌, ◌<◌, ◌^◌, OnOk, IfErr};
ghost use Rattle.a429_slots.specs.Tables.{cells_of};
ghost use Rattle.a429_workers.specs.GateOrder.{IsCellUntil, IsFrameInOrder, IsLoopInOrder};
ghost use Rattle.a429_workers.specs.Gates.{HaveCellsPassed, IsGatedGroup, points_of};
ghost use Rattle.a429_workers.specs.Transmitting.{IsSameGroup};
ghost use Rattle.a429_workers.specs.declared.sending.SendFault.TheVariants.{Change};
ghost use Rattle.a429_workers.specs.Sends.{AreSent, IsCell, IsFrame, IsTurn, sending, sink_failures};

use crate::gates::{Gate, Point};
use crate::sinks::BusSink;
use crate::transmit::Transmit;
use thiserror::Error;

/// How many cells a group sent, how many of them with a word, and the number of the plan in force at the end.
#[derive(Clone, Copy, PartialEq, Eq)]
pub struct SendTotals {
    pub cells: u64,
    pub words: u64,
    pub plan: u64,
}

/// Why the loop of a group ended before its last cell.
#[derive(Clone, Copy, Debug, PartialEq, Eq, Error)]
pub enum SendFault {
    /// The gate ended the loop.
    #[error("the gate is shut")]
    Gate,
    /// The sink failed.
    #[error("the sink failed")]
    Sink,
    /// The slots of the next frame cannot be counted in 64 bits.
    #[error("slots spent")]
    Change,
}

/// One cell: it passes the gate, is asked for, goes to the sink, and passes the gate again.
#[inline(always)]
fn send_cell<B: BusSink, G: Gate>(
    transmit: &mut Transmit,
    sink: &mut B,
    group: usize,
    totals: &mut SendTotals,
    gate: &G,
) -> Result<(), SendFault>
    requires due { transmit.old.frame.sent < cells_of transmit.old.frame.table }
    requires room { (totals.old.words ≤ totals.old.cells) × (totals.old.cells + 1 < 2 ^ 64) }
    requires passed { HaveCellsPassed (G.passes gate.now) group totals.old.cells }
    ensures done { IsCell transmit.old transmit.new (B.taken sink.old) (B.taken sink.new) totals.old totals.new result }
    ensures same { IsSameGroup transmit.old transmit.new }
    ensures few { OnOk result ((totals.new.words ≤ totals.new.cells) × (totals.new.cells ≡ totals.old.cells + 1)) }
    ensures failed { B.failed sink.new ≡ sink_failures (B.failed sink.old) result }
    ensures gate { IsGatedGroup (points_of G.Gate gate.now) group totals.new.cells result }
    ensures order { IsCellUntil (points_of G.Gate gate.now) B.BusSink group totals.old.cells totals.new.cells sink.old sink.new result }
{
    if let Err(_) = gate.pass(Point::BeforeCell(group, totals.cells), &*sink) {
        return Err(SendFault::Gate);
    }
    let Ok(sent) = transmit.cell() else {
        unreachable!()
    };
    if let Err(_) = sink.put(&sent) {
        return Err(SendFault::Sink);
    }
    let place = totals.cells;
    totals.cells += 1;
    totals.words += u64::from(sent.word.is_some());
    if let Err(_) = gate.pass(Point::AfterCell(group, place), &*sink) {
        return Err(SendFault::Gate);
    }
    Ok(())
}

/// The cells of a frame, from its first on.
#[inline(always)]
fn send_frame<B: BusSink, G: Gate>(
    transmit: &mut Transmit,
    sink: &mut B,
    group: usize,
    totals: &mut SendTotals,
    gate: &G,
) -> Result<(), SendFault>
    requires begins { transmit.old.frame.sent ≡ 0 }
    requires room { (totals.old.words ≤ totals.old.cells) × (totals.old.cells + 131072 < 2 ^ 64) }
    requires passed { HaveCellsPassed (G.passes gate.now) group totals.old.cells }
    ensures done { IsFrame transmit.old transmit.new (B.taken sink.old) (B.taken sink.new) totals.old totals.new result }
    ensures same { IsSameGroup transmit.old transmit.new }
    ensures few { OnOk result ((totals.new.words ≤ totals.new.cells) × (totals.new.cells ≤ totals.old.cells + 131072)) }
    ensures failed { B.failed sink.new ≡ sink_failures (B.failed sink.old) result }
    ensures gate { IsGatedGroup (points_of G.Gate gate.now) group totals.new.cells result }
    ensures order { IsFrameInOrder (points_of G.Gate gate.now) B.BusSink group totals.old.cells totals.new.cells sink.old sink.new result }
{
    for _ in 0..transmit.cells() {
        send_cell(transmit, sink, group, totals, gate)?;
    }
    Ok(())
}

/// Takes the next frame, if the one before is over.
fn next_frame(transmit: &mut Transmit) -> Result<(), SendFault>
    requires over { transmit.old.frame.sent ≡ cells_of transmit.old.frame.table }
    ensures turn { IsTurn transmit.old transmit.new result }
    ensures same { IsSameGroup transmit.old transmit.new }
    ensures change { IfErr result (λ fault. fault ≡ Change) }
{
    match transmit.change() {
        Ok(_) => Ok(()),
        Err(_) => Err(SendFault::Change),
    }
}

/// Sends this number of whole frames of a group, from the first cell of a frame on; between two frames it goes on to
/// the next one. Each cell passes the gate, is asked for, goes to the sink, and passes the gate again. The gate is
/// shown the sink without the cell, and then with it. Answers how many cells were sent. Errors: `Sink` if the sink
/// failed: it took all cells except the last. `Change` if 64 bits cannot count the slots of the next frame. `Gate` if
/// the gate ended the loop, at the point that the loop had reached. A cell is asked for only after its first point. On
/// an error, what was sent stays sent, and frames that were taken stay taken. Only the sink may allocate memory.
#[inline(always)]
pub fn send_frames<B: BusSink, G: Gate>(
    transmit: &mut Transmit,
    sink: &mut B,
    group: usize,
    frames: u32,
    gate: &G,
) -> Result<SendTotals, SendFault>
    requires { transmit.old.frame.sent ≡ 0 }
    ensures same { IsSameGroup transmit.old transmit.new }
    ensures sent { AreSent (points_of G.Gate gate.now) group frames
        (sending transmit.old (B.taken sink.old)) (sending transmit.new (B.taken sink.new)) result }
    ensures order { IsLoopInOrder (points_of G.Gate gate.now) B.BusSink group sink.old sink.new result }
    ensures failed { B.failed sink.new ≡ sink_failures (B.failed sink.old) result }
{
    let mut totals = SendTotals {
        cells: 0,
        words: 0,
        plan: transmit.plan(),
    };
    if frames == 0 {
        return Ok(totals);
    }
    send_frame(transmit, sink, group, &mut totals, gate)?;
    for _ in 1..frames {
        next_frame(transmit)?;
        send_frame(transmit, sink, group, &mut totals, gate)?;
    }
    Ok(SendTotals {
        plan: transmit.plan(),
        ..totals
    })
}
