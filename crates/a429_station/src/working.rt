//! The workers of a running station: a receiver with its line, a group with its sink.
ghost use Rattle.std.specs.Prelude.{◌≡◌};

use crate::threads::Work;
use a429_filter::LineSource;
use a429_values::Receiver;
use a429_workers::{
    BusSink, Gate, ReceiveFault, ReceiveTotals, SendFault, SendTotals, Transmit, receive_all,
    send_frames,
};

/// A receiver with its line, before its loop.
#[derive(Drop)]
pub struct ReceiverWorker<'a, L: LineSource + Drop, G: Gate> {
    pub line: L,
    pub receiver: Receiver,
    pub number: usize,
    pub gate: &'a G,
}

/// A receiver with its line, after its loop.
#[derive(Drop)]
pub struct Received<L> {
    pub line: L,
    pub receiver: Receiver,
    pub answer: Result<ReceiveTotals, ReceiveFault>,
}

impl<'a, L: LineSource + Send + Drop, G: Gate + Sync> Work for ReceiverWorker<'a, L, G> {
    ghost use Rattle.a429_workers.specs.Gates.{listening, points_of};
    ghost use Rattle.a429_station.specs.Working.{HasReceived};

    type Done = Received<L>;

    ghost did = { λ w d. HasReceived L.LineSource (points_of G.Gate w.gate.now) w.number (listening w.line w.receiver)
        (listening d.line d.receiver) d.answer };

    fn work(self) -> Received<L> {
        let ReceiverWorker {
            mut line,
            mut receiver,
            number,
            gate,
        } = self;
        let answer = receive_all(&mut line, &mut receiver, number, gate);
        Received {
            line,
            receiver,
            answer,
        }
    }
}

/// A group with its sink, before its loop, at the first cell of a frame.
#[derive(Drop)]
pub struct GroupWorker<'a, B: BusSink + Drop, G: Gate> {
    pub transmit: Transmit,
    pub sink: B,
    pub number: usize,
    pub frames: u32,
    pub gate: &'a G,
    ghost begins: { transmit.frame.sent ≡ 0 },
}

/// A group with its sink, after its loop.
#[derive(Drop)]
pub struct Emitted<B> {
    pub transmit: Transmit,
    pub sink: B,
    pub answer: Result<SendTotals, SendFault>,
}

impl<'a, B: BusSink + Send + Drop, G: Gate + Sync> Work for GroupWorker<'a, B, G> {
    ghost use Rattle.a429_workers.specs.Gates.{points_of};
    ghost use Rattle.a429_station.specs.Working.{HasEmitted, emitting};

    type Done = Emitted<B>;

    ghost did = { λ w d. HasEmitted B.BusSink (points_of G.Gate w.gate.now) w.number w.frames (emitting w.transmit w.sink)
        (emitting d.transmit d.sink) d.answer };

    fn work(self) -> Emitted<B> {
        let GroupWorker {
            mut transmit,
            mut sink,
            number,
            frames,
            gate,
            ..
        } = self;
        let answer = send_frames(&mut transmit, &mut sink, number, frames, gate);
        Emitted {
            transmit,
            sink,
            answer,
        }
    }
}

/// A group at the first cell of a frame, with its sink.
pub(crate) fn group_worker<'a, B: BusSink + Drop, G: Gate>(
    transmit: Transmit,
    sink: B,
    number: usize,
    frames: u32,
    gate: &'a G,
) -> GroupWorker<'a, B, G>
    requires { transmit.frame.sent ≡ 0 }
    ensures group { (result.transmit ≡ transmit) × (result.sink ≡ sink) × (result.frames ≡ frames) }
    ensures gate { (result.number ≡ number) × (result.gate.now ≡ gate.now) }
{
    GroupWorker {
        transmit,
        sink,
        number,
        frames,
        gate,
    }
}
