//! A station of one receiver and one group on threads.
ghost use Rattle.std.specs.Prelude.{◌≡◌, ◌<◌, ◌∷◌, [], All, IfOk, IfSome, length};
ghost use Rattle.std.specs.List.{AllByRecursion};
ghost use Rattle.a429_slots.specs.Planned.{IsPlanOf};
ghost use Rattle.a429_board.specs.Lists.{beginner};
ghost use Rattle.a429_workers.specs.Receives.{IsSameReceiver};
ghost use Rattle.a429_workers.specs.Transmitting.{IsKnownPlan, IsSameGroup};
ghost use Rattle.a429_uses.specs.Devices.{PrintedGivenWords, TellsTaken};
ghost use Rattle.a429_uses.specs.Histories.{items_of};
ghost use Rattle.a429_uses.specs.Listening.{HasListened};
ghost use Rattle.a429_uses.specs.Stations.{AreFresh, HasSentCells, GroupIsBegun, EndsAreReady, TookWordsOfLine};

use crate::bus::PrintBus;
use crate::control::PublishControl;
use crate::line::HexLine;
use crate::listening::{LineCount, listen};
use a429_board::{Board, Planner, Watcher};
use a429_equipment::laws::numbers_in_range;
use a429_equipment::{COUNT_BITS, Equipment, SOURCES};
use a429_filter::LineSource;
use a429_slots::{OUTPUTS, Plan, plan};
use a429_values::{Hub, HubFault, Receiver, Transmitter};
use a429_workers::{BusSink, Gate, SendFault, SendTotals, Transmit, send_frames};
use anyhow::bail;
use std::alloc::Global;
use std::io::{BufRead, Write};
use std::sync::Wait;
use std::thread::{Threads, join_mut};

/// What the threads of a station answered.
#[derive(Drop)]
pub struct StationAnswers {
    pub heard: anyhow::Result<LineCount>,
    pub sent: Result<SendTotals, SendFault>,
    pub published: anyhow::Result<u64>,
}

/// Opens the current values of a station: the ends of its receiver and of its first group.
fn open_values(alloc: Global, equipment: &Equipment) -> Result<(Receiver, Transmitter), HubFault>
    requires receiver { 0 < length equipment.now.receivers }
    requires group { 0 < length equipment.now.groups }
    ensures { IfOk result (λ ends. AreFresh equipment.now ends.0 ends.1) }
{
    numbers_in_range(equipment);
    let (hub, mut desk) = Hub::<SOURCES, COUNT_BITS>::open(alloc, equipment)?;
    let receiver = desk.receiver(alloc, &hub, 0)?;
    let transmitter = desk.transmitter(&hub, 0)?;
    Ok((receiver, transmitter))
}

/// One of these watchers, which are all at the beginning of a board.
fn one_of(watchers: &mut Vec<Watcher>, planner: &Planner) -> Option<Watcher>
    requires { All (λ w. w ≡ beginner planner.now) watchers.old.items }
    ensures { IfSome result (λ w. w ≡ beginner planner.now) }
{
    watchers.pop()
}

/// The group's transmitter at slot 0, by one of these watchers.
fn open_group(
    alloc: Global,
    transmitter: Transmitter,
    watchers: &mut Vec<Watcher>,
    planner: &Planner,
) -> anyhow::Result<Transmit>
    requires number { (transmitter.number ≡ 0) × (transmitter.loads ≡ []) }
    requires group { 0 < length planner.now.last.groups }
    requires watchers { All (λ w. w ≡ beginner planner.now) watchers.old.items }
    ensures { IfOk result (GroupIsBegun transmitter planner.now) }
{
    let Some(watcher) = one_of(watchers, planner) else {
        bail!("a watcher is wanted");
    };
    Ok(Transmit::open(alloc, transmitter, watcher, 0, 0)?)
}

/// Opens a board that begins with a plan, and the group's transmitter at slot 0 on it.
fn open_board<R: Wait>(
    rt: &R,
    alloc: Global,
    plan: Plan<OUTPUTS>,
    transmitter: Transmitter,
) -> anyhow::Result<(Transmit, Planner)>
    requires number { (transmitter.number ≡ 0) × (transmitter.loads ≡ []) }
    requires group { 0 < length plan.groups }
    ensures begun { IfOk result (λ ends. GroupIsBegun transmitter ends.1 ends.0) }
    ensures plans { IfOk result (λ ends. ends.1.list ≡ plan ∷ []) }
{
    let (planner, mut watchers) = Board::open(rt, alloc, plan, 1)?;
    match open_group(alloc, transmitter, &mut watchers, &planner) {
        Ok(transmit) => Ok((transmit, planner)),
        Err(fault) => {
            planner.close(rt);
            Err(fault)
        }
    }
}

/// The ends of a station of one receiver and one group.
struct StationEnds {
    receiver: Receiver,
    transmit: Transmit,
    planner: Planner,
}

/// Opens a station: its current values, and a board that begins with its plan.
fn open_station<R: Wait>(
    rt: &R,
    alloc: Global,
    equipment: &Equipment,
) -> anyhow::Result<StationEnds>
    requires receiver { 0 < length equipment.now.receivers }
    requires group { 0 < length equipment.now.groups }
    ensures { IfOk result (λ ends. EndsAreReady equipment.now ends.receiver ends.transmit ends.planner) }
{
    equipment.rows_are_sound();
    let plan = plan(alloc, equipment)?;
    let (receiver, transmitter) = open_values(alloc, equipment)?;
    let (transmit, planner) = open_board(rt, alloc, plan, transmitter)?;
    Ok(StationEnds {
        receiver,
        transmit,
        planner,
    })
}

/// Sends this number of frames of a group.
fn send<B: BusSink, G: Gate>(
    transmit: &mut Transmit,
    bus: &mut B,
    frames: u32,
    gate: &G,
) -> Result<SendTotals, SendFault>
    requires { transmit.old.frame.sent ≡ 0 }
    ensures sent { HasSentCells transmit.old transmit.new (B.taken bus.old) (B.taken bus.new) }
    ensures same { IsSameGroup transmit.old transmit.new }
{
    send_frames(transmit, bus, 0, frames, gate)
}

/// The receiver takes the words of its line on a thread of its own, and at the same time the calling one runs the
/// control.
fn listen_and_publish<R: Threads + Wait + Sync, L: LineSource + Send, G: Gate + Sync>(
    rt: &R,
    alloc: Global,
    station: &Equipment,
    line: &mut L,
    receiver: &mut Receiver,
    gate: &G,
    planner: &mut Planner,
    control: &PublishControl<'_>,
) -> (anyhow::Result<LineCount>, anyhow::Result<u64>)
    requires plans { AllByRecursion (IsKnownPlan station.now) planner.old.list }
    ensures listened { HasListened L.given line.old receiver.old line.new receiver.new }
    ensures same { IsSameReceiver receiver.old receiver.new }
    ensures plans { AllByRecursion (IsKnownPlan station.now) planner.new.list }
    ensures board { planner.new.book ≡ planner.old.book }
{
    join_mut(
        rt,
        &mut || listen(line, receiver, gate),
        &mut ||
            requires { AllByRecursion (IsKnownPlan station.now) planner.now.list }
        { control.run(rt, alloc, planner, station) },
    )
}

/// Runs the threads of a station: one sends this number of frames of the group, one takes the words of the line, and
/// the calling one runs the control. It returns when all have ended.
fn run_threads<R: Threads + Wait + Sync, L: LineSource + Send, B: BusSink + Send, G: Gate + Sync>(
    rt: &R,
    alloc: Global,
    station: &Equipment,
    line: &mut L,
    bus: &mut B,
    frames: u32,
    gate: &G,
    control: &PublishControl<'_>,
    ends: &mut StationEnds,
) -> StationAnswers
    requires begins { ends.old.transmit.frame.sent ≡ 0 }
    requires plans { AllByRecursion (IsKnownPlan station.now) ends.old.planner.list }
    ensures listened { HasListened L.given line.old ends.old.receiver line.new ends.new.receiver }
    ensures receiver { IsSameReceiver ends.old.receiver ends.new.receiver }
    ensures sent { HasSentCells ends.old.transmit ends.new.transmit (B.taken bus.old) (B.taken bus.new) }
    ensures group { IsSameGroup ends.old.transmit ends.new.transmit }
    ensures plans { AllByRecursion (IsKnownPlan station.now) ends.new.planner.list }
    ensures board { ends.new.planner.book ≡ ends.old.planner.book }
{
    let StationEnds {
        receiver,
        transmit,
        planner,
    } = ends;
    let (sent, (heard, published)) = join_mut(
        rt,
        &mut ||
            requires { transmit.now.frame.sent ≡ 0 }
        { send(transmit, bus, frames, gate) },
        &mut ||
            requires { AllByRecursion (IsKnownPlan station.now) planner.now.list }
        { listen_and_publish(rt, alloc, station, line, receiver, gate, planner, control) },
    );
    StationAnswers {
        heard,
        sent,
        published,
    }
}

/// Runs a station of one receiver and one group. All at once, the receiver takes the words of the line to its end, the
/// group sends this number of frames, and the control runs. Each word that the bus took is one that a source of the
/// table accepts, and that the line gave. This is so for any answers of the threads. Error: the station was not opened,
/// since the equipment has no plan or an allocation failed.
pub fn run_station<
    R: Threads + Wait + Sync,
    L: LineSource + Send,
    B: BusSink + Send,
    G: Gate + Sync,
>(
    rt: &R,
    alloc: Global,
    equipment: &Equipment,
    line: &mut L,
    bus: &mut B,
    frames: u32,
    gate: &G,
    control: &PublishControl<'_>,
) -> anyhow::Result<StationAnswers>
    requires receiver { length equipment.now.receivers ≡ 1 }
    requires group { 0 < length equipment.now.groups }
    ensures given { TookWordsOfLine equipment.now (L.given line.new) (B.taken bus.old) (B.taken bus.new) }
{
    numbers_in_range(equipment);
    let mut ends = open_station(rt, alloc, equipment)?;
    let done = run_threads(
        rt, alloc, equipment, line, bus, frames, gate, control, &mut ends,
    );
    let StationEnds {
        mut receiver,
        mut transmit,
        mut planner,
    } = ends;
    // Once they have met, all that the group loaded agrees with what the receiver accepted.
    let _valid = receiver.number();
    transmit.told(&mut planner);
    transmit.meet(&mut receiver);
    planner.close(rt);
    Ok(done)
}

/// Runs a station by `run_station`, whose words come in as text and go out as text. As long as its writer did not fail,
/// what the bus printed is the lines of cells. Each word in them is one that a source of the table accepts, and that the
/// line gave. It says so of writers that say what they took, such as a `Vec<u8>`. No clause covers what becomes of a text
/// on standard output. Error: that of `run_station`.
pub fn run_printing<
    R: Threads + Wait + Sync,
    I: BufRead + Send + Drop,
    W: Write + Send + Drop,
    G: Gate + Sync,
>(
    rt: &R,
    alloc: Global,
    equipment: &Equipment,
    line: &mut HexLine<I>,
    bus: &mut PrintBus<W>,
    frames: u32,
    gate: &G,
    control: &PublishControl<'_>,
) -> anyhow::Result<StationAnswers>
    requires receiver { length equipment.now.receivers ≡ 1 }
    requires group { 0 < length equipment.now.groups }
    requires begin { items_of bus.old.taken ≡ [] }
    ensures printed { TellsTaken W.contents
        → PrintedGivenWords equipment.now (items_of line.new.given) (W.contents bus.new.out) bus.new.failures }
{
    run_station(rt, alloc, equipment, line, bus, frames, gate, control)
}
