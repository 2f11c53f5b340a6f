//! A station that runs: its receivers and groups at once.
ghost use Rattle.std.specs.Prelude.{◌≡◌, ◌+◌, ◌<◌, ◌≤◌, [], length, vec_len, IfOk, IfErr, OnOk, map};
ghost use Rattle.std.specs.List.{AllByRecursion};
ghost use Rattle.a429_workers.specs.Gates.{points_of};
ghost use Rattle.a429_slots.specs.Planned.{IsPlanOf};
ghost use Rattle.a429_slots.specs.Tables.{groups_of};
ghost use Rattle.a429_board.specs.Lists.{beginner};
ghost use Rattle.a429_workers.specs.Runs.{IsWired};
ghost use Rattle.a429_workers.specs.Transmitting.{BeginsWith};
ghost use Rattle.a429_station.specs.Course.{HasRun, HasRunBeside, asked, done_by};
ghost use Rattle.a429_station.specs.Faults.{IsLiveFault, IsRunFault};
ghost use Rattle.a429_station.specs.Resubmitting.{HasFewSlots, IsBegun};
ghost use Rattle.a429_station.specs.Workers.{AreListening, AreSending};

use crate::control::Control;
use crate::faults::LiveFault;
use crate::lists::put;
use crate::reports::{Report, report_all};
use crate::station::Station;
use crate::threads::run_at_once;
use crate::working::{GroupWorker, ReceiverWorker, group_worker};
use a429_board::{Board, Watcher};
use a429_equipment::laws::{numbers_in_range, sources_apart};
use a429_equipment::{COUNT_BITS, Equipment, FRAMES, SOURCES};
use a429_filter::LineSource;
use a429_slots::{OUTPUTS, Plan, plan};
use a429_values::{Desk, Hub, HubFault};
use a429_workers::{BusSink, Gate, OpenFault, Transmit};
use core::mem::drop;
use std::alloc::{AllocError, Global};
use std::sync::Wait;
use std::thread::Threads;

pub(crate) type Values = Hub<SOURCES, COUNT_BITS>;

/// The receivers of a station, each with its line. None was given out before.
fn receivers<'a, L: LineSource + Drop, G: Gate>(
    alloc: Global,
    hub: &Values,
    desk: &mut Desk,
    sources: Vec<L>,
    gate: &'a G,
) -> Result<Vec<ReceiverWorker<'a, L, G>>, AllocError>
    requires hub { desk.old.at ≡ hub.now }
    requires none { desk.old.receivers ≡ [] }
    requires sources { vec_len sources ≤ length hub.now.station.receivers }
    ensures workers { IfOk result (λ workers. AreListening hub.now gate.now sources.items workers.items) }
    ensures desk { OnOk result ((desk.new.at ≡ desk.old.at) × (desk.new.transmitters ≡ desk.old.transmitters)) }
{
    let Ok(mut workers) = Vec::with_capacity(alloc, sources.len()) else {
        return Err(AllocError);
    };
    for line in sources {
        let number = workers.len();
        let receiver = match desk.receiver(alloc, hub, number) {
            Ok(receiver) => receiver,
            Err(HubFault::AlreadyTaken) => unreachable!(),
            Err(HubFault::NoMemory) => return Err(AllocError),
        };
        put(
            &mut workers,
            ReceiverWorker {
                line,
                receiver,
                number,
                gate,
            },
        );
    }
    Ok(workers)
}

/// The transmitter of a group, at slot 0. It was not given out before.
fn transmitter(
    alloc: Global,
    hub: &Values,
    desk: &mut Desk,
    watcher: Watcher,
    group: usize,
) -> Result<Transmit, AllocError>
    requires hub { desk.old.at ≡ hub.now }
    requires group { group < length hub.now.station.groups }
    requires earlier { AllByRecursion (λ g. g < group) desk.old.transmitters }
    requires planned { group < length (groups_of watcher.opened) }
    requires small { HasFewSlots watcher.opened }
    ensures desk { desk.new.at ≡ desk.old.at }
    ensures given { IfOk result (λ t. AllByRecursion (λ g. g < group + 1) desk.new.transmitters) }
    ensures transmitter { IfOk result (λ t. t.transmitter ≡ record { at = hub.now; number = group; loads = [] }) }
    ensures watcher { IfOk result (λ t. t.watcher ≡ watcher) }
    ensures begins { IfOk result (λ t. BeginsWith t.transmitter t.watcher 0 t × (t.frame.sent ≡ 0)) }
{
    let transmitter = match desk.transmitter(hub, group) {
        Ok(transmitter) => transmitter,
        Err(HubFault::AlreadyTaken) => unreachable!(),
        Err(HubFault::NoMemory) => return Err(AllocError),
    };
    match Transmit::open(alloc, transmitter, watcher, group, 0) {
        Ok(transmit) => Ok(transmit),
        Err(OpenFault::SlotsSpent) => unreachable!(),
        Err(OpenFault::NoMemory) => Err(AllocError),
    }
}

/// The groups of a station, each with its sink. None was given out before.
fn groups<'a, R: Wait, B: BusSink + Drop, G: Gate>(
    alloc: Global,
    hub: &Values,
    desk: &mut Desk,
    station: &Station<'_, R>,
    watchers: Vec<Watcher>,
    sinks: Vec<B>,
    frames: u32,
    gate: &'a G,
) -> Result<Vec<GroupWorker<'a, B, G>>, AllocError>
    requires hub { desk.old.at ≡ hub.now }
    requires none { desk.old.transmitters ≡ [] }
    requires sinks { vec_len sinks ≤ length hub.now.station.groups }
    requires planned { vec_len sinks ≤ length (groups_of station.now.planner.last) }
    requires small { HasFewSlots station.now.planner.last }
    requires watchers { AllByRecursion (λ w. w ≡ beginner station.now.planner) watchers.items }
    requires enough { vec_len sinks ≤ vec_len watchers }
    ensures workers { IfOk result (λ workers. AreSending hub.now station.now.planner frames gate.now sinks.items workers.items) }
{
    let Ok(mut workers) = Vec::with_capacity(alloc, sinks.len()) else {
        return Err(AllocError);
    };
    let mut watchers = watchers;
    for sink in sinks {
        let Some(watcher) = watchers.pop() else {
            unreachable!()
        };
        let number = workers.len();
        let Ok(transmit) = transmitter(alloc, hub, desk, watcher, number) else {
            return Err(AllocError);
        };
        put(
            &mut workers,
            group_worker(transmit, sink, number, frames, gate),
        );
    }
    Ok(workers)
}

/// The receivers and the groups of a hub that has given none out, and the control, at once; then what was done.
fn run_at<
    R: Threads + Wait,
    L: LineSource + Send + Drop,
    B: BusSink + Send + Drop,
    G: Gate + Sync,
    K: Control<R>,
>(
    rt: &R,
    alloc: Global,
    hub: &Values,
    desk: &mut Desk,
    station: &mut Station<'_, R>,
    watchers: Vec<Watcher>,
    sources: Vec<L>,
    sinks: Vec<B>,
    frames: u32,
    gate: &G,
    control: &mut K,
) -> Result<Report<L, B>, LiveFault>
    requires desk { desk.old ≡ record { at = hub.now; receivers = []; transmitters = [] } }
    requires hub { IsWired hub.now.station × (hub.now.station ≡ station.old.station) }
    requires sources { vec_len sources ≡ length hub.now.station.receivers }
    requires sinks { vec_len sinks ≡ length hub.now.station.groups }
    requires begun { IsBegun station.old }
    requires few { frames ≤ 1000000 }
    requires watchers { AllByRecursion (λ w. w ≡ beginner station.old.planner) watchers.items }
    requires enough { vec_len sinks ≤ vec_len watchers }
    ensures ran { IfOk result (HasRunBeside (done_by K.Control control.old control.new) L.LineSource B.BusSink
        (asked hub.now.station frames sources.items sinks.items)) }
    ensures fault { IfErr result (IsRunFault (control.new ≡ control.old) L.LineSource B.BusSink (points_of G.Gate gate.now)
        (asked hub.now.station frames sources.items sinks.items)) }
{
    let Ok(receiving) = receivers(alloc, hub, desk, sources, gate) else {
        return Err(LiveFault::NoMemory);
    };
    let Ok(sending) = groups(alloc, hub, desk, station, watchers, sinks, frames, gate) else {
        return Err(LiveFault::NoMemory);
    };
    let Ok(done) = run_at_once(rt, alloc, receiving, sending, station, control) else {
        return Err(LiveFault::Join);
    };
    station.plans_are_of_station();
    report_all(alloc, hub, station, done)
}

/// Opens the hub of a station, and runs it.
fn run<
    R: Threads + Wait,
    L: LineSource + Send + Drop,
    B: BusSink + Send + Drop,
    G: Gate + Sync,
    K: Control<R>,
>(
    rt: &R,
    alloc: Global,
    equipment: &Equipment,
    station: &mut Station<'_, R>,
    watchers: Vec<Watcher>,
    sources: Vec<L>,
    sinks: Vec<B>,
    frames: u32,
    gate: &G,
    control: &mut K,
) -> Result<Report<L, B>, LiveFault>
    requires station { station.old.station ≡ equipment.now }
    requires sources { vec_len sources ≡ length equipment.now.receivers }
    requires sinks { vec_len sinks ≡ length equipment.now.groups }
    requires begun { IsBegun station.old }
    requires few { frames ≤ 1000000 }
    requires watchers { AllByRecursion (λ w. w ≡ beginner station.old.planner) watchers.items }
    requires enough { vec_len sinks ≤ vec_len watchers }
    ensures ran { IfOk result (HasRunBeside (done_by K.Control control.old control.new) L.LineSource B.BusSink
        (asked equipment.now frames sources.items sinks.items)) }
    ensures fault { IfErr result (IsRunFault (control.new ≡ control.old) L.LineSource B.BusSink (points_of G.Gate gate.now)
        (asked equipment.now frames sources.items sinks.items)) }
{
    numbers_in_range(equipment);
    sources_apart(equipment);
    let Ok(opened) = Values::open(alloc, equipment) else {
        return Err(LiveFault::NoMemory);
    };
    let (hub, mut desk) = opened;
    let ended = run_at(
        rt, alloc, &hub, &mut desk, station, watchers, sources, sinks, frames, gate, control,
    );
    // `drop` keeps the proof short: a drop in place goes through all parts of both.
    drop(desk);
    drop(hub);
    ended
}

/// Runs a station: of its equipment, with a source for the line of each receiver and a sink for each group. One thread
/// for each receiver takes the words of its line. One thread for each group sends this number of frames from slot 0 on.
/// At the same time the calling thread runs the control. Answers their totals when all have ended, with the devices.
///
/// Then each receiver took the words that its source gave up to its end, and each sink took the cells of this number of
/// whole frames. What a group did is one run of the machine: its calls meet the premises of
/// `a429_workers::laws::one_run`. The run has the equipment's plan from slot 0 on, the plans that were published during
/// it, and what all receivers accepted. In the end the group's transmitter met each receiver. Those plans were
/// published while the control ran. What the control says of its run is true between a station that began by the
/// equipment's plan and one that has published them.
///
/// Errors before anything is started, in this order: `Plan` if the equipment has no plan, `TooMuch` for more than a
/// million frames. `Join` if a thread could not be started or joined. When all have ended: the fault of the first
/// receiver that has one (`Source`, `Gate`, or `TooMuch` if its source gave a word after a million); otherwise that of
/// the first group (`Sink`, `Gate`); otherwise `NoMemory` of the control. `NoMemory` may also come before the control
/// ran, or instead of the report if no worker has a fault. `Gate` comes only at a point at which the gate may end a
/// loop, and to which the worker's loop had come.
pub fn live<
    R: Threads + Wait,
    L: LineSource + Send + Drop,
    B: BusSink + Send + Drop,
    G: Gate + Sync,
    K: Control<R>,
>(
    rt: &R,
    alloc: Global,
    equipment: &Equipment,
    sources: Vec<L>,
    sinks: Vec<B>,
    frames: u32,
    gate: &G,
    control: &mut K,
) -> Result<Report<L, B>, LiveFault>
    requires sources { vec_len sources ≡ length equipment.now.receivers }
    requires sinks { vec_len sinks ≡ length equipment.now.groups }
    ensures ran { IfOk result (HasRun L.LineSource B.BusSink (asked equipment.now frames sources.items sinks.items)) }
    ensures told { IfOk result (HasRunBeside (done_by K.Control control.old control.new) L.LineSource B.BusSink
        (asked equipment.now frames sources.items sinks.items)) }
    ensures fault { IfErr result (IsLiveFault (control.new ≡ control.old) L.LineSource B.BusSink (points_of G.Gate gate.now)
        (asked equipment.now frames sources.items sinks.items)) }
{
    numbers_in_range(equipment);
    let plan = match plan(alloc, equipment) {
        Ok(plan) => plan,
        Err(fault) => return Err(LiveFault::Plan(fault)),
    };
    live_planned(
        rt, alloc, equipment, plan, sources, sinks, frames, gate, control,
    )
}

/// Runs a station like `live`, by a plan of its equipment that was made before. The errors are those of `live`, except
/// that there is no `Plan`.
pub fn live_planned<
    R: Threads + Wait,
    L: LineSource + Send + Drop,
    B: BusSink + Send + Drop,
    G: Gate + Sync,
    K: Control<R>,
>(
    rt: &R,
    alloc: Global,
    equipment: &Equipment,
    plan: Plan<OUTPUTS>,
    sources: Vec<L>,
    sinks: Vec<B>,
    frames: u32,
    gate: &G,
    control: &mut K,
) -> Result<Report<L, B>, LiveFault>
    requires sources { vec_len sources ≡ length equipment.now.receivers }
    requires planned { IsPlanOf equipment.now plan }
    requires sinks { vec_len sinks ≡ length equipment.now.groups }
    ensures ran { IfOk result (HasRun L.LineSource B.BusSink (asked equipment.now frames sources.items sinks.items)) }
    ensures told { IfOk result (HasRunBeside (done_by K.Control control.old control.new) L.LineSource B.BusSink
        (asked equipment.now frames sources.items sinks.items)) }
    ensures fault { IfErr result (IsLiveFault (control.new ≡ control.old) L.LineSource B.BusSink (points_of G.Gate gate.now)
        (asked equipment.now frames sources.items sinks.items)) }
{
    if frames > FRAMES {
        return Err(LiveFault::TooMuch);
    }
    equipment.rows_are_sound();
    let watchers = equipment.groups().len().max(1) as u32;
    let Ok(opened) = Board::open(rt, alloc, plan, watchers) else {
        return Err(LiveFault::NoMemory);
    };
    let (planner, watchers) = opened;
    let mut station = Station::of_planner(rt, alloc, equipment, planner);
    let answer = run(
        rt,
        alloc,
        equipment,
        &mut station,
        watchers,
        sources,
        sinks,
        frames,
        gate,
        control,
    );
    station.close();
    answer
}
