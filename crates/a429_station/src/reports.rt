//! What a station did, from what its workers did.
ghost use Rattle.std.specs.Prelude.{◌≡◌, ◌⊎◌, ◌++◌, ◌∷◌, [], Ok, None, Some, IfOk, IfErr, IsTrue, OnOk, is_ok, map, option_map};
ghost use Rattle.std.specs.List.{AllByRecursion};
ghost use Rattle.a429_station.specs.Faults.{IsFirstFault, first_fault, of_receiver};
ghost use Rattle.a429_station.specs.Numbered.{AllNumbered};
ghost use Rattle.a429_station.specs.Workers.{AreJoined, ReportsAllEnds, groups_fault, receivers_fault};
ghost use Rattle.a429_station.specs.Working.{HasMet, IsJoined, IsOver, IsReceiverAt};
ghost use Rattle.a429_station.specs.declared.faults.LiveFault.TheVariants.{NoMemory};

use crate::faults::{LiveFault, group_fault};
use crate::running::Values;
use crate::station::Station;
use crate::threads::Ended;
use crate::working::{Emitted, Received};
use a429_values::Receiver;
use a429_workers::{ReceiveTotals, SendTotals, Transmit};
use core::mem::drop;
use std::alloc::{AllocError, Global};
use std::sync::Wait;

/// What a station did, and its devices.
#[derive(Drop)]
pub struct Report<L, B> {
    /// The totals of each receiver.
    pub receivers: Vec<ReceiveTotals>,
    /// The totals of each group.
    pub groups: Vec<SendTotals>,
    /// The source of each receiver's line.
    pub sources: Vec<L>,
    /// The sink of each group.
    pub sinks: Vec<B>,
}

/// What the receivers did, with their devices.
#[derive(Drop)]
struct ReceiverReports<L> {
    pub totals: Vec<ReceiveTotals>,
    pub sources: Vec<L>,
    pub receivers: Vec<Receiver>,
}

impl<L: Drop> ReceiverReports<L> {
    /// Adds what a further receiver did. Error: an allocation failed.
    fn push(&mut self, totals: ReceiveTotals, line: L, receiver: Receiver) -> Result<(), LiveFault>
        ensures totals { OnOk result (self.new.totals.items ≡ self.old.totals.items ++ totals ∷ []) }
        ensures sources { OnOk result (self.new.sources.items ≡ self.old.sources.items ++ line ∷ []) }
        ensures receivers { OnOk result (self.new.receivers.items ≡ self.old.receivers.items ++ receiver ∷ []) }
        ensures fault { IfErr result (λ f. f ≡ NoMemory) }
    {
        self.receivers.push(receiver)?;
        self.sources.push(line)?;
        self.totals.push(totals)?;
        Ok(())
    }
}

/// What the groups did, with their devices.
#[derive(Drop)]
struct GroupReports<B> {
    pub totals: Vec<SendTotals>,
    pub sinks: Vec<B>,
}

impl<B: Drop> GroupReports<B> {
    /// Adds what a further group did. Error: an allocation failed.
    fn push(&mut self, totals: SendTotals, sink: B) -> Result<(), LiveFault>
        ensures totals { OnOk result (self.new.totals.items ≡ self.old.totals.items ++ totals ∷ []) }
        ensures sinks { OnOk result (self.new.sinks.items ≡ self.old.sinks.items ++ sink ∷ []) }
        ensures fault { IfErr result (λ f. f ≡ NoMemory) }
    {
        self.totals.push(totals)?;
        self.sinks.push(sink)?;
        Ok(())
    }
}

/// Whether the loops of all receivers came to their ends. Error: the fault of the first that has one. The call
/// allocates no memory.
fn check_receiver_ends<L: Drop>(received: &Vec<Received<L>>) -> Result<(), LiveFault>
    ensures ended { OnOk result (receivers_fault received.now.items ≡ None) }
    ensures fault { IfErr result (λ f. Some f ≡ option_map of_receiver (receivers_fault received.now.items)) }
{
    for place in 0..received.len() {
        if let Err(fault) = received[place].answer {
            return Err(LiveFault::from(fault));
        }
    }
    Ok(())
}

/// Whether the loops of all groups came to their ends. Error: the fault of the first that has one. The call allocates
/// no memory.
fn check_group_ends<R: Wait, B: Drop>(
    hub: &Values,
    station: &mut Station<'_, R>,
    sent: &mut Vec<Emitted<B>>,
) -> Result<(), LiveFault>
    requires groups { AllByRecursion (λ d. IsOver hub.now station.old.planner d.transmit d.answer) sent.old.items }
    ensures station { station.new ≡ station.old }
    ensures same { OnOk result (sent.new.items ≡ sent.old.items) }
    ensures ended { OnOk result (groups_fault sent.old.items ≡ None) }
    ensures fault { IfErr result (IsFirstFault None (groups_fault sent.old.items)) }
{
    let _at = hub;
    for place in 0..sent.len() {
        if let Err(fault) = sent[place].answer {
            station.tell(&mut sent[place].transmit);
            return Err(group_fault(fault));
        }
    }
    Ok(())
}

/// Whether all loops came to their ends, and the control too. Error: the fault of the first receiver that has one;
/// otherwise that of the first group that has one; otherwise `NoMemory` of the control. The call allocates no memory,
/// so a worker's fault is reported even if the report would run out of memory.
fn check_all_ends<R: Wait, L: Drop, B: Drop>(
    hub: &Values,
    station: &mut Station<'_, R>,
    received: &Vec<Received<L>>,
    sent: &mut Vec<Emitted<B>>,
    answer: Result<(), AllocError>,
) -> Result<(), LiveFault>
    requires groups { AllByRecursion (λ d. IsOver hub.now station.old.planner d.transmit d.answer) sent.old.items }
    ensures station { station.new ≡ station.old }
    ensures same { OnOk result (sent.new.items ≡ sent.old.items) }
    ensures receivers { OnOk result (receivers_fault received.now.items ≡ None) }
    ensures groups { OnOk result (groups_fault sent.old.items ≡ None) }
    ensures control { OnOk result (IsTrue (is_ok answer)) }
    ensures fault { IfErr result (IsFirstFault (receivers_fault received.now.items) (groups_fault sent.old.items)) }
{
    match check_receiver_ends(received) {
        Ok(()) => {}
        Err(fault) => return Err(fault),
    }
    match check_group_ends(hub, station, sent) {
        Ok(()) => {}
        Err(fault) => return Err(fault),
    }
    answer?;
    Ok(())
}

/// Adds what a receiver did to what those before it did. Error: its fault; otherwise `NoMemory` if an allocation
/// failed.
fn report_receiver<L: Drop>(
    done: Received<L>,
    heard: &mut ReceiverReports<L>,
) -> Result<(), LiveFault>
    ensures ended { OnOk result (first_fault (done.answer ∷ []) ≡ None) }
    ensures totals { OnOk result (map (λ t. Ok t) heard.new.totals.items ≡ map (λ t. Ok t) heard.old.totals.items ++ done.answer ∷ []) }
    ensures sources { OnOk result (heard.new.sources.items ≡ heard.old.sources.items ++ done.line ∷ []) }
    ensures receivers { OnOk result (heard.new.receivers.items ≡ heard.old.receivers.items ++ done.receiver ∷ []) }
    ensures fault { IfErr result (λ f. (f ≡ NoMemory) ⊎ (Some f ≡ option_map of_receiver (first_fault (done.answer ∷ [])))) }
{
    let Received {
        line,
        receiver,
        answer,
    } = done;
    match answer {
        Ok(totals) => heard.push(totals, line, receiver),
        Err(fault) => {
            drop(receiver);
            Err(LiveFault::from(fault))
        }
    }
}

/// The totals of the receivers. Error: the fault of the first that has one.
fn report_receivers<L: Drop>(
    alloc: Global,
    received: Vec<Received<L>>,
) -> Result<ReceiverReports<L>, LiveFault>
    ensures totals { IfOk result (λ r. map (λ t. Ok t) r.totals.items ≡ map (λ d. d.answer) received.items) }
    ensures sources { IfOk result (λ r. r.sources.items ≡ map (λ d. d.line) received.items) }
    ensures receivers { IfOk result (λ r. r.receivers.items ≡ map (λ d. d.receiver) received.items) }
    ensures fault { IfErr result (λ f. (f ≡ NoMemory) ⊎ (Some f ≡ option_map of_receiver (receivers_fault received.items))) }
{
    let mut heard = ReceiverReports {
        totals: Vec::new(alloc),
        sources: Vec::new(alloc),
        receivers: Vec::new(alloc),
    };
    for done in received {
        match report_receiver(done, &mut heard) {
            Ok(()) => {}
            Err(fault) => return Err(fault),
        }
    }
    Ok(heard)
}

/// A transmitter meets each receiver of its hub.
fn meet_all(transmit: &mut Transmit, receivers: &mut [Receiver])
    requires receivers { AllNumbered (IsReceiverAt transmit.old.transmitter.at) receivers.old }
    ensures receivers { receivers.new ≡ receivers.old }
    ensures met { HasMet transmit.old.transmitter.at.station receivers.old transmit.old transmit.new }
{
    for place in 0..receivers.len() {
        transmit.meet(&mut receivers[place]);
    }
}

/// A group's transmitter takes all plans that were published, and meets each receiver. Then what the group did is added
/// to what those before it did. Error: the group's fault; otherwise `NoMemory` if an allocation failed.
fn report_group<R: Wait, B: Drop>(
    hub: &Values,
    station: &mut Station<'_, R>,
    receivers: &mut [Receiver],
    done: Emitted<B>,
    told: &mut GroupReports<B>,
) -> Result<(), LiveFault>
    requires receivers { AllNumbered (IsReceiverAt hub.now) receivers.old }
    requires group { IsOver hub.now station.old.planner done.transmit done.answer }
    ensures station { station.new ≡ station.old }
    ensures receivers { receivers.new ≡ receivers.old }
    ensures joined { IsJoined hub.now.station station.old.planner.list receivers.old done.transmit }
    ensures ended { OnOk result (first_fault (done.answer ∷ []) ≡ None) }
    ensures totals { OnOk result (map (λ t. Ok t) told.new.totals.items ≡ map (λ t. Ok t) told.old.totals.items ++ done.answer ∷ []) }
    ensures sinks { OnOk result (told.new.sinks.items ≡ told.old.sinks.items ++ done.sink ∷ []) }
    ensures fault { IfErr result (IsFirstFault None (first_fault (done.answer ∷ []))) }
{
    let _at = hub;
    let Emitted {
        mut transmit,
        sink,
        answer,
    } = done;
    station.tell(&mut transmit);
    meet_all(&mut transmit, receivers);
    // `drop` keeps the proof short: a drop in place goes through all parts of a transmitter, once for each arm.
    drop(transmit);
    match answer {
        Ok(totals) => told.push(totals, sink),
        Err(fault) => Err(group_fault(fault)),
    }
}

/// Each group's transmitter takes all plans that were published, and meets each receiver. Answers the totals of the
/// groups. Error: the fault of the first group that has one.
fn report_groups<R: Wait, B: Drop>(
    alloc: Global,
    hub: &Values,
    station: &mut Station<'_, R>,
    receivers: &mut [Receiver],
    sent: Vec<Emitted<B>>,
) -> Result<GroupReports<B>, LiveFault>
    requires receivers { AllNumbered (IsReceiverAt hub.now) receivers.old }
    requires groups { AllByRecursion (λ d. IsOver hub.now station.old.planner d.transmit d.answer) sent.items }
    ensures totals { IfOk result (λ r. map (λ t. Ok t) r.totals.items ≡ map (λ d. d.answer) sent.items) }
    ensures sinks { IfOk result (λ r. r.sinks.items ≡ map (λ d. d.sink) sent.items) }
    ensures joined { OnOk result (AreJoined hub.now.station station.old.planner.list receivers.old sent.items) }
    ensures fault { IfErr result (λ f. (f ≡ NoMemory) ⊎ IsFirstFault None (groups_fault sent.items) f) }
{
    let mut told = GroupReports {
        totals: Vec::new(alloc),
        sinks: Vec::new(alloc),
    };
    for done in sent {
        match report_group(hub, station, receivers, done, &mut told) {
            Ok(()) => {}
            Err(fault) => return Err(fault),
        }
    }
    Ok(told)
}

/// What the workers did, with only their devices.
fn report_from<L: Drop, B: Drop>(heard: ReceiverReports<L>, told: GroupReports<B>) -> Report<L, B>
    ensures receivers { result.receivers.items ≡ heard.totals.items }
    ensures groups { result.groups.items ≡ told.totals.items }
    ensures sources { result.sources.items ≡ heard.sources.items }
    ensures sinks { result.sinks.items ≡ told.sinks.items }
{
    Report {
        receivers: heard.totals,
        groups: told.totals,
        sources: heard.sources,
        sinks: told.sinks,
    }
}

/// What the workers did, when all of them have ended, and the control too. Error: the fault of the first receiver that
/// has one; otherwise that of the first group that has one; otherwise `NoMemory`.
pub(crate) fn report_all<R: Wait, L: Drop, B: Drop>(
    alloc: Global,
    hub: &Values,
    station: &mut Station<'_, R>,
    done: Ended<Received<L>, Emitted<B>>,
) -> Result<Report<L, B>, LiveFault>
    requires receivers { AllNumbered (λ r d. IsReceiverAt hub.now r d.receiver) done.first.items }
    requires groups { AllByRecursion (λ d. IsOver hub.now station.old.planner d.transmit d.answer) done.second.items }
    ensures reported { IfOk result (ReportsAllEnds hub.now.station station.old.planner.list done) }
    ensures fault { IfErr result (IsFirstFault (receivers_fault done.first.items) (groups_fault done.second.items)) }
{
    let Ended {
        first,
        mut second,
        answer,
    } = done;
    match check_all_ends(hub, station, &first, &mut second, answer) {
        Ok(()) => {}
        Err(fault) => return Err(fault),
    }
    let mut heard = match report_receivers(alloc, first) {
        Ok(heard) => heard,
        Err(fault) => return Err(fault),
    };
    let receivers = heard.receivers.as_mut_slice();
    let told = match report_groups(alloc, hub, station, receivers, second) {
        Ok(told) => told,
        Err(fault) => return Err(fault),
    };
    Ok(report_from(heard, told))
}
