//! A caller of receivers, a transmitter and a planner on threads of their own. From what they promise it concludes that
//! all that was done is one run of the machine.
ghost use Rattle.std.specs.Prelude.{◌≡◌, ◌≢◌, ◌<◌, ◌∷◌, [], All, IfSome, length, true};
ghost use Rattle.a429_equipment.specs.SameStation.{same_station};
ghost use Rattle.a429_slots.specs.Planned.{IsPlanOf};
ghost use Rattle.a429_slots.specs.Tables.{groups_of};
ghost use Rattle.a429_board.specs.Lists.{beginner};
ghost use Rattle.a429_workers.specs.Receives.{IsSameReceiver};
ghost use Rattle.a429_workers.specs.Transmitting.{BeginsWith, IsSameGroup};
ghost use Rattle.a429_callers.specs.OneRun.{AreShown, CanPublish, EndsRunOnce, HasHeard, HasMetTwo, HasSentAll, IsRunOver, fresh, opening};

use a429_board::{Board, Planner, Watcher};
use a429_equipment::Equipment;
use a429_equipment::laws::{numbers_in_range, one_station_is_equality, sources_apart};
use a429_filter::LineSource;
use a429_slots::{OUTPUTS, Plan, plan};
use a429_values::{Desk, Hub, Receiver, Transmitter};
use a429_workers::laws::one_run;
use a429_workers::{BusSink, OpenGate, Transmit, receive_all, send_frames};
use std::alloc::Global;
use std::sync::Wait;
use std::thread::{Threads, join_mut};

/// Takes the words of the line, and says whether it came to its end.
pub fn hear<L: LineSource>(line: &mut L, receiver: &mut Receiver) -> bool
    ensures heard { HasHeard L.given line.old line.new receiver.old receiver.new result }
    ensures same { IsSameReceiver receiver.old receiver.new }
{
    receive_all(line, receiver, 0, &OpenGate).is_ok()
}

/// Sends this number of whole frames, and says whether they all went out.
pub fn send<B: BusSink>(transmit: &mut Transmit, sink: &mut B, frames: u32) -> bool
    requires { transmit.old.frame.sent ≡ 0 }
    ensures sent { HasSentAll transmit.old transmit.new (B.taken sink.old) (B.taken sink.new) result }
    ensures same { IsSameGroup transmit.old transmit.new }
{
    send_frames(transmit, sink, 0, frames, &OpenGate).is_ok()
}

/// Publishes one more plan of the station, if it can be published.
pub fn publish<R: Wait>(
    rt: &R,
    planner: &mut Planner,
    plan: Plan<OUTPUTS>,
    station: &Equipment,
    next: &Equipment,
)
    requires { CanPublish station.now next.now planner.old plan }
    ensures shown { AreShown (opening station.now planner.old.last) planner.new.list }
    ensures book { planner.new.book ≡ planner.old.book }
{
    one_station_is_equality();
    station.rows_are_sound();
    next.rows_are_sound();
    let _ = planner.publish(rt, plan);
}

/// A transmitter gets what was published, and meets both receivers.
pub fn meet(
    transmit: &mut Transmit,
    first: &mut Receiver,
    second: &mut Receiver,
    planner: &mut Planner,
)
    requires board { transmit.old.watcher.book ≡ planner.old.book }
    requires first { first.old.at ≡ transmit.old.transmitter.at }
    requires second { second.old.at ≡ transmit.old.transmitter.at }
    requires apart { first.old.number ≢ second.old.number }
    ensures { HasMetTwo transmit.old transmit.new first.old second.old planner.old.list }
{
    let _one = first.number();
    let _other = second.number();
    transmit.told(planner);
    transmit.meet(first);
    transmit.meet(second);
}

/// What the calls above did at the ends of a station of two receivers is one run of the machine.
pub fn ends_run_once()
    ensures { EndsRunOnce }
{
    one_run();
}

/// The plan of an equipment, if it has one and no allocation fails.
fn plan_of(alloc: Global, equipment: &Equipment) -> Option<Plan<OUTPUTS>>
    ensures { IfSome result (IsPlanOf equipment.now) }
{
    equipment.rows_are_sound();
    plan(alloc, equipment).ok()
}

/// The two receivers of a station, and the transmitter of its first group.
#[derive(Drop)]
struct Ends {
    one: Receiver,
    other: Receiver,
    transmitter: Transmitter,
}

/// Those ends of a hub of which none was given out.
fn ends_of(alloc: Global, hub: &Hub<256, 41>, desk: &mut Desk) -> Option<Ends>
    requires none { desk.old ≡ record { at = hub.now; receivers = []; transmitters = [] } }
    requires two { length hub.now.station.receivers ≡ 2 }
    requires group { 0 < length hub.now.station.groups }
    ensures one { IfSome result (λ ends. ends.one ≡ fresh hub.now 0) }
    ensures other { IfSome result (λ ends. ends.other ≡ fresh hub.now 1) }
    ensures transmitter { IfSome result (λ ends. ends.transmitter ≡ record { at = hub.now; number = 0; loads = [] }) }
{
    let one = desk.receiver(alloc, hub, 0).ok()?;
    let other = desk.receiver(alloc, hub, 1).ok()?;
    let transmitter = desk.transmitter(hub, 0).ok()?;
    Some(Ends {
        one,
        other,
        transmitter,
    })
}

/// One of these watchers, which are all at the beginning of a planner's board.
fn one_of(watchers: &mut Vec<Watcher>, planner: &Planner) -> Option<Watcher>
    requires { All (λ w. w ≡ beginner planner.now) watchers.old.items }
    ensures { IfSome result (λ w. w ≡ beginner planner.now) }
{
    watchers.pop()
}

/// The first group's transmitter at slot 0, by one of these watchers.
fn open_transmit(
    alloc: Global,
    transmitter: Transmitter,
    watchers: &mut Vec<Watcher>,
    planner: &Planner,
) -> Option<Transmit>
    requires number { transmitter.number ≡ 0 }
    requires group { 0 < length (groups_of planner.now.last) }
    requires watchers { All (λ w. w ≡ beginner planner.now) watchers.old.items }
    ensures begins { IfSome result (BeginsWith transmitter (beginner planner.now) 0) }
    ensures first { IfSome result (λ t. t.frame.sent ≡ 0) }
    ensures ends { IfSome result (λ t. (t.transmitter ≡ transmitter) × (t.watcher ≡ beginner planner.now)) }
{
    let watcher = one_of(watchers, planner)?;
    Transmit::open(alloc, transmitter, watcher, 0, 0).ok()
}

/// Sends frames on a thread of its own, and at the same time publishes a plan. Says whether all frames went out.
fn send_and_publish<R: Threads + Wait + Sync, B: BusSink + Send>(
    rt: &R,
    transmit: &mut Transmit,
    sink: &mut B,
    frames: u32,
    planner: &mut Planner,
    plan: Plan<OUTPUTS>,
    station: &Equipment,
    next: &Equipment,
) -> bool
    requires begins { transmit.old.frame.sent ≡ 0 }
    requires publish { CanPublish station.now next.now planner.old plan }
    ensures sent { HasSentAll transmit.old transmit.new (B.taken sink.old) (B.taken sink.new) result }
    ensures group { IsSameGroup transmit.old transmit.new }
    ensures shown { AreShown (opening station.now planner.old.last) planner.new.list }
    ensures book { planner.new.book ≡ planner.old.book }
{
    let (sent, ()) = join_mut(
        rt,
        &mut ||
            requires { transmit.now.frame.sent ≡ 0 }
        { send(transmit, sink, frames) },
        &mut ||
            requires { CanPublish station.now next.now planner.now plan }
        { publish(rt, planner, plan, station, next) },
    );
    sent
}

/// Both receivers take the words of their lines, each on a thread of its own. At the same time a group sends this
/// number of frames, and a planner publishes a plan. Says whether both lines came to their ends and all frames went
/// out.
fn take_and_send<R: Threads + Wait + Sync, L: LineSource + Send, B: BusSink + Send>(
    rt: &R,
    first: &mut L,
    one: &mut Receiver,
    second: &mut L,
    other: &mut Receiver,
    transmit: &mut Transmit,
    sink: &mut B,
    frames: u32,
    planner: &mut Planner,
    plan: Plan<OUTPUTS>,
    station: &Equipment,
    next: &Equipment,
) -> bool
    requires begins { transmit.old.frame.sent ≡ 0 }
    requires publish { CanPublish station.now next.now planner.old plan }
    ensures first { HasHeard L.given first.old first.new one.old one.new result }
    ensures second { HasHeard L.given second.old second.new other.old other.new result }
    ensures receivers { IsSameReceiver one.old one.new × IsSameReceiver other.old other.new }
    ensures sent { HasSentAll transmit.old transmit.new (B.taken sink.old) (B.taken sink.new) result }
    ensures group { IsSameGroup transmit.old transmit.new }
    ensures shown { AreShown (opening station.now planner.old.last) planner.new.list }
    ensures book { planner.new.book ≡ planner.old.book }
{
    let ((heard, also), sent) = join_mut(
        rt,
        &mut || -> (bool, bool)
            ensures first { HasHeard L.given first.entry.now first.exit.now one.entry.now one.exit.now result.0 }
            ensures second { HasHeard L.given second.entry.now second.exit.now other.entry.now other.exit.now result.1 }
            ensures same { IsSameReceiver one.entry.now one.exit.now × IsSameReceiver other.entry.now other.exit.now }
        { join_mut(rt, &mut || hear(first, one), &mut || hear(second, other)) },
        &mut ||
            requires begins { transmit.now.frame.sent ≡ 0 }
            requires publish { CanPublish station.now next.now planner.now plan }
        { send_and_publish(rt, transmit, sink, frames, planner, plan, station, next) },
    );
    heard && also && sent
}

/// Runs a station of two receivers, each on a thread of its own that takes the words of its line. At the same time its
/// first group sends this number of frames, and a planner publishes the plan of the next table. `None` if an equipment
/// lacks a plan, an allocation fails, a line stops before its end, or the sink fails.
pub fn run_once<R: Threads + Wait + Sync, L: LineSource + Send, B: BusSink + Send>(
    rt: &R,
    alloc: Global,
    station: &Equipment,
    next: &Equipment,
    first: &mut L,
    second: &mut L,
    sink: &mut B,
    frames: u32,
) -> Option<()>
    requires two { length station.now.receivers ≡ 2 }
    requires group { 0 < length station.now.groups }
    requires same { same_station station.now next.now ≡ true }
    ensures { IfSome result (λ _. IsRunOver L.given B.taken station.now first.old first.new second.old second.new sink.old sink.new) }
{
    numbers_in_range(station);
    sources_apart(station);
    let opens = plan_of(alloc, station)?;
    let later = plan_of(alloc, next)?;
    let Ends {
        mut one,
        mut other,
        transmitter,
    } = {
        let Ok((hub, mut desk)) = Hub::open(alloc, station) else {
            return None;
        };
        ends_of(alloc, &hub, &mut desk)?
    };
    let Ok((mut planner, mut watchers)) = Board::open(rt, alloc, opens, 1) else {
        return None;
    };
    let Some(mut transmit) = open_transmit(alloc, transmitter, &mut watchers, &planner) else {
        planner.close(rt);
        return None;
    };
    let done = take_and_send(
        rt,
        first,
        &mut one,
        second,
        &mut other,
        &mut transmit,
        sink,
        frames,
        &mut planner,
        later,
        station,
        next,
    );
    meet(&mut transmit, &mut one, &mut other, &mut planner);
    planner.close(rt);
    ends_run_once();
    if done { Some(()) } else { None }
}
