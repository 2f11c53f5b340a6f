//! The two ends of a hub.
ghost use Rattle.std.specs.Prelude.{◌≡◌, ◌<◌, ◌≤◌, length};

use crate::support::{let_go, read};
use a429_equipment::Equipment;
use a429_equipment::laws::numbers_in_range;
use a429_values::{Desk, Hub, Receiver, Transmitter};
use std::alloc::Global;
use std::process::Abort;

/// The first receiver and the first transmitter of a station.
#[derive(Drop)]
pub struct Ends {
    pub receiver: Receiver,
    pub transmitter: Transmitter,
    ghost one_hub: { receiver.at ≡ transmitter.at },
    ghost has_sources: { 0 < length transmitter.at.station.sources },
}

/// The equipment of a table of one receiver, one source and one group, or more.
fn read_station<R: Abort>(rt: &R, alloc: Global, table: &str) -> Equipment
    ensures ends { (0 < length result.receivers) × (0 < length result.groups) }
    ensures sources { (0 < length result.sources) × (length result.sources ≤ 256) }
{
    let equipment = read(rt, alloc, table);
    numbers_in_range(&equipment);
    assert!(rt; equipment.receivers().len() > 0 && equipment.groups().len() > 0);
    assert!(rt; equipment.sources().len() > 0);
    equipment
}

/// The first receiver and the first transmitter, by the desk of a hub.
fn ends_of<R: Abort, const C: u32>(
    rt: &R,
    alloc: Global,
    hub: &Hub<256, C>,
    desk: &mut Desk,
) -> Ends
    requires desk { desk.old.at ≡ hub.now }
    requires ends { (0 < length hub.now.station.receivers) × (0 < length hub.now.station.groups) }
    requires sources { 0 < length hub.now.station.sources }
    ensures { result.transmitter.number ≡ 0 }
{
    let receiver = desk.receiver(alloc, hub, 0).expect(rt, "a receiver");
    let transmitter = desk.transmitter(hub, 0).expect(rt, "a transmitter");
    Ends {
        receiver,
        transmitter,
    }
}

/// The first receiver and the first transmitter of the station of a table, with words counted in C bits.
pub fn open_ends<R: Abort, const C: u32>(rt: &R, alloc: Global, table: &str) -> Ends
    requires { (1 ≤ C) × (C ≤ 41) }
    ensures { result.transmitter.number ≡ 0 }
{
    let equipment = read_station(rt, alloc, table);
    let (hub, mut desk) = Hub::<256, C>::open(alloc, &equipment).expect(rt, "a hub");
    let_go(equipment);
    let ends = ends_of(rt, alloc, &hub, &mut desk);
    let_go(desk);
    let_go(hub);
    ends
}

impl Ends {
    /// The word that a load of the first source finds, with its number among those that the source accepted. `None` if it
    /// finds none.
    pub fn load(&mut self) -> Option<(u64, u32)> {
        let (count, word) = self.transmitter.load_numbered(0)?;
        Some((count, word.raw()))
    }
}
