//! The cells of buses that have an output, and the room that they leave.
ghost use Rattle.std.specs.Prelude.{◌≡◌, ◌≤◌, ◌^◌, length, map, sum, take};
ghost use Rattle.std.specs.List.{range_with_len};
ghost use Rattle.a429_slots.specs.Tables.{buses_of};
ghost use Rattle.a429_documents.specs.Load.{cells_on, is_open, loads_of, room_on};

use a429_pack::BUSES;
use a429_slots::{GroupPlan, OUTPUTS};

/// How many cells of a frame on a bus have an output.
pub fn cells_on(table: &GroupPlan<OUTPUTS>, bus: u32) -> u32
    ensures { result ≡ cells_on table.now bus }
{
    let mut cells = 0;
    for slot in 0..table.frame() {
        cells += u32::from(table.at(bus, u64::from(slot)).is_some());
    }
    cells
}

/// How many cells of a frame have an output, for each bus of a group. Zeros follow for the buses that the group has not.
pub fn loads(table: &GroupPlan<OUTPUTS>) -> [u32; BUSES]
    ensures { take (buses_of table.now) result ≡ loads_of table.now }
{
    let mut loads = [0; BUSES];
    for bus in 0..table.buses() {
        loads[bus as usize] = cells_on(table, bus);
    }
    loads
}

/// How many cells of some buses have an output.
pub fn all_cells(loads: &[u32]) -> u64
    requires { length loads.now ≤ 16 }
    ensures value { result ≡ sum loads.now }
    ensures few { result ≤ 2 ^ 36 }
{
    let mut cells = 0;
    for load in loads {
        cells += u64::from(*load);
    }
    cells
}

/// Whether one more output of this period, in slots, can have this offset on a bus: each of its cells is empty.
fn is_open(table: &GroupPlan<OUTPUTS>, bus: u32, period: u32, offset: u32) -> bool
    requires some { 1 ≤ period }
    ensures { result ≡ is_open table.now bus period offset }
{
    for number in 0..table.frame() / period {
        let slot = u64::from(offset) + u64::from(number) * u64::from(period);
        if table.at(bus, slot).is_some() {
            return false;
        }
    }
    true
}

/// How many more outputs of this period, in slots, a bus takes.
pub fn room_on(table: &GroupPlan<OUTPUTS>, bus: u32, period: u32) -> u32
    requires some { 1 ≤ period }
    ensures { result ≡ room_on table.now bus period }
{
    let mut room = 0;
    for offset in 0..period {
        room += u32::from(is_open(table, bus, period, offset));
    }
    room
}

/// How many more outputs of this period, in slots, all buses of a group take.
pub fn all_room(table: &GroupPlan<OUTPUTS>, period: u32) -> u64
    requires some { 1 ≤ period }
    ensures { result ≡ sum (map (λ bus. room_on table.now bus period) (range_with_len 0 (buses_of table.now))) }
{
    let mut room = 0;
    for bus in 0..table.buses() {
        room += u64::from(room_on(table, bus, period));
    }
    room
}
