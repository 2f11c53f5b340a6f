//! The rows of some buses of a group.
ghost use Rattle.std.specs.Prelude.{◌≡◌, ◌≤◌, ◌*◌, ◌^◌, ◌++◌, ◌∷◌, [], length, map};
ghost use Rattle.std.specs.Int.{div_ceil};
ghost use Rattle.std.specs.List.{AllByRecursion, flat_map, range_with_len};
ghost use Rattle.a429_text.specs.Fields.{Number, Tenths};
ghost use Rattle.a429_text.specs.Sheets.{field_of};
ghost use Rattle.a429_slots.specs.Tables.{buses_of};
ghost use Rattle.a429_documents.specs.Load.{bus_field, bus_rows, bus_rows_of, cells_on, listed_buses, load_row, loads_of, room_rows, room_within};

use crate::cells::number;
use crate::load::cells::{all_cells, all_room, room_on};
use crate::planned::PlannedGroup;
use a429_equipment::GroupRow;
use a429_slots::{GroupPlan, OUTPUTS};
use a429_text::{Cell, Rows};

/// The periods from 2 on, in slots.
const PERIODS: [u32; 13] = [2, 4, 8, 16, 32, 64, 128, 256, 512, 1024, 2048, 4096, 8192];

/// The buses of a row.
#[derive(Clone, Copy)]
pub enum Buses {
    /// The bus of this number.
    One(u32),
    /// All buses of the group.
    All,
}

/// The number of the bus; absent for all buses of the group.
fn bus_cell(buses: Buses) -> Cell<'static>
    ensures { field_of result ≡ bus_field buses }
{
    match buses {
        Buses::One(bus) => number(bus),
        Buses::All => Cell::Absent,
    }
}

/// How many more outputs of this period, in slots, these buses take.
fn room(table: &GroupPlan<OUTPUTS>, buses: Buses, period: u32) -> u64
    requires some { 1 ≤ period }
    ensures { result ≡ room_within table.now buses period }
{
    match buses {
        Buses::One(bus) => u64::from(room_on(table, bus, period)),
        Buses::All => all_room(table, period),
    }
}

/// The cells with an output in per cent of all these cells, rounded up to one decimal.
fn percent(cells: u64, all: u64) -> Cell<'static>
    requires some { 1 ≤ all }
    requires few { cells ≤ 2 ^ 36 }
    ensures { field_of result ≡ Tenths (div_ceil (1000 * cells) all) }
{
    Cell::Tenths((1000 * cells).div_ceil(all))
}

/// The words that are sent in a second at a bit rate in bit/s, if this number is sent in a frame.
fn words(cells: u64, rate: u32, frame: u32) -> Cell<'static>
    requires some { 1 ≤ frame }
    requires few { cells ≤ 2 ^ 36 }
    requires rate { rate ≤ 100000 }
    ensures { field_of result ≡ Number (div_ceil (cells * rate) (36 * frame)) }
{
    Cell::Number((cells * u64::from(rate)).div_ceil(36 * u64::from(frame)))
}

/// Adds the row of how many more outputs of a period some buses take, if the period is within the frame.
fn add_room(rows: &mut Rows, group: &PlannedGroup<'_>, buses: Buses, period: u32)
    requires some { 1 ≤ period }
    ensures { rows.new ≡ rows.old ++ room_rows group.now buses period }
{
    if period > group.table.frame() {
        return;
    }
    rows.add(&[
        Cell::Text(group.row.name.as_str()),
        Cell::Absent,
        bus_cell(buses),
        Cell::Absent,
        Cell::Absent,
        Cell::Absent,
        Cell::Absent,
        Cell::Absent,
        Cell::Absent,
        number(period),
        Cell::Number(room(group.table, buses, period)),
    ]);
}

/// Adds the rows of these powers of two as periods.
fn add_rooms(rows: &mut Rows, group: &PlannedGroup<'_>, buses: Buses, periods: &[u32])
    requires some { AllByRecursion (λ period. 1 ≤ period) periods.now }
    ensures { rows.new ≡ rows.old ++ flat_map (room_rows group.now buses) periods.now }
{
    for number in 0..periods.len() {
        add_room(rows, group, buses, periods[number]);
    }
}

/// Adds the row of how full some buses are.
fn add_load<'a>(
    rows: &mut Rows,
    group: &'a GroupRow,
    frame: u32,
    bus: Cell<'a>,
    loads: &[u32],
    needed: Cell<'a>,
)
    requires rate { group.now.rate ≤ 100000 }
    requires frame { 1 ≤ frame }
    requires some { 1 ≤ length loads.now }
    requires few { length loads.now ≤ 16 }
    ensures { rows.new ≡ rows.old ++ load_row group.now frame (field_of bus.entry) loads.now (field_of needed.entry) ∷ [] }
{
    let cells = all_cells(loads);
    let all = loads.len() as u64 * u64::from(frame);
    rows.add(&[
        Cell::Text(group.name.as_str()),
        number(group.rate),
        bus,
        number(frame),
        Cell::Number(cells),
        Cell::Number(all.saturating_sub(cells)),
        percent(cells, all),
        words(cells, group.rate, frame),
        needed,
        Cell::Absent,
        Cell::Absent,
    ]);
}

/// Adds the rows of some buses, which have these loads.
pub fn add_rows(
    rows: &mut Rows,
    group: &PlannedGroup<'_>,
    buses: Buses,
    loads: &[u32],
    needed: Cell<'_>,
)
    requires loads { loads.now ≡ map (cells_on group.now.table) (listed_buses group.now.table buses) }
    requires some { 1 ≤ length loads.now }
    requires few { length loads.now ≤ 16 }
    ensures { rows.new ≡ rows.old ++ bus_rows_of group.now buses (field_of needed.entry) }
{
    let frame = group.table.frame();
    add_load(rows, group.row, frame, bus_cell(buses), loads, needed);
    add_rooms(rows, group, buses, &PERIODS);
}

/// Adds the rows of each bus of a group, from 0.
#[tactic(auto, using(crate::proofs::Ranges::flat_more))]
pub fn add_buses(rows: &mut Rows, group: &PlannedGroup<'_>, loads: &[u32])
    requires { loads.now ≡ loads_of group.now.table }
    ensures { rows.new ≡ rows.old ++ flat_map (bus_rows group.now) (range_with_len 0 (buses_of group.now.table)) }
{
    for bus in 0..group.table.buses() {
        let load = [loads[bus as usize]];
        add_rows(rows, group, Buses::One(bus), &load, Cell::Absent);
    }
}
