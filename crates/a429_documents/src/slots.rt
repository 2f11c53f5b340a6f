//! The slot tables of a plan, as rows and as a header of C.
ghost use Rattle.std.specs.Prelude.{◌≡◌, ◌≤◌, ◌++◌, ◌∷◌, []};
ghost use Rattle.a429_text.specs.Fields.{Number};
ghost use Rattle.a429_text.specs.Sheets.{field_of};
ghost use Rattle.a429_slots.specs.Times.{slots_us};
ghost use Rattle.a429_documents.specs.SlotRows.{cell_rows, empty_row, filled_row, rows_in_frame, rows_in_slot};

pub mod board;
mod header;

use crate::cells::{number, sdi_cell};
use crate::planned::{PlannedGroup, PlannedOutput};
pub use crate::slots::header::slot_header;
use a429_equipment::GroupRow;
use a429_slots::slots_us;
use a429_text::{Cell, Rows};

/// The names of the columns.
pub const COLUMNS: &[&str] = &[
    "group",
    "slot",
    "time_us",
    "bus",
    "label",
    "sdi",
    "source",
    "period_slots",
];

/// The place of the column `source`.
pub const SLOT_SOURCE: usize = 6;

/// When a slot of a group begins, from the start of the frame: in microseconds, rounded up.
pub(crate) fn start_cell(group: &GroupRow, slot: u32) -> Cell<'static>
    requires { 1 ≤ group.now.rate }
    ensures { field_of result ≡ Number (slots_us group.now.rate slot) }
{
    Cell::Number(slots_us(group.rate, slot))
}

/// Adds the row of a cell with this output.
fn add_filled(rows: &mut Rows, output: &PlannedOutput<'_>, slot: u32, bus: u32)
    ensures { rows.new ≡ rows.old ++ filled_row slot bus output.now ∷ [] }
{
    let (group, source) = (output.group, output.source);
    rows.add(&[
        Cell::Text(group.name.as_str()),
        number(slot),
        start_cell(group, slot),
        number(bus),
        Cell::Octal(source.label.value()),
        sdi_cell(source.sdi),
        Cell::Text(source.name.as_str()),
        number(output.place.period.slots()),
    ]);
}

/// Adds the row of an empty cell.
fn add_empty(rows: &mut Rows, group: &GroupRow, slot: u32, bus: u32)
    requires { 1 ≤ group.now.rate }
    ensures { rows.new ≡ rows.old ++ empty_row group.now slot bus ∷ [] }
{
    rows.add(&[
        Cell::Text(group.name.as_str()),
        number(slot),
        start_cell(group, slot),
        number(bus),
        Cell::Absent,
        Cell::Absent,
        Cell::Absent,
        Cell::Absent,
    ]);
}

/// Adds the row of a cell. An empty cell has one only if all cells are asked for.
#[tactic(auto, unfolding(crate::specs::SlotRows::cell_rows))]
fn add_cell(rows: &mut Rows, all: bool, group: &PlannedGroup<'_>, slot: u32, bus: u32)
    ensures { rows.new ≡ rows.old ++ cell_rows all group.now slot bus }
{
    match group.table.at(bus, u64::from(slot)) {
        Some(output) => add_filled(rows, &group.output(output.number()), slot, bus),
        None => {
            if all {
                add_empty(rows, group.row, slot, bus);
            }
        }
    }
}

/// Adds the rows of a slot, bus by bus.
#[tactic(auto, using(crate::proofs::Ranges::flat_more))]
fn add_slot(rows: &mut Rows, all: bool, group: &PlannedGroup<'_>, slot: u32)
    ensures { rows.new ≡ rows.old ++ rows_in_slot all group.now slot }
{
    for bus in 0..group.table.buses() {
        add_cell(rows, all, group, slot, bus);
    }
}

/// Adds the rows of a group, slot by slot.
#[tactic(auto, using(crate::proofs::Ranges::flat_more))]
pub fn add_frame(rows: &mut Rows, all: bool, group: &PlannedGroup<'_>)
    ensures { rows.new ≡ rows.old ++ rows_in_frame all group.now }
{
    for slot in 0..group.table.frame() {
        add_slot(rows, all, group, slot);
    }
}
