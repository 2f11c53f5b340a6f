//! The slot tables of a plan as a bus board takes them.
ghost use Rattle.std.specs.Prelude.{◌≡◌, ◌<◌, ◌++◌, ◌∷◌, [], unwrap_or};
ghost use Rattle.a429_documents.specs.SlotBoard.{board_bus, board_cell, board_group, board_row, board_word};

use crate::cells::{number, sdi_cell};
use crate::planned::{PlannedGroup, PlannedOutput};
use crate::slots::start_cell;
use a429_text::{Cell, Rows};
use a429_word::{Label, Sdi, Word};

/// The names of the columns.
pub const COLUMNS: &[&str] = &["group", "bus", "time_us", "label", "sdi", "word"];

/// The bits of an SDI, 0 for any.
fn sdi_bits(sdi: Option<Sdi>) -> u32
    ensures value { result ≡ unwrap_or sdi 0 }
    ensures small { result < 4 }
{
    match sdi {
        None => 0,
        Some(sdi) => u32::from(sdi.value()),
    }
}

/// The word of a label and an SDI, 0 for any. Its data and its SSM are 0, and its parity is odd.
fn board_word(label: Label, sdi: Option<Sdi>) -> u32
    ensures { result ≡ board_word label (unwrap_or sdi 0) }
{
    Word::of_label(label, sdi_bits(sdi)).raw()
}

/// Adds the row of a cell with this output.
fn add_sent(rows: &mut Rows, output: &PlannedOutput<'_>, bus: u32, slot: u32)
    ensures { rows.new ≡ rows.old ++ board_row bus slot output.now ∷ [] }
{
    let (group, source) = (output.group, output.source);
    rows.add(&[
        Cell::Text(group.name.as_str()),
        number(bus),
        start_cell(group, slot),
        Cell::Octal(source.label.value()),
        sdi_cell(source.sdi),
        Cell::Hex(board_word(source.label, source.sdi)),
    ]);
}

/// Adds the row of a cell, if it has an output.
#[tactic(auto, unfolding(crate::specs::SlotBoard::board_cell))]
fn add_cell(rows: &mut Rows, group: &PlannedGroup<'_>, bus: u32, slot: u32)
    ensures { rows.new ≡ rows.old ++ board_cell group.now bus slot }
{
    if let Some(output) = group.table.at(bus, u64::from(slot)) {
        add_sent(rows, &group.output(output.number()), bus, slot);
    }
}

/// Adds the rows of a bus, slot by slot.
#[tactic(auto, using(crate::proofs::Ranges::flat_more))]
fn add_bus(rows: &mut Rows, group: &PlannedGroup<'_>, bus: u32)
    ensures { rows.new ≡ rows.old ++ board_bus group.now bus }
{
    for slot in 0..group.table.frame() {
        add_cell(rows, group, bus, slot);
    }
}

/// Adds the rows of a group, bus by bus.
#[tactic(auto, using(crate::proofs::Ranges::flat_more))]
pub fn add_buses(rows: &mut Rows, group: &PlannedGroup<'_>)
    ensures { rows.new ≡ rows.old ++ board_group group.now }
{
    for bus in 0..group.table.buses() {
        add_bus(rows, group, bus);
    }
}
