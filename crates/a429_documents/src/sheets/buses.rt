//! What each bus of a station carries: the words that come in at its receivers, and those that its groups send.
ghost use Rattle.std.specs.Prelude.{◌≡◌, ◌++◌, ◌∷◌, []};
ghost use Rattle.a429_documents.specs.Buses.{group_rows, heard_rows, in_row, in_rows, out_row, rows_on, sent_rows};

use crate::cells::{number, sdi_cell};
use crate::planned::{PlannedGroup, PlannedOutput};
use a429_equipment::{Equipment, ReceiverRow, SourceRow};
use a429_slots::slots_us;
use a429_text::{Cell, Rows};

/// The names of the columns.
pub const COLUMNS: &[&str] = &[
    "direction",
    "name",
    "bus",
    "rate",
    "label",
    "sdi",
    "source",
    "period_us",
];

/// Adds the row of a word that comes in at a receiver.
fn add_heard<'a>(rows: &mut Rows, receiver: &'a ReceiverRow, source: &'a SourceRow)
    ensures { rows.new ≡ rows.old ++ in_row receiver.now source.now ∷ [] }
{
    rows.add(&[
        Cell::Text("in"),
        Cell::Text(receiver.name.as_str()),
        Cell::Absent,
        Cell::Absent,
        Cell::Octal(source.label.value()),
        sdi_cell(source.sdi),
        Cell::Text(source.name.as_str()),
        Cell::Absent,
    ]);
}

/// Adds the rows of the words of the receiver with this number, in table order.
fn add_receiver(rows: &mut Rows, sources: &[SourceRow], number: usize, receiver: &ReceiverRow)
    ensures { rows.new ≡ rows.old ++ heard_rows sources.now number receiver.now }
{
    for source in sources {
        if source.receiver == number {
            add_heard(rows, receiver, source);
        }
    }
}

/// Adds the rows of the words that come in, receiver by receiver.
pub fn add_receivers(rows: &mut Rows, equipment: &Equipment)
    ensures { rows.new ≡ rows.old ++ in_rows equipment.now }
{
    let sources = equipment.sources();
    let receivers = equipment.receivers();
    for number in 0..receivers.len() {
        add_receiver(rows, sources, number, &receivers[number]);
    }
}

/// Adds the row of a word that a group sends.
fn add_sent(rows: &mut Rows, output: &PlannedOutput<'_>)
    ensures { rows.new ≡ rows.old ++ out_row output.now ∷ [] }
{
    let (group, source) = (output.group, output.source);
    rows.add(&[
        Cell::Text("out"),
        Cell::Text(group.name.as_str()),
        number(output.place.bus),
        number(group.rate),
        Cell::Octal(source.label.value()),
        sdi_cell(source.sdi),
        Cell::Text(source.name.as_str()),
        Cell::Number(slots_us(group.rate, output.place.period.slots())),
    ]);
}

/// Adds the row of an output, if it is on this bus.
fn add_output(rows: &mut Rows, bus: u32, output: &PlannedOutput<'_>)
    ensures { rows.new ≡ rows.old ++ rows_on bus output.now }
{
    if output.place.bus == bus {
        add_sent(rows, output);
    }
}

/// Adds the rows of the words that a group sends on a bus, in table order.
#[tactic(auto, using(crate::proofs::Ranges::flat_more))]
fn add_bus(rows: &mut Rows, group: &PlannedGroup<'_>, bus: u32)
    ensures { rows.new ≡ rows.old ++ sent_rows group.now bus }
{
    for number in 0..group.table.outputs() {
        add_output(rows, bus, &group.output(number));
    }
}

/// Adds the rows of the words that a group sends, bus by bus.
#[tactic(auto, using(crate::proofs::Ranges::flat_more))]
pub fn add_buses(rows: &mut Rows, group: &PlannedGroup<'_>)
    ensures { rows.new ≡ rows.old ++ group_rows group.now }
{
    for bus in 0..group.table.buses() {
        add_bus(rows, group, bus);
    }
}
