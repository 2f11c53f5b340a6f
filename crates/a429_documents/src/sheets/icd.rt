//! The interface control document of a plan.
ghost use Rattle.std.specs.Prelude.{◌≡◌, ◌∷◌, ◌++◌, []};
ghost use Rattle.a429_text.specs.Sheets.{field_of};
ghost use Rattle.a429_documents.specs.Document.{label_field, output_row};

use crate::cells::{limit_cell, number, sdi_cell};
use crate::planned::PlannedOutput;
use a429_equipment::receiver_name;
use a429_slots::{latency_us, slots_us};
use a429_text::{Cell, Rows};
use a429_word::Label;

/// The names of the columns.
pub const COLUMNS: &[&str] = &[
    "group",
    "rate",
    "source",
    "receiver",
    "label",
    "sdi",
    "bus",
    "offset",
    "period_slots",
    "period_us",
    "min_us",
    "max_us",
    "hold",
    "spacing_slots",
    "latency_us",
];

/// The place of the column `source`.
pub const SOURCE: usize = 2;

/// The cell of a label, in octal; as a formula if a spreadsheet is to keep its zeros.
fn label_cell(keeps_zeros: bool, label: Label) -> Cell<'static>
    ensures { field_of result ≡ label_field keeps_zeros label }
{
    if keeps_zeros {
        Cell::OctalFormula(label.value())
    } else {
        Cell::Octal(label.value())
    }
}

/// Adds the row of an output.
pub fn add_row(rows: &mut Rows, keeps_zeros: bool, output: &PlannedOutput<'_>)
    ensures { rows.new ≡ rows.old ++ output_row keeps_zeros output.now ∷ [] }
{
    let (group, source, row) = (output.group, output.source, output.row);
    let (place, limits) = (output.place, output.limits);
    let slots = place.period.slots();
    rows.add(&[
        Cell::Text(group.name.as_str()),
        number(group.rate),
        Cell::Text(source.name.as_str()),
        Cell::Text(receiver_name(output.receivers, source.receiver)),
        label_cell(keeps_zeros, source.label),
        sdi_cell(source.sdi),
        number(place.bus),
        number(place.offset),
        number(slots),
        Cell::Number(slots_us(group.rate, slots)),
        number(row.min_us),
        number(row.max_us),
        limit_cell(limits.hold),
        number(limits.spacing),
        Cell::Number(latency_us(group.rate, place.period)),
    ]);
}
