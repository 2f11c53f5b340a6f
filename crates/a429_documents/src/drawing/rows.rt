//! The rows of an image: one for each bus, with its load and its marks.
ghost use Rattle.std.specs.Prelude.{◌≤◌, ◌^◌};

use crate::drawing::groups::DrawnGroup;
use crate::drawing::marks::CellMark;
use crate::drawing::places::{fold_at, fold_top, folds_of, row_top, slot_left, slots_in, slots_of};
use crate::drawing::shapes::put_used;
use crate::drawing::times::put_lasting;
use a429_slots::{GroupPlan, OUTPUTS, OutputId};
use a429_text::Text;

/// Writes the number of a slot above it, and the time at which it begins.
fn put_number(text: &mut Text, group: &DrawnGroup<'_>, slot: u32) {
    let base = fold_top(group.table, fold_at(group.form, slot)) + 11;
    text.fill(
        &["<text x='", "' y='", "' font-size='8' fill='#666'>", " ("],
        &[slot_left(group.form, slot), base, u64::from(slot)],
    );
    put_lasting(text, group.row.rate, slot);
    text.put(")</text>\n");
}

/// Writes the number of each eighth slot.
pub(crate) fn put_numbers(text: &mut Text, group: &DrawnGroup<'_>) {
    for slot in 0..slots_of(group.form, group.table) {
        if slot % 8 == 0 {
            put_number(text, group, slot);
        }
    }
}

/// The number of slots of a frame with an output on a bus: each output has one in each of its periods.
fn filled_on(table: &GroupPlan<OUTPUTS>, bus: u32) -> u64
    ensures { result ≤ 2 ^ 20 }
{
    let frame = u64::from(table.frame());
    let mut filled = 0;
    for output in 0..table.outputs() {
        let place = table.place(OutputId::new(output));
        if place.bus == bus {
            filled += frame / u64::from(place.period.slots());
        }
    }
    filled
}

/// Writes the load of a bus, in per cent of the frame, at the right end of its row in the first fold.
fn put_load(text: &mut Text, group: &DrawnGroup<'_>, bus: u32) {
    let load = 100 * filled_on(group.table, bus) / u64::from(group.table.frame());
    let left = 106 + 16 * slots_in(group.form, group.table, 0);
    let base = row_top(group.table, 0, bus) + 13;
    text.fill(
        &["<text x='", "' y='", "'>", " %</text>\n"],
        &[left, base, load],
    );
}

/// Writes the row of a bus in a fold: its name, and the stripe for its marks.
fn put_row(text: &mut Text, group: &DrawnGroup<'_>, bus: u32, fold: u32) {
    let top = row_top(group.table, fold, bus);
    let width = 16 * slots_in(group.form, group.table, fold);
    text.fill(
        &[
            "<text x='8' y='",
            "'>bus ",
            "</text>\n<rect x='100' y='",
            "' width='",
            "' height='17' fill='#eee'/>\n",
        ],
        &[top + 13, u64::from(bus), top, width],
    );
}

/// Writes a mark.
fn put_mark(text: &mut Text, group: &DrawnGroup<'_>, mark: &CellMark) {
    let left = slot_left(group.form, mark.slot);
    let top = row_top(group.table, fold_at(group.form, mark.slot), mark.bus);
    put_used(text, mark.group, mark.output, left, top);
}

/// Writes the marks of a bus of a group, from this index in the list of marks. Returns the index after them.
fn put_marks(
    text: &mut Text,
    group: &DrawnGroup<'_>,
    bus: u32,
    marks: &[CellMark],
    begin: usize,
) -> usize {
    for place in begin..marks.len() {
        let mark = &marks[place];
        if mark.group != group.number || mark.bus != bus {
            return place;
        }
        put_mark(text, group, mark);
    }
    marks.len()
}

/// Writes the buses of a group, whose marks begin at this index in the list of marks. Returns the index after them.
pub(crate) fn put_buses(
    text: &mut Text,
    group: &DrawnGroup<'_>,
    marks: &[CellMark],
    begin: usize,
) -> usize {
    let mut next = begin;
    for bus in 0..group.table.buses() {
        put_load(text, group, bus);
        for fold in 0..folds_of(group.form, group.table) {
            put_row(text, group, bus, fold);
        }
        next = put_marks(text, group, bus, marks, next);
    }
    next
}
