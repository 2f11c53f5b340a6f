//! The legend of a group in an image, in the order of labels.
ghost use Rattle.std.specs.Prelude.{◌<◌, ◌≤◌, length};
ghost use Rattle.a429_slots.specs.Tables.{outputs_of};

use crate::drawing::groups::DrawnGroup;
use crate::drawing::places::legend_top;
use crate::drawing::shapes::put_used;
use crate::drawing::times::put_lasting;
use a429_equipment::{ReceiverRow, SourceRow};
use a429_slots::{GroupPlan, OUTPUTS, OutputId, SlotPlace};
use a429_text::Text;
use a429_word::Sdi;

/// The order of a source: by label, then by SDI, with any first.
fn order_of(source: &SourceRow) -> u32 {
    let sdi = match source.sdi {
        None => 0,
        Some(sdi) => u32::from(sdi.value()) + 1,
    };
    5 * u32::from(source.label.value()) + sdi
}

/// The number of outputs of a group that come before one of this source.
fn rank_of(sources: &[SourceRow], table: &GroupPlan<OUTPUTS>, source: &SourceRow) -> u32 {
    let mut rank = 0;
    for output in 0..table.outputs() {
        if let Some(other) = sources.get(table.source(OutputId::new(output))) {
            if order_of(other) < order_of(source) {
                rank += 1;
            }
        }
    }
    rank
}

/// Writes an SDI, or `any`, between two spaces.
fn put_sdi(text: &mut Text, sdi: Option<Sdi>) {
    match sdi {
        None => text.put(" any "),
        Some(sdi) => text.fill(&[" ", " "], &[u64::from(sdi.value())]),
    }
}

/// Writes what an output sends: the label, the SDI and the name of its source, and its receiver.
fn put_sent(text: &mut Text, receivers: &[ReceiverRow], source: &SourceRow) {
    text.put_octal(source.label.value());
    put_sdi(text, source.sdi);
    text.put(source.name.as_str());
    text.put(" receiver ");
    if let Some(receiver) = receivers.get(source.receiver) {
        text.put(receiver.name.as_str());
    }
}

/// Writes the bus of an output, and its period in slots and in time, at a bit rate in bit/s.
fn put_period(text: &mut Text, rate: u32, place: SlotPlace)
    requires { 1 ≤ rate }
{
    let slots = place.period.slots();
    text.fill(
        &[" bus ", " every ", " slots ("],
        &[u64::from(place.bus), u64::from(slots)],
    );
    put_lasting(text, rate, slots);
    text.put(")</text>\n");
}

/// Writes the shape of an output at its place in the legend, and begins the text next to it.
fn put_begin(text: &mut Text, group: &DrawnGroup<'_>, output: OutputId, rank: u32) {
    let left = 8 + 590 * u64::from(rank % 2);
    let top = legend_top(group.form, group.table) + 20 * u64::from(rank / 2);
    put_used(text, group.number, output, left, top);
    text.fill(
        &["<text x='", "' y='", "' font-size='10'>"],
        &[left + 22, top + 13],
    );
}

/// Writes the entry of an output that sends this source: its shape, and the text next to it.
fn put_entry(text: &mut Text, group: &DrawnGroup<'_>, output: OutputId, source: &SourceRow)
    requires { output < length (outputs_of group.now.table.now) }
{
    let rank = rank_of(group.equipment.sources(), group.table, source);
    put_begin(text, group, output, rank);
    put_sent(text, group.equipment.receivers(), source);
    put_period(text, group.row.rate, group.table.place(output));
}

/// Writes the name of a group above its legend.
fn put_heading(text: &mut Text, group: &DrawnGroup<'_>) {
    let top = legend_top(group.form, group.table);
    text.fill(
        &["<text x='8' y='", "' font-size='10'>group "],
        &[top.saturating_sub(2)],
    );
    text.put(group.row.name.as_str());
    text.put("</text>\n");
}

/// Writes the legend of a group below its name. Its entries are written in table order, each at its place.
pub(crate) fn put_legend(text: &mut Text, group: &DrawnGroup<'_>) {
    put_heading(text, group);
    let sources = group.equipment.sources();
    for output in 0..group.table.outputs() {
        let output = OutputId::new(output);
        if let Some(source) = sources.get(group.table.source(output)) {
            put_entry(text, group, output, source);
        }
    }
}
