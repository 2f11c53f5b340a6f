//! The groups of an image, one below the other.
ghost use Rattle.std.specs.Prelude.{◌≤◌, ◌<◌, ◌+◌, length};
ghost use Rattle.a429_slots.specs.Tables.{groups_of};

use crate::drawing::DrawingForm;
use crate::drawing::legend::put_legend;
use crate::drawing::marks::CellMark;
use crate::drawing::places::{height_of, slots_of};
use crate::drawing::rows::{put_buses, put_numbers};
use crate::drawing::shapes::put_shapes;
use crate::drawing::times::put_lasting;
use crate::kept::KeptText;
use a429_equipment::{Equipment, GroupRow};
use a429_slots::{GroupPlan, OUTPUTS, Proposal};
use a429_text::Text;

/// A group that is drawn: its number, its row and its slot table, and how much is drawn of it.
#[derive(Drop)]
pub(crate) struct DrawnGroup<'a> {
    pub number: usize,
    pub equipment: &'a Equipment,
    pub row: &'a GroupRow,
    pub table: &'a GroupPlan<OUTPUTS>,
    pub form: DrawingForm,
    ghost rate: { 1 ≤ row.now.rate },
}

/// Begins the title of a group.
fn put_name(text: &mut Text, row: &GroupRow, buses: u32, frame: u32) {
    text.put("<text x='8' y='18' font-size='14'>group ");
    text.put(row.name.as_str());
    text.fill(
        &[" rate ", " buses ", " frame ", " ("],
        &[u64::from(row.rate), u64::from(buses), u64::from(frame)],
    );
}

/// Writes the title of a group, and begins the definitions of its shapes.
fn put_title(text: &mut Text, group: &DrawnGroup<'_>) {
    let frame = group.table.frame();
    put_name(text, group.row, group.table.buses(), frame);
    put_lasting(text, group.row.rate, frame);
    let last = slots_of(group.form, group.table).saturating_sub(1);
    text.fill(
        &[") slots 0 to ", " of ", "</text>\n<defs>\n"],
        &[u64::from(last), u64::from(frame)],
    );
}

/// The group of this number of a proposal.
fn drawn_group(proposal: &Proposal<OUTPUTS>, form: DrawingForm, number: usize) -> DrawnGroup<'_>
    requires { number < length (groups_of proposal.now.plan) }
{
    let equipment = proposal.equipment();
    equipment.rows_are_sound();
    let groups = equipment.groups();
    DrawnGroup {
        number,
        equipment,
        row: &groups[number],
        table: proposal.plan().group(number),
        form,
    }
}

/// Writes a group whose marks begin at this index in the list of marks. Returns the index after them.
fn put_group(
    text: &mut Text,
    group: &DrawnGroup<'_>,
    texts: &[KeptText<'_>],
    marks: &[CellMark],
    begin: usize,
) -> usize {
    put_title(text, group);
    put_shapes(text, group, texts);
    text.put("</defs>\n");
    put_numbers(text, group);
    let next = put_buses(text, group, marks, begin);
    put_legend(text, group);
    text.put("</g>\n");
    next
}

/// Writes `count` groups from the first one on, each at its upper edge. These are what comments of the table say.
pub(crate) fn put_groups(
    text: &mut Text,
    proposal: &Proposal<OUTPUTS>,
    texts: &[KeptText<'_>],
    form: DrawingForm,
    first: usize,
    count: usize,
    marks: &[CellMark],
)
    requires known { first + count ≤ length (groups_of proposal.now.plan) }
    requires few { first + count ≤ 8 }
{
    let mut next = 0;
    for place in 0..count {
        let top = height_of(proposal.plan(), form, first, place);
        text.fill(&["<g transform='translate(0 ", ")'>\n"], &[top]);
        let group = drawn_group(proposal, form, first + place);
        next = put_group(text, &group, texts, marks, next);
    }
}
