//! The places of the parts of an image, in pixels: from the left edge, and from the upper edge of their group.
ghost use Rattle.std.specs.Prelude.{◌≡◌, ◌≤◌, ◌<◌, ◌+◌, ◌^◌, length};
ghost use Rattle.a429_slots.specs.Tables.{groups_of};
ghost use Rattle.a429_documents.specs.Drawing.{fold_top, fold_width, folds_of, group_height, height_of, legend_top, slots_of};

use crate::drawing::DrawingForm;
use a429_slots::{GroupPlan, OUTPUTS, Plan};

/// The number of slots in a row by default, and the minimum. The slots after them are in the folds below.
const NARROW: u32 = 64;

/// The maximum number of slots in a row.
const WIDE: u32 = 256;

/// The maximum number of slots that are drawn by default.
const SHOWN: u32 = 256;

/// The maximum number of slots that are drawn: the longest frame (profile).
const MOST: u32 = 8192;

/// The number of slots that are drawn of a group.
pub(crate) fn slots_of(form: DrawingForm, table: &GroupPlan<OUTPUTS>) -> u32
    ensures { result ≡ slots_of form table.now }
{
    match form.slots {
        None => table.frame().min(SHOWN),
        Some(slots) => slots.min(MOST),
    }
}

/// The number of slots in a row.
fn fold_width(form: DrawingForm) -> u32
    ensures value { result ≡ fold_width form }
    ensures least { 64 ≤ result }
    ensures most { result ≤ 256 }
{
    match form.width {
        None => NARROW,
        Some(width) => width.min(WIDE).max(NARROW),
    }
}

/// The width of an image.
pub(crate) fn width_of(form: DrawingForm) -> u32 {
    166 + 16 * fold_width(form)
}

/// The number of rows for the slots of a bus.
pub(crate) fn folds_of(form: DrawingForm, table: &GroupPlan<OUTPUTS>) -> u32
    ensures { result ≡ folds_of form table.now }
{
    slots_of(form, table).div_ceil(fold_width(form))
}

/// The upper edge of a fold.
pub(crate) fn fold_top(table: &GroupPlan<OUTPUTS>, fold: u32) -> u64
    ensures value { result ≡ fold_top table.now fold }
    ensures few { result < 2 ^ 42 }
{
    26 + u64::from(fold) * (22 + 18 * u64::from(table.buses()))
}

/// The upper edge of the legend of a group.
pub(crate) fn legend_top(form: DrawingForm, table: &GroupPlan<OUTPUTS>) -> u64
    ensures value { result ≡ legend_top form table.now }
    ensures few { result < 2 ^ 43 }
{
    fold_top(table, folds_of(form, table)) + 4
}

/// The height of a group.
fn group_height(form: DrawingForm, table: &GroupPlan<OUTPUTS>) -> u64
    ensures value { result ≡ group_height form table.now }
    ensures few { result < 2 ^ 44 }
{
    let outputs = table.outputs() as u64;
    legend_top(form, table) + 20 * outputs.div_ceil(2) + 24
}

/// The height of `count` groups from a first one on, one below the other.
pub(crate) fn height_of(plan: &Plan<OUTPUTS>, form: DrawingForm, first: usize, count: usize) -> u64
    requires known { first + count ≤ length (groups_of plan.now) }
    requires few { first + count ≤ 8 }
    ensures { result ≡ height_of plan.now form first count }
{
    let mut height = 0;
    for place in 0..count {
        height += group_height(form, plan.group(first + place));
    }
    height
}

/// The upper edge of the row of a bus in a fold.
pub(crate) fn row_top(table: &GroupPlan<OUTPUTS>, fold: u32, bus: u32) -> u64
    ensures { result < 2 ^ 43 }
{
    fold_top(table, fold) + 14 + 18 * u64::from(bus)
}

/// The fold that has a slot.
pub(crate) fn fold_at(form: DrawingForm, slot: u32) -> u32 {
    slot / fold_width(form)
}

/// The left edge of a slot.
pub(crate) fn slot_left(form: DrawingForm, slot: u32) -> u64 {
    100 + 16 * u64::from(slot % fold_width(form))
}

/// The number of slots in a fold.
pub(crate) fn slots_in(form: DrawingForm, table: &GroupPlan<OUTPUTS>, fold: u32) -> u64
    ensures { result ≤ 256 }
{
    let width = u64::from(fold_width(form));
    let before = width * u64::from(fold);
    width.min(u64::from(slots_of(form, table)).saturating_sub(before))
}
