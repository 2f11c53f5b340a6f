//! The slot tables of a plan as an image.
ghost use Rattle.std.specs.Prelude.{◌≡◌, ◌≤◌, ◌<◌, ◌+◌, length, IfErr, IfOk, IfSome};
ghost use Rattle.std.specs.Option.{ForSome};
ghost use Rattle.a429_slots.specs.Tables.{groups_of};
ghost use Rattle.a429_documents.specs.Drawing.{IsDrawingFault, first_drawn, groups_drawn, image_height, marks_of};

mod groups;
mod legend;
mod marks;
pub(crate) mod places;
mod rows;
mod shapes;
mod times;

use crate::drawing::groups::put_groups;
pub use crate::drawing::marks::CellMark;
use crate::drawing::marks::marks_of;
use crate::drawing::places::{height_of, width_of};
use crate::kept::{KeptText, kept_texts};
use a429_slots::{OUTPUTS, Plan, Proposal};
use a429_text::Text;
use std::alloc::{AllocError, Global};
use thiserror::Error;

/// The maximum height of an image, in pixels: many viewers show no more (profile: drawing).
const HIGHEST: u64 = 32_767;

/// How much an image shows of each bus. `slots` is the number of slots, 1 to 8192; `None` is a frame, at most 256 slots.
/// `width` is the number of slots in a row, 64 to 256; `None` is 64.
#[derive(Clone, Copy, PartialEq, Eq)]
pub struct DrawingForm {
    pub slots: Option<u32>,
    pub width: Option<u32>,
}

/// Why there is no image.
#[derive(Clone, Copy, Debug, PartialEq, Eq, Error)]
pub enum DrawingFault {
    /// It would be more than 32,767 pixels high.
    #[error("the image is too high")]
    TooHigh,
    /// An allocation failed.
    #[error("memory refused")]
    NoMemory,
}

/// What is drawn of the plan of a proposal: the marks of one group, or of all groups.
#[derive(Drop)]
pub struct Drawing<'a> {
    pub proposal: &'a Proposal<OUTPUTS>,
    pub group: Option<usize>,
    pub form: DrawingForm,
    pub marks: Vec<CellMark>,
    ghost known: { ForSome group (λ group. group < length (groups_of proposal.now.plan)) },
    ghost own: { marks.items ≡ marks_of proposal.now.plan form group },
    ghost height: { image_height proposal.now.plan form group ≤ 32767 },
}

/// The number of the first group that is drawn, and the number of groups: one group, or all.
pub(crate) fn group_range(plan: &Plan<OUTPUTS>, group: Option<usize>) -> (usize, usize)
    requires { IfSome group (λ group. group < length (groups_of plan.now)) }
    ensures first { result.0 ≡ first_drawn group }
    ensures count { result.1 ≡ groups_drawn group plan.now }
    ensures known { result.0 + result.1 ≤ length (groups_of plan.now) }
    ensures few { result.0 + result.1 ≤ 8 }
{
    let groups = plan.groups();
    match group {
        None => (0, groups),
        Some(group) => (group, 1),
    }
}

impl<'a> Drawing<'a> {
    /// The drawing of a proposal's plan, of one group or of all (profile: drawing). It has a mark for each cell with an
    /// output, in the slots that the form asks for. Slots after the frame are those of the next frames. Errors: `TooHigh`
    /// if the image would be higher than 32,767 pixels; `NoMemory` if an allocation failed.
    pub fn of(
        alloc: Global,
        proposal: &'a Proposal<OUTPUTS>,
        group: Option<usize>,
        form: DrawingForm,
    ) -> Result<Drawing<'a>, DrawingFault>
        requires { IfSome group (λ group. group < length (groups_of proposal.now.plan)) }
        ensures marks { IfOk result (λ drawing. drawing.marks.items ≡ marks_of proposal.now.plan form group) }
        ensures height { IfOk result (λ _. image_height proposal.now.plan form group ≤ 32767) }
        ensures fault { IfErr result (IsDrawingFault proposal.now.plan form group) }
    {
        let plan = proposal.plan();
        let (first, count) = group_range(plan, group);
        if height_of(plan, form, first, count) > HIGHEST {
            return Err(DrawingFault::TooHigh);
        }
        match marks_of(alloc, plan, form, first, count).into_vec() {
            Ok(marks) => Ok(Drawing {
                proposal,
                group,
                form,
                marks,
            }),
            Err(_) => Err(DrawingFault::NoMemory),
        }
    }
}

/// Begins an image of this width and height, with a white background.
fn put_sheet(text: &mut Text, width: u64, height: u64) {
    text.fill(
        &[
            "<svg xmlns='http://www.w3.org/2000/svg' viewBox='0 0 ",
            " ",
            "' font-family='monospace' font-size='11'>\n<rect width='",
            "' height='",
            "' fill='white'/>\n",
        ],
        &[width, height, width, height],
    );
}

/// Writes an image of a table whose comments say this.
pub(crate) fn put_image(text: &mut Text, drawing: &Drawing<'_>, texts: &[KeptText<'_>]) {
    let plan = drawing.proposal.plan();
    let (first, count) = group_range(plan, drawing.group);
    let height = height_of(plan, drawing.form, first, count);
    put_sheet(text, u64::from(width_of(drawing.form)), height);
    put_groups(
        text,
        drawing.proposal,
        texts,
        drawing.form,
        first,
        count,
        &drawing.marks,
    );
    text.put("</svg>\n");
}

/// An image (SVG; profile: drawing). It has a row for each bus with its load in per cent, and a column for each slot. Each
/// mark has the shape of its output, and a legend is in the order of labels. Times are in milliseconds. What comments of
/// the table say of a source is shown under the pointer. Error: an allocation failed.
pub fn draw_text(
    alloc: Global,
    drawing: &Drawing<'_>,
    table: &[u8],
) -> Result<Vec<u8>, AllocError> {
    let texts = kept_texts(alloc, table)?;
    let mut text = Text::new(alloc);
    put_image(&mut text, drawing, &texts);
    text.into_bytes()
}
