//! The documents of a plan: its interface control document, what would save a bus, an image of its slot tables, likely
//! mistakes in its table, and what another plan changes.
//!
//! `plan_sheet` gives a sheet on a plan (`PlanSheet`): the interface control document, what each bus carries and has room
//! for, the slot tables by cell or bus by bus, and the words of each bus. `margin_sheet` says which maximum intervals would
//! have to be longer to save a bus, and `is_any_above` whether a bus is above a limit. `slot_header` gives the slot tables as
//! a header of C. `Drawing::of` has the marks of an image, of one group or of all; `draw_text` writes it as an image (SVG),
//! and `page_text` as a page (HTML) with that image and the other documents. `diff_sheet` takes two proposals, and says what
//! changes from the first to the second. `lint_sheet` takes an equipment, and says which words never arrive and what is
//! unused. The others take a proposal. `Sheet::render` of `a429_text` renders a sheet.
//!
//! Errors: each call fails if an allocation fails. `Drawing::of` also fails if the image is too high.
//!
//! ```text
//! let sheet = plan_sheet(alloc, proposal, PlanSheet::Icd(keeps_zeros), None);
//! ..
//! let text = margin_sheet(alloc, proposal)?.render(alloc, form)?;
//! ```
#![tactic(auto)]

mod cells;
mod diff;
mod drawing;
mod kept;
pub mod laws;
mod lint;
mod load;
mod margin;
mod page;
mod planned;
mod sheets;
mod slots;
mod stamps;

pub use diff::diff_sheet;
pub use drawing::{CellMark, Drawing, DrawingFault, DrawingForm, draw_text};
pub use kept::render_kept;
pub use lint::{is_millis_group, lint_sheet};
pub use load::is_any_above;
pub use margin::margin_sheet;
pub use page::{TableFile, page_text};
pub use sheets::{PlanSheet, SOURCE, plan_sheet, sheet_named};
pub use slots::{SLOT_SOURCE, slot_header};
pub use stamps::put_stamp;
