//! Texts and lists that are built without an error at each step, and sheets: rows of cells under named columns.
//!
//! A `Text` is written at its end, and a `Gathered` list gets items at its end. No call that adds has an error: if an
//! allocation fails for a part, the call that takes the whole returns the error. A `Sheet` has rows of `Cell`s;
//! `Sheet::render` gives it in columns for people, as comma-separated values, or as JSON. `renames` has texts FROM=TO, by
//! which a name in another file is taken as one of your own. `cut` cuts texts at a byte and into lines, and `from_end` writes
//! short lines without an allocation.
//!
//! ```text
//! rows.add(&[
//!     Cell::Text(group),
//!     Cell::Text(source),
//!     Cell::Number(figures.sent),
//!     ..
//! ]);
//! ..
//! let mut rows = Rows::new(alloc);
//! add_groups(&mut rows, proposal, summary);
//! Sheet {
//!     columns: COLUMNS,
//!     rows,
//! }
//! ```
//!
//! Rendered in a form, a sheet is bytes:
//!
//! ```text
//! let bytes = sheet.render(alloc, form)?;
//! ```
#![tactic(auto)]

mod aligned;
mod cells;
mod csv_line;
mod csv_text;
pub mod cut;
mod fields;
pub mod from_end;
mod gathered;
mod json;
mod lost;
pub mod renames;
mod rows;
mod said;
mod sheets;
mod text;

pub use cells::{Cell, Row};
pub use csv_line::{CsvLine, field_at};
pub use gathered::Gathered;
pub use rows::Rows;
pub use sheets::{Sheet, SheetForm, render_rows};
pub use text::Text;
