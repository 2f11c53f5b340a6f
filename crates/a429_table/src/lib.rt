//! Equipment tables as TOML: the equipment that a table states, or the first of its faults.
//!
//! `read_equipment` takes the bytes of a table. Its error is the kind of the first fault with its place, or
//! `NoMemory`. `read_or_keep` also keeps what was read of a refused table, for hints. `columns_of` lists the keys of a
//! row. `rows_at` and `text_at` read a value at a key.
//!
//! ```text
//! let equipment = read_equipment(alloc, table).ok()?;
//! ```
//!
//! A refused table has the kind of its fault and the place. `read_or_keep` also keeps what was read:
//!
//! ```text
//! match read_or_keep(alloc, table, &mut document) {
//!     Ok(equipment) => Ok(equipment),
//!     Err(TableFault::NoMemory) => Err(Refused::plain(CommandRefusal::Memory)),
//!     Err(TableFault::At(kind, place)) => {
//!         let refusal = CommandRefusal::Table(kind, place);
//!         Err(Refused::of_table(refusal, TableEvidence::of_text(table, document)))
//!     }
//! }
//! ```
#![tactic(auto)]

mod build;
mod columns;
mod document;
mod early;
mod fault;
mod fault_places;
pub mod laws;
mod names;
mod reading;
mod repeats;
mod search;
mod shape;
mod table_index;
mod tree;
mod values;
mod version;
mod walk;

pub use columns::{Column, Shape, columns_of};
pub use document::RefusedTable;
pub use fault::{FaultKind, TableFault, TablePlace};
pub use fault_places::FaultPlaces;
pub use reading::{read_equipment, read_or_keep};
pub use search::places_of;
pub use table_index::number_name;
pub use tree::{rows_at, text_at};
pub use version::version_of;
