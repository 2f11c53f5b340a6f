//! An equipment table from rows of comma-separated values, as a spreadsheet writes them.
//!
//! `import_table` takes a heading with the names of columns, and below it a row for each output, or for a source that no
//! group sends. It gives an equipment table as TOML, and the equipment, or keeps the rows that a hint is about. A `Watch`
//! shows how much is read. `IMPORT_COLUMNS` has the columns that are read. `made_name` makes a name of a text:
//! `import_table` does so if it is asked to.
//!
//! Errors: an allocation failed, or the rows or their table have a fault. `ImportFault` has the first fault of the rows,
//! with its line and its column; otherwise the first fault of the table.
//!
//! ```text
//! let imported = import_table(
//!     alloc,
//!     maps,
//!     options,
//!     bytes,
//!     &WatchedFiles { files },
//!     refused,
//! );
//! ```
#![tactic(auto)]

mod above;
mod blanks;
mod clashes;
mod columns;
mod comments;
mod fault;
mod fields;
mod firsts;
mod forms;
mod import;
mod indexed_rows;
mod intervals;
mod kept;
mod keyed_lines;
pub mod laws;
mod lines;
mod made_names;
mod maps;
mod notes;
mod plain;
mod quotes;
mod rates;
mod reading;
mod refused;
mod renamed;
mod rows;
mod sheet_reading;
mod tables;

pub use columns::{COLUMNS as IMPORT_COLUMNS, Heading, is_column, is_named as is_column_named};
pub use fault::{CsvFaultKind, ImportColumn, ImportFault};
pub use fields::{may_be_thousands, millis_in};
pub use import::{ImportOptions, Imported, import_table};
pub use intervals::{IntervalForm, IntervalUnit};
pub use made_names::made_name;
pub use maps::{column_in, has_heading, heading_texts, is_met, keep_texts};
pub use refused::RefusedRows;
pub use rows::{RowNumbers, form_fault, row_numbers};
pub use sheet_reading::Watch;
