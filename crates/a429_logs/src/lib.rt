//! Logs of words, as recorders write them.
//!
//! A log comes in pieces, cut at line feeds. A `LogReader` gives its words one by one: the time of each in microseconds, the
//! name of its receiver or channel, and its 32 bits; or the first line that is faulty, and why. A `LogPoint` says how the log
//! goes on after a piece, so the pieces that were read can be dropped before the later ones are read.
//!
//! Fields are separated by blanks, commas or semicolons, and may be in quotes. A heading may name the columns, and the unit of
//! times. Titles above it are passed over, and so are lines after the last row that are no rows. `Reading` says the unit of
//! times, from when on they are counted, and the order of bits. It may say whether the day or the month is first in dates, and
//! what fields of a heading count as. No call allocates memory.
//!
//! ```text
//! let mut reader = LogReader::open(reading, &log);
//! while let Some(entry) = reader.next() {
//! ..
//! let Some(word) = word_for(names, entry.word) else {
//! ```
#![tactic(auto)]

mod calendars;
mod cells;
mod clocks;
mod columns;
mod dates;
mod exponents;
mod fields;
mod gregorian;
mod hexadecimal;
pub mod laws;
mod lines;
mod orders;
mod parts;
mod quick;
mod reader;
mod reading;
mod rows;
mod ticks;
mod times;
mod words;
mod written;

pub use calendars::{Calendar, DateSpan, Span};
pub use cells::Column;
pub use clocks::Clock;
pub use columns::{Base, HeadingFault, PartsPlaces, Places, ValuePlace, Width, WordPlaces};
pub use fields::{Fields, Separator};
pub use reader::{LogFault, LogPoint, LogReader, LogWord, PassedOver};
pub use reading::{LineFault, Reading, Shape};
pub use rows::{RowFault, StatedWord};
pub use times::TimeUnit;
pub use words::BitOrder;
pub use written::DateOrder;
