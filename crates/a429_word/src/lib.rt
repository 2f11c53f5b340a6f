//! Words of ARINC 429: labels, fields, parity (ARINC 429 Part 1).
//!
//! A `Word` has 32 bits, of which an odd number are ones. `Word::build` makes one from its label, SDI, data and SSM,
//! `Word::from_raw` makes one from a number, `raw_word` reads eight hexadecimal digits. `label`, `sdi`, `data`, `ssm`,
//! `bnr` and `bcd` read its fields. `Label::parse` reads three octal digits, `decimal_number` and `digits_value` decimal
//! ones. No call allocates memory.
//!
//! ```text
//! let Ok(word) = Word::from_raw(raw) else {
//!     return false;
//! };
//! word.label().value() == label
//!     && word.sdi().value() == sdi
//!     && word.ssm().value() == ssm
//!     && word.data() == data
//! ..
//! Word::build(Label::new(0), Sdi::new(0), data, Ssm::new(0)).expect(rt, "a word")
//! ..
//! 1 <= bits && bits <= 18 && word.bnr(bits) == number
//! ..
//! match Label::parse(text) {
//!     Ok(label) => label.value() == value,
//!     Err(_) => false,
//! }
//! ```
#![tactic(auto)]

mod decimal;
mod hexadecimal;
mod identifiers;
mod labels;
pub mod laws;
mod meanings;
mod words;

pub use decimal::{are_digits, decimal_number, digits_value};
pub use hexadecimal::{hex_digit, hex_number, raw_word};
pub use identifiers::{Sdi, Ssm};
pub use labels::{Label, LabelText};
pub use meanings::{BcdMeaning, BnrMeaning};
pub use words::{DataRange, Parity, Word};
