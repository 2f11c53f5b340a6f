//! The names of the columns of a log, and the forms of its fields.

use a429_logs::{Base, Column, PartsPlaces, RowFault};

/// What the digits of a label are.
fn label_form(base: Base) -> &'static str {
    match base {
        Base::Ten => "a decimal number from 0 to 255",
        Base::Sixteen => "one or two hexadecimal digits",
        _ => "one to three octal digits, 0 to 377",
    }
}

/// What the digits of data are.
fn value_form(base: Base) -> &'static str {
    match base {
        Base::Two => "a binary number of at most 19 bits",
        Base::Eight => "an octal number of at most 19 bits",
        Base::Ten => "a decimal number below 524288",
        Base::Sixteen => "one to five hexadecimal digits, at most 7ffff",
    }
}

/// What must be in the field of a word that has a fault.
pub fn part_form(parts: &PartsPlaces, fault: RowFault) -> &'static str {
    match fault {
        RowFault::Label => label_form(parts.label.base),
        RowFault::Sdi => "0 to 3, or two binary digits",
        RowFault::Ssm => "0 to 3, two binary digits, or NO, NCD, FT, FW, Normal, Test or Fail",
        RowFault::Parity => "0, 1, odd, even, ok or error",
        _ => value_form(parts.value.base),
    }
}

/// The names that a column can have.
pub fn names_of(column: Column) -> &'static str {
    match column {
        Column::Time | Column::TimeIn(_) => "time",
        Column::Name => "receiver, channel, bus, group or name",
        Column::Word => "word, hex or data",
        Column::Hex => "data or data_dec",
        Column::Octal => "data_oct",
        Column::Binary => "data_bin",
        Column::Decimal => "data_dec",
        Column::Label => "label",
        Column::HexLabel => "label_hex",
        Column::DecimalLabel => "label_dec",
        Column::Sdi => "sdi",
        Column::Ssm => "ssm",
        Column::Parity => "parity",
    }
}

/// The first name that a column can have.
pub fn first_name(column: Column) -> &'static str {
    let names = names_of(column);
    let (first, _) = names.split_once([',', ' ']).unwrap_or((names, ""));
    first
}
