//! What must be in a column of rows, and what to write instead of what is often there.

use crate::guesses::is_octal;
use crate::lists::text_under;
use a429_import::{ImportColumn, IntervalForm, IntervalUnit};

/// The columns that have names.
pub const OF_NAMES: [ImportColumn; 3] = [
    ImportColumn::Group,
    ImportColumn::Source,
    ImportColumn::Receiver,
];

/// What a column with this name in the heading has, in two words, and what must be in its fields.
static FORMS: [&str; 14] = [
    "name: a name: 1 to 16 characters of `a` to `z`, `0` to `9`, `-` and `_`",
    "rate: a bit rate: HS (100000), LS (12500), or 12000 to 14500 bit/s",
    "label: a label: three octal digits, 000 to 377",
    "sdi: an SDI: 0 to 3, or `any`",
    "min_us: a time: a whole number of microseconds, from 1 to the maximum",
    "max_us: a time: a whole number of microseconds, from the minimum to 30000000",
    "min_ms: a time: milliseconds from 0.001 to the maximum, with at most three decimals",
    "max_ms: a time: milliseconds from the minimum to 30000, with at most three decimals",
    "hz: a rate: a rate in Hz above 0, with at most three decimals",
    "interval_us: a time: both limits in microseconds, the smaller first, such as 50000-100000",
    "interval_ms: a time: both limits in milliseconds, the smaller first, such as 50-100 or 50/100",
    "rate_hz: a rate: both rates in Hz, the smaller first and above 0, such as 10-20",
    "hold: a hold: a whole number from 1 to 1000000, or nothing for no limit",
    "filters: a filter: LLL/MMM, label and mask, each three octal digits from 000 to 377",
];

/// The name in the heading of a column that states intervals so.
pub fn name_of(column: ImportColumn, form: IntervalForm) -> &'static str {
    let is_min = column == ImportColumn::MinUs;
    match (form.unit, form.has_both) {
        (IntervalUnit::Micros, true) => "interval_us",
        (IntervalUnit::Millis, true) => "interval_ms",
        (IntervalUnit::Hertz, true) => "rate_hz",
        (IntervalUnit::Micros, false) => column.name(),
        (IntervalUnit::Millis, false) if is_min => "min_ms",
        (IntervalUnit::Millis, false) => "max_ms",
        // the greatest rate is that of the shortest interval
        (IntervalUnit::Hertz, false) if is_min => "max_hz",
        (IntervalUnit::Hertz, false) => "min_hz",
    }
}

/// What a column has that states intervals so, in two words, and what must be in its fields.
pub fn form_of(column: ImportColumn, form: IntervalForm) -> (&'static str, &'static str) {
    let name = match name_of(column, form) {
        "max_hz" | "min_hz" => "hz",
        _ if OF_NAMES.contains(&column) => "name",
        name => name,
    };
    let text = text_under(&FORMS, name);
    text.split_once(": ").unwrap_or(("", text))
}

/// Whether a column is about an output, and not about its source. Such a column has a whole number.
pub fn is_of_output(column: ImportColumn) -> bool {
    matches!(
        column,
        ImportColumn::Rate | ImportColumn::MinUs | ImportColumn::MaxUs | ImportColumn::Hold
    )
}

/// The bit rate in bit/s, if a text is one of the two usual bit rates in kbit/s, or has a mark between thousands.
pub fn usual_rate(text: &str) -> Option<&'static str> {
    match text {
        "12.5" | "12,5" | "12.500" | "12,500" | "12 500" | "12500.0" => Some("12500"),
        "100" | "100.0" | "100,0" | "100.000" | "100,000" | "100 000" | "100000.0" => Some(
            "100000",
        ),
        _ => None,
    }
}

/// The label in a text that ends with `.0`, as spreadsheet programs write numbers.
pub fn whole_label(text: &str) -> Option<&str> {
    match text.split_once('.') {
        Some((label, "0")) if is_octal(label.as_bytes()) => Some(label),
        _ => None,
    }
}
