//! Intervals in fields: microseconds, milliseconds or rates, and one limit or both in a field.
ghost use Rattle.std.specs.Prelude.{◌≡◌, if◌then◌else◌, position};
ghost use Rattle.std.specs.Option.{option_and_then};
ghost use Rattle.a429_import.specs.ImportIntervals.{both_in, both_unit, divider_len, form_named, interval_in, is_divider, limit_in, limit_of_both, limit_unit, states_interval, unit_among, value_in};

use crate::blanks::trimmed;
use crate::fault::ImportColumn;
use crate::fields::{millis_in, number_in};
use crate::forms::from_place;
use crate::plain::same_heading;

/// What a number in a column of intervals counts.
#[derive(Clone, Copy, PartialEq, Eq)]
pub enum IntervalUnit {
    /// Microseconds.
    Micros,
    /// Milliseconds.
    Millis,
    /// Hertz: times a second.
    Hertz,
}

/// How a column states intervals.
#[derive(Clone, Copy)]
pub struct IntervalForm {
    pub unit: IntervalUnit,
    /// Whether a field has both limits, for example `50/100`.
    pub has_both: bool,
}

/// The unit in a name, of the names in microseconds, in milliseconds and in Hz. `None` if it is none of them.
fn unit_among(micros: &str, millis: &str, hertz: &str, name: &[u8]) -> Option<IntervalUnit>
    ensures { result ≡ unit_among micros.now millis.now hertz.now name.now }
{
    if same_heading(micros.as_bytes(), name) {
        Some(IntervalUnit::Micros)
    } else if same_heading(millis.as_bytes(), name) {
        Some(IntervalUnit::Millis)
    } else if same_heading(hertz.as_bytes(), name) {
        Some(IntervalUnit::Hertz)
    } else {
        None
    }
}

/// The unit in the name of a column with both limits of an interval, or with one: a rate is the reciprocal of the other
/// limit. `None` if the name is none of these.
fn unit_in(column: ImportColumn, has_both: bool, name: &[u8]) -> Option<IntervalUnit>
    ensures { result ≡ (if has_both then both_unit column name.now else limit_unit column name.now) }
{
    match column {
        ImportColumn::MinUs if !has_both => unit_among("min_us", "min_ms", "max_hz", name),
        ImportColumn::MaxUs if !has_both => unit_among("max_us", "max_ms", "min_hz", name),
        ImportColumn::MinUs | ImportColumn::MaxUs => {
            unit_among("interval_us", "interval_ms", "rate_hz", name)
        }
        _ => None,
    }
}

/// Whether a name is that of a limit of intervals, or of both.
pub fn states_interval(column: ImportColumn, name: &[u8]) -> bool
    ensures { result ≡ states_interval column name.now }
{
    unit_in(column, false, name).is_some() || unit_in(column, true, name).is_some()
}

/// How the column with this name states intervals; in microseconds if the name is that of no interval.
pub fn form_named(column: ImportColumn, name: &[u8]) -> IntervalForm
    ensures { result ≡ form_named column name.now }
{
    let both = unit_in(column, true, name);
    let unit = unit_in(column, false, name).or(both);
    IntervalForm {
        unit: unit.unwrap_or(IntervalUnit::Micros),
        has_both: both.is_some(),
    }
}

/// A number of microseconds, or thousandths of a millisecond or of a hertz. `None` for a field of another form.
fn value_in(unit: IntervalUnit, separator: u8, field: &[u8]) -> Option<u32>
    ensures { result ≡ value_in unit separator field.now }
{
    match unit {
        IntervalUnit::Micros => number_in(field),
        _ => millis_in(separator, field),
    }
}

/// A limit in microseconds. A rate is in thousandths of a hertz: a minimum is rounded up, and a maximum down, so that the
/// interval is not left. `None` at 0 Hz.
fn limit_in(is_least: bool, unit: IntervalUnit, value: u32) -> Option<u32>
    ensures { result ≡ limit_in is_least unit value }
{
    match unit {
        IntervalUnit::Hertz if value == 0 => None,
        IntervalUnit::Hertz if is_least => Some(1_000_000_000u32.div_ceil(value)),
        IntervalUnit::Hertz => Some(1_000_000_000 / value),
        _ => Some(value),
    }
}

/// The place of the first byte that is `/` or `-`, or the first of an en dash (U+2013).
fn first_divider(field: &[u8]) -> Option<usize>
    ensures { result ≡ position is_divider field.now }
{
    field
        .iter()
        .position(|byte| matches!(*byte, b'/' | b'-' | 0xE2))
}

/// The number of bytes of what divides two limits: 3 for an en dash, otherwise 1.
fn divider_len(rest: &[u8]) -> usize
    ensures { result ≡ divider_len rest.now }
{
    match rest {
        [0xE2, 0x80, 0x93, ..] => 3,
        _ => 1,
    }
}

/// The two numbers of a field, the smaller first. `None` if one is missing, or the greater is first.
fn both_in(unit: IntervalUnit, separator: u8, field: &[u8]) -> Option<(u32, u32)>
    ensures { result ≡ both_in unit separator field.now }
{
    let place = first_divider(field)?;
    let rest = &field[place..];
    let second = from_place(rest, divider_len(rest));
    let first = value_in(unit, separator, trimmed(&field[..place]))?;
    let second = value_in(unit, separator, trimmed(second))?;
    if first <= second {
        Some((first, second))
    } else {
        None
    }
}

/// A limit of an interval, of a field with both.
fn limit_of_both(is_least: bool, unit: IntervalUnit, separator: u8, field: &[u8]) -> Option<u32>
    ensures { result ≡ option_and_then (limit_of_both is_least unit) (both_in unit separator field.now) }
{
    let (first, second) = both_in(unit, separator, field)?;
    // the minimum is the smaller interval, or the greater rate
    let value = if is_least == (unit == IntervalUnit::Hertz) {
        second
    } else {
        first
    };
    limit_in(is_least, unit, value)
}

/// A limit of an interval, in microseconds, from a column of this form. `None` for a field of another form, and at 0 Hz.
#[tactic(auto, unfolding(crate::specs::ImportIntervals::interval_in))]
pub fn interval_in(is_least: bool, form: IntervalForm, separator: u8, field: &[u8]) -> Option<u32>
    ensures { result ≡ interval_in is_least form separator field.now }
{
    if form.has_both {
        limit_of_both(is_least, form.unit, separator, field)
    } else {
        limit_in(is_least, form.unit, value_in(form.unit, separator, field)?)
    }
}
