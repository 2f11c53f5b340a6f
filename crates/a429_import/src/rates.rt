//! Bit rates in fields.
ghost use Rattle.std.specs.Prelude.{◌≡◌, option_map};
ghost use Rattle.a429_import.specs.ImportFields.{before_unit, kilobits_in, rate_in, worded_rate};

use crate::fields::{millis_in, number_in};
use crate::plain::is_text;

/// The bit rate in a word for one of the two usual bit rates, in bit/s.
fn worded_rate(field: &[u8]) -> Option<u32>
    ensures { result ≡ worded_rate field.now }
{
    if is_text("hs", field) || is_text("high", field) || is_text("high speed", field) {
        Some(100000)
    } else if is_text("ls", field) || is_text("low", field) || is_text("low speed", field) {
        Some(12500)
    } else {
        None
    }
}

/// What comes before the unit of a field, in any case, and before a space above it. `None` if the field does not end with the
/// unit.
fn before_unit<'a>(unit: &str, field: &'a [u8]) -> Option<&'a [u8]>
    ensures { option_map (λ f. f.now) result ≡ before_unit unit.now field.now }
{
    let place = field.len().checked_sub(unit.len())?;
    if !is_text(unit, &field[place..]) {
        return None;
    }
    match &field[..place] {
        [number @ .., b' '] => Some(number),
        number => Some(number),
    }
}

/// The bit rate in a number of kbit/s with its unit, in bit/s.
fn kilobits_in(field: &[u8]) -> Option<u32>
    ensures { result ≡ kilobits_in field.now }
{
    let number = before_unit("kbit/s", field).or(before_unit("kbps", field))?;
    millis_in(b',', number)
}

/// The bit rate in a field, in bit/s: a number, a word for one of the two usual bit rates, or a number of kbit/s with its
/// unit. `None` for any other field.
#[tactic(auto, unfolding(crate::specs::ImportFields::rate_in))]
pub fn rate_in(field: &[u8]) -> Option<u32>
    ensures { result ≡ rate_in field.now }
{
    match number_in(field) {
        Some(rate) => Some(rate),
        None => worded_rate(field).or(kilobits_in(field)),
    }
}
