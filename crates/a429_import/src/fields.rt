//! The values of fields.
ghost use Rattle.std.specs.Prelude.{◌≡◌, ◌<◌, ◌==◌, option_map, position, slice_get};
ghost use Rattle.std.specs.List.{list_all};
ghost use Rattle.a429_import.specs.ImportFields.{are_filters, are_micros, digit_of, filters_in, has_thousands, hold_in, if_group, is_any, is_mark, label_in, may_be_thousands, micros_in, millis_in, number_in, sdi_digits, sdi_in, text_in, together, utf8_in};

use crate::plain::{is_text, unwrapped};
use a429_filter::Filter;
use a429_word::{Label, Sdi, are_digits, decimal_number};

/// The number in a field: one to ten decimal digits without leading zeros, below 2^32. `None` for any other field.
#[tactic(auto, unfolding(crate::specs::ImportFields::number_in))]
pub fn number_in(field: &[u8]) -> Option<u32>
    ensures { result ≡ number_in field.now }
{
    u32::try_from(decimal_number(field)?).ok()
}

/// The place of the first byte that separates milliseconds from the digits below them.
fn first_mark(separator: u8, field: &[u8]) -> Option<usize>
    ensures { result ≡ position (is_mark separator) field.now }
{
    field
        .iter()
        .position(|byte| *byte == b'.' || *byte == b',' && separator != b',')
}

/// A digit after the mark; 0 if there is none.
fn digit_at(digits: &[u8], place: usize) -> u32
    ensures digit { result ≡ digit_of (slice_get digits.now place) }
    ensures small { result < 208 }
{
    match digits.get(place) {
        Some(digit) if digit.is_ascii_digit() => u32::from(*digit - b'0'),
        _ => 0,
    }
}

fn are_zeros(digits: &[u8]) -> bool
    ensures { result ≡ list_all (λ b. b == 48) digits.now }
{
    digits.iter().all(|digit| *digit == b'0')
}

/// Whether digits after the mark state whole microseconds.
fn are_micros(digits: &[u8]) -> bool
    ensures { result ≡ are_micros digits.now }
{
    !digits.is_empty() && are_digits(digits) && (digits.len() <= 3 || are_zeros(&digits[3..]))
}

/// The microseconds that the digits after the mark state. `None` if they state none, or a part of one.
fn micros_in(digits: &[u8]) -> Option<u32>
    ensures micros { result ≡ micros_in digits.now }
{
    if are_micros(digits) {
        Some(digit_at(digits, 0) * 100 + digit_at(digits, 1) * 10 + digit_at(digits, 2))
    } else {
        None
    }
}

/// Milliseconds and microseconds together, in microseconds. `None` if they have more than 32 bits.
fn together(millis: Option<u64>, micros: Option<u32>) -> Option<u32>
    ensures { result ≡ together millis micros }
{
    match (millis, micros) {
        (Some(millis), Some(micros)) if millis < 4294967 && micros < 1000 => {
            Some(millis as u32 * 1000 + micros)
        }
        _ => None,
    }
}

fn first_point(field: &[u8]) -> Option<usize>
    ensures { result ≡ position (λ b. b == 46) field.now }
{
    field.iter().position(|byte| *byte == b'.')
}

/// Whether the part before a point is not 0, and the part after it has three digits.
fn has_thousands(field: &[u8]) -> bool
    ensures { result ≡ has_thousands field.now (position (λ b. b == 46) field.now) }
{
    match first_point(field) {
        Some(point) => &field[..point] != "0".as_bytes() && field[point + 1..].len() == 3,
        None => false,
    }
}

/// Whether a number may be a thousand times as much: between semicolons a comma comes before decimals, and a point may
/// separate thousands.
pub fn may_be_thousands(separator: u8, field: &[u8]) -> bool
    ensures { result ≡ may_be_thousands separator field.now }
{
    separator == b';' && has_thousands(field)
}

/// The microseconds in a number of milliseconds, which may have a point and digits after it, or a comma if commas do not
/// separate fields. `None` for any other field, if it states a part of a microsecond, and if it may be a thousand times as
/// much.
#[tactic(auto, unfolding(crate::specs::ImportFields::millis_in))]
pub fn millis_in(separator: u8, field: &[u8]) -> Option<u32>
    ensures { result ≡ millis_in separator field.now }
{
    if may_be_thousands(separator, field) {
        return None;
    }
    match first_mark(separator, field) {
        None => together(decimal_number(field), Some(0)),
        Some(mark) => {
            together(
                decimal_number(&field[..mark]),
                micros_in(&field[mark + 1..]),
            )
        }
    }
}

/// The label in a field: three octal digits, 000 to 377. Leading zeros may be missing. `None` for any other field.
#[tactic(auto, unfolding(crate::specs::ImportFields::label_in))]
pub fn label_in(field: &[u8]) -> Option<Label>
    ensures { result ≡ label_in field.now }
{
    match unwrapped(field) {
        [low] => Label::of_digits(&[b'0', b'0', *low]),
        [middle, low] => Label::of_digits(&[b'0', *middle, *low]),
        digits => Label::of_digits(digits),
    }
}

/// The SDI in a digit, or in two binary digits.
fn sdi_digits(field: &[u8]) -> Option<Option<Sdi>>
    ensures { result ≡ sdi_digits field.now }
{
    match field {
        [digit @ b'0'..=b'3'] => Some(Some(Sdi::new(*digit - b'0'))),
        [high @ (b'0' | b'1'), low @ (b'0' | b'1')] => {
            Some(Some(Sdi::new(2 * (*high - b'0') + (*low - b'0'))))
        }
        _ => None,
    }
}

/// Whether a field states any SDI.
fn is_any(field: &[u8]) -> bool
    ensures { result ≡ is_any field.now }
{
    field.is_empty()
        || is_text("any", field)
        || is_text("all", field)
        || is_text("x", field)
        || is_text("-", field)
}

/// The SDI in a field: 0 to 3, or two binary digits. `Some(None)` if it is any: `any`, `all`, `x`, `-` or nothing. `None`
/// for any other field.
#[tactic(auto, unfolding(crate::specs::ImportFields::sdi_in))]
pub fn sdi_in(field: &[u8]) -> Option<Option<Sdi>>
    ensures { result ≡ sdi_in field.now }
{
    let text = unwrapped(field);
    if is_any(text) {
        Some(None)
    } else {
        sdi_digits(text)
    }
}

/// The hold in a field: a number; `Some(None)` if it is empty or `none`.
#[tactic(auto, unfolding(crate::specs::ImportFields::hold_in))]
pub fn hold_in(field: &[u8]) -> Option<Option<u32>>
    ensures { result ≡ hold_in field.now }
{
    if field.is_empty() || field == "none".as_bytes() {
        return Some(None);
    }
    number_in(field).map(Some)
}

/// The text in a field: any UTF-8 text. `None` for any other field.
#[tactic(auto, unfolding(crate::specs::ImportFields::utf8_in))]
pub fn utf8_in(field: &[u8]) -> Option<&str>
    ensures { option_map (λ text. text.now) result ≡ utf8_in field.now }
{
    match str::from_utf8(field) {
        Ok(text) => Some(text),
        Err(_) => None,
    }
}

/// The text in a field: any UTF-8 text of at most 4096 bytes. `None` for any other field.
#[tactic(auto, unfolding(crate::specs::ImportFields::text_in))]
pub fn text_in(field: &[u8]) -> Option<&str>
    ensures { option_map (λ text. text.now) result ≡ text_in field.now }
{
    if field.len() <= 4096 {
        utf8_in(field)
    } else {
        None
    }
}

/// Whether each part between spaces is a filter or empty.
fn are_filters(text: &str) -> bool
    ensures { result ≡ are_filters text.now }
{
    text.split(' ')
        .all(|part| part.is_empty() || Filter::parse(part).is_ok())
}

/// The filters in a field, separated by spaces, as they are written. `None` if one has not the form `LLL/MMM`.
#[tactic(auto, unfolding(crate::specs::ImportFields::filters_in))]
pub fn filters_in(field: &[u8]) -> Option<&str>
    ensures { option_map (λ text. text.now) result ≡ filters_in field.now }
{
    let text = text_in(field)?;
    if are_filters(text) { Some(text) } else { None }
}

/// The value of a field of an output, which was read. In a row without a group it is `nothing`; `None` if the field is not
/// empty there.
pub fn if_group<T: Copy>(names_group: bool, field: &[u8], value: Option<T>, nothing: T) -> Option<T>
    ensures { result ≡ if_group names_group (λ _. value) nothing field.now }
{
    if names_group {
        value
    } else if field.is_empty() {
        Some(nothing)
    } else {
        None
    }
}
