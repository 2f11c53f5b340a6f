//! Times with an exponent, such as `3.60e-04`.
ghost use Rattle.std.specs.Prelude.{◌≡◌, ◌<◌, ◌≤◌, ◌++◌, IfSome, None, Some, get_or, length, option_map, position, true};
ghost use Rattle.std.specs.List.{list_all};
ghost use Rattle.std.specs.Char.{is_ascii_digit};
ghost use Rattle.std.specs.Str.Parse.{digits_value};
ghost use Rattle.a429_logs.specs.LogExponents.{exponent_by, exponent_in, exponent_time, has_digits_only, is_exponent_mark, mantissa_time, micros_count, moved_time, places_below, to_the_left, to_the_right};
ghost use Rattle.a429_logs.specs.LogTicks.{in_18_digits};
ghost use Rattle.a429_logs.specs.LogTimes.{first_digits, is_point, two_digits};

use crate::fields::Separator;
use crate::ticks::LIMIT;
use crate::times::{TimeUnit, digit_at, first_point, two_digits};
use a429_word::are_digits;

/// By how many places an exponent moves the point: to the right, or to the left.
#[derive(Clone, Copy)]
pub struct PointMove {
    pub right: usize,
    pub left: usize,
}

/// Whether a byte is `e` or `E`, after which an exponent comes.
fn is_exponent_mark(byte: u8) -> bool
    ensures { result ≡ is_exponent_mark byte }
{
    byte == b'e' || byte == b'E'
}

/// The place of the first such byte.
fn exponent_mark(text: &[u8]) -> Option<usize>
    ensures { result ≡ position is_exponent_mark text.now }
{
    text.iter().position(|byte| is_exponent_mark(*byte))
}

/// A move to the right by the number that one digit or two state.
fn to_the_right(digits: &[u8]) -> Option<PointMove>
    ensures value { result ≡ option_map to_the_right (two_digits 99 digits.now) }
    ensures few { IfSome result (λ m. m.right ≤ 99) }
{
    let places = two_digits(99, digits)?;
    Some(PointMove {
        right: places as usize,
        left: 0,
    })
}

/// A move to the left by the number that one digit or two state.
fn to_the_left(digits: &[u8]) -> Option<PointMove>
    ensures value { result ≡ option_map to_the_left (two_digits 99 digits.now) }
    ensures few { IfSome result (λ m. m.right ≤ 99) }
{
    let places = two_digits(99, digits)?;
    Some(PointMove {
        right: 0,
        left: places as usize,
    })
}

/// By how many places an exponent of one digit or two moves the point. The digits may follow a sign.
fn exponent_in(text: &[u8]) -> Option<PointMove>
    ensures value { result ≡ exponent_in text.now }
    ensures few { IfSome result (λ m. m.right ≤ 99) }
{
    match text {
        [b'-', digits @ ..] => to_the_left(digits),
        [b'+', digits @ ..] => to_the_right(digits),
        _ => to_the_right(text),
    }
}

/// How many decimals of a microsecond a unit has.
fn places_below(unit: TimeUnit) -> usize
    ensures { result ≡ places_below unit }
{
    match unit {
        TimeUnit::Nanoseconds => 3,
        _ => 0,
    }
}

/// How many digits are those of microseconds, if this many are before the point, and the point then moves.
fn micros_count(unit: TimeUnit, moves: PointMove, whole: &[u8]) -> usize
    requires { moves.right ≤ 99 }
    ensures { result ≡ micros_count unit moves (length whole.now) }
{
    let before = whole.len() + unit.decimals() + moves.right;
    before
        .saturating_sub(places_below(unit))
        .saturating_sub(moves.left)
}

/// A digit of a number that is cut at its point; one that is not there is 0.
fn digit_of(whole: &[u8], fraction: &[u8], place: usize) -> u8
    ensures { result ≡ get_or (whole.now ++ fraction.now) place 48 }
{
    if place < whole.len() {
        whole[place]
    } else {
        digit_at(fraction, place - whole.len())
    }
}

/// The number that this many of the first digits of such a number state, if it is below 10^18.
fn first_value(count: usize, whole: &[u8], fraction: &[u8]) -> Option<u64>
    requires whole { list_all is_ascii_digit whole.now ≡ true }
    requires fraction { list_all is_ascii_digit fraction.now ≡ true }
    ensures { result ≡ in_18_digits (digits_value 10 (first_digits count (whole.now ++ fraction.now))) }
{
    let mut value = 0;
    for place in 0..count {
        value = value * 10 + u64::from(digit_of(whole, fraction, place) - b'0');
        if value >= LIMIT {
            return None;
        }
    }
    Some(value)
}

/// The microseconds of digits before and after a point, which then moves. `None` if these are 10^18 or more.
#[tactic(auto, unfolding(crate::specs::LogExponents::moved_time))]
fn moved_time(unit: TimeUnit, moves: PointMove, whole: &[u8], fraction: &[u8]) -> Option<u64>
    requires few { moves.right ≤ 99 }
    requires whole { list_all is_ascii_digit whole.now ≡ true }
    requires fraction { list_all is_ascii_digit fraction.now ≡ true }
    ensures { result ≡ moved_time unit moves whole.now fraction.now }
{
    first_value(micros_count(unit, moves, whole), whole, fraction)
}

/// Whether a text is decimal digits, of which there is at least one.
fn has_digits_only(text: &[u8]) -> bool
    ensures { result ≡ has_digits_only text.now }
{
    !text.is_empty() && are_digits(text)
}

/// The microseconds of a mantissa without a point, if the point then moves.
fn whole_time(unit: TimeUnit, moves: PointMove, whole: &[u8]) -> Option<u64>
    requires { moves.right ≤ 99 }
    ensures { result ≡ mantissa_time unit moves whole.now None }
{
    if has_digits_only(whole) {
        moved_time(unit, moves, whole, &[])
    } else {
        None
    }
}

/// The microseconds of a mantissa with its point at a place, if the point then moves.
fn parted_time(unit: TimeUnit, moves: PointMove, text: &[u8], point: usize) -> Option<u64>
    requires few { moves.right ≤ 99 }
    requires within { point < length text.now }
    ensures { result ≡ mantissa_time unit moves text.now (Some point) }
{
    let whole = &text[..point];
    let fraction = &text[point + 1..];
    if has_digits_only(whole) && has_digits_only(fraction) {
        moved_time(unit, moves, whole, fraction)
    } else {
        None
    }
}

/// The microseconds of a mantissa, if its point then moves. `None` if it is no mantissa, or if these are 10^18 or more.
fn mantissa_time(unit: TimeUnit, separator: Separator, moves: PointMove, text: &[u8]) -> Option<u64>
    requires { moves.right ≤ 99 }
    ensures { result ≡ mantissa_time unit moves text.now (position (is_point separator) text.now) }
{
    match first_point(separator, text) {
        None => whole_time(unit, moves, text),
        Some(point) => parted_time(unit, moves, text, point),
    }
}

/// The time that a mantissa and an exponent state.
fn number_time(unit: TimeUnit, separator: Separator, text: &[u8]) -> Option<u64>
    ensures { result ≡ exponent_by unit separator text.now (position is_exponent_mark text.now) }
{
    let place = exponent_mark(text)?;
    let moves = exponent_in(&text[place + 1..])?;
    mantissa_time(unit, separator, moves, &text[..place])
}

/// The time in microseconds, below 10^18, that a number with an exponent states in a unit, such as `3.60e-04`. Decimals below
/// a microsecond are dropped. `None` if the text is no such number, or if the unit is ticks.
#[tactic(auto, unfolding(crate::specs::LogExponents::exponent_time))]
pub fn exponent_time(unit: TimeUnit, separator: Separator, text: &[u8]) -> Option<u64>
    ensures { result ≡ exponent_time unit separator text.now }
{
    match unit {
        TimeUnit::Ticks(_) => None,
        _ => number_time(unit, separator, text),
    }
}
