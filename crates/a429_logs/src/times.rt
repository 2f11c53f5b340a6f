//! The time of a word in a log.
ghost use Rattle.std.specs.Prelude.{◌≡◌, ◌≤◌, ◌<◌, ◌+◌, ◌*◌, ◌^◌, [], IfSome, get_or, length, position, true};
ghost use Rattle.std.specs.List.{list_all};
ghost use Rattle.std.specs.Char.{is_ascii_digit};
ghost use Rattle.std.specs.Str.Parse.{digits_value};
ghost use Rattle.a429_logs.specs.LogTimes.{begins_with_digit, can_be_time, decimal_digits, decimal_time, decimals, has_fractions, in_micros, is_fraction, is_point, is_whole, micros, parted_time, time_of, two_digits, whole_time, within};

use crate::fields::Separator;
use crate::ticks::{tick_count, tick_time};
use a429_word::{are_digits, digits_value};

/// The unit of the times in a log.
#[derive(Clone, Copy, PartialEq, Eq)]
pub enum TimeUnit {
    /// 1000 are a microsecond; what is left is dropped.
    Nanoseconds,
    Microseconds,
    Milliseconds,
    Seconds,
    /// A time is a count in hexadecimal digits. Each count lasts this number of nanoseconds.
    Ticks(u32),
}

impl TimeUnit {
    /// How many decimals of this unit are microseconds.
    pub fn decimals(self) -> usize
        ensures value { result ≡ decimals self }
        ensures few { result ≤ 6 }
    {
        match self {
            TimeUnit::Milliseconds => 3,
            TimeUnit::Seconds => 6,
            _ => 0,
        }
    }

    /// Whether a time may have decimals of this unit.
    fn has_fractions(self) -> bool
        ensures { result ≡ has_fractions self }
    {
        match self {
            TimeUnit::Microseconds | TimeUnit::Ticks(_) => false,
            _ => true,
        }
    }

    /// The microseconds of a number of the last digits of this unit that count.
    fn in_micros(self, number: u64) -> u64
        ensures { result ≡ in_micros self number }
    {
        match self {
            TimeUnit::Nanoseconds => number / 1000,
            _ => number,
        }
    }
}

/// Whether a byte separates whole units from decimals.
fn is_point(separator: Separator, byte: u8) -> bool
    ensures { result ≡ is_point separator byte }
{
    match separator {
        Separator::Semicolon => byte == b'.' || byte == b',',
        _ => byte == b'.',
    }
}

/// The place of the first such byte.
pub fn first_point(separator: Separator, text: &[u8]) -> Option<usize>
    ensures { result ≡ position (is_point separator) text.now }
{
    text.iter().position(|byte| is_point(separator, *byte))
}

/// Whether digits are whole units of a time.
fn is_whole(unit: TimeUnit, whole: &[u8]) -> bool
    ensures { result ≡ is_whole unit whole.now }
{
    !whole.is_empty()
        && whole.len() <= 18
        && whole.len() + unit.decimals() <= 18
        && are_digits(whole)
}

/// Whether digits are decimals of a unit.
fn is_fraction(unit: TimeUnit, fraction: &[u8]) -> bool
    ensures { result ≡ is_fraction unit fraction.now }
{
    unit.has_fractions() && !fraction.is_empty() && are_digits(fraction)
}

/// A digit of a fraction; one that is not there is 0.
pub fn digit_at(fraction: &[u8], place: usize) -> u8
    ensures { result ≡ get_or fraction.now place 48 }
{
    match fraction.get(place) {
        Some(digit) => *digit,
        None => b'0',
    }
}

/// The number that one to eighteen decimal digits state. `None` for any other text.
pub fn decimal_digits(text: &[u8]) -> Option<u64>
    ensures { result ≡ decimal_digits text.now }
{
    if text.is_empty() || text.len() > 18 {
        return None;
    }
    let mut value = 0;
    for digit in text {
        if !digit.is_ascii_digit() {
            return None;
        }
        value = value * 10 + u64::from(*digit - b'0');
    }
    Some(value)
}

/// A number, if it is from the least to the most.
pub fn within(least: u64, most: u64, number: Option<u64>) -> Option<u64>
    ensures value { result ≡ within least most number }
    ensures low { IfSome result (λ n. least ≤ n) }
    ensures high { IfSome result (λ n. n ≤ most) }
{
    match number {
        Some(number) if least <= number && number <= most => Some(number),
        _ => None,
    }
}

/// The number that one digit or two state, up to the most. `None` for any other text.
pub fn two_digits(most: u64, text: &[u8]) -> Option<u64>
    ensures value { result ≡ two_digits most text.now }
    ensures high { IfSome result (λ n. n ≤ most) }
{
    if text.len() <= 2 {
        within(0, most, decimal_digits(text))
    } else {
        None
    }
}

/// The microseconds that whole units and the decimals below them state.
#[tactic(auto, using(crate::proofs::MicrosDigits::whole_digits, crate::proofs::MicrosDigits::whole_fits))]
fn micros(unit: TimeUnit, whole: &[u8], fraction: &[u8]) -> u64
    requires whole { is_whole unit whole.now ≡ true }
    requires fraction { list_all is_ascii_digit fraction.now ≡ true }
    ensures { result ≡ micros unit whole.now fraction.now }
{
    let mut micros = digits_value(whole);
    for place in 0..unit.decimals() {
        micros = micros * 10 + u64::from(digit_at(fraction, place) - b'0');
    }
    unit.in_micros(micros)
}

/// The time that whole units state.
fn whole_time(unit: TimeUnit, whole: &[u8]) -> Option<u64>
    ensures { result ≡ whole_time unit whole.now }
{
    if is_whole(unit, whole) {
        Some(micros(unit, whole, &[]))
    } else {
        None
    }
}

/// The time that whole units and decimals state.
fn parted_time(unit: TimeUnit, whole: &[u8], fraction: &[u8]) -> Option<u64>
    ensures { result ≡ parted_time unit whole.now fraction.now }
{
    if is_whole(unit, whole) && is_fraction(unit, fraction) {
        Some(micros(unit, whole, fraction))
    } else {
        None
    }
}

/// The time in microseconds, below 10^18, that a decimal number of a unit states. Decimals below a microsecond are
/// dropped. `None` if the text is no such number.
#[tactic(auto, unfolding(crate::specs::LogTimes::decimal_time))]
pub fn decimal_time(unit: TimeUnit, separator: Separator, text: &[u8]) -> Option<u64>
    ensures { result ≡ decimal_time unit separator text.now }
{
    match first_point(separator, text) {
        None => whole_time(unit, text),
        Some(point) => parted_time(unit, &text[..point], &text[point + 1..]),
    }
}

/// The time in microseconds, below 10^18, that a text states in a unit. `None` if the text is no time.
pub fn time_of(unit: TimeUnit, separator: Separator, text: &[u8]) -> Option<u64>
    ensures { result ≡ time_of unit separator text.now }
{
    match unit {
        TimeUnit::Ticks(nanoseconds) => tick_time(nanoseconds, text),
        _ => decimal_time(unit, separator, text),
    }
}

/// Whether a text begins with a digit.
fn begins_with_digit(text: &[u8]) -> bool
    ensures { result ≡ begins_with_digit text.now }
{
    match text {
        [first, ..] => first.is_ascii_digit(),
        [] => false,
    }
}

/// Whether a field can be a time: it begins with a digit, or it is a count of ticks and that is the unit.
pub fn can_be_time(unit: TimeUnit, field: &[u8]) -> bool
    ensures { result ≡ can_be_time unit field.now }
{
    match unit {
        TimeUnit::Ticks(_) => begins_with_digit(field) || tick_count(field).is_some(),
        _ => begins_with_digit(field),
    }
}
