//! The options for how a log is read: the unit of times, the order of dates, from when on times are counted, by how much they are
//! moved, and the order of bits.
ghost use Rattle.std.specs.Prelude.{◌≡◌, option_map};
ghost use Rattle.clap.specs.Lexer.{strip_byte};
ghost use Rattle.a429_arguments.specs.Given.{dates_in, drift_in, order_in, origin_in, shift_in, unit_in};

use crate::values::number_up_to;
use a429_logs::{BitOrder, DateOrder, TimeUnit};

/// The last microsecond from which times may be counted: eighteen digits (profile).
const LAST_ORIGIN: u64 = 999_999_999_999_999_999;

/// From when on the times in a log are counted.
#[derive(Clone, Copy, PartialEq, Eq)]
pub enum LogOrigin {
    /// From this time in microseconds, 0 to 10^18 - 1.
    Time(u64),
    /// From the time of the first word.
    First,
}

/// The most by which times may be moved, in microseconds: fourteen digits (profile).
const LAST_SHIFT: u64 = 99_999_999_999_999;

/// By how much the times in a log are moved, in microseconds, 0 to 10^14 - 1.
#[derive(Clone, Copy, PartialEq, Eq)]
pub enum Shift {
    Later(u64),
    Earlier(u64),
}

/// How far clocks may drift apart, in parts in 10^9: six digits (profile).
const LAST_DRIFT: u64 = 999_999;

/// By how much a clock is fast or slow against another, in parts in 10^9, 0 to 10^6 - 1.
#[derive(Clone, Copy, PartialEq, Eq)]
pub enum Drift {
    Fast(u64),
    Slow(u64),
}

/// The unit that a text states. `None` if it is none of the four that there are.
pub fn unit_in(text: &str) -> Option<TimeUnit>
    ensures { result ≡ unit_in text.now }
{
    match text {
        "us" => Some(TimeUnit::Microseconds),
        "ms" => Some(TimeUnit::Milliseconds),
        "s" => Some(TimeUnit::Seconds),
        "ns" => Some(TimeUnit::Nanoseconds),
        _ => None,
    }
}

/// The order of bits that a text states. `None` if it is neither `label` nor `word`.
pub fn order_in(text: &str) -> Option<BitOrder>
    ensures { result ≡ order_in text.now }
{
    match text {
        "label" => Some(BitOrder::LabelReversed),
        "word" => Some(BitOrder::WordReversed),
        _ => None,
    }
}

/// The order of days and months that a text states. `None` if it is neither `dmy` nor `mdy`.
pub fn dates_in(text: &str) -> Option<DateOrder>
    ensures { result ≡ dates_in text.now }
{
    match text {
        "dmy" => Some(DateOrder::DayFirst),
        "mdy" => Some(DateOrder::MonthFirst),
        _ => None,
    }
}

/// From when on times are counted, by the text of that. `None` if it is neither `first` nor such a time.
pub fn origin_in(text: &str) -> Option<LogOrigin>
    ensures { result ≡ origin_in text.now }
{
    match text {
        "first" => Some(LogOrigin::First),
        _ => Some(LogOrigin::Time(number_up_to(text, LAST_ORIGIN)?)),
    }
}

/// The text after a minus. `None` if the text begins with none.
fn after_minus(text: &str) -> Option<&str>
    ensures { option_map (λ digits. digits.now) result ≡ strip_byte 45 text.now }
{
    text.strip_prefix('-')
}

/// By how much times are moved, by the text of that. `None` if it is no number of at most 14 digits, which may follow a
/// minus.
pub fn shift_in(text: &str) -> Option<Shift>
    ensures { result ≡ shift_in text.now }
{
    match after_minus(text) {
        Some(digits) => Some(Shift::Earlier(number_up_to(digits, LAST_SHIFT)?)),
        None => Some(Shift::Later(number_up_to(text, LAST_SHIFT)?)),
    }
}

/// By how much a clock is fast, or slow after a minus, by the text of that. `None` if it is no number of at most six digits,
/// which may follow a minus.
pub fn drift_in(text: &str) -> Option<Drift>
    ensures { result ≡ drift_in text.now }
{
    match after_minus(text) {
        Some(digits) => Some(Drift::Slow(number_up_to(digits, LAST_DRIFT)?)),
        None => Some(Drift::Fast(number_up_to(text, LAST_DRIFT)?)),
    }
}
