//! Dates with the year last, such as `13/02/2024` and `13-Feb-2024`.
ghost use Rattle.std.specs.Prelude.{◌≡◌, ◌≤◌, ◌<◌, IfSome, length, option_map, ◌*◌};
ghost use Rattle.a429_logs.specs.LateDates.{date_at, day_in_month, end_or, is_month, last_end, late_by, late_date, late_date_of, late_time, month_named, numbered, pointed_date};
ghost use Rattle.a429_logs.specs.LogDates.{if_some, or_second, shown_three, three_of};
ghost use Rattle.a429_logs.specs.LogFields.{parts_of};
ghost use Rattle.a429_logs.specs.declared.fields.Separator.TheVariants.{Dash, Slash};
ghost use Rattle.a429_logs.specs.LogTimes.{two_digits};

use crate::cells::is_named;
use crate::fields::{Parts, Separator};
use crate::gregorian::{days_before, is_leap, month_length};
use crate::times::{two_digits, within};
use crate::written::{
    DAY, Date, NumberedDate, ThreeParts, WrittenTime, date_parts, day_time, digits_within,
    is_date_end, three_of, without_zone,
};

/// Whether a text is the name of this month, or the first three letters of it, in any case.
#[tactic(auto, unfolding(crate::specs::LateDates::is_month))]
fn is_month(name: &str, text: &[u8]) -> bool
    requires { 3 ≤ length name.now }
    ensures { result ≡ is_month name.now text.now }
{
    is_named(text, name) || name.as_bytes()[..3].eq_ignore_ascii_case(text)
}

/// The number of the month with this English name, or these first three letters of it, in any case. `None` for any other
/// text.
#[tactic(auto, unfolding(crate::specs::LateDates::month_named))]
fn month_named(text: &[u8]) -> Option<u64>
    ensures { result ≡ month_named text.now }
{
    if is_month("january", text) {
        Some(1)
    } else if is_month("february", text) {
        Some(2)
    } else if is_month("march", text) {
        Some(3)
    } else if is_month("april", text) {
        Some(4)
    } else if is_month("may", text) {
        Some(5)
    } else if is_month("june", text) {
        Some(6)
    } else if is_month("july", text) {
        Some(7)
    } else if is_month("august", text) {
        Some(8)
    } else if is_month("september", text) {
        Some(9)
    } else if is_month("october", text) {
        Some(10)
    } else if is_month("november", text) {
        Some(11)
    } else if is_month("december", text) {
        Some(12)
    } else {
        None
    }
}

/// The beginning of a day, by its year, its month and its number in the month, both from 1. `None` if the year has no such
/// day.
#[tactic(auto, unfolding(crate::specs::LateDates::date_at))]
pub fn date_at(year: u16, month: u64, day: u64) -> Option<Date>
    ensures value { result ≡ date_at year month day }
    ensures few { IfSome result (λ d. d.time ≤ 403 * 86400000000) }
{
    let month = within(1, 12, Some(month))?;
    let length = month_length(is_leap(year), (month - 1) as usize);
    let day = within(1, length, Some(day))?;
    Some(Date {
        year,
        time: DAY * days_before(year, month, day),
    })
}

/// The beginning of the day that a day, this month and a year state.
fn day_in_month(month: Option<u64>, parts: &ThreeParts<'_>) -> Option<Date>
    ensures value { result ≡ day_in_month month (shown_three parts.now) }
    ensures few { IfSome result (λ d. d.time ≤ 403 * 86400000000) }
{
    let month = month?;
    let day = two_digits(99, parts.first)?;
    let year = digits_within(4, 0, 9999, parts.third)? as u16;
    date_at(year, month, day)
}

/// Two numbers, of which one is the day and one the month, and a year.
fn numbered(time: u64, parts: &ThreeParts<'_>) -> Option<NumberedDate>
    ensures { result ≡ numbered time (shown_three parts.now) }
{
    let first = two_digits(99, parts.first)? as u8;
    let second = two_digits(99, parts.second)? as u8;
    let year = digits_within(4, 0, 9999, parts.third)? as u16;
    Some(NumberedDate {
        first,
        second,
        year,
        time,
    })
}

/// A date between dashes or slashes: the month by its name, or two numbers.
fn late_date(time: u64, parts: &ThreeParts<'_>) -> Option<WrittenTime>
    requires { time < 86400000000 }
    ensures { result ≡ late_date time (shown_three parts.now) }
{
    match day_in_month(month_named(parts.second), parts) {
        Some(date) => Some(WrittenTime::OfDate(Date {
            year: date.year,
            time: date.time + time,
        })),
        None => Some(WrittenTime::OfNumbers(numbered(time, parts)?)),
    }
}

/// The month by its name or its number.
fn month_in(text: &[u8]) -> Option<u64>
    ensures { result ≡ or_second (month_named text.now) (two_digits 99 text.now) }
{
    match month_named(text) {
        Some(month) => Some(month),
        None => two_digits(99, text),
    }
}

/// A date between points: the day is first, and the month has its name or its number.
fn pointed_date(time: u64, parts: &ThreeParts<'_>) -> Option<WrittenTime>
    requires { time < 86400000000 }
    ensures { result ≡ pointed_date time (shown_three parts.now) }
{
    let date = day_in_month(month_in(parts.second), parts)?;
    Some(WrittenTime::OfDate(Date {
        year: date.year,
        time: date.time + time,
    }))
}

/// A date between dashes or slashes, if it is one.
fn separated_date(time: u64, text: &[u8]) -> Option<WrittenTime>
    requires { time < 86400000000 }
    ensures { result ≡ if_some (or_second (three_of (parts_of Dash text.now)) (three_of (parts_of Slash text.now)))
        (λ t. late_date time t) }
{
    let parts = date_parts(text)?;
    late_date(time, &parts)
}

/// A date with the year last, at this time of day.
#[tactic(auto, unfolding(crate::specs::LateDates::late_date_of))]
fn late_date_of(time: u64, text: &[u8]) -> Option<WrittenTime>
    requires { time < 86400000000 }
    ensures { result ≡ late_date_of time text.now }
{
    if let Some(date) = separated_date(time, text) {
        return Some(date);
    }
    let parts = three_of(Parts::of(Separator::Point, text))?;
    pointed_date(time, &parts)
}

/// The place of a byte that can be between a date and its time of day. The one before, if it cannot.
fn end_or(byte: u8, place: usize, before: Option<usize>) -> Option<usize>
    ensures { result ≡ end_or byte place before }
{
    if is_date_end(byte) {
        Some(place)
    } else {
        before
    }
}

/// The place of the last byte that can be between a date and its time of day.
fn last_end(text: &[u8]) -> Option<usize>
    ensures place { result ≡ last_end text.now (length text.now) }
    ensures within { IfSome result (λ place. place < length text.now) }
{
    let mut last = None;
    for place in 0..text.len() {
        last = end_or(text[place], place, last);
    }
    last
}

/// A date with the year last and a time of day, with this byte between them.
fn late_by(separator: Separator, text: &[u8], place: usize) -> Option<WrittenTime>
    requires { place < length text.now }
    ensures { result ≡ late_by separator text.now place }
{
    let time = day_time(
        separator,
        Parts::of(Separator::Colon, without_zone(&text[place + 1..])),
    )?;
    late_date_of(time, &text[..place])
}

/// The time that a date with the year last and a time of day state. `None` if the text has not this form.
#[tactic(auto, unfolding(crate::specs::LateDates::late_time))]
pub fn late_time(separator: Separator, text: &[u8]) -> Option<WrittenTime>
    ensures { result ≡ late_time separator text.now }
{
    let place = last_end(text)?;
    late_by(separator, text, place)
}
