//! Times of day, times of the year and dates, as a log writes them.
ghost use Rattle.std.specs.Prelude.{◌≡◌, ◌≤◌, ◌<◌, ◌*◌, IfSome, option_map, position};
ghost use Rattle.a429_logs.specs.LogDates.{or_second, calendar_time, clock_time, date_of, dated_time, day_of, day_time, digits_within, hour_of, is_date_end, seconds_of, shown_three, three_of, time_of_day, without_zone, year_time};
ghost use Rattle.a429_logs.specs.LogFields.{parts_left, parts_of};
ghost use Rattle.a429_logs.specs.declared.fields.Separator.TheVariants.{Dash, Slash};

use crate::fields::{Parts, Separator};
use crate::gregorian::{days_before, is_leap, month_length};
use crate::times::{TimeUnit, decimal_digits, decimal_time, first_point, two_digits, within};

/// The microseconds of a minute.
const MINUTE: u64 = 60_000_000;

/// The microseconds of a day.
pub const DAY: u64 = 86_400_000_000;

/// A year, and microseconds from its beginning on.
#[derive(Clone, Copy)]
pub struct Date {
    pub year: u16,
    pub time: u64,
}

/// Which of the two numbers of a date comes first.
#[derive(Clone, Copy, PartialEq, Eq)]
pub enum DateOrder {
    DayFirst,
    MonthFirst,
}

/// Two numbers, of which one is the day and one the month, a year, and a time of day: microseconds from midnight.
#[derive(Clone, Copy)]
pub struct NumberedDate {
    pub first: u8,
    pub second: u8,
    pub year: u16,
    pub time: u64,
}

/// A time as a row writes it.
#[derive(Clone, Copy)]
pub enum WrittenTime {
    /// In the unit of the log; in microseconds.
    Micros(u64),
    /// A time of day: microseconds from midnight.
    OfDay(u64),
    /// A time of the year: microseconds from its beginning.
    OfYear(u64),
    OfDate(Date),
    OfNumbers(NumberedDate),
}

/// Three parts of a text.
#[derive(Clone, Copy)]
pub struct ThreeParts<'a> {
    pub first: &'a [u8],
    pub second: &'a [u8],
    pub third: &'a [u8],
}

/// The parts that are left. `None` if these are not three.
pub fn three_of(mut parts: Parts<'_>) -> Option<ThreeParts<'_>>
    ensures { option_map shown_three result ≡ three_of (parts_left parts.entry) }
{
    let first = parts.next()?;
    let second = parts.next()?;
    let third = parts.next()?;
    if parts.next().is_some() {
        return None;
    }
    Some(ThreeParts {
        first,
        second,
        third,
    })
}

/// A number of this many decimal digits, from the least to the most.
pub fn digits_within(count: usize, least: u64, most: u64, text: &[u8]) -> Option<u64>
    ensures value { result ≡ digits_within count least most text.now }
    ensures low { IfSome result (λ n. least ≤ n) }
    ensures high { IfSome result (λ n. n ≤ most) }
{
    if text.len() == count {
        within(least, most, decimal_digits(text))
    } else {
        None
    }
}

/// An hour of one digit or two, 0 to 23.
fn hour_of(text: &[u8]) -> Option<u64>
    ensures value { result ≡ hour_of text.now }
    ensures few { IfSome result (λ n. n ≤ 23) }
{
    two_digits(23, text)
}

/// The microseconds of seconds of two digits, 00 to 59, and their decimals.
fn seconds_of(separator: Separator, text: &[u8]) -> Option<u64>
    ensures value { result ≡ seconds_of separator text.now }
    ensures few { IfSome result (λ n. n ≤ 59999999) }
{
    if first_point(separator, text).unwrap_or(text.len()) == 2 {
        within(
            0,
            59_999_999,
            decimal_time(TimeUnit::Seconds, separator, text),
        )
    } else {
        None
    }
}

/// The microseconds of hours, minutes and seconds.
fn time_of_day(separator: Separator, parts: &ThreeParts<'_>) -> Option<u64>
    ensures value { result ≡ time_of_day separator (shown_three parts.now) }
    ensures few { IfSome result (λ n. n < 86400000000) }
{
    let hour = hour_of(parts.first)?;
    let minute = digits_within(2, 0, 59, parts.second)?;
    let seconds = seconds_of(separator, parts.third)?;
    Some(MINUTE * (60 * hour + minute) + seconds)
}

/// The microseconds from midnight that `HH:MM:SS` states, with decimals or without.
#[tactic(auto, unfolding(crate::specs::LogDates::day_time))]
pub fn day_time(separator: Separator, parts: Parts<'_>) -> Option<u64>
    ensures value { result ≡ day_time separator (parts_left parts.entry) }
    ensures few { IfSome result (λ n. n < 86400000000) }
{
    let three = three_of(parts)?;
    time_of_day(separator, &three)
}

/// The microseconds from the beginning of the year that `DDD:HH:MM:SS` states, from 001:00:00:00 on.
fn year_time(separator: Separator, mut parts: Parts<'_>) -> Option<u64>
    ensures { result ≡ year_time separator (parts_left parts.entry) }
{
    let day = parts.next()?;
    let number = digits_within(3, 1, 366, day)?;
    let time = day_time(separator, parts)?;
    Some(DAY * (number - 1) + time)
}

/// A time of day, or a time of the year.
#[tactic(auto, unfolding(crate::specs::LogDates::clock_time))]
fn clock_time(separator: Separator, text: &[u8]) -> Option<WrittenTime>
    ensures { result ≡ clock_time separator text.now }
{
    let parts = Parts::of(Separator::Colon, text);
    if let Some(time) = day_time(separator, parts) {
        return Some(WrittenTime::OfDay(time));
    }
    match year_time(separator, parts) {
        Some(time) => Some(WrittenTime::OfYear(time)),
        None => None,
    }
}

/// The beginning of a day, by its year, month and number.
fn day_of(parts: &ThreeParts<'_>) -> Option<Date>
    ensures value { result ≡ day_of (shown_three parts.now) }
    ensures few { IfSome result (λ d. d.time ≤ 403 * 86400000000) }
{
    let year = digits_within(4, 0, 9999, parts.first)? as u16;
    let month = digits_within(2, 1, 12, parts.second)?;
    let length = month_length(is_leap(year), (month - 1) as usize);
    let day = digits_within(2, 1, length, parts.third)?;
    Some(Date {
        year,
        time: DAY * days_before(year, month, day),
    })
}

/// The year, the month and the day of a date.
pub fn date_parts(text: &[u8]) -> Option<ThreeParts<'_>>
    ensures { option_map shown_three result ≡ or_second (three_of (parts_of Dash text.now)) (three_of (parts_of Slash text.now)) }
{
    match three_of(Parts::of(Separator::Dash, text)) {
        Some(three) => Some(three),
        None => three_of(Parts::of(Separator::Slash, text)),
    }
}

/// The beginning of the day that `YYYY-MM-DD` or `YYYY/MM/DD` states.
#[tactic(auto, unfolding(crate::specs::LogDates::date_of))]
fn date_of(text: &[u8]) -> Option<Date>
    ensures value { result ≡ date_of text.now }
    ensures few { IfSome result (λ d. d.time ≤ 403 * 86400000000) }
{
    let three = date_parts(text)?;
    day_of(&three)
}

/// A text without the `Z` at its end, if it has one.
pub fn without_zone(text: &[u8]) -> &[u8]
    ensures { result.now ≡ without_zone text.now }
{
    let end = text.len().saturating_sub(1);
    match text.get(end) {
        Some(b'Z') => &text[..end],
        _ => text,
    }
}

/// The time of a day: a date, and a time of day.
#[tactic(auto, unfolding(crate::specs::LogDates::dated_time))]
fn dated_time(separator: Separator, date: &[u8], time: &[u8]) -> Option<WrittenTime>
    ensures { result ≡ dated_time separator date.now time.now }
{
    let date = date_of(date)?;
    let time = day_time(separator, Parts::of(Separator::Colon, without_zone(time)))?;
    Some(WrittenTime::OfDate(Date {
        year: date.year,
        time: date.time + time,
    }))
}

/// Whether a byte comes between a date and its time of day.
pub fn is_date_end(byte: u8) -> bool
    ensures { result ≡ is_date_end byte }
{
    byte == b'T' || byte == b' '
}

/// The place of the first such byte.
fn date_end(text: &[u8]) -> Option<usize>
    ensures { result ≡ position is_date_end text.now }
{
    text.iter().position(|byte| is_date_end(*byte))
}

/// A time of day, a time of the year, or a date with a time of day. `None` if the text has none of these forms.
#[tactic(auto, unfolding(crate::specs::LogDates::calendar_time))]
pub fn calendar_time(separator: Separator, text: &[u8]) -> Option<WrittenTime>
    ensures { result ≡ calendar_time separator text.now }
{
    match date_end(text) {
        None => clock_time(separator, text),
        Some(place) => dated_time(separator, &text[..place], &text[place + 1..]),
    }
}
