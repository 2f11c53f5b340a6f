//! Whether the day or the month is first in dates.
ghost use Rattle.std.specs.Prelude.{◌≡◌};
ghost use Rattle.a429_logs.specs.Calendars.{agreed, date_by, day_by, numbers_date, order_of, shown_order};

use crate::clocks::sum;
use crate::dates::date_at;
use crate::rows::RowFault;
use crate::written::{Date, DateOrder, NumberedDate};

/// The order of dates that a date shows: a number above 12 is the day.
pub fn shown_order(numbers: NumberedDate) -> Option<DateOrder>
    ensures { result ≡ shown_order numbers }
{
    if numbers.first > 12 {
        Some(DateOrder::DayFirst)
    } else if numbers.second > 12 {
        Some(DateOrder::MonthFirst)
    } else {
        None
    }
}

/// The order of a date that shows this one, if this one is known. Errors: `Time` if the two differ, `DateOrder` if there is
/// none.
fn agreed(shown: Option<DateOrder>, known: Option<DateOrder>) -> Result<DateOrder, RowFault>
    ensures { result ≡ agreed shown known }
{
    match (shown, known) {
        (Some(DateOrder::DayFirst), Some(DateOrder::MonthFirst)) => Err(RowFault::Time),
        (Some(DateOrder::MonthFirst), Some(DateOrder::DayFirst)) => Err(RowFault::Time),
        (Some(order), _) => Ok(order),
        (None, Some(order)) => Ok(order),
        (None, None) => Err(RowFault::DateOrder),
    }
}

/// The order of a date, if this one is known. Errors: as those of `agreed`.
fn order_of(known: Option<DateOrder>, numbers: NumberedDate) -> Result<DateOrder, RowFault>
    ensures { result ≡ order_of known numbers }
{
    if numbers.first == numbers.second {
        Ok(DateOrder::DayFirst)
    } else {
        agreed(shown_order(numbers), known)
    }
}

/// The beginning of the day of two numbers in this order. `None` if the year has no such day.
fn day_by(numbers: NumberedDate, order: DateOrder) -> Option<Date>
    ensures { result ≡ day_by numbers order }
{
    let first = u64::from(numbers.first);
    let second = u64::from(numbers.second);
    match order {
        DateOrder::DayFirst => date_at(numbers.year, second, first),
        DateOrder::MonthFirst => date_at(numbers.year, first, second),
    }
}

/// The date of two numbers in this order. `None` if the year has no such day.
fn date_by(numbers: NumberedDate, order: DateOrder) -> Option<Date>
    ensures { result ≡ date_by numbers order }
{
    let day = day_by(numbers, order)?;
    let time = sum(day.time, numbers.time)?;
    Some(Date {
        year: day.year,
        time,
    })
}

/// The date of two numbers, if this order is known. Errors: those of `order_of`, and `Time` if the year has no such day.
#[cold]
#[inline(never)]
pub fn numbers_date(known: Option<DateOrder>, numbers: NumberedDate) -> Result<Date, RowFault>
    ensures { result ≡ numbers_date known numbers }
{
    let order = order_of(known, numbers)?;
    match date_by(numbers, order) {
        Some(date) => Ok(date),
        None => Err(RowFault::Time),
    }
}
