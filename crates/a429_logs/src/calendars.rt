//! Times by a calendar: on over midnight and the end of a year.
ghost use Rattle.std.specs.Prelude.{◌≡◌};
ghost use Rattle.a429_logs.specs.Calendars.{begun_again, beginning, counted, date_span, date_start, dated, day_span, day_start, has_units, in_64_bits, moment_of, next_start, on_date, on_date_of, on_day, on_numbers, on_year, row_order, shown_timed, span_length, timed, year_beginning, year_span, year_start};
ghost use Rattle.a429_logs.specs.LogRows.{written_by};

use crate::clocks::sum;
use crate::gregorian::days_between;
use crate::orders::{numbers_date, shown_order};
use crate::rows::{RowFault, RowWord, StatedWord};
use crate::written::{DAY, Date, DateOrder, NumberedDate, WrittenTime};

/// The day or the year of the last word.
#[derive(Clone, Copy)]
pub struct Span {
    /// When it begins: microseconds from the beginning of the first one on.
    pub start: u64,
    /// The time of the last word in it: microseconds from its beginning on.
    pub last: u64,
}

/// The years of the first and of the last word.
#[derive(Clone, Copy)]
pub struct DateSpan {
    pub first: u16,
    pub year: u16,
    /// When the year of the last word begins: microseconds from the beginning of the first one on.
    pub start: u64,
}

/// The form of all times of a log, and how they go on.
#[derive(Clone, Copy)]
pub enum Calendar {
    /// Before the first word.
    Open,
    /// Times in a unit.
    Units,
    /// Times of day.
    Days(Span),
    /// Times of the year.
    Years(Span),
    /// Dates, as long as no row shows whether the day or the month is first.
    Dates(DateSpan),
    /// Dates of which a row showed that the day is first.
    DayDates(DateSpan),
    /// Dates of which a row showed that the month is first.
    MonthDates(DateSpan),
}

/// A time in microseconds, and the calendar after it.
#[derive(Clone, Copy)]
pub struct Moment {
    pub time: u64,
    pub calendar: Calendar,
}

/// A word with its time in microseconds, and the calendar after it.
#[derive(Clone, Copy)]
pub struct TimedWord<'a> {
    pub word: StatedWord<'a>,
    pub calendar: Calendar,
}

/// The moment of a time that is counted from this start. Error: `Time` if it has more than 64 bits.
fn counted(start: u64, time: u64, calendar: Calendar) -> Result<Moment, RowFault>
    ensures { result ≡ counted start time calendar }
{
    match sum(start, time) {
        Some(time) => Ok(Moment { time, calendar }),
        None => Err(RowFault::Time),
    }
}

impl Span {
    /// The first day, or the first year.
    fn beginning() -> Span
        ensures { result ≡ beginning }
    {
        Span { start: 0, last: 0 }
    }

    /// When the day or the year of the next time begins, if this one has this length. A time that is below the last one
    /// by more than `limit` is in the next. `None` if that has more than 64 bits.
    fn next_start(self, limit: u64, length: u64, time: u64) -> Option<u64>
        ensures { result ≡ in_64_bits (next_start limit length self time) }
    {
        if self.last.saturating_sub(time) > limit {
            sum(self.start, length)
        } else {
            Some(self.start)
        }
    }

    /// When the day of the next time begins.
    fn day_start(self, time: u64) -> Option<u64>
        ensures { result ≡ in_64_bits (day_start self time) }
    {
        self.next_start(12 * 3_600_000_000, DAY, time)
    }

    /// The length of the year: 366 days if its last time is on day 366, otherwise 365.
    fn length(self) -> u64
        ensures { result ≡ span_length self }
    {
        if 365 * DAY <= self.last {
            366 * DAY
        } else {
            365 * DAY
        }
    }

    /// When the year of the next time begins.
    fn year_start(self, time: u64) -> Option<u64>
        ensures { result ≡ in_64_bits (year_start self time) }
    {
        self.next_start(180 * DAY, self.length(), time)
    }

    /// The moment of a time of day. Error: `Time` if it has more than 64 bits.
    fn on_day(self, time: u64) -> Result<Moment, RowFault>
        ensures { result ≡ on_day self time }
    {
        match self.day_start(time) {
            Some(start) => counted(start, time, Calendar::Days(Span { start, last: time })),
            None => Err(RowFault::Time),
        }
    }

    /// The moment of a time of the year. Error: `Time` if it has more than 64 bits.
    fn on_year(self, time: u64) -> Result<Moment, RowFault>
        ensures { result ≡ on_year self time }
    {
        match self.year_start(time) {
            Some(start) => counted(start, time, Calendar::Years(Span { start, last: time })),
            None => Err(RowFault::Time),
        }
    }
}

impl DateSpan {
    /// The first year of a log.
    fn beginning(year: u16) -> DateSpan
        ensures { result ≡ year_beginning year }
    {
        DateSpan {
            first: year,
            year,
            start: 0,
        }
    }

    /// The calendar of these years, if a row showed this order of dates.
    fn dated(self, order: Option<DateOrder>) -> Calendar
        ensures { result ≡ dated order self }
    {
        match order {
            None => Calendar::Dates(self),
            Some(DateOrder::DayFirst) => Calendar::DayDates(self),
            Some(DateOrder::MonthFirst) => Calendar::MonthDates(self),
        }
    }

    /// The moment of a date, if this order of dates is known. Errors: `Falls` if its year is before that of the last word, `Time` if the moment has more
    /// than 64 bits.
    fn on_date(self, order: Option<DateOrder>, date: Date) -> Result<Moment, RowFault>
        ensures { result ≡ on_date order self date }
    {
        if date.year < self.year {
            return Err(RowFault::Falls);
        }
        match sum(self.start, DAY * days_between(self.year, date.year)) {
            Some(start) => {
                let year = DateSpan {
                    first: self.first,
                    year: date.year,
                    start,
                };
                counted(start, date.time, year.dated(order))
            }
            None => Err(RowFault::Time),
        }
    }
}

impl Calendar {
    ghost use Rattle.std.specs.Prelude.{true};
    ghost use Rattle.a429_logs.specs.declared.calendars.Calendar.TheVariants.{Units};

    /// Whether the times of the log are in a unit.
    #[inline(always)]
    pub fn is_of_units(&self) -> bool
        ensures { result ≡ true → self.now ≡ Units }
    {
        match self {
            Calendar::Units => true,
            _ => false,
        }
    }

    /// Whether the times of the log can be in a unit.
    fn has_units(self) -> bool
        ensures { result ≡ has_units self }
    {
        match self {
            Calendar::Open | Calendar::Units => true,
            _ => false,
        }
    }

    /// The day of the last word. `None` if the times of the log are of another form.
    fn day_span(self) -> Option<Span>
        ensures { result ≡ day_span self }
    {
        match self {
            Calendar::Open => Some(Span::beginning()),
            Calendar::Days(span) => Some(span),
            _ => None,
        }
    }

    /// The year of the last word. `None` if the times of the log are of another form.
    fn year_span(self) -> Option<Span>
        ensures { result ≡ year_span self }
    {
        match self {
            Calendar::Open => Some(Span::beginning()),
            Calendar::Years(span) => Some(span),
            _ => None,
        }
    }

    /// The years of a log, if the next word has a date of this one. `None` if the times of the log are of another form.
    fn date_span(self, year: u16) -> Option<DateSpan>
        ensures { result ≡ date_span self year }
    {
        match self {
            Calendar::Open => Some(DateSpan::beginning(year)),
            Calendar::Dates(span) | Calendar::DayDates(span) | Calendar::MonthDates(span) => Some(
                span,
            ),
            _ => None,
        }
    }

    /// The order of dates that a row before showed.
    fn row_order(self) -> Option<DateOrder>
        ensures { result ≡ row_order self }
    {
        match self {
            Calendar::DayDates(_) => Some(DateOrder::DayFirst),
            Calendar::MonthDates(_) => Some(DateOrder::MonthFirst),
            _ => None,
        }
    }

    /// The moment of a date that shows this order. Errors: `Time` if the times of the log are of another form, or if the
    /// moment has more than 64 bits; `Falls` if its year is before the last one.
    fn on_date_of(self, shown: Option<DateOrder>, date: Date) -> Result<Moment, RowFault>
        ensures { result ≡ on_date_of self shown date }
    {
        match self.date_span(date.year) {
            Some(span) => span.on_date(self.row_order().or(shown), date),
            None => Err(RowFault::Time),
        }
    }

    /// The moment of a date of two numbers, with the order that is given for dates. Errors: those of `numbers_date`, and
    /// those of `on_date_of`.
    fn on_numbers(self, given: Option<DateOrder>, numbers: NumberedDate) -> Result<Moment, RowFault>
        ensures { result ≡ on_numbers given self numbers }
    {
        match numbers_date(given.or(self.row_order()), numbers) {
            Ok(date) => self.on_date_of(shown_order(numbers), date),
            Err(why) => Err(why),
        }
    }

    /// The moment of a time, with the order that is given for dates. Errors: `Time` if it has not the form of the first
    /// time of the log, or if the moment has more than 64 bits; `Falls` if it is a date of a year before the last one;
    /// `DateOrder` if it is a date that has two orders, and none is known.
    fn moment(self, given: Option<DateOrder>, time: WrittenTime) -> Result<Moment, RowFault>
        ensures { result ≡ moment_of given self time }
    {
        match time {
            WrittenTime::Micros(time) => {
                if self.has_units() {
                    Ok(Moment {
                        time,
                        calendar: Calendar::Units,
                    })
                } else {
                    Err(RowFault::Time)
                }
            }
            WrittenTime::OfDay(time) => {
                match self.day_span() {
                    Some(span) => span.on_day(time),
                    None => Err(RowFault::Time),
                }
            }
            WrittenTime::OfYear(time) => {
                match self.year_span() {
                    Some(span) => span.on_year(time),
                    None => Err(RowFault::Time),
                }
            }
            WrittenTime::OfDate(date) => {
                match self.date_span(date.year) {
                    Some(span) => span.on_date(self.row_order(), date),
                    None => Err(RowFault::Time),
                }
            }
            WrittenTime::OfNumbers(numbers) => self.on_numbers(given, numbers),
        }
    }

    /// The word of a row, with its time in microseconds. Errors: as those of `moment`.
    pub fn timed<'a>(
        self,
        given: Option<DateOrder>,
        row: RowWord<'a>,
    ) -> Result<TimedWord<'a>, RowFault>
        ensures { shown_timed result ≡ timed given self (written_by row.entry) }
    {
        match self.moment(given, row.time) {
            Ok(moment) => {
                let word = StatedWord {
                    time: moment.time,
                    name: row.name,
                    raw: row.raw,
                };
                Ok(TimedWord {
                    word,
                    calendar: moment.calendar,
                })
            }
            Err(why) => Err(why),
        }
    }

    /// This calendar at its beginning.
    pub fn begun_again(self) -> Calendar
        ensures { result ≡ begun_again self }
    {
        match self {
            Calendar::Open => Calendar::Open,
            Calendar::Units => Calendar::Units,
            Calendar::Days(_) => Calendar::Days(Span::beginning()),
            Calendar::Years(_) => Calendar::Years(Span::beginning()),
            Calendar::Dates(span) => Calendar::Dates(DateSpan::beginning(span.first)),
            Calendar::DayDates(span) => Calendar::DayDates(DateSpan::beginning(span.first)),
            Calendar::MonthDates(span) => Calendar::MonthDates(DateSpan::beginning(span.first)),
        }
    }
}
