//! The Gregorian calendar (ISO 8601).
ghost use Rattle.std.specs.Prelude.{◌≡◌, ◌≤◌, ◌<◌, ◌-◌, ◌*◌};
ghost use Rattle.a429_logs.specs.GregorianCalendar.{days_before, days_of_months, days_of_years, is_leap, month_length, year_length};

/// The days of the months of a year that is no leap year, January first.
const MONTHS: [u64; 12] = [31, 28, 31, 30, 31, 30, 31, 31, 30, 31, 30, 31];

/// The days of the months of a leap year.
const LEAP_MONTHS: [u64; 12] = [31, 29, 31, 30, 31, 30, 31, 31, 30, 31, 30, 31];

/// Whether a year has a 29th of February.
pub fn is_leap(year: u16) -> bool
    ensures { result ≡ is_leap year }
{
    year % 4 == 0 && (year % 100 != 0 || year % 400 == 0)
}

/// The days of the month that comes after this number of months.
#[tactic(auto, using(crate::proofs::CalendarDays::month_short))]
pub fn month_length(leap: bool, passed: usize) -> u64
    requires { passed < 12 }
    ensures value { result ≡ month_length leap passed }
    ensures short { result ≤ 31 }
{
    if leap {
        LEAP_MONTHS[passed]
    } else {
        MONTHS[passed]
    }
}

/// The days of this number of months from January on.
fn days_of_months(leap: bool, months: usize) -> u64
    requires { months ≤ 12 }
    ensures value { result ≡ days_of_months leap months }
    ensures few { result ≤ 31 * months }
{
    let mut days = 0;
    for passed in 0..months {
        days += month_length(leap, passed);
    }
    days
}

/// The days of a year before a day, by its month, from 1 to 12, and its number in the month, from 1 to 31.
pub fn days_before(year: u16, month: u64, day: u64) -> u64
    requires month { month ≤ 12 }
    requires day { day ≤ 31 }
    ensures value { result ≡ days_before year month day }
    ensures few { result ≤ 403 }
{
    let months = month.saturating_sub(1) as usize;
    days_of_months(is_leap(year), months) + day.saturating_sub(1)
}

/// The days of a year.
fn year_length(year: u16) -> u64
    ensures value { result ≡ year_length year }
    ensures few { result ≤ 366 }
{
    if is_leap(year) { 366 } else { 365 }
}

/// The days from the beginning of one year to the beginning of another.
pub fn days_between(first: u16, last: u16) -> u64
    requires { first ≤ last }
    ensures value { result ≡ days_of_years first (last - first) }
    ensures few { result ≤ 366 * 65535 }
{
    let mut days = 0;
    for passed in 0..last - first {
        days += year_length(first + passed);
    }
    days
}
