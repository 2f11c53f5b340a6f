//! Periods of the slot grid.

use crate::support::row_holds;
use a429_grid::{Period, fits, grid_period, reverse, spacing};
use std::process::Abort;

/// Minimum and maximum intervals in microseconds, bit rates, and the slots of the grid period.
static INTERVALS: [(u32, u32, u32, Option<u32>); 12] = [
    (46080, 46080, 100000, Some(128)),
    (46081, 90000, 100000, None),
    (1, 359, 100000, None),
    (1, 360, 100000, Some(1)),
    (361, 719, 100000, None),
    (361, 720, 100000, Some(2)),
    (2949120, 6000000, 100000, Some(8192)),
    (2949121, 6000000, 100000, None),
    (24576000, 30000000, 12000, Some(8192)),
    (24576001, 30000000, 12000, None),
    (1, 9931, 14500, Some(2)),
    (1, 9932, 14500, Some(4)),
];

/// How many slots the grid period of an interval has.
fn slots_within(min_us: u32, max_us: u32, rate: u32) -> Option<u32> {
    let period = grid_period(min_us, max_us, rate)?;
    Some(period.slots())
}

/// Each interval has its grid period.
fn have_periods(rt: &impl Abort, intervals: &[(u32, u32, u32, Option<u32>)]) {
    for (min_us, max_us, rate, slots) in intervals {
        row_holds(rt, *min_us, slots_within(*min_us, *max_us, *rate) == *slots);
    }
}

#[test]
fn intervals_admit_their_greatest_period(rt: HostRuntime) {
    have_periods(&rt, &INTERVALS);
}

#[test]
fn a_period_fits_within_its_interval(rt: HostRuntime) {
    let two = Period::of_digits(1);
    assert!(rt; fits(two, 720, 720, 100000));
    assert!(rt; !fits(two, 721, 800, 100000) && !fits(two, 1, 719, 100000));
}

#[test]
fn spacings_last_at_least_their_interval(rt: HostRuntime) {
    // at 100000 bit/s a slot is 360 µs, at 12500 bit/s 2880 µs
    assert!(rt; spacing(360, 100000) == 1 && spacing(361, 100000) == 2);
    assert!(rt; spacing(2880, 12500) == 1 && spacing(2881, 12500) == 2);
}

#[test]
fn digits_are_reversed(rt: HostRuntime) {
    assert!(rt; reverse(0, 0) == 0 && reverse(1, 2) == 2);
    assert!(rt; reverse(3, 4) == 12 && reverse(1, 13) == 4096);
}
