//! Periods of a power of two of slots, and the greatest one that an interval allows.
ghost use Rattle.std.specs.Prelude.{◌≡◌, ◌≤◌, ◌^◌, ◌*◌, ◌↔◌, IsTrue, MatchOption};
ghost use Rattle.a429_grid.specs.Grid.{IsWithin, IsGridPeriod, HasNoGridPeriod, IsLeastSpacing, least_spacing};

use std::marker::Model;

/// How long a slot is at a rate of 1 bit/s, in microseconds: 36 bit times, which are a gap of four and the 32 bits of a
/// word (ARINC 429 Part 1 for both; the slot is the profile's).
pub const SLOT_TIME: u64 = 36_000_000;

/// A period on the slot grid: a power of two of slots, 1 to 8192 (profile). Contracts see its
/// exponent `k`; it has `2^k` slots.
#[derive(Clone, Copy, PartialEq, Eq)]
pub struct Period {
    exponent: u32,
}

impl Model for Period {
    ghost use Rattle.std.specs.Prelude.{ℕ, ◌≤◌};

    ghost Value = { ℕ };

    ghost view = { λ p. p.exponent };

    ghost invariant = { λ p. p.exponent ≤ 13 };

    ghost inverse = { λ n. record { exponent = n } };
}

impl Period {
    /// The period of `2^digits` slots.
    pub fn of_digits(digits: u32) -> Period
        requires { digits ≤ 13 }
        ensures { result ≡ digits }
    {
        Period { exponent: digits }
    }

    /// How many slots the period has.
    pub fn slots(self) -> u32
        ensures value { result ≡ 2 ^ self }
        ensures few { result ≤ 8192 }
        ensures some { 1 ≤ result }
    {
        1 << self.exponent
    }

    /// The binary logarithm of the period: 2 to this power is its number of slots.
    pub fn digits(self) -> u32
        ensures value { result ≡ self }
        ensures few { result ≤ 13 }
    {
        self.exponent
    }
}

/// Whether a word that is sent once a period keeps to its interval, `min_us` to `max_us` microseconds, at this bit
/// rate.
pub fn fits(period: Period, min_us: u32, max_us: u32, rate: u32) -> bool
    ensures { IsTrue result ↔ IsWithin min_us max_us rate (2 ^ period) }
{
    let lasting = SLOT_TIME * u64::from(period.slots());
    let rate = u64::from(rate);
    u64::from(min_us) * rate <= lasting && lasting <= u64::from(max_us) * rate
}

/// The grid period of an interval: the greatest period that keeps to it, at this bit rate in bit/s; `None` if no period
/// does.
pub fn grid_period(min_us: u32, max_us: u32, rate: u32) -> Option<Period>
    ensures { MatchOption result (HasNoGridPeriod min_us max_us rate) (λ p. IsGridPeriod min_us max_us rate (2 ^ p)) }
{
    for exponent in (0..14).rev() {
        let period = Period { exponent };
        if fits(period, min_us, max_us, rate) {
            return Some(period);
        }
    }
    None
}

/// The spacing: the smallest number of slots that last at least `min_us` microseconds at this bit rate in bit/s. Words
/// at least this number of slots apart, start to start, keep their minimum interval. No grid period of the interval is
/// less.
pub fn spacing(min_us: u32, rate: u32) -> u32
    requires interval { (1 ≤ min_us) × (min_us ≤ 30000000) }
    requires rate { (1 ≤ rate) × (rate ≤ 100000) }
    ensures least { IsLeastSpacing min_us rate result }
    ensures value { result ≡ least_spacing min_us rate }
    ensures some { 1 ≤ result }
{
    ((u64::from(min_us) * u64::from(rate) + (SLOT_TIME - 1)) / SLOT_TIME) as u32
}
