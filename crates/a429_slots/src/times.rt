//! How long slots last.
ghost use Rattle.std.specs.Prelude.{◌≡◌, ◌≤◌, ◌^◌};
ghost use Rattle.a429_slots.specs.Times.{latency_us, slots_us};

use a429_grid::{Period, SLOT_TIME};

/// How long a number of slots is at a bit rate in bit/s: in microseconds, rounded up.
pub fn slots_us(rate: u32, slots: u32) -> u64
    requires { 1 ≤ rate }
    ensures { result ≡ slots_us rate slots }
{
    (SLOT_TIME * u64::from(slots)).div_ceil(u64::from(rate))
}

/// The latency in microseconds, rounded up: the longest time, within one plan, from the acceptance of a word until it, or a
/// later word of its source, was sent completely. It is one period of the output and one slot, at the group's bit rate.
pub fn latency_us(rate: u32, period: Period) -> u64
    requires { 1 ≤ rate }
    ensures { result ≡ latency_us rate (2 ^ period) }
{
    slots_us(rate, period.slots() + 1)
}
