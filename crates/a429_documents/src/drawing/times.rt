//! Times in an image, in milliseconds.
ghost use Rattle.std.specs.Prelude.{◌≤◌};

use a429_slots::slots_us;
use a429_text::Text;

/// Writes how long a number of slots is at a bit rate in bit/s: rounded up to microseconds, in milliseconds with three
/// digits after the point.
pub(crate) fn put_lasting(text: &mut Text, rate: u32, slots: u32)
    requires { 1 ≤ rate }
{
    let us = slots_us(rate, slots);
    let digits = [us / 1000, us / 100 % 10, us / 10 % 10, us % 10];
    text.fill(&["", ".", "", "", " ms"], &digits);
}
