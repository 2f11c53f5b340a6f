//! An output as it is sorted.
ghost use Rattle.std.specs.Prelude.{◌≡◌, ◌-◌, ◌≤◌, ◌^◌};

use a429_grid::Period;

/// Entries are in layout order: by period, label, SDI with any first, and place in the table.
#[derive(Clone, Copy, PartialEq, Eq, PartialOrd, Ord)]
pub struct Entry {
    pub exponent: u32,
    pub label: u8,
    pub sdi: Option<u8>,
    pub input: usize,
}

impl Entry {
    /// The number of slots that the output has in a frame, if no period is longer than the frame.
    pub fn demand(&self, frame: Period) -> u32
        requires { self.now.exponent ≤ frame }
        ensures value { result ≡ 2 ^ (frame - self.now.exponent) }
        ensures some { 1 ≤ result }
        ensures few { result ≤ 8192 }
    {
        Period::of_digits(frame.digits() - self.exponent).slots()
    }
}
