//! What is known of an output, and the words of logs.
ghost use Rattle.std.specs.Prelude.{◌≡◌, ◌≤◌};
ghost use Rattle.a429_judge.specs.Tolerance.{default_tolerance};

/// A word of a log: its time in microseconds, and its 32 bits.
#[derive(Clone, Copy)]
pub struct Mark {
    pub time: u64,
    pub raw: u32,
}

/// What is known of an output. Times are in microseconds.
#[derive(Clone, Copy)]
pub struct Facts {
    /// The bit rate of its group, in bit/s.
    pub rate: u32,
    /// Its period in slots.
    pub period: u32,
    /// The minimum interval from one word to the next.
    pub least: u64,
    /// The maximum.
    pub greatest: u64,
    /// One accepted word is sent at most this number of times; `None`: no limit.
    pub hold: Option<u32>,
    /// How far times in the logs may be from the times that are right.
    pub tolerance: u64,
}

/// What the two logs show, as times in microseconds. The log of what was sent has all words of the group from the first one
/// to the end of the log that ends last.
#[derive(Clone, Copy)]
pub struct Span {
    /// The first word of the group that was sent. If there is none, the first word that was sent, or 0.
    pub first: u64,
    /// The last word that came in, from any receiver.
    pub heard: u64,
    /// The last word of both logs.
    pub last: u64,
}

/// The tolerance if none is given, in microseconds, by the bit rate of a group in bit/s and its shortest period in slots:
/// two slots, rounded up, or half that period, rounded down, if it is less.
pub fn default_tolerance(rate: u32, shortest: u32) -> u64
    requires { 1 ≤ rate }
    ensures { result ≡ default_tolerance rate shortest }
{
    let rate = u64::from(rate);
    let half_period = 18_000_000 * u64::from(shortest) / rate;
    u64::min(72_000_000u64.div_ceil(rate), half_period)
}
