//! From when on the times of a log are counted.
ghost use Rattle.std.specs.Prelude.{◌≡◌, ◌+◌, None, OnErr, OnOk, Some};
ghost use Rattle.a429_logs.specs.Calendars.{in_64_bits};
ghost use Rattle.a429_logs.specs.LogRows.{shown_row, stated_by};
ghost use Rattle.a429_logs.specs.Logs.{clock_after, on_clock};

use crate::rows::{RowFault, StatedWord};

/// From when on times are counted, and the time of the last word.
#[derive(Clone, Copy)]
pub struct Clock {
    /// The time, in microseconds, from which times are counted. `None` before the first word, if they are counted from its
    /// time.
    pub base: Option<u64>,
    /// The time of the last word, from the base on; at first 0.
    pub last: u64,
}

/// A sum of times, if it has 64 bits.
pub fn sum(a: u64, b: u64) -> Option<u64>
    ensures { result ≡ in_64_bits (a + b) }
{
    if b <= u64::MAX - a { Some(a + b) } else { None }
}

impl Clock {
    /// A clock that counts from this time on, in microseconds.
    pub fn from_time(base: u64) -> Clock
        ensures { result ≡ record { base = Some base; last = 0 } }
    {
        Clock {
            base: Some(base),
            last: 0,
        }
    }

    /// A clock that counts from the time of the first word on.
    pub fn from_first() -> Clock
        ensures { result ≡ record { base = None; last = 0 } }
    {
        Clock {
            base: None,
            last: 0,
        }
    }

    /// The given word, with its time from the base on, in microseconds. Errors: `Early` if the word comes before the
    /// base, `Falls` if it comes before the last word. After an error the clock is as before.
    pub fn read<'a>(&mut self, word: StatedWord<'a>) -> Result<StatedWord<'a>, RowFault>
        ensures word { shown_row result ≡ on_clock self.old (stated_by word.entry) }
        ensures clock { OnOk result (self.new ≡ clock_after self.old (stated_by word.entry)) }
        ensures kept { OnErr result (self.new ≡ self.old) }
    {
        let base = self.base.unwrap_or(word.time);
        if word.time < base {
            return Err(RowFault::Early);
        }
        let time = word.time - base;
        if time < self.last {
            return Err(RowFault::Falls);
        }
        *self = Clock {
            base: Some(base),
            last: time,
        };
        Ok(StatedWord { time, ..word })
    }
}
