//! Times of a clock that is fast or slow, by the clock against which it is that.
ghost use Rattle.std.specs.Prelude.{◌≡◌};
ghost use Rattle.a429_align.specs.Corrections.{corrected};

use a429_arguments::times::Drift;

/// How many parts `Drift` counts in a whole.
const PARTS: u128 = 1_000_000_000;

/// That part of a time, rounded down.
fn part_of(time: u64, parts: u64) -> u128
    ensures { result ≡ Rattle.a429_align.specs.Corrections.part_of time parts }
{
    u128::from(time) * u128::from(parts) / PARTS
}

/// A time of a clock, in microseconds, without what the clock is fast, or with what it is slow. `None` if it has more than 64
/// bits.
pub fn corrected(drift: Drift, time: u64) -> Option<u64>
    ensures { result ≡ corrected drift time }
{
    let whole = u128::from(time);
    let moved = match drift {
        Drift::Fast(parts) => whole.saturating_sub(part_of(time, parts)),
        Drift::Slow(parts) => whole + part_of(time, parts),
    };
    match u64::try_from(moved) {
        Ok(time) => Some(time),
        Err(_) => None,
    }
}
