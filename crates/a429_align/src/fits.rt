//! How well a drift fits.
ghost use Rattle.std.specs.Prelude.{◌≤◌};
ghost use Rattle.a429_align.specs.Corrections.{parts_of};

use crate::corrections::corrected;
use crate::pairs::{Moments, Pairs, ZERO};
use a429_arguments::times::Drift;
use a429_text::Gathered;
use std::alloc::{AllocError, Global};

/// The greatest drift that is looked for, in parts in 10^9: two clocks of 100 ppm.
pub const MOST_DRIFT: u64 = 200_000;

/// A drift by its number: the greatest slow one has 0, and the greatest fast one twice `MOST_DRIFT`.
pub fn drift_at(number: u64) -> Drift
    ensures { parts_of result ≤ 200000 }
{
    if number >= MOST_DRIFT {
        Drift::Fast((number - MOST_DRIFT).min(MOST_DRIFT))
    } else {
        Drift::Slow(MOST_DRIFT - number)
    }
}

/// A drift by its number, and the bounds of the shift with it, each with `ZERO` added: by the words that came in and were sent
/// first, and by those that went and were sent last.
#[derive(Clone, Copy)]
pub struct Fit {
    pub drift: u64,
    pub low: u64,
    pub high: u64,
}

impl Fit {
    /// How far apart the bounds are, and `ZERO`. The lower one may be above the other.
    pub fn gap(&self) -> u64 {
        self.high.saturating_add(ZERO).saturating_sub(self.low)
    }
}

/// The shift of the times of what was sent by which the two moments of a pair are one, for each pair, sorted, with `ZERO` added.
/// Error: an allocation failed.
fn shifts(alloc: Global, moments: &[Moments], drift: Drift) -> Result<Vec<u64>, AllocError> {
    let mut shifts = Gathered::new(alloc);
    for pair in moments {
        let sent = corrected(drift, pair.sent).unwrap_or(u64::MAX);
        shifts.push(ZERO.saturating_add(pair.heard).saturating_sub(sent));
    }
    let mut shifts = shifts.into_vec()?;
    shifts.sort_unstable();
    Ok(shifts)
}

/// The bounds with the drift of this number, if this number of moments at either bound is passed over. Error: an allocation
/// failed.
pub fn fit_at(alloc: Global, pairs: &Pairs, drift: u64, skipped: usize) -> Result<Fit, AllocError> {
    let rate = drift_at(drift);
    let begins = shifts(alloc, &pairs.begins, rate)?;
    let low = begins.iter().rev().nth(skipped).copied().unwrap_or(0);
    let ends = shifts(alloc, &pairs.ends, rate)?;
    let high = ends.get(skipped).copied().unwrap_or(0);
    Ok(Fit { drift, low, high })
}
