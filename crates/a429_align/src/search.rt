//! The search for the clock of a recording.
ghost use Rattle.std.specs.Prelude.{◌≤◌, IfOk, IfSome};
ghost use Rattle.a429_arguments.specs.Given.{last_shift};
ghost use Rattle.a429_align.specs.Alignments.{CanBeStated, micros_of};

use crate::fits::{Fit, MOST_DRIFT, drift_at, fit_at};
use crate::pairs::{Pairs, ZERO, pairs_of, usual_delay, within};
use crate::spans::Recorded;
use a429_arguments::times::{Drift, Shift};
use std::alloc::{AllocError, Global};

/// The most by which times can be moved, in microseconds: fourteen digits (profile).
const LAST_SHIFT: u64 = 99_999_999_999_999;

/// What was found of the clock of what was sent.
#[derive(Clone, Copy)]
pub struct Alignment {
    /// By how much its times are moved, once they are corrected by the drift.
    pub shift: Shift,
    pub drift: Drift,
    /// How many words say so, by the moment at which they were sent first or last.
    pub moments: usize,
    /// How many of these do not fit.
    pub unfit: usize,
    /// How far the shift may be off, in microseconds, by the others.
    pub margin: u64,
}

/// How far the first numbers of drifts that are tried are apart.
const FIRST_STEP: u64 = 20_000;

/// How far from the best one the next ones are.
static STEPS: [u64; 10] = [10_000, 5_000, 2_500, 1_250, 625, 312, 156, 78, 39, 19];

/// How many moments at either bound are passed over, one after another, until the bounds fit.
static SKIPS: [usize; 9] = [0, 1, 3, 7, 15, 31, 63, 127, 255];

/// The better of two fits: the one with the larger gap, otherwise the first.
fn better(best: Fit, other: Fit) -> Fit {
    if other.gap() > best.gap() {
        other
    } else {
        best
    }
}

/// The best fit on a grid of all drifts. Error: an allocation failed.
fn best_of_all(alloc: Global, pairs: &Pairs, none: Fit, skipped: usize) -> Result<Fit, AllocError> {
    let mut best = none;
    for number in 0..2 * MOST_DRIFT / FIRST_STEP + 1 {
        best = better(best, fit_at(alloc, pairs, number * FIRST_STEP, skipped)?);
    }
    Ok(best)
}

/// The best fit. No drift counts as the best if its bounds fit. Error: an allocation failed.
fn best_fit(alloc: Global, pairs: &Pairs, skipped: usize) -> Result<Fit, AllocError> {
    let none = fit_at(alloc, pairs, MOST_DRIFT, skipped)?;
    if none.gap() >= ZERO {
        return Ok(none);
    }
    let mut best = best_of_all(alloc, pairs, none, skipped)?;
    for step in &STEPS {
        let below = best.drift.saturating_sub(*step);
        let above = best.drift.saturating_add(*step).min(2 * MOST_DRIFT);
        best = better(best, fit_at(alloc, pairs, below, skipped)?);
        best = better(best, fit_at(alloc, pairs, above, skipped)?);
    }
    Ok(best)
}

/// A fit, and how many moments at either bound it passes over.
#[derive(Clone, Copy)]
struct Found {
    fit: Fit,
    skipped: usize,
}

/// The best fit that passes over as few moments as it can: its bounds are apart, but for a slot. `None` if more than a tenth
/// would be passed over. Error: an allocation failed.
fn found_fit(alloc: Global, pairs: &Pairs, slot: u64) -> Result<Option<Found>, AllocError> {
    let few = pairs.begins.len().min(pairs.ends.len());
    if few == 0 {
        return Ok(None);
    }
    for skipped in &SKIPS {
        if *skipped > few / 10 {
            return Ok(None);
        }
        let fit = best_fit(alloc, pairs, *skipped)?;
        if fit.gap().saturating_add(slot) >= ZERO {
            return Ok(Some(Found {
                fit,
                skipped: *skipped,
            }));
        }
    }
    Ok(None)
}

/// The shift of a number that has `ZERO` added.
fn shift_at(number: u64) -> Shift
    ensures { micros_of result ≤ last_shift }
{
    if number >= ZERO {
        Shift::Later((number - ZERO).min(LAST_SHIFT))
    } else {
        Shift::Earlier((ZERO - number).min(LAST_SHIFT))
    }
}

/// What a fit says of the clock.
fn alignment_of(pairs: &Pairs, found: Found) -> Alignment
    ensures { CanBeStated result }
{
    let fit = found.fit;
    let middle = fit.low / 2 + fit.high / 2;
    Alignment {
        shift: shift_at(middle),
        drift: drift_at(fit.drift),
        moments: pairs.begins.len().saturating_add(pairs.ends.len()),
        unfit: found.skipped.saturating_mul(2),
        margin: fit.gap().saturating_sub(ZERO) / 2,
    }
}

/// How much later than usual a word may be sent first, or last: the longest latency, and what clocks drift apart.
fn width_of(heard: &Recorded, sent: &Recorded, latency: u64) -> u64 {
    let long = heard
        .end
        .saturating_sub(heard.begin)
        .max(sent.end.saturating_sub(sent.begin));
    latency.saturating_add(long / 2_500).saturating_add(1_000)
}

/// The pairs whose delay is usual. Error: an allocation failed.
fn usual_pairs(alloc: Global, pairs: &Pairs, width: u64) -> Result<Pairs, AllocError> {
    let Some(delay) = usual_delay(alloc, &pairs.begins, width)? else {
        return Ok(Pairs {
            begins: Vec::new(alloc),
            ends: Vec::new(alloc),
        });
    };
    let last = delay.saturating_add(width);
    let begins = within(alloc, &pairs.begins, delay, last)?;
    Ok(Pairs {
        begins,
        ends: within(alloc, &pairs.ends, delay.saturating_sub(width), last)?,
    })
}

/// Finds the clock of what was sent by that of what came in. `latency` is the longest time from the moment at which a word
/// comes in to the slot in which it is sent, and `slot` a slot, both in microseconds. `None` if no word says anything of it, or
/// if too many contradict one another. Error: an allocation failed.
pub fn align(
    alloc: Global,
    heard: &Recorded,
    sent: &Recorded,
    latency: u64,
    slot: u64,
) -> Result<Option<Alignment>, AllocError>
    ensures { IfOk result (λ found. IfSome found CanBeStated) }
{
    let width = width_of(heard, sent, latency);
    let all = pairs_of(alloc, heard, sent, width.saturating_mul(2))?;
    let pairs = usual_pairs(alloc, &all, width)?;
    match found_fit(alloc, &pairs, slot)? {
        Some(found) => Ok(Some(alignment_of(&pairs, found))),
        None => Ok(None),
    }
}
