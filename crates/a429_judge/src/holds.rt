//! Whether a hold explains that a slot after some sends is empty.
ghost use Rattle.std.specs.Prelude.{◌≡◌, ◌≤◌, ◌-◌, ◌*◌, ◌^◌, ◌<◌, length, true, false};
ghost use Rattle.std.specs.List.{list_any};
ghost use Rattle.std.specs.List.Sorted.{IsNonDecreasingBy};
ghost use Rattle.a429_judge.specs.Judging.{AreFirst, has_room, is_excused, is_left, may_be_used_up, time_at};

use crate::facts::{Facts, Mark, Span};
use crate::windows::{count_before_next, is_by, units};

/// The time of the send at a place; 0 if there is none.
fn time_at(sends: &[Mark], place: usize) -> u64
    ensures { result ≡ time_at sends.now place }
{
    match sends.get(place) {
        Some(send) => send.time,
        None => 0,
    }
}

/// A period less the tolerance, in units of 1 / rate microseconds.
fn least_step(facts: &Facts) -> u128
    ensures value { result ≡ facts.now.period * 36000000 - facts.now.tolerance * facts.now.rate }
    ensures few { result < 2 ^ 58 }
{
    (u128::from(facts.period) * 36_000_000).saturating_sub(units(facts.rate, facts.tolerance, 0))
}

/// Whether a number of sends of a word fit from its acceptance until the tolerance after a send at a time.
fn has_room(facts: &Facts, hold: u32, time: u64, mark: &Mark) -> bool
    ensures { result ≡ has_room facts.now hold time mark.now }
{
    let sends = u128::from(hold.saturating_sub(1)) * least_step(facts);
    units(facts.rate, mark.time, 0) + sends <= units(facts.rate, time, facts.tolerance)
}

/// Whether the first `count` sends may have `hold` sends of a word at their end.
fn may_be_used_up(
    facts: &Facts,
    span: &Span,
    sends: &[Mark],
    count: usize,
    hold: u32,
    mark: &Mark,
) -> bool
    ensures { result ≡ may_be_used_up facts.now span.now sends.now count hold mark.now }
{
    if count >= hold as usize {
        return is_by(facts, time_at(sends, count - hold as usize), mark);
    }
    let last = time_at(sends, count.saturating_sub(1));
    is_by(facts, span.first, mark) && has_room(facts, hold, last, mark)
}

/// How many accepted words may be used up after the first `count` sends.
fn count_used_up(
    facts: &Facts,
    span: &Span,
    accepted: &[Mark],
    sends: &[Mark],
    count: usize,
    hold: u32,
) -> usize
    requires times { IsNonDecreasingBy (λ (a : Mark). a.time) accepted.now }
    ensures point { AreFirst (may_be_used_up facts.now span.now sends.now count hold) accepted.now result }
    ensures within { result ≤ length accepted.now }
{
    accepted.partition_point(|mark| may_be_used_up(facts, span, sends, count, hold, mark))
}

/// Whether a word had to be sent in the slot after the first `count` sends: it was accepted before that slot, and cannot be
/// used up.
fn is_any_left(
    facts: &Facts,
    span: &Span,
    accepted: &[Mark],
    sends: &[Mark],
    count: usize,
    hold: u32,
) -> bool
    requires { IsNonDecreasingBy (λ (a : Mark). a.time) accepted.now }
    ensures { result ≡ list_any (is_left facts.now span.now sends.now count hold) accepted.now }
{
    let last = time_at(sends, count.saturating_sub(1));
    count_used_up(facts, span, accepted, sends, count, hold)
        < count_before_next(facts, accepted, last)
}

/// Whether the hold may have left the slot after the first `count` sends empty.
pub fn is_excused(
    facts: &Facts,
    span: &Span,
    accepted: &[Mark],
    sends: &[Mark],
    count: usize,
) -> bool
    requires times { IsNonDecreasingBy (λ (a : Mark). a.time) accepted.now }
    ensures { result ≡ is_excused facts.now span.now accepted.now sends.now count }
{
    let Some(hold) = facts.hold else {
        return false;
    };
    !is_any_left(facts, span, accepted, sends, count, hold)
}
