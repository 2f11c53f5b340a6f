//! Accepted words within the windows of sends.
ghost use Rattle.std.specs.Prelude.{◌≡◌, ◌≤◌, ◌+◌, ◌*◌, ◌<◌, drop, length, true, false};
ghost use Rattle.std.specs.List.Sorted.{IsNonDecreasingBy};
ghost use Rattle.a429_judge.specs.Judging.{AreFirst, is_before_next, is_by, is_equal, is_known, is_of_one, is_past, is_right, is_twice};

use crate::facts::{Facts, Mark, Span};

/// A time with a duration, in units of 1 / rate microseconds.
pub fn units(rate: u32, time: u64, more: u64) -> u128
    ensures value { result ≡ (time + more) * rate }
    ensures few { result < 1208925819614629174706176000000000 }
{
    (u128::from(time) + u128::from(more)) * u128::from(rate)
}

/// Whether a word was accepted by the end of the window of a send at a time.
pub fn is_by(facts: &Facts, time: u64, mark: &Mark) -> bool
    ensures { result ≡ is_by facts.now time mark.now }
{
    u128::from(mark.time) <= u128::from(time) + u128::from(facts.tolerance)
}

/// Whether it was accepted before that window.
fn is_past(facts: &Facts, time: u64, mark: &Mark) -> bool
    ensures { result ≡ is_past facts.now time mark.now }
{
    units(facts.rate, mark.time, facts.tolerance) + 36_000_000 < units(facts.rate, time, 0)
}

/// How many words were accepted by the end of the window of a send at a time.
fn count_by(facts: &Facts, accepted: &[Mark], time: u64) -> usize
    requires { IsNonDecreasingBy (λ (a : Mark). a.time) accepted.now }
    ensures point { AreFirst (is_by facts.now time) accepted.now result }
    ensures within { result ≤ length accepted.now }
{
    accepted.partition_point(|mark| is_by(facts, time, mark))
}

/// How many were accepted before that window.
fn count_past(facts: &Facts, accepted: &[Mark], time: u64) -> usize
    requires { IsNonDecreasingBy (λ (a : Mark). a.time) accepted.now }
    ensures point { AreFirst (is_past facts.now time) accepted.now result }
    ensures within { result ≤ length accepted.now }
{
    accepted.partition_point(|mark| is_past(facts, time, mark))
}

/// Whether the word of a send was the latest of the words from a place on at some moment of the send's window.
pub fn is_right_from(facts: &Facts, accepted: &[Mark], from: usize, send: &Mark) -> bool
    requires { IsNonDecreasingBy (λ (a : Mark). a.time) accepted.now }
    ensures { result ≡ is_right facts.now send.now (drop from accepted.now) }
{
    let mut place = count_by(facts, accepted, send.time);
    while from < place {
        place -= 1;
        let mark = accepted[place];
        if mark.raw == send.raw {
            return true;
        }
        if is_past(facts, send.time, &mark) {
            return false;
        }
    }
    false
}

/// Whether the log of what came in knows which word was the latest throughout the window of a send.
pub fn is_known(facts: &Facts, span: &Span, accepted: &[Mark], time: u64) -> bool
    ensures { result ≡ is_known facts.now span.now accepted.now time }
{
    let Some(first) = accepted.first() else {
        return false;
    };
    is_past(facts, time, first)
        && u128::from(time) + u128::from(facts.tolerance) < u128::from(span.heard)
}

/// Whether a word was accepted before the window of the slot that is a period after a send.
fn is_before_next(facts: &Facts, time: u64, mark: &Mark) -> bool
    ensures { result ≡ is_before_next facts.now time mark.now }
{
    units(facts.rate, mark.time, facts.tolerance) + 36_000_000
        < units(facts.rate, time, 0) + u128::from(facts.period) * 36_000_000
}

/// How many words were accepted before the window of the slot that is a period after a send.
pub fn count_before_next(facts: &Facts, accepted: &[Mark], time: u64) -> usize
    requires { IsNonDecreasingBy (λ (a : Mark). a.time) accepted.now }
    ensures point { AreFirst (is_before_next facts.now time) accepted.now result }
    ensures within { result ≤ length accepted.now }
{
    accepted.partition_point(|mark| is_before_next(facts, time, mark))
}

/// Whether a word equal to that of a send was accepted twice by the end of the send's window, from a place on.
fn is_twice_from(facts: &Facts, accepted: &[Mark], from: usize, send: &Mark) -> bool
    requires { IsNonDecreasingBy (λ (a : Mark). a.time) accepted.now }
    ensures { result ≡ is_twice (is_equal facts.now send.now) (drop from accepted.now) }
{
    let mut place = count_by(facts, accepted, send.time);
    let mut any = false;
    while from < place {
        place -= 1;
        if accepted[place].raw == send.raw {
            if any {
                return true;
            }
            any = true;
        }
    }
    false
}

/// Whether two sends are of one accepted word.
pub fn is_of_one(facts: &Facts, span: &Span, accepted: &[Mark], first: &Mark, send: &Mark) -> bool
    requires { IsNonDecreasingBy (λ (a : Mark). a.time) accepted.now }
    ensures { result ≡ is_of_one facts.now span.now accepted.now first.now send.now }
{
    if first.raw != send.raw {
        return false;
    }
    if !is_known(facts, span, accepted, first.time) {
        return false;
    }
    if !is_known(facts, span, accepted, send.time) {
        return false;
    }
    if !is_right_from(facts, accepted, 0, first) {
        return false;
    }
    if !is_right_from(facts, accepted, 0, send) {
        return false;
    }
    let from = count_past(facts, accepted, first.time).saturating_sub(1);
    !is_twice_from(facts, accepted, from, send)
}
