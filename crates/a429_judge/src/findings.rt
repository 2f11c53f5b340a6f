//! What is found at the sends of an output and at the words of its source.
ghost use Rattle.std.specs.Prelude.{◌≡◌, ◌<◌, ◌≤◌, ◌+◌, ◌*◌, ◌^◌, ◌++◌, drop, length, IfOk};
ghost use Rattle.std.specs.List.{position_or_len};
ghost use Rattle.std.specs.List.Sorted.{IsNonDecreasingBy};
ghost use Rattle.a429_judge.specs.Known.{AreWords};
ghost use Rattle.a429_judge.specs.Judging.{all_missed, all_sent, due_since, end_findings, finding_if, findings, is_again, is_answered, is_ended, is_far, is_in_reach, is_late, is_right, is_seen, is_silent, is_soon, mark_at, send_findings, value_findings, word_findings};

use crate::facts::{Facts, Mark, Span};
use crate::holds::is_excused;
use crate::known::{sorted_words, was_accepted};
use crate::windows::{is_known, is_of_one, is_right_from, units};
use a429_text::Gathered;
use std::alloc::{AllocError, Global};

/// What is wrong.
#[derive(Clone, Copy, PartialEq, Eq, Drop)]
pub enum Kind {
    /// The word of a send was not accepted by then.
    Wrong,
    /// A later word was accepted before.
    Stale,
    /// A send is too soon after the one before.
    Soon,
    /// A send is too late after the one before.
    Late,
    /// An accepted word was sent more often than its hold says.
    Again,
    /// No send came for too long after the last one.
    Silent,
    /// An accepted word was not sent in time, and no later one.
    Missed,
}

/// What is wrong at a word: one that was sent, the last one of an output that fell silent, or one that came in and was missed.
#[derive(Clone, Copy, Drop)]
pub struct Finding {
    pub kind: Kind,
    pub mark: Mark,
}

/// The sum of a time and a duration.
fn total(time: u64, more: u64) -> u128
    ensures value { result ≡ time + more }
    ensures few { result < 2 ^ 65 }
{
    u128::from(time) + u128::from(more)
}

/// Whether a send is too soon after the one before.
fn is_soon(facts: &Facts, sends: &[Mark], place: usize) -> bool
    requires { place < length sends.now }
    ensures { result ≡ is_soon facts.now sends.now place }
{
    if place == 0 {
        return false;
    }
    total(sends[place].time, facts.tolerance) < total(sends[place - 1].time, facts.least)
}

/// Whether it is more than the maximum interval after the one before.
fn is_far(facts: &Facts, sends: &[Mark], place: usize) -> bool
    requires { place < length sends.now }
    ensures { result ≡ is_far facts.now sends.now place }
{
    if place == 0 {
        return false;
    }
    total(sends[place - 1].time, facts.greatest) + u128::from(facts.tolerance)
        < u128::from(sends[place].time)
}

/// Whether a send is late, and no hold explains it.
fn is_late(facts: &Facts, span: &Span, accepted: &[Mark], sends: &[Mark], place: usize) -> bool
    requires times { IsNonDecreasingBy (λ (a : Mark). a.time) accepted.now }
    requires within { place < length sends.now }
    ensures { result ≡ is_late facts.now span.now accepted.now sends.now place }
{
    is_far(facts, sends, place) && !is_excused(facts, span, accepted, sends, place)
}

/// Whether a send and the one that is `hold` sends before it are of one accepted word.
fn is_again(facts: &Facts, span: &Span, accepted: &[Mark], sends: &[Mark], place: usize) -> bool
    requires times { IsNonDecreasingBy (λ (a : Mark). a.time) accepted.now }
    requires within { place < length sends.now }
    ensures { result ≡ is_again facts.now span.now accepted.now sends.now place }
{
    let Some(hold) = facts.hold else {
        return false;
    };
    let hold = hold as usize;
    if place < hold {
        return false;
    }
    let first = sends[place - hold];
    let send = sends[place];
    is_of_one(facts, span, accepted, &first, &send)
}

/// Whether the logs go on for more than the maximum interval and the tolerance after the last send.
fn is_ended(facts: &Facts, span: &Span, sends: &[Mark]) -> bool
    ensures { result ≡ is_ended facts.now span.now sends.now }
{
    if sends.is_empty() {
        return false;
    }
    total(sends[sends.len() - 1].time, facts.greatest) + u128::from(facts.tolerance)
        < u128::from(span.last)
}

/// Whether no send came for too long after the last one, and no hold explains it.
fn is_silent(facts: &Facts, span: &Span, accepted: &[Mark], sends: &[Mark]) -> bool
    requires { IsNonDecreasingBy (λ (a : Mark). a.time) accepted.now }
    ensures { result ≡ is_silent facts.now span.now accepted.now sends.now }
{
    is_ended(facts, span, sends) && !is_excused(facts, span, accepted, sends, sends.len())
}

/// Adds a finding, if there is one.
fn add_if(found: &mut Gathered<Finding>, test: bool, kind: Kind, mark: Mark)
    ensures { found.new ≡ found.old ++ finding_if test kind mark }
{
    if test {
        found.push(Finding { kind, mark });
    }
}

/// Adds whether the word of a send is right, if the log of what came in knows that.
fn add_word(
    found: &mut Gathered<Finding>,
    facts: &Facts,
    span: &Span,
    accepted: &[Mark],
    words: &[Mark],
    mark: Mark,
)
    requires times { IsNonDecreasingBy (λ (a : Mark). a.time) accepted.now }
    requires words { AreWords accepted.now words.now }
    ensures { found.new ≡ found.old ++ value_findings facts.now span.now accepted.now mark }
{
    if !is_known(facts, span, accepted, mark.time) {
        return;
    }
    if is_right_from(facts, accepted, 0, &mark) {
        return;
    }
    if was_accepted(facts, words, &mark) {
        found.push(Finding {
            kind: Kind::Stale,
            mark,
        });
    } else {
        found.push(Finding {
            kind: Kind::Wrong,
            mark,
        });
    }
}

/// Adds what is found at a send.
#[tactic(auto, unfolding(crate::specs::Judging::send_findings))]
fn add_send(
    found: &mut Gathered<Finding>,
    facts: &Facts,
    span: &Span,
    accepted: &[Mark],
    words: &[Mark],
    sends: &[Mark],
    place: usize,
)
    requires times { IsNonDecreasingBy (λ (a : Mark). a.time) accepted.now }
    requires words { AreWords accepted.now words.now }
    requires within { place < length sends.now }
    ensures { found.new ≡ found.old ++ send_findings facts.now span.now accepted.now sends.now place }
{
    let mark = sends[place];
    add_word(found, facts, span, accepted, words, mark);
    add_if(found, is_soon(facts, sends, place), Kind::Soon, mark);
    let late = is_late(facts, span, accepted, sends, place);
    add_if(found, late, Kind::Late, mark);
    let again = is_again(facts, span, accepted, sends, place);
    add_if(found, again, Kind::Again, mark);
}

/// Adds what is found after the last send.
#[tactic(auto, unfolding(crate::specs::Judging::end_findings))]
fn add_end(
    found: &mut Gathered<Finding>,
    facts: &Facts,
    span: &Span,
    accepted: &[Mark],
    sends: &[Mark],
)
    requires { IsNonDecreasingBy (λ (a : Mark). a.time) accepted.now }
    ensures { found.new ≡ found.old ++ end_findings facts.now span.now accepted.now sends.now }
{
    if is_silent(facts, span, accepted, sends) {
        let mark = sends[sends.len() - 1];
        found.push(Finding {
            kind: Kind::Silent,
            mark,
        });
    }
}

/// The last moment at which a word that is due since a time is sent in time, in units of 1 / rate microseconds: P + 1 slots
/// and the tolerance after that time.
fn limit(facts: &Facts, since: u64) -> u128
    ensures { result ≡ (since + facts.now.tolerance) * facts.now.rate + (facts.now.period + 1) * 36000000 }
{
    units(facts.rate, since, facts.tolerance) + (u128::from(facts.period) + 1) * 36_000_000
}

/// Whether a time is within that after another one.
fn is_in_reach(facts: &Facts, since: u64, time: u64) -> bool
    ensures { result ≡ is_in_reach facts.now since time }
{
    units(facts.rate, time, 0) <= limit(facts, since)
}

/// From when on the log of what was sent must have a word: since it came in, or since the first word of the group.
fn due_since(span: &Span, mark: &Mark) -> u64
    ensures { result ≡ due_since span.now mark.now }
{
    mark.time.max(span.first)
}

/// Whether the logs show that a word was sent, or was not.
fn is_seen(facts: &Facts, span: &Span, mark: &Mark) -> bool
    ensures { result ≡ is_seen facts.now span.now mark.now }
{
    if facts.hold.is_some() && total(span.first, facts.tolerance) >= u128::from(mark.time) {
        return false;
    }
    limit(facts, due_since(span, mark)) <= units(facts.rate, span.heard, 0)
}

/// The place of the first send of a word or of a later one, from a place on. It is the number of the sends if there is
/// none. No send before the place is one.
pub fn first_right(
    facts: &Facts,
    accepted: &[Mark],
    word: usize,
    sends: &[Mark],
    from: usize,
) -> usize
    requires times { IsNonDecreasingBy (λ (a : Mark). a.time) accepted.now }
    requires none { from ≤ position_or_len (λ s. is_right facts.now s (drop word accepted.now)) sends.now }
    ensures { result ≡ position_or_len (λ s. is_right facts.now s (drop word accepted.now)) sends.now }
{
    let mut place = from;
    while place < sends.len() {
        let send = sends[place];
        if is_right_from(facts, accepted, word, &send) {
            return place;
        }
        place += 1;
    }
    place
}

/// Whether a word or a later one was sent in time, by the place of the first such send.
fn is_answered(
    facts: &Facts,
    span: &Span,
    accepted: &[Mark],
    sends: &[Mark],
    word: usize,
    answer: usize,
) -> bool
    requires times { IsNonDecreasingBy (λ (s : Mark). s.time) sends.now }
    requires within { word < length accepted.now }
    requires first { answer ≡ position_or_len (λ s. is_right facts.now s (drop word accepted.now)) sends.now }
    ensures { result ≡ is_answered facts.now span.now accepted.now sends.now word }
{
    let since = due_since(span, &accepted[word]);
    answer < sends.len() && is_in_reach(facts, since, sends[answer].time)
}

/// Adds whether a word was missed, by the place of the first send of it or of a later one.
#[tactic(auto, unfolding(crate::specs::Judging::word_findings))]
fn add_missed(
    found: &mut Gathered<Finding>,
    facts: &Facts,
    span: &Span,
    accepted: &[Mark],
    sends: &[Mark],
    word: usize,
    answer: usize,
)
    requires times { IsNonDecreasingBy (λ (s : Mark). s.time) sends.now }
    requires within { word < length accepted.now }
    requires first { answer ≡ position_or_len (λ s. is_right facts.now s (drop word accepted.now)) sends.now }
    ensures { found.new ≡ found.old ++ word_findings facts.now span.now accepted.now sends.now word }
{
    let mark = accepted[word];
    let answered = is_answered(facts, span, accepted, sends, word, answer);
    let missed = is_seen(facts, span, &mark) && !answered;
    add_if(found, missed, Kind::Missed, mark);
}

/// Adds what is found at the sends, in order.
fn add_sends(
    found: &mut Gathered<Finding>,
    facts: &Facts,
    span: &Span,
    accepted: &[Mark],
    words: &[Mark],
    sends: &[Mark],
)
    requires times { IsNonDecreasingBy (λ (a : Mark). a.time) accepted.now }
    requires words { AreWords accepted.now words.now }
    ensures { found.new ≡ found.old ++ all_sent facts.now span.now accepted.now sends.now }
{
    for place in 0..sends.len() {
        add_send(found, facts, span, accepted, words, sends, place);
    }
}

/// Adds what is found at the accepted words, in order.
fn add_words(
    found: &mut Gathered<Finding>,
    facts: &Facts,
    span: &Span,
    accepted: &[Mark],
    sends: &[Mark],
)
    requires accepted { IsNonDecreasingBy (λ (a : Mark). a.time) accepted.now }
    requires sends { IsNonDecreasingBy (λ (s : Mark). s.time) sends.now }
    ensures { found.new ≡ found.old ++ all_missed facts.now span.now accepted.now sends.now }
{
    let mut answer = 0;
    for word in 0..accepted.len() {
        answer = first_right(facts, accepted, word, sends, answer);
        add_missed(found, facts, span, accepted, sends, word, answer);
    }
}

/// What is found at the sends of an output and at the accepted words of its source: at the sends in their order, after
/// the last one, and then at the words that were missed. The words of both lists are in the order of their times. Error:
/// an allocation failed.
#[tactic(auto, unfolding(crate::specs::Judging::findings))]
pub fn findings(
    alloc: Global,
    facts: &Facts,
    span: &Span,
    accepted: &[Mark],
    sends: &[Mark],
) -> Result<Gathered<Finding>, AllocError>
    requires accepted { IsNonDecreasingBy (λ (a : Mark). a.time) accepted.now }
    requires sends { IsNonDecreasingBy (λ (s : Mark). s.time) sends.now }
    ensures { IfOk result (λ found. found ≡ findings facts.now span.now accepted.now sends.now) }
{
    let words = sorted_words(alloc, accepted)?;
    let mut found = Gathered::new(alloc);
    add_sends(&mut found, facts, span, accepted, &words, sends);
    add_end(&mut found, facts, span, accepted, sends);
    add_words(&mut found, facts, span, accepted, sends);
    Ok(found)
}
