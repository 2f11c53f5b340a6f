//! The figures of an output.
ghost use Rattle.std.specs.Prelude.{◌≡◌, ◌<◌, ◌≤◌, ◌++◌, drop, flat_map, length};
ghost use Rattle.std.specs.List.{position_or_len, range_with_len};
ghost use Rattle.std.specs.List.Sorted.{IsNonDecreasingBy};
ghost use Rattle.a429_judge.specs.Judging.{is_right};
ghost use Rattle.a429_judge.specs.Figures.{count_of, delays, delay_of, greater, greatest_of, interval_to, intervals, kind_number, least_of, lesser};

use crate::facts::{Facts, Mark};
use crate::findings::{Finding, Kind, first_right};
use a429_text::Gathered;
use std::alloc::Global;

/// The minimum of two numbers, or the second if there is no first.
fn lesser(least: Option<u64>, number: u64) -> Option<u64>
    ensures { result ≡ lesser least number }
{
    match least {
        None => Some(number),
        Some(least) => Some(least.min(number)),
    }
}

/// The maximum of two numbers, or the second if there is no first.
fn greater(greatest: Option<u64>, number: u64) -> Option<u64>
    ensures { result ≡ greater greatest number }
{
    match greatest {
        None => Some(number),
        Some(greatest) => Some(greatest.max(number)),
    }
}

/// The least of some numbers. `None` if there are none.
pub fn least_of(numbers: &[u64]) -> Option<u64>
    ensures { result ≡ least_of numbers.now }
{
    let mut least = None;
    for number in numbers {
        least = lesser(least, *number);
    }
    least
}

/// The greatest of some numbers. `None` if there are none.
pub fn greatest_of(numbers: &[u64]) -> Option<u64>
    ensures { result ≡ greatest_of numbers.now }
{
    let mut greatest = None;
    for number in numbers {
        greatest = greater(greatest, *number);
    }
    greatest
}

/// Adds the interval to a send from the one before, if there is one.
fn add_interval(numbers: &mut Gathered<u64>, sends: &[Mark], place: usize)
    requires { place < length sends.now }
    ensures { numbers.new ≡ numbers.old ++ interval_to sends.now place }
{
    if place > 0 {
        numbers.push(sends[place].time.saturating_sub(sends[place - 1].time));
    }
}

/// The intervals from each send to the next.
pub fn intervals(alloc: Global, sends: &[Mark]) -> Gathered<u64>
    ensures { result ≡ intervals sends.now }
{
    let mut numbers = Gathered::new(alloc);
    for place in 0..sends.len() {
        add_interval(&mut numbers, sends, place);
    }
    numbers
}

/// Adds how long after a word it or a later one was sent first, by the place of that send.
fn add_delay(
    numbers: &mut Gathered<u64>,
    facts: &Facts,
    accepted: &[Mark],
    sends: &[Mark],
    word: usize,
    answer: usize,
)
    requires within { word < length accepted.now }
    requires first { answer ≡ position_or_len (λ s. is_right facts.now s (drop word accepted.now)) sends.now }
    ensures { numbers.new ≡ numbers.old ++ delay_of facts.now accepted.now sends.now word }
{
    if answer < sends.len() {
        numbers.push(sends[answer].time.saturating_sub(accepted[word].time));
    }
}

/// How long after each accepted word it or a later one was sent first, if it was.
pub fn delays(alloc: Global, facts: &Facts, accepted: &[Mark], sends: &[Mark]) -> Gathered<u64>
    requires { IsNonDecreasingBy (λ (a : Mark). a.time) accepted.now }
    ensures { result ≡ delays facts.now accepted.now sends.now }
{
    let mut numbers = Gathered::new(alloc);
    let mut answer = 0;
    for word in 0..accepted.len() {
        answer = first_right(facts, accepted, word, sends, answer);
        add_delay(&mut numbers, facts, accepted, sends, word, answer);
    }
    numbers
}

/// The number of a kind.
fn kind_number(kind: Kind) -> u32
    ensures { result ≡ kind_number kind }
{
    match kind {
        Kind::Wrong => 0,
        Kind::Stale => 1,
        Kind::Soon => 2,
        Kind::Late => 3,
        Kind::Again => 4,
        Kind::Silent => 5,
        Kind::Missed => 6,
    }
}

/// How many findings of a kind there are.
pub fn count_of(kind: Kind, found: &[Finding]) -> u64
    ensures { result ≡ count_of kind found.now }
{
    let mut count = 0;
    for finding in found {
        if kind_number(finding.kind) == kind_number(kind) {
            count += 1;
        }
    }
    count
}
