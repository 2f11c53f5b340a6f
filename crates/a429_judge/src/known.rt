//! The accepted words by their bits.
ghost use Rattle.std.specs.Prelude.{◌≡◌, ◌*◌, ◌+◌, ◌^◌, ◌≤◌, ◌<◌, length, nat_lt, true, false, IfOk};
ghost use Rattle.std.specs.List.Sorted.{IsNonDecreasingBy};
ghost use Rattle.a429_judge.specs.Judging.{AreFirst, is_accepted, is_equal};
ghost use Rattle.a429_judge.specs.Known.{AreWords, is_lower, word_key};

use crate::facts::{Facts, Mark};
use std::alloc::{AllocError, Global};

/// 2^66, which is more than any time and tolerance together.
const SPAN: u128 = 73_786_976_294_838_206_464;

/// By what words are sorted: their bits, and then their times.
fn word_key(mark: &Mark) -> u128
    ensures value { result ≡ word_key mark.now }
    ensures few { mark.now.time < 2 ^ 64 }
{
    u128::from(mark.raw) * SPAN + u128::from(mark.time)
}

/// The end of the window of a send.
fn window_end(facts: &Facts, send: &Mark) -> u128
    ensures value { result ≡ send.now.time + facts.now.tolerance }
    ensures few { send.now.time + facts.now.tolerance < 2 ^ 65 }
{
    u128::from(send.time) + u128::from(facts.tolerance)
}

/// The accepted words, sorted by their bits and then by their times. Error: an allocation failed.
pub fn sorted_words(alloc: Global, accepted: &[Mark]) -> Result<Vec<Mark>, AllocError>
    ensures { IfOk result (λ words. AreWords accepted.now words.items) }
{
    let mut words = Vec::from_slice(alloc, accepted)?;
    words.sort_unstable_by_key(|mark| word_key(mark));
    Ok(words)
}

/// How many sorted words have lower bits than a word.
fn count_lower(words: &[Mark], raw: u32) -> usize
    requires { IsNonDecreasingBy word_key words.now }
    ensures point { AreFirst (is_lower raw) words.now result }
    ensures within { result ≤ length words.now }
{
    let least = u128::from(raw) * SPAN;
    words.partition_point(|mark| word_key(mark) < least)
}

/// Whether a word is equal to that of a send, and was accepted by the end of the send's window.
fn is_equal(facts: &Facts, send: &Mark, mark: &Mark) -> bool
    ensures { result ≡ is_equal facts.now send.now mark.now }
{
    mark.raw == send.raw && u128::from(mark.time) <= window_end(facts, send)
}

/// Whether the word of a send was accepted by the end of the send's window, by the sorted words.
pub fn was_accepted(facts: &Facts, words: &[Mark], send: &Mark) -> bool
    requires { IsNonDecreasingBy word_key words.now }
    ensures { result ≡ is_accepted facts.now words.now send.now }
{
    let place = count_lower(words, send.raw);
    if place >= words.len() {
        return false;
    }
    let first = words[place];
    // Proofs read that these are not too great.
    let (_first, _end) = (word_key(&first), window_end(facts, send));
    is_equal(facts, send, &first)
}
