//! The words of a line that a receiver is for.
ghost use Rattle.std.specs.Prelude.{◌≡◌, [], Ok, Some, None, if◌then◌else◌};
ghost use Rattle.a429_filter.specs.Receiving.{HasAskedSource, ReceivesFrom, accepts, failures_since};
ghost use Rattle.a429_filter.specs.Sources.{is_end, list_or_none};

use crate::filters::FilterSet;
use crate::sources::{LineSource, SourceFault};
use a429_word::Word;
use std::marker::Model;

/// How many words are looked at in one call (profile).
const LOOKS: u32 = 65536;

/// A line with the filters of its receiver (profile).
#[derive(Drop)]
pub struct Socket<L> {
    source: L,
    filters: FilterSet,
}

impl<L> Model for Socket<L> {
    ghost use Rattle.a429_filter.specs.Receiving.{SocketState};

    ghost Value = { SocketState L };

    ghost view = { λ s. record { source = s.source; filters = s.filters } };
}

/// The word of a raw number, if it has odd parity and its label passes.
fn accepted_word(filters: &FilterSet, raw: u32) -> Option<Word>
    ensures { result ≡ (if accepts filters.now raw then Some raw else None) }
{
    let word = Word::from_raw(raw).ok()?;
    if filters.passes(word.label()) {
        Some(word)
    } else {
        None
    }
}

impl<L: LineSource> Socket<L> {
    /// A socket on a line, with the filters of its receiver.
    pub fn new(source: L, filters: FilterSet) -> Self
        ensures source { result.source ≡ source }
        ensures filters { result.filters ≡ filters }
    {
        Socket { source, filters }
    }

    /// The next word of odd parity whose label passes; other words are skipped. `None` if and only if the source was
    /// asked in this call and answered its end before such a word came. `Failed` if and only if the source failed in
    /// this call. `Skipped` if and only if 65536 words were refused in this call; the next call goes on after them.
    pub fn recv(&mut self) -> Result<Option<Word>, SourceFault>
        ensures received { ReceivesFrom L.given L.left self.old.source self.new.source self.old.filters result }
        ensures asked { HasAskedSource L.given L.steps self.old.source result self.new.source }
        ensures ended { L.ended self.new.source ≡ is_end result }
        ensures all { result ≡ Ok None → list_or_none (L.left self.new.source) ≡ [] }
        ensures failed { L.failed self.new.source ≡ failures_since (L.failed self.old.source) result }
        ensures filters { self.new.filters ≡ self.old.filters }
    {
        for look in 0..LOOKS {
            match self.source.next() {
                Err(_) => return Err(SourceFault::Failed),
                Ok(None) => return Ok(None),
                Ok(Some(raw)) => {
                    if let Some(word) = accepted_word(&self.filters, raw) {
                        return Ok(Some(word));
                    }
                }
            }
        }
        Err(SourceFault::Skipped)
    }
}
