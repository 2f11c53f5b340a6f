//! The sources of a line's words.
ghost use Rattle.std.specs.Prelude.{◌≡◌, ◌++◌, List, ℕ, Bool, Ok, None, Option, option_map, []};
ghost use Rattle.a429_filter.specs.Sources.{SourceAnswer, failures_after, is_end, list_or_none, word_given};

use thiserror::Error;

/// Why no word came. The next call goes on.
#[derive(Clone, Copy, Debug, PartialEq, Eq, Error)]
pub enum SourceFault {
    /// The source of the line failed in this call, and gave nothing in it.
    #[error("the line's source failed")]
    Failed,
    /// 65536 words were taken in this call, and each was refused. Sockets answer it.
    #[error("65536 words were refused one after another")]
    Skipped,
}

/// Gives the raw words of a line, one after another (profile).
pub trait LineSource {
    /// The words that it gave so far.
    ghost given: { Self → List ℕ };

    /// Whether its last call answered the end.
    ghost ended: { Self → Bool };

    /// How many of its calls answered a fault, as far as 64 bits count.
    ghost failed: { Self → ℕ };

    /// The words that it has still to give, if it says so.
    ghost left: { Self → Option (List ℕ) } = { λ _. None };

    /// Whether a call can answer this and take it from one state to another, if it says so.
    ghost steps: { Self → SourceAnswer → Self → Type 0 } = { λ _ _ _. Unit {0} };

    /// The next word, of either parity, or `None` at the end. Error: the source failed; then the call gives no word.
    fn next(&mut self) -> Result<Option<u32>, SourceFault>
        ensures given { given self.new ≡ given self.old ++ word_given result }
        ensures ended { ended self.new ≡ is_end result }
        ensures failed { failed self.new ≡ failures_after (failed self.old) result }
        ensures left { left self.old ≡ option_map (λ more. word_given result ++ more) (left self.new) }
        ensures all { result ≡ Ok None → list_or_none (left self.new) ≡ [] }
        ensures step { steps self.old result self.new };

    /// How many calls of `next` answered a fault. At the last value of 64 bits it counts no more.
    fn failures(&self) -> u64
        ensures { result ≡ failed self.now };
}
