//! Words that come to a receiver more closely than a bus can carry them.
ghost use Rattle.std.specs.Prelude.{◌≡◌, IsNone};
ghost use Rattle.a429_recordings.specs.CloseWords.{AreSpaced, closest_after, run_after, runs_after};

use crate::simulate::log::LogWord;
use a429_equipment::RECEIVERS;

/// How long a word and the gap after it take at 100 kbit/s: 36 bit times, in microseconds.
const WORD_TIME: u64 = 360;

/// How many words in a row may come as closely as no bus carries them. A recorder may pass on a few at once.
const MOST_CLOSE: u64 = 100;

/// The last words at a receiver, each less than a word time after the one before: how many there are, and when the last
/// came in, in microseconds. Both are 0 before the first word.
#[derive(Clone, Copy)]
pub struct CloseRun {
    pub words: u64,
    pub last: u64,
}

impl CloseRun {
    /// After one more word, at this time.
    fn after(self, time: u64) -> CloseRun
        ensures { result ≡ run_after self time }
    {
        let words = if time.saturating_sub(self.last) < WORD_TIME {
            self.words.saturating_add(1)
        } else {
            1
        };
        CloseRun { words, last: time }
    }
}

/// Notes a word at its receiver. The answer is how many words of that receiver now follow each other too closely.
fn note_word(runs: &mut [CloseRun], word: LogWord) -> u64
    ensures runs { runs.new ≡ runs_after runs.old word }
    ensures count { result ≡ closest_after runs.old word }
{
    let receiver = usize::from(word.receiver);
    if receiver >= runs.len() {
        return 0;
    }
    let run = runs[receiver].after(word.time);
    runs[receiver] = run;
    run.words
}

/// The receiver to which the words of a log are the first to come too closely: more than 100 in a row, each less than a
/// word time after the one before. `None` if and only if there is none.
pub fn close_receiver(words: &[LogWord]) -> Option<u8>
    ensures none { AreSpaced words.now → IsNone result }
    ensures spaced { IsNone result → AreSpaced words.now }
{
    let mut runs = [CloseRun { words: 0, last: 0 }; RECEIVERS];
    for word in words {
        if note_word(&mut runs, *word) > MOST_CLOSE {
            return Some(word.receiver);
        }
    }
    None
}
