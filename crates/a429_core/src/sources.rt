//! What is kept of the words of each source.
ghost use Rattle.std.specs.Prelude.{◌≡◌, ◌<◌, length, if◌then◌else◌, nat_lt};
ghost use Rattle.a429_core.specs.MachineSteps.{count_at, kept_at};

use a429_word::Word;

/// How many words a source accepted, and the last of them.
#[derive(Clone, Copy, PartialEq, Eq)]
pub struct Kept {
    pub count: u64,
    pub last: Option<Word>,
}

/// Keeps one more word of a source. The answer is `false`, and nothing changes, if `limit` words were counted before.
pub fn keep(sources: &mut Vec<Kept>, limit: u64, source: usize, word: Word) -> bool
    requires { source < length sources.old.items }
    ensures room { result ≡ nat_lt (count_at sources.old.items source) limit }
    ensures kept { sources.new.items ≡ (if result then kept_at sources.old.items source word else sources.old.items) }
{
    let kept = &mut sources[source];
    if kept.count >= limit {
        return false;
    }
    kept.count += 1;
    kept.last = Some(word);
    true
}
