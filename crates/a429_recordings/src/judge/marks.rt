//! The words of a box's logs, as they are judged.
ghost use Rattle.std.specs.Prelude.{◌≡◌};
ghost use Rattle.a429_recordings.specs.BoxLogs.{accepting, mark_of, notes, sent_of};

use crate::judge::words::{BoxLog, BoxWord};
use a429_equipment::Equipment;
use a429_judge::{Judge, Mark, Sent};

/// The source that accepts a word. `None` if none does.
pub fn accepting(equipment: &Equipment, word: BoxWord) -> Option<usize>
    ensures { result ≡ accepting equipment.now word }
{
    let receiver = usize::from(word.place.number);
    if receiver >= equipment.receivers().len() {
        return None;
    }
    match equipment.source_for(receiver, word.raw) {
        Ok((source, _)) => Some(source),
        Err(_) => None,
    }
}

/// The time and the bits of a word.
fn mark_of(word: BoxWord) -> Mark
    ensures { result ≡ mark_of word }
{
    Mark {
        time: word.time,
        raw: word.raw,
    }
}

/// A word that was sent.
fn sent_of(word: BoxWord) -> Sent
    ensures { result ≡ sent_of word }
{
    Sent {
        group: usize::from(word.place.number),
        bus: word.place.bus,
        mark: mark_of(word),
    }
}

/// Notes a word that came in, or that was sent.
pub fn note_word(judge: &mut Judge, equipment: &Equipment, log: BoxLog, word: BoxWord)
    ensures { judge.new ≡ notes equipment.now log judge.old word }
{
    match log {
        BoxLog::Heard => judge.heard(accepting(equipment, word), mark_of(word)),
        BoxLog::Sent => judge.sent(sent_of(word)),
    }
}
