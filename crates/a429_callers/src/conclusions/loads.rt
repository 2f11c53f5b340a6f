//! Loads between meetings.
ghost use Rattle.std.specs.Prelude.{◌≡◌, ◌<◌, length, true};
ghost use Rattle.a429_equipment.specs.Agreement.{is_of, last_of, words_of};

use a429_values::{Receiver, Transmitter};
use a429_word::Word;

/// Loads a source between two meetings with its receiver: the load is the last word of the source that the receiver
/// accepted; `None` if it accepted none.
pub fn load_between_meetings(
    transmitter: &mut Transmitter,
    receiver: &mut Receiver,
    source: usize,
) -> Option<Word>
    requires hub { receiver.old.at ≡ transmitter.old.at }
    requires source { source < length transmitter.old.at.station.sources }
    requires own { is_of transmitter.old.at.station receiver.old.number source ≡ true }
    ensures latest { result ≡ last_of (words_of source receiver.old.accepted) }
    ensures receiver { receiver.new ≡ receiver.old }
{
    transmitter.meet(receiver);
    let word = transmitter.load(source);
    transmitter.meet(receiver);
    word
}

/// Loads a source by two transmitters, each of which meets its receiver. Both load the same word, or both answer `None`
/// since the source has no accepted word.
pub fn loads_of_both(
    first: &mut Transmitter,
    second: &mut Transmitter,
    receiver: &mut Receiver,
    source: usize,
) -> (Option<Word>, Option<Word>)
    requires first { receiver.old.at ≡ first.old.at }
    requires second { receiver.old.at ≡ second.old.at }
    requires source { source < length receiver.old.at.station.sources }
    requires own { is_of receiver.old.at.station receiver.old.number source ≡ true }
    ensures { result.0 ≡ result.1 }
{
    let one = load_between_meetings(first, receiver, source);
    let other = load_between_meetings(second, receiver, source);
    (one, other)
}
