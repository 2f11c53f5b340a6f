//! The latest of two words.
ghost use Rattle.std.specs.Prelude.{◌≡◌, IfSome};

use a429_core::laws::word_was_accepted;
use a429_core::{Answer, Event, StationState};
use a429_slots::{OUTPUTS, Proposal};
use std::alloc::Global;

/// Two words come in at a receiver, and then the first group's first cell is sent. If both were accepted and the cell has
/// a word, the answer has the source of each of them, and the word that was sent. If they are of one source, that is the
/// second one. `None` if no station was opened, if a word was not accepted, or if the cell is empty.
pub fn latest_of_two(
    alloc: Global,
    proposal: Proposal<OUTPUTS>,
    receiver: usize,
    first: u32,
    second: u32,
) -> Option<(usize, usize, u32)>
    ensures { IfSome result (λ r. r.0 ≡ r.1 → r.2 ≡ second) }
{
    word_was_accepted();
    let Ok(mut state) = StationState::open(alloc, proposal, 0) else {
        return None;
    };
    let Ok(Answer::Accepted { source: one }) = state.step(Event::Arrive {
        receiver,
        raw: first,
    }) else {
        return None;
    };
    let Ok(Answer::Accepted { source: other }) = state.step(Event::Arrive {
        receiver,
        raw: second,
    }) else {
        return None;
    };
    let Ok(
        Answer::Sent {
            word: Some(word),
            ..
        },
    ) = state.step(Event::Cell { group: 0 })
    else {
        return None;
    };
    Some((one, other, word.raw()))
}
