//! A word that is refused.
ghost use Rattle.std.specs.Prelude.{◌≡◌, [], Ok, IfSome};
ghost use Rattle.a429_slots.specs.Answers.{answer};
ghost use Rattle.a429_slots.specs.Events.{Cell};

use a429_core::{Answer, Event, StationState};
use a429_slots::{OUTPUTS, Proposal};
use std::alloc::{AllocError, Global};

/// A word comes in at a receiver and is refused, and then a group's first cell is sent: the answer to the cell is as if
/// nothing had come in. It is never an error. `None` if no station was opened, or if the word was not refused.
pub fn cell_after_refusal(
    alloc: Global,
    proposal: Proposal<OUTPUTS>,
    receiver: usize,
    raw: u32,
    group: usize,
) -> Option<Result<Answer, AllocError>>
    ensures { IfSome result (λ r. r ≡ Ok (answer 41 (record { proposal = proposal; first = 0 }) [] (Cell group))) }
{
    let Ok(mut state) = StationState::open(alloc, proposal, 0) else {
        return None;
    };
    let Ok(Answer::Refused(_)) = state.step(Event::Arrive { receiver, raw }) else {
        return None;
    };
    Some(state.step(Event::Cell { group }))
}
