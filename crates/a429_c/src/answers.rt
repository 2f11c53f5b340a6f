//! Answers of the machine as a program in C reads them.
ghost use Rattle.std.specs.Prelude.{◌≡◌};
ghost use Rattle.a429_c.specs.Calls.{cell_of, plan_of, source_of};

use crate::statuses::{Status, status_for};
use a429_core::Answer;

/// A cell that was sent, on a bus, in a slot. The slot is absolute: the first cell of each group is in the slot that
/// the station was opened with. `filled` is 1 if the cell has a word. Otherwise it is 0, and then the word is 0.
#[repr(C)]
#[derive(Clone, Copy)]
pub struct CellAnswer {
    pub slot: u64,
    pub bus: u32,
    pub filled: u32,
    pub word: u32,
}

/// The place of an output: its bus, its first slot counted from the frame's start, and its period in slots.
#[repr(C)]
#[derive(Clone, Copy)]
pub struct PlaceAnswer {
    pub bus: u32,
    pub offset: u32,
    pub period: u32,
}

/// The source for which a word is accepted. Error: the status of the refusal.
pub(crate) fn source_of(answer: Answer) -> Result<usize, Status>
    ensures { result ≡ source_of answer }
{
    match answer {
        Answer::Accepted { source } => Ok(source),
        Answer::Refused(refusal) => Err(status_for(refusal)),
        _ => Err(Status::NoSuch),
    }
}

/// The cell that is sent. Error: the status of the refusal.
pub(crate) fn cell_of(answer: Answer) -> Result<CellAnswer, Status>
    ensures { result ≡ cell_of answer }
{
    match answer {
        Answer::Sent {
            bus,
            slot,
            word: Some(word),
        } => Ok(CellAnswer {
            slot,
            bus,
            filled: 1,
            word: word.raw(),
        }),
        Answer::Sent {
            bus,
            slot,
            word: None,
        } => Ok(CellAnswer {
            slot,
            bus,
            filled: 0,
            word: 0,
        }),
        Answer::Refused(refusal) => Err(status_for(refusal)),
        _ => Err(Status::NoSuch),
    }
}

/// The number of a plan. Error: the status of the refusal.
pub(crate) fn plan_of(answer: Answer) -> Result<u64, Status>
    ensures { result ≡ plan_of answer }
{
    match answer {
        Answer::Changed { plan } | Answer::Published { plan } => Ok(plan),
        Answer::Refused(refusal) => Err(status_for(refusal)),
        _ => Err(Status::NoSuch),
    }
}
