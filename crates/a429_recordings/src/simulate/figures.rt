//! What a summary keeps of the words that each output sent.
ghost use Rattle.std.specs.Prelude.{◌≡◌, ◌<◌, ◌≤◌, [], IfOk};
ghost use Rattle.a429_slots.specs.Proposed.{Proposed};
ghost use Rattle.a429_recordings.specs.SimulationRuns.{IsKnown};
ghost use Rattle.a429_recordings.specs.Summary.{lateness};
ghost use Rattle.a429_recordings.specs.SummaryRuns.{HasFigures, figures_after, figures_noted, figures_with, greater, is_other, kept_at, late_if_other, lesser, nothing_sent, place_of, time_since};

use crate::simulate::machine::{Happening, SentWord};
use crate::simulate::tracks::{micros_of, rate_of};
use a429_slots::{OUTPUTS, Proposal};
use std::alloc::{AllocError, Global};

/// A word that an output sent: in which slot of its group, its number among the accepted words of its source, from 1, and
/// when it came in, in microseconds.
#[derive(Clone, Copy)]
pub struct OutputSend {
    pub slot: u64,
    pub word: u64,
    pub time: u64,
}

/// What is kept of the words that an output sent: how many, as far as 64 bits count; the last; the minimum and the
/// maximum time between two that follow each other; and the maximum time from when a word came in to the end of the
/// slot in which it first went out. Times are in microseconds, rounded up.
#[derive(Clone, Copy)]
pub struct OutputFigures {
    pub sent: u64,
    pub last: Option<OutputSend>,
    pub least: Option<u64>,
    pub greatest: Option<u64>,
    pub late: Option<u64>,
}

/// The lesser of two numbers, if there are two.
fn lesser(least: Option<u64>, more: Option<u64>) -> Option<u64>
    ensures { result ≡ lesser least more }
{
    match (least, more) {
        (None, more) => more,
        (least, None) => least,
        (Some(least), Some(more)) => Some(u64::min(least, more)),
    }
}

/// The maximum of two numbers. If one is missing, it is the other.
fn greater(greatest: Option<u64>, more: Option<u64>) -> Option<u64>
    ensures { result ≡ greater greatest more }
{
    match (greatest, more) {
        (None, more) => more,
        (greatest, None) => greatest,
        (Some(greatest), Some(more)) => Some(u64::max(greatest, more)),
    }
}

impl OutputSend {
    /// How long after another send it begins, in microseconds, rounded up, at a rate in bit/s.
    fn time_since(self, rate: u32, last: Option<OutputSend>) -> Option<u64>
        requires rate { 1 ≤ rate }
        requires few { self.slot < 300000000000 }
        ensures { result ≡ time_since rate last self }
    {
        let last = last?;
        Some(micros_of(rate, self.slot.saturating_sub(last.slot)))
    }

    /// How long before the end of its slot its word came in, in microseconds, rounded up, at a rate in bit/s.
    fn lateness(self, rate: u32) -> u64
        requires rate { 1 ≤ rate }
        requires few { self.slot < 300000000000 }
        ensures { result ≡ lateness rate self }
    {
        micros_of(rate, self.slot + 1).saturating_sub(self.time)
    }

    /// Whether its word is another than that of the last send.
    fn is_other(self, last: Option<OutputSend>) -> bool
        ensures { result ≡ is_other last self }
    {
        match last {
            None => true,
            Some(last) => last.word != self.word,
        }
    }

    /// Its lateness, if the last send had another word.
    fn late_if_other(self, rate: u32, last: Option<OutputSend>) -> Option<u64>
        requires rate { 1 ≤ rate }
        requires few { self.slot < 300000000000 }
        ensures { result ≡ late_if_other rate last self }
    {
        if self.is_other(last) {
            Some(self.lateness(rate))
        } else {
            None
        }
    }
}

impl OutputFigures {
    /// The figures of an output that sent nothing.
    pub fn nothing() -> OutputFigures
        ensures { result ≡ nothing_sent }
    {
        OutputFigures {
            sent: 0,
            last: None,
            least: None,
            greatest: None,
            late: None,
        }
    }

    /// What is kept after one more send, at the bit rate of the output's group.
    pub fn after(self, rate: u32, send: OutputSend) -> OutputFigures
        requires rate { 1 ≤ rate }
        requires few { send.slot < 300000000000 }
        ensures { result ≡ figures_after rate self send }
    {
        let between = send.time_since(rate, self.last);
        let late = send.late_if_other(rate, self.last);
        OutputFigures {
            sent: self.sent.saturating_add(1),
            last: Some(send),
            least: lesser(self.least, between),
            greatest: greater(self.greatest, between),
            late: greater(self.late, late),
        }
    }
}

/// How many groups and sources a station has at most.
const GROUPS: usize = 8;

const SOURCES: usize = 256;

/// What is kept of what each group sent of each source, group by group.
#[derive(Drop)]
pub struct Summary {
    figures: Vec<OutputFigures>,
}

/// The place of the figures of a source in a group. `None` if a station cannot have both.
fn place_of(group: usize, source: usize) -> Option<usize>
    ensures { result ≡ place_of group source }
{
    if group < GROUPS && source < SOURCES {
        Some(group * SOURCES + source)
    } else {
        None
    }
}

/// A group sends a word of a source, at the bit rate of the group.
fn note_send(figures: &mut Vec<OutputFigures>, sent: SentWord, rate: u32)
    requires rate { 1 ≤ rate }
    requires few { sent.send.slot < 300000000000 }
    ensures { figures.new.items ≡ figures_with figures.old.items sent rate }
{
    let Some(at) = place_of(sent.group, sent.source) else {
        return;
    };
    if let Some(own) = figures.get_mut(at) {
        *own = own.after(rate, sent.send);
    }
}

impl Summary {
    /// The summary of a simulation in which nothing has happened. It takes all memory that it ever needs. Error: an
    /// allocation failed.
    pub fn open(alloc: Global) -> Result<Summary, AllocError>
        ensures { IfOk result (λ summary. (q : Proposed) → HasFigures q [] summary.figures.items) }
    {
        Ok(Summary {
            figures: vec![in alloc; OutputFigures::nothing(); GROUPS * SOURCES]?,
        })
    }

    /// Keeps what happens next.
    pub fn note(&mut self, proposal: &Proposal<OUTPUTS>, happening: Happening)
        requires { IsKnown proposal.now happening }
        ensures { self.new.figures.items ≡ figures_noted proposal.now self.old.figures.items happening }
    {
        if let Happening::Sends(sent) = happening {
            note_send(&mut self.figures, sent, rate_of(proposal, sent.group));
        }
    }

    /// The figures of the words that a group sent of a source. They are the empty figures if nothing is kept of them.
    pub fn at(&self, group: usize, source: usize) -> OutputFigures
        ensures { result ≡ kept_at self.now group source }
    {
        match place_of(group, source) {
            None => OutputFigures::nothing(),
            Some(at) => match self.figures.get(at) {
                None => OutputFigures::nothing(),
                Some(figures) => *figures,
            },
        }
    }
}
