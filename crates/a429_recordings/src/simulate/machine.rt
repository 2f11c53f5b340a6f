//! The machine in a simulation, and the last accepted word of each source.
ghost use Rattle.std.specs.Prelude.{◌≡◌, ◌<◌, IfSome};
ghost use Rattle.a429_slots.specs.Proposed.{Proposed};
ghost use Rattle.a429_recordings.specs.Simulating.{Comes, Asks, turn_after};
ghost use Rattle.a429_equipment.specs.Sound.{OfEach};
ghost use Rattle.a429_recordings.specs.Tracks.{IsTrack};
ghost use Rattle.a429_recordings.specs.SimulationRuns.{HasPlannedGroup, IsKnown, IsOpening, IsSlotOf, TakesQuietly, TakesStep, heard_at, noted, put_at};

use crate::simulate::figures::OutputSend;
use crate::simulate::log::LogWord;
use crate::simulate::tracks::Track;
use a429_console::refusals::CommandRefusal;
use a429_core::laws::{calls_are_answered, sent_cells_are_answered};
use a429_core::{Answer, Refusal, StationState};
use a429_replay::open_machine;
use a429_slots::{OUTPUTS, Proposal};
use std::alloc::Global;

/// The last accepted word of a source: its number among them, from 1, and when it came in, in microseconds. Both are 0 before
/// the first one.
#[derive(Clone, Copy)]
pub struct Heard {
    pub word: u64,
    pub time: u64,
}

/// A word that a group sends: on which bus, its 32 bits, its source, and in which slot which accepted word of that source.
#[derive(Clone, Copy)]
pub struct SentWord {
    pub group: usize,
    pub bus: u32,
    pub raw: u32,
    pub source: usize,
    pub send: OutputSend,
}

/// What happens in a simulation: a word of the log is refused, or a word is sent.
#[derive(Clone, Copy)]
pub enum Happening {
    Refuses(LogWord, Refusal),
    Sends(SentWord),
}

/// The state of a station, and the last accepted word of each source.
#[derive(Drop)]
pub struct Run {
    state: StationState,
    heard: Vec<Heard>,
}

/// Notes a word that a source accepts, and when it came in.
fn note_word(heard: &mut Vec<Heard>, source: usize, time: u64)
    ensures { heard.new.items ≡ noted heard.old.items source time }
{
    if let Some(own) = heard.get_mut(source) {
        *own = Heard {
            word: own.word.saturating_add(1),
            time,
        };
    }
}

impl Run {
    /// Opens the station of a proposal at slot 0, with no event yet. Error: an allocation failed.
    pub fn open(alloc: Global, proposal: &Proposal<OUTPUTS>) -> Result<Run, CommandRefusal>
        ensures { IsOpening proposal.now result }
    {
        let unheard = Heard { word: 0, time: 0 };
        let equipment = proposal.equipment();
        equipment.rows_are_sound();
        let heard = vec![in alloc; unheard; equipment.sources().len()]?;
        let state = open_machine(alloc, proposal.copied(alloc)?)?;
        Ok(Run { state, heard })
    }

    /// Puts each group at the next slot of its track. No word was accepted before.
    pub fn put_at(&mut self, tracks: &[Track])
        requires sound { OfEach IsTrack tracks.now }
        ensures { self.new ≡ put_at self.old tracks.now }
    {
        for group in 0..tracks.len() {
            self.state.pass_slots(group, tracks[group].next);
        }
    }

    /// A word comes in. If it is refused, that happens; `None` if it is accepted.
    pub fn arrive(&mut self, word: LogWord) -> Option<Happening>
        ensures step { (q : Proposed) → TakesStep q (Comes word) self.old self.new result }
        ensures known { (q : Proposed) → IfSome result (IsKnown q) }
    {
        calls_are_answered();
        match self.state.arrive(usize::from(word.receiver), word.raw) {
            Answer::Accepted { source } => {
                note_word(&mut self.heard, source, word.time);
                None
            }
            Answer::Refused(refusal) => Some(Happening::Refuses(word, refusal)),
            _ => None,
        }
    }

    /// A group is asked for its next cell, in this slot. If it sends a word, that happens; `None` if the cell is empty.
    #[inline(always)]
    pub fn send(&mut self, group: usize, slot: u64) -> Option<Happening>
        ensures step { (q : Proposed) → HasPlannedGroup q group → TakesStep q (Asks group slot) self.old self.new result }
        ensures known { (q : Proposed) → IsSlotOf q group slot → IfSome result (IsKnown q) }
    {
        calls_are_answered();
        sent_cells_are_answered();
        match self.state.send_cell(group) {
            None => None,
            Some(cell) => {
                let heard = self.heard_of(cell.source);
                Some(Happening::Sends(SentWord {
                    group,
                    bus: cell.bus,
                    raw: cell.word.raw(),
                    source: cell.source,
                    send: OutputSend {
                        slot,
                        word: heard.word,
                        time: heard.time,
                    },
                }))
            }
        }
    }

    /// A group goes on to its next frame, if this slot is the last of one.
    pub fn turn_after(&mut self, proposal: &Proposal<OUTPUTS>, group: usize, slot: u64)
        requires known { HasPlannedGroup proposal.now group }
        requires few { slot < 300000000000 }
        ensures { TakesQuietly proposal.now (turn_after proposal.now group slot) self.old self.new }
    {
        calls_are_answered();
        let frame = proposal.plan().group(group).frame();
        if (slot + 1) % u64::from(frame) == 0 {
            let _ = self.state.frame(group);
        }
    }

    /// The last accepted word of a source.
    #[inline(always)]
    fn heard_of(&self, source: usize) -> Heard
        ensures { result ≡ heard_at self.now.heard.items source }
    {
        match self.heard.get(source) {
            Some(heard) => *heard,
            None => Heard { word: 0, time: 0 },
        }
    }
}
