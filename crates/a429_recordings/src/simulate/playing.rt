//! A timeline played on a station: what happens, one thing after another.
ghost use Rattle.std.specs.Prelude.{◌≡◌, ◌<◌, IfSome, MatchOption, None};
ghost use Rattle.a429_recordings.specs.SimulationLog.{AreInTime};
ghost use Rattle.a429_recordings.specs.SimulationRuns.{BeginsMoment, CanBePlayed, IsBeginningOf, IsKnown, IsWithinRun, PlaysCells, Tells, cells_left, left_to_play};
ghost use Rattle.a429_recordings.specs.Timeline.{end_of};

use crate::simulate::log::LogWord;
use crate::simulate::machine::{Happening, Run};
use crate::simulate::moments::{Moment, Timeline};
use crate::simulate::tracks::{end_of, tracks_of};
use a429_console::refusals::Refused;
use a429_core::laws::{calls_are_answered, sent_cells_are_answered};
use a429_slots::{OUTPUTS, Proposal};
use std::alloc::Global;

/// A slot of a group, which is asked for its cells: how many are left.
#[derive(Clone, Copy)]
pub struct SlotLeft {
    pub group: usize,
    pub slot: u64,
    pub cells: u32,
}

/// A station and a timeline that is played on it; and the slot that is under way.
#[derive(Drop)]
pub struct Player {
    run: Run,
    timeline: Timeline,
    slot: Option<SlotLeft>,
}

impl Player {
    /// A station to which nothing has happened, with these words before it, and slots up to this time or to that which
    /// the words ask for. The slots before the first word have passed: no group sends in them. Error: a group would send
    /// too much, or an allocation failed.
    pub fn open(
        alloc: Global,
        proposal: &Proposal<OUTPUTS>,
        words: Vec<LogWord>,
        until: Option<u64>,
    ) -> Result<Player, Refused>
        requires { AreInTime words.items }
        ensures { IsBeginningOf proposal.now words.items (end_of proposal.now words.items until) result }
    {
        calls_are_answered();
        sent_cells_are_answered();
        let last = end_of(proposal, &words, until);
        let tracks = tracks_of(alloc, proposal, &words, last)?;
        let mut run = Run::open(alloc, proposal)?;
        run.put_at(&tracks);
        let timeline = Timeline {
            words,
            at: 0,
            tracks,
        };
        Ok(Player {
            run,
            timeline,
            slot: None,
        })
    }

    /// The words that it plays.
    pub fn words(&self) -> &[LogWord]
        ensures { result.now ≡ self.now.timeline.words.items }
    {
        &self.timeline.words
    }

    /// Of this number of bytes those of the words that came in, if all words have as many.
    pub fn bytes_played(&self, bytes: usize) -> usize {
        let words = self.timeline.words.len().max(1);
        (bytes / words).saturating_mul(self.timeline.at)
    }

    /// The next cell with a word in the slot that is under way. `None` if it has no more. Then the slot is over, and
    /// after the last slot of a frame the group goes on to the next frame.
    #[inline(always)]
    fn next_cell(&mut self, proposal: &Proposal<OUTPUTS>) -> Option<Happening>
        requires { CanBePlayed proposal.now self.old }
        ensures cells { PlaysCells proposal.now self.old self.new result }
        ensures fewer { MatchOption result (self.new.slot ≡ None) (λ _. cells_left self.new.slot < cells_left self.old.slot) }
        ensures known { IfSome result (IsKnown proposal.now) }
        ensures playable { CanBePlayed proposal.now self.new }
    {
        let mut left = self.slot?;
        while left.cells > 0 {
            left.cells -= 1;
            let sent = self.run.send(left.group, left.slot);
            if sent.is_some() {
                self.slot = Some(left);
                return sent;
            }
        }
        self.run.turn_after(proposal, left.group, left.slot);
        self.slot = None;
        None
    }

    /// A moment begins: a word comes in, or a slot is under way.
    fn begin(&mut self, proposal: &Proposal<OUTPUTS>, moment: Moment) -> Option<Happening>
        requires playable { CanBePlayed proposal.now self.old }
        requires within { IsWithinRun proposal.now moment }
        ensures begun { BeginsMoment proposal.now moment self.old self.new result }
        ensures known { IfSome result (IsKnown proposal.now) }
        ensures playable { CanBePlayed proposal.now self.new }
    {
        match moment {
            Moment::Word(word) => self.run.arrive(word),
            Moment::Slot(group, slot) => {
                let cells = proposal.plan().group(group).buses();
                self.slot = Some(SlotLeft { group, slot, cells });
                None
            }
        }
    }

    /// What happens next. `None` at the end of the timeline.
    #[inline(always)]
    pub fn next(&mut self, proposal: &Proposal<OUTPUTS>) -> Option<Happening>
        requires { CanBePlayed proposal.now self.old }
        ensures told { Tells proposal.now self.old self.new result }
        ensures known { IfSome result (IsKnown proposal.now) }
        ensures playable { CanBePlayed proposal.now self.new }
        ensures shorter { IfSome result (λ _. left_to_play self.new < left_to_play self.old) }
    {
        loop {
            let sent = self.next_cell(proposal);
            if sent.is_some() {
                return sent;
            }
            let moment = self.timeline.next()?;
            let refused = self.begin(proposal, moment);
            if refused.is_some() {
                return refused;
            }
        }
    }
}
