//! The timeline: words of a log and slots of groups, in the order of time.
ghost use Rattle.std.specs.Prelude.{◌≡◌, ◌<◌, IfSome, length};
ghost use Rattle.a429_equipment.specs.Sound.{OfEach};
ghost use Rattle.a429_recordings.specs.SimulationLog.{AreInTime};
ghost use Rattle.a429_recordings.specs.Tracks.{ComesFirst, IsKnownMoment, IsTrack, TakesMoment, left_in};

use crate::simulate::log::LogWord;
use crate::simulate::tracks::{Track, first_group, take_slot};

/// What happens next: a word comes in, or a slot of a group begins. Groups are numbered from 0 in table order, slots from 0.
#[derive(Clone, Copy)]
pub enum Moment {
    Word(LogWord),
    Slot(usize, u64),
}

/// The words of a log, of which the one at a place is next, and the groups with their next slots.
#[derive(Drop)]
pub struct Timeline {
    pub words: Vec<LogWord>,
    pub at: usize,
    pub tracks: Vec<Track>,
}

/// The next word, if it comes no later than the next slot of this group.
fn next_word(
    words: &[LogWord],
    at: usize,
    tracks: &[Track],
    group: Option<usize>,
) -> Option<LogWord>
    requires known { IfSome group (λ g. g < length tracks.now) }
    requires sound { OfEach IsTrack tracks.now }
    requires in_time { AreInTime words.now }
    ensures { ComesFirst words.now at tracks.now group result }
{
    let word = *words.get(at)?;
    match group {
        Some(group) if !tracks[group].waits_for(word.time) => None,
        _ => Some(word),
    }
}

impl Timeline {
    /// Takes the next moment. `None` if all words and slots were taken.
    pub fn next(&mut self) -> Option<Moment>
        requires sound { OfEach IsTrack self.old.tracks.items }
        requires in_time { AreInTime self.old.words.items }
        ensures words { self.new.words.items ≡ self.old.words.items }
        ensures taken { TakesMoment self.old self.new result }
        ensures sound { OfEach IsTrack self.new.tracks.items }
        ensures many { length self.new.tracks.items ≡ length self.old.tracks.items }
        ensures known { IfSome result (IsKnownMoment self.old.tracks.items) }
        ensures shorter { IfSome result (λ _. left_in self.new < left_in self.old) }
    {
        let group = first_group(&self.tracks);
        if let Some(word) = next_word(&self.words, self.at, &self.tracks, group) {
            self.at += 1;
            return Some(Moment::Word(word));
        }
        let group = group?;
        Some(Moment::Slot(group, take_slot(&mut self.tracks, group)))
    }
}
