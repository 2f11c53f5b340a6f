//! The place of each group: which of its slots is next.
ghost use Rattle.std.specs.Prelude.{◌≡◌, ◌<◌, ◌≤◌, ◌*◌, ◌^◌, ◌↔◌, IsTrue, IfSome, length, Some, slice_get};
ghost use Rattle.a429_equipment.specs.Sound.{OfEach};
ghost use Rattle.a429_slots.specs.Tables.{groups_of};
ghost use Rattle.a429_slots.specs.Planned.{IsPlanOf};
ghost use Rattle.a429_slots.specs.Times.{slots_us};
ghost use Rattle.a429_recordings.specs.Tracks.{GoesBefore, SlotsAreCounted, IsNextTrack, IsTrack, IsTracking, advanced, next_at, silent_until};
ghost use Rattle.a429_recordings.specs.Timeline.{end_of, first_time, last_time, longest_frame, rate_of, slots_before};
ghost use Rattle.a429_recordings.specs.SimulationRuns.{HasPlannedGroup};
ghost use Rattle.a429_recordings.specs.SimulationLog.{AreInTime};
ghost use Rattle.a429_recordings.specs.declared.simulate.tracks.Track.{Track as TheTrack};

use crate::simulate::log::LogWord;
use a429_console::refusals::CommandRefusal;
use a429_equipment::Equipment;
use a429_grid::SLOT_TIME;
use a429_slots::{OUTPUTS, Plan, Proposal};
use std::alloc::Global;

/// How many frames a group sends at most from the first word on.
const MOST_FRAMES: u64 = 1_000_000;

/// A group: the bit rate of its buses, how many slots it sends in all, and which is next.
#[derive(Clone, Copy)]
pub struct Track {
    pub rate: u32,
    pub slots: u64,
    pub next: u64,
}

impl Track {
    /// Whether no slot is left.
    pub fn is_done(&self) -> bool
        ensures { IsTrue result ↔ (self.now.slots ≤ self.now.next) }
    {
        self.next >= self.slots
    }

    /// Whether its next slot begins before that of another group.
    pub fn is_before(&self, other: &Track) -> bool
        requires own { IsTrack self.now }
        requires other { IsTrack other.now }
        ensures { IsTrue result ↔ (self.now.next * other.now.rate < other.now.next * self.now.rate) }
    {
        self.next * u64::from(other.rate) < other.next * u64::from(self.rate)
    }

    /// Whether its next slot begins at this time or after it.
    pub fn waits_for(&self, time: u64) -> bool
        requires sound { IsTrack self.now }
        requires few { time < 100000000000000 }
        ensures { IsTrue result ↔ (time * self.now.rate ≤ self.now.next * 36000000) }
    {
        time * u64::from(self.rate) <= self.next * SLOT_TIME
    }
}

/// Whether the next slot of a group begins before that of the first of these, if there is one.
fn goes_before(tracks: &[Track], track: &Track, first: Option<usize>) -> bool
    requires known { IfSome first (λ g. g < length tracks.now) }
    requires sound { OfEach IsTrack tracks.now }
    requires own { IsTrack track.now }
    ensures { GoesBefore tracks.now track.now first result }
{
    match first {
        None => true,
        Some(group) => track.is_before(&tracks[group]),
    }
}

/// The group whose next slot begins first, and of several the first in table order. `None` if no group has a slot left.
pub fn first_group(tracks: &[Track]) -> Option<usize>
    requires sound { OfEach IsTrack tracks.now }
    ensures least { IsNextTrack tracks.now (length tracks.now) result }
{
    let mut first = None;
    for (group, track) in tracks.iter().enumerate() {
        if !track.is_done() && goes_before(tracks, track, first) {
            first = Some(group);
        }
    }
    first
}

/// The next slot of a group, which is taken.
pub fn take_slot(tracks: &mut Vec<Track>, group: usize) -> u64
    requires known { group < length tracks.old.items }
    requires left { (x : TheTrack) → slice_get tracks.old.items group ≡ Some x → x.next < x.slots }
    requires sound { OfEach IsTrack tracks.old.items }
    ensures slot { result ≡ next_at tracks.old.items group }
    ensures after { tracks.new.items ≡ advanced tracks.old.items group }
{
    let track = &mut tracks[group];
    let slot = track.next;
    track.next += 1;
    slot
}

/// The bit rate of a group.
pub fn rate_of(proposal: &Proposal<OUTPUTS>, group: usize) -> u32
    requires known { HasPlannedGroup proposal.now group }
    ensures rate { result ≡ rate_of proposal.now group }
    ensures some { 1 ≤ result }
{
    let equipment = proposal.equipment();
    equipment.rows_are_sound();
    equipment.group_rate(group)
}

/// How long a number of slots lasts at a rate in bit/s, in microseconds, rounded up.
pub fn micros_of(rate: u32, slots: u64) -> u64
    requires rate { 1 ≤ rate }
    requires few { slots ≤ 300000000000 }
    ensures value { result ≡ slots_us rate slots }
    ensures few { result ≤ 36000000 * slots }
{
    (SLOT_TIME * slots).div_ceil(u64::from(rate))
}

/// How many slots begin before this time in microseconds, at a rate in bit/s.
fn slots_before(rate: u32, time: u64) -> u64
    requires few { time * rate < 2 ^ 64 }
    ensures { result ≡ slots_before rate time }
{
    (time * u64::from(rate)).div_ceil(SLOT_TIME)
}

/// How many slots begin at the last time or before, at a rate in bit/s. `None` if those from the first time on are more
/// than a million frames of this length. Times are in microseconds.
fn count_slots(rate: u32, frame: u32, first: u64, last: u64) -> Option<u64>
    requires rate { rate ≤ 100000 }
    requires frame { (1 ≤ frame) × (frame ≤ 8192) }
    requires first { first < 100000000000000 }
    ensures { SlotsAreCounted rate frame first last result }
{
    let lasting = last.checked_mul(u64::from(rate))?;
    let slots = lasting / SLOT_TIME + 1;
    if slots > slots_before(rate, first) + MOST_FRAMES * u64::from(frame) {
        None
    } else {
        Some(slots)
    }
}

/// How long the longest frame of a group lasts, in microseconds, rounded up.
fn longest_frame(equipment: &Equipment, plan: &Plan<OUTPUTS>) -> u64
    requires planned { IsPlanOf equipment.now plan.now }
    ensures value { result ≡ longest_frame equipment.now.groups (groups_of plan.now) }
    ensures few { result < 1000000000000 }
{
    equipment.rows_are_sound();
    let mut longest = 0;
    for group in 0..plan.groups() {
        let frame = plan.group(group).frame();
        longest = u64::max(
            longest,
            micros_of(equipment.group_rate(group), u64::from(frame)),
        );
    }
    longest
}

/// When the first word comes in, in microseconds; with no word, 0.
fn first_time(words: &[LogWord]) -> u64
    requires { AreInTime words.now }
    ensures value { result ≡ first_time words.now }
    ensures few { result < 100000000000000 }
{
    match words.first() {
        None => 0,
        Some(word) => word.time,
    }
}

/// When the last word comes in, in microseconds; with no word, 0.
fn last_time(words: &[LogWord]) -> u64
    requires { AreInTime words.now }
    ensures value { result ≡ last_time words.now }
    ensures few { result < 100000000000000 }
{
    match words.last() {
        None => 0,
        Some(word) => word.time,
    }
}

/// The last time at which slots begin, in microseconds: the one that is asked for, otherwise a longest frame after the
/// last word.
pub fn end_of(proposal: &Proposal<OUTPUTS>, words: &[LogWord], until: Option<u64>) -> u64
    requires { AreInTime words.now }
    ensures { result ≡ end_of proposal.now words.now until }
{
    if let Some(until) = until {
        return until;
    }
    last_time(words) + longest_frame(proposal.equipment(), proposal.plan())
}

/// The time before which no group sends a word, in microseconds: that of the first word, or the last time at which slots
/// begin if that is earlier.
fn silent_until(words: &[LogWord], last: u64) -> u64
    ensures value { result ≡ silent_until words.now last }
    ensures within { result ≤ last }
{
    match words.first() {
        None => last,
        Some(word) => u64::min(word.time, last),
    }
}

/// Each group before its first slot that does not begin before the first of these words, with slots that begin up to the
/// last time in microseconds. Error: a group would send more than a million frames from the first word on, or an
/// allocation failed.
pub fn tracks_of(
    alloc: Global,
    proposal: &Proposal<OUTPUTS>,
    words: &[LogWord],
    last: u64,
) -> Result<Vec<Track>, CommandRefusal>
    requires { AreInTime words.now }
    ensures { IsTracking proposal.now words.now last result }
{
    let (equipment, plan) = (proposal.equipment(), proposal.plan());
    equipment.rows_are_sound();
    let first = first_time(words);
    let start = silent_until(words, last);
    let mut tracks = Vec::new(alloc);
    for group in 0..plan.groups() {
        let rate = equipment.group_rate(group);
        let Some(slots) = count_slots(rate, plan.group(group).frame(), first, last) else {
            return Err(CommandRefusal::TooMuch);
        };
        tracks.push(Track {
            rate,
            slots,
            next: slots_before(rate, start),
        })?;
    }
    Ok(tracks)
}
