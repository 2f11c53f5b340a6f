//! Lines of a simulation.
ghost use Rattle.std.specs.Prelude.{◌≡◌, ◌+◌, ◌<◌, ◌≤◌, ◌++◌, drop, length, IfOk, OnErr};
ghost use Rattle.a429_word.specs.Written.{Gains};
ghost use Rattle.a429_console.specs.Names.{name_at, naming_of};
ghost use Rattle.a429_replay.specs.AnswerLines.{refusal_text};
ghost use Rattle.a429_recordings.specs.CellLines.{BeginsSlot, IsBeginOfSlot, IsHeading, PushesLine, bus_separator, origin_of, rest_of, word_end};
ghost use Rattle.a429_recordings.specs.Simulating.{refusal_line_of, refused_line, refused_row, sent_end, sent_line, separator};
ghost use Rattle.a429_recordings.specs.SimulationRuns.{HasPlannedGroup, HasStationNames, IsKnown};
ghost use Rattle.a429_recordings.specs.declared.simulate.machine.Happening.TheVariants.{Sends};

use crate::simulate::log::LogWord;
use crate::simulate::machine::{Happening, SentWord};
use crate::simulate::tracks::{micros_of, rate_of};
use a429_core::Refusal;
use a429_replay::{Names, refusal_reason};
use a429_slots::{OUTPUTS, Proposal};
use a429_text::from_end::{put_decimal, put_hex, put_text};
use std::alloc::{AllocError, Global};

/// How many bytes the room has in which a line is written. The longest line has fewer.
const ROOM: usize = 128;

/// How lines are written: with spaces or commas between their fields, or only those of words that are sent, as a log.
#[derive(Clone, Copy)]
pub enum LineStyle {
    Spaces,
    Commas,
    Log,
}

/// What lines are written with: the proposal of the station, its names, and how they are written.
#[derive(Drop)]
pub struct LineWriter {
    pub proposal: Proposal<OUTPUTS>,
    pub names: Names,
    pub style: LineStyle,
}

/// What the lines of a group's cells in a slot begin with, from a place in the room on, and when the slot ends, in
/// microseconds.
#[derive(Clone, Copy)]
pub struct SlotBegin {
    group: usize,
    slot: u64,
    end: u64,
    at: usize,
    room: [u8; 64],
}

/// Lines that are not yet put out, of which one is appended whole or not at all, and what those of the last slot begin with.
#[derive(Drop)]
pub struct PendingLines {
    pub text: Vec<u8>,
    begin: SlotBegin,
}

impl PendingLines {
    /// The lines before those of what happens: with commas between fields the names of these. Error: an allocation
    /// failed.
    pub fn open(alloc: Global, style: LineStyle) -> Result<PendingLines, AllocError>
        ensures { IfOk result (IsHeading style) }
    {
        let mut text = Vec::new(alloc);
        if let LineStyle::Commas = style {
            text.extend_from_slice(b"time,group,bus,word,source,age_us,receiver,refused\n")?;
        }
        // no slot of a simulation has this number
        let begin = SlotBegin {
            group: 0,
            slot: u64::MAX,
            end: 0,
            at: 64,
            room: [0; 64],
        };
        Ok(PendingLines { text, begin })
    }
}

/// Writes what separates the fields of a line before the bytes that begin at `end`, and gives its start.
#[inline(always)]
fn put_separator(room: &mut [u8], end: usize, style: LineStyle) -> usize
    requires { (1 ≤ end) × (end ≤ length room.old) }
    ensures start { result + 1 ≡ end }
    ensures written { drop result room.new ≡ separator style ++ drop end room.old }
    ensures size { length room.new ≡ length room.old }
{
    match style {
        LineStyle::Commas => put_text(room, end, b","),
        _ => put_text(room, end, b" "),
    }
}

/// Writes what separates the group and the bus of a line before the bytes that begin at `end`, and gives its start.
fn put_bus_separator(room: &mut [u8], end: usize, style: LineStyle) -> usize
    requires { (1 ≤ end) × (end ≤ length room.old) }
    ensures start { result + 1 ≡ end }
    ensures written { drop result room.new ≡ bus_separator style ++ drop end room.old }
    ensures size { length room.new ≡ length room.old }
{
    match style {
        LineStyle::Log => put_text(room, end, b"."),
        _ => put_separator(room, end, style),
    }
}

/// Writes what ends the line of a word that is sent before the bytes that begin at `end`, and gives its start.
#[inline(always)]
fn put_end(room: &mut [u8], end: usize, style: LineStyle) -> usize
    requires { (3 ≤ end) × (end ≤ length room.old) }
    ensures start { (result ≤ end) × (end ≤ result + 3) }
    ensures written { drop result room.new ≡ sent_end style ++ drop end room.old }
    ensures size { length room.new ≡ length room.old }
{
    match style {
        LineStyle::Commas => put_text(room, end, b",,\n"),
        _ => put_text(room, end, b"\n"),
    }
}

impl LineWriter {
    /// The name of a group; nothing if there is none. It has few bytes.
    #[tactic(auto, using(crate::proofs::ShortNames::group_short))]
    fn group_name(&self, group: usize) -> &[u8]
        requires names { HasStationNames self.now.names self.now.proposal }
        ensures name { result.now ≡ name_at (naming_of self.now.proposal.station).groups group }
        ensures short { length result.now ≤ 16 }
    {
        self.proposal.equipment().rows_are_sound();
        self.names.group_name(group)
    }

    /// The name of a source; nothing if there is none. It has few bytes.
    #[tactic(auto, using(crate::proofs::ShortNames::source_short))]
    #[inline(always)]
    fn source_name(&self, source: usize) -> &[u8]
        requires names { HasStationNames self.now.names self.now.proposal }
        ensures name { result.now ≡ name_at (naming_of self.now.proposal.station).sources source }
        ensures short { length result.now ≤ 16 }
    {
        self.proposal.equipment().rows_are_sound();
        self.names.source_name(source)
    }

    /// The name of a receiver; nothing if there is none. It has few bytes.
    #[tactic(auto, using(crate::proofs::ShortNames::receiver_short))]
    fn receiver_name(&self, receiver: usize) -> &[u8]
        requires names { HasStationNames self.now.names self.now.proposal }
        ensures name { result.now ≡ name_at (naming_of self.now.proposal.station).receivers receiver }
        ensures short { length result.now ≤ 16 }
    {
        self.proposal.equipment().rows_are_sound();
        self.names.receiver_name(receiver)
    }

    /// What the lines of a group's cells in a slot begin with.
    fn slot_begin(&self, group: usize, slot: u64) -> SlotBegin
        requires names { HasStationNames self.now.names self.now.proposal }
        requires known { HasPlannedGroup self.now.proposal group }
        requires few { slot < 300000000000 }
        ensures { BeginsSlot self.now.proposal self.now.style group slot result }
    {
        let rate = rate_of(&self.proposal, group);
        let start = micros_of(rate, slot);
        let end = micros_of(rate, slot + 1);
        let mut room = [0u8; 64];
        let at = put_bus_separator(&mut room, 64, self.style);
        let at = put_text(&mut room, at, self.group_name(group));
        let at = put_separator(&mut room, at, self.style);
        let at = put_decimal(&mut room, at, start);
        SlotBegin {
            group,
            slot,
            end,
            at,
            room,
        }
    }

    /// Writes the source of a word that is sent, and its age, with what ends the line, before the bytes that begin at
    /// `end`, and gives its start.
    #[inline(always)]
    fn put_origin(&self, room: &mut [u8], end: usize, source: usize, age: u64) -> usize
        requires names { HasStationNames self.now.names self.now.proposal }
        requires room { (41 ≤ end) × (end ≤ length room.old) }
        ensures start { (result ≤ end) × (end ≤ result + 41) }
        ensures written { drop result room.new ≡ origin_of self.now.proposal self.now.style source age ++ drop end room.old }
        ensures size { length room.new ≡ length room.old }
    {
        let at = put_end(room, end, self.style);
        let at = put_decimal(room, at, age);
        let at = put_separator(room, at, self.style);
        let at = put_text(room, at, self.source_name(source));
        put_separator(room, at, self.style)
    }

    /// Writes what follows the word in the line of one that is sent before the bytes that begin at `end`, and gives its
    /// start.
    #[inline(always)]
    fn put_word_end(&self, room: &mut [u8], end: usize, source: usize, age: u64) -> usize
        requires names { HasStationNames self.now.names self.now.proposal }
        requires room { (41 ≤ end) × (end ≤ length room.old) }
        ensures start { (result ≤ end) × (end ≤ result + 41) }
        ensures written { drop result room.new ≡ word_end self.now.proposal self.now.style source age ++ drop end room.old }
        ensures size { length room.new ≡ length room.old }
    {
        match self.style {
            LineStyle::Log => put_text(room, end, b"\n"),
            _ => self.put_origin(room, end, source, age),
        }
    }

    /// Writes the rest of the line of a sent word, of this age in microseconds, before the bytes that begin at `end`, and
    /// gives its start.
    #[inline(always)]
    fn put_rest(&self, room: &mut [u8], end: usize, sent: SentWord, age: u64) -> usize
        requires names { HasStationNames self.now.names self.now.proposal }
        requires room { (80 ≤ end) × (end ≤ length room.old) }
        ensures start { (result ≤ end) × (end ≤ result + 80) }
        ensures written { drop result room.new
            ≡ rest_of self.now.proposal self.now.style sent.bus sent.raw sent.source age ++ drop end room.old }
        ensures size { length room.new ≡ length room.old }
    {
        let at = self.put_word_end(room, end, sent.source, age);
        let at = put_hex(room, at, sent.raw);
        let at = put_separator(room, at, self.style);
        put_decimal(room, at, u64::from(sent.bus))
    }

    /// Appends the line of a word that is sent in the slot that lines begin with. If an allocation fails, nothing is
    /// appended.
    #[inline(always)]
    fn push_rest(
        &self,
        text: &mut Vec<u8>,
        begin: &SlotBegin,
        sent: SentWord,
    ) -> Result<(), AllocError>
        requires names { HasStationNames self.now.names self.now.proposal }
        requires begin { BeginsSlot self.now.proposal self.now.style sent.group sent.send.slot begin.now }
        ensures line { Gains result text.old.items text.new.items (sent_line self.now.proposal self.now.style sent) }
        ensures kept { OnErr result (text.new.items ≡ text.old.items) }
    {
        let mut room = [0u8; ROOM];
        let age = begin.end.saturating_sub(sent.send.time);
        let at = self.put_rest(&mut room, ROOM, sent, age);
        let at = put_text(&mut room, at, &begin.room[begin.at..]);
        text.extend_from_slice(&room[at..])
    }

    /// Appends the line of a word that is sent. If an allocation fails, nothing is appended.
    #[inline(always)]
    fn push_sent(&self, lines: &mut PendingLines, sent: SentWord) -> Result<(), AllocError>
        requires names { HasStationNames self.now.names self.now.proposal }
        requires known { IsKnown self.now.proposal (Sends sent) }
        requires begin { IsBeginOfSlot self.now.proposal self.now.style lines.old.begin }
        ensures { PushesLine self.now.proposal self.now.style (Sends sent) lines.old lines.new result }
    {
        if lines.begin.slot != sent.send.slot || lines.begin.group != sent.group {
            lines.begin = self.slot_begin(sent.group, sent.send.slot);
        }
        self.push_rest(&mut lines.text, &lines.begin, sent)
    }

    /// Appends the line of a word that is refused. If an allocation fails, nothing is appended.
    fn push_refused(
        &self,
        text: &mut Vec<u8>,
        word: LogWord,
        refusal: Refusal,
    ) -> Result<(), AllocError>
        requires names { HasStationNames self.now.names self.now.proposal }
        ensures line { Gains result text.old.items text.new.items
            (refused_line self.now.proposal word (refusal_text refusal)) }
        ensures kept { OnErr result (text.new.items ≡ text.old.items) }
    {
        let mut room = [0u8; ROOM];
        let at = put_text(&mut room, ROOM, b"\n");
        let at = put_text(&mut room, at, refusal_reason(refusal));
        let at = put_text(&mut room, at, b" refused ");
        let at = put_hex(&mut room, at, word.raw);
        let at = put_text(&mut room, at, b" ");
        let at = put_text(
            &mut room,
            at,
            self.receiver_name(usize::from(word.receiver)),
        );
        let at = put_text(&mut room, at, b" ");
        let at = put_decimal(&mut room, at, word.time);
        text.extend_from_slice(&room[at..])
    }

    /// Appends the line of a refused word with commas between the fields. Error: an allocation failed; then nothing is
    /// appended.
    fn push_refused_row(
        &self,
        text: &mut Vec<u8>,
        word: LogWord,
        refusal: Refusal,
    ) -> Result<(), AllocError>
        requires names { HasStationNames self.now.names self.now.proposal }
        ensures line { Gains result text.old.items text.new.items
            (refused_row self.now.proposal word (refusal_text refusal)) }
        ensures kept { OnErr result (text.new.items ≡ text.old.items) }
    {
        let mut room = [0u8; ROOM];
        let at = put_text(&mut room, ROOM, b"\n");
        let at = put_text(&mut room, at, refusal_reason(refusal));
        let at = put_text(&mut room, at, b",");
        let at = put_text(
            &mut room,
            at,
            self.receiver_name(usize::from(word.receiver)),
        );
        let at = put_text(&mut room, at, b",,,");
        let at = put_hex(&mut room, at, word.raw);
        let at = put_text(&mut room, at, b",,,");
        let at = put_decimal(&mut room, at, word.time);
        text.extend_from_slice(&room[at..])
    }

    /// Appends the line of a word that is refused, if there is one. If an allocation fails, nothing is appended.
    fn push_refusal(
        &self,
        text: &mut Vec<u8>,
        word: LogWord,
        refusal: Refusal,
    ) -> Result<(), AllocError>
        requires names { HasStationNames self.now.names self.now.proposal }
        ensures line { Gains result text.old.items text.new.items
            (refusal_line_of self.now.proposal self.now.style word (refusal_text refusal)) }
        ensures kept { OnErr result (text.new.items ≡ text.old.items) }
    {
        match self.style {
            LineStyle::Spaces => self.push_refused(text, word, refusal),
            LineStyle::Commas => self.push_refused_row(text, word, refusal),
            LineStyle::Log => Ok(()),
        }
    }

    /// Appends the line of what happens, if there is one. Error: an allocation failed; then nothing is appended.
    #[inline(always)]
    pub fn push(&self, lines: &mut PendingLines, happening: Happening) -> Result<(), AllocError>
        requires names { HasStationNames self.now.names self.now.proposal }
        requires known { IsKnown self.now.proposal happening }
        requires begin { IsBeginOfSlot self.now.proposal self.now.style lines.old.begin }
        ensures { PushesLine self.now.proposal self.now.style happening lines.old lines.new result }
    {
        match happening {
            Happening::Sends(sent) => self.push_sent(lines, sent),
            Happening::Refuses(word, refusal) => {
                self.push_refusal(&mut lines.text, word, refusal)
            }
        }
    }
}
