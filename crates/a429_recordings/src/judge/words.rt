//! Words of the logs of a box.
ghost use Rattle.std.specs.Prelude.{◌≡◌, ◌==◌, ◌<◌, length, option_map, position, IfSome};
ghost use Rattle.a429_logs.specs.LogRows.{stated_by};
ghost use Rattle.a429_recordings.specs.BoxLogs.{at_number, box_word, bus_named, bus_place, has_place, other_log, part_word, place_named, sent_place, word_in, words_in};
ghost use Rattle.a429_console.specs.Names.{number_named};

use crate::logs::keeping::{KeepFault, WordKeeper, keep_logs};
use crate::logs::views::LogView;
use a429_console::files::FileReader;
use a429_console::hints::warnings::Warning;
use a429_console::refusals::Refused;
use a429_console::refusals::evidence::{LineEvidence, LogRefusal};
use a429_logs::{Reading, StatedWord};
use a429_replay::Names;
use a429_word::decimal_number;
use std::alloc::Global;

/// The full stop between the name of a group and the number of a bus.
const DOT: u8 = b'.';

/// Which words of a box are read: what came in, or what was sent.
#[derive(Clone, Copy)]
pub enum BoxLog {
    Heard,
    Sent,
}

impl BoxLog {
    /// The other kind of words.
    fn other(self) -> BoxLog
        ensures { result ≡ other_log self }
    {
        match self {
            BoxLog::Heard => BoxLog::Sent,
            BoxLog::Sent => BoxLog::Heard,
        }
    }
}

/// Which words of a log are read, and whether it has both kinds of them.
#[derive(Clone, Copy)]
pub struct BoxPart {
    pub log: BoxLog,
    pub is_mixed: bool,
}

/// The place of a word: the receiver of this number, or the group of this number and one of its buses. `None`: the log does
/// not say the bus.
#[derive(Clone, Copy)]
pub struct Place {
    pub number: u8,
    pub bus: Option<u32>,
}

/// A word of a log: its time in microseconds, less than 10^14; its place; and its 32 bits.
#[derive(Clone, Copy)]
pub struct BoxWord {
    pub time: u64,
    pub place: Place,
    pub raw: u32,
}

/// The words of logs, and how the log after them would be read.
#[derive(Drop)]
pub struct BoxWords<'a> {
    pub words: Vec<BoxWord>,
    pub next: Reading<'a>,
}

/// A bus by its number; the plan need not have it. `None` if the text is no number below 2^32.
fn bus_named(text: &[u8]) -> Option<u32>
    ensures { result ≡ bus_named text.now }
{
    let bus = decimal_number(text)?;
    if bus < 4_294_967_296 {
        Some(bus as u32)
    } else {
        None
    }
}

/// A group, by its name.
fn group_place(names: &Names, name: &[u8]) -> Option<Place>
    ensures { result ≡ option_map at_number (number_named names.now.groups name.now) }
{
    match names.group(name) {
        Some(number) => Some(Place { number, bus: None }),
        None => None,
    }
}

/// A receiver, by its name.
fn receiver_place(names: &Names, name: &[u8]) -> Option<Place>
    ensures { result ≡ option_map at_number (number_named names.now.receivers name.now) }
{
    match names.receiver(name) {
        Some(number) => Some(Place { number, bus: None }),
        None => None,
    }
}

/// A bus of a group, by the names of both.
fn bus_place(names: &Names, group: &[u8], bus: &[u8]) -> Option<Place>
    ensures { result ≡ bus_place names.now group.now bus.now }
{
    let Some(number) = names.group(group) else {
        return None;
    };
    match bus_named(bus) {
        Some(bus) => Some(Place {
            number,
            bus: Some(bus),
        }),
        None => None,
    }
}

/// The place of the full stop in a name.
fn dot_in(name: &[u8]) -> Option<usize>
    ensures place { result ≡ position (λ c. c == 46) name.now }
    ensures within { IfSome result (λ at. at < length name.now) }
{
    name.iter().position(|byte| *byte == DOT)
}

/// The place of a word that was sent, by `GROUP` or `GROUP.BUS`. `None` if no group has that name, or BUS is no number.
#[tactic(auto, unfolding(crate::specs::BoxLogs::sent_place))]
fn sent_place(names: &Names, name: &[u8]) -> Option<Place>
    ensures { result ≡ sent_place names.now name.now }
{
    match dot_in(name) {
        None => group_place(names, name),
        Some(at) => bus_place(names, &name[..at], &name[at + 1..]),
    }
}

/// The place of a word, by its name. `None` if there is no such place.
fn place_named(names: &Names, log: BoxLog, name: &[u8]) -> Option<Place>
    ensures { result ≡ place_named names.now log name.now }
{
    match log {
        BoxLog::Heard => receiver_place(names, name),
        BoxLog::Sent => sent_place(names, name),
    }
}

/// Whether a name stands for a place of this kind.
fn has_place(names: &Names, log: BoxLog, name: &[u8]) -> bool
    ensures { result ≡ has_place names.now log name.now }
{
    place_named(names, log, name).is_some()
}

/// Why a word of a log is at no place.
fn no_place(part: BoxPart) -> LogRefusal {
    match part {
        BoxPart { is_mixed: true, .. } => LogRefusal::Neither,
        BoxPart {
            log: BoxLog::Heard,
            ..
        } => LogRefusal::Receiver,
        BoxPart {
            log: BoxLog::Sent,
            ..
        } => LogRefusal::Group,
    }
}

/// A word of the kind that is read, at its place. Error: its time is not below 10^14 us, or there is no place of its name.
#[tactic(auto, unfolding(crate::specs::BoxLogs::box_word))]
fn own_word(names: &Names, part: BoxPart, word: StatedWord<'_>) -> Result<BoxWord, LogRefusal>
    ensures { word_in result ≡ box_word names.now part.log (stated_by word.entry) }
{
    if word.time >= 100_000_000_000_000 {
        return Err(LogRefusal::Late);
    }
    match place_named(names, part.log, word.name) {
        Some(place) => Ok(BoxWord {
            time: word.time,
            place,
            raw: word.raw,
        }),
        None => Err(no_place(part)),
    }
}

/// The word that a log has in the part that is read. `None`: it is of the other kind, in a log that has both. Error: its name stands for
/// places of both kinds, its time is not below 10^14 us, or there is no place of its name.
#[tactic(auto, unfolding(crate::specs::BoxLogs::mixed_word))]
pub fn part_word(
    names: &Names,
    part: BoxPart,
    word: StatedWord<'_>,
) -> Result<Option<BoxWord>, LogRefusal>
    ensures { words_in result ≡ part_word names.now part (stated_by word.entry) }
{
    if part.is_mixed && has_place(names, part.log.other(), word.name) {
        if has_place(names, part.log, word.name) {
            return Err(LogRefusal::Both);
        }
        return Ok(None);
    }
    match own_word(names, part, word) {
        Ok(word) => Ok(Some(word)),
        Err(why) => Err(why),
    }
}

/// The words of logs at places of these names.
#[derive(Drop)]
struct PlaceWords<'a> {
    names: &'a Names,
    part: BoxPart,
    words: Vec<BoxWord>,
}

impl WordKeeper for PlaceWords<'_> {
    ghost use Rattle.std.specs.Prelude.{ℕ};
    ghost use Rattle.a429_recordings.specs.BoxLogs.{part_word};
    ghost use Rattle.a429_recordings.specs.declared.judge.words.BoxWord.{BoxWord};

    ghost Item = { BoxWord };

    ghost items = { λ kept. part_word kept.names.now kept.part };

    ghost kept = { λ kept. kept.words.items };

    ghost Fixed = { ℕ };

    ghost fixed = { λ _. 0 };

    /// Keeps a word, unless it is of the other kind. Error: it makes its line faulty, or an allocation failed.
    fn keep(&mut self, word: StatedWord<'_>) -> Result<(), KeepFault> {
        match part_word(self.names, self.part, word) {
            Ok(Some(word)) => self.words.push(word)?,
            Ok(None) => {}
            Err(why) => return Err(KeepFault::Line(why)),
        }
        Ok(())
    }

    fn line_evidence(&self, alloc: Global, text: &[u8], line: usize) -> Option<LineEvidence> {
        self.names.line_evidence(alloc, text, line, 0)
    }
}

/// Reads a part of logs, one after another as if they were one, with words as they are taken. What is passed over is not noted. Error:
/// the number of the first faulty line, from 1 in its log, or an allocation failed.
pub fn read_words<'a, F: FileReader>(
    alloc: Global,
    files: &F,
    names: &Names,
    view: LogView<'a>,
    part: BoxPart,
    reading: Reading<'a>,
    texts: &'a [Vec<Vec<u8>>],
) -> Result<BoxWords<'a>, Refused> {
    let mut passed: Vec<Warning> = Vec::new(alloc);
    let mut kept = PlaceWords {
        names,
        part,
        words: Vec::new(alloc),
    };
    match keep_logs(
        alloc,
        files,
        &mut kept,
        view,
        reading,
        0,
        texts,
        &mut passed,
    ) {
        Ok(next) => Ok(BoxWords {
            words: kept.words,
            next,
        }),
        Err(refusal) => Err(refusal),
    }
}
