//! Files of words, one a line.
ghost use Rattle.std.specs.Prelude.{◌≡◌, IfOk, map, vec_len};
ghost use Rattle.std.specs.List.{range_with_len};
ghost use Rattle.a429_filter.specs.Sources.{at_start};
ghost use Rattle.a429_live.specs.WordsFile.{IsWordsReading, line_arrival, raw_for, words_for};

use a429_console::files::lines::{LineForm, LinesFault, read_lines};
use a429_console::refusals::evidence::Evidence;
use a429_console::refusals::{CommandRefusal, Refused};
use a429_filter::MemoryLine;
use a429_replay::Names;
use a429_text::cut::cut_at;
use a429_word::raw_word;
use std::alloc::{AllocError, Global};

/// A word that comes in at a receiver. Receivers are numbered from 0 in table order.
#[derive(Clone, Copy, PartialEq, Eq)]
pub struct Arrival {
    pub receiver: u8,
    pub raw: u32,
}

/// The word of a line, which is given without its line feed.
#[tactic(auto, unfolding(crate::specs::WordsFile::line_arrival))]
fn read_line(names: &Names, line: &[u8]) -> Option<Arrival>
    ensures { result ≡ line_arrival names.now line.now }
{
    let (receiver, raw) = cut_at(line, b' ')?;
    let receiver = names.receiver(receiver)?;
    Some(Arrival {
        receiver,
        raw: raw_word(raw)?,
    })
}

/// The form of the lines of a file of words: a word for one of the receivers of these names.
#[derive(Clone, Copy)]
struct WordsForm<'a> {
    names: &'a Names,
}

impl LineForm for WordsForm<'_> {
    ghost use Rattle.std.specs.Prelude.{⊤};
    ghost use Rattle.a429_live.specs.WordsFile.{line_arrival};

    type Entry = Arrival;

    ghost states = { λ f. line_arrival f.names.now };

    ghost fits = { λ _ _. ⊤ };

    fn entry(&self, line: &[u8]) -> Option<Arrival> {
        read_line(self.names, line)
    }
}

/// Reads a file of words for the receivers of these names. Errors: `Script` with the number of its first faulty line,
/// from 1, or `Memory` if an allocation fails. A line is faulty if it is not a receiver's name and a word, names no
/// receiver, or does not end with a line feed.
pub fn read_words(alloc: Global, names: &Names, bytes: &[u8]) -> Result<Vec<Arrival>, Refused>
    ensures { IsWordsReading names.now bytes.now result }
{
    match read_lines(alloc, &WordsForm { names }, bytes) {
        Ok(arrivals) => Ok(arrivals),
        Err(LinesFault::Line(number)) => {
            let evidence = names.line_evidence(alloc, bytes, number, 0);
            Err(Refused::with(CommandRefusal::Script(number), Evidence::of_line(evidence)))
        }
        Err(LinesFault::NoMemory) => Err(Refused::plain(CommandRefusal::Memory)),
    }
}

/// The raw word, if it comes in at this receiver.
fn raw_for(receiver: usize, arrival: Arrival) -> Option<u32>
    ensures { result ≡ raw_for receiver arrival }
{
    if usize::from(arrival.receiver) == receiver {
        Some(arrival.raw)
    } else {
        None
    }
}

/// The words for one receiver, in order.
fn words_for(alloc: Global, arrivals: &[Arrival], receiver: usize) -> Result<Vec<u32>, AllocError>
    ensures { IfOk result (λ words. words.items ≡ words_for arrivals.now receiver) }
{
    arrivals
        .iter()
        .filter_map(|arrival| raw_for(receiver, *arrival))
        .collect(alloc)
}

/// The lines of this number of receivers. Each gives the words for its receiver, in order. Error: an allocation failed.
#[tactic(auto, using(crate::proofs::WordsLines::numbers_left))]
pub fn line_sources(
    alloc: Global,
    arrivals: &[Arrival],
    receivers: usize,
) -> Result<Vec<MemoryLine>, AllocError>
    ensures many { IfOk result (λ lines. vec_len lines ≡ receivers) }
    ensures words { IfOk result (λ lines. lines.items ≡ map (λ r. at_start (words_for arrivals.now r)) (range_with_len 0 receivers)) }
{
    let mut lines = Vec::new(alloc);
    for receiver in 0..receivers {
        lines.push(MemoryLine::from_words(words_for(alloc, arrivals, receiver)?))?;
    }
    Ok(lines)
}
