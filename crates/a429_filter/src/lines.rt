//! Lines whose words are in memory.
ghost use Rattle.std.specs.Prelude.{◌≡◌, ◌++◌, IfOk, filter_map};
ghost use Rattle.a429_line.specs.Reports.{reports};
ghost use Rattle.a429_filter.specs.Sources.{at_start, raw_found};

use crate::sources::{LineSource, SourceFault};
use a429_line::{Found, LineReader, Symbol};
use std::alloc::{AllocError, Global};
use std::marker::Model;

/// A line whose raw words are in memory. It never fails, and it takes no memory for a word.
#[derive(Drop)]
pub struct MemoryLine {
    words: Vec<u32>,
    next: usize,
    at_end: bool,
}

impl Model for MemoryLine {
    ghost use Rattle.std.specs.Prelude.{◌≤◌, length, take, drop};
    ghost use Rattle.a429_filter.specs.Sources.{Memory};

    ghost Value = { Memory };

    ghost view = { λ line. record { given = take line.next line.words.items; left = drop line.next line.words.items; at_end = line.at_end } };

    ghost invariant = { λ line. line.next ≤ length line.words.items };
}

impl LineSource for MemoryLine {
    ghost use Rattle.std.specs.Prelude.{Some};
    ghost use Rattle.a429_filter.specs.Sources.{all_given};

    ghost given = { λ line. line.given };

    // its end says that all was given
    ghost ended = { λ line. all_given line };

    ghost failed = { λ line. 0 };

    ghost left = { λ line. Some line.left };

    fn next(&mut self) -> Result<Option<u32>, SourceFault> {
        let word = self.words.get(self.next).copied();
        self.at_end = word.is_none();
        if word.is_some() {
            self.next += 1;
        }
        Ok(word)
    }

    fn failures(&self) -> u64 {
        0
    }
}

impl MemoryLine {
    /// A line that gives these words, in order.
    pub fn from_words(words: Vec<u32>) -> Self
        ensures { result ≡ at_start words.items }
    {
        MemoryLine {
            words,
            next: 0,
            at_end: false,
        }
    }

    /// A line that gives the raw numbers of the Word and Parity reports of these symbols, in order. Error: an
    /// allocation failed.
    pub fn from_symbols(alloc: Global, symbols: &[Symbol]) -> Result<Self, AllocError>
        ensures { IfOk result (λ line. line ≡ at_start (filter_map raw_found (reports symbols.now))) }
    {
        let mut found = Vec::new(alloc);
        LineReader::new().feed(symbols, &mut found)?;
        Ok(MemoryLine::from_words(raws_of(alloc, &found)?))
    }
}

/// The raw number of a report of 32 bits.
fn raw_of(found: Found) -> Option<u32>
    ensures { result ≡ raw_found found }
{
    match found {
        Found::Word(word) => Some(word.raw()),
        Found::Parity(raw) => Some(raw),
        Found::Short(_) => None,
        Found::Long => None,
        Found::Gap(_) => None,
    }
}

fn raws_of(alloc: Global, found: &[Found]) -> Result<Vec<u32>, AllocError>
    ensures { IfOk result (λ words. words.items ≡ filter_map raw_found found.now) }
{
    found
        .iter()
        .filter_map(|report| raw_of(*report))
        .collect(alloc)
}
