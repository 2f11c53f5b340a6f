//! Words that two sources would be for, and words that a group would send twice.
//!
//! They are found by the numbers in the rows of the record. If the table has no fault of an earlier kind, these say what it
//! says: then there are few receivers, each name is known, and labels and SDIs are right.

ghost use Rattle.std.specs.Prelude.{◌≡◌, ◌++◌, ◌<◌, ◌∷◌, [], false, IfOk, OnOk, length, map, option_map, slice_get, slice_index_or, slice_set};
ghost use Rattle.std.specs.Option.{option_copied};
ghost use Rattle.a429_table.specs.Repeats.{AreRepeatsIn, bits_of, free, group_repeats, is_taken, output_flag, output_words, repeats_among, source_flag, source_words, with_words};

use crate::build::WordRows;
use crate::fault::TablePlace;
use crate::names::nth_row;
use a429_equipment::{OutputRow, SourceRow};
use a429_word::Sdi;
use std::alloc::{AllocError, Global};

/// Whether each source repeats an earlier one, and each output an earlier one of its group.
#[derive(Drop)]
pub struct Repeats {
    sources: Vec<bool>,
    outputs: Vec<Vec<bool>>,
}

/// The words that a source is for or that an output sends: a place, and there a bit for each SDI.
#[derive(Clone, Copy)]
pub struct Words {
    place: usize,
    bits: u8,
}

/// The bits that rows take at each place, and which of the rows repeat an earlier one.
#[derive(Drop)]
struct NotedRows {
    taken: Vec<u8>,
    repeats: Vec<bool>,
}

/// The bit of an SDI, or these for any.
fn bits_of(any: u8, sdi: Option<Sdi>) -> u8
    ensures { result ≡ bits_of any sdi }
{
    match sdi {
        Some(sdi) => 1 << sdi.value(),
        None => any,
    }
}

/// The words that a source is for. Any SDI meets each.
fn source_words(source: &SourceRow) -> Words
    ensures words { result ≡ source_words source.now }
    ensures within { result.place < 4096 }
{
    Words {
        place: 256 * source.receiver.min(15) + usize::from(source.label.value()),
        bits: bits_of(15, source.sdi),
    }
}

/// The words that an output sends. Any SDI meets any alone.
fn output_words(sources: &[SourceRow], output: &OutputRow) -> Words
    ensures words { result ≡ output_words sources.now output.now }
    ensures within { result.place < 256 }
{
    match nth_row(sources, output.source) {
        Some(source) => Words {
            place: usize::from(source.label.value()),
            bits: bits_of(16, source.sdi),
        },
        None => Words { place: 0, bits: 0 },
    }
}

/// Takes the bits of words, and answers whether one of them was taken.
fn take(taken: &mut Vec<u8>, words: Words) -> bool
    requires { words.place < length taken.old.items }
    ensures met { result ≡ is_taken taken.old.items words }
    ensures taken { taken.new.items ≡ with_words taken.old.items words }
{
    let before = taken[words.place];
    taken[words.place] = before | words.bits;
    before & words.bits != 0
}

impl NotedRows {
    /// As many rows, none of them noted yet, and as many places, all free.
    #[tactic(auto, unfolding(crate::specs::Repeats::free))]
    fn none(alloc: Global, rows: usize, places: usize) -> Result<NotedRows, AllocError>
        ensures taken { IfOk result (λ r. r.taken.items ≡ free places) }
        ensures places { IfOk result (λ r. length r.taken.items ≡ places) }
        ensures rows { IfOk result (λ r. length r.repeats.items ≡ rows) }
    {
        Ok(NotedRows {
            taken: vec![in alloc; 0; places]?,
            repeats: vec![in alloc; false; rows]?,
        })
    }

    /// Notes a row with these words.
    fn note(&mut self, row: usize, words: Words)
        requires row { row < length self.old.repeats.items }
        requires place { words.place < length self.old.taken.items }
        ensures repeats { self.new.repeats.items ≡ slice_set self.old.repeats.items row (is_taken self.old.taken.items words) }
        ensures taken { self.new.taken.items ≡ with_words self.old.taken.items words }
    {
        self.repeats[row] = take(&mut self.taken, words);
    }
}

fn source_repeats(alloc: Global, sources: &[SourceRow]) -> Result<Vec<bool>, AllocError>
    ensures { IfOk result (λ repeats. repeats.items ≡ repeats_among 4096 (map source_words sources.now)) }
{
    let mut rows = NotedRows::none(alloc, sources.len(), 4096)?;
    for (row, source) in sources.iter().enumerate() {
        rows.note(row, source_words(source));
    }
    Ok(rows.repeats)
}

fn output_repeats(
    alloc: Global,
    sources: &[SourceRow],
    outputs: &[OutputRow],
) -> Result<Vec<bool>, AllocError>
    ensures { IfOk result (λ repeats. repeats.items ≡ group_repeats sources.now outputs.now) }
{
    let mut rows = NotedRows::none(alloc, outputs.len(), 256)?;
    for (row, output) in outputs.iter().enumerate() {
        rows.note(row, output_words(sources, output));
    }
    Ok(rows.repeats)
}

fn group_repeats(
    alloc: Global,
    sources: &[SourceRow],
    groups: &[Vec<OutputRow>],
) -> Result<Vec<Vec<bool>>, AllocError>
    ensures { IfOk result (λ all. map (λ v. v.items) all.items ≡ map (group_repeats sources.now) (map (λ v. v.items) groups.now)) }
{
    let mut repeats = Vec::new(alloc);
    for outputs in groups {
        repeats.push(output_repeats(alloc, sources, outputs)?)?;
    }
    Ok(repeats)
}

fn flag(flags: &[bool], row: usize) -> bool
    ensures { result ≡ slice_index_or flags.now row false }
{
    match flags.get(row) {
        Some(flag) => *flag,
        None => false,
    }
}

impl Repeats {
    /// The repeats among these rows. Error: an allocation failed.
    pub fn of(alloc: Global, rows: &WordRows) -> Result<Repeats, AllocError>
        ensures { IfOk result (AreRepeatsIn rows.now.sources.items (map (λ v. v.items) rows.now.outputs.items)) }
    {
        let sources = source_repeats(alloc, &rows.sources)?;
        let outputs = group_repeats(alloc, &rows.sources, &rows.outputs)?;
        Ok(Repeats { sources, outputs })
    }

    /// Whether an earlier source takes the same word.
    pub fn has_source(&self, place: TablePlace) -> bool
        ensures { result ≡ source_flag self.now place }
    {
        match place {
            TablePlace::Source(row) => flag(&self.sources, row),
            _ => false,
        }
    }

    /// Whether an earlier output of the group has a source of the same label and SDI.
    pub fn has_output(&self, place: TablePlace) -> bool
        ensures { result ≡ output_flag self.now place }
    {
        match place {
            TablePlace::Output(group, row) => match nth_row(&self.outputs, group) {
                Some(flags) => flag(flags, row),
                None => false,
            },
            _ => false,
        }
    }
}
