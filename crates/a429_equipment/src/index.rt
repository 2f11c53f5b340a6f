//! The source that a word is for, looked up by the word's receiver, label and SDI.

ghost use Rattle.std.specs.Prelude.{◌≡◌, ◌<◌, ◌≤◌, ◌+◌, ◌*◌, All, length, IfOk};
ghost use Rattle.a429_equipment.specs.Index.{GainSource, IsIndex, entry_at, place, with_words};

use crate::rows::{ReceiverRow, SourceRow};
use a429_word::{Label, Sdi};
use std::alloc::{AllocError, Global};

/// The number of the first source of each receiver, label and SDI. There are at most 256 sources.
#[derive(Drop)]
pub struct Index {
    places: Vec<Option<u8>>,
}

impl Index {
    /// Numbers the sources of these receivers. Error: an allocation failed.
    pub fn of(
        alloc: Global,
        receivers: &[ReceiverRow],
        sources: &[SourceRow],
    ) -> Result<Index, AllocError>
        requires few_receivers { length receivers.now ≤ 16 }
        requires few_sources { length sources.now ≤ 256 }
        requires known { All (λ s. s.receiver < length receivers.now) sources.now }
        ensures { IfOk result (λ index. IsIndex index.places.items (length receivers.now) sources.now) }
    {
        let mut places = vec![in alloc; None; 1024 * receivers.len()]?;
        for (number, source) in sources.iter().enumerate() {
            note_source(&mut places, number as u8, source);
        }
        Ok(Index { places })
    }

    /// A copy of the index. Error: an allocation failed.
    pub fn copied(&self, alloc: Global) -> Result<Index, AllocError>
        ensures { IfOk result (λ index. index.places.items ≡ self.now.places.items) }
    {
        let places = Vec::from_slice(alloc, self.places.as_slice())?;
        Ok(Index { places })
    }

    /// The number of the first source of a receiver with this label and SDI. `None` if there is none.
    pub fn source_of(&self, receiver: usize, label: Label, sdi: Sdi) -> Option<usize>
        requires few { receiver < 16 }
        requires known { 1024 * receiver + 1024 ≤ length self.now.places.items }
        ensures entry { result ≡ entry_at self.now.places.items receiver label sdi }
        ensures label { label < 256 }
        ensures sdi { sdi < 4 }
    {
        let number = self.places[place(receiver, label, sdi)];
        number.map(usize::from)
    }
}

#[tactic(auto, unfolding(crate::specs::Index::place))]
fn place(receiver: usize, label: Label, sdi: Sdi) -> usize
    requires { receiver < 16 }
    ensures place { result ≡ place receiver label sdi }
    ensures within { result < 1024 * receiver + 1024 }
    ensures label { label < 256 }
    ensures sdi { sdi < 4 }
{
    1024 * receiver + (4 * usize::from(label.value()) + usize::from(sdi.value()))
}

/// Gives a source its words of one SDI, but those that an earlier source has.
#[tactic(auto, unfolding(crate::specs::Index::with_words))]
fn note_words(places: &mut Vec<Option<u8>>, number: u8, source: &SourceRow, sdi: Sdi)
    requires few { source.now.receiver < 16 }
    requires known { 1024 * source.now.receiver + 1024 ≤ length places.old.items }
    ensures words { places.new.items ≡ with_words places.old.items number source.now sdi }
    ensures size { length places.new.items ≡ length places.old.items }
    ensures label { source.now.label < 256 }
{
    let place = place(source.receiver, source.label, sdi);
    if source.sdi.is_none_or(|own| own == sdi) {
        places[place] = places[place].or(Some(number));
    }
}

/// Gives a source its words, but those that an earlier source has.
fn note_source(places: &mut Vec<Option<u8>>, number: u8, source: &SourceRow)
    requires few { source.now.receiver < 16 }
    requires known { 1024 * source.now.receiver + 1024 ≤ length places.old.items }
    ensures size { length places.new.items ≡ length places.old.items }
    ensures given { GainSource places.old.items places.new.items number source.now }
{
    for sdi in 0..4 {
        note_words(places, number, source, Sdi::new(sdi));
    }
}
