//! The outputs of a group by their labels.
ghost use Rattle.std.specs.Prelude.{◌≡◌, ◌<◌, ◌++◌, ℕ, length, slice_index_or, IfOk};
ghost use Rattle.std.specs.List.{list_any};
ghost use Rattle.a429_word.specs.Bits.{label_of};
ghost use Rattle.a429_judge.specs.Keeping.{AreLinked, AreNoted, IsIndexed, IsNext, marks_if};
ghost use Rattle.a429_judge.specs.Recordings.{fits};

use crate::duties::{Duty, Sent};
use crate::facts::Mark;
use a429_text::Gathered;
use a429_word::Word;
use std::alloc::{AllocError, Global};
use std::marker::Model;

/// The outputs of a group.
#[derive(Drop)]
pub struct Outputs {
    duties: Vec<Duty>,
    /// By label: the number of the first output with it, or the number of outputs if there is none.
    first: Vec<usize>,
    /// By output: the number of the next one with its label, or the number of outputs if there is none.
    next: Vec<usize>,
}

impl Model for Outputs {
    ghost use Rattle.std.specs.Prelude.{List};
    ghost use Rattle.a429_judge.specs.declared.duties.Duty.{Duty};
    ghost use Rattle.a429_judge.specs.Keeping.{IsIndexed};

    ghost Value = { List Duty };

    ghost view = { λ o. o.duties.items };

    ghost invariant = { λ o. IsIndexed o.duties.items o.first.items o.next.items };
}

/// Indexes the outputs by their labels. Before, each label has the number of outputs as its first one.
fn index(duties: &[Duty], first: &mut [usize], next: &mut [usize])
    requires labels { length first.old ≡ 256 }
    requires places { length next.old ≡ length duties.now }
    requires none { (label d : ℕ) → label < 256 → slice_index_or first.old label d ≡ length duties.now }
    ensures { IsIndexed duties.now first.new next.new }
{
    let mut place = duties.len();
    while place > 0 {
        place -= 1;
        let label = usize::from(duties[place].label);
        next[place] = first[label];
        first[label] = place;
    }
}

/// Adds a word to the words of an output, if it is of it. Whether it is.
fn add_if_fits(sends: &mut Gathered<Mark>, duty: &Duty, word: &Sent) -> bool
    ensures sends { sends.new ≡ sends.old ++ marks_if (fits duty.now word.now) word.now.mark }
    ensures fits { result ≡ fits duty.now word.now }
{
    let is_fitting = duty.fits(word);
    if is_fitting {
        sends.push(word.mark);
    }
    is_fitting
}

/// Adds a word to the words of each output that it is of, from the first output with its label on. Whether there is one.
fn add_from(
    sends: &mut Vec<Gathered<Mark>>,
    duties: &[Duty],
    next: &[usize],
    first: usize,
    word: &Sent,
) -> bool
    requires lists { length sends.old.items ≡ length duties.now }
    requires next { AreLinked duties.now next.now }
    requires first { IsNext duties.now (label_of word.now.mark.raw) 0 first }
    ensures sends { AreNoted duties.now word.now sends.old.items sends.new.items }
    ensures own { result ≡ list_any (λ d. fits d word.now) duties.now }
{
    let mut own = false;
    let mut place = first;
    while place < duties.len() {
        own |= add_if_fits(&mut sends[place], &duties[place], word);
        place = next[place];
    }
    own
}

impl Outputs {
    /// The outputs of a group with an index by their labels. Error: an allocation failed.
    pub fn new(alloc: Global, duties: Vec<Duty>) -> Result<Outputs, AllocError>
        ensures { IfOk result (λ outputs. outputs ≡ duties.items) }
    {
        let mut first = Vec::from_elem(alloc, duties.len(), 256)?;
        let mut next = Vec::from_elem(alloc, duties.len(), duties.len())?;
        index(&duties, &mut first, &mut next);
        Ok(Outputs {
            duties,
            first,
            next,
        })
    }

    /// The outputs, in their order.
    pub fn duties(&self) -> &[Duty]
        ensures { result.now ≡ self.now }
    {
        &self.duties
    }

    /// Adds a word to the words of each output that it is of. Whether there is one.
    pub fn add_word(&self, sends: &mut Vec<Gathered<Mark>>, word: &Sent) -> bool
        requires { length sends.old.items ≡ length self.now }
        ensures sends { AreNoted self.now word.now sends.old.items sends.new.items }
        ensures own { result ≡ list_any (λ d. fits d word.now) self.now }
    {
        let Ok(bits) = Word::from_raw(word.mark.raw) else {
            return false;
        };
        let first = self.first[usize::from(bits.label().value())];
        add_from(sends, &self.duties, &self.next, first, word)
    }
}
