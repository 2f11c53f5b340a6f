//! What a group sent.
ghost use Rattle.std.specs.Prelude.{◌≡◌, ◌+◌, ◌<◌, ◌++◌, ◌∷◌, [], List, if◌then◌else◌, length, not, slice_index_or, IfOk, OnOk};
ghost use Rattle.a429_judge.specs.declared.duties.Sent.{Sent as SentWord};
ghost use Rattle.a429_judge.specs.Keeping.{AreEmpty, IsGroup, IsUnsent};

use crate::duties::{Duty, Sent};
use crate::facts::Mark;
use crate::outputs::Outputs;
use a429_text::Gathered;
use std::alloc::{AllocError, Global};
use std::marker::Model;

/// A group, and its words in the log of what was sent.
#[derive(Drop)]
pub struct Group {
    outputs: Outputs,
    /// By output: its words.
    sends: Vec<Gathered<Mark>>,
    /// The words that are of none.
    foreign: Gathered<Sent>,
    /// The time of the first word.
    first: Option<u64>,
}

impl Model for Group {
    ghost use Rattle.std.specs.Prelude.{◌≡◌, length};
    ghost use Rattle.a429_judge.specs.Keeping.{Grouped};

    ghost Value = { Grouped };

    ghost view = { λ g. record { outputs = g.outputs; sends = g.sends.items; foreign = g.foreign; first = g.first } };

    ghost invariant = { λ g. length g.sends.items ≡ length g.outputs };
}

/// Adds lists without words. Error: an allocation failed.
pub fn add_lists(
    alloc: Global,
    lists: &mut Vec<Gathered<Mark>>,
    count: usize,
) -> Result<(), AllocError>
    requires { AreEmpty lists.old.items }
    ensures count { OnOk result (length lists.new.items ≡ length lists.old.items + count) }
    ensures empty { OnOk result (AreEmpty lists.new.items) }
{
    for _ in 0..count {
        lists.push(Gathered::new(alloc))?;
    }
    Ok(())
}

/// Adds a word, if it is of none of the outputs.
fn add_foreign(foreign: &mut Gathered<Sent>, own: bool, word: &Sent)
    ensures { foreign.new ≡ foreign.old ++ (if not own then word.now ∷ [] else []) }
{
    if !own {
        foreign.push(*word);
    }
}

impl Group {
    /// A group without words. Error: an allocation failed.
    pub fn new(alloc: Global, duties: Vec<Duty>) -> Result<Group, AllocError>
        ensures { IfOk result (IsUnsent duties.items) }
    {
        let mut sends = Vec::new(alloc);
        add_lists(alloc, &mut sends, duties.len())?;
        Ok(Group {
            outputs: Outputs::new(alloc, duties)?,
            sends,
            foreign: Gathered::new(alloc),
            first: None,
        })
    }

    /// The outputs, in their order.
    pub fn outputs(&self) -> &[Duty]
        ensures { result.now ≡ self.now.outputs }
    {
        self.outputs.duties()
    }

    /// The words of an output. Error: an allocation failed when one was noted.
    pub fn sends(&self, output: usize) -> Result<&[Mark], AllocError>
        requires { output < length self.now.outputs }
        ensures { IfOk result (λ words. words.now ≡ slice_index_or self.now.sends output []) }
    {
        self.sends[output].as_slice()
    }

    /// The words that are of no output. Error: an allocation failed when one was noted.
    pub fn foreign(&self) -> Result<&[Sent], AllocError>
        ensures { IfOk result (λ words. words.now ≡ self.now.foreign) }
    {
        self.foreign.as_slice()
    }

    /// The time of the first word. `None` if there is none.
    pub fn first(&self) -> Option<u64>
        ensures { result ≡ self.now.first }
    {
        self.first
    }

    /// Notes a word of the group.
    pub fn add_word(&mut self, word: &Sent)
        ensures outputs { self.new.outputs ≡ self.old.outputs }
        ensures words { (ws : List SentWord) → IsGroup word.now.group ws self.old → IsGroup word.now.group (ws ++ word.now ∷ []) self.new }
    {
        let own = self.outputs.add_word(&mut self.sends, word);
        add_foreign(&mut self.foreign, own, word);
        self.first = self.first.or(Some(word.mark.time));
    }
}
