//! Names of a station: of its receivers, sources and groups, and the numbers that they stand for.
ghost use Rattle.std.specs.Prelude.{◌≡◌, ◌++◌, ◌∷◌, [], IfOk, IfSome, codes, map, string_bytes};
ghost use Rattle.a429_word.specs.Written.{Gains};
ghost use Rattle.a429_slots.specs.declared.answers.Answer.TheVariants.{Accepted};
ghost use Rattle.a429_replay.specs.AnswerLines.{answer_line};
ghost use Rattle.a429_console.specs.Names.{name_at, naming_of, number_named};
ghost use Rattle.a429_replay.specs.NameLists.{BeginsWithName};

mod guesses;
mod lists;

use crate::names::lists::NameList;
use a429_console::refusals::evidence::LineEvidence;
use a429_equipment::{Equipment, GroupRow, ReceiverRow, SourceRow};
use std::alloc::{AllocError, Global};
use std::marker::Model;

/// The name of a source, and the line of a word of it that is accepted.
#[derive(Drop)]
struct SourceName {
    name: String,
    accepted: Vec<u8>,
}

impl Model for SourceName {
    ghost use Rattle.std.specs.Prelude.{◌≡◌, ◌++◌, ◌∷◌, [], ℕ, List, codes, string_bytes};

    ghost Value = { List ℕ };

    ghost view = { λ s. string_bytes s.name };

    ghost invariant = { λ s. s.accepted.items ≡ codes "accepted " ++ string_bytes s.name ++ 10 ∷ [] };
}

/// Appends the line of an accepted word of the source of this name.
fn push_accepted(text: &mut Vec<u8>, name: &str) -> Result<(), AllocError>
    ensures { Gains result text.old.items text.new.items (codes "accepted " ++ name.now ++ 10 ∷ []) }
{
    text.extend_from_slice(b"accepted ")?;
    text.extend_from_slice(name.as_bytes())?;
    text.extend_from_slice(b"\n")
}

impl SourceName {
    fn of(alloc: Global, name: &str) -> Result<SourceName, AllocError>
        ensures { IfOk result (λ s. s ≡ name.now) }
    {
        let mut accepted = Vec::new(alloc);
        push_accepted(&mut accepted, name)?;
        let name = String::from_str(alloc, name)?;
        Ok(SourceName { name, accepted })
    }

    /// Its bytes.
    fn bytes(&self) -> &[u8]
        ensures { result.now ≡ self.now }
    {
        self.name.as_bytes()
    }
}

/// The names of a station's receivers, sources and groups, each in table order.
pub struct Names {
    receivers: NameList,
    sources: Vec<SourceName>,
    groups: NameList,
}

// Written by hand, a drop is one call in the proofs of its owners.
impl Drop for Names {
    fn drop(self) {
        let Self {
            receivers: _,
            sources: _,
            groups: _,
        } = self;
    }
}

impl Model for Names {
    ghost use Rattle.a429_console.specs.Names.{Naming};

    ghost Value = { Naming };

    ghost view = { λ n. record {
      receivers = n.receivers;
      sources = n.sources.items;
      groups = n.groups;
    } };
}

impl Names {
    /// Gathers the names of an equipment. Error: an allocation failed.
    pub fn of(alloc: Global, equipment: &Equipment) -> Result<Names, AllocError>
        ensures { IfOk result (λ names. names ≡ naming_of equipment.now) }
    {
        equipment.rows_are_sound();
        let receivers = receiver_names(alloc, equipment.receivers())?;
        let sources = source_names(alloc, equipment.sources())?;
        let groups = group_names(alloc, equipment.groups())?;
        Ok(Names {
            receivers: NameList::of(receivers, b' '),
            sources,
            groups: NameList::of(groups, b'\n'),
        })
    }

    /// The refused line of this number of a text with these names, for a hint. The text can publish this number of
    /// further tables. `None` if an allocation fails.
    pub fn line_evidence(
        &self,
        alloc: Global,
        text: &[u8],
        number: usize,
        further: usize,
    ) -> Option<LineEvidence> {
        let mut line = LineEvidence::of(alloc, text, number).ok()?;
        line.further = further;
        match self.name_line(alloc, &mut line) {
            Ok(()) => Some(line),
            Err(_) => None,
        }
    }

    /// Adds the names that a line can have. Error: an allocation fails.
    fn name_line(&self, alloc: Global, line: &mut LineEvidence) -> Result<(), AllocError> {
        push_names(alloc, &mut line.receivers, self.receivers.names())?;
        push_names(alloc, &mut line.groups, self.groups.names())
    }

    /// The number of the receiver with this name. `None` if there is none.
    pub fn receiver(&self, name: &[u8]) -> Option<u8>
        ensures { result ≡ number_named self.now.receivers name.now }
    {
        self.receivers.number(name)
    }

    /// The number of the group with this name. `None` if there is none.
    pub fn group(&self, name: &[u8]) -> Option<u8>
        ensures { result ≡ number_named self.now.groups name.now }
    {
        self.groups.number(name)
    }

    /// The number of the receiver with whose name and a space a text begins, and the text after the space. `None` says
    /// nothing.
    #[inline(always)]
    pub fn receiver_before<'a>(&self, text: &'a [u8]) -> Option<(u8, &'a [u8])>
        ensures { IfSome result (λ p. BeginsWithName self.now.receivers 32 text.entry.now p.0 p.1.now) }
    {
        self.receivers.number_before(text, b' ')
    }

    /// The number of the group with whose name and a line feed a text begins, and the text after the line feed. `None`
    /// says nothing.
    #[inline(always)]
    pub fn group_before<'a>(&self, text: &'a [u8]) -> Option<(u8, &'a [u8])>
        ensures { IfSome result (λ p. BeginsWithName self.now.groups 10 text.entry.now p.0 p.1.now) }
    {
        self.groups.number_before(text, b'\n')
    }

    /// The name of the receiver of this number. Empty if there is no such receiver.
    pub fn receiver_name(&self, number: usize) -> &[u8]
        ensures { result.now ≡ name_at self.now.receivers number }
    {
        self.receivers.name(number)
    }

    /// The name of the group of this number. Empty if there is no such group.
    pub fn group_name(&self, number: usize) -> &[u8]
        ensures { result.now ≡ name_at self.now.groups number }
    {
        self.groups.name(number)
    }

    /// The name of the source of this number. Empty if there is no such source.
    pub fn source_name(&self, number: usize) -> &[u8]
        ensures { result.now ≡ name_at self.now.sources number }
    {
        match self.sources.get(number) {
            Some(own) => own.bytes(),
            None => b"",
        }
    }

    /// The line of an accepted word of the source of this number. The name is empty if there is no such source.
    pub fn accepted_line(&self, source: usize) -> &[u8]
        ensures { result.now ≡ answer_line self.now.sources (Accepted source) }
    {
        match self.sources.get(source) {
            Some(own) => &own.accepted,
            None => b"accepted \n",
        }
    }
}

/// Adds names at the end of a list. Error: an allocation fails.
fn push_names(alloc: Global, list: &mut Vec<String>, names: &[String]) -> Result<(), AllocError> {
    for name in names {
        list.push(String::from_str(alloc, name.as_str())?)?;
    }
    Ok(())
}

fn receiver_names(alloc: Global, rows: &[ReceiverRow]) -> Result<Vec<String>, AllocError>
    ensures { IfOk result (λ names. map string_bytes names.items ≡ map (λ r. r.name) rows.now) }
{
    let mut names = Vec::new(alloc);
    for row in rows {
        names.push(String::from_str(alloc, row.name.as_str())?)?;
    }
    Ok(names)
}

fn source_names(alloc: Global, rows: &[SourceRow]) -> Result<Vec<SourceName>, AllocError>
    ensures { IfOk result (λ names. names.items ≡ map (λ s. s.name) rows.now) }
{
    let mut names = Vec::new(alloc);
    for row in rows {
        names.push(SourceName::of(alloc, row.name.as_str())?)?;
    }
    Ok(names)
}

fn group_names(alloc: Global, rows: &[GroupRow]) -> Result<Vec<String>, AllocError>
    ensures { IfOk result (λ names. map string_bytes names.items ≡ map (λ g. g.name) rows.now) }
{
    let mut names = Vec::new(alloc);
    for row in rows {
        names.push(String::from_str(alloc, row.name.as_str())?)?;
    }
    Ok(names)
}
