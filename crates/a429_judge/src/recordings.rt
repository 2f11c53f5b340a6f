//! The logs of a box.
ghost use Rattle.std.specs.Prelude.{◌≡◌, ◌<◌, ◌≤◌, ◌++◌, ◌∷◌, ◌&&◌, [], List, ℕ, length, nat_le, IfOk, true};
ghost use Rattle.a429_judge.specs.declared.duties.Heard.{Heard as HeardWord};
ghost use Rattle.a429_judge.specs.declared.duties.Sent.{Sent as SentWord};
ghost use Rattle.a429_judge.specs.Judgements.{accepted_by, sent_by};
ghost use Rattle.a429_judge.specs.Keeping.{AreAccepted, AreAllBelow, AreEmpty, AreGroups, AreUnsent, outputs_of};
ghost use Rattle.a429_judge.specs.Recordings.{AreOfGroups, IsKept, duty_at, foreign_of, group_at, hear, heard_by, lists_of, nothing_noted, send, span_of};

use crate::duties::{Duty, Heard, Sent};
use crate::facts::{Mark, Span};
use crate::groups::{Group, add_lists};
use crate::told::Told;
use a429_text::Gathered;
use std::alloc::{AllocError, Global};
use std::marker::Model;
use thiserror::Error;

/// Why an output is not judged.
#[derive(Clone, Copy, Debug, PartialEq, Eq, Error)]
pub enum JudgeFault {
    /// An allocation failed, now or when a word was noted.
    #[error("out of memory")]
    NoMemory,
    /// A word that was noted is before the one before it in its log.
    #[error("the times of a log do not fall")]
    TimesFall,
}

impl From<AllocError> for JudgeFault {
    ghost use Rattle.std.specs.Prelude.{◌≡◌};
    ghost use Rattle.a429_judge.specs.declared.recordings.JudgeFault.TheVariants.{NoMemory};

    ghost from_gives = { λ _ e. e ≡ NoMemory };

    fn from(_error: AllocError) -> JudgeFault {
        JudgeFault::NoMemory
    }
}

/// Two logs on one clock: what came in, and what was sent. Each word is kept with the output that it is of.
#[derive(Drop)]
pub struct Judge {
    groups: Vec<Group>,
    /// By source: the words that it accepted.
    accepted: Vec<Gathered<Mark>>,
    /// The time of the first word that was sent.
    first: Option<u64>,
    last_heard: u64,
    last_sent: u64,
    in_order: bool,
    all_heard: Told<Heard>,
    all_sent: Told<Sent>,
}

impl Model for Judge {
    ghost use Rattle.a429_judge.specs.Recordings.{JudgedLogs};

    ghost Value = { JudgedLogs };

    ghost use Rattle.a429_judge.specs.Keeping.{AreKept, outputs_of};

    ghost view = { λ j. record {
      duties = outputs_of j.groups.items;
      noted = record { heard = j.all_heard; last_heard = j.last_heard; sent = j.all_sent; last_sent = j.last_sent };
      in_order = j.in_order;
    } };

    ghost invariant = { λ j. AreKept j.groups.items j.accepted.items j.first j.in_order
        (record { heard = j.all_heard; last_heard = j.last_heard; sent = j.all_sent; last_sent = j.last_sent }) };
}

/// The greatest number of a source of these outputs, or this one if it is greater.
fn greatest_source(duties: &[Duty], least: usize) -> usize
    ensures least { least ≤ result }
    ensures sources { (o : ℕ) → o < length duties.now → (duty_at duties.now o).source ≤ result }
{
    let mut greatest = least;
    for duty in duties {
        greatest = greatest.max(duty.source);
    }
    greatest
}

/// The greatest number of a source.
fn last_source(duties: &[Vec<Duty>]) -> usize
    ensures { (g o : ℕ) → o < length (group_at (lists_of duties.now) g) → (duty_at (group_at (lists_of duties.now) g) o).source ≤ result }
{
    let mut greatest = 0;
    for list in duties {
        greatest = greatest_source(list, greatest);
    }
    greatest
}

/// A list for each source, without words. Error: an allocation failed.
fn source_lists(alloc: Global, duties: &[Vec<Duty>]) -> Result<Vec<Gathered<Mark>>, AllocError>
    ensures empty { IfOk result (λ lists. AreEmpty lists.items) }
    ensures below { IfOk result (λ lists. AreAllBelow (length lists.items) (lists_of duties.now)) }
{
    let mut lists = Vec::new(alloc);
    lists.push(Gathered::new(alloc))?;
    add_lists(alloc, &mut lists, last_source(duties))?;
    Ok(lists)
}

/// The groups, without words. Error: an allocation failed.
fn empty_groups(alloc: Global, duties: Vec<Vec<Duty>>) -> Result<Vec<Group>, AllocError>
    ensures { IfOk result (λ groups. AreUnsent (lists_of duties.items) groups.items) }
{
    let mut groups = Vec::new(alloc);
    for list in duties {
        groups.push(Group::new(alloc, list)?)?;
    }
    Ok(groups)
}

/// Whether times are still in order, if this one comes after the last one.
fn stays_in_order(in_order: bool, last: u64, time: u64) -> bool
    ensures { result ≡ (in_order && nat_le last time) }
{
    in_order && last <= time
}

/// Adds a word to those of the source that accepted it. A source above those of all outputs has no list.
fn add_accepted(lists: &mut Vec<Gathered<Mark>>, source: Option<usize>, mark: Mark)
    ensures lists { length lists.new.items ≡ length lists.old.items }
    ensures words { (ws : List HeardWord) → AreAccepted ws lists.old.items → AreAccepted (ws ++ heard_by source mark) lists.new.items }
{
    if let Some(source) = source
        && source < lists.len()
    {
        lists[source].push(mark);
    }
}

/// Adds a word that a source accepted to the list that proofs read.
fn tell_heard(heard: &mut Told<Heard>, source: Option<usize>, mark: Mark)
    ensures { heard.new ≡ heard.old ++ heard_by source mark }
{
    if let Some(source) = source {
        heard.push(&Heard { source, mark });
    }
}

/// Adds a word to those of its group. A group that is not judged keeps none.
fn add_sent(groups: &mut Vec<Group>, word: &Sent)
    ensures outputs { outputs_of groups.new.items ≡ outputs_of groups.old.items }
    ensures words { (sent : List SentWord) → AreGroups sent groups.old.items → AreGroups (sent ++ word.now ∷ []) groups.new.items }
{
    if word.group < groups.len() {
        groups[word.group].add_word(word);
    }
}

impl Judge {
    /// A judge of the outputs of each group, without words. Error: an allocation failed.
    pub fn new(alloc: Global, duties: Vec<Vec<Duty>>) -> Result<Judge, AllocError>
        requires { AreOfGroups (lists_of duties.items) }
        ensures { IfOk result (λ judge. judge ≡ nothing_noted (lists_of duties.items)) }
    {
        let accepted = source_lists(alloc, &duties)?;
        Ok(Judge {
            groups: empty_groups(alloc, duties)?,
            accepted,
            first: None,
            last_heard: 0,
            last_sent: 0,
            in_order: true,
            all_heard: Told::new(),
            all_sent: Told::new(),
        })
    }

    /// Notes a word that came in, with the number of the source that accepted it; `None`: no source did.
    pub fn heard(&mut self, source: Option<usize>, mark: Mark)
        ensures { self.new ≡ hear source mark self.old }
    {
        self.in_order = stays_in_order(self.in_order, self.last_heard, mark.time);
        self.last_heard = mark.time;
        add_accepted(&mut self.accepted, source, mark);
        tell_heard(&mut self.all_heard, source, mark);
    }

    /// Notes a word that was sent.
    pub fn sent(&mut self, word: Sent)
        ensures { self.new ≡ send word self.old }
    {
        self.in_order = stays_in_order(self.in_order, self.last_sent, word.mark.time);
        self.last_sent = word.mark.time;
        self.first = self.first.or(Some(word.mark.time));
        add_sent(&mut self.groups, &word);
        self.all_sent.push(&word);
    }

    /// How many groups it has.
    pub fn groups(&self) -> usize
        ensures { result ≡ length self.now.duties }
    {
        self.groups.len()
    }

    /// The outputs of a group, in their order. A group that there is not has none.
    pub fn duties(&self, group: usize) -> &[Duty]
        ensures { result.now ≡ group_at self.now.duties group }
    {
        match self.groups.get(group) {
            Some(group) => group.outputs(),
            None => &[],
        }
    }

    /// Whether no word came before the one before it in its log.
    pub(crate) fn is_in_order(&self) -> bool
        ensures order { result ≡ self.now.in_order }
        ensures kept { result ≡ true → IsKept self.now.noted }
    {
        self.in_order
    }

    /// The words that the source of an output accepted, in order. Error: an allocation failed when one was noted.
    pub(crate) fn accepted(&self, group: usize, output: usize) -> Result<&[Mark], AllocError>
        requires { output < length (group_at self.now.duties group) }
        ensures { IfOk result (λ words. words.now ≡ accepted_by (duty_at (group_at self.now.duties group) output) self.now.noted) }
    {
        let group = &self.groups[group];
        let source = group.outputs()[output].source;
        self.accepted[source].as_slice()
    }

    /// The words of an output that were sent, in order. Error: an allocation failed when one was noted.
    pub(crate) fn sends(&self, group: usize, output: usize) -> Result<&[Mark], AllocError>
        requires { output < length (group_at self.now.duties group) }
        ensures { IfOk result (λ words. words.now ≡ sent_by (duty_at (group_at self.now.duties group) output) self.now.noted) }
    {
        let group = &self.groups[group];
        group.sends(output)
    }

    /// What the logs show of the group of an output.
    pub(crate) fn span(&self, group: usize, output: usize) -> Span
        requires { output < length (group_at self.now.duties group) }
        ensures { result ≡ span_of (duty_at (group_at self.now.duties group) output).group self.now.noted }
    {
        let group = &self.groups[group];
        Span {
            first: group.first().or(self.first).unwrap_or(0),
            heard: self.last_heard,
            last: self.last_heard.max(self.last_sent),
        }
    }

    /// The words of a group that are of none of its outputs, in order. Error: an allocation failed when one was noted.
    pub fn foreign(&self, group: usize) -> Result<&[Sent], AllocError>
        requires { group < length self.now.duties }
        ensures { IfOk result (λ words. words.now ≡ foreign_of (group_at self.now.duties group) group self.now.noted.sent) }
    {
        let group = &self.groups[group];
        group.foreign()
    }
}
