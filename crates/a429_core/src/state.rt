//! The machine: one step for each event.
ghost use Rattle.std.specs.Prelude.{◌≡◌, ◌≤◌, ◌+◌, ◌^◌, ◌<◌, ◌∷◌, [], ◌↔◌, Ok, map, length, IfOk, IfSome, OnOk, OnErr, IsErrOf, IsOk, IsTrue, false};
ghost use Rattle.a429_equipment.specs.Limits.{count_bits};
ghost use Rattle.a429_slots.specs.Tables.{groups_of};
ghost use Rattle.a429_slots.specs.Answers.{answer};
ghost use Rattle.a429_core.specs.Happened.{event_of};
ghost use Rattle.a429_slots.specs.declared.answers.Refusal.{Refusal as Why};
ghost use Rattle.a429_slots.specs.FrameStates.{begun, all_fit};
ghost use Rattle.a429_core.specs.MachineStates.{AnswerEvents, AnswersEvent, GoesOnByEvents, StandsForHistory, HasTableForEach, IsWholeEvent};
ghost use Rattle.a429_core.specs.Passed.{passed};
ghost use Rattle.a429_core.specs.MachineSteps.{word_at, arrived, cell_asked, cell_sent, frame_asked, publish_asked, asked_cell, after_asked, frame_at, stepped};

use crate::events::Event;
use crate::passed::pass_group;
use crate::sends::{SentCell, send_word, sends_of};
use crate::sources::{Kept, keep};
use a429_equipment::{COUNT_BITS, Equipment};
use a429_slots::laws::sends_are_recalled;
use a429_slots::{
    Answer, CachedSender, Due, GroupSends, OUTPUTS, OpenFault, Plan, Proposal, Refusal,
};
use a429_word::Word;
use std::alloc::{AllocError, Global};
use std::marker::Model;

/// The state of a station as the program keeps it.
pub type StationState = State<COUNT_BITS>;

/// A station in operation: the last accepted word of each source, the place of each group in its frame and what it sent
/// last, and the newest plan. It counts the words of a source in `C` bits, 1 to 41.
pub struct State<const C: u32> {
    equipment: Equipment,
    limit: u64,
    sources: Vec<Kept>,
    groups: Vec<CachedSender>,
    sends: Vec<GroupSends>,
    newest: Box<Plan<OUTPUTS>>,
}

// Written by hand, a drop is one call in the proofs of its owners.
impl<const C: u32> Drop for State<C> {
    fn drop(self) {
        let Self {
            equipment: _,
            limit: _,
            sources: _,
            groups: _,
            sends: _,
            newest: _,
        } = self;
    }
}

impl<const C: u32> Model for State<C> {
    ghost use Rattle.a429_core.specs.MachineStates.{KeepsAll, MachineState};

    ghost Value = { MachineState };

    ghost view = { λ s. record {
      station = s.equipment;
      sources = s.sources.items;
      groups = s.groups.items;
      sends = s.sends.items;
      newest = s.newest.value;
    } };

    ghost invariant = { λ s. KeepsAll C s.limit s.equipment s.sources.items s.groups.items s.newest.value };
}

/// Whether the slots of each group's first frame can be counted in 64 bits.
fn frames_fit(plan: &Plan<OUTPUTS>, first: u64) -> bool
    ensures { result ≡ all_fit first (groups_of plan.now) }
{
    for group in 0..plan.groups() {
        if u64::MAX - first < u64::from(plan.group(group).frame()) {
            return false;
        }
    }
    true
}

/// The groups before their first cells.
fn senders_of(
    alloc: Global,
    plan: &Plan<OUTPUTS>,
    first: u64,
) -> Result<Vec<CachedSender>, AllocError>
    requires { IsTrue (all_fit first (groups_of plan.now)) }
    ensures { IfOk result (λ senders. senders.items ≡ map (begun first) (groups_of plan.now)) }
{
    let mut senders = Vec::new(alloc);
    for group in 0..plan.groups() {
        let sender = CachedSender::open(alloc, *plan.group(group), first)?;
        senders.push(sender)?;
    }
    Ok(senders)
}

/// The next cell of a group: its bus, its slot, and its output; no output if the cell is empty.
fn next_cell(groups: &mut Vec<CachedSender>, group: usize) -> Option<(u32, u64, Option<Due>)>
    requires { group < length groups.old.items }
    ensures due { result ≡ asked_cell groups.old.items group }
    ensures after { groups.new.items ≡ after_asked groups.old.items group }
    ensures len { length groups.new.items ≡ length groups.old.items }
    ensures room { IfSome result (λ c. (c.1 + 1 < 2 ^ 64) × IfSome c.2 (λ due. 1 ≤ due.limits.spacing)) }
{
    let sender = &mut groups[group];
    let first = sender.first();
    let (bus, slot) = sender.cell()?;
    Some((bus, first + slot, sender.output_in(bus, slot)))
}

/// Takes the next frame of a group by the newest plan, if the frame before is over.
fn next_frame(groups: &mut Vec<CachedSender>, newest: &Plan<OUTPUTS>, group: usize) -> Answer
    requires group { group < length groups.old.items }
    requires planned { group < length (groups_of newest.now) }
    ensures answer { result ≡ (frame_at groups.old.items newest.now group).0 }
    ensures after { groups.new.items ≡ (frame_at groups.old.items newest.now group).1 }
    ensures len { length groups.new.items ≡ length groups.old.items }
{
    let sender = &mut groups[group];
    if sender.is_mid_frame() {
        return Answer::Refused(Refusal::MidFrame);
    }
    if sender.turn(newest.group(group)) {
        Answer::Changed {
            plan: newest.number(),
        }
    } else {
        Answer::Refused(Refusal::SlotsSpent)
    }
}

impl<const C: u32> State<C> {
    /// A station to which nothing has happened, whose first frames begin at this slot. Errors: `SlotsSpent` if the
    /// first frame of some group has slots that cannot be counted in 64 bits; `NoMemory` if an allocation failed.
    pub fn open(
        alloc: Global,
        proposal: Proposal<OUTPUTS>,
        first_slot: u64,
    ) -> Result<State<C>, OpenFault>
        requires { (1 ≤ C) × (C ≤ count_bits) }
        ensures stands { IfOk result (StandsForHistory C (record { proposal = proposal; first = first_slot }) []) }
        ensures spent { IsErrOf result OpenFault.SlotsSpent ↔ (all_fit first_slot (groups_of proposal.plan) ≡ false) }
    {
        sends_are_recalled();
        let (equipment, newest) = proposal.into_parts();
        equipment.rows_are_sound();
        if !frames_fit(&newest, first_slot) {
            return Err(OpenFault::SlotsSpent);
        }
        let unheard = Kept {
            count: 0,
            last: None,
        };
        let sources = vec![in alloc; unheard; equipment.sources().len()]?;
        let groups = senders_of(alloc, &newest, first_slot)?;
        let sends = sends_of(alloc, groups.len(), sources.len())?;
        Ok(State {
            equipment,
            limit: (1u64 << C) - 1,
            sources,
            groups,
            sends,
            newest,
        })
    }

    /// A raw word comes in at a receiver. An accepted word is kept. It is refused for the first of these that is the
    /// case: `NoSuch` for the receiver, `Parity`, `Filtered`, `NoSource`, `CountSpent`. This call, `cell`, `frame` and
    /// `publish` allocate no memory and never fail. Their contracts say exactly what they do to what the state keeps.
    /// `laws::calls_are_answered` says what that means for each history.
    pub fn arrive(&mut self, receiver: usize, raw: u32) -> Answer
        ensures answer { result ≡ (arrived C self.old receiver raw).0 }
        ensures after { self.new ≡ (arrived C self.old receiver raw).1 }
    {
        if receiver >= self.equipment.receivers().len() {
            return Answer::Refused(Refusal::NoSuch);
        }
        match self.equipment.source_for(receiver, raw) {
            Err(refusal) => Answer::Refused(Refusal::from(refusal)),
            Ok((source, word)) => {
                if keep(&mut self.sources, self.limit, source, word) {
                    Answer::Accepted { source }
                } else {
                    Answer::Refused(Refusal::CountSpent)
                }
            }
        }
    }

    /// A group sends its next cell, with the word of its output as it is kept at this moment. Refusals: `NoSuch` for
    /// the group; `FrameEnd` if all cells of the frame were sent.
    pub fn cell(&mut self, group: usize) -> Answer
        ensures answer { result ≡ (cell_asked self.old group).0 }
        ensures after { self.new ≡ (cell_asked self.old group).1 }
    {
        if group >= self.groups.len() {
            return Answer::Refused(Refusal::NoSuch);
        }
        match next_cell(&mut self.groups, group) {
            None => Answer::Refused(Refusal::FrameEnd),
            Some((bus, slot, None)) => Answer::Sent {
                bus,
                slot,
                word: None,
            },
            Some((bus, slot, Some(due))) => Answer::Sent {
                bus,
                slot,
                word: self.send(group, slot, due),
            },
        }
    }

    /// A group sends its next cell, in the way of `cell`. The answer is the word in it, with its source; `None` if no
    /// word was sent.
    pub fn send_cell(&mut self, group: usize) -> Option<SentCell>
        ensures sent { result ≡ cell_sent self.old group }
        ensures after { self.new ≡ (cell_asked self.old group).1 }
    {
        if group >= self.groups.len() {
            return None;
        }
        match next_cell(&mut self.groups, group) {
            Some((bus, slot, Some(due))) => match self.send(group, slot, due) {
                Some(word) => Some(SentCell {
                    bus,
                    slot,
                    source: due.source,
                    word,
                }),
                None => None,
            },
            _ => None,
        }
    }

    /// The word that a group sends in a slot for an output: the last accepted of its source, unless the output's
    /// limits forbid it.
    fn send(&mut self, group: usize, slot: u64, due: Due) -> Option<Word>
        requires some { 1 ≤ due.limits.spacing }
        requires room { slot + 1 < 2 ^ 64 }
        ensures word { result ≡ (word_at self.old group slot due).0 }
        ensures after { self.new ≡ (word_at self.old group slot due).1 }
    {
        let kept = *self.sources.get(due.source)?;
        let word = kept.last?;
        if send_word(&mut self.sends, group, slot, kept.count, due) {
            Some(word)
        } else {
            None
        }
    }

    /// A group goes on to its next frame, by the newest plan. Refusals: `NoSuch` for the group; `MidFrame` if a cell of
    /// the frame was not sent; `SlotsSpent` if 64 bits cannot count the slots of the next frame.
    pub fn frame(&mut self, group: usize) -> Answer
        ensures answer { result ≡ (frame_asked self.old group).0 }
        ensures after { self.new ≡ (frame_asked self.old group).1 }
    {
        if group >= self.groups.len() {
            return Answer::Refused(Refusal::NoSuch);
        }
        next_frame(&mut self.groups, &self.newest, group)
    }

    /// Puts a group after this number of slots by its newest table, from slot 0. It changes nothing else, so it stands for
    /// those slots only as long as no word was accepted and no plan published. Then each of their cells has no word.
    pub fn pass_slots(&mut self, group: usize, slots: u64)
        requires few { slots < 2 ^ 63 }
        ensures { self.new ≡ passed self.old group slots }
    {
        if group < self.groups.len() {
            pass_group(&mut self.groups, &self.newest, group, slots);
        }
    }

    /// A newer plan is proposed, for all groups. If it is of the same station it is the newest from now on. Refusals:
    /// `StationDiffers`; `CountSpent` if the newest plan has the last number of 64 bits.
    pub fn publish(&mut self, proposal: &Proposal<OUTPUTS>) -> Answer
        ensures answer { result ≡ (publish_asked self.old proposal.now).0 }
        ensures after { self.new ≡ (publish_asked self.old proposal.now).1 }
        ensures whole { HasTableForEach proposal.now }
    {
        let station = proposal.equipment();
        if !self.equipment.same_station(station) {
            return Answer::Refused(Refusal::StationDiffers);
        }
        let last = self.newest.number();
        if last == u64::MAX {
            return Answer::Refused(Refusal::CountSpent);
        }
        self.newest.take_tables(proposal.plan(), last + 1);
        Answer::Published { plan: last + 1 }
    }

    fn take(&mut self, event: Event) -> Answer
        ensures answer { result ≡ (stepped C self.old (event_of event)).0 }
        ensures after { self.new ≡ (stepped C self.old (event_of event)).1 }
        ensures whole { IsWholeEvent (event_of event) }
    {
        match event {
            Event::Arrive { receiver, raw } => self.arrive(receiver, raw),
            Event::Cell { group } => self.cell(group),
            Event::Frame { group } => self.frame(group),
            Event::Publish { proposal } => self.publish(&proposal),
        }
    }

    /// Takes one event. It allocates no memory and never fails.
    // For every history that the state stands for, the answer is the one of the definition.
    pub fn step(&mut self, event: Event) -> Result<Answer, AllocError>
        ensures ok { IsOk result }
        ensures answer { AnswersEvent C self.old (event_of event) result }
        ensures stands { GoesOnByEvents C self.old (event_of event ∷ []) self.new }
        ensures refused { (why : Why) → result ≡ Ok (Answer.Refused why) → self.new ≡ self.old }
    {
        sends_are_recalled();
        Ok(self.take(event))
    }

    /// Takes events one after another. Memory for all answers is allocated first. Error: that allocation failed; then
    /// nothing happened.
    pub fn run(&mut self, alloc: Global, events: Vec<Event>) -> Result<Vec<Answer>, AllocError>
        ensures answers { IfOk result (λ all. AnswerEvents C self.old (map event_of events.items) all.items) }
        ensures stands { OnOk result (GoesOnByEvents C self.old (map event_of events.items) self.new) }
        ensures err { OnErr result (self.new ≡ self.old) }
    {
        sends_are_recalled();
        let mut answers = Vec::with_capacity(alloc, events.len())?;
        for event in events {
            answers.push(self.take(event))?;
        }
        Ok(answers)
    }
}
