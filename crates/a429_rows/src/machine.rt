//! The machine at its last slots and counts, and by pieces.
ghost use Rattle.std.specs.Prelude.{◌≤◌};

use crate::support::{ONE, TWO, equipment_of, replace_once, row_holds, word};
use a429_core::{Answer, Event, OpenFault, Refusal, State};
use a429_slots::{OUTPUTS, Proposal};
use a429_word::Word;
use std::alloc::Global;
use std::mem;
use std::process::Abort;

/// The equipment of a table with its plan. It ends the test if the table has a fault or no plan.
pub fn proposal(rt: &impl Abort, alloc: Global, table: &str) -> Proposal<OUTPUTS> {
    let proposal = Proposal::of(alloc, equipment_of(rt, alloc, table)).ok();
    proposal.expect(rt, "a proposal")
}

/// The machine of a table, from this slot on.
fn open_machine<const C: u32>(rt: &impl Abort, alloc: Global, table: &str, first: u64) -> State<C>
    requires { (1 ≤ C) × (C ≤ 41) }
{
    State::<C>::open(alloc, proposal(rt, alloc, table), first).expect(rt, "a machine")
}

/// A cell of the first bus in this slot, with this word.
fn cell(slot: u64, word: Option<Word>) -> Answer {
    Answer::Sent { bus: 0, slot, word }
}

/// An answer is as it was stated.
fn is_answer(rt: &impl Abort, answer: Answer, stated: Answer) {
    assert!(rt; answer == stated);
}

/// An answer is that an event was refused for this.
fn is_refused(rt: &impl Abort, answer: Answer, why: Refusal) {
    is_answer(rt, answer, Answer::Refused(why));
}

/// The cells of a frame that has no word end with the last slot that has a number.
fn is_last_frame(rt: &impl Abort, state: &mut State<41>, first: u64)
    requires { first ≤ 18446744073709551614 }
{
    for slot in first..=18446744073709551614 {
        is_answer(rt, state.cell(0), cell(slot, None));
    }
    is_refused(rt, state.frame(0), Refusal::SlotsSpent);
    is_refused(rt, state.cell(0), Refusal::FrameEnd);
}

/// Why a table has no machine from this slot on.
fn opening_fault(rt: &impl Abort, alloc: Global, table: &str, first: u64) -> Option<OpenFault> {
    State::<41>::open(alloc, proposal(rt, alloc, table), first).err()
}

/// The first frame of a table can begin at this slot at last.
fn begins_at_last(rt: &impl Abort, alloc: Global, table: &str, first: u64)
    requires { first ≤ 18446744073709551614 }
{
    let mut state = open_machine::<41>(rt, alloc, table, first);
    is_last_frame(rt, &mut state, first);
    // `drop` keeps the proof short: a drop in place goes through all parts.
    drop(state);
    let fault = opening_fault(rt, alloc, table, first + 1);
    assert!(rt; fault == Some(OpenFault::SlotsSpent));
}

#[test]
fn slots_end_with_their_numbers(rt: HostRuntime) {
    begins_at_last(&rt, rt.alloc(), ONE, 18446744073709551614);
    // A frame of four slots ends sooner.
    begins_at_last(&rt, rt.alloc(), TWO, 18446744073709551611);
}

/// The source accepts a word.
fn accepts(rt: &impl Abort, state: &mut State<2>, raw: u32) {
    is_answer(rt, state.arrive(0, raw), Answer::Accepted { source: 0 });
}

#[test]
fn words_are_counted_to_the_last(rt: HostRuntime) {
    let mut state = open_machine::<2>(&rt, rt.alloc(), ONE, 0);
    accepts(&rt, &mut state, 0x600000c1);
    accepts(&rt, &mut state, 0x000000c1);
    accepts(&rt, &mut state, 0x600000c1);
    is_refused(&rt, state.arrive(0, 0x000000c1), Refusal::CountSpent);
    is_answer(&rt, state.cell(0), cell(0, Some(word(&rt))));
    drop(state);
}

#[test]
fn numbers_that_stand_for_nothing_are_refused(rt: HostRuntime) {
    let mut state = open_machine::<41>(&rt, rt.alloc(), ONE, 0);
    is_refused(&rt, state.arrive(1, 0x800000c1), Refusal::NoSuch);
    is_refused(&rt, state.cell(1), Refusal::NoSuch);
    is_refused(&rt, state.frame(1), Refusal::NoSuch);
    // The cell of the one group is still to be sent.
    is_answer(&rt, state.cell(0), cell(0, None));
    drop(state);
}

/// A plan of twice the interval is published.
fn publish_slower(rt: &impl Abort, alloc: Global) -> Event {
    let slower = replace_once(rt, alloc, ONE, "max_us = 360", "max_us = 720");
    Event::Publish {
        proposal: proposal(rt, alloc, &slower),
    }
}

/// The event at this place of a script.
fn event(rt: &impl Abort, alloc: Global, place: u32) -> Event {
    match place {
        1 => Event::Arrive {
            receiver: 0,
            raw: 0x600000c1,
        },
        2 => publish_slower(rt, alloc),
        5 => Event::Arrive {
            receiver: 0,
            raw: 0x800000c1,
        },
        3 | 6 => Event::Frame { group: 0 },
        _ => Event::Cell { group: 0 },
    }
}

/// A machine that takes a script by pieces, the events of the piece that has not ended, and the answers so far.
#[derive(Drop)]
struct Pieces {
    alloc: Global,
    state: State<41>,
    piece: Vec<Event>,
    answers: Vec<Answer>,
}

impl Pieces {
    fn open(rt: &impl Abort, alloc: Global) -> Pieces {
        Pieces {
            alloc,
            state: open_machine::<41>(rt, alloc, ONE, 0),
            piece: Vec::new(alloc),
            answers: Vec::new(alloc),
        }
    }

    /// Takes an event alone.
    fn step(&mut self, rt: &impl Abort, event: Event) {
        let answer = self.state.step(event).expect(rt, "memory");
        self.answers.push(answer).expect(rt, "memory");
    }

    /// Ends the piece: the machine takes all of it.
    fn run(&mut self, rt: &impl Abort) {
        let piece = mem::replace(&mut self.piece, Vec::new(self.alloc));
        let answers = self.state.run(self.alloc, piece).expect(rt, "memory");
        self.answers
            .extend_from_slice(&answers)
            .expect(rt, "memory");
    }

    /// Adds an event to the piece, which may end with it. If `by_step` is true, a piece of one event is taken by
    /// `step`.
    fn take(&mut self, rt: &impl Abort, event: Event, ends: bool, by_step: bool) {
        if ends && by_step && self.piece.is_empty() {
            return self.step(rt, event);
        }
        self.piece.push(event).expect(rt, "memory");
        if ends {
            self.run(rt);
        }
    }

    /// Takes the script in pieces: one ends after each event whose binary digit in `cuts` is one.
    fn take_script(&mut self, rt: &impl Abort, cuts: u32, by_step: bool) {
        let mut digits = cuts;
        for place in 0..9 {
            let event = event(rt, self.alloc, place);
            self.take(rt, event, digits % 2 == 1, by_step);
            digits /= 2;
        }
        self.run(rt);
    }
}

/// The answers to the nine events of the script, if this is its word.
fn expected_answers(word: Word) -> [Answer; 9] {
    [
        cell(0, None),
        Answer::Accepted { source: 0 },
        Answer::Published { plan: 1 },
        Answer::Changed { plan: 1 },
        cell(1, Some(word)),
        Answer::Refused(Refusal::Parity),
        Answer::Refused(Refusal::MidFrame),
        cell(2, None),
        Answer::Refused(Refusal::FrameEnd),
    ]
}

/// Whether the script is answered so in these pieces.
fn holds_in_pieces(rt: &impl Abort, alloc: Global, cuts: u32, by_step: bool) -> bool {
    let mut pieces = Pieces::open(rt, alloc);
    pieces.take_script(rt, cuts, by_step);
    let holds = pieces.answers.as_slice() == expected_answers(word(rt)).as_slice();
    drop(pieces);
    holds
}

#[test]
fn a_script_is_answered_alike_in_all_pieces(rt: HostRuntime) {
    for cuts in 0u32..512 {
        row_holds(&rt, cuts, holds_in_pieces(&rt, rt.alloc(), cuts, false));
        row_holds(&rt, cuts, holds_in_pieces(&rt, rt.alloc(), cuts, true));
    }
}
