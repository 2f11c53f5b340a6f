//! The end of a board that reads.
ghost use Rattle.std.specs.Prelude.{◌≡◌, ◌∷◌, []};
ghost use mathlib.Core.List.{IsPrefix};
ghost use Rattle.a429_board.specs.Lists.{EndsWith};
ghost use Rattle.a429_board.specs.Showing.{knower};

use crate::front::Front;
use crate::rule::{Learns, PlanReader};
use a429_slots::{OUTPUTS, Plan};
use core::mem::replace_with;
use std::marker::Model;

/// Reads the newest plan of a board. It has the list of plans up to the newest that it saw or was given, the opening
/// one first. The list only grows.
#[derive(Drop)]
pub struct Watcher {
    pub(crate) sight: Sight,
    pub(crate) opened: Box<Plan<OUTPUTS>>,
}

/// What a watcher reads by, and the last plan that it saw or was given.
// Plans are boxed: each is as large as all slot tables, and a watcher is handed on by value.
#[derive(Drop)]
pub(crate) struct Sight {
    pub(crate) reader: PlanReader,
    pub(crate) front: Box<Front>,
}

impl Model for Watcher {
    ghost use Rattle.std.specs.Prelude.{◌≡◌, ◌∷◌, []};
    ghost use mathlib.Core.List.{IsPrefix};
    ghost use Rattle.a429_board.specs.Lists.{Watched, EndsWith};
    ghost use Rattle.a429_board.specs.Showing.{knower};

    ghost Value = { Watched };

    ghost view = { λ w. record { book = w.sight.front.value.book; list = w.sight.front.value.log; opened = w.opened.value } };

    ghost invariant = { λ w. (w.sight.reader.place.me.0.client ≡ knower w.sight.front.value.book) × IsPrefix (w.opened.value ∷ []) w.sight.front.value.log };
}

// In a function of its own: a function that has room for a copy clears it at its beginning.
fn take_over(front: &mut Front, shown: &Front)
    ensures { front.new ≡ shown.now }
{
    *front = shown.copied();
}

// Takes over what is shown now, if its list has more plans, unless the entry is refused. If it has no more, nothing is
// copied: few entries find a new plan.
fn read(reader: PlanReader, front: &mut Front) -> PlanReader
    requires { reader.place.me.0.client ≡ knower front.old.book }
    ensures reader { result.place.me.0.client ≡ reader.place.me.0.client }
    ensures grows { IsPrefix front.old.log front.new.log }
    ensures book { front.new.book ≡ front.old.book }
{
    match reader.enter_as::<Learns>() {
        Ok(reading) => {
            let shown = &reading.get().front;
            if front.is_behind(shown) {
                take_over(front, shown);
            }
            reading.leave()
        }
        Err(reader) => reader,
    }
}

// Takes over what is shown now, if it has more plans, for a reader and its front in one value.
fn look(sight: Sight) -> Sight
    requires { sight.reader.place.me.0.client ≡ knower sight.front.value.book }
    ensures reader { result.reader.place.me.0.client ≡ knower result.front.value.book }
    ensures grows { IsPrefix sight.front.value.log result.front.value.log }
    ensures book { result.front.value.book ≡ sight.front.value.book }
{
    let Sight { reader, mut front } = sight;
    Sight {
        reader: read(reader, &mut *front),
        front,
    }
}

impl Watcher {
    /// The plan that the board was opened with.
    pub fn opened(&self) -> &Plan<OUTPUTS>
        ensures opened { result.now ≡ self.now.opened }
        ensures first { IsPrefix (result.now ∷ []) self.now.list }
    {
        let _ = &self.sight;
        &self.opened
    }

    /// Looks for the newest plan, as it is now: from then on it is the last. If the entry is refused, the last plan
    /// stays: the one that the watcher was opened with, saw or was given. The call waits for nobody and allocates no
    /// memory.
    pub fn look(&mut self)
        ensures grows { IsPrefix self.old.list self.new.list }
        ensures book { self.new.book ≡ self.old.book }
        ensures opened { self.new.opened ≡ self.old.opened }
    {
        replace_with(&mut self.sight, (), |sight, _| (look(sight), ()));
    }

    /// The last plan that the watcher saw or was given.
    pub fn last(&self) -> &Plan<OUTPUTS>
        ensures last { EndsWith self.now.list result.now }
    {
        self.sight.front.last()
    }

    /// The newest plan and its number, as they are now. If the entry is refused, it is the last plan that the watcher
    /// was opened with, saw or was given. The call waits for nobody and allocates no memory.
    pub fn newest(&mut self) -> (u64, Plan<OUTPUTS>)
        ensures grows { IsPrefix self.old.list self.new.list }
        ensures last { EndsWith self.new.list result.1 }
        ensures number { result.0 ≡ result.1.number }
        ensures book { self.new.book ≡ self.old.book }
        ensures opened { self.new.opened ≡ self.old.opened }
    {
        self.look();
        let plan = self.last();
        (plan.number(), *plan)
    }
}
