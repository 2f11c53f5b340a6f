//! The end of a board that publishes.
ghost use Rattle.std.specs.Prelude.{◌≡◌, ◌+◌, ◌<◌, ◌++◌, ◌∷◌, [], drop, length, IfOk, IfErr, OnErr};
ghost use mathlib.Core.List.{IsPrefix};
ghost use Rattle.a429_board.specs.Lists.{AreAlike, beginner, numbered};
ghost use Rattle.a429_board.specs.Refused.{IsWhy};
ghost use Rattle.a429_board.specs.Showing.{knower};

use crate::front;
use crate::front::{Front, Head};
use crate::rule::{Copies, Learns, PlanWriter, Shown};
use crate::watcher::{Sight, Watcher};
use a429_slots::{OUTPUTS, Plan};
use core::mem::{replace, replace_with};
use left_right::writer::Writer;
use logbook::Pen;
use std::alloc::{AllocError, Global};
use std::marker::Model;
use std::sync::Wait;
use thiserror::Error;

/// Publishes plans. It has the list of all plans that were published, the opening one first. End it by `close`.
pub struct Planner {
    writer: PlanWriter,
    head: Head,
    pen: Pen,
    front: Front,
}

impl Model for Planner {
    ghost use Rattle.std.specs.Prelude.{◌≡◌, [], drop, length};
    ghost use Rattle.a429_board.specs.Lists.{Planning, head_of, next_nib};
    ghost use Rattle.a429_board.specs.Showing.{knower};

    ghost Value = { Planning };

    ghost view = { λ p. record { book = p.front.book; list = p.front.log; last = p.front.last } };

    ghost invariant = { λ p. (p.head ≡ head_of p.front.book)
        × (p.pen.book ≡ p.front.book) × (p.pen.nib ≡ next_nib (length p.front.log))
        × (p.writer.desk.place.me.0.client ≡ knower p.front.book) × (drop p.writer.behind p.writer.log.items ≡ [])
        × (p.writer.desk.shown.value.front.book ≡ p.front.book) };
}

/// Why a plan was not published.
#[derive(Clone, Copy, Debug, PartialEq, Eq, Error)]
pub enum BoardFault {
    /// The last plan has the last number of 64 bits.
    #[error("count spent")]
    CountSpent,
    /// An allocation failed.
    #[error("out of memory")]
    NoMemory,
}

// Shows the one front that is pending.
fn show<R: Wait>(rt: &R, writer: PlanWriter, front: &Front) -> PlanWriter
    requires pending { drop writer.behind writer.log.items ≡ front.now ∷ [] }
    requires book { writer.desk.shown.value.front.book ≡ front.now.book }
    ensures pending { drop result.behind result.log.items ≡ [] }
    ensures shown { result.desk.shown.value.front ≡ front.now }
    ensures view { result.desk.place.me.0.client ≡ knower front.now.book }
{
    writer.publish_as::<Learns, R>(rt).0
}

// Shows the front by a writer that has shown all. Error: an allocation failed; the writer is gone then.
fn append_and_show<R: Wait>(
    rt: &R,
    mut writer: PlanWriter,
    front: &Front,
) -> Result<PlanWriter, AllocError>
    requires pending { drop writer.behind writer.log.items ≡ [] }
    requires book { writer.desk.shown.value.front.book ≡ front.now.book }
    ensures pending { IfOk result (λ w. drop w.behind w.log.items ≡ []) }
    ensures shown { IfOk result (λ w. w.desk.shown.value.front ≡ front.now) }
    ensures view { IfOk result (λ w. w.desk.place.me.0.client ≡ knower front.now.book) }
{
    if let Err(_) = writer.append(front.copied()) {
        writer.take(rt);
        return Err(AllocError);
    }
    Ok(show(rt, writer, front))
}

impl Planner {
    /// The planner of a board that begins with this plan and has room for this number of watchers. Error: an allocation
    /// failed.
    pub(crate) fn begin<R: Wait>(
        rt: &R,
        alloc: Global,
        plan: Plan<OUTPUTS>,
        watchers: u32,
    ) -> Result<Planner, AllocError>
        requires { 0 < watchers }
        ensures { IfOk result (λ p. (p.list ≡ plan ∷ []) × (p.last ≡ plan)) }
    {
        let (head, front) = front::open(plan);
        let pen = front.reserve(&head, 0).ok_or(AllocError)?;
        let first = Shown {
            front: front.copied(),
        };
        let second = Shown {
            front: front.copied(),
        };
        let writer: PlanWriter = Writer::new(alloc, first, second, watchers as usize)?;
        // The log of the writer gets its room here, so that no later call grows it: it keeps the next plan and the one
        // that was shown last.
        let writer = append_and_show(rt, writer, &front)?;
        let writer = append_and_show(rt, writer, &front)?;
        Ok(Planner {
            writer,
            head,
            pen,
            front,
        })
    }

    // A watcher that begins with the planner's list, of one plan.
    fn watcher(&mut self, alloc: Global) -> Result<Watcher, AllocError>
        requires { self.old.list ≡ self.old.last ∷ [] }
        ensures planner { self.new ≡ self.old }
        ensures watcher { IfOk result (λ w. w ≡ beginner self.old) }
    {
        let front = Box::new(alloc, self.front.copied())?;
        let opened = Box::new(alloc, *self.front.last())?;
        let mut reader = self.writer.factory().reader()?;
        reader.learn::<Copies>(self.writer.tell::<Copies>());
        Ok(Watcher {
            sight: Sight { reader, front },
            opened,
        })
    }

    /// This number of watchers, each at the beginning. Error: an allocation failed.
    pub(crate) fn watchers(&mut self, alloc: Global, count: u32) -> Result<Vec<Watcher>, AllocError>
        requires { self.old.list ≡ self.old.last ∷ [] }
        ensures planner { self.new ≡ self.old }
        ensures watchers { IfOk result (λ v. AreAlike v.items count (beginner self.old)) }
    {
        let mut all = Vec::new(alloc);
        for _ in 0..count {
            all.push(self.watcher(alloc)?)?;
        }
        Ok(all)
    }

    /// Appends the plan to the list, under the number that follows the last, and answers this number. Errors:
    /// `CountSpent` if the last number is the greatest of 64 bits; `NoMemory` if an allocation failed. Then nothing has
    /// changed. The call may wait for watchers that read.
    pub fn publish<R: Wait>(&mut self, rt: &R, plan: Plan<OUTPUTS>) -> Result<u64, BoardFault>
        ensures next { IfOk result (λ n. n ≡ self.old.last.number + 1) }
        ensures list { IfOk result (λ n. self.new.list ≡ self.old.list ++ numbered plan n ∷ []) }
        ensures last { IfOk result (λ n. self.new.last ≡ numbered plan n) }
        ensures book { self.new.book ≡ self.old.book }
        ensures unchanged { OnErr result (self.new ≡ self.old) }
        ensures fault { IfErr result (λ fault. IsWhy fault self.old.last.number) }
    {
        let Planner {
            writer,
            head,
            pen,
            front,
        } = self;
        let last = front.number();
        if last == u64::MAX {
            return Err(BoardFault::CountSpent);
        }
        let number = last + 1;
        let Some(next) = front.reserve(head, front.count()) else {
            return Err(BoardFault::NoMemory);
        };
        let longer = front.with_plan(head, replace(pen, next), plan.numbered(number));
        // The log has room for one since `begin`. Without room, watchers would get the plan by `tell`, or from the next
        // plan on.
        if writer.append(longer.copied()).is_ok() {
            replace_with(writer, (rt, &longer), |writer, (rt, longer)| {
                (show(rt, writer, longer), ())
            });
        }
        *front = longer;
        Ok(number)
    }

    /// Gives a watcher of this board all that was published. Its list was a beginning of the planner's, and is the
    /// planner's now. The call waits for nobody and allocates no memory.
    pub fn tell(&mut self, watcher: &mut Watcher)
        requires board { watcher.old.book ≡ self.old.book }
        ensures planner { self.new ≡ self.old }
        ensures beginning { IsPrefix watcher.old.list self.old.list }
        ensures told { watcher.new.list ≡ self.old.list }
        ensures book { watcher.new.book ≡ watcher.old.book }
        ensures opened { watcher.new.opened ≡ watcher.old.opened }
    {
        let Planner {
            head,
            pen,
            front,
            ..
        } = self;
        front.look_at_all(head, pen, &watcher.sight.front);
        *watcher.sight.front = front.copied();
    }

    /// Ends the board, and changes no list. It may wait for watchers that read.
    pub fn close<R: Wait>(self, rt: &R) {
        let Planner {
            writer,
            head: _,
            pen: _,
            front: _,
        } = self;
        writer.take(rt);
    }
}
