//! Beginnings of the list of published plans. The list exists in proofs alone.
ghost use Rattle.std.specs.Prelude.{◌≡◌, ◌+◌, ◌<◌, ◌^◌, ◌++◌, ◌∷◌, [], length, MatchBool, ℕ, IfSome};
ghost use mathlib.Core.List.{IsPrefix};
ghost use Rattle.a429_board.specs.Lists.{Known, EndsWith, head_of, next_nib};

use a429_slots::{OUTPUTS, Plan};
use logbook::{Gain, Offer, Opening, Pen, Plain, Play, Rule, Seen, Start, Word};
use std::marker::Model;

/// The rule of the book.
pub(crate) struct Law;

impl Rule<Plan<OUTPUTS>, u64> for Law {
    ghost use Rattle.std.specs.Prelude.{[]};
    ghost use base.Fml.{ftrue};
    ghost use Rattle.a429_board.specs.Lists.{IsKept};

    ghost holds = { λ cells log. IsKept cells log };

    ghost first = { [] };

    ghost hinted = { λ n log. Unit {0} };

    ghost shows = { λ log. [] };

    ghost keeps = { λ names log. ftrue };

    ghost moves = { λ ask before after answer. Unit {0} };
}

/// The list begins with the opening plan.
pub(crate) struct Begins;

impl Opening<Plan<OUTPUTS>, Plan<OUTPUTS>> for Begins {
    ghost use Rattle.std.specs.Prelude.{[], ◌∷◌};

    ghost log = { λ n p. p ∷ [] };
}

/// Callers trade nothing.
pub(crate) struct Nothing;

impl Gain<Plan<OUTPUTS>, u64> for Nothing {
    ghost use base.Fml.{ftrue};

    ghost after = { λ names about answer. ftrue };
}

/// A step that makes the right to one word more.
pub(crate) struct Reserves;

impl Play<Plan<OUTPUTS>, u64> for Reserves {
    ghost use Rattle.a429_board.specs.Lists.{reserves};

    ghost then = { reserves };
}

/// A step that looks at the whole list.
pub(crate) struct LooksAtAll;

impl Play<Plan<OUTPUTS>, u64> for LooksAtAll {
    ghost use Rattle.a429_board.specs.Lists.{looks};

    ghost then = { looks };
}

/// A step that adds a plan.
pub(crate) struct Adds;

impl Play<Plan<OUTPUTS>, u64> for Adds {
    ghost use Rattle.a429_board.specs.Lists.{adds};

    ghost then = { adds };
}

/// What a step is asked: a plan.
pub(crate) struct Asks;

impl Plain<Plan<OUTPUTS>, Plan<OUTPUTS>, u64> for Asks {
    ghost use Rattle.std.specs.Prelude.{None};

    ghost ask = { λ plan. plan };

    ghost state = { λ plan. None };
}

pub(crate) type Token = Seen<Plan<OUTPUTS>, u64, Law>;

pub(crate) type Asked = Offer<Plan<OUTPUTS>, u64, Law, Nothing>;

/// The head entry of a book: it counts the other entries.
pub(crate) type Head = Word<Plan<OUTPUTS>, u64, Law>;

/// A beginning of the list, which ends with `plan`.
#[derive(Drop)]
pub(crate) struct Front {
    count: u64,
    plan: Plan<OUTPUTS>,
    seen: Token,
}

impl Model for Front {
    ghost use Rattle.std.specs.Prelude.{◌≡◌, length};
    ghost use Rattle.a429_board.specs.Lists.{Known, EndsWith};

    ghost Value = { Known };

    ghost view = { λ f. record { book = f.seen.book; log = f.seen.log; last = f.plan } };

    ghost invariant = { λ f. (length f.seen.log ≡ f.count) × EndsWith f.seen.log f.plan };
}

/// A book whose list is this plan.
pub(crate) fn open(plan: Plan<OUTPUTS>) -> (Head, Front)
    ensures head { result.0 ≡ head_of result.1.book }
    ensures list { (result.1.log ≡ plan ∷ []) × (result.1.last ≡ plan) }
{
    let (seen, mut pens) = Seen::open_row::<Plan<OUTPUTS>, Begins>(&plan, Start::alone(), 1);
    let mut pen = pens.take();
    let head = Word::tracked(0, &mut pen);
    (
        head,
        Front {
            count: 1,
            plan,
            seen,
        },
    )
}

impl Front {
    /// The last plan.
    pub(crate) fn last(&self) -> &Plan<OUTPUTS>
        ensures last { result.now ≡ self.now.last }
        ensures ends { EndsWith self.now.log result.now }
    {
        &self.plan
    }

    /// Its number.
    pub(crate) fn number(&self) -> u64
        ensures { result ≡ self.now.last.number }
    {
        self.plan.number()
    }

    /// How many plans the list has.
    pub(crate) fn count(&self) -> u64
        ensures { result ≡ length self.now.log }
    {
        self.count
    }

    /// A copy of the front: the same newest plan and list.
    pub(crate) fn copied(&self) -> Front
        ensures { result ≡ self.now }
    {
        Front {
            count: self.count,
            plan: self.plan,
            seen: self.seen.again(),
        }
    }

    /// Whether the other list continues this one; if not, this one continues the other.
    pub(crate) fn is_behind(&self, other: &Front) -> bool
        requires { self.now.book ≡ other.now.book }
        ensures { MatchBool result (IsPrefix self.now.log other.now.log) (IsPrefix other.now.log self.now.log) }
    {
        let mut both = self.seen.again();
        both.learn(&other.seen);
        if self.count < other.count {
            return true;
        }
        false
    }

    /// The pen of the entry after this number of others; `None` if there are more of them, or if the count is spent.
    pub(crate) fn reserve(&self, head: &Head, others: u64) -> Option<Pen>
        requires { head.now ≡ head_of self.now.book }
        ensures { IfSome result (λ pen. (pen.book ≡ self.now.book) × (pen.nib ≡ next_nib (others + 1)) × (others + 1 < 2 ^ 64)) }
    {
        if others == u64::MAX {
            return None;
        }
        let mut seen = self.seen.again();
        let mut offer: Asked = seen.plain::<Nothing, Plan<OUTPUTS>, Asks>(&self.plan);
        let mut pen = seen.no_pen();
        let found = head.compare_exchange::<Reserves, Nothing>(
            others,
            others + 1,
            &mut seen,
            &mut offer,
            &mut pen,
        );
        if found != others {
            return None;
        }
        let _word: Head = Word::tracked(0, &mut pen);
        Some(pen)
    }

    /// Looks at the whole list. Who has the pen of the next plan knows that no list is longer than this one.
    pub(crate) fn look_at_all(&self, head: &Head, pen: &mut Pen, other: &Front)
        requires head { head.now ≡ head_of self.now.book }
        requires pen { (pen.old.book ≡ self.now.book) × (pen.old.nib ≡ next_nib (length self.now.log)) }
        requires other { other.now.book ≡ self.now.book }
        ensures whole { IsPrefix other.now.log self.now.log }
        ensures pen { (pen.new.book ≡ pen.old.book) × (pen.new.nib ≡ pen.old.nib) }
    {
        let mut both = self.seen.again();
        both.learn(&other.seen);
        let mut offer: Asked = both.plain::<Nothing, Plan<OUTPUTS>, Asks>(&self.plan);
        head.compare_exchange::<LooksAtAll, Nothing>(0, 0, &mut both, &mut offer, pen);
    }

    /// This list with one plan more, by the pen of the next plan.
    pub(crate) fn with_plan(&self, head: &Head, mut pen: Pen, plan: Plan<OUTPUTS>) -> Front
        requires head { head.now ≡ head_of self.now.book }
        requires pen { (pen.book ≡ self.now.book) × (pen.nib ≡ next_nib (length self.now.log)) }
        requires room { length self.now.log + 1 < 2 ^ 64 }
        ensures { (result.book ≡ self.now.book) × (result.log ≡ self.now.log ++ plan ∷ []) × (result.last ≡ plan) }
    {
        let mut seen = self.seen.again();
        let mut offer: Asked = seen.plain::<Nothing, Plan<OUTPUTS>, Asks>(&plan);
        head.compare_exchange::<Adds, Nothing>(0, 0, &mut seen, &mut offer, &mut pen);
        Front {
            count: self.count + 1,
            plan,
            seen,
        }
    }
}
