//! What is shown, and the rule that it stays a plan of one book.
use crate::front::Front;
use atomic_table::{Join, Split};
use crossbeam_utils::rule::{Outcome, Protocol};
use left_right::Absorb;
use left_right::reader::Reader;
use left_right::writer::Writer;
use std::alloc::AllocError;

/// The newest plan, with the list that it ends.
#[derive(Drop)]
pub(crate) struct Shown {
    pub front: Front,
}

impl Absorb<Front> for Shown {
    ghost use Rattle.a429_board.specs.Lists.{Known};

    type State = Front;

    ghost state = { λ s. s.front };

    ghost applied = { λ _ f. f };

    ghost never_fails = { Unit {0} };

    fn absorb_first(&mut self, operation: &Front, _other: &Shown) -> Result<(), AllocError> {
        self.front = operation.copied();
        Ok(())
    }
}

/// What a seat knows: the book of what is shown. No value of it is made.
pub(crate) struct BookView {
    pub knows: bool,
    pub book: BookName,
}

/// The numbers of a book, which exists in proofs alone.
pub(crate) struct BookName {
    pub number: u64,
    pub log_name: u64,
    pub cells_name: u64,
}

pub(crate) struct OneBook;

impl Protocol<Shown, BookView> for OneBook {
    ghost use Rattle.a429_board.specs.Showing.{Keeps, newcomer};

    ghost holds = { Keeps };

    ghost first = { newcomer };
}

/// A step that learns which book it is.
pub(crate) struct Learns;

impl Outcome<Shown, BookView> for Learns {
    ghost use Rattle.a429_board.specs.Showing.{learns};

    ghost then = { learns };
}

pub(crate) struct Copies;

impl Split<BookView> for Copies {
    ghost left = { λ v. v };

    ghost right = { λ v. v };
}

impl Join<BookView> for Copies {
    ghost use Rattle.a429_board.specs.Showing.{newcomer};

    ghost both = { λ v w. w };

    ghost spent = { newcomer };
}

pub(crate) type PlanReader = Reader<Shown, BookView, OneBook>;

pub(crate) type PlanWriter = Writer<Shown, Front, BookView, OneBook>;
