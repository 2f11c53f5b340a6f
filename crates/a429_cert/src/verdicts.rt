//! What a check answers.

ghost use Rattle.std.specs.Prelude.{◌≡◌, Some};
ghost use Rattle.a429_cert.specs.Printed.{reason_text, no_text, verdict_text};

use std::fmt;

/// Why a line is refused, in the order in which reasons are tested (profile: plan text).
#[derive(Clone, Copy, PartialEq, Eq)]
pub enum Reason {
    /// The line is not of the form due here, lacks its line feed, is absent, or follows the last line due.
    Form,
    /// The bit rate is not the table's, or not that of the group due.
    Rate,
    /// The name is not that of the group due.
    Group,
    /// The frame is not the greatest grid period of the group.
    Frame,
    /// The number of buses is 0 or above 16.
    Buses,
    /// No output of the group has this source, or an earlier line of the group lists it.
    Output,
    /// The period is not the grid period of the output.
    Period,
    /// The bus is not below the number of buses, or the offset not below the period.
    Place,
    /// An earlier output of the group has the same bus, and an offset that is equal modulo the smaller
    /// of the two periods.
    Shared,
    /// A number of the line is wrong: the demand or the frame is not the group's, or the full buses are not one less
    /// than the buses. Or the full buses carry the demand in a frame, or the buses do not carry it.
    Bound,
    /// The hold is not that of the output.
    Hold,
}

/// The first line that is refused, counted from 1, with the first reason against it.
#[derive(Clone, Copy, PartialEq, Eq)]
pub struct No {
    /// The first reason that fits the line.
    pub reason: Reason,
    /// The line's number, from 1. An absent line has the number that it would have.
    pub line: usize,
}

/// The answer to a plan text.
#[derive(Clone, Copy, PartialEq, Eq)]
pub enum Verdict {
    /// No line is refused: the text states a plan of the table's groups on the fewest buses.
    Fewest,
    /// A line is refused.
    No(No),
}

impl Reason {
    /// Its name in answers: `form` to `hold`.
    #[tactic(auto, unfolding(crate::specs::Printed::reason_text))]
    pub fn text(self) -> &'static str
        ensures { result.now ≡ reason_text self }
    {
        match self {
            Reason::Form => "form",
            Reason::Rate => "rate",
            Reason::Group => "group",
            Reason::Frame => "frame",
            Reason::Buses => "buses",
            Reason::Output => "output",
            Reason::Period => "period",
            Reason::Place => "place",
            Reason::Shared => "shared",
            Reason::Bound => "bound",
            Reason::Hold => "hold",
        }
    }
}

impl fmt::Display for Reason {
    ghost output = { λ reason. Some (reason_text reason) };

    /// Its name in answers.
    fn fmt<W: fmt::Write>(&self, f: &mut fmt::Formatter<W>) -> fmt::Result {
        write!(f, "{}", self.text())
    }
}

impl fmt::Display for No {
    ghost output = { λ no. Some (no_text no) };

    /// Its form in answers, for example `no shared 6`.
    fn fmt<W: fmt::Write>(&self, f: &mut fmt::Formatter<W>) -> fmt::Result {
        write!(f, "no {} {}", self.reason, self.line)
    }
}

impl fmt::Display for Verdict {
    ghost output = { λ verdict. Some (verdict_text verdict) };

    /// Its form in answers: `fewest`, or `no` with the reason and the line.
    fn fmt<W: fmt::Write>(&self, f: &mut fmt::Formatter<W>) -> fmt::Result {
        match self {
            Verdict::Fewest => write!(f, "fewest"),
            Verdict::No(refused) => write!(f, "{refused}"),
        }
    }
}
