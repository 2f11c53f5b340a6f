//! What a command answered: its status, and what a hint needs beyond it.
ghost use Rattle.std.specs.Prelude.{◌≡◌};

use crate::output::OutputFault;
use crate::refusals::Refused;
use a429_text::Sheet;
use std::marker::Model;

/// A line of a plan's text that is not as its table asks.
#[derive(Drop)]
pub struct Objection {
    /// Its number, from 1.
    pub line: usize,
    /// The reason that `check` prints.
    pub reason: &'static str,
    /// What the line must state: a value, its whole form, or for `shared` the number of the earlier line. Empty: the rule
    /// of the reason says all, or the text must end before this line.
    pub expected: String,
}

/// What an answer that is no refusal leaves for a hint.
#[derive(Drop)]
pub enum Found {
    Nothing,
    /// What `lint` found of a table, or the rows of `judge`.
    Rows(Sheet),
    /// What `check` found wrong in the text of a plan.
    Objection { objection: Objection, text: Vec<u8> },
}

/// What a command answered. Clauses see its status.
#[derive(Drop)]
pub struct Answered {
    status: u8,
    refused: Option<Refused>,
    found: Found,
}

impl Model for Answered {
    ghost use Rattle.std.specs.Prelude.{ℕ};

    ghost Value = { ℕ };

    ghost view = { λ a. a.status };
}

impl Answered {
    ghost use Rattle.std.specs.Prelude.{◌≡◌};

    /// An answer with this status, which leaves this for a hint.
    pub fn of(status: u8, found: Found) -> Answered
        ensures { result ≡ status }
    {
        Answered {
            status,
            refused: None,
            found,
        }
    }

    /// A refusal with this status.
    pub fn of_refused(status: u8, refused: Refused) -> Answered
        ensures { result ≡ status }
    {
        Answered {
            status,
            refused: Some(refused),
            found: Found::Nothing,
        }
    }

    /// The status of the command.
    pub fn status(&self) -> u8
        ensures { result ≡ self.now }
    {
        self.status
    }

    /// What was refused. `None`: nothing was, or an allocation failed after the first lines.
    pub fn refused(&self) -> Option<&Refused> {
        self.refused.as_ref()
    }

    /// What was found.
    pub fn found(&self) -> &Found {
        &self.found
    }
}

/// What a command answered: this status, and what was found for a hint. Error: the fault that was given in place of a
/// status.
pub fn answer_with(status: Result<u8, OutputFault>, found: Found) -> Result<Answered, OutputFault>
    ensures { result ≡ status }
{
    match status {
        Ok(status) => Ok(Answered::of(status, found)),
        Err(fault) => Err(fault),
    }
}

/// What a command answered: this status, and nothing for a hint. Error: the fault that was given in place of a status.
pub fn plain_answer(status: Result<u8, OutputFault>) -> Result<Answered, OutputFault>
    ensures { result ≡ status }
{
    answer_with(status, Found::Nothing)
}

/// The status of what a command answered. Error: the output fault that it has instead.
pub fn status_of(answered: &Result<Answered, OutputFault>) -> Result<u8, OutputFault>
    ensures { result ≡ answered.now }
{
    match answered {
        Ok(answered) => Ok(answered.status()),
        Err(fault) => Err(*fault),
    }
}
