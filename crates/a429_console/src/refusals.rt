//! Why a command gives no answer, and how that is put.
ghost use Rattle.std.specs.Prelude.{◌≡◌, IfOk, OnOk, IsTrue};
ghost use Rattle.a429_console.specs.Outputs.{CountsFault};
ghost use Rattle.a429_console.specs.RefusalText.{IsRefusalPut};

pub mod evidence;
pub mod kinds;
pub mod logs;
pub mod names;
pub mod rows;
pub mod tables;

use crate::answered::Answered;
use crate::output::endings::{REFUSED_MEMORY, put_answer, refuse_memory_as};
use crate::output::{Output, OutputFault};
use crate::refusals::evidence::{Evidence, TableEvidence};
use crate::refusals::kinds::{CsvKind, PlanKind};
use a429_equipment::Name;
use a429_slots::{OUTPUTS, Proposal};
use a429_table::{FaultKind, TablePlace};
use std::alloc::{AllocError, AllocFailed, Global};
use std::fmt;
use std::io::Write;
use std::marker::Model;

/// Why a command ends before or instead of its answer. Its text is the line that the program prints.
#[derive(Drop)]
pub enum CommandRefusal {
    /// The file of this name cannot be read, or has more than 16 MiB.
    File(String),
    /// The text of a word is not eight hexadecimal digits.
    WordText,
    /// An even number of the word's 32 bits are ones.
    Parity,
    /// The text of a label is not three octal digits, 000 to 377.
    LabelText,
    /// The data of a word are not of the form that was asked for, or do not fit.
    DataText,
    /// The byte at this place of a line file, from 0, is the first that is not a symbol, a space or a line feed.
    LineByte(usize),
    /// The filter of this number, from 1, is the first that is not `LLL/MMM`, or it is the 33rd.
    Filter(usize),
    /// The table has this fault at this place.
    Table(FaultKind, TablePlace),
    /// No period of the grid fits the interval of the group's output of this source.
    Unfit { group: Name, source: Name },
    /// The group needs this number of buses, which is more than 16.
    TooManyBuses { group: Name, needed: usize },
    /// The table has no group of this name, which was asked for.
    Group(String),
    /// The line of this number, from 1, is the first faulty one of the script or of the file of words. It is not an
    /// event of the station, or not a word for it.
    Script(usize),
    /// This line of the log, from 1, is the first that is not a word for the station, or whose time is less than the
    /// time before it.
    LogLine { line: usize },
    /// The row at the line of this number, from 1, of a file of comma-separated values is the first with a fault, and this is
    /// wrong with it.
    Csv { line: u64, kind: CsvKind },
    /// The line of this number, from 1, of a plan text that was given is the first with a fault, and this is wrong with
    /// it.
    PlanLine { line: usize, kind: PlanKind },
    /// A thread could not be started or joined.
    Join,
    /// The gate ended a worker.
    Gate,
    /// The source of a line failed.
    Source,
    /// The sink of a group failed.
    Sink,
    /// A receiver was given a word after a million, or more than a million frames were asked for. In a simulation a group
    /// would send more than a million from the first word on.
    TooMuch,
    /// The tolerance is more than half the period of an output.
    Tolerance,
    /// No time is within the log of what came in and within that of what was sent.
    Apart,
    /// An allocation failed.
    Memory,
}

impl fmt::Display for CommandRefusal {
    ghost use Rattle.std.specs.Prelude.{Some};
    ghost use Rattle.a429_console.specs.RefusalText.{refusal_line};

    ghost output = { λ refusal. Some (refusal_line refusal) };

    fn fmt<W: fmt::Write>(&self, f: &mut fmt::Formatter<W>) -> fmt::Result {
        match self {
            CommandRefusal::File(name) => write!(f, "refused file {name}"),
            CommandRefusal::WordText => f.write_str("refused word-text"),
            CommandRefusal::Parity => f.write_str("refused parity"),
            CommandRefusal::LabelText => f.write_str("refused label-text"),
            CommandRefusal::DataText => f.write_str("refused data-text"),
            CommandRefusal::LineByte(place) => write!(f, "refused line byte {place}"),
            CommandRefusal::Filter(number) => write!(f, "refused filter {number}"),
            CommandRefusal::Table(kind, place) => write!(f, "refused table {kind} {place}"),
            CommandRefusal::Unfit { group, source } => {
                write!(f, "refused unfit {} {}", group.as_str(), source.as_str())
            }
            CommandRefusal::TooManyBuses { group, needed } => {
                write!(f, "refused too-many-buses {} {needed}", group.as_str())
            }
            CommandRefusal::Group(name) => write!(f, "refused group {name}"),
            CommandRefusal::Script(line) => write!(f, "refused script line {line}"),
            CommandRefusal::LogLine { line } => write!(f, "refused log line {line}"),
            CommandRefusal::Csv { line, kind } => write!(f, "refused csv line {line} {kind}"),
            CommandRefusal::PlanLine { line, kind } => {
                write!(f, "refused plan line {line} {kind}")
            }
            CommandRefusal::Join => f.write_str("refused join"),
            CommandRefusal::Gate => f.write_str("refused gate"),
            CommandRefusal::Source => f.write_str("refused source"),
            CommandRefusal::Sink => f.write_str("refused sink"),
            CommandRefusal::TooMuch => f.write_str("refused too-much"),
            CommandRefusal::Tolerance => f.write_str("refused tolerance"),
            CommandRefusal::Apart => f.write_str("refused apart"),
            CommandRefusal::Memory => f.write_str(REFUSED_MEMORY),
        }
    }
}

impl From<AllocError> for CommandRefusal {
    ghost use Rattle.std.specs.Prelude.{◌≡◌};
    ghost use Rattle.a429_console.specs.declared.refusals.CommandRefusal.TheVariants.{Memory};

    ghost from_gives = { λ _ e. e ≡ Memory };

    fn from(_error: AllocError) -> CommandRefusal {
        CommandRefusal::Memory
    }
}

impl<T: Drop> From<AllocFailed<T>> for CommandRefusal {
    ghost use Rattle.std.specs.Prelude.{◌≡◌};
    ghost use Rattle.a429_console.specs.declared.refusals.CommandRefusal.TheVariants.{Memory};

    ghost from_gives = { λ _ e. e ≡ Memory };

    fn from(_error: AllocFailed<T>) -> CommandRefusal {
        CommandRefusal::Memory
    }
}

/// The most bytes of a further table that is kept as it was read, for a hint. The largest station takes fewer.
const KEPT_TABLE: usize = 131_072;

/// A refusal, and what a hint needs beyond it. Clauses see the refusal.
pub struct Refused {
    refusal: CommandRefusal,
    evidence: Evidence,
}

// Written by hand, a drop is one call in the proofs of its owners.
impl Drop for Refused {
    fn drop(self) {
        let Self {
            refusal: _,
            evidence: _,
        } = self;
    }
}

impl Model for Refused {
    ghost use Rattle.a429_console.specs.declared.refusals.CommandRefusal.{CommandRefusal};

    ghost Value = { CommandRefusal };

    ghost view = { λ r. r.refusal };
}

impl Refused {
    ghost use Rattle.std.specs.Prelude.{◌≡◌};

    /// A refusal with this evidence.
    pub fn with(refusal: CommandRefusal, evidence: Evidence) -> Refused
        ensures { result ≡ refusal }
    {
        Refused { refusal, evidence }
    }

    /// A refusal without evidence.
    pub fn plain(refusal: CommandRefusal) -> Refused
        ensures { result ≡ refusal }
    {
        Refused::with(refusal, Evidence::Nothing)
    }

    /// A refusal of a table.
    pub fn of_table(refusal: CommandRefusal, table: TableEvidence) -> Refused
        ensures { result ≡ refusal }
    {
        Refused::with(refusal, Evidence::of_table(table))
    }

    /// This refusal, as that of the second of two tables.
    pub fn of_second_table(self) -> Refused
        ensures { result ≡ self }
    {
        let Self { refusal, evidence } = self;
        Refused::with(refusal, evidence.of_second_table())
    }

    /// This refusal, as that of a log which comes after this number of other logs.
    pub fn after_logs(self, before: usize) -> Refused
        ensures { result ≡ self }
    {
        let Self { refusal, evidence } = self;
        Refused::with(refusal, evidence.after_logs(before))
    }

    /// The refusal of a further table of this number of bytes. What was read of a large one is given back, so that those of
    /// several tables do not add up.
    pub fn of_further(self, bytes: usize) -> Refused
        ensures { result ≡ self }
    {
        if bytes <= KEPT_TABLE {
            self
        } else {
            let Self {
                refusal,
                evidence: _,
            } = self;
            Refused::plain(refusal)
        }
    }

    /// This refusal, with the plan of the table as evidence if it had no evidence.
    pub fn or_plan(self, proposal: Proposal<OUTPUTS>) -> Refused
        ensures { result ≡ self }
    {
        let Self { refusal, evidence } = self;
        Refused::with(refusal, evidence.or_plan(proposal))
    }

    /// The refusal without the evidence.
    pub fn refusal(&self) -> &CommandRefusal
        ensures { result.now ≡ self.now }
    {
        &self.refusal
    }

    /// The evidence.
    pub fn evidence(&self) -> &Evidence {
        &self.evidence
    }

    /// The refusal and the evidence, each by itself.
    pub fn into_parts(self) -> (CommandRefusal, Evidence)
        ensures { result.0 ≡ self }
    {
        let Self { refusal, evidence } = self;
        (refusal, evidence)
    }
}

impl From<CommandRefusal> for Refused {
    ghost use Rattle.std.specs.Prelude.{◌≡◌};

    ghost from_gives = { λ refusal e. e ≡ refusal };

    fn from(refusal: CommandRefusal) -> Refused {
        Refused::plain(refusal)
    }
}

impl From<AllocError> for Refused {
    ghost use Rattle.std.specs.Prelude.{◌≡◌};
    ghost use Rattle.a429_console.specs.declared.refusals.CommandRefusal.TheVariants.{Memory};

    ghost from_gives = { λ _ e. e ≡ Memory };

    fn from(_error: AllocError) -> Refused {
        Refused::plain(CommandRefusal::Memory)
    }
}

impl<T: Drop> From<AllocFailed<T>> for Refused {
    ghost use Rattle.std.specs.Prelude.{◌≡◌};
    ghost use Rattle.a429_console.specs.declared.refusals.CommandRefusal.TheVariants.{Memory};

    ghost from_gives = { λ _ e. e ≡ Memory };

    fn from(_error: AllocFailed<T>) -> Refused {
        Refused::plain(CommandRefusal::Memory)
    }
}

/// Puts the line of a refusal, or the line `refused memory` if an allocation for it fails. The status is this one. Error:
/// the output failed.
fn put_refusal<O: Output>(
    alloc: Global,
    refusal: &CommandRefusal,
    status: u8,
    out: &mut O,
) -> Result<u8, OutputFault>
    ensures status { IfOk result (λ answered. answered ≡ status) }
    ensures line { OnOk result (IsRefusalPut refusal.now (O.contents out.old) (O.contents out.new)) }
    ensures flushed { OnOk result (IsTrue (O.is_flushed out.new)) }
    ensures faults { CountsFault result (O.failures out.old) (O.failures out.new) }
{
    let mut line = Vec::new(alloc);
    match writeln!(line, "{refusal}") {
        Ok(()) => put_answer(&line, status, out),
        Err(_) => refuse_memory_as(status, out),
    }
}

/// Puts the line of a refusal, or the line `refused memory` if an allocation for it fails. The status is this one, and the
/// refusal is handed on for a hint. Error: the output failed.
pub fn refuse_as<O: Output>(
    alloc: Global,
    refused: Refused,
    status: u8,
    out: &mut O,
) -> Result<Answered, OutputFault>
    ensures status { IfOk result (λ answered. answered ≡ status) }
    ensures line { OnOk result (IsRefusalPut refused (O.contents out.old) (O.contents out.new)) }
    ensures flushed { OnOk result (IsTrue (O.is_flushed out.new)) }
    ensures faults { CountsFault result (O.failures out.old) (O.failures out.new) }
{
    match put_refusal(alloc, refused.refusal(), status, out) {
        Ok(status) => Ok(Answered::of_refused(status, refused)),
        Err(fault) => Err(fault),
    }
}

/// Puts the line of a refusal, or the line `refused memory` if an allocation for it fails. The status is 1, and the
/// refusal is handed on for a hint. Error: the output failed.
pub fn refuse<O: Output>(
    alloc: Global,
    refused: Refused,
    out: &mut O,
) -> Result<Answered, OutputFault>
    ensures status { IfOk result (λ status. status ≡ 1) }
    ensures line { OnOk result (IsRefusalPut refused (O.contents out.old) (O.contents out.new)) }
    ensures flushed { OnOk result (IsTrue (O.is_flushed out.new)) }
    ensures faults { CountsFault result (O.failures out.old) (O.failures out.new) }
{
    refuse_as(alloc, refused, 1, out)
}
