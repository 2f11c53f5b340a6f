//! Further tables, resubmitted while a station runs.
ghost use Rattle.std.specs.Prelude.{◌≡◌, ◌≢◌, false, Ok, [], IfOk};
ghost use Rattle.a429_table.specs.Reading.{reading};
ghost use Rattle.std.specs.List.{list_any};
ghost use Rattle.a429_live.specs.Resubmitted.{AnswersFault, IsAnswer, is_refused};
ghost use Rattle.a429_live.specs.declared.control.SubmitAnswer.TheVariants as submitted;
ghost use Rattle.a429_console.specs.declared.refusals.CommandRefusal.TheVariants.{Memory};
ghost use Rattle.a429_station.specs.Resubmitting.{GoesOn};

use a429_console::hints::warnings::{FurtherCause, Warning};
use a429_console::planning::read_table;
use a429_console::refusals::evidence::TableEvidence;
use a429_console::refusals::tables::{too_many_buses, unfit};
use a429_console::refusals::{CommandRefusal, Refused};
use a429_equipment::Equipment;
use a429_station::{Control, ReplanFault, Station};
use std::alloc::{AllocError, Global};
use std::mem::swap;
use std::sync::Wait;

/// What a table is answered that is submitted to a running station.
#[derive(Drop)]
pub enum SubmitAnswer {
    /// Its plan is published under this number.
    Published(u64),
    /// The table or its plan has a fault.
    Refused(CommandRefusal),
    /// It is of another station.
    OtherStation,
    /// No number is left for its plan.
    NumbersSpent,
}

/// Resubmits tables one after another, and keeps what each is answered.
#[derive(Drop)]
pub struct Resubmits<'a> {
    alloc: Global,
    running: &'a Equipment,
    tables: &'a [Vec<u8>],
    pub answers: Vec<SubmitAnswer>,
    /// The tables that are refused, for a hint.
    warnings: Vec<Warning>,
}

impl<'a> Resubmits<'a> {
    /// The tables that are submitted again to the station of this equipment, before the first one was submitted.
    pub fn new(alloc: Global, running: &'a Equipment, tables: &'a [Vec<u8>]) -> Resubmits<'a>
        ensures tables { result.tables.now ≡ tables.now }
        ensures none { result.answers.items ≡ [] }
    {
        Resubmits {
            alloc,
            running,
            tables,
            answers: Vec::new(alloc),
            warnings: Vec::new(alloc),
        }
    }

    /// Hands on what was noted for a hint, if a table was refused.
    pub fn hand_warnings(&mut self, warnings: &mut Vec<Warning>)
        ensures taken { list_any is_refused self.old.answers.items ≡ false → warnings.new.items ≡ warnings.old.items }
        ensures answers { self.new.answers.items ≡ self.old.answers.items }
    {
        if self.answers.iter().any(is_refused) {
            swap(&mut self.warnings, warnings);
        }
    }
}

/// The answer of a refusal. Error: the refusal is that an allocation failed.
fn refused(refusal: CommandRefusal) -> Result<SubmitAnswer, AllocError>
    ensures { IfOk result (λ answer. (answer ≡ submitted.Refused refusal) × (refusal ≢ Memory)) }
{
    match refusal {
        CommandRefusal::Memory => Err(AllocError),
        other => Ok(SubmitAnswer::Refused(other)),
    }
}

/// The answer by the fault of a table whose equipment was read. Error: an allocation fails.
fn answer_of_fault(equipment: &Equipment, fault: ReplanFault) -> Result<SubmitAnswer, AllocError>
    ensures { AnswersFault equipment.now fault result }
{
    match fault {
        ReplanFault::Unfit { group, output } => {
            Ok(SubmitAnswer::Refused(unfit(equipment, group, output)))
        }
        ReplanFault::TooManyBuses { group, needed } => {
            Ok(SubmitAnswer::Refused(too_many_buses(equipment, group, needed)))
        }
        ReplanFault::StationDiffers => Ok(SubmitAnswer::OtherStation),
        ReplanFault::CountSpent => Ok(SubmitAnswer::NumbersSpent),
        // a table that was read has no fault
        ReplanFault::Table(_) | ReplanFault::NoMemory => Err(AllocError),
    }
}

/// Resubmits a table whose equipment was read. Error: an allocation fails.
fn answer_read<R: Wait>(
    alloc: Global,
    station: &mut Station<'_, R>,
    table: &[u8],
    equipment: &Equipment,
) -> Result<SubmitAnswer, AllocError>
    requires read { reading table.now ≡ Ok equipment.now }
    ensures answer { IfOk result (λ answer. IsAnswer station.old table.now answer station.new) }
    ensures on { GoesOn station.old station.new }
{
    match station.resubmit_read(table, equipment) {
        Ok(number) => Ok(SubmitAnswer::Published(number)),
        Err(fault) => answer_of_fault(equipment, fault),
    }
}

/// What a table is answered, and what was read of it, for a hint.
#[derive(Drop)]
struct TableAnswer {
    answer: SubmitAnswer,
    table: TableEvidence,
}

/// The answer to a table that is refused. Error: the refusal is that an allocation failed.
fn answer_refused(refusal: Refused) -> Result<TableAnswer, AllocError>
    ensures { IfOk result (λ given. (given.answer ≡ submitted.Refused refusal) × (refusal ≢ Memory)) }
{
    let (refusal, evidence) = refusal.into_parts();
    let answer = refused(refusal)?;
    let table = evidence.into_table();
    Ok(TableAnswer { answer, table })
}

/// Resubmits a table. Error: an allocation fails.
fn answer_to<R: Wait>(
    alloc: Global,
    station: &mut Station<'_, R>,
    table: &[u8],
) -> Result<TableAnswer, AllocError>
    ensures answer { IfOk result (λ given. IsAnswer station.old table.now given.answer station.new) }
    ensures on { GoesOn station.old station.new }
{
    match read_table(alloc, table) {
        Ok(equipment) => {
            let answer = answer_read(alloc, station, table, &equipment)?;
            let table = TableEvidence::of_equipment(equipment);
            Ok(TableAnswer { answer, table })
        }
        Err(refusal) => answer_refused(refusal.of_further(table.len())),
    }
}

/// Why the table of an answer was not taken, for a hint. `None` if it was, or if an allocation fails.
fn cause_of(
    alloc: Global,
    running: &Equipment,
    answer: &SubmitAnswer,
    table: &TableEvidence,
) -> Option<FurtherCause> {
    match (answer, &table.equipment) {
        (SubmitAnswer::Refused(refusal), _) => FurtherCause::of(refusal),
        (SubmitAnswer::OtherStation, Some(other)) => FurtherCause::of_stations(
            alloc, running, other,
        ),
        _ => None,
    }
}

/// Notes the table of this number, from 1, if its answer is a refusal.
fn note_answer(
    alloc: Global,
    running: &Equipment,
    number: usize,
    answer: &SubmitAnswer,
    table: TableEvidence,
    warnings: &mut Vec<Warning>,
) {
    if let Some(cause) = cause_of(alloc, running, answer, &table) {
        Warning::note_further(warnings, number, cause, table);
    }
}

/// Resubmits the table of this number, from 1, and notes it if it is refused. Error: an allocation fails.
fn answer_and_note<R: Wait>(
    alloc: Global,
    station: &mut Station<'_, R>,
    running: &Equipment,
    table: &[u8],
    number: usize,
    warnings: &mut Vec<Warning>,
) -> Result<SubmitAnswer, AllocError>
    ensures answer { IfOk result (λ answer. IsAnswer station.old table.now answer station.new) }
    ensures on { GoesOn station.old station.new }
{
    let TableAnswer {
        answer,
        table: read,
    } = answer_to(alloc, station, table)?;
    note_answer(alloc, running, number, &answer, read, warnings);
    Ok(answer)
}

/// Whether a table was refused.
fn is_refused(answer: &SubmitAnswer) -> bool
    ensures { result ≡ is_refused answer.now }
{
    matches!(
        answer,
        SubmitAnswer::Refused(_) | SubmitAnswer::OtherStation
    )
}

impl<'a, R: Wait> Control<R> for Resubmits<'a> {
    ghost use Rattle.std.specs.Prelude.{◌≡◌, []};
    ghost use Rattle.a429_console.specs.Files.{bytes_of};
    ghost use Rattle.a429_live.specs.Resubmitted.{AreAnswers};

    // from none on, its answers are those of the station to its tables
    ghost did = { λ before begin end after. before.answers.items ≡ [] → AreAnswers begin (bytes_of before.tables.now) after.answers.items end };

    fn run(&mut self, station: &mut Station<'_, R>) -> Result<(), AllocError> {
        for table in self.tables {
            let number = self.answers.len().saturating_add(1);
            let answer = answer_and_note(
                self.alloc,
                station,
                self.running,
                table,
                number,
                &mut self.warnings,
            )?;
            self.answers.push(answer)?;
        }
        Ok(())
    }
}
