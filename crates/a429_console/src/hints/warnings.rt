//! What a command warns of, if it is not refused.
ghost use Rattle.std.specs.Prelude.{◌≡◌, IsNone};
ghost use Rattle.a429_console.specs.declared.refusals.CommandRefusal.TheVariants.{Memory};

use crate::refusals::CommandRefusal;
use crate::refusals::evidence::TableEvidence;
use a429_arguments::times::{Drift, Shift};
use a429_equipment::{Equipment, Name};
use a429_table::FaultKind;
use std::alloc::Global;

/// Why the plan of a further table cannot be published.
#[derive(Drop)]
pub enum FurtherCause {
    /// The table has a fault of this kind.
    Fault(FaultKind),
    /// The table has outputs without a period.
    Unfit,
    /// The group needs this number of buses, which is more than 16.
    TooManyBuses {
        group: Name,
        needed: usize,
    },
    /// The table is of another station than the one that runs.
    OtherStation {
        running: Equipment,
        other: Equipment,
    },
}

impl FurtherCause {
    /// The cause by the refusal of the table. `None` if an allocation failed.
    pub fn of(refusal: &CommandRefusal) -> Option<FurtherCause>
        ensures { refusal.now ≡ Memory → IsNone result }
    {
        match refusal {
            CommandRefusal::Table(kind, _) => Some(FurtherCause::Fault(*kind)),
            CommandRefusal::Unfit { .. } => Some(FurtherCause::Unfit),
            CommandRefusal::TooManyBuses { group, needed } => Some(FurtherCause::TooManyBuses {
                group: *group,
                needed: *needed,
            }),
            _ => None,
        }
    }

    /// The cause of a table of another station than the one that runs. `None` if an allocation fails.
    pub fn of_stations(
        alloc: Global,
        running: &Equipment,
        other: &Equipment,
    ) -> Option<FurtherCause> {
        let running = running.copied(alloc).ok()?;
        let other = other.copied(alloc).ok()?;
        Some(FurtherCause::OtherStation { running, other })
    }
}

/// A further table whose plan cannot be published.
#[derive(Drop)]
pub struct FurtherFault {
    /// Its number among the further tables, from 1.
    pub number: usize,
    pub cause: FurtherCause,
    pub table: TableEvidence,
}

/// How many outputs of a plan stay at their places, are at another place, are new, and are gone.
#[derive(Clone, Copy)]
pub struct KeptCounts {
    pub stay: usize,
    pub moved: usize,
    pub added: usize,
    pub gone: usize,
}

/// The place of an output, as a plan text states it: the period and the offset in slots, and the bus.
#[derive(Clone, Copy)]
pub struct StatedPlace {
    pub period: u64,
    pub bus: u64,
    pub offset: u64,
}

/// An output that is at another place than before.
#[derive(Drop)]
pub struct MovedOutput {
    pub group: String,
    pub source: String,
    pub before: StatedPlace,
    pub after: StatedPlace,
}

/// The clock of what was sent, as it was found by the words of two logs: how its times are moved, how many words say so, how
/// many of these do not fit, and how far the shift may be off by the others, in microseconds.
#[derive(Clone, Copy)]
pub struct FoundClock {
    pub shift: Shift,
    pub drift: Drift,
    pub words: usize,
    pub unfit: usize,
    pub margin: u64,
}

/// What is passed over in a log: it is no heading, and states no word.
#[derive(Clone, Copy)]
pub struct PassedLines {
    /// The number of the log, from 0 in the order in which logs are read.
    pub log: usize,
    /// How many lines above the heading.
    pub titles: usize,
    /// The first line after the last word, from 1, if it and those after it are passed over.
    pub tail: Option<usize>,
}

/// What an answer that is no refusal warns of.
#[derive(Drop)]
pub enum Warning {
    /// The plan of a further table cannot be published.
    Further(FurtherFault),
    /// In a log too many words in a row come to the receiver of this name more closely than a bus can carry them.
    CloseWords(Name),
    /// All intervals of the group of this name are below 1000 µs, and none allows a period: they may be milliseconds.
    ShortIntervals(Name),
    /// The intervals of the group of this name may be milliseconds: the finding of `lint`.
    MillisGroup(Name),
    /// This number of rows below the imported ones have no label, and were passed over as notes.
    Notes(usize),
    /// How many outputs of a plan stay at their places.
    Kept(KeptCounts),
    /// This output does not stay.
    Moved(MovedOutput),
    /// The clock of what was sent was looked for. `None`: it was not found.
    Clock(Option<FoundClock>),
    /// Lines of a log are passed over.
    Passed(PassedLines),
}

/// Notes a warning, unless an allocation fails.
fn note(warnings: &mut Vec<Warning>, warning: Warning) {
    let _ = warnings.push(warning);
}

impl Warning {
    /// Notes a further table whose plan cannot be published, unless an allocation fails.
    pub fn note_further(
        warnings: &mut Vec<Warning>,
        number: usize,
        cause: FurtherCause,
        table: TableEvidence,
    ) {
        note(
            warnings,
            Warning::Further(FurtherFault {
                number,
                cause,
                table,
            }),
        );
    }

    /// Notes a receiver to which words come too closely, unless an allocation fails.
    pub fn note_close_words(warnings: &mut Vec<Warning>, receiver: Name) {
        note(warnings, Warning::CloseWords(receiver));
    }

    /// Notes a group whose intervals may be milliseconds, unless an allocation fails.
    pub fn note_short_intervals(warnings: &mut Vec<Warning>, group: Name) {
        note(warnings, Warning::ShortIntervals(group));
    }

    /// Notes a group with the finding `milliseconds` of `lint`, unless an allocation fails.
    pub fn note_millis_group(warnings: &mut Vec<Warning>, group: Name) {
        note(warnings, Warning::MillisGroup(group));
    }

    /// Notes how many outputs of a plan stay, unless an allocation fails.
    pub fn note_kept(warnings: &mut Vec<Warning>, counts: KeptCounts) {
        note(warnings, Warning::Kept(counts));
    }

    /// Notes an output that does not stay, unless an allocation fails.
    pub fn note_moved(warnings: &mut Vec<Warning>, output: MovedOutput) {
        note(warnings, Warning::Moved(output));
    }

    /// Notes what is passed over in a log, unless an allocation fails.
    pub fn note_passed(warnings: &mut Vec<Warning>, lines: PassedLines) {
        note(warnings, Warning::Passed(lines));
    }

    /// Notes the clock that was looked for, unless an allocation fails.
    pub fn note_clock(warnings: &mut Vec<Warning>, clock: Option<FoundClock>) {
        note(warnings, Warning::Clock(clock));
    }

    /// Notes a number of rows that were passed over, unless an allocation fails.
    pub fn note_notes(warnings: &mut Vec<Warning>, count: usize) {
        note(warnings, Warning::Notes(count));
    }
}
