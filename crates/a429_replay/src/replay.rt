//! The command `replay`.
ghost use Rattle.std.specs.Prelude.{◌≡◌, ◌≤◌, IfOk, IsTrue, MatchResult, OnOk, length};
ghost use Rattle.a429_arguments.specs.Texts.{texts_of};
ghost use Rattle.a429_console.specs.Readings.{HasRead};
ghost use Rattle.a429_console.specs.Outputs.{CountsFault};
ghost use Rattle.a429_console.specs.RefusalText.{OrMemory};
ghost use Rattle.a429_given.specs.GivenTables.{table_names};
ghost use Rattle.a429_replay.specs.Kept.{TakesAllTables};
ghost use Rattle.a429_replay.specs.Replaying.{HasReplayed, IsNoStart, TakesFurther};
ghost use Rattle.a429_replay.specs.Opened.{AreTablesRead, IsInputReading, IsOutcomePut, IsPreparedFor, input_of};
ghost use Rattle.a429_replay.specs.Views.{asked_view};

use crate::further::{FurtherTable, further_tables, note_faults};
use crate::kept::KeptEvent;
use crate::pending::Pending;
use crate::playing::play_all;
use crate::script::{ScriptForm, read_script};
use crate::station::ReplayStation;
use crate::views::{ReplayForm, View, view_of};
use a429_console::answered::{Answered, plain_answer};
use a429_console::files::FileReader;
use a429_console::files::reading::{read_file, read_files};
use a429_console::hints::warnings::Warning;
use a429_console::output::endings::finish;
use a429_console::output::{Output, OutputFault};
use a429_console::refusals::{Refused, refuse};
use a429_given::{GivenTable, TableNames};
use std::alloc::Global;

/// The bytes of the files that a replay reads.
#[derive(Drop)]
struct Input {
    table: GivenTable,
    script: Vec<u8>,
    further: Vec<FurtherTable>,
}

/// Reads the files of further tables of these names.
fn read_further<F: FileReader>(
    alloc: Global,
    files: &mut F,
    names: &[&str],
) -> Result<Vec<FurtherTable>, Refused>
    ensures { HasRead F.answers (λ file. AreTablesRead file (texts_of names.now) result) files.old files.new }
{
    let tables = read_files(alloc, files, names)?;
    Ok(further_tables(alloc, tables)?)
}

/// Reads the files of these names.
fn read_input<F: FileReader>(
    alloc: Global,
    files: &mut F,
    table: TableNames<'_>,
    script: &str,
    further: &[&str],
) -> Result<Input, Refused>
    ensures { HasRead F.answers (λ file. IsInputReading file table.entry script.now (texts_of further.now) result) files.old files.new }
{
    let table = GivenTable::read(alloc, files, table)?;
    let script = read_file(alloc, files, script)?;
    let further = read_further(alloc, files, further)?;
    Ok(Input {
        table,
        script,
        further,
    })
}

/// A station, the events that are to happen to it, what is printed of their answers, and the lines before these.
#[derive(Drop)]
struct PreparedReplay {
    station: ReplayStation,
    view: View,
    events: Vec<KeptEvent>,
    lines: Pending,
}

/// The station that is given, with the events of the script, if that is one of it. Error: the table, its plan, the group
/// whose answers are asked for, or the script is refused.
fn prepare(alloc: Global, input: &Input, asked: &ReplayForm<'_>) -> Result<PreparedReplay, Refused>
    ensures { MatchResult result (IsPreparedFor (input_of input.now) (asked_view asked.now))
        (OrMemory (IsNoStart (input_of input.now) (asked_view asked.now))) }
{
    let station = ReplayStation::open(alloc, &input.table)?;
    let view = view_of(alloc, &station.names, asked)?;
    let form = ScriptForm {
        names: &station.names,
        further: input.further.len(),
    };
    let events = read_script(alloc, &form, &input.script)?;
    let lines = Pending::open(alloc, view)?;
    Ok(PreparedReplay {
        station,
        view,
        events,
        lines,
    })
}

/// Plays events on the station, and puts their lines. If an allocation fails before the end, these lines end with
/// `refused memory`.
fn play_prepared<O: Output>(
    alloc: Global,
    prepared: &mut PreparedReplay,
    input: &mut Input,
    out: &mut O,
) -> Result<u8, OutputFault>
    requires { TakesAllTables (length (input_of input.old).further) prepared.old.events.items }
    ensures played { IfOk result (IsOutcomePut (input_of input.old) prepared.old (O.contents out.old) (O.contents out.new)) }
    ensures station { prepared.new.station.equipment ≡ prepared.old.station.equipment }
    ensures input { input_of input.new ≡ input_of input.old }
    ensures status { IfOk result (λ status. status ≤ 1) }
    ensures flushed { OnOk result (IsTrue (O.is_flushed out.new)) }
    ensures faults { CountsFault result (O.failures out.old) (O.failures out.new) }
{
    let further = &mut input.further;
    let station = &mut prepared.station;
    let lines = &mut prepared.lines;
    let sufficed = play_all(
        alloc,
        &mut station.state,
        prepared.view,
        &station.names,
        further,
        &prepared.events,
        lines,
        out,
    )?;
    finish(&lines.text, sufficed, out)
}

/// Plays a script on the station of a table, by its own plan or that of a plan text. It puts of the answer to each event what
/// is asked for: its line or its row, or nothing. A refusal is one line instead. The status is 0, or 1 after a refusal, or if an allocation fails after the
/// first lines. The further tables that were published, and that the station did not take, are noted. Error: the output
/// failed.
pub fn replay<F: FileReader, O: Output>(
    alloc: Global,
    files: &mut F,
    table: TableNames<'_>,
    script: &str,
    more: &[&str],
    asked: &ReplayForm<'_>,
    warnings: &mut Vec<Warning>,
    out: &mut O,
) -> Result<Answered, OutputFault>
    ensures replayed { HasReplayed F.answers O.contents asked.now table.entry script.now more.now files.old files.new
        out.old out.new result }
    ensures taken { HasRead F.answers (λ file. TakesFurther file (table_names table.entry) script.now (texts_of more.now)
        → warnings.new.items ≡ warnings.old.items) files.old files.new }
    ensures status { IfOk result (λ status. status ≤ 1) }
    ensures flushed { OnOk result (IsTrue (O.is_flushed out.new)) }
    ensures faults { CountsFault result (O.failures out.old) (O.failures out.new) }
{
    let mut input = match read_input(alloc, files, table, script, more) {
        Ok(input) => input,
        Err(refusal) => return refuse(alloc, refusal, out),
    };
    match prepare(alloc, &input, asked) {
        Ok(mut prepared) => {
            let status = play_prepared(alloc, &mut prepared, &mut input, out);
            note_faults(alloc, &prepared.station.equipment, input.further, warnings);
            plain_answer(status)
        }
        Err(refusal) => refuse(alloc, refusal, out),
    }
}
