//! The command `simulate`.
ghost use Rattle.std.specs.Prelude.{◌≡◌, ◌≤◌, ◌∷◌, true, IfOk, IsTrue, MatchResult, OnOk};
ghost use Rattle.a429_arguments.specs.Requests.{asked_of};
ghost use Rattle.a429_console.specs.Readings.{HasRead};
ghost use Rattle.a429_console.specs.Outputs.{CountsFault};
ghost use Rattle.a429_console.specs.RefusalText.{OrMemory};
ghost use Rattle.a429_console.specs.Replying.{HasReplied};
ghost use Rattle.a429_given.specs.GivenPlans.{IsNoGivenPlan};
ghost use Rattle.a429_given.specs.GivenTables.{table_texts};
ghost use Rattle.a429_recordings.specs.CellLines.{IsBeginOfSlot};
ghost use Rattle.a429_recordings.specs.CloseWords.{AreSpaced};
ghost use Rattle.a429_recordings.specs.LogItems.{PassesNone};
ghost use Rattle.a429_recordings.specs.SimulationReplies.{BeginsLog, BeginsNoLog, HasPrinted, HasPrintedLines, HasSummary, IsAskedSimulation, IsPreparing, IsWriterOf, IsSimulationReading, PassesNoAskedLine, PutsLines, RepliesSummary, SimulatesAskedSpacedWords, SimulationIsReady, files_of, line_style};
ghost use Rattle.a429_recordings.specs.SimulationRuns.{CanBePlayed, HasStationNames};

mod close;
mod figures;
mod lines;
mod log;
mod machine;
mod moments;
mod playing;
mod summary_rows;
mod tracks;

use crate::logs::keeping::bytes_in;
use crate::logs::reading_for;
use crate::logs::views::LogView;
use crate::simulate::close::close_receiver;
use crate::simulate::figures::Summary;
use crate::simulate::lines::{LineStyle, LineWriter, PendingLines};
use crate::simulate::log::read_words;
use crate::simulate::playing::Player;
use crate::simulate::summary_rows::summary_sheet;
use a429_arguments::options::OptionName;
use a429_arguments::requests::Asked;
use a429_console::answered::{Answered, plain_answer};
use a429_console::files::FileReader;
use a429_console::files::reading::read_logs;
use a429_console::hints::warnings::Warning;
use a429_console::output::endings::{finish, refuse_memory};
use a429_console::output::{Output, OutputFault};
use a429_console::refusals::{Refused, refuse};
use a429_console::reply::{Reply, put_reply};
use a429_given::{GivenTable, TableNames};
use a429_logs::Reading;
use a429_replay::{Names, put_if_full};
use a429_text::SheetForm;
use std::alloc::{AllocError, Global};

/// What a simulation prints, the summary or lines, and in which form or style; and until when in microseconds it asks for
/// cells.
#[derive(Clone, Copy)]
pub struct SimulationForm<'a> {
    pub until: Option<u64>,
    pub summary: bool,
    pub style: LineStyle,
    pub form: SheetForm,
    /// How the first line of the log is read.
    pub reading: Reading<'a>,
}

impl<'a> SimulationForm<'a> {
    ghost use Rattle.a429_arguments.specs.Requests.{asked_of};
    ghost use Rattle.a429_recordings.specs.SimulationReplies.{IsSimulationForm};

    /// The form that a request asks for.
    pub fn of(asked: &'a Asked<'_>) -> SimulationForm<'a>
        ensures { IsSimulationForm (asked_of asked.now).given result }
    {
        SimulationForm {
            until: asked.long_number(OptionName::Until),
            summary: asked.has(OptionName::Summary),
            style: line_style(asked.has(OptionName::Sent), asked.form()),
            form: asked.form(),
            reading: reading_for(asked),
        }
    }
}

/// How lines are written, by whether only the words that are sent have one, and by the form of what is printed.
fn line_style(sent: bool, form: SheetForm) -> LineStyle
    ensures { result ≡ line_style sent form }
{
    match (sent, form) {
        (true, _) => LineStyle::Log,
        (false, SheetForm::Csv) => LineStyle::Commas,
        (false, _) => LineStyle::Spaces,
    }
}

/// The bytes of the files that a simulation reads, and which words of the logs are taken.
#[derive(Drop)]
struct SimulationInput<'a> {
    table: GivenTable,
    logs: Vec<Vec<Vec<u8>>>,
    view: LogView<'a>,
}

/// What is simulated, before anything has happened: what the lines are written with, and a timeline on a station.
struct Simulation {
    writer: LineWriter,
    player: Player,
}

// Written by hand, a drop is one call in the proofs of its owners.
impl Drop for Simulation {
    fn drop(self) {
        let Self {
            writer: _,
            player: _,
        } = self;
    }
}

/// Reads the files that a request names.
fn read_input<'a, F: FileReader>(
    alloc: Global,
    files: &mut F,
    asked: &'a Asked<'_>,
) -> Result<SimulationInput<'a>, Refused>
    ensures { HasRead F.answers (λ file. IsSimulationReading file (asked_of asked.now) result) files.old files.new }
{
    let table = GivenTable::read(alloc, files, TableNames::of(asked))?;
    let logs = read_logs(alloc, files, asked.second, &asked.more)?;
    Ok(SimulationInput {
        table,
        logs,
        view: LogView::whole(asked),
    })
}

/// The station of a table. Error: there is no plan.
fn read_station(alloc: Global, table: &GivenTable, style: LineStyle) -> Result<LineWriter, Refused>
    ensures { MatchResult result (IsWriterOf (table_texts table.now) style) (OrMemory (IsNoGivenPlan (table_texts table.now))) }
{
    let proposal = table.propose(alloc)?;
    let names = Names::of(alloc, proposal.equipment())?;
    Ok(LineWriter {
        proposal,
        names,
        style,
    })
}

/// Logs on a station, with slots up to the time that the form asks for. Error: the log is refused, or a group would send
/// too much.
fn read_player<'a, F: FileReader>(
    alloc: Global,
    files: &F,
    writer: &LineWriter,
    input: &'a SimulationInput<'a>,
    form: SimulationForm<'a>,
    warnings: &mut Vec<Warning>,
) -> Result<Player, Refused>
    ensures silent { PassesNone form.entry.reading (files_of input.now).logs → warnings.new.items ≡ warnings.old.items }
    ensures player { MatchResult result (BeginsLog writer.now (files_of input.now) form.entry)
        (OrMemory (BeginsNoLog writer.now (files_of input.now) form.entry)) }
{
    let words = read_words(
        alloc,
        files,
        &writer.names,
        input.view,
        form.reading,
        &input.logs,
        warnings,
    )?;
    Player::open(alloc, &writer.proposal, words, form.until)
}

/// What is simulated. Error: the table, its plan or the log is refused, or a group would send too much.
fn prepare<'a, F: FileReader>(
    alloc: Global,
    files: &F,
    input: &'a SimulationInput<'a>,
    form: SimulationForm<'a>,
    warnings: &mut Vec<Warning>,
) -> Result<Simulation, Refused>
    ensures silent { PassesNone form.entry.reading (files_of input.now).logs → warnings.new.items ≡ warnings.old.items }
    ensures prepared { IsPreparing (files_of input.now) form.entry result }
{
    let writer = read_station(alloc, &input.table, form.style)?;
    let player = read_player(alloc, files, &writer, input, form, warnings)?;
    Ok(Simulation { writer, player })
}

/// Notes a receiver, if the words of the log come to it too closely.
fn note_close_words(simulation: &Simulation, warnings: &mut Vec<Warning>)
    ensures { AreSpaced simulation.now.player.timeline.words.items → warnings.new.items ≡ warnings.old.items }
{
    let Some(receiver) = close_receiver(simulation.player.words()) else {
        return;
    };
    let receivers = simulation.writer.proposal.equipment().receivers();
    if let Some(row) = receivers.get(usize::from(receiver)) {
        Warning::note_close_words(warnings, row.name);
    }
}

/// After how many steps it is shown again how much is done.
const STRIDE: usize = 1 << 14;

/// The files of a simulation, and how many bytes its logs have, to show how much is done.
#[derive(Clone, Copy)]
struct PlayedFiles<'a, F> {
    files: &'a F,
    bytes: usize,
}

impl<F: FileReader> PlayedFiles<'_, F> {
    /// Shows how much is done after this number of steps, now and then.
    fn show(&self, steps: usize, player: &Player) {
        if steps % STRIDE == 0 {
            self.files
                .show_done(player.bytes_played(self.bytes), self.bytes);
        }
    }
}

/// Plays what is simulated to its end, and puts lines out when they have become many; those that are left are in `lines`.
/// Whether memory sufficed for all.
fn put_lines<F: FileReader, O: Output>(
    played: PlayedFiles<'_, F>,
    writer: &LineWriter,
    player: &mut Player,
    lines: &mut PendingLines,
    out: &mut O,
) -> Result<bool, OutputFault>
    requires names { HasStationNames writer.now.names writer.now.proposal }
    requires playable { CanBePlayed writer.now.proposal player.old }
    requires begin { IsBeginOfSlot writer.now.proposal writer.now.style lines.old.begin }
    ensures put { PutsLines O.contents writer.now.proposal writer.now.style player.old out.old out.new
        lines.old.text.items lines.new.text.items result }
    ensures faults { CountsFault result (O.failures out.old) (O.failures out.new) }
{
    let mut steps: usize = 0;
    while let Some(happening) = player.next(&writer.proposal) {
        let Ok(()) = writer.push(lines, happening) else {
            return Ok(false);
        };
        put_if_full(&mut lines.text, out)?;
        steps = steps.wrapping_add(1);
        played.show(steps, player);
    }
    played.files.show_end();
    Ok(true)
}

/// Plays what is simulated, and puts the lines of that. If an allocation fails before the end, these lines end with
/// `refused memory`.
fn print_lines<F: FileReader, O: Output>(
    alloc: Global,
    played: PlayedFiles<'_, F>,
    simulation: &mut Simulation,
    out: &mut O,
) -> Result<u8, OutputFault>
    requires { SimulationIsReady simulation.old }
    ensures printed { HasPrintedLines simulation.old (O.contents out.old) (O.contents out.new) result }
    ensures status { IfOk result (λ status. status ≤ 1) }
    ensures flushed { OnOk result (IsTrue (O.is_flushed out.new)) }
    ensures faults { CountsFault result (O.failures out.old) (O.failures out.new) }
{
    let writer = &simulation.writer;
    let Ok(mut lines) = PendingLines::open(alloc, writer.style) else {
        return refuse_memory(out);
    };
    let sufficed = put_lines(played, writer, &mut simulation.player, &mut lines, out)?;
    finish(&lines.text, sufficed, out)
}

/// Plays what is simulated to its end: the summary of that in a form. Error: an allocation failed.
fn summarize<F: FileReader>(
    alloc: Global,
    played: PlayedFiles<'_, F>,
    writer: &LineWriter,
    player: &mut Player,
    form: SheetForm,
) -> Result<Vec<u8>, AllocError>
    requires { CanBePlayed writer.now.proposal player.old }
    ensures { IfOk result (λ text. HasSummary writer.now player.old form text.items) }
{
    let mut summary = Summary::open(alloc)?;
    let mut steps: usize = 0;
    while let Some(happening) = player.next(&writer.proposal) {
        summary.note(&writer.proposal, happening);
        steps = steps.wrapping_add(1);
        played.show(steps, player);
    }
    played.files.show_end();
    summary_sheet(alloc, &writer.proposal, &summary).render(alloc, form)
}

/// Plays what is simulated to its end: the reply is the summary of that in a form. Error: an allocation failed.
fn summary_reply<F: FileReader>(
    alloc: Global,
    played: PlayedFiles<'_, F>,
    simulation: &mut Simulation,
    form: SheetForm,
) -> Result<Reply, Refused>
    requires { SimulationIsReady simulation.old }
    ensures { RepliesSummary simulation.old form result }
{
    let Simulation { writer, player } = simulation;
    let text = summarize(alloc, played, writer, player, form)?;
    Ok(Reply::done(text))
}

/// Plays what is simulated, and puts the summary of that, or its lines.
fn print_simulation<F: FileReader, O: Output>(
    alloc: Global,
    played: PlayedFiles<'_, F>,
    simulation: &mut Simulation,
    form: SimulationForm<'_>,
    out: &mut O,
) -> Result<Answered, OutputFault>
    requires ready { SimulationIsReady simulation.old }
    requires style { simulation.old.writer.style ≡ form.style }
    ensures printed { HasPrinted simulation.old form.entry (O.contents out.old) (O.contents out.new) result }
    ensures status { IfOk result (λ status. status ≤ 1) }
    ensures flushed { OnOk result (IsTrue (O.is_flushed out.new)) }
    ensures faults { CountsFault result (O.failures out.old) (O.failures out.new) }
{
    if form.summary {
        let reply = summary_reply(alloc, played, simulation, form.form);
        put_reply(alloc, reply, 1, out)
    } else {
        plain_answer(print_lines(alloc, played, simulation, out))
    }
}

/// Plays the words of logs on the station of a table, by its own plan or that of a plan text, at their times. It puts a line for each word that is sent or
/// refused, or only for those that are sent, or instead the summary of what each output sent. A refusal is one line
/// instead. The status is 0, or 1 after a refusal, or if an allocation fails after the first lines. A receiver to which
/// words come too closely is noted, and so is what is passed over in a log. Error: the output failed.
pub fn simulate<F: FileReader, O: Output>(
    alloc: Global,
    files: &mut F,
    asked: &Asked,
    warnings: &mut Vec<Warning>,
    out: &mut O,
) -> Result<Answered, OutputFault>
    ensures simulated { HasReplied F.answers O.contents (λ file. IsAskedSimulation file (asked_of asked.now))
        files.old files.new out.old out.new result }
    ensures silent { HasRead F.answers
        (λ file. PassesNoAskedLine file ((asked_of asked.now).second ∷ (asked_of asked.now).more) (asked_of asked.now).given
        → SimulatesAskedSpacedWords file (asked_of asked.now) → warnings.new.items ≡ warnings.old.items) files.old files.new }
    ensures status { IfOk result (λ status. status ≤ 1) }
    ensures flushed { OnOk result (IsTrue (O.is_flushed out.new)) }
    ensures faults { CountsFault result (O.failures out.old) (O.failures out.new) }
{
    let form = SimulationForm::of(asked);
    let input = match read_input(alloc, files, asked) {
        Ok(input) => input,
        Err(refusal) => return refuse(alloc, refusal, out),
    };
    match prepare(alloc, files, &input, form, warnings) {
        Ok(mut simulation) => {
            note_close_words(&simulation, warnings);
            let bytes = bytes_in(&input.logs);
            let played = PlayedFiles { files, bytes };
            print_simulation(alloc, played, &mut simulation, form, out)
        }
        Err(refusal) => refuse(alloc, refusal, out),
    }
}
