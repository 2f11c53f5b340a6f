//! A program of its own on the libraries of a429: copy it, and put your devices in the places of its two.
//!
//! ```text
//! usage: a429_uses TABLE NEXT FRAMES WORDS < LINES
//! ```
//!
//! It runs the station of the table TABLE, which has one receiver and one group. The words that come in are the lines
//! of standard input, eight hexadecimal digits each. The group sends FRAMES frames, and prints each word as a line of
//! standard output. During the run the plan of the table NEXT is published. So that the same words go out in each run,
//! the group waits until WORDS words were taken.
//!
//! | File | Has | In your program |
//! |---|---|---|
//! | `line.rt` | `HexLine`: a line whose words come as text | your receiver |
//! | `bus.rt` | `PrintBus`: a bus that prints words | your transmitter |
//! | `control.rt` | `PublishControl`: what runs next to the station, here `publish` | what publishes your tables |
//! | `pacing.rt` | `LateStart`: when the group begins | `OpenGate` of `a429_workers` |
//! | `station.rt` | `run_station`, `run_printing`: threads, and what is proved of them | as it is |
//! | `listening.rt` | `listen`: a receiver and its line, of any length | as it is |
//! | `calls.rt` | words, plans and the machine, without threads | as you need it |
//! | `started.rt` | `run_all`: a station whose threads are started for it | as you need it |
//! | `history.rt` | `History`: what a device did, for proofs | as it is |
//! | `showing.rt` | what else this program prints | nothing |
#![tactic(auto)]

ghost use Rattle.std.specs.Prelude.{◌≡◌, [], IfOk};
ghost use Rattle.a429_uses.specs.Histories.{items_of};
ghost use Rattle.a429_uses.specs.Stations.{HasOneOfEach};

mod bus;
mod calls;
mod control;
mod history;
mod line;
mod listening;
mod pacing;
mod showing;
mod started;
mod station;

use crate::bus::PrintBus;
use crate::control::PublishControl;
use crate::line::HexLine;
use crate::pacing::{LateStart, Marks};
use crate::showing::{show_alone, show_answers, show_started};
use crate::station::run_printing;
use a429_equipment::Equipment;
use a429_table::read_equipment;
use anyhow::ensure;
use std::env::Env;
use std::fs::Files;
use std::io::{BufRead, BufReader, Write};
use std::process::ExitCode;
use std::sync::Wait;
use std::thread::Threads;
use std::time::Clock;
use std::{env, fs, io};

const USAGE: &str = "usage: a429_uses TABLE NEXT FRAMES WORDS < LINES";

/// The two tables and the two numbers of the command line.
#[derive(Drop)]
struct UseArguments {
    table: Vec<u8>,
    next: Vec<u8>,
    frames: u32,
    words: u64,
}

/// The arguments, with the program's name first.
fn given_words<R: Env + AllocGlobal>(rt: &R) -> io::Result<Vec<String>> {
    let mut words = Vec::new(rt.alloc());
    for word in env::args(rt)? {
        words.push(word)?;
    }
    Ok(words)
}

/// Reads two tables.
fn read_tables<R: Files + AllocGlobal>(
    rt: &R,
    table: &str,
    next: &str,
    frames: u32,
    words: u64,
) -> anyhow::Result<Option<UseArguments>> {
    let table = fs::read(rt, table)?;
    let next = fs::read(rt, next)?;
    Ok(Some(UseArguments {
        table,
        next,
        frames,
        words,
    }))
}

/// Reads the arguments and the tables. `None` if there are not exactly these four arguments.
fn read_arguments<R: Env + Files + AllocGlobal>(rt: &R) -> anyhow::Result<Option<UseArguments>> {
    let words = given_words(rt)?;
    let [_, table, next, frames, count] = words.as_slice() else {
        return Ok(None);
    };
    match (frames.parse(), count.parse()) {
        (Ok(frames), Ok(words)) => read_tables(rt, table.as_str(), next.as_str(), frames, words),
        _ => Ok(None),
    }
}

/// Reads the table, which has one receiver and one group.
fn open_table<R: AllocGlobal>(rt: &R, request: &UseArguments) -> anyhow::Result<Equipment>
    ensures { IfOk result HasOneOfEach }
{
    let equipment = read_equipment(rt.alloc(), &request.table)?;
    let (receivers, groups) = (equipment.receivers().len(), equipment.groups().len());
    ensure!(
        receivers == 1 && groups == 1,
        "the table has another number of receivers or groups than one"
    );
    Ok(equipment)
}

/// Prints what the calls without threads answer, and what a station did whose threads were started for it.
fn show_more<R: Print + AllocGlobal + Threads + Wait>(
    rt: &R,
    request: &UseArguments,
    equipment: &Equipment,
) -> anyhow::Result<()>
    requires { HasOneOfEach equipment.now }
{
    show_alone(rt, &request.table)?;
    show_started(rt, equipment)
}

/// Runs the station of a table on two devices, and prints what its threads answered.
fn run_devices<
    R: Print + AllocGlobal + Clock + Threads + Wait + Sync,
    I: BufRead + Send + Drop,
    W: Write + Send + Drop,
>(
    rt: &R,
    request: &UseArguments,
    equipment: &Equipment,
    line: &mut HexLine<I>,
    bus: &mut PrintBus<W>,
) -> anyhow::Result<()>
    requires one { HasOneOfEach equipment.now }
    requires begin { items_of bus.old.taken ≡ [] }
{
    let marks = Marks::none();
    let gate = LateStart {
        rt,
        words: request.words,
        marks: &marks,
    };
    let control = PublishControl {
        table: &request.next,
        marks: &marks,
    };
    let done = run_printing(
        rt,
        rt.alloc(),
        equipment,
        line,
        bus,
        request.frames,
        &gate,
        &control,
    )?;
    show_answers(rt, done)
}

fn main(rt: HostRuntime) -> anyhow::Result<ExitCode> {
    let Some(request) = read_arguments(&rt)? else {
        rt.eprintln(USAGE)?;
        return Ok(ExitCode::from(2));
    };
    let equipment = open_table(&rt, &request)?;
    show_more(&rt, &request, &equipment)?;
    let mut line = HexLine::new(BufReader::new(rt.alloc(), rt.reader())?);
    let mut bus = PrintBus::new(rt.stdout());
    run_devices(&rt, &request, &equipment, &mut line, &mut bus)?;
    Ok(ExitCode::SUCCESS)
}
