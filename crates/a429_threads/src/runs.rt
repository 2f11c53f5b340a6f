//! One run of a station, by threads of its receivers, its group and its planner.
ghost use Rattle.std.specs.Prelude.{◌≡◌, length, true};
ghost use Rattle.a429_equipment.specs.SameStation.{same_station};

use crate::support::{let_go, read};
use a429_callers::client::run_once;
use a429_equipment::Equipment;
use a429_filter::MemoryLine;
use a429_word::Word;
use a429_workers::{MemorySink, Sent};
use std::alloc::Global;
use std::process::Abort;
use std::sync::Wait;
use std::thread::Threads;

/// Receivers r and q with a source each, of the labels 001 and 002, and a group that sends both in every second slot.
const SLOW: &str = r#"version = 1
rate = 100000
receiver = [{ name = "r" }, { name = "q" }]
source = [
    { name = "x", receiver = "r", label = "001", sdi = "any" },
    { name = "y", receiver = "q", label = "002", sdi = "any" },
]
[[group]]
name = "g"
output = [
    { source = "x", min_us = 1, max_us = 720 },
    { source = "y", min_us = 1, max_us = 720 },
]
"#;

/// Receivers r and q with a source each, of the labels 001 and 002, and a group that sends both in every slot. A frame
/// has two cells.
const FAST: &str = r#"version = 1
rate = 100000
receiver = [{ name = "r" }, { name = "q" }]
source = [
    { name = "x", receiver = "r", label = "001", sdi = "any" },
    { name = "y", receiver = "q", label = "002", sdi = "any" },
]
[[group]]
name = "g"
output = [
    { source = "x", min_us = 1, max_us = 360 },
    { source = "y", min_us = 1, max_us = 360 },
]
"#;

/// The word of x, and that of y.
const X: u32 = 0x00000080;

const Y: u32 = 0x00000040;

/// A line that gives a word a hundred times.
fn line_of<R: Abort>(rt: &R, alloc: Global, word: u32) -> MemoryLine {
    MemoryLine::from_words(vec![in alloc; word; 100].expect(rt, "memory"))
}

/// Does one run of 50 frames, and says whether it came to its end.
fn run_fifty<R: Threads + Wait + Abort + Sync>(
    rt: &R,
    alloc: Global,
    station: &Equipment,
    next: &Equipment,
    sink: &mut MemorySink,
) -> bool
    requires ends { (length station.now.receivers ≡ 2) × (length station.now.groups ≡ 1) }
    requires same { same_station station.now next.now ≡ true }
{
    let mut first = line_of(rt, alloc, X);
    let mut second = line_of(rt, alloc, Y);
    let ran = run_once(rt, alloc, station, next, &mut first, &mut second, sink, 50);
    let_go(first);
    let_go(second);
    ran.is_some()
}

/// The equipment of one of these tables.
fn read_one<R: Abort>(rt: &R, alloc: Global, table: &str) -> Equipment
    ensures { (length result.receivers ≡ 2) × (length result.groups ≡ 1) }
{
    let equipment = read(rt, alloc, table);
    assert!(rt; equipment.receivers().len() == 2 && equipment.groups().len() == 1);
    equipment
}

/// Does that run by the tables above.
fn run_tables<R: Threads + Wait + Abort + Sync>(
    rt: &R,
    alloc: Global,
    sink: &mut MemorySink,
) -> bool {
    let station = read_one(rt, alloc, SLOW);
    let next = read_one(rt, alloc, FAST);
    assert!(rt; station.same_station(&next));
    let ran = run_fifty(rt, alloc, &station, &next, sink);
    let_go(station);
    let_go(next);
    ran
}

/// Whether each cell is empty or has one of the two words.
fn are_known(sent: &[Sent]) -> bool {
    let mut known = true;
    for cell in sent {
        known = known && matches!(cell.word.map(Word::raw), None | Some(X) | Some(Y));
    }
    known
}

/// Whether the sink of that run took a hundred such cells.
fn sends_known_cells<R: Threads + Wait + Abort + Sync>(rt: &R, alloc: Global) -> bool {
    let mut sink = MemorySink::new(alloc);
    let ran = run_tables(rt, alloc, &mut sink);
    let known = sink.sent().len() == 100 && are_known(sink.sent());
    let_go(sink);
    ran && known
}

#[test]
fn receivers_group_and_planner_do_one_run(rt: HostRuntime) {
    assert!(rt; sends_known_cells(&rt, rt.alloc()));
}
