//! The words that the sinks of a running station took.
ghost use Rattle.std.specs.Prelude.{◌≡◌, length, vec_len, IfSome};
ghost use Rattle.a429_station.specs.Course.{asked};
ghost use Rattle.a429_callers.specs.Origins.{HasRunInTime, HasRunOnLatestWords, HasRunOnOwnWords, HaveTakenGivenWords};

use crate::latency::known_words_go_out_in_time;
use a429_core::laws::word_was_accepted;
use a429_equipment::Equipment;
use a429_filter::LineSource;
use a429_station::{Control, Report, live};
use a429_workers::laws::one_run;
use a429_workers::{BusSink, Gate};
use std::alloc::Global;
use std::sync::Wait;
use std::thread::Threads;

/// Runs a station with a control. `None` if the run has an error of `live`. Each word that a sink took is one that the
/// line of the receiver of a source gave, and that the source accepts. It belongs to the source of the output in its
/// cell, by the plan that is in force there: it has the source's label and SDI, and came in at its receiver in this run.
/// What each group was asked for, the words that came in and the plans that were published are one run of the machine. In
/// this run each word that the group sends is the latest that was accepted before for its source. An output may have
/// stayed for a period. Then a word that its group knows of has gone out, it or a later one of its source, before one
/// period of the output has passed.
pub fn run_station<
    R: Threads + Wait,
    L: LineSource + Send + Drop,
    B: BusSink + Send + Drop,
    G: Gate + Sync,
    K: Control<R>,
>(
    rt: &R,
    alloc: Global,
    equipment: &Equipment,
    sources: Vec<L>,
    sinks: Vec<B>,
    frames: u32,
    gate: &G,
    control: &mut K,
) -> Option<Report<L, B>>
    requires sources { vec_len sources ≡ length equipment.now.receivers }
    requires sinks { vec_len sinks ≡ length equipment.now.groups }
    ensures given { IfSome result (HaveTakenGivenWords L.LineSource B.BusSink (asked equipment.now frames sources.items sinks.items)) }
    ensures own { IfSome result (HasRunOnOwnWords L.LineSource B.BusSink (asked equipment.now frames sources.items sinks.items)) }
    ensures latest { IfSome result (HasRunOnLatestWords L.LineSource B.BusSink (asked equipment.now frames sources.items sinks.items)) }
    ensures in_time { IfSome result (HasRunInTime L.LineSource B.BusSink (asked equipment.now frames sources.items sinks.items)) }
{
    one_run();
    word_was_accepted();
    known_words_go_out_in_time();
    equipment.rows_are_sound();
    match live(rt, alloc, equipment, sources, sinks, frames, gate, control) {
        Ok(report) => Some(report),
        Err(_) => None,
    }
}
