//! A station whose threads are started for it.
ghost use Rattle.std.specs.Prelude.{⊤, ◌≡◌, length, vec_len, IfErr, IfOk};
ghost use Rattle.a429_station.specs.Course.{HasRun, asked};
ghost use Rattle.a429_station.specs.Faults.{IsLiveFault};
ghost use Rattle.a429_uses.specs.OpenPoints.{open_points};

use a429_equipment::Equipment;
use a429_filter::LineSource;
use a429_station::{LiveFault, NoControl, Report, live};
use a429_workers::{BusSink, OpenGate};
use std::alloc::Global;
use std::sync::Wait;
use std::thread::Threads;

/// Runs a station of any number of receivers and groups, with a line for each receiver and a bus for each group. Each
/// group sends this number of frames, and each receiver takes the words of its line, a million at most. It answers when
/// all have ended. What each group did is then one run of the machine. The error is that of `live`, whose gate is open:
/// the table has no plan, there are more than a million frames, or a thread is not started. Otherwise it is the first
/// fault of a line or of a bus, or a failed allocation.
pub fn run_all<R: Threads + Wait, L: LineSource + Send + Drop, B: BusSink + Send + Drop>(
    rt: &R,
    alloc: Global,
    equipment: &Equipment,
    lines: Vec<L>,
    buses: Vec<B>,
    frames: u32,
) -> Result<Report<L, B>, LiveFault>
    requires lines { vec_len lines ≡ length equipment.now.receivers }
    requires buses { vec_len buses ≡ length equipment.now.groups }
    ensures ran { IfOk result (HasRun L.LineSource B.BusSink (asked equipment.now frames lines.items buses.items)) }
    ensures fault { IfErr result (IsLiveFault ⊤ L.LineSource B.BusSink open_points (asked equipment.now frames lines.items buses.items)) }
{
    live(
        rt,
        alloc,
        equipment,
        lines,
        buses,
        frames,
        &OpenGate,
        &mut NoControl,
    )
}
