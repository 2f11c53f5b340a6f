//! Scripts played on a station.
ghost use Rattle.std.specs.Prelude.{◌≡◌, ◌<◌, OnOk, OnErr, length};
ghost use Rattle.a429_console.specs.Outputs.{CountsFault};
ghost use Rattle.a429_replay.specs.declared.script.ScriptEvent.TheVariants.{Publish};
ghost use Rattle.a429_replay.specs.Kept.{TakesAllTables, events_of};
ghost use Rattle.a429_replay.specs.Playing.{HasTable, PlaysAll, PlaysOne};

use crate::further::FurtherTable;
use crate::kept::KeptEvent;
use crate::names::Names;
use crate::pending::{Pending, put_if_full};
use crate::script::ScriptEvent;
use crate::views::View;
use a429_console::output::{Output, OutputFault};
use a429_core::StationState;
use a429_core::laws::calls_are_answered;
use std::alloc::{AllocError, Global};

/// Publishes the further table of a number, and appends what is printed of its answer. If an allocation fails, nothing is appended.
fn play_publication(
    alloc: Global,
    state: &mut StationState,
    view: View,
    names: &Names,
    further: &mut [FurtherTable],
    number: usize,
    lines: &mut Pending,
) -> Result<(), AllocError>
    requires { HasTable (length further.old) (Publish number) }
    ensures played { OnOk result (PlaysOne view names.now further.old (Publish number)
        state.old state.new lines.old.text.items lines.new.text.items) }
    ensures kept { OnErr result (lines.new.text.items ≡ lines.old.text.items) }
    ensures same { further.new ≡ further.old }
{
    further[number - 1].publish(alloc, state, view, names, lines)
}

/// Plays an event of a script, and appends what is printed of its answer. If an allocation fails, nothing is appended.
#[inline(always)]
fn play(
    alloc: Global,
    state: &mut StationState,
    view: View,
    names: &Names,
    further: &mut [FurtherTable],
    event: ScriptEvent,
    lines: &mut Pending,
) -> Result<(), AllocError>
    requires { HasTable (length further.old) event }
    ensures played { OnOk result (PlaysOne view names.now further.old event
        state.old state.new lines.old.text.items lines.new.text.items) }
    ensures kept { OnErr result (lines.new.text.items ≡ lines.old.text.items) }
    ensures same { further.new ≡ further.old }
{
    calls_are_answered();
    match event {
        ScriptEvent::Arrive(receiver, raw) => {
            let answer = state.arrive(usize::from(receiver), raw);
            lines.push_answer(view, names, event, answer)
        }
        ScriptEvent::Cell(group) => {
            let answer = state.cell(usize::from(group));
            lines.push_answer(view, names, event, answer)
        }
        ScriptEvent::Frame(group) => {
            let answer = state.frame(usize::from(group));
            lines.push_answer(view, names, event, answer)
        }
        ScriptEvent::Publish(number) => {
            play_publication(alloc, state, view, names, further, number, lines)
        }
    }
}

/// Plays events one after another. Their lines are put out when they have become many, and those that are left are in
/// `lines`. The result is whether memory sufficed for all. Error: the output failed.
pub fn play_all<O: Output>(
    alloc: Global,
    state: &mut StationState,
    view: View,
    names: &Names,
    further: &mut [FurtherTable],
    events: &[KeptEvent],
    lines: &mut Pending,
    out: &mut O,
) -> Result<bool, OutputFault>
    requires { TakesAllTables (length further.old) events.now }
    ensures played { PlaysAll O.contents view names.now further.old (events_of events.now) state.old
        out.old out.new lines.old lines.new result }
    ensures few { OnOk result (length lines.old.text.items < 65536 → length lines.new.text.items < 65536) }
    ensures faults { CountsFault result (O.failures out.old) (O.failures out.new) }
    ensures same { further.new ≡ further.old }
{
    for kept in events {
        let event = kept.event();
        let Ok(()) = play(alloc, state, view, names, further, event, lines) else {
            return Ok(false);
        };
        put_if_full(&mut lines.text, out)?;
    }
    Ok(true)
}
