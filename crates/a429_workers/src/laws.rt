//! What a transmitter does is what the machine does: laws over the definitions alone.
ghost use Rattle.a429_workers.specs.Example as example;
ghost use Rattle.a429_workers.specs.MoreCalls.{LastCallLeads, LastCallLoads, LawfulCallsGrow};
ghost use Rattle.a429_workers.specs.Runs.{IsWorking, WorkIsOneRun};
ghost use Rattle.a429_workers.specs.SentWords.{CellsOfOneTableAreApart, EmptyCellsAreFirstByCalls, FirstTableEmptiesNone, HoldsAreKeptByCalls, OtherWordsGoOut, TablesInForceAreSpaced, WordsAreApartByCalls};

use a429_equipment::laws::tables_receive_for_sources;
use a429_slots::laws::{answered_cells_grow, frames_go_on};

/// One run. A group's transmitter has made lawful calls, whose loads agree with what each receiver of the station
/// accepted. Then the machine gives the same answers to one list of events of the station. Its cells and frames are the
/// calls, its arrivals what each receiver accepted, its publications the plans that were published. Each list is in its
/// order, and there are no other events.
pub fn one_run()
    ensures { WorkIsOneRun }
{
    tables_receive_for_sources();
    frames_go_on();
    answered_cells_grow();
}

/// The premises of one run can be met, with a word that is held back and a change of plan.
pub fn one_run_applies()
    ensures { IsWorking 2 example.opening 0 example.table example.later example.calls example.heard }
{}

/// Lawful calls stay lawful with one more call that is lawful in the state after them.
pub fn lawful_calls_grow()
    ensures lawful { LawfulCallsGrow }
    ensures standing { LastCallLeads }
    ensures loads { LastCallLoads }
{}

/// Two words of one source that a transmitter sends are at least as many slots apart as the plan in force at the second
/// requires, even if plans changed between.
pub fn words_are_spaced()
    ensures { WordsAreApartByCalls }
{}

/// As long as one slot table is in force, which keeps to its spacings, two cells of an output are far enough apart. So
/// because of the spacing only the output's first cell after a change of the slot table can be empty, and none before
/// the first change. The transmitter had answered no cell before the first call.
pub fn spacing_empties_first_cells_only()
    ensures table { CellsOfOneTableAreApart }
    ensures first { EmptyCellsAreFirstByCalls }
    ensures opening { FirstTableEmptiesNone }
{}

/// If the plans that a transmitter saw keep to their spacings, so does the slot table in force at each call. The law
/// `spacing_empties_first_cells_only` asks for this.
pub fn tables_in_force_are_spaced()
    ensures { TablesInForceAreSpaced }
{}

/// A transmitter sends one accepted word at most as often as the output's hold says, under any plans: each time it is
/// sent, it was sent fewer times before. The load says which accepted word it is, so an equal word that is accepted
/// again is another one.
pub fn holds_are_kept()
    ensures { HoldsAreKeptByCalls }
{}

/// The word that a cell's load found goes out, unless the output's hold or its spacing forbids it. So these are the
/// only reasons to keep a word back. The transmitter had answered no cell before the first call.
pub fn other_words_go_out()
    ensures { OtherWordsGoOut }
{}
