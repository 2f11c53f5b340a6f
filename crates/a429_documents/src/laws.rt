//! What is true of the definitions that the contracts cite.
ghost use Rattle.a429_documents.specs.Drawing.{MarksAreCells};
ghost use Rattle.a429_documents.specs.Load.{NeededBusesAreFewest};
ghost use Rattle.a429_documents.specs.Losses.{BusCountsAreFewest, NoLossIsAllServed};
ghost use Rattle.a429_documents.specs.Margins.{WiderIntervalsAreNext};
ghost use Rattle.a429_documents.specs.SlotBoard.{BoardWordsHaveNoData};
ghost use Rattle.a429_documents.specs.SlotNames.{SlotNamesDiffer};
ghost use Rattle.a429_documents.specs.SlotRows.{SlotRowsAreCells};
ghost use Rattle.a429_documents.specs.Unchanged.{NoRowIsOnePlan, NoStationRowIsOneStation};

use a429_pack::laws::fewest_by_demand;

/// If an output's maximum interval becomes the duration of twice its grid period, rounded up to a whole microsecond, twice
/// the period is its new grid period. This needs a grid period of that length.
pub fn wider_intervals_are_next()
    ensures { WiderIntervalsAreNext }
{}

/// A mark is drawn if and only if the plan has its output in that cell and the cell is drawn: its group, a bus of that
/// group, and a slot that the form asks for.
pub fn marks_are_cells()
    ensures { MarksAreCells }
{}

/// Without the empty cells, a row of `slots` is listed if and only if it is that of a cell with an output: a slot of the
/// frame, on a bus of a group that is asked for.
pub fn slot_rows_are_cells()
    ensures { SlotRowsAreCells }
{}

/// `lint` has no row `unfit`, `unheard` or `unsent` if and only if each source can be accepted, each source is sent, and
/// each output has a grid period. A source can be accepted if some raw word is for it.
pub fn no_loss_is_all_served()
    ensures { NoLossIsAllServed }
{}

/// The number of buses that `lint` computes from the demand of a frame is the fewest that any schedule needs.
pub fn bus_counts_are_fewest()
    ensures { BusCountsAreFewest }
{
    fewest_by_demand();
}

/// `diff` has no row of the station if and only if the two tables are of one station. Then the second table can be
/// published while the first one runs.
pub fn no_station_row_is_one_station()
    ensures { NoStationRowIsOneStation }
{}

/// `diff` has no row at all if and only if the plan texts are equal, the tables are of one station, and their outputs have
/// the same intervals.
pub fn no_row_is_one_plan()
    ensures { NoRowIsOnePlan }
{
    fewest_by_demand();
}

/// The number of buses that `load` computes within a limit is the fewest over which the outputs of a group can be spread.
/// Each output is on one bus, and no bus has more cells with an output than its capacity. There is no number if and only if
/// one output alone is above the capacity.
pub fn needed_buses_are_fewest()
    ensures { NeededBusesAreFewest }
{}

/// A word of `slots --board` has the label and the SDI of its row, data 0, SSM 0 and odd parity.
pub fn board_words_have_no_data()
    ensures { BoardWordsHaveNoData }
{}

/// Two names of receivers, of sources or of groups that differ in a table differ in the header of C too: their macros
/// differ, and so do their arrays.
pub fn slot_names_differ()
    ensures { SlotNamesDiffer }
{}
