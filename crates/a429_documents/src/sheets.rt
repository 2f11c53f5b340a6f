//! The sheets on a plan.
ghost use Rattle.std.specs.Prelude.{◌≡◌, ◌<◌, ◌++◌, IfSome, length, map};
ghost use Rattle.a429_slots.specs.Tables.{groups_of};
ghost use Rattle.a429_documents.specs.PlanSheets.{HasLimit, first_rows, group_rows, output_rows, sheet_columns, sheet_named, sheet_rows};
ghost use Rattle.a429_documents.specs.PlannedGroups.{of_groups, of_outputs};

mod buses;
mod icd;
mod plan;

pub use self::icd::SOURCE;
use crate::drawing::group_range;
use crate::planned::{PlannedGroup, PlannedOutput};
use crate::slots::board;
use crate::{load, slots};
use a429_equipment::Equipment;
use a429_slots::{OUTPUTS, Proposal};
use a429_text::{Rows, Sheet};
use std::alloc::Global;

/// A sheet on a plan. Groups are in table order. Buses, slots and offsets are counted from 0, slots from the start of the
/// frame; a slot lasts 36 bit times. A bit rate is in bit/s. Times are in whole microseconds, rounded up.
#[derive(Clone, Copy)]
pub enum PlanSheet {
    /// The plan itself: a row for each output, the outputs of a group in layout order. Each row has the version of the table.
    /// Of the group it has the bit rate, the frame in slots, the number of buses, and how many cells of a frame the outputs
    /// fill.
    Plan,
    /// The interface control document: a row for each output, in table order. A period is in slots, and in microseconds. The
    /// latency is the longest time, within one plan, from the acceptance of a word until it, or a later word of its source,
    /// was sent completely: a period and one slot. A label is in octal; with `true` as a formula, such as `="003"`, so that a
    /// spreadsheet keeps its zeros.
    Icd(bool),
    /// What each bus carries, and what it has room for. Each bus of a group has a row, and a row for all buses of the group
    /// follows them. Such a row has the cells of a frame with an output and those without, and the words that are sent in a
    /// second. After it, each period from 2 slots up to the frame has a row: how many more outputs of that period there is
    /// room for. The limit is in per cent of a bus. If a bus of a group is above it, `needed` is the fewest buses of the group
    /// within the limit, 0 if there is no such number.
    Load(Option<u32>),
    /// A row for each cell that has an output; with `true` also for each empty cell. The rows of a group are in the order of
    /// one frame: by slot, and in a slot by bus. `time_us` is the time from the start of the frame to that of the slot. A
    /// period is in slots.
    Slots(bool),
    /// What a bus board sends in a frame: a row for each cell that has an output, bus by bus, and in a bus slot by slot.
    /// `time_us` is as in `Slots`. `word` has the label of the source, its SDI (0 for any), data 0, SSM 0 and odd parity, as
    /// eight hexadecimal digits (ARINC 429 Part 1, word format).
    Board,
    /// What each bus of a station carries: a row for each word. The receivers come first, in table order, each with the words
    /// of its sources; then the groups, each bus with the words that the group sends on it. In a bus, words are in table
    /// order. `period_us` is the transmit period. The table has no bit rates of receivers, and does not say how often a word
    /// comes in: these fields are absent.
    Buses,
}

/// The sheet of this name, of those that take nothing else. `None` if there is none.
pub fn sheet_named(name: &str) -> Option<PlanSheet>
    ensures { result ≡ sheet_named name.now }
{
    if name == "buses" {
        Some(PlanSheet::Buses)
    } else {
        None
    }
}

/// The names of the columns of a sheet.
fn columns_of(sheet: PlanSheet) -> &'static [&'static str]
    ensures { map (λ name. name.now) result.now ≡ sheet_columns sheet }
{
    match sheet {
        PlanSheet::Plan => plan::COLUMNS,
        PlanSheet::Icd(_) => icd::COLUMNS,
        PlanSheet::Load(_) => load::COLUMNS,
        PlanSheet::Slots(_) => slots::COLUMNS,
        PlanSheet::Board => board::COLUMNS,
        PlanSheet::Buses => buses::COLUMNS,
    }
}

/// Adds the rows before those of the groups.
fn add_first(rows: &mut Rows, sheet: PlanSheet, equipment: &Equipment)
    ensures { rows.new ≡ rows.old ++ first_rows sheet equipment.now }
{
    if let PlanSheet::Buses = sheet {
        buses::add_receivers(rows, equipment);
    }
}

/// Adds the rows of an output, of a sheet that has some for each.
fn add_output(rows: &mut Rows, sheet: PlanSheet, output: &PlannedOutput<'_>)
    ensures { rows.new ≡ rows.old ++ output_rows sheet output.now }
{
    match sheet {
        PlanSheet::Icd(keeps_zeros) => icd::add_row(rows, keeps_zeros, output),
        _ => {}
    }
}

/// Adds the rows of all outputs of a group, in table order.
#[tactic(auto, using(crate::proofs::Ranges::flat_more))]
fn add_outputs(rows: &mut Rows, sheet: PlanSheet, group: &PlannedGroup<'_>)
    ensures { rows.new ≡ rows.old ++ of_outputs (output_rows sheet) group.now }
{
    for number in 0..group.table.outputs() {
        add_output(rows, sheet, &group.output(number));
    }
}

/// Adds the rows of a group.
fn add_group(rows: &mut Rows, sheet: PlanSheet, group: &PlannedGroup<'_>)
    requires { HasLimit sheet }
    ensures { rows.new ≡ rows.old ++ group_rows sheet group.now }
{
    match sheet {
        PlanSheet::Plan => plan::add_outputs(rows, group),
        PlanSheet::Load(limit) => load::add_group(rows, limit, group),
        PlanSheet::Slots(all) => slots::add_frame(rows, all, group),
        PlanSheet::Board => board::add_buses(rows, group),
        PlanSheet::Buses => buses::add_buses(rows, group),
        PlanSheet::Icd(_) => add_outputs(rows, sheet, group),
    }
}

/// Adds the rows of one group of a plan, or of all in table order.
#[tactic(auto, using(crate::proofs::Ranges::flat_from))]
fn add_groups(rows: &mut Rows, sheet: PlanSheet, proposal: &Proposal<OUTPUTS>, group: Option<usize>)
    requires limit { HasLimit sheet }
    requires known { IfSome group (λ group. group < length (groups_of proposal.now.plan)) }
    ensures { rows.new ≡ rows.old ++ of_groups (group_rows sheet) proposal.now.station proposal.now.plan group }
{
    let (first, count) = group_range(proposal.plan(), group);
    for place in 0..count {
        add_group(rows, sheet, &PlannedGroup::of(proposal, first + place));
    }
}

/// A sheet on a proposal's plan, of one group or of all.
pub fn plan_sheet(
    alloc: Global,
    proposal: &Proposal<OUTPUTS>,
    sheet: PlanSheet,
    group: Option<usize>,
) -> Sheet
    requires limit { HasLimit sheet }
    requires known { IfSome group (λ group. group < length (groups_of proposal.now.plan)) }
    ensures columns { map (λ name. name.now) result.columns.now ≡ sheet_columns sheet }
    ensures rows { result.rows ≡ sheet_rows sheet proposal.now.station proposal.now.plan group }
{
    let mut rows = Rows::new(alloc);
    add_first(&mut rows, sheet, proposal.equipment());
    add_groups(&mut rows, sheet, proposal, group);
    Sheet {
        columns: columns_of(sheet),
        rows,
    }
}
