//! What would save a bus in each group of a plan.
ghost use Rattle.std.specs.Prelude.{◌≡◌, ◌≤◌, ◌<◌, ◌-◌, ◌*◌, ◌^◌, ◌++◌, ◌∷◌, [], Option, length, map, sum, IfOk};
ghost use Rattle.std.specs.List.{AllByRecursion};
ghost use Rattle.std.specs.Option.{option_copied};
ghost use Rattle.a429_text.specs.Sheets.{field_of};
ghost use Rattle.a429_equipment.specs.Sound.{IsInterval};
ghost use Rattle.a429_pack.specs.Demanded.{IsBusCount};
ghost use Rattle.a429_pack.specs.Windows.{raw_bound};
ghost use Rattle.a429_slots.specs.Tables.{buses_of, demands_of, frame_of};
ghost use Rattle.a429_documents.specs.Margins.{AddsSuch, IsChoice, IsGroupMargin, IsMargin, choice_rows, group_row_of, is_chosen, margin_columns, output_margin, outputs_margin, periods_of, saves, wider_row, window_of, yes_or_no};

use crate::cells::number;
use crate::planned::{PlannedGroup, PlannedOutput};
use a429_equipment::{GroupRow, OutputRow};
use a429_grid::{Period, SLOT_TIME};
use a429_pack::laws::fewest_by_demand;
use a429_pack::{raw_bound, widening_saves};
use a429_slots::{GroupPlan, OUTPUTS, OutputId, Proposal, slots_us};
use a429_text::{Cell, Gathered, Rows, Sheet};
use std::alloc::{AllocError, Global};

/// The names of the columns.
const COLUMNS: &[&str] = &[
    "group",
    "frame_slots",
    "buses",
    "excess",
    "bound",
    "source",
    "period_slots",
    "next_slots",
    "less",
    "max_us",
    "choose",
];

/// The number of whole slots in the maximum interval of an output, at a bit rate in bit/s.
fn window(rate: u32, row: &OutputRow) -> u32
    requires rate { rate ≤ 100000 }
    requires interval { IsInterval row.now }
    ensures { result ≡ window_of rate row.now }
{
    (u64::from(row.max_us) * u64::from(rate) / SLOT_TIME) as u32
}

/// The windows of outputs, in slots, in table order.
fn windows(alloc: Global, rate: u32, rows: &[OutputRow]) -> Result<Vec<u32>, AllocError>
    requires rate { rate ≤ 100000 }
    requires intervals { AllByRecursion IsInterval rows.now }
    ensures { IfOk result (λ windows. windows.items ≡ map (window_of rate) rows.now) }
{
    let mut windows = Gathered::new(alloc);
    for row in rows {
        windows.push(window(rate, row));
    }
    windows.into_vec()
}

/// The periods of a group's outputs, in table order.
fn periods(alloc: Global, table: &GroupPlan<OUTPUTS>) -> Result<Vec<Period>, AllocError>
    ensures { IfOk result (λ periods. periods.items ≡ periods_of table.now) }
{
    let mut periods = Gathered::new(alloc);
    for output in 0..table.outputs() {
        periods.push(table.place(OutputId::new(output)).period);
    }
    periods.into_vec()
}

/// The choice that saves a bus: a mark for each output that gets the next longer period. `None` if none saves a bus.
fn choice<'a>(periods: &[Period], buses: u32, marks: &'a mut [bool]) -> Option<&'a [bool]>
    requires many { length periods.now < 2 ^ 32 }
    requires each { length marks.old ≡ length periods.now }
    requires count { IsBusCount periods.now buses }
    ensures { IsChoice periods.now buses (option_copied result) }
{
    if buses >= 2 && widening_saves(periods, buses, marks) {
        Some(marks)
    } else {
        None
    }
}

/// Whether an output is chosen.
fn is_chosen(chosen: Option<&[bool]>, number: usize) -> bool
    ensures { result ≡ is_chosen (option_copied chosen.entry) number }
{
    match chosen {
        Some(marks) => number < marks.len() && marks[number],
        None => false,
    }
}

/// The word for yes or no.
fn yes_or_no(yes: bool) -> Cell<'static>
    ensures { field_of result ≡ yes_or_no yes }
{
    Cell::Text(if yes { "yes" } else { "no" })
}

/// Adds the row of an output that could have the next longer period.
fn add_wider(rows: &mut Rows, frame: u32, chosen: bool, output: &PlannedOutput<'_>)
    ensures { rows.new ≡ rows.old ++ wider_row frame chosen output.now ∷ [] }
{
    let group = output.group;
    let from = output.place.period.slots();
    let to = 2 * from;
    rows.add(&[
        Cell::Text(group.name.as_str()),
        Cell::Absent,
        Cell::Absent,
        Cell::Absent,
        Cell::Absent,
        Cell::Text(output.source.name.as_str()),
        number(from),
        number(to),
        number(frame / to),
        Cell::Number(slots_us(group.rate, to)),
        yes_or_no(chosen),
    ]);
}

/// Adds the row of an output, if its period is shorter than the frame.
fn add_output(rows: &mut Rows, frame: u32, chosen: bool, output: &PlannedOutput<'_>)
    ensures { rows.new ≡ rows.old ++ output_margin frame chosen output.now }
{
    if output.place.period.slots() < frame {
        add_wider(rows, frame, chosen, output);
    }
}

/// Adds the rows of a group's outputs, in table order.
#[tactic(auto, using(crate::proofs::Ranges::flat_more))]
fn add_outputs(rows: &mut Rows, group: &PlannedGroup<'_>, chosen: Option<&[bool]>)
    ensures { rows.new ≡ rows.old ++ outputs_margin group.now (option_copied chosen.entry) }
{
    let frame = group.table.frame();
    for number in 0..group.table.outputs() {
        add_output(
            rows,
            frame,
            is_chosen(chosen, number),
            &group.output(number),
        );
    }
}

/// The number of buses that any schedule within the intervals of these outputs needs at least.
fn bound_of(alloc: Global, rate: u32, outputs: &[OutputRow]) -> Result<usize, AllocError>
    requires rate { rate ≤ 100000 }
    requires intervals { AllByRecursion IsInterval outputs.now }
    requires windows { AllByRecursion (λ row. 0 < window_of rate row) outputs.now }
    ensures { IfOk result (λ bound. bound ≡ raw_bound (map (window_of rate) outputs.now)) }
{
    let windows = windows(alloc, rate, outputs)?;
    Ok(raw_bound(&windows))
}

/// Whether a choice saves a bus. Nothing, if the group has one bus.
fn saves(buses: u32, chosen: Option<&[bool]>) -> Cell<'static>
    ensures { field_of result ≡ saves buses (option_copied chosen.entry) }
{
    if buses < 2 {
        Cell::Absent
    } else {
        yes_or_no(chosen.is_some())
    }
}

/// Adds the row of a group, with this raw bound and this choice.
fn add_group_row(
    rows: &mut Rows,
    group: &GroupRow,
    table: &GroupPlan<OUTPUTS>,
    bound: usize,
    chosen: Option<&[bool]>,
)
    requires { (buses_of table.now - 1) * frame_of table.now ≤ sum (demands_of table.now) }
    ensures { rows.new ≡ rows.old ++ group_row_of group.now table.now bound (option_copied chosen.entry) ∷ [] }
{
    let frame = table.frame();
    let buses = table.buses();
    let demand = table.demand();
    rows.add(&[
        Cell::Text(group.name.as_str()),
        number(frame),
        number(buses),
        number(demand - buses.saturating_sub(1) * frame),
        Cell::Number(bound as u64),
        Cell::Absent,
        Cell::Absent,
        Cell::Absent,
        Cell::Absent,
        Cell::Absent,
        saves(buses, chosen),
    ]);
}

/// Adds the rows of the outputs that could free cells, if the group has more than one bus.
fn add_choice(rows: &mut Rows, group: &PlannedGroup<'_>, chosen: Option<&[bool]>)
    ensures { rows.new ≡ rows.old ++ choice_rows group.now (option_copied chosen.entry) }
{
    if group.table.buses() >= 2 {
        add_outputs(rows, group, chosen);
    }
}

/// Adds the rows of a group.
fn add_group(alloc: Global, rows: &mut Rows, group: &PlannedGroup<'_>) -> Result<(), AllocError>
    ensures { AddsSuch result rows.old rows.new (IsGroupMargin group.now) }
{
    fewest_by_demand();
    let table = group.table;
    let bound = bound_of(alloc, group.row.rate, group.rows)?;
    let periods = periods(alloc, table)?;
    let mut marks = Vec::from_elem(alloc, false, table.outputs())?;
    let chosen = choice(&periods, table.buses(), &mut marks);
    add_group_row(rows, group.row, table, bound, chosen);
    add_choice(rows, group, chosen);
    Ok(())
}

/// Adds the rows of each group, in table order.
fn add_groups(
    alloc: Global,
    rows: &mut Rows,
    proposal: &Proposal<OUTPUTS>,
) -> Result<(), AllocError>
    ensures { AddsSuch result rows.old rows.new (IsMargin proposal.now.station proposal.now.plan) }
{
    for number in 0..proposal.plan().groups() {
        add_group(alloc, rows, &PlannedGroup::of(proposal, number))?;
    }
    Ok(())
}

/// What would save a bus in each group of a proposal's plan, in table order (profile: margin). The row of a group has its
/// frame in slots, its buses, its excess cells for one bus less, and the raw bound. If the group has more than one bus,
/// its row says whether a choice of outputs saves a bus. Then a row follows for each output whose maximum interval could
/// be longer. The chosen outputs save a bus and free the fewest cells. Error: an allocation failed.
pub fn margin_sheet(alloc: Global, proposal: &Proposal<OUTPUTS>) -> Result<Sheet, AllocError>
    ensures columns { IfOk result (λ sheet. map (λ name. name.now) sheet.columns.now ≡ margin_columns) }
    ensures rows { IfOk result (λ sheet. IsMargin proposal.now.station proposal.now.plan sheet.rows) }
{
    let mut rows = Rows::new(alloc);
    add_groups(alloc, &mut rows, proposal)?;
    Ok(Sheet {
        columns: COLUMNS,
        rows,
    })
}
