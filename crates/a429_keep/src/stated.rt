//! The places that the lines of a group's outputs state.
ghost use Rattle.std.specs.Prelude.{◌≡◌, ◌<◌, ◌≤◌, ℕ, IfOk, IfSome, None, OnOk, drop, length, map, position, slice_set};
ghost use Rattle.a429_cert.specs.Lines.{line_at};
ghost use Rattle.a429_cert.specs.Views.{listing};
ghost use Rattle.a429_keep.specs.Following.{ArePlacesByLines, IsOutputNamed, IsSetByLine, ListsOutput, has_source_name, rest_lines, listed_place};
ghost use Rattle.a429_slots.specs.Moves.{place_in};
ghost use Rattle.a429_slots.specs.Tables.{outputs_of};

use a429_cert::{Lines, OutputLine, output_line};
use a429_equipment::{OutputRow, SourceRow};
use a429_slots::{GroupPlan, OUTPUTS, OutputId, SlotPlace};
use std::alloc::{AllocError, Global};

/// Whether a row is that of a source of this name.
fn has_source_name(sources: &[SourceRow], name: &[u8], row: &OutputRow) -> bool
    ensures { result ≡ has_source_name sources.now name.now row.now }
{
    match sources.get(row.source) {
        Some(source) => source.name.as_str().as_bytes() == name,
        None => false,
    }
}

/// The first of these rows that is that of a source of this name.
fn first_named(sources: &[SourceRow], name: &[u8], rows: &[OutputRow]) -> Option<usize>
    ensures { result ≡ position (has_source_name sources.now name.now) rows.now }
{
    rows.iter()
        .position(|row| has_source_name(sources, name, row))
}

/// The output that is that of the source of this name. It is looked for from the output `first` on: a plan lists outputs of
/// one period in table order.
fn output_named(
    sources: &[SourceRow],
    rows: &[OutputRow],
    name: &[u8],
    first: usize,
) -> Option<usize>
    requires { first ≤ length rows.now }
    ensures found { IfSome result (IsOutputNamed sources.now rows.now name.now) }
    ensures none { result ≡ None → (o : ℕ) → IsOutputNamed sources.now rows.now name.now o → ⊥ }
{
    let (before, after) = rows.split_at(first);
    match first_named(sources, name, after) {
        Some(place) => Some(first + place),
        None => first_named(sources, name, before),
    }
}

/// Moves an output to the bus and the offset that a line states.
fn put(places: &mut [SlotPlace], output: usize, said: &OutputLine<'_>)
    requires known { output < length places.old }
    requires bus { said.now.bus < 16 }
    requires offset { said.now.offset < 8192 }
    ensures { places.new ≡ slice_set places.old output (listed_place (place_in places.old output) (listing said.now)) }
{
    let period = places[output].period;
    places[output] = SlotPlace {
        bus: said.bus as u32,
        offset: said.offset as u32,
        period,
    };
}

/// Moves the output that a line names to the place that the line states. The answer is the output, which is looked for from
/// the output `first` on.
fn put_by_line(
    version: u32,
    sources: &[SourceRow],
    rows: &[OutputRow],
    line: &[u8],
    first: usize,
    places: &mut [SlotPlace],
) -> usize
    requires first { first ≤ length rows.now }
    requires places { length places.old ≡ length rows.now }
    requires line { ListsOutput version sources.now rows.now line.now }
    ensures set { IsSetByLine version sources.now rows.now line.now places.old places.new result }
    ensures known { result < length rows.now }
{
    let Some(said) = output_line(version, line) else {
        unreachable!()
    };
    let Some(output) = output_named(sources, rows, said.source, first) else {
        unreachable!()
    };
    put(places, output, &said);
    output
}

/// The places of a group's outputs, by their numbers. Error: an allocation failed.
fn own_places(alloc: Global, table: &GroupPlan<OUTPUTS>) -> Result<Vec<SlotPlace>, AllocError>
    ensures { IfOk result (λ places. places.items ≡ map (λ o. o.place) (outputs_of table.now)) }
{
    let mut places = Vec::new(alloc);
    for number in 0..table.outputs() {
        places.push(table.place(OutputId::new(number)))?;
    }
    Ok(places)
}

/// The places that the lines of a group's outputs state, by the outputs' numbers. Error: an allocation failed.
pub fn stated_places(
    alloc: Global,
    version: u32,
    sources: &[SourceRow],
    rows: &[OutputRow],
    table: &GroupPlan<OUTPUTS>,
    lines: &mut Lines<'_>,
) -> Result<Vec<SlotPlace>, AllocError>
    requires count { length (outputs_of table.now) ≡ length rows.now }
    requires lines { (k : ℕ) → k < length rows.now → ListsOutput version sources.now rows.now (line_at (rest_lines lines.old) k) }
    ensures places { IfOk result (λ places. ArePlacesByLines version sources.now rows.now (rest_lines lines.old) table.now places.items) }
    ensures rest { OnOk result (rest_lines lines.new ≡ drop (length rows.now) (rest_lines lines.old)) }
{
    let mut places = own_places(alloc, table)?;
    let mut first = 0;
    for _line in 0..rows.len() {
        let text = lines.next_line();
        first = put_by_line(version, sources, rows, text, first, &mut places);
    }
    Ok(places)
}
