//! The slot tables of a plan as a header of C.
ghost use Rattle.std.specs.Prelude.{◌≡◌, ◌<◌, ◌++◌, IfSome, length};
ghost use Rattle.a429_slots.specs.Tables.{groups_of};
ghost use Rattle.a429_documents.specs.PlannedGroups.{of_groups};
ghost use Rattle.a429_documents.specs.SlotHeader.{bus_elements, cell_number, element, element_start, group_comment, group_elements, group_part, header_start, header_text, number_macro, output_line, output_lines, sdi_text, sending_text, size_macros, slots_array, slots_check, words_text};

mod columns;
mod names;

use crate::drawing::group_range;
use crate::planned::{PlannedGroup, PlannedOutput};
use crate::slots::header::columns::{
    put_array_start, put_check_end, put_check_start, put_columns, put_group_macro,
};
use crate::slots::header::names::put_enums;
use a429_equipment::{GroupRow, SourceRow};
use a429_slots::{GroupPlan, OUTPUTS, OutputId, Proposal};
use a429_text::Text;
use a429_word::Sdi;
use std::alloc::Global;

/// Writes an SDI, or `any`.
fn put_sdi(text: &mut Text, sdi: Option<Sdi>)
    ensures { text.new ≡ text.old ++ sdi_text sdi }
{
    match sdi {
        None => text.put("any"),
        Some(sdi) => text.put_number(u64::from(sdi.value())),
    }
}

/// Writes the label and the SDI of a source.
#[tactic(auto, unfolding(crate::specs::SlotHeader::words_text))]
fn put_words(text: &mut Text, source: &SourceRow)
    ensures { text.new ≡ text.old ++ words_text source.now }
{
    text.put(" label ");
    text.put_octal(source.label.value());
    text.put(" sdi ");
    put_sdi(text, source.sdi);
}

/// Writes the period of an output, and the name of its source.
#[tactic(auto, unfolding(crate::specs::SlotHeader::sending_text))]
fn put_sending(text: &mut Text, output: &PlannedOutput<'_>)
    ensures { text.new ≡ text.old ++ sending_text output.now }
{
    text.put(" period ");
    text.put_number(u64::from(output.place.period.slots()));
    text.put(" source ");
    text.put(output.source.name.as_str());
}

/// Writes the line of an output, by its number.
#[tactic(auto, unfolding(crate::specs::SlotHeader::output_line))]
fn put_line(text: &mut Text, number: usize, output: &PlannedOutput<'_>)
    ensures { text.new ≡ text.old ++ output_line number output.now }
{
    text.put("\n   ");
    text.put_number(number as u64);
    text.put(":");
    put_words(text, output.source);
    put_sending(text, output);
}

/// Writes a line for each output, in table order.
#[tactic(auto, using(crate::proofs::Ranges::flat_more))]
fn put_outputs(text: &mut Text, group: &PlannedGroup<'_>)
    ensures { text.new ≡ text.old ++ output_lines group.now }
{
    for number in 0..group.table.outputs() {
        put_line(text, number, &group.output(number));
    }
}

/// Writes the comment that numbers the outputs of a group.
#[tactic(auto, unfolding(crate::specs::SlotHeader::group_comment))]
fn put_comment(text: &mut Text, group: &PlannedGroup<'_>)
    ensures { text.new ≡ text.old ++ group_comment group.now }
{
    text.put("/* group ");
    text.put(group.row.name.as_str());
    put_outputs(text, group);
    text.put(" */\n");
}

/// Writes a macro whose value is a number.
#[tactic(auto, unfolding(crate::specs::SlotHeader::number_macro))]
fn put_macro(text: &mut Text, group: &GroupRow, word: &str, value: u64)
    ensures { text.new ≡ text.old ++ number_macro group.now word.now value }
{
    text.put("#define ");
    put_group_macro(text, group, word);
    text.put(" ");
    text.put_number(value);
    text.put("\n");
}

/// Writes the macros of a group's sizes.
#[tactic(auto, unfolding(crate::specs::SlotHeader::size_macros))]
fn put_sizes(text: &mut Text, group: &PlannedGroup<'_>)
    ensures { text.new ≡ text.old ++ size_macros group.now }
{
    let (row, table) = (group.row, group.table);
    put_macro(text, row, "_RATE", u64::from(row.rate));
    put_macro(text, row, "_FRAME", u64::from(table.frame()));
    put_macro(text, row, "_BUSES", u64::from(table.buses()));
    put_macro(text, row, "_OUTPUTS", table.outputs() as u64);
}

/// Writes what is before an element.
fn put_start(text: &mut Text, slot: u32)
    ensures { text.new ≡ text.old ++ element_start slot }
{
    if slot % 16 == 0 {
        text.put("\n    ");
    } else {
        text.put(" ");
    }
}

/// Writes the number of the output in a cell.
fn put_cell(text: &mut Text, output: Option<OutputId>)
    ensures { text.new ≡ text.old ++ cell_number output }
{
    match output {
        None => text.put("0xFFFF"),
        Some(output) => text.put_number(output.number() as u64),
    }
}

/// Writes the element of a cell.
#[tactic(auto, unfolding(crate::specs::SlotHeader::element))]
fn put_element(text: &mut Text, table: &GroupPlan<OUTPUTS>, bus: u32, slot: u32)
    ensures { text.new ≡ text.old ++ element table.now bus slot }
{
    put_start(text, slot);
    put_cell(text, table.at(bus, u64::from(slot)));
    text.put(",");
}

/// Writes the elements of a bus, slot by slot.
#[tactic(auto, using(crate::proofs::Ranges::flat_more))]
fn put_bus(text: &mut Text, table: &GroupPlan<OUTPUTS>, bus: u32)
    ensures { text.new ≡ text.old ++ bus_elements table.now bus }
{
    for slot in 0..table.frame() {
        put_element(text, table, bus, slot);
    }
}

/// Writes the elements of a group, bus by bus.
#[tactic(auto, using(crate::proofs::Ranges::flat_more))]
fn put_elements(text: &mut Text, table: &GroupPlan<OUTPUTS>)
    ensures { text.new ≡ text.old ++ group_elements table.now }
{
    for bus in 0..table.buses() {
        put_bus(text, table, bus);
    }
}

/// Writes the type that checks the size of the array of cells.
#[tactic(auto, unfolding(crate::specs::SlotHeader::slots_check))]
fn put_slots_check(text: &mut Text, group: &GroupRow)
    ensures { text.new ≡ text.old ++ slots_check group.now }
{
    put_check_start(text, group, "slots");
    put_group_macro(text, group, "_BUSES");
    text.put(" * ");
    put_group_macro(text, group, "_FRAME");
    put_check_end(text);
}

/// Writes the array of a group's cells.
#[tactic(auto, unfolding(crate::specs::SlotHeader::slots_array))]
fn put_slots(text: &mut Text, group: &PlannedGroup<'_>)
    ensures { text.new ≡ text.old ++ slots_array group.now }
{
    put_array_start(text, "uint16_t", group.row, "slots");
    put_elements(text, group.table);
    text.put("\n};\n");
    put_slots_check(text, group.row);
    text.put("\n");
}

/// Writes a group.
#[tactic(auto, unfolding(crate::specs::SlotHeader::group_part))]
fn put_part(text: &mut Text, group: &PlannedGroup<'_>)
    ensures { text.new ≡ text.old ++ group_part group.now }
{
    put_comment(text, group);
    put_sizes(text, group);
    put_columns(text, group);
    put_slots(text, group);
}

/// Writes one group of a proposal, or all in table order.
#[tactic(auto, using(crate::proofs::Ranges::flat_from))]
fn put_parts(text: &mut Text, proposal: &Proposal<OUTPUTS>, group: Option<usize>)
    requires { IfSome group (λ group. group < length (groups_of proposal.now.plan)) }
    ensures { text.new ≡ text.old ++ of_groups group_part proposal.now.station proposal.now.plan group }
{
    let (first, count) = group_range(proposal.plan(), group);
    for place in 0..count {
        put_part(text, &PlannedGroup::of(proposal, first + place));
    }
}

/// Writes the lines before the groups.
fn put_head(text: &mut Text)
    ensures { text.new ≡ text.old ++ header_start }
{
    text.put(
        "/* Slot tables, by `a429 slots --c`. Outputs of a group are numbered from 0.\n   Element [bus * FRAME + slot] of `slots` is the output in that cell, or\n",
    );
    text.put(
        "   A429_EMPTY. Other arrays have an element for each output. In names `-` is\n   `_`; `_` is `u` in macros and constants, `U` in arrays. */\n",
    );
    text.put(
        "#ifndef A429_SLOTS_H\n#define A429_SLOTS_H\n\n#include <stdint.h>\n\n#define A429_EMPTY 0xFFFF\n#define A429_ANY_SDI 0xFF\n\n",
    );
}

/// The slot tables of a proposal's plan as a header of C (C99, C++17), of one group or of all in table order. Enumerations
/// have the numbers of all receivers and sources of the table, and their counts. Each group has a comment that numbers its
/// outputs from 0. Macros have its bit rate in bit/s, and the numbers of slots of a frame, buses and outputs. Arrays have an
/// element for each output: its label, its SDI (0xFF for any), the receiver of its source, its source, and its period in
/// slots. The last array has the cells. The element of a cell is at the number of its bus times the slots of a frame, plus
/// its slot. It is the number of the output in that cell; 0xFFFF if the cell is empty. A type is refused unless each array
/// has its size. Macros and arrays have the name of the group.
pub fn slot_header(alloc: Global, proposal: &Proposal<OUTPUTS>, group: Option<usize>) -> Text
    requires known { IfSome group (λ group. group < length (groups_of proposal.now.plan)) }
    ensures { result ≡ header_text proposal.now.station proposal.now.plan group }
{
    let mut text = Text::new(alloc);
    put_head(&mut text);
    put_enums(&mut text, proposal.equipment());
    put_parts(&mut text, proposal, group);
    text.put("#endif\n");
    text
}
