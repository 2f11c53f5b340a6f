//! The text of a plan.
ghost use Rattle.std.specs.Prelude.{◌≡◌, ◌<◌, codes, length, IfOk, IfSome};
ghost use Rattle.a429_word.specs.Written.{Writes};
ghost use Rattle.a429_slots.specs.Tables.{outputs_of, source_of};
ghost use Rattle.a429_cert.specs.Spelling.{said_in, group_text, output_text, hold_before, bound_text};
ghost use Rattle.a429_cert.specs.Checked.{stated_text};
ghost use Rattle.a429_cert.specs.PlanText.{HasSources, heading_of, placed_listing, listing_of, bound_of, stated_of, outputs_text, groups_text, head_text, plan_text_of};

use crate::line::says_more;
use a429_equipment::{Equipment, GroupRow, SourceRow};
use a429_slots::{GroupPlan, OUTPUTS, OutputId, Proposal, SlotPlace};
use std::alloc::{AllocError, Global};
use std::fmt::Write;

/// Appends a group's first line to a text: in version 1 its name, its frame in slots and its buses, in version 2 also
/// its bit rate in bit/s (profile: plan text). Error: an allocation failed.
fn write_heading(
    text: &mut String,
    version: u32,
    group: &GroupRow,
    table: &GroupPlan<OUTPUTS>,
) -> Result<(), AllocError>
    ensures { Writes result text.old text.new (group_text (heading_of version group.now table.now)) }
{
    let name = group.name.as_str();
    let rate = group.rate;
    let frame = table.frame();
    let buses = table.buses();
    if says_more(version) {
        writeln!(text, "group {name} rate {rate} frame {frame} buses {buses}")
    } else {
        writeln!(text, "group {name} frame {frame} buses {buses}")
    }
}

/// Writes an output's hold, if a text of this version says it, and ends the line.
fn write_hold(text: &mut String, version: u32, hold: Option<u32>) -> Result<(), AllocError>
    ensures { Writes result text.old text.new (hold_before (said_in version hold) (codes "\n")) }
{
    if !says_more(version) {
        return writeln!(text);
    }
    match hold {
        None => writeln!(text, " hold none"),
        Some(hold) => writeln!(text, " hold {hold}"),
    }
}

/// Appends the line of an output at a place (profile: plan text). Error: an allocation failed.
fn write_place(
    text: &mut String,
    version: u32,
    source: &str,
    place: SlotPlace,
    hold: Option<u32>,
) -> Result<(), AllocError>
    ensures { Writes result text.old text.new (output_text (placed_listing version source.now place hold)) }
{
    let period = place.period.slots();
    let bus = place.bus;
    let offset = place.offset;
    write!(
        text,
        "output {source} period {period} bus {bus} offset {offset}"
    )?;
    write_hold(text, version, hold)
}

/// Writes the line of an output.
fn write_output(
    text: &mut String,
    version: u32,
    sources: &[SourceRow],
    table: &GroupPlan<OUTPUTS>,
    output: OutputId,
) -> Result<(), AllocError>
    requires known { output < length (outputs_of table.now) }
    requires source { IfSome (source_of table.now output) (λ source. source < length sources.now) }
    ensures { Writes result text.old text.new (output_text (listing_of version sources.now table.now output)) }
{
    let source = sources[table.source(output)].name.as_str();
    write_place(
        text,
        version,
        source,
        table.place(output),
        table.hold(output),
    )
}

/// Appends a group's last line (profile: plan text). Error: an allocation failed.
fn write_bound(text: &mut String, table: &GroupPlan<OUTPUTS>) -> Result<(), AllocError>
    ensures { Writes result text.old text.new (bound_text (bound_of table.now)) }
{
    let demand = table.demand();
    let full = table.buses().saturating_sub(1);
    let frame = table.frame();
    writeln!(text, "bound {demand} > {full} * {frame}")
}

/// Writes a line for each output, in layout order.
fn write_outputs(
    text: &mut String,
    version: u32,
    sources: &[SourceRow],
    table: &GroupPlan<OUTPUTS>,
) -> Result<(), AllocError>
    requires known { HasSources sources.now table.now }
    ensures { Writes result text.old text.new (outputs_text version sources.now table.now) }
{
    for place in 0..table.outputs() {
        write_output(text, version, sources, table, table.output_at_place(place))?;
    }
    Ok(())
}

/// Writes the lines of a group.
fn write_group(
    text: &mut String,
    version: u32,
    sources: &[SourceRow],
    group: &GroupRow,
    table: &GroupPlan<OUTPUTS>,
) -> Result<(), AllocError>
    requires known { HasSources sources.now table.now }
    ensures { Writes result text.old text.new (stated_text (stated_of version sources.now group.now table.now)) }
{
    write_heading(text, version, group, table)?;
    write_outputs(text, version, sources, table)?;
    write_bound(text, table)
}

/// Writes the lines of all groups, in table order.
fn write_groups(text: &mut String, proposal: &Proposal<OUTPUTS>) -> Result<(), AllocError>
    ensures { Writes result text.old text.new (groups_text proposal.now.station proposal.now.plan) }
{
    let equipment = proposal.equipment();
    equipment.rows_are_sound();
    let version = equipment.version();
    let sources = equipment.sources();
    let groups = equipment.groups();
    for number in 0..groups.len() {
        write_group(
            text,
            version,
            sources,
            &groups[number],
            proposal.plan().group(number),
        )?;
    }
    Ok(())
}

/// Appends the lines before the groups: the version, and the bit rate in bit/s if all groups have one (profile: plan
/// text). Error: an allocation failed.
fn write_head(text: &mut String, equipment: &Equipment) -> Result<(), AllocError>
    ensures { Writes result text.old text.new (head_text equipment.now) }
{
    let version = equipment.version();
    writeln!(text, "plan {version}")?;
    match equipment.rate() {
        Some(rate) => writeln!(text, "rate {rate}"),
        None => Ok(()),
    }
}

/// The text of a proposal's plan (profile: plan text, in the version of the equipment table). It states the version,
/// and in version 1 the bit rate in bit/s. The groups follow in table order, each with its name, in version 2 its bit
/// rate, its frame in slots and its number of buses. The outputs of a group follow in layout order, each with its
/// period in slots, bus and offset, and in version 2 its hold. The last line of a group has its demand in cells of a
/// frame, against those of one bus less. Error: an allocation failed.
pub fn plan_text(alloc: Global, proposal: &Proposal<OUTPUTS>) -> Result<Vec<u8>, AllocError>
    ensures { IfOk result (λ text. text.items ≡ plan_text_of proposal.now.station proposal.now.plan) }
{
    let mut text = String::new(alloc);
    write_head(&mut text, proposal.equipment())?;
    write_groups(&mut text, proposal)?;
    Ok(text.into_bytes())
}
