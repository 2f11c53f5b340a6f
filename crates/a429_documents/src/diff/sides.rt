//! A group of one proposal, and its outputs.
ghost use Rattle.std.specs.Prelude.{◌≡◌, ◌<◌, ◌≤◌, ◌^◌, IfOk, IfSome, Some, length, option_map, slice_get, string_bytes};
ghost use Rattle.a429_slots.specs.Tables.{buses_of, frame_of, outputs_of, placed_at};
ghost use Rattle.a429_cert.specs.PlanText.{source_name};
ghost use Rattle.a429_documents.specs.Diff.{compared_at, compared_change, compared_of, gap_of, has_moved, name_at, output_named, sent_by};

use crate::diff::texts::{put_counts, put_number_change, wide};
use a429_equipment::{OutputRow, SourceRow, same_number};
use a429_slots::{GroupPlan, OUTPUTS, OutputId, Proposal, SendLimits, SlotPlace};
use std::alloc::{AllocError, Global};
use std::marker::Model;

/// The values of an output that are compared.
#[derive(Clone, Copy)]
pub struct Compared {
    pub min_us: Option<u64>,
    pub max_us: Option<u64>,
    /// In slots.
    pub period: Option<u64>,
    pub hold: Option<u64>,
    pub bus: Option<u64>,
    pub offset: Option<u64>,
}

impl Compared {
    /// Whether only the offset differs.
    pub fn has_moved(&self, other: &Compared) -> bool
        ensures { result ≡ has_moved self.now other.now }
    {
        same_number(self.min_us, other.min_us)
            && same_number(self.max_us, other.max_us)
            && same_number(self.period, other.period)
            && same_number(self.hold, other.hold)
            && same_number(self.bus, other.bus)
            && !same_number(self.offset, other.offset)
    }

    /// Each number that differs from that of another output, as a text; the offset only if all are requested. Error: an
    /// allocation failed.
    pub fn change(&self, alloc: Global, all: bool, other: &Compared) -> Result<String, AllocError>
        ensures { IfOk result (λ text. string_bytes text ≡ compared_change all self.now other.now) }
    {
        let still = !all || same_number(self.offset, other.offset);
        let mut text = String::new(alloc);
        put_number_change(&mut text, "min_us", self.min_us, other.min_us)?;
        put_number_change(&mut text, "max_us", self.max_us, other.max_us)?;
        put_number_change(&mut text, "period_slots", self.period, other.period)?;
        put_number_change(&mut text, "hold", self.hold, other.hold)?;
        put_number_change(&mut text, "bus", self.bus, other.bus)?;
        put_counts(&mut text, still, "offset", self.offset, other.offset)?;
        Ok(text)
    }
}

/// A group of one proposal: the sources that its outputs name, the rows of its outputs, and its slot table.
#[derive(Drop)]
pub struct Side<'a> {
    sources: &'a [SourceRow],
    rows: &'a [OutputRow],
    table: &'a GroupPlan<OUTPUTS>,
}

impl<'a> Model for Side<'a> {
    ghost use Rattle.a429_documents.specs.Diff.{Sent};

    ghost Value = { Sent };

    ghost view = { λ s. record { sources = s.sources.now; rows = s.rows.now; table = s.table.now } };
}

/// The name of a source; empty if there is no such source.
fn source_name(sources: &[SourceRow], number: usize) -> &str
    ensures { result.now ≡ source_name sources.now number }
{
    match sources.get(number) {
        None => "",
        Some(source) => source.name.as_str(),
    }
}

/// The interval of an output, if there is one of this number.
fn interval(rows: &[OutputRow], output: usize) -> (Option<u64>, Option<u64>)
    ensures least { result.0 ≡ option_map (λ r. r.min_us) (slice_get rows.now output) }
    ensures greatest { result.1 ≡ option_map (λ r. r.max_us) (slice_get rows.now output) }
{
    match rows.get(output) {
        None => (None, None),
        Some(row) => (Some(u64::from(row.min_us)), Some(u64::from(row.max_us))),
    }
}

/// The values that are compared, of an output with this interval, place and hold.
fn compared_of(
    interval: (Option<u64>, Option<u64>),
    place: SlotPlace,
    hold: Option<u32>,
) -> Compared
    ensures { result ≡ compared_of interval.0 interval.1 place hold }
{
    Compared {
        min_us: interval.0,
        max_us: interval.1,
        period: Some(u64::from(place.period.slots())),
        hold: wide(hold),
        bus: Some(u64::from(place.bus)),
        offset: Some(u64::from(place.offset)),
    }
}

impl<'a> Side<'a> {
    /// The group of a proposal.
    pub fn of(proposal: &'a Proposal<OUTPUTS>, group: usize) -> Side<'a>
        requires { group < length proposal.now.station.groups }
        ensures { result ≡ sent_by proposal.now group }
    {
        let equipment = proposal.equipment();
        Side {
            sources: equipment.sources(),
            rows: equipment.outputs(group),
            table: proposal.plan().group(group),
        }
    }

    /// The number of outputs.
    pub fn outputs(&self) -> usize
        ensures count { result ≡ length (outputs_of self.now.table) }
        ensures few { result ≤ 128 }
    {
        self.table.outputs()
    }

    /// The number of buses.
    pub fn buses(&self) -> u64
        ensures { result ≡ buses_of self.now.table }
    {
        u64::from(self.table.buses())
    }

    /// The number of slots in a frame.
    pub fn frame(&self) -> u64
        ensures { result ≡ frame_of self.now.table }
    {
        u64::from(self.table.frame())
    }

    /// The name of the source of an output.
    pub fn name(&self, output: OutputId) -> &'a str
        requires { output < length (outputs_of self.now.table) }
        ensures { result.now ≡ name_at self.now output }
    {
        source_name(self.sources, self.table.source(output))
    }

    /// The output whose source has this name. `None` if there is none.
    pub fn output_named(&self, name: &str) -> Option<OutputId>
        ensures number { result ≡ output_named self.now name.now }
        ensures known { IfSome result (λ output. output < length (outputs_of self.now.table)) }
    {
        for number in 0..self.outputs() {
            let output = OutputId::new(number);
            if self.name(output) == name {
                return Some(output);
            }
        }
        None
    }

    /// The place of an output, and the limits on its sends.
    fn placed(&self, output: OutputId) -> (SlotPlace, SendLimits)
        requires { output < length (outputs_of self.now.table) }
        ensures place { result.0 ≡ (placed_at self.now.table output).place }
        ensures limits { result.1 ≡ (placed_at self.now.table output).limits }
    {
        (self.table.place(output), self.table.limits(output))
    }

    /// The values of an output that are compared.
    pub fn compared(&self, output: OutputId) -> Compared
        requires { output < length (outputs_of self.now.table) }
        ensures { result ≡ compared_at self.now output }
    {
        let (place, limits) = self.placed(output);
        compared_of(interval(self.rows, output.number()), place, limits.hold)
    }

    /// The number of slots from an output's last send by this plan to its next send by the other plan, if no hold is used
    /// up.
    pub fn gap(&self, output: OutputId, other: &Side<'_>, next: OutputId) -> u64
        requires own { output < length (outputs_of self.now.table) }
        requires other { next < length (outputs_of other.now.table) }
        ensures value { result ≡ gap_of (placed_at self.now.table output) (placed_at other.now.table next) }
        ensures few { result ≤ 2 ^ 34 }
    {
        let (place, _limits) = self.placed(output);
        let (next_place, limits) = other.placed(next);
        let left = place.period.slots().saturating_sub(place.offset);
        let first = u64::from(left) + u64::from(next_place.offset);
        if first < u64::from(limits.spacing) {
            first + u64::from(next_place.period.slots())
        } else {
            first
        }
    }
}
