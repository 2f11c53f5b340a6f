//! The lines of a group's outputs so far, and the outputs that they list.

ghost use Rattle.std.specs.Prelude.{◌≡◌, ◌≤◌, ◌<◌, ◌++◌, ◌∷◌, [], true, map, length, option_map, slice_set, IfOk, IfSome, OnOk};
ghost use Rattle.a429_equipment.specs.Sound.{HaveOwn};
ghost use Rattle.a429_cert.specs.Views.{listing};
ghost use Rattle.a429_cert.specs.Faults.{output_of, is_listed, place_of};
ghost use Rattle.a429_cert.specs.Earlier.{AreNoted};

use crate::due::{DueGroup, DueOutput};
use crate::line::OutputLine;
use std::alloc::{AllocError, Global};

/// The lines of a group's outputs so far.
#[derive(Drop)]
pub struct Earlier<'a> {
    pub lines: Vec<OutputLine<'a>>,
    /// The number of the first of them.
    pub first: usize,
    /// Whether a line lists the output at each place of the group.
    pub listed: Vec<bool>,
    /// The place of the output that the last line lists; 0 if there is no line.
    pub last: usize,
}

/// An output of a group.
#[derive(Clone, Copy)]
pub struct FoundOutput<'a> {
    /// In table order.
    pub place: usize,
    pub due: &'a DueOutput,
    /// Whether an earlier line lists it.
    pub is_listed: bool,
}

/// The place of the first output with this source.
fn first_place(outputs: &[DueOutput], source: &[u8]) -> Option<usize>
    ensures { result ≡ place_of source.now outputs.now }
{
    outputs
        .iter()
        .position(|output| output.source.as_str().as_bytes() == source)
}

/// The place of the output with this source. It is looked for from the place `from` on: a plan lists outputs of one period
/// in table order.
fn place_from(outputs: &[DueOutput], from: usize, source: &[u8]) -> Option<usize>
    requires own { HaveOwn (λ o. o.source) outputs.now }
    requires from { from ≤ length outputs.now }
    ensures { result ≡ place_of source.now outputs.now }
{
    let (before, after) = outputs.split_at(from);
    match first_place(after, source) {
        Some(place) => Some(from + place),
        None => first_place(before, source),
    }
}

impl<'a> Earlier<'a> {
    /// No line of a group with these outputs; the first one will have this number. Error: an allocation failed.
    pub fn none(
        alloc: Global,
        first: usize,
        outputs: &[DueOutput],
    ) -> Result<Earlier<'a>, AllocError>
        ensures lines { IfOk result (λ earlier. earlier.lines.items ≡ []) }
        ensures noted { IfOk result (AreNoted outputs.now) }
    {
        Ok(Earlier {
            lines: Vec::new(alloc),
            first,
            listed: vec![in alloc; false; outputs.len()]?,
            last: 0,
        })
    }

    /// The output with this source; `None` if the group has no such output.
    pub fn output_of<'g>(&self, group: &'g DueGroup, source: &[u8]) -> Option<FoundOutput<'g>>
        requires own { HaveOwn (λ o. o.source) group.now.outputs.items }
        requires noted { AreNoted group.now.outputs.items self.now }
        ensures due { option_map (λ found. found.due.now) result ≡ output_of group.now source.now }
        ensures place { option_map (λ found. found.place) result ≡ place_of source.now group.now.outputs.items }
        ensures listed { IfSome result (λ found. found.is_listed ≡ is_listed (map listing self.now.lines.items) source.now) }
    {
        let place = place_from(&group.outputs, self.last, source)?;
        Some(FoundOutput {
            place,
            due: &group.outputs[place],
            is_listed: self.listed[place],
        })
    }

    /// The number of the line at a place of these lines.
    pub fn number_at(&self, place: usize) -> usize {
        self.first.saturating_add(place)
    }

    /// Adds a line that lists the output at a place. Error: an allocation failed.
    pub fn add(&mut self, line: OutputLine<'a>, place: usize) -> Result<(), AllocError>
        requires place { place < length self.old.listed.items }
        ensures lines { OnOk result (self.new.lines.items ≡ self.old.lines.items ++ line.entry ∷ []) }
        ensures listed { OnOk result (self.new.listed.items ≡ slice_set self.old.listed.items place true) }
        ensures last { OnOk result (self.new.last ≡ place) }
    {
        self.lines.push(line)?;
        self.listed[place] = true;
        self.last = place;
        Ok(())
    }
}
