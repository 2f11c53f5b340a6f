//! Copies of rows.
ghost use Rattle.std.specs.Prelude.{◌≡◌, map, IfOk};
ghost use Rattle.a429_equipment.specs.TableRecord.{record_of};

use crate::rows::{OutputRow, ReceiverRow, StationRows};
use std::alloc::{AllocError, Global};

impl ReceiverRow {
    fn copied(&self) -> ReceiverRow
        ensures { result ≡ self.now }
    {
        ReceiverRow {
            name: self.name,
            filters: self.filters.copied(),
        }
    }
}

impl StationRows {
    /// A copy of the rows. Error: an allocation failed.
    pub fn copied(&self, alloc: Global) -> Result<StationRows, AllocError>
        ensures { IfOk result (λ rows. record_of rows ≡ record_of self.now) }
    {
        let receivers = copied_receivers(alloc, &self.receivers)?;
        let sources = Vec::from_slice(alloc, &self.sources)?;
        let groups = Vec::from_slice(alloc, &self.groups)?;
        let outputs = copied_outputs(alloc, &self.outputs)?;
        Ok(StationRows {
            version: self.version,
            rate: self.rate,
            receivers,
            sources,
            groups,
            outputs,
        })
    }
}

fn copied_receivers(alloc: Global, rows: &[ReceiverRow]) -> Result<Vec<ReceiverRow>, AllocError>
    ensures { IfOk result (λ v. v.items ≡ rows.now) }
{
    let mut copies = Vec::with_capacity(alloc, rows.len())?;
    for row in rows {
        copies.push(row.copied())?;
    }
    Ok(copies)
}

/// The outputs of each group.
fn copied_outputs(
    alloc: Global,
    groups: &[Vec<OutputRow>],
) -> Result<Vec<Vec<OutputRow>>, AllocError>
    ensures { IfOk result (λ v. map (λ w. w.items) v.items ≡ map (λ w. w.items) groups.now) }
{
    let mut copies = Vec::with_capacity(alloc, groups.len())?;
    for outputs in groups {
        copies.push(Vec::from_slice(alloc, outputs.as_slice())?)?;
    }
    Ok(copies)
}
