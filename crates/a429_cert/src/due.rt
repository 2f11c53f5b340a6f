//! What an equipment table asks of the text of its plan.

ghost use Rattle.std.specs.Prelude.{◌≡◌, ◌<◌, Some, length, IfOk, IfErr};
ghost use Rattle.a429_cert.specs.Due.{AreDueOfGroup, IsDue, IsDueOfRow};
ghost use Rattle.a429_cert.specs.Judged.{IsNoVerdict, IsGroupUnfit};

use crate::judging::NoVerdict;
use a429_equipment::{Equipment, Name, OutputRow};
use a429_grid::grid_period;
use std::alloc::Global;

/// An output: the name of its source, its grid period in slots, and its hold.
#[derive(Clone, Copy)]
pub struct DueOutput {
    pub source: Name,
    pub period: u64,
    /// One accepted word is sent at most this number of times; `None`: no limit.
    pub hold: Option<u64>,
}

/// A group with its bit rate, and its outputs in table order.
#[derive(Drop)]
pub struct DueGroup {
    pub name: Name,
    /// In bit/s.
    pub rate: u64,
    pub outputs: Vec<DueOutput>,
}

/// The version of the table, its bit rate, and the groups in table order.
#[derive(Drop)]
pub struct DueTable {
    /// 1 or 2: that of the text.
    pub version: u32,
    /// In bit/s; `None` in version 2, in which each group has its own.
    pub rate: Option<u64>,
    pub groups: Vec<DueGroup>,
}

/// A number of 32 bits in 64 bits; `None` stays `None`.
fn to_u64(number: Option<u32>) -> Option<u64>
    ensures { result ≡ number }
{
    number.map(u64::from)
}

/// What is due of a row, at the bit rate of its group in bit/s; `None` if its interval allows no grid period.
fn due_output(equipment: &Equipment, rate: u32, row: &OutputRow) -> Option<DueOutput>
    requires { row.now.source < length equipment.now.sources }
    ensures { IsDueOfRow equipment.now rate row.now result }
{
    let period = grid_period(row.min_us, row.max_us, rate)?;
    Some(DueOutput {
        source: equipment.sources()[row.source].name,
        period: u64::from(period.slots()),
        hold: to_u64(row.hold),
    })
}

/// The outputs of a group, at this bit rate in bit/s. Error: the first output whose interval allows no grid period, or
/// an allocation failed.
fn due_outputs(
    alloc: Global,
    equipment: &Equipment,
    rate: u32,
    group: usize,
) -> Result<Vec<DueOutput>, NoVerdict>
    requires { group < length equipment.now.groups }
    ensures due { IfOk result (λ outputs. AreDueOfGroup equipment.now rate group outputs.items) }
    ensures fault { IfErr result (IsGroupUnfit equipment.now rate group) }
{
    equipment.rows_are_sound();
    let mut outputs = Vec::new(alloc);
    let rows = equipment.outputs(group);
    for (output, row) in rows.iter().enumerate() {
        match due_output(equipment, rate, row) {
            Some(due) => outputs.push(due)?,
            None => return Err(NoVerdict::Unfit { group, output }),
        }
    }
    Ok(outputs)
}

/// What a text has to state. Error: `Unfit`, the first output in table order whose interval allows no grid period at
/// the bit rate of its group; `NoMemory`, an allocation failed.
pub fn due_of(alloc: Global, equipment: &Equipment) -> Result<DueTable, NoVerdict>
    ensures due { IfOk result (IsDue equipment.now) }
    ensures fault { IfErr result (IsNoVerdict equipment.now) }
{
    let version = equipment.version();
    let mut groups = Vec::new(alloc);
    let rows = equipment.groups();
    for (group, row) in rows.iter().enumerate() {
        let rate = equipment.group_rate(group);
        let outputs = due_outputs(alloc, equipment, rate, group)?;
        groups.push(DueGroup {
            name: row.name,
            rate: u64::from(rate),
            outputs,
        })?;
    }
    Ok(DueTable {
        version,
        rate: to_u64(equipment.rate()),
        groups,
    })
}
