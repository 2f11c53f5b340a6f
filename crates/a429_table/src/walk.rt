//! The tables of a table in the order in which faults are looked for.

ghost use Rattle.std.specs.Prelude.{◌≡◌, ◌++◌, map, IfOk, OnOk};
ghost use Rattle.toml.specs.View.{view};
ghost use Rattle.a429_table.specs.Walk.{row_place, numbered, stops_of_groups, walk};
ghost use Rattle.a429_table.specs.Stops.{stop_view};

use crate::fault::TablePlace;
use crate::tree::rows_at;
use std::alloc::{AllocError, Global};
use toml::Value;

/// An array of tables; the outputs are those of a group.
#[derive(Clone, Copy)]
pub enum Rows {
    Receivers,
    Sources,
    Groups,
    Outputs(usize),
}

/// A place, and its value.
#[derive(Clone, Copy)]
pub struct Stop<'a> {
    pub place: TablePlace,
    pub value: &'a Value,
}

impl Rows {
    /// The place of a row.
    pub fn place(self, row: usize) -> TablePlace
        ensures { result ≡ row_place self row }
    {
        match self {
            Rows::Receivers => TablePlace::Receiver(row),
            Rows::Sources => TablePlace::Source(row),
            Rows::Groups => TablePlace::Group(row),
            Rows::Outputs(group) => TablePlace::Output(group, row),
        }
    }
}

fn push_rows<'a>(
    stops: &mut Vec<Stop<'a>>,
    rows: Rows,
    values: &'a [Value],
) -> Result<(), AllocError>
    ensures { OnOk result (map stop_view stops.new.items ≡ map stop_view stops.old.items ++ numbered rows (map view values.now)) }
{
    for (row, value) in values.iter().enumerate() {
        stops.push(Stop {
            place: rows.place(row),
            value,
        })?;
    }
    Ok(())
}

fn push_groups<'a>(stops: &mut Vec<Stop<'a>>, groups: &'a [Value]) -> Result<(), AllocError>
    ensures { OnOk result (map stop_view stops.new.items ≡ map stop_view stops.old.items ++ stops_of_groups (map view groups.now)) }
{
    for (row, value) in groups.iter().enumerate() {
        stops.push(Stop {
            place: TablePlace::Group(row),
            value,
        })?;
        push_rows(stops, Rows::Outputs(row), rows_at(value, "output"))?;
    }
    Ok(())
}

/// The root, the receivers, the sources, and each group followed by its outputs. Error: an allocation failed.
pub fn walk(alloc: Global, root: &Value) -> Result<Vec<Stop<'_>>, AllocError>
    ensures { IfOk result (λ stops. map stop_view stops.items ≡ walk (view root.now)) }
{
    let mut stops = Vec::new(alloc);
    stops.push(Stop {
        place: TablePlace::Root,
        value: root,
    })?;
    push_rows(&mut stops, Rows::Receivers, rows_at(root, "receiver"))?;
    push_rows(&mut stops, Rows::Sources, rows_at(root, "source"))?;
    push_groups(&mut stops, rows_at(root, "group"))?;
    Ok(stops)
}
