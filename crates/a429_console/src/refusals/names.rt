//! The names of groups and outputs in refusals and hints.
ghost use Rattle.std.specs.Prelude.{◌≡◌};
ghost use Rattle.a429_console.specs.Names.{group_name, output_name};

use a429_equipment::{Equipment, Name};

/// The name of an equipment's group. Empty if there is no group of this number.
pub fn group_name(equipment: &Equipment, group: usize) -> Name
    ensures { result ≡ group_name equipment.now group }
{
    match equipment.groups().get(group) {
        Some(row) => row.name,
        None => Name::of(""),
    }
}

/// The name of an output's source. Empty if there is no such output.
pub fn source_name(equipment: &Equipment, group: usize, output: usize) -> Name
    ensures { result ≡ output_name equipment.now group output }
{
    if group >= equipment.groups().len() {
        equipment.rows_are_sound();
        return Name::of("");
    }
    let Some(output) = equipment.outputs(group).get(output) else {
        return Name::of("");
    };
    match equipment.sources().get(output.source) {
        Some(row) => row.name,
        None => Name::of(""),
    }
}
