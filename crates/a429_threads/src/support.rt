//! Tables and words, and what is made of a table.

use a429_equipment::Equipment;
use a429_slots::{OUTPUTS, Plan, plan};
use a429_table::read_equipment;
use std::alloc::Global;
use std::process::Abort;

/// A word of label 203.
pub const FIRST: u32 = 0x600000c1;

/// Another one.
pub const SECOND: u32 = 0x000000c1;

/// One of even parity.
pub const EVEN: u32 = 0x800000c1;

/// One receiver, one source of label 203 and any SDI, and one group that sends it in every slot.
pub const ONE: &str = r#"version = 1
rate = 100000
[[receiver]]
name = "r"
[[source]]
name = "s"
receiver = "r"
label = "203"
sdi = "any"
[[group]]
name = "g"
[[group.output]]
source = "s"
min_us = 1
max_us = 360
"#;

/// One receiver, one source of label 203 and any SDI, and one group that sends it in every slot, each of its words twice
/// at most.
pub const HELD: &str = r#"version = 2
[[receiver]]
name = "r"
[[source]]
name = "s"
receiver = "r"
label = "203"
sdi = "any"
[[group]]
name = "g"
rate = 100000
[[group.output]]
source = "s"
min_us = 1
max_us = 360
hold = 2
"#;

/// Two receivers, each with one source, of the labels 001 and 002, and two groups, which send one source each.
pub const TWO: &str = r#"version = 1
rate = 100000
receiver = [{ name = "r" }, { name = "q" }]
source = [
    { name = "x", receiver = "r", label = "001", sdi = "any" },
    { name = "y", receiver = "q", label = "002", sdi = "any" },
]
group = [
    { name = "g", output = [{ source = "x", min_us = 1, max_us = 360 }] },
    { name = "h", output = [{ source = "y", min_us = 1, max_us = 360 }] },
]
"#;

/// One receiver with sources a, b and c of the labels 001, 002 and 003, and one group. A frame has four slots of one bus.
pub const THREE: &str = r#"version = 1
rate = 100000
receiver = [{ name = "r" }]
source = [
    { name = "a", receiver = "r", label = "001", sdi = "any" },
    { name = "b", receiver = "r", label = "002", sdi = "any" },
    { name = "c", receiver = "r", label = "003", sdi = "any" },
]
[[group]]
name = "g"
output = [
    { source = "a", min_us = 1, max_us = 720 },
    { source = "b", min_us = 1, max_us = 1440 },
    { source = "c", min_us = 1, max_us = 1440 },
]
"#;

/// One receiver with sources a, b and c of the labels 001, 002 and 003, and one group. It sends b twice as often as the
/// group of `THREE`. A frame has four slots of two buses.
pub const THREE_FASTER: &str = r#"version = 1
rate = 100000
receiver = [{ name = "r" }]
source = [
    { name = "a", receiver = "r", label = "001", sdi = "any" },
    { name = "b", receiver = "r", label = "002", sdi = "any" },
    { name = "c", receiver = "r", label = "003", sdi = "any" },
]
[[group]]
name = "g"
output = [
    { source = "a", min_us = 1, max_us = 720 },
    { source = "b", min_us = 1, max_us = 720 },
    { source = "c", min_us = 1, max_us = 1440 },
]
"#;

/// `THREE`, with two words of c at least two slots apart.
pub const SPACED: &str = r#"version = 1
rate = 100000
receiver = [{ name = "r" }]
source = [
    { name = "a", receiver = "r", label = "001", sdi = "any" },
    { name = "b", receiver = "r", label = "002", sdi = "any" },
    { name = "c", receiver = "r", label = "003", sdi = "any" },
]
[[group]]
name = "g"
output = [
    { source = "a", min_us = 1, max_us = 720 },
    { source = "b", min_us = 1, max_us = 1440 },
    { source = "c", min_us = 720, max_us = 1440 },
]
"#;

/// `THREE_FASTER`, with two words of c at least two slots apart.
pub const SPACED_FASTER: &str = r#"version = 1
rate = 100000
receiver = [{ name = "r" }]
source = [
    { name = "a", receiver = "r", label = "001", sdi = "any" },
    { name = "b", receiver = "r", label = "002", sdi = "any" },
    { name = "c", receiver = "r", label = "003", sdi = "any" },
]
[[group]]
name = "g"
output = [
    { source = "a", min_us = 1, max_us = 720 },
    { source = "b", min_us = 1, max_us = 720 },
    { source = "c", min_us = 720, max_us = 1440 },
]
"#;

/// The equipment of a table.
pub fn read<R: Abort>(rt: &R, alloc: Global, table: &str) -> Equipment {
    read_equipment(alloc, table.as_bytes()).expect(rt, "a table")
}

/// The plan of an equipment.
fn plan_of_read<R: Abort>(rt: &R, alloc: Global, equipment: &Equipment) -> Plan<OUTPUTS> {
    // This call gives the proof a fact: the tables of groups have room.
    equipment.rows_are_sound();
    plan(alloc, equipment).expect(rt, "a plan")
}

/// The plan of a table, of number 0.
pub fn plan_of<R: Abort>(rt: &R, alloc: Global, table: &str) -> Plan<OUTPUTS> {
    let equipment = read(rt, alloc, table);
    let plan = plan_of_read(rt, alloc, &equipment);
    let_go(equipment);
    plan
}

/// Drops a value. The proof of a call is short; that of a drop in place goes through all parts of the value.
pub fn let_go<T: Drop>(_value: T) {}
