//! Tables, and texts made of them.

use a429_equipment::Equipment;
use a429_table::read_equipment;
use a429_word::Word;
use std::alloc::Global;
use std::process::Abort;

/// One receiver, one source of label 203 and any SDI, and one group that sends it in every slot.
pub const ONE: &str = r#"version = 1
rate = 100000
[[receiver]]
name = "r"
[[source]]
name = "s"
receiver = "r"
label = "203"
sdi = "any"
[[group]]
name = "g"
[[group.output]]
source = "s"
min_us = 1
max_us = 360
"#;

/// Two outputs, `a` in every other slot and `b` in every fourth.
pub const TWO: &str = r#"version = 1
rate = 100000
receiver = [{ name = "r" }]
source = [
    { name = "a", receiver = "r", label = "001", sdi = "any" },
    { name = "b", receiver = "r", label = "002", sdi = "any" },
]
[[group]]
name = "g"
output = [
    { source = "a", min_us = 1, max_us = 720 },
    { source = "b", min_us = 1, max_us = 1440 },
]
"#;

/// A table of version 2 with one output, at 12500 bit/s: 2881 µs are more than one slot of 2880, and a period of two
/// slots is the greatest within 5760.
pub const LIMITED: &str = r#"version = 2
receiver = [{ name = "r" }]
source = [{ name = "s", receiver = "r", label = "203", sdi = "any" }]
[[group]]
name = "g"
rate = 12500
output = [{ source = "s", min_us = 2881, max_us = 5760, hold = 7 }]
"#;

/// A text with one piece of it replaced, at its first place.
pub fn replace_once(rt: &impl Abort, alloc: Global, text: &str, old: &str, new: &str) -> String {
    text.replacen(alloc, old, new, 1).expect(rt, "memory")
}

/// The equipment of a table.
pub fn equipment_of(rt: &impl Abort, alloc: Global, table: &str) -> Equipment {
    read_equipment(alloc, table.as_bytes()).expect(rt, "a table")
}

/// The word 600000c1, of label 203.
pub fn word(rt: &impl Abort) -> Word {
    Word::from_raw(0x6000_00c1).expect(rt, "a word")
}

/// Fails with the number that a row begins with, unless the row is as it was stated.
pub fn row_holds(rt: &impl Abort, number: u32, is_so: bool) {
    assert!(rt; is_so, "row {number:x}");
}
