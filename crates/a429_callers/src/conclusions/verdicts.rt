//! The fewest buses, by a verdict.
ghost use Rattle.std.specs.Prelude.{◌≡◌, Ok, IsTrue};
ghost use Rattle.a429_equipment.specs.TableRecord.{TableRecord};
ghost use Rattle.a429_table.specs.Reading.{reading};
ghost use Rattle.a429_callers.specs.Serving.{StatesFewestBuses};

use a429_cert::{Verdict, check};
use std::alloc::Global;

/// Whether a text is checked to show the fewest buses. Then for each group of the table a line of the text has its name
/// and a number of buses. No schedule in which each output of the group recurs within its grid period has fewer buses.
pub fn shows_fewest(alloc: Global, table: &[u8], text: &[u8]) -> bool
    ensures { IsTrue result → (e : TableRecord) × (reading table.now ≡ Ok e) × StatesFewestBuses e text.now }
{
    matches!(check(alloc, table, text), Ok(Verdict::Fewest))
}
