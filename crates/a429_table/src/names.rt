//! Faults in names: names given twice, and names that stand for nothing.

ghost use Rattle.std.specs.Prelude.{◌≡◌, slice_get};
ghost use Rattle.std.specs.Option.{option_copied};
ghost use Rattle.toml.specs.View.{view};
ghost use Rattle.a429_table.specs.Stops.{table_of};
ghost use Rattle.a429_table.specs.Names.{is_below, name_of};
ghost use Rattle.a429_table.specs.Faults.{repeats_name, names_nothing};

use crate::fault::TablePlace;
use crate::table_index::TableIndex;
use crate::tree::text_at;
use crate::walk::Stop;
use toml::Value;

/// The row of a number. `None` if there is none.
pub fn nth_row<T>(rows: &[T], row: usize) -> Option<&T>
    ensures { option_copied result ≡ slice_get rows.now row }
{
    rows.get(row)
}

fn name_of(table: &Value) -> &str
    ensures { result.now ≡ name_of (view table.now) }
{
    text_at(table, "name")
}

/// Whether the name is that of an earlier table of the same array.
#[tactic(auto, unfolding(crate::specs::Faults::repeats_name, crate::specs::Walk::earlier), using(crate::proofs::NameNumbers::named_before))]
pub fn repeats_name(index: &TableIndex<'_>, stop: &Stop) -> bool
    ensures { result ≡ repeats_name (table_of index.now) stop.now.place (view stop.now.value.now) }
{
    match stop.place {
        TablePlace::Receiver(row) => is_below(index.receiver(name_of(stop.value)), row),
        TablePlace::Source(row) => is_below(index.source(name_of(stop.value)), row),
        TablePlace::Group(row) => is_below(index.group(name_of(stop.value)), row),
        _ => false,
    }
}

fn is_below(number: Option<usize>, row: usize) -> bool
    ensures { result ≡ is_below row number }
{
    number.is_some_and(|number| number < row)
}

/// Whether no table has the name of a source's receiver, or of an output's source.
#[tactic(auto, unfolding(crate::specs::Faults::names_nothing))]
pub fn names_nothing(index: &TableIndex<'_>, stop: &Stop) -> bool
    ensures { result ≡ names_nothing (table_of index.now) stop.now.place (view stop.now.value.now) }
{
    match stop.place {
        TablePlace::Source(_) => index.receiver(text_at(stop.value, "receiver")).is_none(),
        TablePlace::Output(_, _) => index.source(text_at(stop.value, "source")).is_none(),
        _ => false,
    }
}
