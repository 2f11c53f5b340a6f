//! Lists of things with a name, in both tables.
ghost use Rattle.std.specs.Prelude.{◌≡◌, ◌<◌, ◌++◌, List, ℕ, IfOk, IfSome, codes, length, option_copied, string_bytes};
ghost use Rattle.std.specs.List.{flat_map};
ghost use Rattle.a429_word.specs.Written.{Gains};
ghost use Rattle.a429_equipment.specs.TableRecord.{TableRecord};
ghost use Rattle.a429_equipment.specs.declared.rows.ReceiverRow.{ReceiverRow};
ghost use Rattle.a429_documents.specs.Diff.{both_named, boths_named, item_named, lone_rows, named_rows, number_named};
ghost use Rattle.a429_documents.specs.Diff as diff;

use crate::diff::rows::{Subject, add_change, add_row};
use a429_equipment::Equipment;
use a429_text::Rows;
use std::alloc::{AllocError, Global};

/// A row of a table that has a name.
pub trait Named {
    ghost list_of: { TableRecord → List Self };

    ghost name_of: { Self → List ℕ };

    ghost subject_of: { Self → diff.Subject };

    /// What changes from one row to another of the same name, given the receivers of both tables.
    ghost change_of: { List ReceiverRow → List ReceiverRow → Self → Self → List ℕ };

    /// All of a table.
    fn list(equipment: &Equipment) -> &[Self]
        ensures { result.now ≡ list_of equipment.now };

    /// The name of this row.
    fn name(&self) -> &str
        ensures { result.now ≡ name_of self.now };

    /// The subject of the rows about it.
    fn subject(&self) -> Subject<'_>
        ensures { result ≡ subject_of self.now };

    /// What changes from this row to one of the same name. Error: an allocation failed.
    fn change(
        &self,
        alloc: Global,
        other: &Self,
        a: &Equipment,
        b: &Equipment,
    ) -> Result<String, AllocError>
        ensures { IfOk result (λ text. string_bytes text ≡ change_of a.now.receivers b.now.receivers self.now other.now) };
}

/// The number of the row with this name. `None` if there is none.
#[tactic(auto, unfolding(crate::specs::Diff::number_named))]
pub fn number_named<T: Named>(list: &[T], name: &str) -> Option<usize>
    ensures number { result ≡ number_named T.name_of list.now name.now }
    ensures known { IfSome result (λ number. number < length list.now) }
{
    list.iter().position(|item| item.name() == name)
}

/// Adds the row of a name that the other list does not have.
fn add_lone<T: Named>(rows: &mut Rows, change: &str, others: &[T], item: &T)
    ensures { rows.new ≡ rows.old ++ lone_rows change.now T.name_of T.subject_of others.now item.now }
{
    if number_named(others, item.name()).is_none() {
        add_row(rows, &item.subject(), change);
    }
}

/// Adds the rows of the names that the other list does not have.
fn add_lones<T: Named>(rows: &mut Rows, change: &str, list: &[T], others: &[T])
    ensures { rows.new ≡ rows.old ++ flat_map (lone_rows change.now T.name_of T.subject_of others.now) list.now }
{
    for item in list {
        add_lone(rows, change, others, item);
    }
}

/// Adds what changes of one name, if the second list has it too.
fn add_both<T: Named>(
    alloc: Global,
    rows: &mut Rows,
    a: &Equipment,
    b: &Equipment,
    second: &[T],
    item: &T,
) -> Result<(), AllocError>
    ensures { Gains result rows.old rows.new (both_named T.name_of T.subject_of T.change_of a.now b.now second.now item.now) }
{
    if let Some(number) = number_named(second, item.name()) {
        let change = item.change(alloc, &second[number], a, b)?;
        add_change(rows, &item.subject(), &change);
    }
    Ok(())
}

/// Adds what changes of the names that both lists have.
fn add_boths<T: Named>(
    alloc: Global,
    rows: &mut Rows,
    a: &Equipment,
    b: &Equipment,
    first: &[T],
    second: &[T],
) -> Result<(), AllocError>
    ensures { Gains result rows.old rows.new (boths_named T.name_of T.subject_of T.change_of a.now b.now second.now first.now) }
{
    for item in first {
        add_both(alloc, rows, a, b, second, item)?;
    }
    Ok(())
}

/// Adds a row for each name that only the first table has, then for each that only the second has. Then adds what changes
/// of the names that both have. Error: an allocation failed.
pub fn add_list<T: Named>(
    alloc: Global,
    rows: &mut Rows,
    a: &Equipment,
    b: &Equipment,
) -> Result<(), AllocError>
    ensures { Gains result rows.old rows.new (named_rows T.name_of T.subject_of T.change_of T.list_of a.now b.now) }
{
    let (first, second) = (T::list(a), T::list(b));
    add_lones(rows, "removed", first, second);
    add_lones(rows, "added", second, first);
    add_boths(alloc, rows, a, b, first, second)
}
