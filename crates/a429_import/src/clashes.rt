//! The contradictions between a row and earlier rows. The earlier rows agree, so a row is compared with only three of them:
//! the first of its source, of its receiver and of its group.
ghost use Rattle.std.specs.Prelude.{◌≡◌};
ghost use Rattle.a429_import.specs.ImportClashes.{Agree, earlier_clash, first_part_clash, part_clash};
ghost use Rattle.a429_import.specs.ImportRows.{first_clash, row_view, source_clash};
ghost use Rattle.a429_import.specs.ImportTables.{name_in};
ghost use Rattle.a429_import.specs.IndexedRows.{IsIndexed};

use crate::fault::ImportColumn;
use crate::firsts::Part;
use crate::indexed_rows::IndexedRows;
use crate::rows::{ImportRow, RowFields};
use a429_equipment::same_sdi;

/// The number of an earlier row, and a column in which a later row contradicts it.
#[derive(Clone, Copy)]
pub struct RowClash {
    pub number: usize,
    pub column: ImportColumn,
}

/// The one of two clashes that has the earlier row.
fn earlier_clash(a: Option<RowClash>, b: Option<RowClash>) -> Option<RowClash>
    ensures { result ≡ earlier_clash a b }
{
    match (a, b) {
        (None, _) => b,
        (_, None) => a,
        (Some(first), Some(second)) => { if second.number < first.number { b } else { a } }
    }
}

/// The first column in which a row contradicts an earlier one about the same source.
fn source_clash(earlier: &ImportRow, row: &RowFields<'_>) -> Option<ImportColumn>
    ensures { result ≡ source_clash earlier.now (row_view row.now) }
{
    if earlier.texts.source.as_str() != row.texts.source {
        None
    } else if earlier.texts.receiver.as_str() != row.texts.receiver {
        Some(ImportColumn::Receiver)
    } else if earlier.numbers.label != row.numbers.label {
        Some(ImportColumn::Label)
    } else if !same_sdi(earlier.numbers.sdi, row.numbers.sdi) {
        Some(ImportColumn::Sdi)
    } else {
        None
    }
}

/// The first column in which a row contradicts an earlier one about the same receiver, source or group.
fn part_clash(part: Part, earlier: &ImportRow, row: &RowFields<'_>) -> Option<ImportColumn>
    ensures { result ≡ part_clash part earlier.now (row_view row.now) }
{
    match part {
        Part::Sources => source_clash(earlier, row),
        Part::Receivers
            if earlier.texts.receiver.as_str() == row.texts.receiver
                && earlier.texts.filters.as_str() != row.texts.filters => {
            Some(ImportColumn::Filters)
        }
        Part::Groups
            if earlier.texts.group.as_str() == row.texts.group
                && earlier.numbers.rate != row.numbers.rate => { Some(ImportColumn::Rate) }
        _ => None,
    }
}

/// The text of a row's receiver, source or group.
fn name_in<'a>(part: Part, row: &RowFields<'a>) -> &'a str
    ensures { result.now ≡ name_in part (row_view row.now) }
{
    match part {
        Part::Receivers => row.texts.receiver,
        Part::Sources => row.texts.source,
        Part::Groups => row.texts.group,
    }
}

/// The first row that a row contradicts about its receiver, source or group, with the column. `None` if it contradicts none.
fn clash_about(known: &IndexedRows, part: Part, row: &RowFields<'_>) -> Option<RowClash>
    requires { IsIndexed known.now }
    ensures { Agree known.now.rows.items → result ≡ first_part_clash part 0 known.now.rows.items (row_view row.now) }
{
    let named = known.named(part);
    let place = named.find(name_in(part, row))?;
    let column = part_clash(part, known.first_row(part, place), row)?;
    Some(RowClash {
        number: named.first_at(place),
        column,
    })
}

/// The first column in which this row contradicts an earlier row, compared with the first such row. `None` if there is
/// none.
pub fn first_clash(known: &IndexedRows, row: &RowFields<'_>) -> Option<ImportColumn>
    requires { IsIndexed known.now }
    ensures { Agree known.now.rows.items → result ≡ first_clash known.now.rows.items (row_view row.now) }
{
    let of_source = clash_about(known, Part::Sources, row);
    let of_receiver = clash_about(known, Part::Receivers, row);
    let of_group = clash_about(known, Part::Groups, row);
    let first = earlier_clash(of_source, earlier_clash(of_receiver, of_group))?;
    Some(first.column)
}
