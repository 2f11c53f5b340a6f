//! Rows that clash with an earlier row of the same array.

use crate::rows::{TableRow, integer_at};
use a429_table::{FaultKind, TablePlace, rows_at, text_at};
use toml::Value;

/// The first earlier row of the same array with which a row clashes, for a fault of this kind. `None` if there is none.
pub fn twin_of<'a>(row: &TableRow<'a>, kind: FaultKind) -> Option<TableRow<'a>> {
    for number in 0..usize::MAX {
        let place = place_of_row(row.place, number);
        if place == row.place {
            return None;
        }
        let earlier = TableRow::at(row.root, place)?;
        if are_twins(row.root, kind, earlier.value, row.value) {
            return Some(earlier);
        }
    }
    None
}

/// The place of another row of the same array.
fn place_of_row(place: TablePlace, row: usize) -> TablePlace {
    match place {
        TablePlace::Root => TablePlace::Root,
        TablePlace::Receiver(_) => TablePlace::Receiver(row),
        TablePlace::Source(_) => TablePlace::Source(row),
        TablePlace::Group(_) => TablePlace::Group(row),
        TablePlace::Output(group, _) => TablePlace::Output(group, row),
    }
}

fn are_twins(root: &Value, kind: FaultKind, a: &Value, b: &Value) -> bool {
    match kind {
        FaultKind::DuplicateName => have_same(a, b, "name"),
        FaultKind::DuplicateSource => {
            let (sdi, other) = (integer_at(a, "sdi"), integer_at(b, "sdi"));
            have_same(a, b, "receiver")
                && have_same(a, b, "label")
                && (sdi == other || sdi.is_none() || other.is_none())
        }
        FaultKind::DuplicateOutput => {
            let (a, b) = (source_of(root, a), source_of(root, b));
            have_same(a, b, "label") && integer_at(a, "sdi") == integer_at(b, "sdi")
        }
        _ => false,
    }
}

fn have_same(a: &Value, b: &Value, key: &str) -> bool {
    text_at(a, key) == text_at(b, key)
}

/// The source that an output names; the output itself if there is none.
fn source_of<'a>(root: &'a Value, output: &'a Value) -> &'a Value {
    let mut sources = rows_at(root, "source").iter();
    let name = text_at(output, "source");
    sources
        .find(|source| text_at(source, "name") == name)
        .unwrap_or(output)
}
