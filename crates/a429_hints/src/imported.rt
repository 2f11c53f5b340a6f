//! Hints about the table that rows of comma-separated values describe.

use crate::faults::SAME_SOURCE;
use crate::file_rows::{FileField, FileRows, tell_field};
use crate::hint::HintText;
use a429_equipment::{GROUPS, LONGEST_INTERVAL, OUTPUTS, RECEIVERS, SOURCES};
use a429_filter::FILTERS;
use a429_import::ImportColumn;
use a429_table::{FaultKind, TablePlace};
use a429_text::CsvLine;

/// Says which row has the fault for which the table is refused, and what is wrong with it.
pub fn tell_imported(file: FileRows, kind: FaultKind, place: TablePlace, hint: &HintText) {
    let Some(row) = row_of(file, place) else {
        return;
    };
    hint.turn_to_line(row.number as usize);
    let column = match (kind, place) {
        (FaultKind::DuplicateSource, _) => return tell_twin_source(file, row, hint),
        (FaultKind::DuplicateOutput, _) => return tell_twin_output(file, row, hint),
        (FaultKind::Interval, _) => return tell_interval(file, row, hint),
        (FaultKind::Rate, _) => ImportColumn::Rate,
        (FaultKind::Hold, _) => ImportColumn::Hold,
        (FaultKind::Name, TablePlace::Receiver(_)) => ImportColumn::Receiver,
        (FaultKind::Name, TablePlace::Source(_)) => ImportColumn::Source,
        (FaultKind::Name, TablePlace::Group(_)) => ImportColumn::Group,
        _ => return,
    };
    tell_column(file, row, column, hint);
}

/// The first row about a place of the table. `None` if there is none.
fn row_of<'a>(file: FileRows<'a>, place: TablePlace) -> Option<&'a CsvLine> {
    match place {
        TablePlace::Root => None,
        TablePlace::Receiver(number) => file.first_row(ImportColumn::Receiver, number),
        TablePlace::Source(number) => file.first_row(ImportColumn::Source, number),
        TablePlace::Group(number) => file.first_row(ImportColumn::Group, number),
        TablePlace::Output(group, number) => {
            let row = file.first_row(ImportColumn::Group, group)?;
            file.output_row(file.field(row, ImportColumn::Group), number)
        }
    }
}

/// Says what is in a column of a row, and what must be there.
fn tell_column<'a>(file: FileRows<'a>, row: &'a CsvLine, column: ImportColumn, hint: &HintText) {
    let field = FileField { file, row, column };
    tell_field(field, field.text(), hint);
}

/// Says which end of an interval has a fault.
fn tell_interval<'a>(file: FileRows<'a>, row: &'a CsvLine, hint: &HintText) {
    let Some(numbers) = file.numbers(row) else {
        return;
    };
    if numbers.min_us < 1 {
        tell_column(file, row, ImportColumn::MinUs, hint);
    }
    if numbers.max_us > LONGEST_INTERVAL {
        tell_column(file, row, ImportColumn::MaxUs, hint);
    }
    if numbers.min_us > numbers.max_us {
        hint.line_two(
            "the minimum interval {?} is greater than the maximum {?}",
            file.text(row, ImportColumn::MinUs),
            file.text(row, ImportColumn::MaxUs),
        );
    }
}

/// Says with which earlier source the source of a row clashes.
fn tell_twin_source<'a>(file: FileRows<'a>, row: &'a CsvLine, hint: &HintText) {
    let mut rows = file.rows.iter();
    let twin = rows.find(|earlier| {
        !file.are_one(earlier, row, ImportColumn::Source)
            && file.are_twins(earlier, row, ImportColumn::Receiver, true)
    });
    if let Some(earlier) = twin {
        hint.begin(": source ");
        hint.say_one("{?}", file.text(row, ImportColumn::Source));
        hint.say_one(" and source {?}", file.text(earlier, ImportColumn::Source));
        hint.end_two(" of line {} {}", earlier.number, SAME_SOURCE);
    }
}

/// Says which earlier row of the same group has the same label and SDI.
fn tell_twin_output<'a>(file: FileRows<'a>, row: &'a CsvLine, hint: &HintText) {
    let mut rows = file.rows.iter();
    let twin = rows.find(|earlier| {
        earlier.number != row.number && file.are_twins(earlier, row, ImportColumn::Group, false)
    });
    if let Some(earlier) = twin {
        hint.line_one(
            "this row and line {} have the same group, label and SDI",
            earlier.number,
        );
    }
}

/// Says of what there is one too many with a row: the receivers, the sources or the groups, the outputs of its group, or the
/// filters of its receiver.
pub fn tell_too_many(field: FileField, hint: &HintText) {
    let FileField { file, row, column } = field;
    let known = file.output_row(file.field(row, column), 0);
    let most = match column {
        ImportColumn::Receiver => RECEIVERS,
        ImportColumn::Source => SOURCES,
        ImportColumn::Filters => return tell_filters(field, hint),
        _ if known.is_some() => return tell_outputs(row, hint),
        _ => GROUPS,
    };
    field.begin(hint);
    hint.end_two(
        "this is number {}; a table can have at most {}",
        most.saturating_add(1),
        most,
    );
}

/// Says that a row is one output too many for its group.
fn tell_outputs(row: &CsvLine, hint: &HintText) {
    hint.turn_to_line(row.number as usize);
    hint.line_two(
        "this is output number {} of its group; a group can have at most {}",
        OUTPUTS + 1,
        OUTPUTS,
    );
}

/// Says how many filters a row has, and how many it can have.
fn tell_filters(field: FileField, hint: &HintText) {
    let filters = field.text().split(' ').filter(|part| !part.is_empty());
    field.begin(hint);
    hint.say_two(
        "{} filters; a receiver can have at most {}",
        filters.count(),
        FILTERS,
    );
    hint.end_one(", each {}", field.form());
}
