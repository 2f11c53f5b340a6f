//! Hints about rows of comma-separated values that `import` refuses.

use crate::column_forms::is_of_output;
use crate::file_rows::{FileField, FileRows, tell_field};
use crate::files::{REFUSED_OUTPUT, other_file};
use crate::headings::tell_heading;
use crate::hint::HintText;
use crate::imported::{tell_imported, tell_too_many};
use crate::retries::{needs_fill, say_command};
use a429_arguments::options::OptionName;
use a429_arguments::requests::Asked;
use a429_console::refusals::CommandRefusal;
use a429_console::refusals::kinds::CsvKind;
use a429_console::refusals::rows::RowsEvidence;
use a429_filter::Filter;
use a429_import::{Heading, IMPORT_COLUMNS, ImportColumn, form_fault, heading_texts, keep_texts};
use a429_table::FaultKind;
use a429_text::CsvLine;

/// How many faulty rows are shown.
const FAULTY_ROWS: usize = 3;

/// Says what is wrong with the rows of a file that a command imports.
pub fn tell_rows(
    asked: &Asked,
    refusal: &CommandRefusal,
    evidence: &RowsEvidence,
    hint: &HintText,
) {
    if let Some(kind) = other_rows(&evidence.bytes) {
        return hint.say_line(kind);
    }
    hint.turn_to_line(match refusal {
        CommandRefusal::Csv { line, .. } => *line as usize,
        _ => 1,
    });
    match (&evidence.titles, &evidence.heading) {
        _ if evidence.is_misquoted => hint.say_line(
            "a field begins with a quote; the quote that closes it is missing, or text follows it; write quotes inside it twice",
        ),
        (Some(titles), Some(heading)) => {
            tell_sheet(asked, titles, heading, refusal, evidence, hint);
        }
        (Some(titles), None) => hint.line_one(
            "this is a row: it has a label, and as many fields as the heading, but that is below it, on line {}; move the heading above all rows, or delete this line",
            titles.number,
        ),
        (None, _) => {
            hint.turn_to_line(1);
            hint.say_line(
                "the heading is missing; it must name the columns group, rate, source, receiver, label, sdi, min_us and max_us",
            );
        }
    }
}

/// What kind of file begins with these bytes, if it is none with rows.
fn other_rows(bytes: &[u8]) -> Option<&'static str> {
    if bytes.starts_with(b"refused ") {
        return Some(REFUSED_OUTPUT);
    }
    if bytes.starts_with(b"version =") || bytes.starts_with(b"[[") {
        return Some("this is an equipment table (TOML); import reads comma-separated values");
    }
    other_file(bytes)
}

/// Says what is wrong with a sheet that has a heading, as it is written and by the names of its columns.
fn tell_sheet(
    asked: &Asked,
    titles: &CsvLine,
    heading: &CsvLine,
    refusal: &CommandRefusal,
    evidence: &RowsEvidence,
    hint: &HintText,
) {
    let Ok(heading) = heading.copy() else {
        return hint.give_up();
    };
    let Ok(kept) = keep_texts(hint.alloc, asked.texts(OptionName::KeepColumns)) else {
        return hint.give_up();
    };
    let Ok(texts) = heading_texts(hint.alloc, asked.texts(OptionName::Map), &kept) else {
        return hint.give_up();
    };
    let file = FileRows {
        heading: &Heading::of(heading),
        titles,
        rows: &evidence.rows,
        fills: asked.has(OptionName::Fill),
        names: asked.has(OptionName::Names),
        texts: &texts,
        guesses: &[],
    };
    tell_file(file, refusal, evidence, hint);
}

/// Says what is wrong with the heading or the rows of a file.
fn tell_file(file: FileRows, refusal: &CommandRefusal, evidence: &RowsEvidence, hint: &HintText) {
    match refusal {
        CommandRefusal::Table(kind, place) => {
            tell_imported(file, *kind, *place, hint);
            if *kind == FaultKind::Name {
                tell_names(file, "to make names of the texts", hint);
            }
        }
        CommandRefusal::Csv {
            kind: CsvKind::Column,
            ..
        } => tell_heading(file, hint),
        CommandRefusal::Csv { kind, .. } => tell_faulty(file, *kind, evidence, hint),
        _ => {}
    }
}

/// Says with which command the texts become names, unless they do.
fn tell_names(file: FileRows, reason: &str, hint: &HintText) {
    let names = true;
    if !file.names {
        tell_command(FileRows { names, ..file }, reason, hint);
    }
}

/// Says with which command empty fields are filled, if faulty rows have some below a field that is not empty.
fn tell_fill<'a>(file: FileRows<'a>, faulty: &'a [CsvLine], hint: &HintText) {
    let fills = true;
    if needs_fill(file, faulty) {
        let reason = "if the empty cells are merged with those above";
        tell_command(FileRows { fills, ..file }, reason, hint);
    }
}

/// Says with which command a file is read by these options.
fn tell_command(file: FileRows, reason: &str, hint: &HintText) {
    hint.say_one("a429: {}, write ", reason);
    say_command(file, hint);
    hint.end("");
}

/// Says what is wrong with faulty rows, and which option may help.
fn tell_faulty(file: FileRows, kind: CsvKind, evidence: &RowsEvidence, hint: &HintText) {
    let faulty = &evidence.faulty;
    let name = evidence.column.unwrap_or("");
    let mut columns = IMPORT_COLUMNS.iter().copied();
    let column = columns.find(|column| column.name() == name);
    tell_faulty_rows(file, faulty, kind, column, hint);
    if evidence.count > FAULTY_ROWS {
        hint.end_one("a429: rows with such a fault: {}", evidence.count);
    }
    tell_fill(file, faulty, hint);
    let is_of_source = column.is_some_and(|column| owner_of(column) == ImportColumn::Source);
    if kind == CsvKind::Differs && is_of_source {
        tell_names(file, "if these are different sources", hint);
    }
}

/// Says what is wrong with the first faulty row, in a column if it is about one, and with the next ones that are faulty by
/// themselves.
fn tell_faulty_rows<'a>(
    file: FileRows<'a>,
    faulty: &'a [CsvLine],
    kind: CsvKind,
    column: Option<ImportColumn>,
    hint: &HintText,
) {
    let [row, later @ ..] = faulty else {
        return;
    };
    match (column, kind) {
        (Some(column), CsvKind::Differs) => tell_difference(FileField { file, row, column }, hint),
        (Some(column), CsvKind::TooMany) => tell_too_many(FileField { file, row, column }, hint),
        _ => tell_fault(file, row, column, hint),
    }
    for row in later {
        if let Some(column) = form_fault(file.heading, row) {
            tell_fault(file, row, column, hint);
        }
    }
}

/// Says what is wrong with a row by itself: the column that does not have its form, or the number of its fields.
fn tell_fault<'a>(
    file: FileRows<'a>,
    row: &'a CsvLine,
    column: Option<ImportColumn>,
    hint: &HintText,
) {
    if let Some(column) = column {
        return tell_form(FileField { file, row, column }, hint);
    }
    hint.turn_to_line(row.number as usize);
    hint.line_two(
        "the row has {} fields, but the heading has {}",
        row.len(),
        file.titles.len(),
    );
}

/// Says what is wrong with a field that does not have the form of its column.
fn tell_form(field: FileField, hint: &HintText) {
    let FileField { file, row, column } = field;
    let Ok(text) = str::from_utf8(file.field(row, column)) else {
        field.begin(hint);
        return hint.end("the field is not UTF-8: save the file as UTF-8");
    };
    if is_of_output(column) && file.field(row, ImportColumn::Group).is_empty() {
        field.begin(hint);
        return hint.end_one(
            "{?} in a row without a group; give the group a name, or leave the bit rate, the intervals and the hold empty",
            text,
        );
    }
    if column != ImportColumn::Filters {
        return tell_field(field, text, hint);
    }
    for part in text.split(' ') {
        if !part.is_empty() && Filter::parse(part).is_err() {
            return tell_field(field, part, hint);
        }
    }
}

/// The column that names the owner of a column: a source, a receiver or a group.
fn owner_of(column: ImportColumn) -> ImportColumn {
    match column {
        ImportColumn::Filters => ImportColumn::Receiver,
        ImportColumn::Rate => ImportColumn::Group,
        _ => ImportColumn::Source,
    }
}

/// Says in what a row contradicts an earlier one.
fn tell_difference(field: FileField, hint: &HintText) {
    let FileField { file, row, column } = field;
    let owner = owner_of(column);
    let name = file.field(row, owner);
    let mut earlier = file.rows.iter();
    if let Some(earlier) = earlier.find(|earlier| file.field(earlier, owner) == name) {
        field.begin(hint);
        hint.say_two("{} {?} has ", owner.name(), file.text(row, owner));
        let other = file.text(earlier, column);
        hint.say_two("{?} on this line, but {?}", field.text(), other);
        hint.end_one(" on line {}", earlier.number);
    }
}
