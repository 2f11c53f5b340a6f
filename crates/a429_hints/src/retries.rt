//! The command `import` with which a sheet that was refused comes in.

use crate::column_forms::OF_NAMES;
use crate::file_rows::{FileRows, becomes};
use crate::hint::HintText;
use a429_import::ImportColumn;
use a429_text::CsvLine;

/// The columns whose empty fields are filled.
const FILLED: [ImportColumn; 3] = [
    ImportColumn::Group,
    ImportColumn::Rate,
    ImportColumn::Receiver,
];

/// Whether a field is empty below one that is not, in a row with an interval.
fn is_merged<'a>(file: FileRows<'a>, row: &'a CsvLine, column: ImportColumn) -> bool {
    !file.field(row, ImportColumn::MinUs).is_empty()
        && file.field(row, column).is_empty()
        && file.rows.iter().any(|earlier| {
            earlier.number < row.number && !file.field(earlier, column).is_empty()
        })
}

/// Whether a row has an empty field in a column that `--fill` fills, below one that is not empty.
fn has_merged<'a>(file: FileRows<'a>, row: &'a CsvLine) -> bool {
    FILLED.iter().any(|column| is_merged(file, row, *column))
}

/// Whether one of these rows has such a field, and none was filled.
pub fn needs_fill<'a>(file: FileRows<'a>, rows: &'a [CsvLine]) -> bool {
    !file.fills && rows.iter().any(|row| has_merged(file, row))
}

/// Whether a row has a text that is no name.
fn has_no_name<'a>(file: FileRows<'a>, row: &'a CsvLine, hint: &HintText) -> bool {
    OF_NAMES.iter().any(|column| {
        let text = file.text(row, *column);
        !becomes(text, text, hint)
    })
}

/// Says the command with the options that it had, and with those that the rows need.
pub fn say_command(file: FileRows, hint: &HintText) {
    let mut rows = file.rows.iter();
    hint.say("a429 import ");
    hint.say_file("{}");
    if file.fills || needs_fill(file, file.rows) {
        hint.say(" --fill");
    }
    if file.names || rows.any(|row| has_no_name(file, row, hint)) {
        hint.say(" --names");
    }
    for text in file.texts {
        say_text(*text, hint);
    }
}

/// Says the option that gave a text HEADING=COLUMN, for a shell.
fn say_text(text: &str, hint: &HintText) {
    let (option, text) = match text.strip_suffix("=#:") {
        Some(heading) => ("keep-columns", heading),
        None => ("map", text),
    };
    hint.say_one(" --{} \"", option);
    say_escaped(text, hint);
    hint.say("\"");
}

/// Says a text between quotes, for a shell.
fn say_escaped(text: &str, hint: &HintText) {
    for c in text.chars() {
        if "\"\\$`".contains(c) {
            hint.write_fmt('\\');
        }
        hint.write_fmt(if c.is_control() { ' ' } else { c });
    }
}

/// Says the option that reads a field of a heading as a column, for a shell.
pub fn say_map(title: &str, name: &str, hint: &HintText) {
    hint.say(" --map \"");
    say_escaped(title, hint);
    hint.say_one("={}\"", name);
}
