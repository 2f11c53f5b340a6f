//! Rows of comma-separated values, as a person sees them.

use crate::column_forms::{OF_NAMES, form_of, is_of_output, usual_rate, whole_label};
use crate::guesses::{Guess, guess_for};
use crate::hint::HintText;
use crate::lists::text_of;
use a429_import::{
    Heading, ImportColumn, IntervalForm, IntervalUnit, RowNumbers, made_name, may_be_thousands,
    millis_in, row_numbers,
};
use a429_text::CsvLine;

/// The rows of a file below their heading.
#[derive(Clone, Copy)]
pub struct FileRows<'a> {
    /// The heading by the names of its columns.
    pub heading: &'a Heading,
    /// The heading as it is written.
    pub titles: &'a CsvLine,
    pub rows: &'a [CsvLine],
    /// Whether empty fields are filled.
    pub fills: bool,
    /// Whether names are made.
    pub names: bool,
    /// The texts HEADING=COLUMN by which the heading was read.
    pub texts: &'a [&'a str],
    /// The fields of the heading that are likely meant by columns that it lacks.
    pub guesses: &'a [Guess],
}

impl<'a> FileRows<'a> {
    /// The field of a row in a column, or in the one that is likely meant by it; an empty one if the heading has neither.
    pub fn field(self, row: &'a CsvLine, column: ImportColumn) -> &'a [u8] {
        match guess_for(self.guesses, column) {
            Some(guess) => row.field(guess.place),
            None => self.heading.field_of(row, column),
        }
    }

    /// The field as a text; the empty text if it is not UTF-8.
    pub fn text(self, row: &'a CsvLine, column: ImportColumn) -> &'a str {
        text_of(self.field(row, column))
    }

    /// A field of the heading as a text; the empty text if it is not UTF-8.
    pub fn title(self, place: usize) -> &'a str {
        text_of(self.titles.field(place))
    }

    /// The numbers of a row. `None` if one has a wrong form.
    pub fn numbers(self, row: &CsvLine) -> Option<RowNumbers> {
        match row_numbers(self.heading, row) {
            Ok(numbers) => Some(numbers),
            Err(_) => None,
        }
    }

    /// Whether two rows have the same field in a column, and the same label and SDI. If SDIs may overlap, one of them can be any.
    pub fn are_twins(
        self,
        a: &'a CsvLine,
        b: &'a CsvLine,
        column: ImportColumn,
        may_overlap: bool,
    ) -> bool {
        match (self.numbers(a), self.numbers(b)) {
            (Some(one), Some(other)) => {
                let overlap = may_overlap && (one.sdi.is_none() || other.sdi.is_none());
                self.field(a, column) == self.field(b, column)
                    && one.label == other.label
                    && (one.sdi == other.sdi || overlap)
            }
            _ => false,
        }
    }

    /// Whether two rows have one source, receiver or group. If names are made, a source has a receiver, a label and an SDI
    /// besides its text.
    pub fn are_one(self, a: &'a CsvLine, b: &'a CsvLine, column: ImportColumn) -> bool {
        let has_word = self.names && column == ImportColumn::Source;
        self.field(a, column) == self.field(b, column)
            && (!has_word || self.are_twins(a, b, ImportColumn::Receiver, false))
    }

    /// Whether the row at a place is the first of its source, receiver or group.
    pub fn is_first(self, place: usize, row: &'a CsvLine, column: ImportColumn) -> bool {
        let mut above = self.rows.iter().take(place);
        !above.any(|earlier| self.are_one(earlier, row, column))
    }

    /// The first row of the name with this number. The names of a column are numbered from 0, in the order of their first
    /// rows; rows without a group are none of a group. `None` if there is no such name.
    pub fn first_row(self, column: ImportColumn, number: usize) -> Option<&'a CsvLine> {
        let rows = self.rows.iter().enumerate();
        let mut firsts = rows.filter(|(place, row)| {
            let is_named = column != ImportColumn::Group || !self.field(row, column).is_empty();
            is_named && self.is_first(*place, row, column)
        });
        let (_, row) = firsts.nth(number)?;
        Some(row)
    }

    /// The row of an output, by the name of its group and its number in the group, from 0. `None` if there is none.
    pub fn output_row(self, group: &[u8], number: usize) -> Option<&'a CsvLine> {
        let rows = self.rows.iter();
        let mut outputs = rows.filter(|row| self.field(row, ImportColumn::Group) == group);
        outputs.nth(number)
    }
}

/// What a row has in a column.
#[derive(Clone, Copy)]
pub struct FileField<'a> {
    pub file: FileRows<'a>,
    pub row: &'a CsvLine,
    pub column: ImportColumn,
}

impl<'a> FileField<'a> {
    /// The field as a text; the empty text if it is not UTF-8.
    pub fn text(self) -> &'a str {
        self.file.text(self.row, self.column)
    }

    /// How the column states intervals. One that has none is like one of microseconds.
    fn interval(self) -> IntervalForm {
        match self.column {
            ImportColumn::MinUs => self.file.heading.min_form,
            ImportColumn::MaxUs => self.file.heading.max_form,
            _ => IntervalForm {
                unit: IntervalUnit::Micros,
                has_both: false,
            },
        }
    }

    /// What the column has, in two words, and what must be in the field.
    fn thing_and_form(self) -> (&'static str, &'static str) {
        form_of(self.column, self.interval())
    }

    /// What must be in the field.
    pub fn form(self) -> &'static str {
        let (_, form) = self.thing_and_form();
        form
    }

    /// Whether the column states no interval, or a number of microseconds.
    fn is_plain(self) -> bool {
        let form = self.interval();
        form.unit == IntervalUnit::Micros && !form.has_both
    }

    /// Begins a line about the field: the number of its row and the title of its column.
    pub fn begin(self, hint: &HintText) {
        let title = match self.file.text(self.file.titles, self.column) {
            "" => self.column.name(),
            title => title,
        };
        hint.turn_to_line(self.row.number as usize);
        hint.begin(", column ");
        hint.say_one("{..}: ", title);
    }
}

/// Says what is in a column, and what must be there.
pub fn tell_field(field: FileField, text: &str, hint: &HintText) {
    field.begin(hint);
    if text.is_empty() {
        return tell_empty(field, hint);
    }
    hint.say_one("{?}", text);
    if field.is_plain() {
        tell_plain(field, text, hint);
    } else if may_be_thousands(field.row.separator, text.as_bytes()) {
        hint.end(
            " may be a thousand times as much; write it without a point, or with fewer or more decimals",
        );
    } else {
        tell_form(field, text, hint);
    }
}

/// Says that a field is empty, and what must be in it.
fn tell_empty(field: FileField, hint: &HintText) {
    hint.say_one("the field is empty; it must be {}", field.form());
    if is_of_output(field.column) {
        hint.say("; if no group sends the source, leave the group empty too");
    }
    hint.end("");
}

/// Says what is wrong with the text of a column that states no interval, or a number of microseconds.
fn tell_plain(field: FileField, text: &str, hint: &HintText) {
    let column = field.column;
    match (column, usual_rate(text), whole_label(text)) {
        (ImportColumn::Rate, Some(rate), _) => hint.end_one("; the unit is bit/s: write {}", rate),
        (ImportColumn::Label, _, Some(label)) => hint.end_one("; write {}", label),
        _ if is_of_output(column) && text.len() > 1 && text.starts_with('0') => {
            hint.end_one(" begins with a zero; it must be {}", field.form());
        }
        _ => tell_form(field, text, hint),
    }
}

/// Says that a text does not have the form of its column, and what to write instead if that is known.
fn tell_form(field: FileField, text: &str, hint: &HintText) {
    let column = field.column;
    let (thing, form) = field.thing_and_form();
    hint.say_two(" is not {}; it must be {}", thing, form);
    match column {
        _ if OF_NAMES.contains(&column) => say_name(field, text, hint),
        ImportColumn::MinUs if field.is_plain() => say_micros(text, "min_ms", hint),
        ImportColumn::MaxUs if field.is_plain() => say_micros(text, "max_ms", hint),
        _ => {}
    }
    hint.end("");
}

/// Says the microseconds in a number of milliseconds with decimals, and how a column with such numbers is named.
fn say_micros(text: &str, name: &str, hint: &HintText) {
    if !text.contains(['.', ',']) {
        return;
    }
    // both are marks if no byte separates fields
    if let Some(us) = millis_in(0, text.as_bytes()) {
        hint.say_two(
            "; if it is in ms, write {}, or name the column {}",
            us,
            name,
        );
    }
}

/// Says the name that `--names` makes of a text of a column. If an earlier text of the column has that name, a number follows.
/// Nothing is said if the text is such a name, or if names are made.
fn say_name(field: FileField, text: &str, hint: &HintText) {
    let Ok(made) = made_name(hint.alloc, text) else {
        return hint.give_up();
    };
    let name = text_of(&made);
    if name == text || field.file.names {
        return;
    }
    match texts_before(field, text, name, hint) {
        0 => hint.say_one("; for example {}; --names makes such names", name),
        before => say_numbered(name, before.saturating_add(1), hint),
    }
}

/// Whether a text becomes this name.
pub fn becomes(text: &str, name: &str, hint: &HintText) -> bool {
    match made_name(hint.alloc, text) {
        Ok(made) => made.as_slice() == name.as_bytes(),
        Err(_) => {
            hint.give_up();
            false
        }
    }
}

/// How many other texts of a column become a name, of those before the first row with this text.
fn texts_before(field: FileField, text: &str, name: &str, hint: &HintText) -> usize {
    let FileField { file, column, .. } = field;
    let rows = file.rows.iter().enumerate();
    let above = rows.take_while(|(_, row)| file.text(row, column) != text);
    let alike = above.filter(|(place, row)| {
        becomes(file.text(row, column), name, hint) && file.is_first(*place, row, column)
    });
    alike.count()
}

/// Says a name with a number at its end, at most 16 characters.
fn say_numbered(name: &str, number: usize, hint: &HintText) {
    let most = if number < 10 { 14 } else { 8 };
    let first = name.get(..most).unwrap_or(name);
    let first = first.trim_end_matches('-');
    hint.say_two("; for example {}-{}", first, number);
}
