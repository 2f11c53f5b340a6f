//! The columns of rows, by the names in the heading.
ghost use Rattle.std.specs.Prelude.{◌≡◌, ◌<◌, position};
ghost use Rattle.csv.specs.Records.{fields_of};
ghost use Rattle.a429_import.specs.declared.fault.ImportColumn.{ImportColumn};
ghost use Rattle.a429_import.specs.declared.fault.ImportColumn.TheVariants.{MaxUs, MinUs};
ghost use Rattle.a429_import.specs.ImportRows.{column_field, column_form, is_column, is_named, is_wrong, places_in, times, wrong_column};

use crate::fault::ImportColumn;
use crate::intervals::{IntervalForm, IntervalUnit, form_named, states_interval};
use crate::plain::same_heading;
use a429_text::CsvLine;

/// All columns, in the order in which they are looked for.
pub const COLUMNS: [ImportColumn; 10] = [
    ImportColumn::Group,
    ImportColumn::Rate,
    ImportColumn::Source,
    ImportColumn::Receiver,
    ImportColumn::Label,
    ImportColumn::Sdi,
    ImportColumn::MinUs,
    ImportColumn::MaxUs,
    ImportColumn::Hold,
    ImportColumn::Filters,
];

/// Whether a name is one of a column: in any case, with blanks and line breaks for underlines. An interval has several
/// names, by its unit. Those of both limits name the columns of both.
#[tactic(auto, unfolding(crate::specs::ImportRows::is_named))]
pub fn is_named(column: ImportColumn, name: &[u8]) -> bool
    ensures { result ≡ is_named column name.now }
{
    same_heading(column.name().as_bytes(), name) || states_interval(column, name)
}

/// Whether a name is that of a column.
pub fn is_column(name: &[u8]) -> bool
    ensures { result ≡ is_column name.now }
{
    COLUMNS.iter().any(|column| is_named(*column, name))
}

/// The number of fields of the heading that are the name of a column.
fn times(heading: &CsvLine, column: ImportColumn) -> usize
    ensures { result ≡ times (fields_of heading.now.fields) column }
{
    let mut count = 0;
    for place in 0..heading.len() {
        count += usize::from(is_named(column, heading.field(place)));
    }
    count
}

/// Whether the heading lacks a column that it needs, or has it twice.
#[tactic(auto, unfolding(crate::specs::ImportRows::is_wrong))]
fn is_wrong(heading: &CsvLine, column: ImportColumn) -> bool
    ensures { result ≡ is_wrong (fields_of heading.now.fields) column }
{
    let count = times(heading, column);
    1 < count || column.is_needed() && count == 0
}

/// The first column that is wrong: the heading lacks it, although it is needed, or has it twice. `None` if none is.
#[tactic(auto, unfolding(crate::specs::ImportRows::wrong_column))]
pub fn wrong_column(heading: &CsvLine) -> Option<ImportColumn>
    ensures { result ≡ wrong_column (fields_of heading.now.fields) }
{
    COLUMNS
        .iter()
        .find(|column| is_wrong(heading, **column))
        .copied()
}

/// The place of a column, counted from 0: that of the first field of the heading with its name.
fn place_of(heading: &CsvLine, column: ImportColumn) -> Option<usize>
    ensures { result ≡ position (is_named column) (fields_of heading.now.fields) }
{
    for place in 0..heading.len() {
        if is_named(column, heading.field(place)) {
            return Some(place);
        }
    }
    None
}

/// How the column of an interval states it; in microseconds if the heading lacks it.
#[tactic(auto, unfolding(crate::specs::ImportRows::column_form))]
fn column_form(heading: &CsvLine, column: ImportColumn) -> IntervalForm
    ensures { result ≡ column_form (fields_of heading.now.fields) column }
{
    match place_of(heading, column) {
        Some(place) => form_named(column, heading.field(place)),
        None => IntervalForm {
            unit: IntervalUnit::Micros,
            has_both: false,
        },
    }
}

/// The places of all columns, in the order of `COLUMNS`.
fn places_of(heading: &CsvLine) -> [Option<usize>; 10]
    ensures { result ≡ places_in (fields_of heading.now.fields) }
{
    [
        place_of(heading, ImportColumn::Group),
        place_of(heading, ImportColumn::Rate),
        place_of(heading, ImportColumn::Source),
        place_of(heading, ImportColumn::Receiver),
        place_of(heading, ImportColumn::Label),
        place_of(heading, ImportColumn::Sdi),
        place_of(heading, ImportColumn::MinUs),
        place_of(heading, ImportColumn::MaxUs),
        place_of(heading, ImportColumn::Hold),
        place_of(heading, ImportColumn::Filters),
    ]
}

/// A heading with the places of its columns.
#[derive(Drop)]
pub struct Heading {
    pub line: CsvLine,
    /// In the order of `COLUMNS`.
    places: [Option<usize>; 10],
    pub min_form: IntervalForm,
    pub max_form: IntervalForm,
    ghost of_places: { places ≡ places_in (fields_of line.fields) },
    ghost of_min: { min_form ≡ column_form (fields_of line.fields) MinUs },
    ghost of_max: { max_form ≡ column_form (fields_of line.fields) MaxUs },
}

impl Heading {
    /// The heading in a line.
    pub fn of(line: CsvLine) -> Heading
        ensures { result.line ≡ line }
    {
        let places = places_of(&line);
        let min_form = column_form(&line, ImportColumn::MinUs);
        let max_form = column_form(&line, ImportColumn::MaxUs);
        Heading {
            line,
            places,
            min_form,
            max_form,
        }
    }

    /// The place of a column, counted from 0. `None` if the heading has no such column.
    pub fn place(&self, column: ImportColumn) -> Option<usize>
        ensures { result ≡ position (is_named column) (fields_of self.now.line.fields) }
    {
        self.places[column as usize]
    }

    /// The field of a row in a column; an empty one if the heading has no such column.
    #[tactic(auto, unfolding(crate::specs::ImportRows::column_field))]
    pub fn field_of<'a>(&self, line: &'a CsvLine, column: ImportColumn) -> &'a [u8]
        ensures { result.now ≡ column_field (fields_of self.now.line.fields) (fields_of line.now.fields) column }
    {
        match self.place(column) {
            Some(place) => line.field(place),
            None => &[],
        }
    }
}
