//! Which fields of a heading are likely meant by columns that it lacks.

use crate::column_forms::name_of;
use crate::file_rows::FileRows;
use crate::lists::field_count;
use crate::nearest::Nearest;
use a429_import::{
    IMPORT_COLUMNS, ImportColumn, IntervalForm, IntervalUnit, is_column, is_column_named,
};
use a429_text::CsvLine;
use std::alloc::{AllocError, Global};

/// How many rows are looked at to see what a field may be.
const ROWS: usize = 8;

/// The longest heading that may be meant by a column, in bytes.
const LONGEST: usize = 256;

// The words that people write in a heading for some units, for limits and for a source.
const MILLIS: &str = "ms msec millisecond milliseconds";

const HERTZ: &str = "hz hertz";

const MINIMUM: &str = "min minimum shortest";

const MAXIMUM: &str = "max maximum longest";

const SOURCE: &str = "source parameter name signal";

/// The columns in the order in which they take fields, those with the plainest words first, and the words that people write in
/// a heading for each, the likeliest first.
static COLUMNS: [(ImportColumn, &str); 8] = [
    (ImportColumn::MinUs, MINIMUM),
    (ImportColumn::MaxUs, MAXIMUM),
    (ImportColumn::Label, "label lbl octal"),
    (ImportColumn::Sdi, "sdi"),
    (ImportColumn::Rate, "rate speed bitrate baud kbit kbps"),
    (ImportColumn::Source, SOURCE),
    (
        ImportColumn::Group,
        "group lru dest destination to consumer user",
    ),
    (
        ImportColumn::Receiver,
        "receiver from input origin transmitter sender channel",
    ),
];

/// Whether a text has a word, in any case. Words are separated by what is no letter and no digit.
fn has_word(text: &[u8], word: &str) -> bool {
    let mut parts = text.split(|byte| !byte.is_ascii_alphanumeric());
    parts.any(|part| part.eq_ignore_ascii_case(word.as_bytes()))
}

/// The place of the first of some words that a text has; the words are separated by spaces.
fn first_word(text: &[u8], words: &str) -> Option<usize> {
    words.split(' ').position(|word| has_word(text, word))
}

/// Whether a text has one of some words.
fn has_one(text: &[u8], words: &str) -> bool {
    first_word(text, words).is_some()
}

/// A field of a heading that is likely meant by a column, and the name of the column that it should have.
#[derive(Clone, Copy)]
pub struct Guess {
    pub column: ImportColumn,
    pub place: usize,
    pub name: &'static str,
}

impl Guess {
    /// That a column is meant by the field in a place.
    fn of(file: FileRows, column: ImportColumn, place: usize) -> Guess {
        let name = match column {
            ImportColumn::MinUs | ImportColumn::MaxUs => name_of(column, interval_at(file, place)),
            _ => column.name(),
        };
        Guess {
            column,
            place,
            name,
        }
    }
}

/// How a column of intervals states them, by its heading and the first field below it.
fn interval_at(file: FileRows, place: usize) -> IntervalForm {
    let title = file.titles.field(place);
    let is_micros = has_one(title, "us usec microsecond microseconds");
    let unit = if has_one(title, HERTZ) {
        IntervalUnit::Hertz
    } else if has_one(title, MILLIS) || !is_micros && is_short(file, place) {
        IntervalUnit::Millis
    } else {
        IntervalUnit::Micros
    };
    IntervalForm {
        unit,
        has_both: has_both(file, place),
    }
}

/// The first field below a heading; empty if there is none.
fn first_below<'a>(file: FileRows<'a>, place: usize) -> &'a [u8] {
    match file.rows.first() {
        Some(row) => row.field(place),
        None => &[],
    }
}

/// Whether the first field below a heading has fewer than four digits at its beginning: such an interval in microseconds is
/// rare.
fn is_short(file: FileRows, place: usize) -> bool {
    let field = first_below(file, place).iter();
    file.rows.first().is_some() && field.take_while(|byte| byte.is_ascii_digit()).count() < 4
}

/// Whether a heading may be meant by a column with both limits of an interval: the first field below it has two numbers, such
/// as `50/100`, `50-100`, or with an en dash.
fn has_both(file: FileRows, place: usize) -> bool {
    let words = "hz hertz ms msec us usec interval intervals period time update";
    let mut field = first_below(file, place).iter();
    has_one(file.titles.field(place), words) && field.any(|byte| b"/-\xE2".contains(byte))
}

/// How likely a field of a heading is meant by a column: 0 is the likeliest. `None` if it is not. A field with both limits
/// counts for the minimum. A rate is the least one, which gives the maximum, unless it says that it is the greatest.
fn rank_at(file: FileRows, column: ImportColumn, words: &str, place: usize) -> Option<usize> {
    let title = file.titles.field(place);
    let is_rate = has_one(title, HERTZ);
    let meant = if has_both(file, place) || is_rate && has_one(title, MAXIMUM) {
        ImportColumn::MinUs
    } else if is_rate {
        ImportColumn::MaxUs
    } else if is_other(column, title) {
        return None;
    } else {
        return first_word(title, words);
    };
    (column == meant).then_some(0)
}

/// Whether a heading has words of another column: a limit is meant by no column but those of limits, and a time by no rate.
fn is_other(column: ImportColumn, title: &[u8]) -> bool {
    match column {
        ImportColumn::MinUs | ImportColumn::MaxUs => false,
        ImportColumn::Rate if has_one(title, MILLIS) => true,
        _ => has_one(title, MINIMUM) || has_one(title, MAXIMUM),
    }
}

/// Whether a field has octal digits: at most three, perhaps as `="203"`.
pub fn is_octal(field: &[u8]) -> bool {
    field.starts_with(b"=")
        || field.len() <= 3 && field.iter().all(|byte| b'0' <= *byte && *byte <= b'7')
}

/// Whether a field may be one of a column. An empty one may.
fn may_be(column: ImportColumn, field: &[u8]) -> bool {
    let Some(first) = field.first() else {
        return true;
    };
    match column {
        ImportColumn::Rate => first.is_ascii_digit() || b"hHlL".contains(first),
        ImportColumn::Label => is_octal(field),
        ImportColumn::Sdi => field.len() <= 3,
        ImportColumn::MinUs | ImportColumn::MaxUs => first.is_ascii_digit(),
        _ => true,
    }
}

/// Whether the first fields below a heading may be those of a column.
fn may_all_be(file: FileRows, column: ImportColumn, place: usize) -> bool {
    let mut rows = file.rows.iter().take(ROWS);
    rows.all(|row| may_be(column, row.field(place)))
}

/// Whether a field may be meant by a column that the heading lacks: it names no column, no guess has it, and it is no long
/// text.
fn is_free(file: FileRows, place: usize) -> bool {
    let title = file.titles.field(place);
    title.len() <= LONGEST
        && !is_column(title)
        && !is_column(file.heading.line.field(place))
        && !file.guesses.iter().any(|guess| guess.place == place)
}

/// How many fields of a heading name a column.
pub fn times_in(heading: &CsvLine, column: ImportColumn) -> usize {
    let places = 0..field_count(heading);
    places
        .filter(|place| is_column_named(column, heading.field(*place)))
        .count()
}

/// Whether a heading lacks a column, and no guess has it. A guess for the minimum has the maximum too if its column has both
/// limits.
pub fn is_missing(file: FileRows, column: ImportColumn) -> bool {
    let least = guess_for(file.guesses, ImportColumn::MinUs);
    column.is_needed()
        && times_in(&file.heading.line, column) == 0
        && guess_for(file.guesses, column).is_none()
        && !(column == ImportColumn::MaxUs
            && least.is_some_and(|guess| has_both(file, guess.place)))
}

/// The guess for a column. `None` if there is none.
pub fn guess_for(guesses: &[Guess], column: ImportColumn) -> Option<Guess> {
    guesses.iter().copied().find(|guess| guess.column == column)
}

/// The likeliest field for a column, by the words of its heading.
fn likeliest(file: FileRows, column: ImportColumn, words: &str) -> Option<usize> {
    let places = (0..field_count(file.titles)).filter(|place| {
        is_free(file, *place) && may_all_be(file, column, *place)
    });
    let ranked = places.filter_map(|place| Some((rank_at(file, column, words, place)?, place)));
    let (_, place) = ranked.min()?;
    Some(place)
}

/// A letter or a digit, in lower case. `None` for another byte.
fn letter(byte: u8) -> Option<u8> {
    byte.is_ascii_alphanumeric()
        .then_some(byte.to_ascii_lowercase())
}

/// Whether two texts have the same letters and digits: names of one column differ in case, spaces and signs.
pub fn are_alike(a: &str, b: &str) -> bool {
    let a = a.bytes().filter_map(|byte| letter(byte));
    a.eq(b.bytes().filter_map(|byte| letter(byte)))
}

/// The field that is nearest to a name, of those that may be meant by a column: the first one with the same letters, or the
/// one that takes the fewest edits.
pub fn nearest(alloc: Global, file: FileRows, name: &str) -> Option<usize> {
    let mut nearest = Nearest::to(name);
    for place in 0..field_count(file.titles) {
        let title = file.title(place);
        if !is_free(file, place) {
            continue;
        }
        if are_alike(title, name) {
            return Some(place);
        }
        nearest = nearest.or(alloc, title);
    }
    let name = nearest.name()?;
    (0..field_count(file.titles)).find(|place| file.titles.field(*place) == name.as_bytes())
}

/// The field for a column, if it is missing: by the words of its heading, or by its name.
fn place_for(
    alloc: Global,
    file: FileRows,
    column: ImportColumn,
    words: Option<&str>,
) -> Option<usize> {
    match words {
        _ if !is_missing(file, column) => None,
        Some(words) => likeliest(file, column, words),
        None => nearest(alloc, file, column.name()),
    }
}

/// Adds a guess for each missing column that has a likely field: by the words of its heading, or by its name.
fn add_guesses(
    alloc: Global,
    guesses: &mut Vec<Guess>,
    file: FileRows,
    by_words: bool,
) -> Result<(), AllocError> {
    for (column, words) in &COLUMNS {
        let known = FileRows {
            guesses: guesses.as_slice(),
            ..file
        };
        let words = by_words.then_some(*words);
        if let Some(place) = place_for(alloc, known, *column, words) {
            guesses.push(Guess::of(file, *column, place))?;
        }
    }
    Ok(())
}

/// Takes the field of the source as the receiver, if no other field is that and another field is likely the source.
fn swap_source(guesses: &mut Vec<Guess>, file: FileRows) -> Result<(), AllocError> {
    let (source, receiver) = (ImportColumn::Source, ImportColumn::Receiver);
    let known = FileRows {
        guesses: guesses.as_slice(),
        ..file
    };
    if !is_missing(known, receiver) {
        return Ok(());
    }
    let guessed = guess_for(guesses, source).map(|guess| guess.place);
    let named = guessed.or(file.heading.place(source));
    if let (Some(named), Some(other)) = (named, likeliest(known, source, SOURCE)) {
        guesses.retain(|guess| guess.column != source);
        guesses.push(Guess::of(file, receiver, named))?;
        guesses.push(Guess::of(file, source, other))?;
    }
    Ok(())
}

/// The fields of a heading that are likely meant by the columns that it lacks. Error: an allocation failed.
pub fn guesses_of(alloc: Global, file: FileRows) -> Result<Vec<Guess>, AllocError> {
    let mut guesses = Vec::new(alloc);
    add_guesses(alloc, &mut guesses, file, true)?;
    swap_source(&mut guesses, file)?;
    add_guesses(alloc, &mut guesses, file, false)?;
    Ok(guesses)
}
