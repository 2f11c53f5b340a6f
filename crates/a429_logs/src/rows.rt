//! The rows of a log: a time, a name and a word.
ghost use Rattle.std.specs.Prelude.{◌≡◌, option_map};
ghost use Rattle.a429_logs.specs.LateDates.{late_time};
ghost use Rattle.a429_logs.specs.LogDates.{or_second};
ghost use Rattle.a429_logs.specs.LogExponents.{exponent_time};
ghost use Rattle.a429_logs.specs.LogFields.{fields_of};
ghost use Rattle.a429_logs.specs.LogRows.{caught, caught_in, field_at, parts_word, row_of, row_parity, shown, shown_written, word_in, word_place, written_time};
ghost use Rattle.a429_logs.specs.declared.written.WrittenTime.TheVariants.{Micros};

use crate::columns::{PartsPlaces, Places, Width, WordPlaces};
use crate::dates::late_time;
use crate::exponents::exponent_time;
use crate::fields::{Fields, Separator};
use crate::parts::{WrittenParity, parity_in, ssm_in, written_word};
use crate::times::{TimeUnit, time_of};
use crate::words::{BitOrder, label_in, two_bits, value_in, whole_word};
use crate::written::{WrittenTime, calendar_time};

/// What is wrong with a row.
#[derive(Clone, Copy)]
pub enum RowFault {
    /// It has more or fewer fields than there are columns. An empty field at the end does not count.
    Fields,
    /// Its time is none: neither one in the unit of the log nor one by a calendar, or not of the form of the first time.
    Time,
    /// Its date can be read with the day or the month first, and no row before shows it.
    DateOrder,
    /// Its word is not eight hexadecimal digits.
    Word,
    /// Its label is no number of eight bits.
    Label,
    /// Its SDI is neither 0 to 3 nor two binary digits.
    Sdi,
    /// Its SSM is neither 0 to 3, nor two binary digits, nor one of the texts.
    Ssm,
    /// Its data is no number, or has more than 19 bits.
    Value,
    /// Its parity is neither 0 nor 1, nor one of the texts.
    Parity,
    /// It comes before the time from which times are counted.
    Early,
    /// Its time is below that of the row before it.
    Falls,
}

/// A word as a row states it: when it comes in, in microseconds; by which name; and its 32 bits.
#[derive(Clone, Copy)]
pub struct StatedWord<'a> {
    pub time: u64,
    pub name: &'a [u8],
    pub raw: u32,
}

/// A word as a row writes it: when it comes in, by which name, and its 32 bits.
#[derive(Clone, Copy)]
pub struct RowWord<'a> {
    pub time: WrittenTime,
    pub name: &'a [u8],
    pub raw: u32,
}

/// The column in which a word begins.
fn word_place(places: WordPlaces) -> usize
    ensures { result ≡ word_place places }
{
    match places {
        WordPlaces::Whole(place) => place,
        WordPlaces::Parts(parts) => parts.label.place,
    }
}

/// The fields of a row in the columns of its time, its name and its word.
#[derive(Clone, Copy)]
pub struct RowFields<'a> {
    pub time: &'a [u8],
    pub name: &'a [u8],
    pub word: &'a [u8],
}

/// A field, if it is in the column; otherwise the old one.
fn caught<'a>(column: usize, place: usize, field: &'a [u8], old: &'a [u8]) -> &'a [u8]
    ensures { result.now ≡ caught column place field.now old.now }
{
    if column == place { field } else { old }
}

/// The fields of a row. `None` if there are more or fewer than this number.
fn row_fields<'a>(
    count: usize,
    places: &Places,
    separator: Separator,
    line: &'a [u8],
) -> Option<RowFields<'a>>
    ensures { option_map shown result ≡ caught_in count places.now (fields_of separator line.now) }
{
    let mut time: &'a [u8] = &[];
    let mut name: &'a [u8] = &[];
    let mut word: &'a [u8] = &[];
    let mut fields = Fields::of(separator, line);
    for place in 0..count {
        let field = fields.next()?;
        time = caught(places.time, place, field, time);
        name = caught(places.name, place, field, name);
        word = caught(word_place(places.word), place, field, word);
    }
    match fields.next() {
        None => Some(RowFields { time, name, word }),
        Some(_) => None,
    }
}

/// The field of a line in a column.
pub fn field_at(separator: Separator, line: &[u8], place: usize) -> &[u8]
    ensures { result.now ≡ field_at place (fields_of separator line.now) }
{
    let mut fields = Fields::of(separator, line);
    for passed in 0..place {
        let Some(_field) = fields.next() else {
            return &[];
        };
    }
    fields.next().unwrap_or(&[])
}

/// The parity that a row states; without a column of parities it is odd.
fn row_parity(place: Option<usize>, separator: Separator, line: &[u8]) -> Option<WrittenParity>
    ensures { result ≡ row_parity place (fields_of separator line.now) }
{
    match place {
        Some(place) => parity_in(field_at(separator, line, place)),
        None => Some(WrittenParity::Odd(true)),
    }
}

/// A word by its label, SDI, SSM and data.
fn parts_word(parts: &PartsPlaces, separator: Separator, line: &[u8]) -> Result<u32, RowFault>
    ensures { result ≡ parts_word parts.now (fields_of separator line.now) }
{
    let text = field_at(separator, line, parts.label.place);
    let label = label_in(parts.label.base, text).ok_or(RowFault::Label)?;
    let sdi = two_bits(field_at(separator, line, parts.sdi)).ok_or(RowFault::Sdi)?;
    let ssm = ssm_in(field_at(separator, line, parts.ssm)).ok_or(RowFault::Ssm)?;
    let text = field_at(separator, line, parts.value.place);
    let value = value_in(parts.value.base, text).ok_or(RowFault::Value)?;
    let parity = row_parity(parts.parity, separator, line).ok_or(RowFault::Parity)?;
    Ok(written_word(label, sdi, ssm, value, parity))
}

/// The word of a row that begins with this field.
fn word_in(
    order: BitOrder,
    place: &WordPlaces,
    separator: Separator,
    line: &[u8],
    word: &[u8],
) -> Result<u32, RowFault>
    requires { word.now ≡ field_at (word_place place.now) (fields_of separator line.now) }
    ensures { result ≡ word_in order place.now (fields_of separator line.now) }
{
    match place {
        WordPlaces::Whole(_) => {
            match whole_word(word) {
                Some(raw) => Ok(order.unreversed(raw)),
                None => Err(RowFault::Word),
            }
        }
        WordPlaces::Parts(parts) => parts_word(parts, separator, line),
    }
}

/// The time that a text writes by a date with the year last, or as a number with an exponent.
#[cold]
#[inline(never)]
fn longer_time(unit: TimeUnit, separator: Separator, text: &[u8]) -> Option<WrittenTime>
    ensures { result ≡ or_second (late_time separator text.now) (option_map Micros (exponent_time unit separator text.now)) }
{
    match late_time(separator, text) {
        Some(time) => Some(time),
        None => Some(WrittenTime::Micros(exponent_time(unit, separator, text)?)),
    }
}

/// The time that a text writes: digits in this unit, a time by a calendar, or a number with an exponent. `None` if it
/// writes none.
#[tactic(auto, unfolding(crate::specs::LogRows::written_time))]
fn written_time(unit: TimeUnit, separator: Separator, text: &[u8]) -> Option<WrittenTime>
    ensures { result ≡ written_time unit separator text.now }
{
    if let Some(micros) = time_of(unit, separator, text) {
        return Some(WrittenTime::Micros(micros));
    }
    match calendar_time(separator, text) {
        Some(time) => Some(time),
        None => longer_time(unit, separator, text),
    }
}

/// The word that a row writes. Error: the first fault of the row, in the order number of fields, time, word.
#[tactic(auto, unfolding(crate::specs::LogRows::row_of))]
pub fn row_of<'a>(
    unit: TimeUnit,
    order: BitOrder,
    separator: Separator,
    places: &Places,
    line: &'a [u8],
) -> Result<RowWord<'a>, RowFault>
    ensures { shown_written result ≡ row_of unit order separator places.now (fields_of separator line.now) }
{
    let width = Width::of(separator, line);
    if !places.fits(width) {
        return Err(RowFault::Fields);
    }
    let Some(row) = row_fields(width.all, places, separator, line) else {
        return Err(RowFault::Fields);
    };
    let Some(time) = written_time(unit, separator, row.time) else {
        return Err(RowFault::Time);
    };
    let raw = word_in(order, &places.word, separator, line, row.word)?;
    Ok(RowWord {
        time,
        name: row.name,
        raw,
    })
}
