//! Rows that are read quickly, since most logs have no others.
ghost use Rattle.std.specs.Prelude.{◌≡◌, ◌<◌, ◌≤◌, IfSome, Ok, Some, get_or, length, position, take, true};
ghost use Rattle.a429_logs.specs.LogColumns.{plain_places};
ghost use Rattle.a429_logs.specs.LogFields.{fields_of};
ghost use Rattle.a429_logs.specs.LogRows.{in_micros, row_of, stated_by};
ghost use Rattle.a429_logs.specs.LogTimes.{decimal_digits};
ghost use Rattle.a429_logs.specs.QuickRows.{IsWordSize, StartsPlain, ends_name, is_gap};
ghost use Rattle.a429_logs.specs.declared.fields.Separator.TheVariants.{Blank};
ghost use Rattle.a429_logs.specs.declared.times.TimeUnit.TheVariants.{Microseconds};

use crate::columns::{Places, WordPlaces};
use crate::fields::Separator;
use crate::hexadecimal::eight_digits;
use crate::rows::StatedWord;
use crate::times::TimeUnit;
use crate::words::{BitOrder, whole_word};

/// Whether rows are times in microseconds, names and words between blanks, as most are.
#[inline(always)]
pub fn is_plain(unit: TimeUnit, separator: Separator, places: &Places) -> bool
    ensures { result ≡ true → (unit ≡ Microseconds) × (separator ≡ Blank) × (places.now ≡ plain_places) }
{
    match (unit, separator, places.word) {
        (TimeUnit::Microseconds, Separator::Blank, WordPlaces::Whole(2)) => {
            places.width.all == 3
                && places.width.bare == 3
                && places.unit.is_none()
                && places.time == 0
                && places.name == 1
        }
        _ => false,
    }
}

/// Whether a byte is a space or a tab.
#[inline(always)]
fn is_gap(byte: u8) -> bool
    ensures { result ≡ is_gap byte }
{
    byte == b' ' || byte == b'\t'
}

/// The number that digits state before the first blank of a text, and the place of that blank, which is below `most`.
/// `None` if the text does not begin so.
#[inline(always)]
fn number_before(text: &[u8], most: usize) -> Option<(u64, usize)>
    requires within { most ≤ length text.now }
    requires few { most ≤ 18 }
    ensures within { IfSome result (λ found. found.1 < length text.now) }
    ensures number { IfSome result (λ found. decimal_digits (take found.1 text.now) ≡ Some found.0) }
    ensures gap { IfSome result (λ found. is_gap (get_or text.now found.1 0) ≡ true) }
{
    let mut number = 0;
    for place in 0..most {
        let byte = text[place];
        if !byte.is_ascii_digit() {
            if place == 0 || !is_gap(byte) {
                return None;
            }
            return Some((number, place));
        }
        number = number * 10 + u64::from(byte - b'0');
    }
    None
}

/// Whether a name ends at a byte, or has to be read another way.
#[inline(always)]
fn ends_name(byte: u8) -> bool
    ensures { result ≡ ends_name byte }
{
    byte <= b'"' && (byte == b'"' || byte.is_ascii_whitespace())
}

/// The place of the first such byte.
#[inline(always)]
fn name_end(text: &[u8]) -> Option<usize>
    ensures { result ≡ position ends_name text.now }
{
    text.iter().position(|byte| ends_name(*byte))
}

/// The word that a row states which is a time in microseconds, a name and a word between single blanks. `None` for any
/// other row, and for some of these.
#[inline(always)]
fn plain_row(order: BitOrder, line: &[u8]) -> Option<StatedWord<'_>>
    ensures { IfSome result (λ w. row_of Microseconds order Blank plain_places (fields_of Blank line.now) ≡ Ok (in_micros (stated_by w))) }
{
    let (time, end) = number_before(line, line.len().min(18))?;
    let rest = &line[end + 1..];
    let stop = name_end(rest)?;
    if stop == 0 || !is_gap(rest[stop]) {
        return None;
    }
    let raw = whole_word(&rest[stop + 1..])?;
    Some(StatedWord {
        time,
        name: &rest[..stop],
        raw: order.unreversed(raw),
    })
}

/// How many bytes of a text are before a line feed: eight, or these and a carriage return. `None` for any other text.
#[inline(always)]
fn word_size(text: &[u8]) -> Option<usize>
    ensures { IfSome result (λ size. IsWordSize text.now size) }
{
    match text {
        [_, _, _, _, _, _, _, _, b'\n', ..] => Some(8),
        [_, _, _, _, _, _, _, _, b'\r', b'\n', ..] => Some(9),
        _ => None,
    }
}

/// The word of the first line of a text, and the place of the line feed after it, if the line is such a row. `None` for
/// any other line, and for some of these.
#[inline(always)]
pub fn plain_start(order: BitOrder, text: &[u8]) -> Option<(StatedWord<'_>, usize)>
    ensures { IfSome result (λ found. StartsPlain order text.now found.1 (stated_by found.0)) }
{
    if text.len() < 18 {
        return None;
    }
    let (time, end) = number_before(text, 18)?;
    let rest = &text[end + 1..];
    let stop = name_end(rest)?;
    if stop == 0 || !is_gap(rest[stop]) {
        return None;
    }
    let last = &rest[stop + 1..];
    let size = word_size(last)?;
    let raw = eight_digits(&last[..8])?;
    let word = StatedWord {
        time,
        name: &rest[..stop],
        raw: order.unreversed(raw),
    };
    Some((word, end + stop + size + 2))
}

/// The word of a row, if the row is one of those that most logs have. `None` for any other row.
#[inline(always)]
pub fn quick_word<'a>(
    unit: TimeUnit,
    order: BitOrder,
    separator: Separator,
    places: &Places,
    line: &'a [u8],
) -> Option<StatedWord<'a>>
    ensures { IfSome result (λ w. row_of unit order separator places.now (fields_of separator line.now) ≡ Ok (in_micros (stated_by w))) }
{
    if is_plain(unit, separator, places) {
        plain_row(order, line)
    } else {
        None
    }
}
