//! The heading of a text: its line, and what separates its fields.
ghost use Rattle.std.specs.Prelude.{◌≡◌, ◌≤◌, ◌+◌, ◌==◌, ◌&&◌, ◌||◌, IfSome, false, drop, length, not, option_map, position};
ghost use Rattle.std.specs.List.{find};
ghost use Rattle.a429_import.specs.ImportForms.{after_separator, count_before, ends_field, ends_line, field_len, from_heading, from_line, heading_among, is_heading, later_lines, len_before, names_column, quoted_len, quotes_end, separator_in, separators};
ghost use Rattle.a429_import.specs.ImportMaps.{given_texts};
ghost use Rattle.a429_import.specs.ImportQuotes.{text_before};

use crate::blanks::trimmed;
use crate::maps::names_column_by;
use crate::plain::unquoted;
use a429_text::cut::without_byte_order_mark;

/// A text from its heading on, and what separates its fields.
#[derive(Clone, Copy)]
pub struct Form<'a> {
    pub separator: u8,
    pub text: &'a [u8],
}

/// A line feed or a carriage return.
pub fn ends_line(byte: u8) -> bool
    ensures { result ≡ ends_line byte }
{
    byte == b'\n' || byte == b'\r'
}

/// The place of the first line end.
fn first_end(text: &[u8]) -> Option<usize>
    ensures { result ≡ position ends_line text.now }
{
    text.iter().position(|byte| ends_line(*byte))
}

/// The place of the first byte that is no line end.
fn first_byte(text: &[u8]) -> Option<usize>
    ensures { result ≡ position (λ b. not (ends_line b)) text.now }
{
    text.iter().position(|byte| !ends_line(*byte))
}

/// The bytes from a place on; none if there are fewer.
pub fn from_place(text: &[u8], place: usize) -> &[u8]
    ensures { result.now ≡ drop place text.now }
{
    if place <= text.len() {
        &text[place..]
    } else {
        &[]
    }
}

/// The text without line ends at its beginning.
fn from_line(text: &[u8]) -> &[u8]
    ensures { result.now ≡ from_line text.now }
{
    from_place(text, first_byte(text).unwrap_or(text.len()))
}

/// Whether a text in quotes ended before a byte: a quote came just before, and this is none.
fn ends_quotes(is_quote: bool, byte: u8) -> bool
    ensures { result ≡ (is_quote && not (byte == 34)) }
{
    is_quote && byte != b'"'
}

/// Whether a byte is a quote that may close a text in quotes: no such quote came just before.
fn may_close(is_quote: bool, byte: u8) -> bool
    ensures { result ≡ (not is_quote && byte == 34) }
{
    !is_quote && byte == b'"'
}

/// The number of bytes up to the end of a text in quotes, with the quote that closes it. `None` if it is not closed.
fn quotes_end(text: &[u8]) -> Option<usize>
    ensures end { result ≡ quotes_end false 0 text.now }
    ensures few { IfSome result (λ n. n ≤ length text.now) }
{
    let mut is_quote = false;
    for place in 0..text.len() {
        if ends_quotes(is_quote, text[place]) {
            return Some(place);
        }
        is_quote = may_close(is_quote, text[place]);
    }
    if is_quote { Some(text.len()) } else { None }
}

/// Whether a field ends at the beginning of a text.
fn ends_field(text: &[u8]) -> bool
    ensures { result ≡ ends_field text.now }
{
    match text {
        [byte, ..] => matches!(*byte, b'\n' | b'\r' | b',' | b';' | b'\t'),
        [] => true,
    }
}

/// The number of bytes of a field in quotes at the beginning of a text; 0 if there is none, or if it is not closed.
fn quoted_len(text: &[u8]) -> usize
    ensures len { result ≡ quoted_len text.now }
    ensures few { result ≤ length text.now }
{
    match text {
        [b'"', rest @ ..] => match quotes_end(rest) {
            Some(end) if ends_field(from_place(rest, end)) => end + 1,
            _ => 0,
        },
        _ => 0,
    }
}

/// The text after its first line; a field in quotes at its beginning may have line ends.
fn later_lines(text: &[u8]) -> &[u8]
    ensures { result.now ≡ later_lines text.now }
{
    let rest = from_place(text, quoted_len(text));
    let end = first_end(rest).unwrap_or(rest.len());
    from_line(from_place(rest, end))
}

/// Whether a field of a line names a column, by itself or by a text HEADING=COLUMN.
fn names_column(maps: &[&str], field: &[u8]) -> bool
    ensures { result ≡ names_column (given_texts maps.now) field.now }
{
    names_column_by(maps, trimmed(unquoted(field)))
}

/// The place of the first separator or line end.
fn field_end(separator: u8, text: &[u8]) -> Option<usize>
    ensures { result ≡ position (λ b. (b == separator) || ends_line b) text.now }
{
    text.iter()
        .position(|byte| *byte == separator || ends_line(*byte))
}

/// The number of bytes before a separator or a line end.
fn len_before(separator: u8, text: &[u8]) -> usize
    ensures len { result ≡ len_before separator text.now }
    ensures few { result ≤ length text.now }
{
    field_end(separator, text).unwrap_or(text.len())
}

/// The number of bytes of the first field, as it is written.
fn field_len(separator: u8, text: &[u8]) -> usize
    ensures len { result ≡ field_len separator text.now }
    ensures few { result ≤ length text.now }
{
    let quoted = quoted_len(text);
    quoted + len_before(separator, from_place(text, quoted))
}

/// The text after a separator at its beginning. `None` if there is none.
fn after_separator(separator: u8, text: &[u8]) -> Option<&[u8]>
    ensures { option_map (λ rest. rest.now) result ≡ after_separator separator text.now }
{
    match text {
        [byte, rest @ ..] if *byte == separator => Some(rest),
        _ => None,
    }
}

/// Whether two fields or more of the first row name columns, if this separates its fields.
fn is_heading(maps: &[&str], text: &[u8], separator: u8) -> bool
    ensures { result ≡ is_heading (given_texts maps.now) text.now separator }
{
    let mut count = 0;
    let mut rest = text;
    let mut left = text.len();
    while 0 < left {
        let len = field_len(separator, rest);
        count += usize::from(names_column(maps, &rest[..len]));
        match after_separator(separator, from_place(rest, len)) {
            Some(after) => rest = after,
            None => return 1 < count,
        }
        left -= 1;
    }
    1 < count
}

/// What separates the fields of the first row, if it is a heading.
fn separator_of(maps: &[&str], line: &[u8]) -> Option<u8>
    ensures { result ≡ find (is_heading (given_texts maps.now) line.now) separators }
{
    if is_heading(maps, line, b',') {
        Some(b',')
    } else if is_heading(maps, line, b';') {
        Some(b';')
    } else if is_heading(maps, line, b'\t') {
        Some(b'\t')
    } else {
        None
    }
}

/// The first of these lines that is a heading, with the text from it on.
fn heading_among<'a>(maps: &[&str], lines: usize, text: &'a [u8]) -> Option<Form<'a>>
    ensures { option_map (λ form. (form.separator, form.text.now)) result ≡ heading_among (given_texts maps.now) lines text.now }
{
    let mut rest = text;
    let mut left = lines;
    while 0 < left {
        match separator_of(maps, rest) {
            Some(separator) => {
                return Some(Form {
                    separator,
                    text: rest,
                });
            }
            None => {}
        }
        rest = later_lines(rest);
        left -= 1;
    }
    None
}

/// What comes before the end of a text.
pub fn text_before<'a>(end: &[u8], text: &'a [u8]) -> &'a [u8]
    ensures { result.now ≡ text_before end.now text.now }
{
    &text[..text.len().saturating_sub(end.len())]
}

/// A text from its heading on, and what separates its fields. All of it, and a comma, if it has no heading.
pub fn form_of<'a>(maps: &[&str], text: &'a [u8]) -> Form<'a>
    ensures separator { result.separator ≡ separator_in (given_texts maps.now) text.now }
    ensures text { result.text.now ≡ from_heading (given_texts maps.now) text.now }
{
    heading_among(maps, 11, from_line(without_byte_order_mark(text))).unwrap_or(Form {
        separator: b',',
        text,
    })
}
