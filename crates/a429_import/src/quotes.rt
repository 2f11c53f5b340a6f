//! Fields in quotes that do not end with a quote and a separator or a line end (RFC 4180). The library `csv` reads on, so
//! rows below such a field would become a part of it.
ghost use Rattle.std.specs.Prelude.{◌≡◌, if◌then◌else◌, drop, false, option_map, true};
ghost use Rattle.a429_import.specs.ImportQuotes.{breaks_quotes, is_inside_quotes};
ghost use Rattle.a429_import.specs.FaultLines.{quotes_line, wrong_in, wrong_line};
ghost use Rattle.a429_import.specs.ImportSteps.{begins_field, state_of};
ghost use Rattle.a429_import.specs.Imports.{separated};
ghost use Rattle.a429_import.specs.LineCounts.{IsEnd};

use crate::forms::{Form, from_place, text_before};
use crate::lines::{Part, line_at, pass};
use a429_text::cut::without_byte_order_mark;

fn is_inside_quotes(part: Part) -> bool
    ensures { result ≡ is_inside_quotes (state_of part) }
{
    matches!(part, Part::Quoted)
}

/// Whether a byte is text after the quote that closes a field, by the part of the row before it and the part after it. The
/// flag says whether it is a byte of the rows: in the lines above the heading such text is allowed.
#[inline(always)]
fn breaks_quotes(of_rows: bool, before: Part, after: Part) -> bool
    ensures { result ≡ breaks_quotes of_rows (state_of before) (state_of after) }
{
    of_rows && matches!(before, Part::Quote) && matches!(after, Part::Text)
}

/// The place at which a field begins: the next place, unless a byte of the field was passed.
fn field_after(part: Part, begin: usize, after: usize) -> usize
    ensures { result ≡ (if begins_field (state_of part) then after else begin) }
{
    match part {
        Part::Row | Part::Return | Part::Field => after,
        _ => begin,
    }
}

/// The place at which the first field begins that does not end as a field in quotes does. Line ends may come before the
/// field.
fn misquoted_place(of_rows: bool, separator: u8, text: &[u8]) -> Option<usize>
    ensures { option_map (λ place. drop place text.now) result ≡ wrong_in of_rows (separated separator) text.now }
{
    let mut part = Part::Row;
    let mut begin = 0;
    for place in 0..text.len() {
        let next = pass(separator, part, text[place]);
        if breaks_quotes(of_rows, part, next) {
            return Some(begin);
        }
        part = next;
        begin = field_after(next, begin, place + 1);
    }
    if is_inside_quotes(part) {
        Some(begin)
    } else {
        None
    }
}

/// The line of a text on which the first such field of an end of it begins.
#[tactic(auto, using(crate::proofs::ImportQuotes::same_mark))]
fn wrong_line(of_rows: bool, separator: u8, text: &[u8], end: &[u8]) -> Option<u64>
    requires { IsEnd text.now end.now }
    ensures { result ≡ wrong_line of_rows (separated separator) text.now end.now }
{
    let rows = without_byte_order_mark(end);
    match misquoted_place(of_rows, separator, rows) {
        Some(place) => Some(line_at(text, from_place(rows, place))),
        None => None,
    }
}

/// The line on which the first field begins that does not end as a field in quotes does, counted from 1. Above the heading
/// it has the heading inside its quotes. `None` if there is no such field. The form is that of the text.
pub fn misquoted_line_of(text: &[u8], form: Form<'_>) -> Option<u64>
    requires { IsEnd text.now form.text.now }
    ensures { result ≡ quotes_line (separated form.entry.separator) form.entry.text.now text.now }
{
    let before = text_before(form.text, text);
    match wrong_line(false, form.separator, before, before) {
        Some(line) => Some(line),
        None => wrong_line(true, form.separator, text, form.text),
    }
}
