//! What a table expects, and what is missing.
ghost use Rattle.std.specs.Prelude.{◌≡◌, ◌<◌, ◌∷◌, ◌++◌, [], ◌||◌, flat_map, map, IfOk};
ghost use Rattle.std.specs.List.{list_any};
ghost use Rattle.a429_text.specs.Sheets.{field_of, text_in};
ghost use Rattle.a429_survey.specs.Expected.{has_finding, is_finding, is_finding_text, is_on, missing_row};
ghost use Rattle.a429_survey.specs.Kept.{has_at, has_in, is_missing_in, is_seen_in, missing_in};

use crate::expected::Expected;
use crate::lines::Line;
use a429_text::{Cell, Row, Rows};
use std::alloc::AllocError;

/// Whether words of an expectation's label came on a line, with an SDI that it takes.
fn has_at(expected: &Expected<'_>, line: &Line, sdi: u8) -> bool
    requires { sdi < 4 }
    ensures { result ≡ has_at expected.now line.now sdi }
{
    expected.takes_sdi(sdi) && line.at(expected.label(), sdi).common.words > 0
}

/// Whether words that are expected came on a line.
fn has_in(expected: &Expected<'_>, line: &Line) -> bool
    ensures { result ≡ has_in expected.now line.now }
{
    has_at(expected, line, 0)
        || has_at(expected, line, 1)
        || has_at(expected, line, 2)
        || has_at(expected, line, 3)
}

/// Whether a line has a name for an expectation, and words that are expected came on it.
fn is_seen_in(expected: &Expected<'_>, line: &Line) -> bool
    ensures { result ≡ is_seen_in expected.now line.now }
{
    expected.is_on(line.name().as_str()) && has_in(expected, line)
}

/// Whether one of the lines has a name for an expectation.
fn is_heard(expected: &Expected<'_>, lines: &[Line]) -> bool
    ensures { result ≡ list_any (λ l. is_on expected.now l.name) lines.now }
{
    lines
        .iter()
        .any(|line| expected.is_on(line.name().as_str()))
}

/// Whether words that are expected came on one of the lines.
fn is_seen(expected: &Expected<'_>, lines: &[Line]) -> bool
    ensures { result ≡ list_any (is_seen_in expected.now) lines.now }
{
    lines.iter().any(|line| is_seen_in(expected, line))
}

/// Whether an expectation's line is among these, and none of its words came.
fn is_missing(expected: &Expected<'_>, lines: &[Line]) -> bool
    ensures { result ≡ is_missing_in lines.now expected.now }
{
    is_heard(expected, lines) && !is_seen(expected, lines)
}

/// The cells of the row of words that are missing.
fn missing_cells<'a>(expected: &'a Expected<'a>) -> [Cell<'a>; 21]
    ensures { map field_of result ≡ missing_row expected.now }
{
    [
        Cell::Text(expected.line()),
        Cell::Octal(expected.label()),
        expected.sdi_cell(),
        Cell::Number(0),
        Cell::Absent,
        Cell::Absent,
        Cell::Absent,
        Cell::Absent,
        Cell::Absent,
        Cell::Absent,
        Cell::Absent,
        Cell::Absent,
        Cell::Absent,
        Cell::Absent,
        Cell::Absent,
        Cell::Absent,
        Cell::Absent,
        Cell::Absent,
        Cell::Absent,
        Cell::Absent,
        Cell::Text("missing"),
    ]
}

/// Adds the row of words that are expected, if they are missing.
fn add_if_missing(rows: &mut Rows, expected: &Expected<'_>, lines: &[Line])
    ensures { rows.new ≡ rows.old ++ missing_in lines.now expected.now }
{
    if is_missing(expected, lines) {
        rows.add(&missing_cells(expected));
    }
}

/// Adds the rows of words that are missing, in the order in which they are expected.
pub fn add_missing(rows: &mut Rows, expected: &[Expected<'_>], lines: &[Line])
    ensures { rows.new ≡ rows.old ++ flat_map (missing_in lines.now) expected.now }
{
    for each in expected {
        add_if_missing(rows, each, lines);
    }
}

/// Whether what a table says of a row is a finding.
fn is_finding(row: &Row) -> Result<bool, AllocError>
    ensures { IfOk result (λ found. found ≡ is_finding row.now) }
{
    match row.text(20)? {
        Some(text) => Ok(text != "expected".as_bytes()),
        None => Ok(false),
    }
}

/// Whether a row of a sheet that a table is compared with has a finding: its last cell is `missing`, `unexpected`, `fast` or
/// `slow`. Error: an allocation for a row failed.
pub fn has_finding(rows: &Rows) -> Result<bool, AllocError>
    ensures { IfOk result (λ found. found ≡ has_finding rows.now) }
{
    let mut found = false;
    for row in rows.as_slice()? {
        let next = is_finding(row)?;
        found = found || next;
    }
    Ok(found)
}
