//! What is above each table of a text: an empty line, for a made name a comment with the text that it is made of, and for a
//! source the columns that go along.
ghost use Rattle.std.specs.Prelude.{◌≡◌, ◌++◌, ◌∷◌, [], IfSome, OnOk, codes, string_bytes};
ghost use Rattle.std.specs.Option.{option_copied};
ghost use Rattle.std.specs.List.{list_all};
ghost use Rattle.toml_parser.specs.Lexical.{is_non_eol};
ghost use Rattle.a429_import.specs.KeptFields.{comment_line, kept_comments, lines_kept};
ghost use Rattle.a429_import.specs.IndexedRows.{IsIndexed};
ghost use Rattle.a429_import.specs.TableTexts.{above_of, before_at, made_comment, rows_before};

use crate::fields::utf8_in;
use crate::firsts::Part;
use crate::indexed_rows::IndexedRows;
use crate::kept::{KeptTexts, put_shown};
use crate::renamed::{name_in, text_of};
use crate::rows::ImportRow;
use a429_text::Text;
use a429_text::cut::cut_at;
use std::alloc::{AllocError, Global};

/// What the comments of a table are made of.
#[derive(Clone, Copy)]
pub struct Comments<'a> {
    /// The rows before names are made. `None` if no names are made.
    pub made_of: Option<&'a IndexedRows>,
    /// What sources say in the columns that go along.
    pub kept: &'a KeptTexts,
}

/// The first row of the receiver, the source or the group at a place before names are made. `None` if no names are made, or
/// if there are fewer.
pub fn row_before<'a>(
    made_of: Option<&'a IndexedRows>,
    part: Part,
    place: usize,
) -> Option<&'a ImportRow>
    requires { IfSome made_of (λ known. IsIndexed known.now) }
    ensures { option_copied result ≡ before_at (rows_before made_of.entry) part place }
{
    match made_of {
        Some(known) if place < known.count(part) => Some(known.first_row(part, place)),
        _ => None,
    }
}

fn is_comment(bytes: &[u8]) -> bool
    ensures { result ≡ list_all is_non_eol bytes.now }
{
    bytes
        .iter()
        .all(|byte| *byte == b'\t' || 32 <= *byte && *byte != 127)
}

/// Writes a comment, unless the line is no text or a byte cannot be in a comment.
#[tactic(auto, unfolding(crate::specs::KeptFields::comment_line))]
fn put_comment(shown: &mut String, line: &[u8]) -> Result<(), AllocError>
    ensures { OnOk result (string_bytes shown.new ≡ string_bytes shown.old ++ comment_line line.now) }
{
    match utf8_in(line) {
        Some(text) if is_comment(text.as_bytes()) => {
            shown.push_str("#")?;
            shown.push_str(text)?;
            shown.push_str("\n")
        }
        _ => Ok(()),
    }
}

/// Writes a comment with the text that the name of a row is made of, if they differ.
fn put_made_of(
    alloc: Global,
    shown: &mut String,
    part: Part,
    before: Option<&ImportRow>,
    row: &ImportRow,
) -> Result<(), AllocError>
    ensures { OnOk result (string_bytes shown.new ≡ string_bytes shown.old
        ++ made_comment part (option_copied before.entry) row.now) }
{
    let Some(before) = before else {
        return Ok(());
    };
    let text = text_of(part, before);
    if text == name_in(part, row).as_bytes() {
        return Ok(());
    }
    let mut line = Text::new(alloc);
    line.put(" ");
    put_shown(&mut line, false, text);
    put_comment(shown, &line.into_bytes()?)
}

/// Writes a comment `#: NAME | LINE`, if it can be one.
fn put_line(alloc: Global, shown: &mut String, name: &str, line: &[u8]) -> Result<(), AllocError>
    ensures { OnOk result (string_bytes shown.new ≡ string_bytes shown.old
        ++ comment_line (codes ": " ++ (name.now ++ (codes " | " ++ line.now)))) }
{
    let mut comment = Text::new(alloc);
    comment.put(": ");
    comment.put(name);
    comment.put(" | ");
    comment.put_bytes(line);
    put_comment(shown, &comment.into_bytes()?)
}

/// Writes a comment `#: NAME | LINE` for each of these lines.
fn put_lines(alloc: Global, shown: &mut String, name: &str, lines: &[u8]) -> Result<(), AllocError>
    ensures { OnOk result (string_bytes shown.new ≡ string_bytes shown.old ++ kept_comments name.now lines.now) }
{
    let mut rest = lines;
    while let Some((line, next)) = cut_at(rest, b'\n') {
        put_line(alloc, shown, name, line)?;
        rest = next;
    }
    Ok(())
}

/// Writes what is above the table of the receiver, the source or the group of a row. Its row before names are made is given,
/// if names are made. Error: an allocation failed.
pub fn put_above(
    alloc: Global,
    shown: &mut String,
    kept: &KeptTexts,
    part: Part,
    before: Option<&ImportRow>,
    row: &ImportRow,
) -> Result<(), AllocError>
    ensures { OnOk result (string_bytes shown.new ≡ string_bytes shown.old
        ++ above_of (lines_kept kept.now) part (option_copied before.entry) row.now) }
{
    shown.push_str("\n")?;
    put_made_of(alloc, shown, part, before, row)?;
    match part {
        Part::Sources => {
            let source = before.unwrap_or(row).texts.source.as_str();
            let lines = kept.text_of(source.as_bytes());
            put_lines(alloc, shown, row.texts.source.as_str(), lines)
        }
        Part::Receivers | Part::Groups => Ok(()),
    }
}
