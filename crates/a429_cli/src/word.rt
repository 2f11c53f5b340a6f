//! The command `word`.
ghost use Rattle.std.specs.Prelude.{◌≡◌, IfOk, OnOk};
ghost use Rattle.std.specs.List.{flat_map};
ghost use Rattle.a429_word.specs.Bits.{bcd_of};
ghost use Rattle.std.specs.Fmt.{decimal};
ghost use Rattle.std.specs.Io.KnownBytes.{Appends};
ghost use Rattle.a429_cli.specs.WordLines.{IsNoWord, IsWordOf, bcd_digits, bcd_line, bnr_line, data_text, fields_line, name_text, status_text, word_lines};
ghost use Rattle.a429_cli.specs.WordRows.{told_word};
ghost use Rattle.a429_console.specs.WholeReplies.{Replies};

use crate::word_rows::word_sheet;
use a429_console::refusals::{CommandRefusal, Refused};
use a429_console::reply::Reply;
use a429_text::SheetForm;
use a429_word::{Label, Sdi, Ssm, Word, raw_word};
use std::alloc::{AllocError, Global};
use std::io;
use std::io::Write;

/// Writes a label in octal and an SDI.
fn write_name<W: Write>(out: &mut W, label: Label, sdi: Sdi) -> io::Result<()>
    ensures { OnOk result (Appends (W.contents out.old) (W.contents out.new) (name_text label sdi)) }
{
    write!(out, "label {label} sdi {sdi}")
}

/// Writes the bits of an SSM.
fn write_status<W: Write>(out: &mut W, ssm: Ssm) -> io::Result<()>
    ensures { OnOk result (Appends (W.contents out.old) (W.contents out.new) (status_text ssm)) }
{
    write!(out, " ssm {ssm} data ")
}

/// Writes data in hexadecimal, and the end of the line.
#[tactic(auto, unfolding(a429_word::specs::Hexadecimal::data_digits))]
fn write_data<W: Write>(out: &mut W, value: u32) -> io::Result<()>
    ensures { OnOk result (Appends (W.contents out.old) (W.contents out.new) (data_text value)) }
{
    writeln!(out, "{value:05x}")
}

/// Writes the fields of a word.
fn write_fields<W: Write>(out: &mut W, word: Word) -> io::Result<()>
    ensures { OnOk result (Appends (W.contents out.old) (W.contents out.new) (fields_line word)) }
{
    write_name(out, word.label(), word.sdi())?;
    write_status(out, word.ssm())?;
    write_data(out, word.data())
}

/// Writes a word's data as a number, and what its SSM says of such data.
fn write_bnr<W: Write>(out: &mut W, word: Word) -> io::Result<()>
    ensures { OnOk result (Appends (W.contents out.old) (W.contents out.new) (bnr_line word)) }
{
    let number = word.bnr(18);
    let meaning = word.ssm().bnr_meaning();
    writeln!(out, "bnr {number} {meaning}")
}

/// Writes decimal digits.
fn write_digits<W: Write>(out: &mut W, digits: &[u8]) -> io::Result<()>
    ensures { OnOk result (Appends (W.contents out.old) (W.contents out.new) (flat_map decimal digits.now)) }
{
    for digit in digits {
        write!(out, "{digit}")?;
    }
    Ok(())
}

/// Writes the five digits of a word's data, or that they are none.
fn write_bcd_digits<W: Write>(out: &mut W, word: Word) -> io::Result<()>
    ensures { OnOk result (Appends (W.contents out.old) (W.contents out.new) (bcd_digits (bcd_of word))) }
{
    match word.bcd() {
        Some(digits) => write_digits(out, &digits),
        None => write!(out, "none"),
    }
}

/// Writes a word's data as decimal digits, and what its SSM says of such data.
fn write_bcd<W: Write>(out: &mut W, word: Word) -> io::Result<()>
    ensures { OnOk result (Appends (W.contents out.old) (W.contents out.new) (bcd_line word)) }
{
    write!(out, "bcd ")?;
    write_bcd_digits(out, word)?;
    let meaning = word.ssm().bcd_meaning();
    writeln!(out, " {meaning}")
}

/// Writes what a word says: its fields, and its data as BNR and as BCD.
fn write_word<W: Write>(out: &mut W, word: Word) -> io::Result<()>
    ensures { OnOk result (Appends (W.contents out.old) (W.contents out.new) (word_lines word)) }
{
    write_fields(out, word)?;
    write_bnr(out, word)?;
    write_bcd(out, word)
}

/// What a word says, in three lines. Error: an allocation failed.
fn word_text(alloc: Global, word: Word) -> Result<Vec<u8>, AllocError>
    ensures { IfOk result (λ text. text.items ≡ word_lines word) }
{
    let mut lines = Vec::new(alloc);
    match write_word(&mut lines, word) {
        Ok(()) => Ok(lines),
        Err(_) => Err(AllocError),
    }
}

/// What a word says: three lines, or a sheet with `--csv` or `--json`. Error: an allocation failed.
fn told_word(alloc: Global, word: Word, form: SheetForm) -> Result<Vec<u8>, AllocError>
    ensures { IfOk result (λ text. text.items ≡ told_word form (word_lines word) word) }
{
    match form {
        SheetForm::Columns => word_text(alloc, word),
        SheetForm::Csv | SheetForm::Json => word_sheet(alloc, word, form),
    }
}

/// What the word of eight hexadecimal digits says, in either case, with status 0: three lines, or a sheet with `--csv` or
/// `--json`. Errors, in this order: the text is not of this form (`word-text`), or the word has even parity (`parity`).
/// `Memory` if an allocation fails.
pub fn word_reply(alloc: Global, text: &str, form: SheetForm) -> Result<Reply, Refused>
    ensures { Replies (IsWordOf text.now form) (IsNoWord text.now) result }
{
    let Some(raw) = raw_word(text.as_bytes()) else {
        return Err(Refused::plain(CommandRefusal::WordText));
    };
    let Ok(word) = Word::from_raw(raw) else {
        return Err(Refused::plain(CommandRefusal::Parity));
    };
    Ok(Reply::done(told_word(alloc, word, form)?))
}
