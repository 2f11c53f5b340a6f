//! A word as a sheet of one row.
ghost use Rattle.std.specs.Prelude.{◌≡◌, ◌∷◌, ◌++◌, [], IfOk, OnOk, map, string_bytes};
ghost use Rattle.std.specs.Fmt.{decimal};
ghost use Rattle.std.specs.List.{flat_map};
ghost use Rattle.a429_text.specs.Sheets.{field_of, sheet_text};
ghost use Rattle.a429_word.specs.Bits.{bcd_of, data_of};
ghost use Rattle.a429_word.specs.Hexadecimal.{data_digits};
ghost use Rattle.a429_word.specs.Meanings.{bcd_text, bnr_text, two_bits};
ghost use Rattle.a429_cli.specs.WordRows.{bcd_field, word_columns, word_row};

use a429_text::{Cell, Row, Rows, Sheet, SheetForm};
use a429_word::{BcdMeaning, BnrMeaning, Sdi, Ssm, Word};
use std::alloc::{AllocError, Global};

/// The names of the columns.
const COLUMNS: &[&str] = &[
    "word",
    "label",
    "sdi",
    "ssm",
    "data",
    "bnr",
    "bnr_meaning",
    "bcd",
    "bcd_meaning",
];

/// An SDI as a text.
fn sdi_text(sdi: Sdi) -> &'static str
    ensures { result.now ≡ decimal sdi }
{
    match sdi.value() {
        0 => "0",
        1 => "1",
        2 => "2",
        3 => "3",
        _ => unreachable!(),
    }
}

/// An SSM as two binary digits: bit 31, then bit 30.
fn ssm_text(ssm: Ssm) -> &'static str
    ensures { result.now ≡ two_bits ssm }
{
    match ssm.value() {
        0 => "00",
        1 => "01",
        2 => "10",
        _ => "11",
    }
}

/// What an SSM says of BNR data.
fn bnr_text(meaning: BnrMeaning) -> &'static str
    ensures { result.now ≡ bnr_text meaning }
{
    match meaning {
        BnrMeaning::FailureWarning => "failure warning",
        BnrMeaning::NoComputedData => "no computed data",
        BnrMeaning::FunctionalTest => "functional test",
        BnrMeaning::NormalOperation => "normal operation",
    }
}

/// What an SSM says of BCD data.
fn bcd_text(meaning: BcdMeaning) -> &'static str
    ensures { result.now ≡ bcd_text meaning }
{
    match meaning {
        BcdMeaning::Plus => "plus",
        BcdMeaning::NoComputedData => "no computed data",
        BcdMeaning::FunctionalTest => "functional test",
        BcdMeaning::Minus => "minus",
    }
}

/// Adds a decimal number. Error: an allocation failed.
fn push_digit(alloc: Global, text: &mut String, digit: u8) -> Result<(), AllocError>
    ensures { OnOk result (string_bytes text.new ≡ string_bytes text.old ++ decimal digit) }
{
    let shown = format!(in alloc; "{digit}")?;
    text.push_str(&shown)?;
    Ok(())
}

/// Decimal digits. Error: an allocation failed.
fn digits_text(alloc: Global, digits: &[u8]) -> Result<String, AllocError>
    ensures { IfOk result (λ text. string_bytes text ≡ flat_map decimal digits.now) }
{
    let mut text = String::new(alloc);
    for digit in digits {
        push_digit(alloc, &mut text, *digit)?;
    }
    Ok(text)
}

/// Data as five hexadecimal digits. Error: an allocation failed.
#[tactic(auto, unfolding(a429_word::specs::Hexadecimal::data_digits))]
fn data_text(alloc: Global, value: u32) -> Result<String, AllocError>
    ensures { IfOk result (λ text. string_bytes text ≡ data_digits value) }
{
    format!(in alloc; "{value:05x}")
}

/// Adds the row of a word, by the texts of its data. Error: an allocation failed.
fn add_row(
    alloc: Global,
    rows: &mut Rows,
    word: Word,
    shown: &str,
    bcd: Cell<'_>,
) -> Result<(), AllocError>
    requires shown { shown.now ≡ data_digits (data_of word) }
    requires digits { field_of bcd ≡ bcd_field (bcd_of word) }
    ensures { OnOk result (rows.new ≡ rows.old ++ word_row word ∷ []) }
{
    let ssm = word.ssm();
    let cells = [
        Cell::Hex(word.raw()),
        Cell::Octal(word.label().value()),
        Cell::Text(sdi_text(word.sdi())),
        Cell::Text(ssm_text(ssm)),
        Cell::Text(shown),
        Cell::Signed(word.bnr(18)),
        Cell::Text(bnr_text(ssm.bnr_meaning())),
    ];
    let row = Row::of(alloc, &cells);
    rows.add_wider(&row, &[bcd, Cell::Text(bcd_text(ssm.bcd_meaning()))])
}

/// Adds the row of a word. Error: an allocation failed.
fn add_word(alloc: Global, rows: &mut Rows, word: Word) -> Result<(), AllocError>
    ensures { OnOk result (rows.new ≡ rows.old ++ word_row word ∷ []) }
{
    let data = data_text(alloc, word.data())?;
    match word.bcd() {
        None => add_row(alloc, rows, word, &data, Cell::Absent),
        Some(digits) => {
            let text = digits_text(alloc, &digits)?;
            add_row(alloc, rows, word, &data, Cell::Text(&text))
        }
    }
}

/// The sheet of a word. Error: an allocation failed.
fn sheet_of(alloc: Global, word: Word) -> Result<Sheet, AllocError>
    ensures columns { IfOk result (λ sheet. map (λ name. name.now) sheet.columns.now ≡ word_columns) }
    ensures rows { IfOk result (λ sheet. sheet.rows ≡ word_row word ∷ []) }
{
    let mut rows = Rows::new(alloc);
    add_word(alloc, &mut rows, word)?;
    Ok(Sheet {
        columns: COLUMNS,
        rows,
    })
}

/// The sheet of a word in a form: its fields, its data as BNR and as BCD, and what its SSM says of each. Error: an
/// allocation failed.
pub fn word_sheet(alloc: Global, word: Word, form: SheetForm) -> Result<Vec<u8>, AllocError>
    ensures { IfOk result (λ text. text.items ≡ sheet_text form word_columns (word_row word ∷ [])) }
{
    let sheet = sheet_of(alloc, word)?;
    sheet.render(alloc, form)
}
