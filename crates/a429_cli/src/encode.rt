//! The command `encode`.
ghost use Rattle.std.specs.Prelude.{◌≡◌, ◌<◌, ◌≤◌, ◌-◌, ◌%◌, ◌^◌, ◌++◌, ◌∷◌, [], IfOk, MatchOption};
ghost use Rattle.a429_cli.specs.Encoding.{GivesData, HasBcd, HasBnr, HasData, HasFields, HasHex, IsEncoded, IsNoBcd, IsNoBnr, IsNoHex, IsNotEncoded, NoWordHasData, NoWordHasFields, fields_of, given_sdi, given_ssm, in_place};
ghost use Rattle.a429_word.specs.Hexadecimal.{hex};
ghost use Rattle.a429_console.specs.WholeReplies.{Replies};
ghost use Rattle.a429_cli.specs.WordRows.{told_word};

use crate::word_rows::word_sheet;
use a429_arguments::options::OptionName;
use a429_arguments::requests::Asked;
use a429_console::refusals::{CommandRefusal, Refused};
use a429_console::reply::Reply;
use a429_text::SheetForm;
use a429_text::from_end::push_hex;
use a429_word::{Label, Sdi, Ssm, Word, decimal_number, hex_number};
use std::alloc::{AllocError, Global};

/// What is given of the fields of a word that is made. The data are given in one of three ways.
#[derive(Clone, Copy)]
pub struct FieldOptions<'a> {
    /// The SDI, 0 to 3.
    pub sdi: Option<u32>,
    /// The SSM, 0 to 3.
    pub ssm: Option<u32>,
    /// Data in hexadecimal.
    pub hex: Option<&'a str>,
    /// Data as a BNR number.
    pub bnr: Option<&'a str>,
    /// How many bits that number has below its sign, 1 to 18.
    pub bits: Option<u32>,
    /// Data as BCD digits.
    pub bcd: Option<&'a str>,
}

impl<'a> FieldOptions<'a> {
    ghost use Rattle.std.specs.Prelude.{◌≡◌};
    ghost use Rattle.a429_arguments.specs.Requests.{asked_of};
    ghost use Rattle.a429_cli.specs.Encoding.{fields_given, fields_of};

    /// What a request gives of them.
    pub fn of(asked: &Asked<'a>) -> FieldOptions<'a>
        ensures { fields_of result ≡ fields_given (asked_of asked.now).given }
    {
        FieldOptions {
            sdi: asked.number(OptionName::Sdi),
            ssm: asked.number(OptionName::Ssm),
            hex: asked.text(OptionName::Data),
            bnr: asked.text(OptionName::Bnr),
            bits: asked.number(OptionName::Bits),
            bcd: asked.text(OptionName::Bcd),
        }
    }
}

/// Data of one to five hexadecimal digits, below 2^19.
fn hex_data(text: &[u8]) -> Option<u32>
    ensures { MatchOption result (IsNoHex text.now) (GivesData (HasHex text.now)) }
{
    let value = hex_number(text)?;
    if value >= 1 << 19 {
        return None;
    }
    Some(value)
}

/// Data with a number in the bits below the sign, of which there are this many, and zeros below it.
fn in_place(bits: u32, number: u64) -> u32
    requires bits { bits ≤ 18 }
    requires number { number ≤ 2 ^ bits }
    ensures value { result ≡ in_place bits number }
    ensures small { result ≤ 2 ^ 18 }
{
    (number as u32) << (18 - bits)
}

/// Data of a BNR number that is not negative.
fn positive_data(bits: u32, number: u64) -> Option<u32>
    requires { bits ≤ 18 }
    ensures { MatchOption result (2 ^ bits ≤ number) (λ value. (number < 2 ^ bits) × (value ≡ in_place bits number)) }
{
    if number >= 1 << bits {
        return None;
    }
    Some(in_place(bits, number))
}

/// Data of minus a number, in two's complement.
fn negative_data(bits: u32, number: u64) -> Option<u32>
    requires { bits ≤ 18 }
    ensures { MatchOption result (2 ^ bits < number) (λ value. (number ≤ 2 ^ bits) × (value ≡ (2 ^ 19 - in_place bits number) % 2 ^ 19)) }
{
    if number > 1 << bits {
        return None;
    }
    Some(((1 << 19) - in_place(bits, number)) % (1 << 19))
}

/// Data of a BNR number with this many bits below its sign, 1 to 18.
fn bnr_data(bits: u32, text: &[u8]) -> Option<u32>
    ensures { MatchOption result (IsNoBnr bits text.now) (GivesData (HasBnr bits text.now)) }
{
    if bits == 0 || bits > 18 {
        return None;
    }
    match text {
        [b'-', digits @ ..] => negative_data(bits, decimal_number(digits)?),
        _ => positive_data(bits, decimal_number(text)?),
    }
}

/// The number of a decimal digit.
fn digit(byte: u8) -> u32
    requires { (48 ≤ byte) × (byte ≤ 57) }
    ensures { result ≡ byte - 48 }
{
    u32::from(byte - b'0')
}

/// Data of five BCD digits, the first of three bits.
fn bcd_data(text: &[u8]) -> Option<u32>
    ensures { MatchOption result (IsNoBcd text.now) (GivesData (HasBcd text.now)) }
{
    match text {
        [
            a @ b'0'..=b'7',
            b @ b'0'..=b'9',
            c @ b'0'..=b'9',
            d @ b'0'..=b'9',
            e @ b'0'..=b'9',
        ] => {
            Some(
                (digit(*a) << 16)
                    + (digit(*b) << 12)
                    + (digit(*c) << 8)
                    + (digit(*d) << 4)
                    + digit(*e),
            )
        }
        _ => None,
    }
}

/// The data that is given.
fn given_data(fields: &FieldOptions<'_>) -> Option<u32>
    ensures { MatchOption result (NoWordHasData (fields_of fields.now)) (GivesData (HasData (fields_of fields.now))) }
{
    if let Some(text) = fields.hex {
        return hex_data(text.as_bytes());
    }
    if let Some(text) = fields.bnr {
        return bnr_data(fields.bits.unwrap_or(18), text.as_bytes());
    }
    bcd_data(fields.bcd?.as_bytes())
}

/// The SDI that is given, 0 by default.
fn given_sdi(fields: &FieldOptions<'_>) -> Option<Sdi>
    ensures { MatchOption result (3 < given_sdi (fields_of fields.now)) (λ sdi. sdi ≡ given_sdi (fields_of fields.now)) }
{
    let sdi = fields.sdi.unwrap_or(0);
    if sdi > 3 {
        return None;
    }
    Some(Sdi::new(sdi as u8))
}

/// The SSM that is given; by default 3 with a BNR number (normal operation), otherwise 0.
fn given_ssm(fields: &FieldOptions<'_>) -> Option<Ssm>
    ensures { MatchOption result (3 < given_ssm (fields_of fields.now)) (λ ssm. ssm ≡ given_ssm (fields_of fields.now)) }
{
    let default = if fields.bnr.is_some() { 3 } else { 0 };
    let ssm = fields.ssm.unwrap_or(default);
    if ssm > 3 {
        return None;
    }
    Some(Ssm::new(ssm as u8))
}

/// The word of a label and of the fields that are given.
fn given_word(label: Label, fields: &FieldOptions<'_>) -> Option<Word>
    ensures { MatchOption result (NoWordHasFields (fields_of fields.now)) (HasFields label (fields_of fields.now)) }
{
    let sdi = given_sdi(fields)?;
    let ssm = given_ssm(fields)?;
    let value = given_data(fields)?;
    Word::build(label, sdi, value, ssm).ok()
}

/// The digits of a word on a line, or its sheet with `--csv` or `--json`. Error: an allocation failed.
fn encoded_text(alloc: Global, word: Word, form: SheetForm) -> Result<Vec<u8>, AllocError>
    ensures { IfOk result (λ text. text.items ≡ told_word form (hex word ++ 10 ∷ []) word) }
{
    match form {
        SheetForm::Columns => {
            let mut line = Vec::new(alloc);
            push_hex(&mut line, b"", word.raw())?;
            Ok(line)
        }
        SheetForm::Csv | SheetForm::Json => word_sheet(alloc, word, form),
    }
}

/// The word of a label, an SDI, an SSM and data: eight hexadecimal digits on a line, or its sheet with `--csv` or
/// `--json`, with status 0. Errors, in this order: the text is no label (`label-text`), or the data is not in its form or
/// does not fit its bits (`data-text`). `Memory` if an allocation fails.
pub fn encode_reply(
    alloc: Global,
    label: &str,
    fields: &FieldOptions<'_>,
    form: SheetForm,
) -> Result<Reply, Refused>
    ensures { Replies (IsEncoded label.now (fields_of fields.now) form) (IsNotEncoded label.now (fields_of fields.now)) result }
{
    let Some(label) = Label::of_digits(label.as_bytes()) else {
        return Err(Refused::plain(CommandRefusal::LabelText));
    };
    let Some(word) = given_word(label, fields) else {
        return Err(Refused::plain(CommandRefusal::DataText));
    };
    Ok(Reply::done(encoded_text(alloc, word, form)?))
}
