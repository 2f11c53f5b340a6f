//! Words of a log, whole or by their fields.
ghost use Rattle.std.specs.Prelude.{◌≡◌, ◌<◌, ◌^◌, IfSome, true};
ghost use Rattle.a429_logs.specs.LogRows.{as_value, digits_onto, is_digit_of, label_in, next_value, small_number, two_bits, unreversed, value_after, value_in, whole_word, with_parity, word_bits};
ghost use Rattle.a429_logs.specs.LogTicks.{without_prefix};
ghost use Rattle.a429_logs.specs.LogTimes.{decimal_digits};

use crate::columns::Base;
use crate::hexadecimal::eight_digits;
use crate::ticks::without_prefix;
use crate::times::decimal_digits;
use a429_word::{Label, Sdi, Ssm, Word, hex_number};

/// The 32 bits of eight hexadecimal digits, in either case. They may come after `0x`. `None` for any other text.
#[inline(always)]
#[tactic(auto, unfolding(crate::specs::LogRows::whole_word))]
pub fn whole_word(text: &[u8]) -> Option<u32>
    ensures { result ≡ whole_word text.now }
{
    eight_digits(without_prefix(text))
}

/// In which order a recorder writes the bits of whole words.
#[derive(Clone, Copy, PartialEq, Eq)]
pub enum BitOrder {
    /// As ARINC 429 Part 1 numbers them: bit 1, the highest of the label, is the lowest.
    AsWritten,
    /// As written, but with the label (bits 1 to 8) reversed: bit 8 is the lowest.
    LabelReversed,
    /// All 32 bits reversed: bit 32 is the lowest.
    WordReversed,
}

impl BitOrder {
    /// The word that a recorder writes as these 32 bits.
    #[tactic(auto, using(crate::proofs::Reversals::reversed_label, crate::proofs::Reversals::reversed_word, crate::proofs::PartsWords::reversed_small))]
    pub fn unreversed(self, raw: u32) -> u32
        ensures { result ≡ unreversed self raw }
    {
        match self {
            BitOrder::AsWritten => raw,
            BitOrder::LabelReversed => {
                256 * (raw / 256) + u32::from(((raw % 256) as u8).reverse_bits())
            }
            BitOrder::WordReversed => raw.reverse_bits(),
        }
    }
}

/// A number, if it has 19 bits.
fn as_value(number: Option<u64>) -> Option<u32>
    ensures value { result ≡ as_value number }
    ensures small { IfSome result (λ value. value < 2 ^ 19) }
{
    let number = number?;
    if number < 1 << 19 {
        Some(number as u32)
    } else {
        None
    }
}

/// Whether a byte is a digit of this base, of the digits 0 to 9.
fn is_digit_of(base: Base, byte: u8) -> bool
    ensures { result ≡ is_digit_of base byte }
{
    let end = match base {
        Base::Two => b'2',
        Base::Eight => b'8',
        Base::Ten => b'0' + 10,
        Base::Sixteen => b'0' + 16,
    };
    b'0' <= byte && byte < end
}

/// The number that a digit more makes.
fn next_value(base: Base, value: u32, digit: u8) -> u32
    requires value { value < 2 ^ 19 }
    requires digit { is_digit_of base digit ≡ true }
    ensures { result ≡ next_value base value digit }
{
    let low = u32::from(digit - b'0');
    match base {
        Base::Two => 2 * value + low,
        Base::Eight => 8 * value + low,
        Base::Ten => 10 * value + low,
        Base::Sixteen => 16 * value + low,
    }
}

/// The number that a digit more makes. `None` if it is no digit, or if the number is not below 2^19.
fn value_after(base: Base, value: u32, byte: u8) -> Option<u32>
    requires value { value < 2 ^ 19 }
    ensures value { result ≡ value_after base value byte }
    ensures small { IfSome result (λ value. value < 2 ^ 19) }
{
    if !is_digit_of(base, byte) {
        return None;
    }
    let next = next_value(base, value, byte);
    if next < 1 << 19 { Some(next) } else { None }
}

/// The number below 2^19 that octal or binary digits state. `None` for any other text.
fn small_number(base: Base, text: &[u8]) -> Option<u32>
    ensures value { result ≡ small_number base text.now }
    ensures small { IfSome result (λ value. value < 2 ^ 19) }
{
    if text.is_empty() {
        return None;
    }
    let mut value = 0;
    for place in 0..text.len() {
        value = value_after(base, value, text[place])?;
    }
    Some(value)
}

/// The 19 data bits that digits state. `None` if the text is no number in this base, or if the number needs more bits.
pub fn value_in(base: Base, text: &[u8]) -> Option<u32>
    ensures value { result ≡ value_in base text.now }
    ensures small { IfSome result (λ value. value < 2 ^ 19) }
{
    match base {
        Base::Two => small_number(Base::Two, text),
        Base::Eight => small_number(Base::Eight, text),
        Base::Ten => as_value(decimal_digits(text)),
        Base::Sixteen => as_value(hex_number(without_prefix(text)).map(u64::from)),
    }
}

/// The label that digits in this base state; zeros before it may be left out. `None` if it is no number of eight bits.
pub fn label_in(base: Base, text: &[u8]) -> Option<Label>
    ensures { result ≡ label_in base text.now }
{
    let value = value_in(base, text)?;
    if value < 256 {
        Some(Label::new(value as u8))
    } else {
        None
    }
}

/// The SDI or the SSM that digits state: one from 0 to 3, or two binary digits. `None` for any other text.
#[tactic(auto, unfolding(crate::specs::LogRows::two_bits))]
pub fn two_bits(text: &[u8]) -> Option<u8>
    ensures value { result ≡ two_bits text.now }
    ensures small { IfSome result (λ value. value < 4) }
{
    match text {
        [digit @ b'0'..=b'3'] => Some(*digit - b'0'),
        [high @ b'0'..=b'1', low @ b'0'..=b'1'] => Some(2 * (*high - b'0') + (*low - b'0')),
        _ => None,
    }
}

/// The 32 bits of a word with odd parity, by its label, SDI, SSM and data.
pub fn word_of(label: Label, sdi: u8, ssm: u8, value: u32) -> u32
    requires sdi { sdi < 4 }
    requires ssm { ssm < 4 }
    requires value { value < 2 ^ 19 }
    ensures { result ≡ with_parity (word_bits label sdi value ssm) }
{
    match Word::build(label, Sdi::new(sdi), value, Ssm::new(ssm)) {
        Ok(word) => word.raw(),
        Err(_) => 0,
    }
}
