//! The SSM and the parity of a word, as its fields state them.
ghost use Rattle.std.specs.Prelude.{◌≡◌, ◌<◌, ◌^◌, ℕ, IfSome};
ghost use Rattle.a429_logs.specs.LogRows.{parity_in, ssm_in, ssm_text, with_parity, with_written, word_bits};

use crate::cells::is_named;
use crate::words::{two_bits, word_of};
use a429_word::Label;

/// What a row states of the parity of a word.
#[derive(Clone, Copy)]
pub enum WrittenParity {
    /// Bit 32.
    Bit(bool),
    /// Whether the number of ones is odd, as it has to be.
    Odd(bool),
}

/// The SSM that a text states of a BNR word. `None` for any other text.
fn ssm_text(text: &[u8]) -> Option<u8>
    ensures value { result ≡ ssm_text text.now }
    ensures small { IfSome result (λ value. value < 4) }
{
    if is_named(text, "no") || is_named(text, "normal") {
        Some(3)
    } else if is_named(text, "ft") || is_named(text, "test") {
        Some(2)
    } else if is_named(text, "ncd") {
        Some(1)
    } else if is_named(text, "fw") || is_named(text, "fail") {
        Some(0)
    } else {
        None
    }
}

/// The SSM that digits state, or a text. `None` for any other text.
pub fn ssm_in(text: &[u8]) -> Option<u8>
    ensures value { result ≡ ssm_in text.now }
    ensures small { IfSome result (λ value. value < 4) }
{
    match two_bits(text) {
        Some(ssm) => Some(ssm),
        None => ssm_text(text),
    }
}

/// The parity that a text states. `None` for any other text.
pub fn parity_in(text: &[u8]) -> Option<WrittenParity>
    ensures { result ≡ parity_in text.now }
{
    if is_named(text, "0") {
        Some(WrittenParity::Bit(false))
    } else if is_named(text, "1") {
        Some(WrittenParity::Bit(true))
    } else if is_named(text, "odd") || is_named(text, "ok") {
        Some(WrittenParity::Odd(true))
    } else if is_named(text, "even") || is_named(text, "error") {
        Some(WrittenParity::Odd(false))
    } else {
        None
    }
}

/// A word of odd parity, with the parity that is written.
#[tactic(auto, using(crate::proofs::Parities::low_bits, crate::proofs::Parities::other_top))]
fn with_written(parity: WrittenParity, word: u32) -> u32
    ensures { (bits : ℕ) → bits < 2 ^ 31 → word ≡ with_parity bits → result ≡ with_written parity bits }
{
    let low = word % (1 << 31);
    match parity {
        WrittenParity::Bit(false) => low,
        WrittenParity::Bit(true) => low + (1 << 31),
        WrittenParity::Odd(true) => word,
        WrittenParity::Odd(false) => low + (1 << 31) * (1 - word / (1 << 31)),
    }
}

/// The 32 bits of a word by its label, SDI, SSM and data, and what is written of its parity.
#[tactic(auto, using(crate::proofs::PartsWords::bits_small))]
pub fn written_word(label: Label, sdi: u8, ssm: u8, value: u32, parity: WrittenParity) -> u32
    requires sdi { sdi < 4 }
    requires ssm { ssm < 4 }
    requires value { value < 2 ^ 19 }
    ensures { result ≡ with_written parity (word_bits label sdi value ssm) }
{
    with_written(parity, word_of(label, sdi, ssm, value))
}
