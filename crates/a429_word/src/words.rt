//! A word of 32 bits, of which an odd number are ones.
ghost use Rattle.std.specs.Prelude.{◌≡◌, ◌↔◌, ◌<◌, ◌^◌, ◌+◌, ◌*◌, ◌%◌, IfOk, IsOk, IsTrue, ◌≤◌, ◌-◌, nat_lt};
ghost use Rattle.std.specs.List.{list_all};
ghost use Rattle.a429_word.specs.Bits.{bit, number_from, bnr_of, bcd_of, digit_fields, has_odd_parity, label_of, sdi_of, data_of, ssm_of};

use crate::identifiers::{Sdi, Ssm};
use crate::labels::Label;
use std::marker::Model;
use thiserror::Error;

/// A word. Bit n of it is bit n - 1 of the number, and an odd number of its 32 bits are ones.
#[derive(Clone, Copy, PartialEq, Eq)]
pub struct Word {
    raw: u32,
}

impl Model for Word {
    ghost use Rattle.std.specs.Prelude.{ℕ, IsTrue};
    ghost use Rattle.a429_word.specs.Bits.{has_odd_parity};

    ghost Value = { ℕ };

    ghost view = { λ w. w.raw };

    ghost invariant = { λ w. IsTrue (has_odd_parity w.raw) };

    ghost inverse = { λ n. record { raw = n } };
}

/// An even number of the 32 bits are ones.
#[derive(Clone, Copy, Debug, PartialEq, Eq, Error)]
#[error("an even number of the bits are ones")]
pub struct Parity;

/// The data has more than 19 bits.
#[derive(Clone, Copy, Debug, PartialEq, Eq, Error)]
#[error("data has 19 bits, 0 to 524287")]
pub struct DataRange;

/// The bits of four fields, with no parity.
fn join_fields(low: u32, sdi: u32, value: u32, ssm: u32) -> u32
    requires low { low < 256 }
    requires sdi { sdi < 4 }
    requires value { value < 2 ^ 19 }
    requires ssm { ssm < 4 }
    ensures { result ≡ low + 256 * sdi + 1024 * value + 2 ^ 29 * ssm }
{
    low | sdi << 8 | value << 10 | ssm << 29
}

/// A label's bits below bits 9 to 31, with no parity.
fn join_label(low: u32, bits: u32) -> u32
    requires low { low < 256 }
    requires bits { bits < 2 ^ 23 }
    ensures { result ≡ low + 256 * bits }
{
    low | bits << 8
}

/// The bits with the parity bit above them.
fn with_parity(bits: u32) -> u32
    requires { bits < 2 ^ 31 }
    ensures bits { result % 2 ^ 31 ≡ bits }
    ensures odd { IsTrue (has_odd_parity result) }
{
    if bits.count_ones() % 2 == 1 {
        bits
    } else {
        bits | 1 << 31
    }
}

impl Word {
    /// The word of these fields, with the parity bit that makes the parity odd. Error: the data has more than 19 bits.
    pub fn build(label: Label, sdi: Sdi, value: u32, ssm: Ssm) -> Result<Word, DataRange>
        ensures range { IsOk result ↔ (value < 2 ^ 19) }
        ensures label { IfOk result (λ word. label_of word ≡ label) }
        ensures sdi { IfOk result (λ word. sdi_of word ≡ sdi) }
        ensures data { IfOk result (λ word. data_of word ≡ value) }
        ensures ssm { IfOk result (λ word. ssm_of word ≡ ssm) }
    {
        if value >= 1 << 19 {
            return Err(DataRange);
        }
        let low = u32::from(label.value().reverse_bits());
        let bits = join_fields(low, u32::from(sdi.value()), value, u32::from(ssm.value()));
        Ok(Word {
            raw: with_parity(bits),
        })
    }

    /// The word of this label and these bits 9 to 31, which are its SDI, data and SSM.
    pub fn of_label(label: Label, bits: u32) -> Word
        requires { bits < 2 ^ 23 }
        ensures label { label_of result ≡ label }
        ensures bits { number_from 9 23 result ≡ bits }
    {
        let low = u32::from(label.value().reverse_bits());
        Word {
            raw: with_parity(join_label(low, bits)),
        }
    }

    /// The word of this number: bit n is bit n - 1 of the number. Error: an even number of its bits are ones (ARINC 429
    /// Part 1, parity).
    #[tactic(auto, using(crate::proofs::Ones::ones_are))]
    pub fn from_raw(raw: u32) -> Result<Word, Parity>
        ensures odd { IsOk result ↔ IsTrue (has_odd_parity raw) }
        ensures word { IfOk result (λ word. word ≡ raw) }
    {
        if raw.count_ones() % 2 == 1 {
            Ok(Word { raw })
        } else {
            Err(Parity)
        }
    }

    /// Its 32 bits as a number: bit n is bit n - 1 of the number.
    pub fn raw(self) -> u32
        ensures raw { result ≡ self }
        ensures odd { IsTrue (has_odd_parity self) }
    {
        self.raw
    }

    /// Its label: bits 1 to 8, bit 1 the highest.
    #[tactic(auto, using(crate::proofs::Fields::label_is))]
    pub fn label(self) -> Label
        ensures { result ≡ label_of self }
    {
        let low = (self.raw & 0xff) as u8;
        Label::new(low.reverse_bits())
    }

    /// Its SDI: bits 9 and 10, bit 9 the lower.
    #[tactic(auto, using(crate::proofs::Fields::sdi_is))]
    pub fn sdi(self) -> Sdi
        ensures { result ≡ sdi_of self }
    {
        Sdi::new(((self.raw >> 8) & 3) as u8)
    }

    /// Its SDI, data and SSM as one number of 23 bits: bits 9 to 31, bit 9 the lowest.
    #[tactic(auto, using(crate::proofs::Fields::above_label_is))]
    pub fn above_label(self) -> u32
        ensures bits { result ≡ number_from 9 23 self }
        ensures small { result < 2 ^ 23 }
    {
        (self.raw >> 8) & 0x7fffff
    }

    /// Its data as a number of 19 bits: bits 11 to 29, bit 11 the lowest.
    #[tactic(auto, using(crate::proofs::Fields::data_is))]
    pub fn data(self) -> u32
        ensures { result ≡ data_of self }
    {
        (self.raw >> 10) & 0x7ffff
    }

    /// Its SSM: bits 30 and 31, bit 30 the lower.
    #[tactic(auto, using(crate::proofs::Fields::ssm_is))]
    pub fn ssm(self) -> Ssm
        ensures { result ≡ ssm_of self }
    {
        Ssm::new(((self.raw >> 29) & 3) as u8)
    }

    /// The BNR number of the sign (bit 29) and of this number of bits below it, 1 to 18, in two's complement (ARINC 429
    /// Part 1).
    pub fn bnr(self, bits: u32) -> i32
        requires { (1 ≤ bits) × (bits ≤ 18) }
        ensures { result ≡ bnr_of bits self }
    {
        self.magnitude(bits) as i32 - self.sign(bits) as i32
    }

    /// The bits below the sign.
    fn magnitude(self, bits: u32) -> u32
        requires { bits ≤ 18 }
        ensures value { result ≡ number_from (29 - bits) bits self }
        ensures small { result < 2 ^ 18 }
    {
        (self.raw >> (28 - bits)) & ((1 << bits) - 1)
    }

    /// The weight of the sign: 2^bits if bit 29 is 1, otherwise 0.
    fn sign(self, bits: u32) -> u32
        requires { bits ≤ 18 }
        ensures value { result ≡ 2 ^ bits * bit 29 self }
        ensures small { result ≤ 2 ^ 18 }
    {
        ((self.raw >> 28) & 1) << bits
    }

    /// The five BCD digits of the data, the highest first (ARINC 429 Part 1); `None` if a field is above 9.
    pub fn bcd(self) -> Option<[u8; 5]>
        ensures { result ≡ bcd_of self }
    {
        let fields = self.digit_fields();
        if are_digits(&fields) {
            Some(fields)
        } else {
            None
        }
    }

    #[tactic(auto, using(crate::proofs::Fields::three_bits, crate::proofs::Fields::four_bits))]
    fn digit_fields(self) -> [u8; 5]
        ensures { result ≡ digit_fields self }
    {
        [
            ((self.raw >> 26) & 7) as u8,
            ((self.raw >> 22) & 15) as u8,
            ((self.raw >> 18) & 15) as u8,
            ((self.raw >> 14) & 15) as u8,
            ((self.raw >> 10) & 15) as u8,
        ]
    }
}

fn are_digits(fields: &[u8]) -> bool
    ensures { result ≡ list_all (λ d. nat_lt d 10) fields.now }
{
    fields.iter().all(|field| *field < 10)
}
