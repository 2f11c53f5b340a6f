//! What words say as BNR and as BCD.
ghost use Rattle.std.specs.Prelude.{◌≡◌, ◌+◌, ◌*◌, ◌<◌, ◌≤◌, ◌^◌, nat_lt};
ghost use Rattle.std.specs.List.{list_all};
ghost use Rattle.a429_word.specs.Bits.{bit, bnr_of, digit_fields, number_from};
ghost use Rattle.a429_survey.specs.Data.{bcd_data, bnr_data, number_of, signed_by};
ghost use Rattle.a429_survey.specs.Kept.{extent_with, extents_with, is_within, no_extents, widened};

use crate::figures::ssm_of;

/// The SSM of normal operation, for BNR.
const NORMAL: u32 = 3;

/// The SSM of plus, for BCD.
const PLUS: u32 = 0;

/// The SSM of minus, for BCD.
const MINUS: u32 = 3;

/// The least and the greatest of some numbers.
#[derive(Clone, Copy)]
pub struct Extent {
    pub least: i32,
    pub greatest: i32,
}

/// The least and the greatest of what some words say as BNR, and as BCD. There is none if no word says one.
#[derive(Clone, Copy)]
pub struct Extents {
    pub bnr: Option<Extent>,
    pub bcd: Option<Extent>,
}

/// The bits of a BNR number below its sign: bits 11 to 28.
#[tactic(auto, using(crate::proofs::DataBits::magnitude_is))]
fn magnitude(raw: u32) -> u32
    ensures value { result ≡ number_from 11 18 raw }
    ensures small { result < 2 ^ 18 }
{
    (raw >> 10) & 0x3ffff
}

/// The weight of its sign: 2^18 if bit 29 is 1, otherwise 0.
#[tactic(auto, using(crate::proofs::DataBits::sign_is))]
fn sign(raw: u32) -> u32
    ensures value { result ≡ 2 ^ 18 * bit 29 raw }
    ensures small { result ≤ 2 ^ 18 }
{
    ((raw >> 28) & 1) << 18
}

/// The BNR number of bits 11 to 29.
fn bnr_number(raw: u32) -> i32
    ensures { result ≡ bnr_of 18 raw }
{
    magnitude(raw) as i32 - sign(raw) as i32
}

/// Whether a number is within an extent.
fn is_within(extent: &Option<Extent>, number: i32) -> bool
    ensures { result ≡ is_within number extent.now }
{
    match extent {
        Some(extent) => extent.least <= number && number <= extent.greatest,
        None => false,
    }
}

/// The extent of some numbers and one more.
fn extent_with(extent: Option<Extent>, number: i32) -> Extent
    ensures { result ≡ extent_with number extent }
{
    match extent {
        Some(extent) => Extent {
            least: extent.least.min(number),
            greatest: extent.greatest.max(number),
        },
        None => Extent {
            least: number,
            greatest: number,
        },
    }
}

/// Takes what a word says as BNR into an extent (ARINC 429 Part 1).
fn note_bnr(extent: &mut Option<Extent>, raw: u32)
    ensures { extent.new ≡ widened (bnr_data raw) extent.old }
{
    if ssm_of(raw) != NORMAL {
        return;
    }
    let number = bnr_number(raw);
    if !is_within(extent, number) {
        *extent = Some(extent_with(*extent, number));
    }
}

/// The highest digit: bits 27 to 29.
#[tactic(auto, using(crate::proofs::DataBits::high_digit_is))]
fn high_digit(raw: u32) -> u32
    ensures value { result ≡ number_from 27 3 raw }
    ensures small { result < 8 }
{
    (raw >> 26) & 7
}

/// The field of four bits above this number of bits.
#[tactic(auto, using(crate::proofs::DataBits::digit_is))]
fn digit(raw: u32, low: u32) -> u32
    requires { low ≤ 22 }
    ensures value { result ≡ number_from (low + 1) 4 raw }
    ensures small { result < 16 }
{
    (raw >> low) & 15
}

/// The number of the five fields, even if one is no digit.
fn fields_number(raw: u32) -> u32
    ensures value { result ≡ number_of (digit_fields raw) }
    ensures small { result < 100000 }
{
    let thousands = 10 * high_digit(raw) + digit(raw, 22);
    let tens = 10 * digit(raw, 18) + digit(raw, 14);
    1000 * thousands + 10 * tens + digit(raw, 10)
}

/// Whether all five are digits.
fn has_digits(raw: u32) -> bool
    ensures { result ≡ list_all (λ digit. nat_lt digit 10) (digit_fields raw) }
{
    high_digit(raw) < 10
        && digit(raw, 22) < 10
        && digit(raw, 18) < 10
        && digit(raw, 14) < 10
        && digit(raw, 10) < 10
}

/// A number with the sign of an SSM, if it is a sign.
fn signed(ssm: u32, number: u32) -> Option<i32>
    requires { number < 100000 }
    ensures { result ≡ signed_by ssm number }
{
    match ssm {
        PLUS => Some(number as i32),
        MINUS => Some(-(number as i32)),
        _ => None,
    }
}

/// Takes what a word says as BCD into an extent (ARINC 429 Part 1). Most numbers are within, so the digits are looked at
/// last.
fn note_bcd(extent: &mut Option<Extent>, raw: u32)
    ensures { extent.new ≡ widened (bcd_data raw) extent.old }
{
    let Some(number) = signed(ssm_of(raw), fields_number(raw)) else {
        return;
    };
    if !is_within(extent, number) && has_digits(raw) {
        *extent = Some(extent_with(*extent, number));
    }
}

impl Extents {
    /// Those of no word.
    pub fn none() -> Extents
        ensures { result ≡ no_extents }
    {
        Extents {
            bnr: None,
            bcd: None,
        }
    }

    /// Takes one more word.
    pub fn note(&mut self, raw: u32)
        ensures { self.new ≡ extents_with raw self.old }
    {
        note_bnr(&mut self.bnr, raw);
        note_bcd(&mut self.bcd, raw);
    }
}
