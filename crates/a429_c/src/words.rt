//! Calls that make a word of its fields, and read the fields of a word. They need no station.
ghost use Rattle.std.specs.Prelude.{◌≡◌, ◌≤◌};
ghost use Rattle.a429_c.specs.Calls.{given_or, status_in, status_of};
ghost use Rattle.a429_c.specs.Words.{IsWordOf, decoded, field_refusal, fields_of};

use crate::statuses::Status;
use a429_word::{Label, Sdi, Ssm, Word};

/// The fields of a word (ARINC 429 Part 1, word format): its data, its label as a number with bit 1 the highest, its
/// SDI, its SSM, and its parity bit, which is bit 32.
#[repr(C)]
#[derive(Clone, Copy)]
pub struct WordFields {
    pub value: u32,
    pub label: u8,
    pub sdi: u8,
    pub ssm: u8,
    pub parity: u8,
}

/// Gives the word of these fields, with the parity bit that makes the parity odd. Error: the SDI or the SSM is above 3,
/// or the data has more than 19 bits.
#[unsafe(no_mangle)]
pub extern "C" fn a429_encode(label: u8, sdi: u8, value: u32, ssm: u8, word: &mut u32) -> u32
    ensures status { result ≡ status_in (field_refusal sdi value ssm) }
    ensures word { result ≡ 0 → IsWordOf label sdi value ssm word.new }
    ensures kept { 1 ≤ result → word.new ≡ word.old }
{
    if sdi > 3 || ssm > 3 {
        return Status::Field.code();
    }
    match Word::build(Label::new(label), Sdi::new(sdi), value, Ssm::new(ssm)) {
        Ok(built) => {
            *word = built.raw();
            0
        }
        Err(_) => Status::Field.code(),
    }
}

/// Gives the fields of a word. Error: an even number of its bits are ones.
#[unsafe(no_mangle)]
pub extern "C" fn a429_decode(word: u32, fields: &mut WordFields) -> u32
    ensures status { result ≡ status_of (decoded word) }
    ensures fields { fields.new ≡ given_or (decoded word) fields.old }
{
    match Word::from_raw(word) {
        Ok(word) => {
            *fields = fields_of(word);
            0
        }
        Err(_) => Status::Parity.code(),
    }
}

/// The fields of a word.
fn fields_of(word: Word) -> WordFields
    ensures { result ≡ fields_of word }
{
    WordFields {
        value: word.data(),
        label: word.label().value(),
        sdi: word.sdi().value(),
        ssm: word.ssm().value(),
        parity: (word.raw() >> 31) as u8,
    }
}
