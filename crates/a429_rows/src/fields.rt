//! Fields of words, by hand from the word format: bit 29 is the sign of BNR data, and the five BCD digits
//! are the hexadecimal digits of the data.

use crate::support::row_holds;
use a429_word::{Label, Sdi, Ssm, Word};
use std::alloc::Global;
use std::process::Abort;

/// Raw words, each with its label, SDI, SSM and data.
static WORDS: [(u32, u8, u8, u8, u32); 13] = [
    (0x600000c1, 0o203, 0, 3, 0x00000),
    (0x000000c1, 0o203, 0, 0, 0x00000),
    (0x80000021, 0o204, 0, 0, 0x00000),
    (0x00000080, 0o001, 0, 0, 0x00000),
    (0x00000c80, 0o001, 0, 0, 0x00003),
    (0x800000c0, 0o003, 0, 0, 0x00000),
    (0x048d1400, 0o000, 0, 0, 0x12345),
    (0x1ffffc00, 0o000, 0, 0, 0x7ffff),
    (0x20000000, 0o000, 0, 1, 0x00000),
    (0x40000000, 0o000, 0, 2, 0x00000),
    (0x80000300, 0o000, 3, 0, 0x00000),
    (0x10000000, 0o000, 0, 0, 0x40000),
    (0x00000040, 0o002, 0, 0, 0x00000),
];

/// Whether a word is built of its own fields.
fn is_of_its_fields(word: Word) -> bool {
    Word::build(word.label(), word.sdi(), word.data(), word.ssm()) == Ok(word)
}

/// Whether a raw word has these fields, and is built of them.
fn has_fields(raw: u32, label: u8, sdi: u8, ssm: u8, data: u32) -> bool {
    let Ok(word) = Word::from_raw(raw) else {
        return false;
    };
    word.label().value() == label
        && word.sdi().value() == sdi
        && word.ssm().value() == ssm
        && word.data() == data
        && is_of_its_fields(word)
}

/// Each raw word has its fields.
fn have_fields(rt: &impl Abort, words: &[(u32, u8, u8, u8, u32)]) {
    for (raw, label, sdi, ssm, data) in words {
        row_holds(rt, *raw, has_fields(*raw, *label, *sdi, *ssm, *data));
    }
}

#[test]
fn words_have_their_fields(rt: HostRuntime) {
    have_fields(&rt, &WORDS);
}

/// Data, how many bits below the sign, and the number.
static NUMBERS: [(u32, u32, i32); 13] = [
    (0x00000, 18, 0),
    (0x00001, 18, 1),
    (0x00001, 17, 0),
    (0x12345, 18, 74565),
    (0x3ffff, 18, 262143),
    (0x3ffff, 1, 1),
    (0x40000, 18, -262144),
    (0x40000, 1, -2),
    (0x7ffff, 18, -1),
    (0x7fffe, 18, -2),
    (0x7fffe, 17, -1),
    (0x60000, 2, -2),
    (0x20000, 2, 2),
];

/// Data, and its five digits.
static DIGITS: [(u32, Option<[u8; 5]>); 8] = [
    (0x12345, Some([1, 2, 3, 4, 5])),
    (0x79999, Some([7, 9, 9, 9, 9])),
    (0x00009, Some([0, 0, 0, 0, 9])),
    (0x40000, Some([4, 0, 0, 0, 0])),
    (0x0000a, None),
    (0x00a00, None),
    (0x0f000, None),
    (0x7ffff, None),
];

/// A word of label 000 with this data.
fn word_with(rt: &impl Abort, data: u32) -> Word {
    Word::build(Label::new(0), Sdi::new(0), data, Ssm::new(0)).expect(rt, "a word")
}

/// Whether a word reads as this number, with this number of bits below the sign.
fn reads_as(word: Word, bits: u32, number: i32) -> bool {
    1 <= bits && bits <= 18 && word.bnr(bits) == number
}

/// Data reads as these numbers.
fn read_as_numbers(rt: &impl Abort, rows: &[(u32, u32, i32)]) {
    for (data, bits, number) in rows {
        let word = word_with(rt, *data);
        row_holds(rt, *data, reads_as(word, *bits, *number));
    }
}

/// Data reads as these digits.
fn read_as_digits(rt: &impl Abort, rows: &[(u32, Option<[u8; 5]>)]) {
    for (data, digits) in rows {
        row_holds(rt, *data, word_with(rt, *data).bcd() == *digits);
    }
}

#[test]
fn data_reads_as_numbers_and_digits(rt: HostRuntime) {
    read_as_numbers(&rt, &NUMBERS);
    read_as_digits(&rt, &DIGITS);
}

/// Whether a text is read as the label of this number.
fn is_label(text: &str, value: u8) -> bool {
    match Label::parse(text) {
        Ok(label) => label.value() == value,
        Err(_) => false,
    }
}

/// Whether a text has exactly these digits, and is read as the label of this number.
fn is_printed(text: &str, digits: &[u8], value: u8) -> bool {
    text.as_bytes() == digits && is_label(text, value)
}

/// The label of this number is printed as these digits, and read so.
fn stand_for(rt: &impl Abort, alloc: Global, digits: &[u8], value: u8) {
    let printed = Label::new(value).to_string(alloc).expect(rt, "memory");
    assert!(rt; is_printed(&printed, digits, value));
}

/// Texts that are no labels.
static NO_LABELS: [&str; 12] = [
    "", "0", "00", "0000", "400", "380", "308", "-01", "+01", " 01", "20a", "٠٠٠",
];

/// None of these texts is a label.
fn are_refused(rt: &impl Abort, texts: &[&str]) {
    for text in texts {
        assert!(rt; Label::parse(text).is_err());
    }
}

#[test]
fn labels_are_three_octal_digits(rt: HostRuntime) {
    for value in 0u8..=255 {
        let digits = [b'0' + value / 64, b'0' + value / 8 % 8, b'0' + value % 8];
        stand_for(&rt, rt.alloc(), &digits, value);
    }
    are_refused(&rt, &NO_LABELS);
}
