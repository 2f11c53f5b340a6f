//! Hints about words, line files and filters.

use crate::hint::HintText;
use a429_arguments::options::OptionName;
use a429_arguments::requests::Asked;
use a429_console::refusals::evidence::LineEvidence;
use a429_filter::{FILTERS, Filter};
use a429_word::{Label, Word, raw_word};

/// Says what is wrong with the text of a word.
pub fn tell_word_text(text: &str, hint: &HintText) {
    match digits_after_0x(text) {
        Some(digits) => hint.line_two(
            "{?} begins with 0x; write only the eight hexadecimal digits: a429 word {}",
            text,
            digits,
        ),
        None => hint.line_one(
            "{?} is not a word: a word is eight hexadecimal digits, such as e48d14c1",
            text,
        ),
    }
}

/// The digits after 0x, if they are those of a word.
fn digits_after_0x(text: &str) -> Option<&str> {
    let digits = text.strip_prefix("0x").or(text.strip_prefix("0X"))?;
    raw_word(digits.as_bytes())?;
    Some(digits)
}

/// Says how many ones a word of even parity has, and which word it is with the other parity bit.
pub fn tell_even_word(text: &str, hint: &HintText) {
    let Some(raw) = raw_word(text.as_bytes()) else {
        return;
    };
    write!(hint, "a429: {raw:08x}");
    hint.end_one(
        " has {} ones, but a word must have an odd number of ones (odd parity)",
        raw.count_ones(),
    );
    let other = raw ^ 0x80000000;
    if let Ok(word) = Word::from_raw(other) {
        write!(
            hint,
            "a429: with the other parity bit (bit 32) it is {other:08x}"
        );
        say_parts(word, hint);
    }
}

/// Says the parts of a word, and ends the line.
fn say_parts(word: Word, hint: &HintText) {
    hint.say_value(": label ", word.label());
    hint.say_value(" sdi ", word.sdi());
    hint.say_value(" ssm ", word.ssm());
    let data = word.data();
    writeln!(hint, " data {data:05x}");
}

/// Says what a label is.
pub fn tell_label_text(text: &str, hint: &HintText) {
    hint.line_one(
        "{?} is not a label: a label is three octal digits, 000 to 377",
        text,
    );
}

/// Says which data a word can have, in the form in which they are given.
pub fn tell_data_text(asked: &Asked, hint: &HintText) {
    if let Some(text) = asked.text(OptionName::Data) {
        hint.line_one(
            "--data {?} is not data: data are one to five hexadecimal digits, at most 7ffff",
            text,
        );
    }
    if let Some(text) = asked.text(OptionName::Bnr) {
        tell_bnr_text(text, asked.number(OptionName::Bits).unwrap_or(18), hint);
    }
    if let Some(text) = asked.text(OptionName::Bcd) {
        hint.line_one(
            "--bcd {?} is not data: BCD data are five decimal digits, of which the first is at most 7",
            text,
        );
    }
}

/// Says which BNR numbers have at most this number of bits below their sign.
fn tell_bnr_text(text: &str, bits: u32, hint: &HintText) {
    let most: u64 = 1 << bits.min(18);
    hint.begin(": ");
    hint.say_two("--bnr {?} is not a whole number from -{}", text, most);
    let remedy = if text.starts_with('+') {
        "; write it without a plus sign"
    } else {
        ""
    };
    hint.end_two(" to {}{}", most - 1, remedy);
}

/// Says what is wrong with a filter. Filters are numbered from 1.
pub fn tell_filter(number: usize, text: &str, hint: &HintText) {
    if number > FILTERS {
        return hint.line_two(
            "filter {}: at most {} filters can be given",
            number,
            FILTERS,
        );
    }
    hint.begin(": ");
    hint.say_two("filter {}: {?}", number, text);
    if Label::parse(text.trim()).is_ok() {
        hint.say(" has no mask");
    } else {
        hint.say(
            " must be LLL/MMM, a label and a mask of three octal digits each, such as 203/377",
        );
    }
    say_meant_filter(text, hint);
    hint.end("");
}

/// Says which filter a text may mean, if it is one with blanks around it, or a label without a mask.
pub fn say_meant_filter(text: &str, hint: &HintText) {
    let text = text.trim();
    if Filter::parse(text).is_ok() {
        return hint.say_one("; write {}, without blanks", text);
    }
    if let Ok(label) = Label::parse(text) {
        hint.say_value("; ", label);
        hint.say("/377 passes only this label");
    }
}

/// Says which byte of a line file is not a symbol, and in which column it is.
pub fn tell_line_byte(line: &LineEvidence, byte: u8, hint: &HintText) {
    hint.begin(", column ");
    hint.say_one("{}", line.bytes.len().saturating_add(1));
    if byte == b'\r' {
        hint.end(": a carriage return: save the file with line feeds only");
        return;
    }
    if byte == 0xEF && line.number == 1 && line.bytes.is_empty() {
        hint.end(": the file begins with a byte order mark: save it without one");
        return;
    }
    match byte {
        0x21..=0x7e => {
            let shown = char::from(byte);
            write!(hint, ": {shown:?}");
        }
        _ => hint.say_one(": byte {}", u32::from(byte)),
    }
    hint.end(" is not a symbol; a line file has only `1`, `0`, `.`, spaces and line feeds");
}
