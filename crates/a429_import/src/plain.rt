//! Words of headings and fields as spreadsheets write them.
ghost use Rattle.std.specs.Prelude.{◌≡◌, ◌<◌, ◌≤◌, false, length, true, ℕ};
ghost use Rattle.a429_import.specs.ImportWords.{is_blank, is_extra, is_text, plain, unquoted, unwrapped};
ghost use Rattle.a429_import.specs.Letters.{begin_alike, first_byte, is_pair, letters_of, lower_byte, lower_code, pair_code, same_heading};

use crate::forms::from_place;

/// Whether a byte is a space, a tab or a line break.
pub fn is_blank(byte: u8) -> bool
    ensures { result ≡ is_blank byte }
{
    byte == b' ' || byte == b'\t' || byte == b'\n' || byte == b'\r'
}

/// A byte of a heading: in any case; an underline and a line break are blanks.
pub fn plain(byte: u8) -> u8
    ensures { result ≡ plain byte }
{
    if byte == b'_' || is_blank(byte) {
        b' '
    } else {
        byte.to_ascii_lowercase()
    }
}

/// Whether a text begins with a blank before another.
fn is_extra(text: &[u8]) -> bool
    ensures { result ≡ is_extra text.now }
{
    match text {
        [a, b, ..] => plain(*a) == b' ' && plain(*b) == b' ',
        _ => false,
    }
}

/// A text with one blank for several at its beginning.
pub fn without_extra(text: &[u8]) -> &[u8]
    ensures letters { (before : ℕ) → letters_of before result.now ≡ letters_of before text.now }
    ensures none { is_extra result.now ≡ false }
    ensures len { length result.now ≤ length text.now }
{
    let mut rest = text;
    while is_extra(rest) {
        rest = from_place(rest, 1);
    }
    rest
}

/// Whether two bytes are a character of UTF-8.
fn is_pair(lead: u8, tail: u8) -> bool
    ensures { result ≡ is_pair lead tail }
{
    194 <= lead && lead <= 223 && (128 <= tail && tail <= 191)
}

/// The character of two bytes.
fn pair_code(lead: u8, tail: u8) -> u32
    requires { is_pair lead tail ≡ true }
    ensures code { result ≡ pair_code lead tail }
    ensures small { result < 2048 }
{
    u32::from(lead - 192) * 64 + u32::from(tail - 128)
}

/// The code of a character in lower case, if that is one character that takes two bytes.
#[tactic(auto, unfolding(crate::specs::Letters::lower_code))]
fn lower_code(code: u32) -> u32
    requires { code < 2048 }
    ensures code { result ≡ lower_code code }
    ensures small { result < 2048 }
{
    let Some(c) = char::from_u32(code) else {
        return code;
    };
    let mut lower = c.to_lowercase();
    let first = lower.next();
    let second = lower.next();
    match (first, second) {
        (Some(lower), None) if 128 <= lower as u32 && lower as u32 <= 2047 => lower as u32,
        _ => code,
    }
}

/// A byte of a heading in lower case, between the byte before it and the one after it.
fn lower_byte(before: u8, byte: u8, after: u8) -> u8
    ensures { result ≡ lower_byte before byte after }
{
    if is_pair(byte, after) {
        192 + (lower_code(pair_code(byte, after)) / 64) as u8
    } else if is_pair(before, byte) {
        128 + (lower_code(pair_code(before, byte)) % 64) as u8
    } else {
        plain(byte)
    }
}

/// The first byte; 0 if there is none.
fn first_byte(text: &[u8]) -> u8
    ensures { result ≡ first_byte text.now }
{
    text.first().copied().unwrap_or(0)
}

/// Whether two headings, each after a byte, begin with the same byte in lower case.
fn begin_alike(left_before: u8, left: &[u8], right_before: u8, right: &[u8]) -> bool
    ensures { result ≡ begin_alike left_before left.now right_before right.now }
{
    match (left, right) {
        ([a, left @ ..], [b, right @ ..]) => {
            let a = lower_byte(left_before, *a, first_byte(left));
            a == lower_byte(right_before, *b, first_byte(right))
        }
        _ => false,
    }
}

/// Whether two headings are the same: in any case, with one blank for several blanks, underlines and line breaks. Letters
/// that take two bytes have a case too.
pub fn same_heading(a: &[u8], b: &[u8]) -> bool
    ensures { result ≡ same_heading a.now b.now }
{
    let mut left = without_extra(a);
    let mut right = without_extra(b);
    let mut left_before = 0;
    let mut right_before = 0;
    while begin_alike(left_before, left, right_before, right) {
        left_before = first_byte(left);
        right_before = first_byte(right);
        left = without_extra(from_place(left, 1));
        right = without_extra(from_place(right, 1));
    }
    left.is_empty() && right.is_empty()
}

/// Whether a field is a text, in any case.
pub fn is_text(text: &str, field: &[u8]) -> bool
    ensures { result ≡ is_text text.now field.now }
{
    text.as_bytes().eq_ignore_ascii_case(field)
}

/// A field without the quotes around it.
pub fn unquoted(field: &[u8]) -> &[u8]
    ensures { result.now ≡ unquoted field.now }
{
    match field {
        [b'"', text @ .., b'"'] => text,
        _ => field,
    }
}

/// The text between the quotes of a field of the form `="TEXT"`, which a spreadsheet writes to keep zeros. Any other
/// field is unchanged.
pub fn unwrapped(field: &[u8]) -> &[u8]
    ensures { result.now ≡ unwrapped field.now }
{
    match field {
        [b'=', b'"', text @ .., b'"'] => text,
        _ => field,
    }
}
