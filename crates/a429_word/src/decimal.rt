//! Whole numbers as decimal digits.
ghost use Rattle.std.specs.Prelude.{◌≡◌, ◌<◌, ◌^◌, true};
ghost use Rattle.std.specs.List.{list_all};
ghost use Rattle.std.specs.Char.{is_ascii_digit};
ghost use Rattle.std.specs.Str.Parse.{digits_value};
ghost use Rattle.a429_word.specs.Decimal.{decimal_number, is_numeral};

/// Whether each byte of a text is a decimal digit.
pub fn are_digits(text: &[u8]) -> bool
    ensures { result ≡ list_all is_ascii_digit text.now }
{
    text.iter().all(|byte| byte.is_ascii_digit())
}

/// Whether a text states a number.
#[tactic(auto, unfolding(crate::specs::Decimal::is_numeral))]
fn is_numeral(text: &[u8]) -> bool
    ensures { result ≡ is_numeral text.now }
{
    !text.is_empty() && text.len() <= 10 && (text.len() <= 1 || text[0] != b'0') && are_digits(text)
}

/// The number that decimal digits state, below 2^64. None state 0.
pub fn digits_value(digits: &[u8]) -> u64
    requires digits { list_all is_ascii_digit digits.now ≡ true }
    requires fits { digits_value 10 digits.now < 2 ^ 64 }
    ensures { result ≡ digits_value 10 digits.now }
{
    let mut value = 0;
    for digit in digits {
        value = value * 10 + u64::from(*digit - b'0');
    }
    value
}

/// The number that one to ten decimal digits state, without a leading 0 unless the text is `0`; `None` for any other
/// text (profile).
#[tactic(auto, using(crate::proofs::Numerals::numeral_digits, crate::proofs::Numerals::numeral_fits), unfolding(crate::specs::Decimal::decimal_number))]
pub fn decimal_number(text: &[u8]) -> Option<u64>
    ensures { result ≡ decimal_number text.now }
{
    if is_numeral(text) {
        Some(digits_value(text))
    } else {
        None
    }
}
