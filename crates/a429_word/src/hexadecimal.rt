//! Raw words as hexadecimal digits.
ghost use Rattle.std.specs.Prelude.{◌≡◌, ◌<◌, IfSome};
ghost use Rattle.a429_word.specs.Hexadecimal.{hex_digit, hex_number, raw_word};

/// The value of a hexadecimal digit, in either case; `None` for any other byte.
pub fn hex_digit(digit: u8) -> Option<u32>
    ensures value { result ≡ hex_digit digit }
    ensures small { IfSome result (λ d. d < 16) }
{
    match digit {
        b'0'..=b'9' => Some(u32::from(digit - b'0')),
        b'a'..=b'f' => Some(u32::from(digit - b'a' + 10)),
        b'A'..=b'F' => Some(u32::from(digit - b'A' + 10)),
        _ => None,
    }
}

/// The 32 bits of exactly eight hexadecimal digits, in either case; `None` for any other text (profile). Even and odd
/// parity are both accepted.
#[tactic(auto, unfolding(crate::specs::Hexadecimal::raw_word))]
pub fn raw_word(text: &[u8]) -> Option<u32>
    ensures { result ≡ raw_word text.now }
{
    if text.len() != 8 {
        return None;
    }
    let mut raw = 0u32;
    for digit in text {
        raw = raw * 16 + hex_digit(*digit)?;
    }
    Some(raw)
}

/// The number of one to five hexadecimal digits, in either case; `None` for any other text (profile).
pub fn hex_number(text: &[u8]) -> Option<u32>
    ensures { result ≡ hex_number text.now }
{
    if text.is_empty() || text.len() > 5 {
        return None;
    }
    let mut digits = [b'0'; 8];
    let start = digits.len() - text.len();
    digits[start..].copy_from_slice(text);
    raw_word(&digits)
}
