//! Eight hexadecimal digits, by a table of their values.
ghost use Rattle.std.specs.Prelude.{◌≡◌, ◌<◌, IfSome, get_or};
ghost use Rattle.a429_word.specs.Hexadecimal.{hex_digit, raw_word};

/// The value of each byte that is a hexadecimal digit, in either case; 16 for any other byte.
static VALUES: [u8; 256] = [
    16, 16, 16, 16, 16, 16, 16, 16, 16, 16, 16, 16, 16, 16, 16, 16, 16, 16, 16, 16, 16, 16, 16, 16,
    16, 16, 16, 16, 16, 16, 16, 16, 16, 16, 16, 16, 16, 16, 16, 16, 16, 16, 16, 16, 16, 16, 16, 16,
    0, 1, 2, 3, 4, 5, 6, 7, 8, 9, 16, 16, 16, 16, 16, 16, 16, 10, 11, 12, 13, 14, 15, 16, 16, 16,
    16, 16, 16, 16, 16, 16, 16, 16, 16, 16, 16, 16, 16, 16, 16, 16, 16, 16, 16, 16, 16, 16, 16, 10,
    11, 12, 13, 14, 15, 16, 16, 16, 16, 16, 16, 16, 16, 16, 16, 16, 16, 16, 16, 16, 16, 16, 16, 16,
    16, 16, 16, 16, 16, 16, 16, 16, 16, 16, 16, 16, 16, 16, 16, 16, 16, 16, 16, 16, 16, 16, 16, 16,
    16, 16, 16, 16, 16, 16, 16, 16, 16, 16, 16, 16, 16, 16, 16, 16, 16, 16, 16, 16, 16, 16, 16, 16,
    16, 16, 16, 16, 16, 16, 16, 16, 16, 16, 16, 16, 16, 16, 16, 16, 16, 16, 16, 16, 16, 16, 16, 16,
    16, 16, 16, 16, 16, 16, 16, 16, 16, 16, 16, 16, 16, 16, 16, 16, 16, 16, 16, 16, 16, 16, 16, 16,
    16, 16, 16, 16, 16, 16, 16, 16, 16, 16, 16, 16, 16, 16, 16, 16, 16, 16, 16, 16, 16, 16, 16, 16,
    16, 16, 16, 16, 16, 16, 16, 16, 16, 16, 16, 16, 16, 16,
];

/// The value of a byte in the table.
#[inline(always)]
fn value_at(byte: u8) -> u8
    ensures { result ≡ get_or VALUES byte 0 }
{
    VALUES[usize::from(byte)]
}

/// The value of a hexadecimal digit, in either case.
#[inline(always)]
fn digit_value(byte: u8) -> Option<u32>
    ensures value { result ≡ hex_digit byte }
    ensures small { IfSome result (λ d. d < 16) }
{
    let value = value_at(byte);
    if value < 16 {
        Some(u32::from(value))
    } else {
        None
    }
}

/// The 32 bits of exactly eight hexadecimal digits, in either case. `None` for any other text. It is `raw_word` of
/// a429_word, quicker for a log.
#[inline(always)]
#[tactic(auto, unfolding(a429_word::specs::Hexadecimal::raw_word))]
pub fn eight_digits(text: &[u8]) -> Option<u32>
    ensures { result ≡ raw_word text.now }
{
    if text.len() != 8 {
        return None;
    }
    let mut raw = 0u32;
    for digit in text {
        raw = raw * 16 + digit_value(*digit)?;
    }
    Some(raw)
}
