//! Times in ticks of a recorder's clock.
ghost use Rattle.std.specs.Prelude.{◌≡◌, ◌<◌, IfSome};
ghost use Rattle.a429_logs.specs.LogTicks.{hex_count, in_18_digits, tick_count, tick_micros, tick_time, without_prefix};

use a429_word::hex_digit;

/// Times are below this number of microseconds.
pub const LIMIT: u64 = 1_000_000_000_000_000_000;

/// Digits without `0x` before them.
pub fn without_prefix(text: &[u8]) -> &[u8]
    ensures { result.now ≡ without_prefix text.now }
{
    match text {
        [b'0', b'x' | b'X', digits @ ..] => digits,
        _ => text,
    }
}

/// The number of one to sixteen hexadecimal digits, in either case. `None` for any other text.
#[tactic(auto, unfolding(crate::specs::LogTicks::hex_count))]
fn hex_count(digits: &[u8]) -> Option<u64>
    ensures { result ≡ hex_count digits.now }
{
    if digits.is_empty() || digits.len() > 16 {
        return None;
    }
    let mut count = 0;
    for digit in digits {
        count = count * 16 + u64::from(hex_digit(*digit)?);
    }
    Some(count)
}

/// How many ticks a text counts: one to sixteen hexadecimal digits, which may come after `0x`. `None` for any other text.
pub fn tick_count(text: &[u8]) -> Option<u64>
    ensures { result ≡ tick_count text.now }
{
    hex_count(without_prefix(text))
}

/// A time in microseconds, if it is below 10^18.
pub fn in_18_digits(micros: u64) -> Option<u64>
    ensures { result ≡ in_18_digits micros }
{
    if micros < LIMIT { Some(micros) } else { None }
}

/// The microseconds of ticks that last this number of nanoseconds each. `None` if these are 10^18 or more.
fn tick_micros(nanoseconds: u32, count: u64) -> Option<u64>
    ensures { result ≡ tick_micros nanoseconds count }
{
    let nanoseconds = u64::from(nanoseconds);
    let whole = (count / 1000).checked_mul(nanoseconds)?;
    let micros = whole.checked_add(count % 1000 * nanoseconds / 1000)?;
    in_18_digits(micros)
}

/// The time in microseconds, below 10^18, that a text states in ticks of this number of nanoseconds. `None` if it states
/// none.
#[tactic(auto, unfolding(crate::specs::LogTicks::tick_time))]
#[cold]
#[inline(never)]
pub fn tick_time(nanoseconds: u32, text: &[u8]) -> Option<u64>
    ensures { result ≡ tick_time nanoseconds text.now }
{
    let count = tick_count(text)?;
    tick_micros(nanoseconds, count)
}
