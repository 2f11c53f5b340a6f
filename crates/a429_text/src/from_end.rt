//! Short lines, written from their end into a room on the stack: so each is appended whole, or not at all.
ghost use Rattle.std.specs.Prelude.{◌≡◌, ◌+◌, ◌/◌, ◌%◌, ◌≤◌, ◌++◌, ◌∷◌, [], drop, length, OnErr};
ghost use Rattle.std.specs.Fmt.{decimal};
ghost use Rattle.a429_word.specs.Written.{Gains};
ghost use Rattle.a429_word.specs.Hexadecimal.{hex};
ghost use Rattle.a429_text.specs.Nibbles.{nibble};

use itoa::write_digits;
use std::alloc::AllocError;

/// How many bytes a room has.
pub const ROOM: usize = 64;

/// Writes a text before the bytes that begin at `end`, and gives its start.
#[inline(always)]
pub fn put_text(room: &mut [u8], end: usize, text: &[u8]) -> usize
    requires { (length text.now ≤ end) × (end ≤ length room.old) }
    ensures start { result + length text.now ≡ end }
    ensures written { drop result room.new ≡ text.now ++ drop end room.old }
    ensures size { length room.new ≡ length room.old }
{
    let start = end - text.len();
    room[start..end].copy_from_slice(text);
    start
}

/// The two hexadecimal digits of each byte, one byte after another.
static DIGITS: [u8; 512] = *b"\
    000102030405060708090a0b0c0d0e0f\
    101112131415161718191a1b1c1d1e1f\
    202122232425262728292a2b2c2d2e2f\
    303132333435363738393a3b3c3d3e3f\
    404142434445464748494a4b4c4d4e4f\
    505152535455565758595a5b5c5d5e5f\
    606162636465666768696a6b6c6d6e6f\
    707172737475767778797a7b7c7d7e7f\
    808182838485868788898a8b8c8d8e8f\
    909192939495969798999a9b9c9d9e9f\
    a0a1a2a3a4a5a6a7a8a9aaabacadaeaf\
    b0b1b2b3b4b5b6b7b8b9babbbcbdbebf\
    c0c1c2c3c4c5c6c7c8c9cacbcccdcecf\
    d0d1d2d3d4d5d6d7d8d9dadbdcdddedf\
    e0e1e2e3e4e5e6e7e8e9eaebecedeeef\
    f0f1f2f3f4f5f6f7f8f9fafbfcfdfeff";

/// Writes the two hexadecimal digits of a byte at a place.
#[inline(always)]
fn put_byte(room: &mut [u8], at: usize, byte: u8)
    requires { at + 2 ≤ length room.old }
    ensures written { drop at room.new ≡ nibble (byte / 16) ∷ nibble (byte % 16) ∷ drop (at + 2) room.old }
    ensures size { length room.new ≡ length room.old }
{
    let pair = usize::from(byte) * 2;
    let (high, low) = (DIGITS[pair], DIGITS[pair + 1]);
    room[at] = high;
    room[at + 1] = low;
}

/// Writes eight hexadecimal digits before the bytes that begin at `end`, and gives their start.
#[inline(always)]
pub fn put_hex(room: &mut [u8], end: usize, raw: u32) -> usize
    requires { (8 ≤ end) × (end ≤ length room.old) }
    ensures start { result + 8 ≡ end }
    ensures written { drop result room.new ≡ hex raw ++ drop end room.old }
    ensures size { length room.new ≡ length room.old }
{
    let mut left = raw;
    for place in 0..4 {
        put_byte(room, end - 2 - 2 * place, (left % 256) as u8);
        left /= 256;
    }
    end - 8
}

/// Writes a decimal number before the bytes that begin at `end`, and gives its start.
#[inline(always)]
pub fn put_decimal(room: &mut [u8], end: usize, number: u64) -> usize
    requires { (20 ≤ end) × (end ≤ length room.old) }
    ensures start { result + length (decimal number) ≡ end }
    ensures few { end ≤ result + 20 }
    ensures written { drop result room.new ≡ decimal number ++ drop end room.old }
    ensures size { length room.new ≡ length room.old }
{
    write_digits(number, room, end)
}

/// Appends a line of a short text and a number. Error: an allocation failed; then nothing is appended.
pub fn push_number(text: &mut Vec<u8>, before: &[u8], number: u64) -> Result<(), AllocError>
    requires { length before.now ≤ 32 }
    ensures line { Gains result text.old.items text.new.items (before.now ++ decimal number ++ 10 ∷ []) }
    ensures kept { OnErr result (text.new.items ≡ text.old.items) }
{
    let mut room = [0u8; ROOM];
    let at = put_text(&mut room, ROOM, b"\n");
    let at = put_decimal(&mut room, at, number);
    let at = put_text(&mut room, at, before);
    text.extend_from_slice(&room[at..])
}

/// Appends a line of a short text and a raw word. Error: an allocation failed; then nothing is appended.
#[inline(always)]
pub fn push_hex(text: &mut Vec<u8>, before: &[u8], raw: u32) -> Result<(), AllocError>
    requires { length before.now ≤ 32 }
    ensures line { Gains result text.old.items text.new.items (before.now ++ hex raw ++ 10 ∷ []) }
    ensures kept { OnErr result (text.new.items ≡ text.old.items) }
{
    let mut room = [0u8; ROOM];
    let at = put_text(&mut room, ROOM, b"\n");
    let at = put_hex(&mut room, at, raw);
    let at = put_text(&mut room, at, before);
    text.extend_from_slice(&room[at..])
}
