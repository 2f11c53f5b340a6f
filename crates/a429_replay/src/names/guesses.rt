//! Guesses which of a few names a text begins with. A wrong guess costs time and nothing else: who asks compares the name.
ghost use Rattle.std.specs.Prelude.{◌<◌};

/// In how many places numbers are kept.
const PLACES: usize = 256;

/// How many multipliers are tried for one that gives each name a place of its own.
const TRIES: u64 = 64;

/// What no name has as its number.
const NO_NUMBER: u8 = u8::MAX;

/// The bytes of a name that its place comes from, with the byte that ends the name if it is among the eight.
type NameHead = u64;

/// A byte eight times, as it is multiplied by this.
const EACH: u64 = 0x0101_0101_0101_0101;

/// The highest bit of each byte.
const HIGHEST: u64 = 0x8080_8080_8080_8080;

/// Numbers of names, each at the place that the first bytes of the name give.
#[derive(Drop)]
pub struct Guesses {
    multiplier: u64,
    numbers: [u8; PLACES],
}

/// The first bytes of a text up to the first that is `end`, at most eight; nothing if the text has fewer. Of a name of
/// eight bytes or more, the last byte counts too.
#[inline(always)]
fn head_of(text: &[u8], end: u8) -> Option<NameHead> {
    let head = u64::from_le_bytes(*text.first_chunk::<8>()?);
    let differences = head ^ u64::from(end).wrapping_mul(EACH);
    let ends = differences.wrapping_sub(EACH) & !differences & HIGHEST;
    if ends == 0 {
        return Some(head ^ last_before(text, end));
    }
    Some(head & (ends ^ ends.wrapping_sub(1)))
}

/// The byte before the first that is `end`.
#[inline(never)]
fn last_before(text: &[u8], end: u8) -> u64 {
    match text.iter().position(|byte| *byte == end) {
        Some(at) if at > 0 => u64::from(text[at - 1]),
        _ => 0,
    }
}

/// The place that the first bytes of a name give.
fn place_of(head: NameHead, multiplier: u64) -> usize
    ensures { result < 256 }
{
    ((head.wrapping_mul(multiplier) >> 56) & 0xff) as usize
}

/// A name's first bytes, as a text has them that begins with the name and this byte.
fn head_of_name(name: &[u8], end: u8) -> Option<NameHead> {
    let mut text = [0u8; 32];
    if name.len() >= text.len() {
        return None;
    }
    text[..name.len()].copy_from_slice(name);
    text[name.len()] = end;
    head_of(&text, end)
}

/// Puts each name's number to its place. `false` if two names have one place.
fn put_numbers(names: &[String], end: u8, guesses: &mut Guesses) -> bool {
    let mut apart = true;
    for (number, name) in names.iter().enumerate() {
        let Some(head) = head_of_name(name.as_bytes(), end) else {
            continue;
        };
        let place = place_of(head, guesses.multiplier);
        apart = apart && guesses.numbers[place] == NO_NUMBER;
        guesses.numbers[place] = u8::try_from(number).unwrap_or(NO_NUMBER);
    }
    apart
}

impl Guesses {
    /// Guesses for texts in which this byte follows a name.
    pub fn of(names: &[String], end: u8) -> Guesses {
        let mut guesses = Guesses {
            multiplier: 1,
            numbers: [NO_NUMBER; PLACES],
        };
        for number in 0..TRIES {
            guesses.multiplier = number
                .wrapping_mul(2)
                .wrapping_add(1)
                .wrapping_mul(0x9e37_79b9_7f4a_7c15);
            guesses.numbers = [NO_NUMBER; PLACES];
            if put_numbers(names, end, &mut guesses) {
                return guesses;
            }
        }
        guesses
    }

    /// The number of the name that a text may begin with, or a number that no name has.
    #[inline(always)]
    pub fn number(&self, text: &[u8], end: u8) -> usize {
        match head_of(text, end) {
            Some(head) => usize::from(self.numbers[place_of(head, self.multiplier)]),
            None => usize::from(NO_NUMBER),
        }
    }
}
