//! What a transmitter sends in a slot.
ghost use Rattle.std.specs.Prelude.{◌≡◌, ◌++◌, ◌∷◌, [], List, ◌≤◌, length};
ghost use Rattle.a429_line.specs.Reports.{reports};
ghost use Rattle.a429_line.specs.Slots.{bits_from, reports_of_slot, slot, symbol_of};
ghost use Rattle.a429_line.specs.declared.found.Symbol.{Symbol};
ghost use Rattle.a429_line.specs.declared.found.Symbol.TheVariants.{Null};

use crate::found::Symbol;
use a429_word::Word;

/// The length of a slot in bit times: the gap of four and the 32 bits of a word (profile: grid).
pub const SLOT: usize = 36;

fn level(bit: u32) -> Symbol
    ensures { result ≡ symbol_of bit }
{
    if bit == 1 { Symbol::Hi } else { Symbol::Lo }
}

/// Writes the lowest bits of a number, the lowest first.
fn write_bits(symbols: &mut [Symbol], raw: u32)
    requires { length symbols.old ≤ 32 }
    ensures { symbols.new ≡ bits_from 1 (length symbols.old) raw }
{
    for (place, symbol) in symbols.iter_mut().enumerate() {
        *symbol = level((raw >> place) & 1);
    }
}

/// The symbols of a slot: four Nulls and then bits 1 to 32 of its word, bit 1 first (ARINC 429 Part 1), or 36 Nulls if
/// it has no word. After any line a reader reports exactly this word, or nothing, at the Null that follows the slot.
pub fn write_slot(word: Option<Word>) -> [Symbol; SLOT]
    ensures slot { result ≡ slot word }
    ensures read { (x : List Symbol) → reports (x ++ result ++ Null ∷ []) ≡ reports (x ++ Null ∷ []) ++ reports_of_slot word }
{
    let mut symbols = [Symbol::Null; SLOT];
    if let Some(word) = word {
        write_bits(&mut symbols[4..], word.raw());
    }
    symbols
}
