//! Lists of names, and the numbers of the names with which texts begin.
ghost use Rattle.std.specs.Prelude.{◌≡◌, ◌≤◌, ◌<◌, ◌++◌, ◌∷◌, IfSome, IsTrue, length, map, string_bytes};
ghost use Rattle.a429_console.specs.Names.{name_at, number_named};
ghost use Rattle.a429_replay.specs.NameLists.{AreFirst, BeginsWithName, IsFirstPlain, IsPlain};

use crate::names::guesses::Guesses;
use a429_text::cut::cut_at;
use std::marker::Model;

/// At most sixteen names in table order. Those that are looked for by a guess are the first of their spelling, and have
/// neither a space nor a line feed.
#[derive(Drop)]
pub struct NameList {
    names: Vec<String>,
    guessed: usize,
    guesses: Guesses,
}

impl Model for NameList {
    ghost use Rattle.std.specs.Prelude.{◌≤◌, List, ℕ, length, map, string_bytes};
    ghost use Rattle.a429_replay.specs.NameLists.{AreFirst};

    ghost Value = { List (List ℕ) };

    ghost view = { λ n. map string_bytes n.names.items };

    ghost invariant = { λ n. (length n.names.items ≤ 16) × (n.guessed ≤ length n.names.items)
        × AreFirst (map string_bytes n.names.items) n.guessed };
}

impl NameList {
    /// The list of these names, each of which is mostly followed by this byte in the text that is read.
    pub fn of(names: Vec<String>, end: u8) -> NameList
        requires { length names.items ≤ 16 }
        ensures { result ≡ map string_bytes names.items }
    {
        let guessed = count_first(&names);
        let guesses = Guesses::of(&names, end);
        NameList {
            names,
            guessed,
            guesses,
        }
    }

    /// The names.
    pub fn names(&self) -> &[String]
        ensures { map string_bytes result.now ≡ self.now }
    {
        &self.names
    }

    /// The number of the first name that is spelled so. `None` if there is none.
    pub fn number(&self, name: &[u8]) -> Option<u8>
        ensures { result ≡ number_named self.now name.now }
    {
        number_of(&self.names, name)
    }

    /// The name of this number; nothing if there is none.
    pub fn name(&self, number: usize) -> &[u8]
        ensures { result.now ≡ name_at self.now number }
    {
        name_in(&self.names, number)
    }

    /// The number of the name with which a text begins and that this byte follows, and the text after the byte. `None`
    /// says nothing: the name was not guessed.
    #[inline(always)]
    pub fn number_before<'a>(&self, text: &'a [u8], end: u8) -> Option<(u8, &'a [u8])>
        ensures { IfSome result (λ p. BeginsWithName self.now end text.entry.now p.0 p.1.now) }
    {
        let number = self.guesses.number(text, end);
        if number >= self.guessed {
            return None;
        }
        let rest = after_name(text, name_of(&self.names, number), end)?;
        Some((number as u8, rest))
    }
}

/// The name of a number that one of these has.
fn name_of(names: &[String], number: usize) -> &[u8]
    requires { number < length names.now }
    ensures { result.now ≡ name_at (map string_bytes names.entry.now) number }
{
    names[number].as_bytes()
}

/// The text after a name with which it begins and the byte that follows the name.
#[inline(always)]
fn after_name<'a>(text: &'a [u8], name: &[u8], end: u8) -> Option<&'a [u8]>
    ensures { IfSome result (λ rest. text.entry.now ≡ name.now ++ end ∷ rest.now) }
{
    let length = name.len();
    if text.len() <= length || text[length] != end {
        return None;
    }
    if &text[..length] == name {
        Some(&text[length + 1..])
    } else {
        None
    }
}

/// Whether a text has neither a space nor a line feed.
fn is_plain(text: &[u8]) -> bool
    ensures { IsTrue result → IsPlain text.now }
{
    cut_at(text, b'\n').is_none() && cut_at(text, b' ').is_none()
}

/// Whether the name of a number is the first of its spelling, and plain.
fn is_first(names: &[String], number: usize) -> bool
    requires few { length names.now ≤ 16 }
    requires within { number < length names.now }
    ensures { IsTrue result → IsFirstPlain (map string_bytes names.now) number }
{
    let name = name_of(names, number);
    match number_of(names, name) {
        Some(first) => usize::from(first) == number && is_plain(name),
        None => false,
    }
}

/// How many of the names, from the first on, are the first of their spelling, and plain.
fn count_first(names: &[String]) -> usize
    requires { length names.now ≤ 16 }
    ensures within { result ≤ length names.now }
    ensures first { AreFirst (map string_bytes names.now) result }
{
    for number in 0..names.len() {
        if !is_first(names, number) {
            return number;
        }
    }
    names.len()
}

/// The number of the first of these names that is this one.
#[tactic(auto, unfolding(a429_console::specs::Names::number_named))]
fn number_of(names: &[String], name: &[u8]) -> Option<u8>
    requires { length names.now ≤ 16 }
    ensures { result ≡ number_named (map string_bytes names.now) name.now }
{
    let number = names.iter().position(|own| own.as_bytes() == name)?;
    Some(number as u8)
}

/// The name of a number among these. Empty if there is no such name.
fn name_in(names: &[String], number: usize) -> &[u8]
    ensures { result.now ≡ name_at (map string_bytes names.entry.now) number }
{
    match names.get(number) {
        Some(own) => own.as_bytes(),
        None => b"",
    }
}
