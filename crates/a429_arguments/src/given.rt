//! The arguments that the program was given.
ghost use Rattle.std.specs.Prelude.{◌≡◌, ℕ, List, IfOk, Err, Some, None, take, IfErr, ◌∷◌, [], map, string_bytes, IfSome};
ghost use Rattle.std.specs.Io.{WritesAtMost};
ghost use Rattle.std.specs.Str.{IsUtf8};
ghost use Rattle.a429_word.specs.Written.{Gains};
ghost use Rattle.a429_arguments.specs.GivenWords.{AreAllWords, HasNoText};

use std::alloc::{AllocError, Global};
use std::env::{Env, FillError};
use thiserror::Error;

/// Why the arguments are not given.
#[derive(Clone, Copy, Debug, PartialEq, Eq, Error)]
pub enum WordsFault {
    /// An allocation failed.
    #[error("out of memory")]
    NoMemory,
    /// An argument is not UTF-8.
    #[error("an argument is not UTF-8")]
    NotText,
}

/// What has the arguments of the program, by their places. The first, at 0, is the path of the program.
pub trait Arguments {
    /// It answered that the argument at this place has these bytes.
    ghost gives: { Self → ℕ → List ℕ → Type 0 };

    /// It answered that there is no argument at this place.
    ghost ends: { Self → ℕ → Type 0 };

    /// Copies the argument at a place to the front of the room, and gives its length. Errors: there is no argument at
    /// this place (`NotPresent`), or it does not fit the room.
    fn argument(&self, place: usize, room: &mut [u8]) -> Result<usize, FillError>
        ensures bound { WritesAtMost result room.new }
        ensures given { IfOk result (λ n. gives self.now place (take n room.new)) }
        ensures ended { result ≡ Err FillError.NotPresent → ends self.now place };
}

impl<R: Env> Arguments for R {
    ghost use Rattle.std.specs.Prelude.{⊤};

    ghost gives = { λ _ _ _. ⊤ };

    ghost ends = { λ _ _. ⊤ };

    fn argument(&self, place: usize, room: &mut [u8]) -> Result<usize, FillError> {
        self.arg(place, room)
    }
}

/// The bytes of the argument at a place. `None` if there is no argument.
fn argument_bytes<A: Arguments>(
    alloc: Global,
    arguments: &A,
    place: usize,
) -> Result<Option<Vec<u8>>, AllocError>
    ensures given { IfOk result (λ found. IfSome found (λ bytes. A.gives arguments.now place bytes.items)) }
    ensures ended { IfOk result (λ found. found ≡ None → A.ends arguments.now place) }
{
    let mut size = 256usize;
    let mut room = Vec::new(alloc);
    for _ in 0..usize::BITS {
        room.resize(size, 0u8)?;
        match arguments.argument(place, &mut room) {
            Ok(n) => {
                room.truncate(n);
                return Ok(Some(room));
            }
            Err(FillError::NotPresent) => return Ok(None),
            Err(FillError::TooLong) => size = size.saturating_mul(2),
        }
    }
    Err(AllocError)
}

/// The arguments, without the program's path. Error: one is not UTF-8, or an allocation failed.
pub fn given_words<A: Arguments>(alloc: Global, arguments: &A) -> Result<Vec<String>, WordsFault>
    ensures words { IfOk result (λ words. AreAllWords (A.gives arguments.now) (A.ends arguments.now) (map string_bytes words.items)) }
    ensures not_text { result ≡ Err WordsFault.NotText → HasNoText (A.gives arguments.now) }
{
    let mut words = Vec::new(alloc);
    for place in 1..usize::MAX {
        match word_at(alloc, arguments, place)? {
            Some(word) => push_word(&mut words, word)?,
            None => return Ok(words),
        }
    }
    Err(WordsFault::NoMemory)
}

fn push_word(words: &mut Vec<String>, word: String) -> Result<(), WordsFault>
    ensures pushed { Gains result words.old.items words.new.items (word ∷ []) }
    ensures memory { IfErr result (λ fault. fault ≡ WordsFault.NoMemory) }
{
    match words.push(word) {
        Ok(()) => Ok(()),
        Err(_) => Err(WordsFault::NoMemory),
    }
}

/// The argument at a place. `None` after the last.
fn word_at<A: Arguments>(
    alloc: Global,
    arguments: &A,
    place: usize,
) -> Result<Option<String>, WordsFault>
    ensures given { IfOk result (λ found. IfSome found (λ word. A.gives arguments.now place (string_bytes word))) }
    ensures ended { IfOk result (λ found. found ≡ None → A.ends arguments.now place) }
    ensures not_text { result ≡ Err WordsFault.NotText → (bytes : List ℕ) × A.gives arguments.now place bytes × (¬ (IsUtf8 bytes)) }
{
    match argument_bytes(alloc, arguments, place) {
        Ok(Some(bytes)) => match String::from_utf8(bytes) {
            Ok(word) => Ok(Some(word)),
            Err(_) => Err(WordsFault::NotText),
        },
        Ok(None) => Ok(None),
        Err(AllocError) => Err(WordsFault::NoMemory),
    }
}
