//! The parts of a call, and the arguments among them.
ghost use Rattle.std.specs.Prelude.{◌≡◌, false, Err, IfOk, None, Some};
ghost use Rattle.a429_arguments.specs.Texts.{texts_of};
ghost use Rattle.a429_page.specs.Parts.{are_texts, files_in, names_in, parts_of, words_in};

use crate::command::Refusal;
use std::alloc::Global;
use std::str::from_utf8;

/// The bytes, cut into parts of these sizes. Error: there are too few bytes, or an allocation failed.
pub(crate) fn parts<'a>(
    alloc: Global,
    sizes: &[usize],
    bytes: &'a [u8],
) -> Result<Vec<&'a [u8]>, Refusal>
    ensures parts { IfOk result (λ parts. parts_of sizes.now bytes.now ≡ Some (texts_of parts.items)) }
    ensures unstated { result ≡ Err Refusal.Unstated → parts_of sizes.now bytes.now ≡ None }
{
    let mut parts = Vec::new(alloc);
    let mut rest = bytes;
    for size in sizes {
        if *size > rest.len() {
            return Err(Refusal::Unstated);
        }
        let (part, after) = rest.split_at(*size);
        if parts.push(part).is_err() {
            return Err(Refusal::NoMemory);
        }
        rest = after;
    }
    Ok(parts)
}

/// The arguments as texts. Error: one is not UTF-8, or an allocation failed.
pub(crate) fn texts<'a>(alloc: Global, words: &[&'a [u8]]) -> Result<Vec<&'a str>, Refusal>
    ensures texts { IfOk result (λ texts. texts_of texts.items ≡ texts_of words.now) }
    ensures unstated { result ≡ Err Refusal.Unstated → are_texts (texts_of words.now) ≡ false }
{
    let mut texts = Vec::new(alloc);
    for word in words {
        let Ok(text) = from_utf8(word) else {
            return Err(Refusal::Unstated);
        };
        if texts.push(text).is_err() {
            return Err(Refusal::NoMemory);
        }
    }
    Ok(texts)
}

/// What the parts of a call are.
#[derive(Clone, Copy)]
pub(crate) struct Divided<'a, 'b> {
    /// The arguments.
    pub(crate) words: &'a [&'b [u8]],
    /// The names of the files.
    pub(crate) names: &'a [&'b [u8]],
    /// The bytes of these files.
    pub(crate) files: &'a [&'b [u8]],
}

/// Divides the parts: the first are the arguments, as many as `words` says; half of the others are names, and the rest are
/// files.
pub(crate) fn divide<'a, 'b>(parts: &'a [&'b [u8]], words: usize) -> Divided<'a, 'b>
    ensures words { texts_of result.words.now ≡ words_in words (texts_of parts.now) }
    ensures names { texts_of result.names.now ≡ names_in words (texts_of parts.now) }
    ensures files { texts_of result.files.now ≡ files_in words (texts_of parts.now) }
{
    let (words, rest) = parts.split_at(words.min(parts.len()));
    let (names, files) = rest.split_at(rest.len() / 2);
    Divided {
        words,
        names,
        files,
    }
}
