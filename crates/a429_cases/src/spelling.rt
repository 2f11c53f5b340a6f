//! Texts that are spelled in one line, their edits, and arguments.

use a429_text::Gathered;
use a429_text::cut::cut_at;
use bstr::{ByteSlice, ByteVec};
use std::alloc::{AllocError, Global};

/// The texts before and after the first of these marks. All is before it if there is none.
pub fn cut<'a>(text: &'a str, mark: &str) -> (&'a str, &'a str) {
    text.split_once(mark).unwrap_or((text, ""))
}

/// What follows this beginning of a text. `None` if the text does not begin with it.
pub fn after<'a>(text: &'a str, start: &str) -> Option<&'a str> {
    text.strip_prefix(start)
}

/// The number before the first mark of a text, and the text after the mark. If one of them is missing, it is the other number,
/// and the whole text.
pub fn number_before<'a>(text: &'a str, mark: &str, other: usize) -> (usize, &'a str) {
    let (number, rest) = cut(text, mark);
    match number.trim().parse::<usize>() {
        Ok(number) if !rest.is_empty() => (number, rest),
        _ => (other, text),
    }
}

/// The bytes that a spelled text means: `;` is a line feed, `\xHH` the byte with these hexadecimal digits, and
/// `N of PART` is the part N times. `None` if an allocation fails.
pub fn spelled(alloc: Global, text: &str) -> Option<Vec<u8>> {
    let (count, part) = number_before(text, " of ", 1);
    match unescaped(alloc, part) {
        Ok(part) => part.as_slice().repeatn(alloc, count).ok(),
        Err(_) => None,
    }
}

fn unescaped(alloc: Global, part: &str) -> Result<Vec<u8>, AllocError> {
    match part.replace(alloc, ';', "\n") {
        Ok(part) => Vec::unescape_bytes(alloc, &part),
        Err(error) => Err(error),
    }
}

/// A text after edits, separated by bars. `None` if one of them cannot be made.
pub fn edited(alloc: Global, text: &[u8], edits: &str) -> Option<Vec<u8>> {
    let mut all = Vec::from_slice(alloc, text).ok()?;
    if edit_all(alloc, &mut all, edits) {
        Some(all)
    } else {
        None
    }
}

fn edit_all(alloc: Global, text: &mut Vec<u8>, edits: &str) -> bool {
    let mut rest = edits;
    for _ in 0..edits.len() {
        let (edit, after) = cut(rest, "|");
        match edited_once(alloc, text, edit) {
            Some(all) => *text = all,
            None => return false,
        }
        rest = after;
        if rest.is_empty() {
            break;
        }
    }
    true
}

/// A text after an edit `OLD => NEW`: the first OLD becomes NEW. `None` if OLD is not in it.
fn edited_once(alloc: Global, text: &[u8], edit: &str) -> Option<Vec<u8>> {
    let (old, new) = cut(edit, "=>");
    match spelled(alloc, old.trim()) {
        Some(old) => with_new(alloc, text, &old, new.trim()),
        None => None,
    }
}

fn with_new(alloc: Global, text: &[u8], old: &[u8], new: &str) -> Option<Vec<u8>> {
    match spelled(alloc, new) {
        Some(new) if text.contains_str(old) => text.replacen(alloc, old, &new, 1).ok(),
        _ => None,
    }
}

/// The path of the program, and the arguments of a line. Spaces separate them. Text between quotes is one argument, which
/// may have spaces or be empty. Error: an allocation failed.
pub fn words_of(alloc: Global, line: &[u8]) -> Result<Vec<&[u8]>, AllocError> {
    let mut words: Gathered<&[u8]> = Gathered::new(alloc);
    words.push(b"a429");
    gather_words(&mut words, line);
    words.into_vec()
}

fn gather_words<'a>(words: &mut Gathered<&'a [u8]>, line: &'a [u8]) {
    let mut rest = line;
    for _ in 0..line.len() {
        rest = match rest.strip_prefix(b"\"") {
            Some(quoted) => gather(words, quoted, b'"'),
            None => gather(words, rest, b' '),
        };
    }
}

/// Gathers the argument before a mark. The answer is the rest after the mark. Only quotes have an empty argument between them.
fn gather<'a>(words: &mut Gathered<&'a [u8]>, text: &'a [u8], mark: u8) -> &'a [u8] {
    let (word, rest) = cut_at(text, mark).unwrap_or((text, &[]));
    if mark == b'"' || !word.is_empty() {
        words.push(word);
    }
    rest
}
