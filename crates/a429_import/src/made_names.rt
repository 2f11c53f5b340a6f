//! The names that are made of texts.
ghost use Rattle.std.specs.Prelude.{◌≡◌, ℕ, ◌++◌, ◌∷◌, ◌≤◌, IfOk, List, OnOk, length, position, take};
ghost use Rattle.a429_equipment.specs.NameForm.{is_name, is_name_byte};
ghost use Rattle.a429_import.specs.MadeNames.{dashed, from_kept, in_room, in_room_or, is_kept, joined_ends, label_end, made_name, number_end, numbered_name, plain_name, shortened, without_last_dash};

use a429_text::Text;
use a429_word::{Label, Sdi};
use std::alloc::{AllocError, Global};

/// Whether a byte is a letter, a digit or an underline.
fn is_kept(byte: u8) -> bool
    ensures { result ≡ is_kept byte }
{
    matches!(byte, b'a'..=b'z' | b'A'..=b'Z' | b'0'..=b'9' | b'_')
}

fn is_name_byte(byte: u8) -> bool
    ensures { result ≡ is_name_byte byte }
{
    matches!(byte, b'a'..=b'z' | b'0'..=b'9' | b'-' | b'_')
}

/// Whether a text is a name: 1 to 16 bytes of `a` to `z`, `0` to `9`, `-` and `_`.
#[tactic(auto, unfolding(a429_equipment::specs::NameForm::is_name))]
fn is_name(text: &[u8]) -> bool
    ensures { result ≡ is_name text.now }
{
    1 <= text.len() && text.len() <= 16 && text.iter().all(|byte| is_name_byte(*byte))
}

/// The place of the first byte that a name keeps.
fn first_kept(text: &[u8]) -> Option<usize>
    ensures { result ≡ position is_kept text.now }
{
    text.iter().position(|byte| is_kept(*byte))
}

fn from_kept(text: &[u8]) -> &[u8]
    ensures { result.now ≡ from_kept text.now }
{
    match first_kept(text) {
        Some(place) => &text[place..],
        None => &[],
    }
}

/// Adds the next byte of a text, if a name keeps it, after one `-` if others came before. The answer is whether others came
/// before the byte after it.
fn push_next(name: &mut Vec<u8>, is_apart: bool, byte: u8) -> Result<bool, AllocError>
    ensures { IfOk result (λ apart. (text : List ℕ) → name.new.items ++ dashed apart text
        ≡ name.old.items ++ dashed is_apart (byte ∷ text)) }
{
    if !is_kept(byte) {
        return Ok(true);
    }
    if is_apart {
        name.push(b'-')?;
    }
    name.push(byte.to_ascii_lowercase())?;
    Ok(false)
}

/// A name without a `-` at its end.
fn cut_dash(name: &mut Vec<u8>)
    ensures { name.new.items ≡ without_last_dash name.old.items }
{
    if let Some(b'-') = name.last() {
        name.pop();
    }
}

/// Keeps some bytes of a name, without a `-` at their end.
fn cut(name: &mut Vec<u8>, bytes: usize)
    ensures { name.new.items ≡ without_last_dash (take bytes name.old.items) }
{
    name.truncate(bytes);
    cut_dash(name);
}

/// What a name keeps of a text, with one `-` for all others between two kept bytes, in 16 bytes.
fn shortened(alloc: Global, text: &[u8]) -> Result<Vec<u8>, AllocError>
    ensures { IfOk result (λ name. name.items ≡ shortened text.now) }
{
    let mut name = Vec::new(alloc);
    let kept = from_kept(text);
    let mut is_apart = false;
    for byte in kept {
        is_apart = push_next(&mut name, is_apart, *byte)?;
    }
    cut(&mut name, 16);
    Ok(name)
}

/// The name that is made of a text: a name stays. It is empty if nothing is left. Error: an allocation failed.
pub fn plain_name(alloc: Global, text: &[u8]) -> Result<Vec<u8>, AllocError>
    ensures { IfOk result (λ name. name.items ≡ plain_name text.now) }
{
    if is_name(text) {
        return Vec::from_slice(alloc, text);
    }
    shortened(alloc, text)
}

/// The name that is made of a text (profile: import): its letters in lower case, its digits and underlines, and one `-`
/// for all other characters between two of them. It has at most 16 bytes, and no `-` at its ends. A text that is a name
/// stays, and so does a text without a letter, a digit and an underline. Error: an allocation failed.
#[tactic(auto, unfolding(crate::specs::MadeNames::made_name))]
pub fn made_name(alloc: Global, text: &str) -> Result<Vec<u8>, AllocError>
    ensures { IfOk result (λ name. name.items ≡ made_name text.now) }
{
    let name = plain_name(alloc, text.as_bytes())?;
    if name.is_empty() {
        return Vec::from_slice(alloc, text.as_bytes());
    }
    Ok(name)
}

/// Adds an end to the beginning of a text, with a `-` between them.
fn join_end(start: &mut Vec<u8>, end: &[u8]) -> Result<(), AllocError>
    ensures { OnOk result (start.new.items ≡ joined_ends start.old.items end.now) }
{
    if end.is_empty() {
        return Ok(());
    }
    cut_dash(start);
    start.push(b'-')?;
    start.extend_from_slice(end)
}

/// A text in a number of bytes: if it has more, what is left of its beginning and of its last five bytes. It is empty if
/// nothing is left.
fn in_room(alloc: Global, room: usize, text: &[u8]) -> Result<Vec<u8>, AllocError>
    requires { 6 ≤ room }
    ensures { IfOk result (λ name. name.items ≡ in_room room text.now) }
{
    let mut name = shortened(alloc, text)?;
    if room < text.len() {
        let end = shortened(alloc, &text[text.len() - 5..])?;
        name.truncate(room - 6);
        join_end(&mut name, &end)?;
    }
    Ok(name)
}

/// The same; a word if nothing is left. Error: an allocation failed.
#[tactic(auto, unfolding(crate::specs::MadeNames::in_room_or))]
pub fn in_room_or(
    alloc: Global,
    word: &str,
    room: usize,
    text: &[u8],
) -> Result<Vec<u8>, AllocError>
    requires { 6 ≤ room }
    ensures { IfOk result (λ name. name.items ≡ in_room_or word.now room text.now) }
{
    let name = in_room(alloc, room, text)?;
    if name.is_empty() {
        return Vec::from_slice(alloc, word.as_bytes());
    }
    Ok(name)
}

/// Writes `-LLL`, and `-S` unless the SDI is any. Error: an allocation failed.
pub fn put_label_end(end: &mut Vec<u8>, label: Label, sdi: Option<Sdi>) -> Result<(), AllocError>
    ensures { OnOk result (end.new.items ≡ end.old.items ++ label_end label sdi) }
{
    let value = label.value();
    end.extend_from_slice(&[
        b'-',
        b'0' + value / 64,
        b'0' + value / 8 % 8,
        b'0' + value % 8,
    ])?;
    match sdi {
        Some(sdi) => end.extend_from_slice(&[b'-', b'0' + sdi.value()]),
        None => Ok(()),
    }
}

/// The number of bytes of that end.
pub fn label_end_len(sdi: Option<Sdi>) -> usize
    ensures len { (label : ℕ) → length (label_end label sdi) ≡ result }
    ensures few { result ≤ 6 }
{
    match sdi {
        Some(_) => 6,
        None => 4,
    }
}

/// Writes a number after `_`; nothing for 0.
fn put_number_end(text: &mut Text, number: u64)
    ensures { text.new ≡ text.old ++ number_end number }
{
    if number != 0 {
        text.put("_");
        text.put_number(number);
    }
}

/// The name of a number: a base, an end, and the number. The base is cut, so that the name has at most 16 bytes.
/// Error: an allocation failed.
#[tactic(auto, unfolding(crate::specs::MadeNames::numbered_name))]
pub fn numbered_name(
    alloc: Global,
    base: &[u8],
    end: &[u8],
    number: u64,
) -> Result<Vec<u8>, AllocError>
    ensures { IfOk result (λ name. name.items ≡ numbered_name base.now end.now number) }
{
    let mut text = Text::new(alloc);
    text.put_bytes(end);
    put_number_end(&mut text, number);
    let end = text.into_bytes()?;
    let mut name = Vec::from_slice(alloc, base)?;
    cut(&mut name, 16usize.saturating_sub(end.len()));
    name.extend_from_slice(&end)?;
    Ok(name)
}
