//! Scripts read into events.
ghost use Rattle.std.specs.Prelude.{◌≡◌, ◌≤◌, ◌++◌, IfErr, IfOk, IfSome, IsNone, IsTrue, codes, drop, length};
ghost use Rattle.a429_replay.specs.Kept.{BeginsWithCell, IsFaultyLine, IsWordLine, KeepsEntry, KeepsLine, KeepsScript, TakesAllTables};

use crate::kept::KeptEvent;
use crate::names::Names;
use crate::script::ScriptForm;
use a429_console::files::lines::{LinesFault, first_entry};
use a429_word::raw_word;
use std::alloc::Global;

/// The number of bytes of the shortest line, of a cell of a group whose name is one byte.
const SHORTEST: usize = 7;

/// The bytes `cell` as a number, the first lowest.
const CELL: u32 = 0x6c6c_6563;

/// Whether a text begins with the verb of a cell. Its four bytes are read as one number.
#[inline(always)]
fn has_cell(text: &[u8]) -> bool
    requires { 4 ≤ length text.now }
    ensures { IsTrue result → BeginsWithCell text.now }
{
    u32::from(text[0])
        + u32::from(text[1]) * 0x100
        + u32::from(text[2]) * 0x1_0000
        + u32::from(text[3]) * 0x100_0000
        == CELL
}

/// Whether a text begins with the verb of a cell and a space.
#[inline(always)]
fn begins_with_cell(text: &[u8]) -> bool
    ensures long { IsTrue result → 5 ≤ length text.now }
    ensures verb { IsTrue result → text.now ≡ codes "cell " ++ drop 5 text.now }
{
    text.len() >= 5 && has_cell(text) && text[4] == b' '
}

/// Whether a text begins with the verb of a frame and a space.
#[inline(always)]
fn begins_with_frame(text: &[u8]) -> bool
    ensures long { IsTrue result → 6 ≤ length text.now }
    ensures verb { IsTrue result → text.now ≡ codes "frame " ++ drop 6 text.now }
{
    text.len() >= 6
        && text[0] == b'f'
        && text[1] == b'r'
        && text[2] == b'a'
        && text[3] == b'm'
        && text[4] == b'e'
        && text[5] == b' '
}

/// Whether a text begins with the verb of an arrival and a space.
#[inline(always)]
fn begins_with_arrive(text: &[u8]) -> bool
    ensures long { IsTrue result → 7 ≤ length text.now }
    ensures verb { IsTrue result → text.now ≡ codes "arrive " ++ drop 7 text.now }
{
    text.len() >= 7
        && text[0] == b'a'
        && text[1] == b'r'
        && text[2] == b'r'
        && text[3] == b'i'
        && text[4] == b'v'
        && text[5] == b'e'
        && text[6] == b' '
}

/// The raw word that the first line of a text states, and the text after the line.
fn word_line(text: &[u8]) -> Option<(u32, &[u8])>
    ensures { IfSome result (λ p. IsWordLine text.entry.now p.0 p.1.now) }
{
    if text.len() < 9 || text[8] != b'\n' {
        return None;
    }
    Some((raw_word(&text[..8])?, &text[9..]))
}

/// Keeps the cell of a group with whose name a text begins, and gives the text after the line. `None` says nothing; then
/// nothing is kept.
#[inline(always)]
fn keep_cell<'a>(names: &Names, text: &'a [u8], kept: &mut Vec<KeptEvent>) -> Option<&'a [u8]>
    requires long { 5 ≤ length text.now }
    requires verb { text.now ≡ codes "cell " ++ drop 5 text.now }
    ensures line { IfSome result (λ rest. KeepsLine names.now text.entry.now kept.old.items kept.new.items rest.now) }
    ensures same { IsNone result → kept.new.items ≡ kept.old.items }
{
    let (group, rest) = names.group_before(&text[5..])?;
    match kept.push(KeptEvent::cell(group)) {
        Ok(()) => Some(rest),
        Err(_) => None,
    }
}

/// Keeps the frame of a group with whose name a text begins, and gives the text after the line. `None` says nothing; then
/// nothing is kept.
#[inline(always)]
fn keep_frame<'a>(names: &Names, text: &'a [u8], kept: &mut Vec<KeptEvent>) -> Option<&'a [u8]>
    requires long { 6 ≤ length text.now }
    requires verb { text.now ≡ codes "frame " ++ drop 6 text.now }
    ensures line { IfSome result (λ rest. KeepsLine names.now text.entry.now kept.old.items kept.new.items rest.now) }
    ensures same { IsNone result → kept.new.items ≡ kept.old.items }
{
    let (group, rest) = names.group_before(&text[6..])?;
    match kept.push(KeptEvent::frame(group)) {
        Ok(()) => Some(rest),
        Err(_) => None,
    }
}

/// Keeps the arrival at a receiver with whose name a text begins, and gives the text after the line. `None` says nothing;
/// then nothing is kept.
#[inline(always)]
fn keep_arrive<'a>(names: &Names, text: &'a [u8], kept: &mut Vec<KeptEvent>) -> Option<&'a [u8]>
    requires long { 7 ≤ length text.now }
    requires verb { text.now ≡ codes "arrive " ++ drop 7 text.now }
    ensures line { IfSome result (λ rest. KeepsLine names.now text.entry.now kept.old.items kept.new.items rest.now) }
    ensures same { IsNone result → kept.new.items ≡ kept.old.items }
{
    let (receiver, words) = names.receiver_before(&text[7..])?;
    let (raw, rest) = word_line(words)?;
    match kept.push(KeptEvent::arrive(receiver, raw)) {
        Ok(()) => Some(rest),
        Err(_) => None,
    }
}

/// Keeps the event of a text's first line, and gives the text after the line, if the line is quickly read. `None` says
/// nothing; then nothing is kept.
#[inline(always)]
fn keep_line<'a>(names: &Names, text: &'a [u8], kept: &mut Vec<KeptEvent>) -> Option<&'a [u8]>
    ensures line { IfSome result (λ rest. KeepsLine names.now text.entry.now kept.old.items kept.new.items rest.now) }
    ensures same { IsNone result → kept.new.items ≡ kept.old.items }
{
    if begins_with_cell(text) {
        keep_cell(names, text, kept)
    } else if begins_with_arrive(text) {
        keep_arrive(names, text, kept)
    } else if begins_with_frame(text) {
        keep_frame(names, text, kept)
    } else {
        None
    }
}

/// Keeps the event of a text's first line, whatever it is, and gives the text after the line.
#[inline(never)]
fn keep_entry<'a>(
    form: &ScriptForm<'_>,
    text: &'a [u8],
    kept: &mut Vec<KeptEvent>,
) -> Result<&'a [u8], LinesFault>
    ensures entry { IfOk result (λ rest. KeepsEntry form.now.names.now form.now.further text.entry.now
        kept.old.items kept.new.items rest.now) }
    ensures fault { IfErr result (IsFaultyLine form.now.names.now form.now.further text.entry.now kept.old.items) }
{
    let Some((event, rest)) = first_entry(form, text) else {
        let lines = kept.len();
        return Err(LinesFault::Line(lines + 1));
    };
    match kept.push(KeptEvent::of(event)) {
        Ok(()) => Ok(rest),
        Err(_) => Err(LinesFault::NoMemory),
    }
}

/// Keeps the event of a text's first line, and gives the text after the line.
#[inline(always)]
fn keep_first<'a>(
    form: &ScriptForm<'_>,
    text: &'a [u8],
    kept: &mut Vec<KeptEvent>,
) -> Result<&'a [u8], LinesFault>
    ensures entry { IfOk result (λ rest. KeepsEntry form.now.names.now form.now.further text.entry.now
        kept.old.items kept.new.items rest.now) }
    ensures fault { IfErr result (IsFaultyLine form.now.names.now form.now.further text.entry.now kept.old.items) }
{
    match keep_line(form.names, text, kept) {
        Some(rest) => Ok(rest),
        None => keep_entry(form, text, kept),
    }
}

/// The events of a script. Error: the number of its first faulty line, from 1, or an allocation failed.
pub fn read_events(
    alloc: Global,
    form: &ScriptForm<'_>,
    script: &[u8],
) -> Result<Vec<KeptEvent>, LinesFault>
    ensures read { KeepsScript form.now.names.now form.now.further script.now result }
    ensures tables { IfOk result (λ kept. TakesAllTables form.now.further kept.items) }
{
    let Ok(mut kept) = Vec::with_capacity(alloc, script.len() / SHORTEST + 1) else {
        return Err(LinesFault::NoMemory);
    };
    let mut left = script;
    while !left.is_empty() {
        match keep_first(form, left, &mut kept) {
            Ok(rest) => left = rest,
            Err(fault) => return Err(fault),
        }
    }
    Ok(kept)
}
