//! The bytes of a part of a case, and the files that have them.

use crate::spelling::{after, cut, edited, number_before, spelled};
use a429_cli::MemoryFiles;
use a429_text::Text;
use std::alloc::Global;

/// The bytes of the file of this name. `None` if there is none.
pub fn find_file<'a>(files: &'a MemoryFiles, name: &str) -> Option<&'a [u8]> {
    for (known, bytes) in &files.files {
        if known.as_str() == name {
            return Some(bytes.as_slice());
        }
    }
    None
}

/// Keeps a file under its name. `None` if there are no bytes, if there is a file of this name, or if an allocation failed.
pub fn keep_file(
    alloc: Global,
    files: &mut MemoryFiles,
    name: &str,
    bytes: Option<Vec<u8>>,
) -> Option<()> {
    let bytes = bytes?;
    if find_file(files, name).is_some() {
        return None;
    }
    match String::from_str(alloc, name) {
        Ok(name) => files.files.push((name, bytes)).ok(),
        Err(_) => None,
    }
}

/// The name at the beginning of a part, and the rest of the part, which says what the part has.
pub fn name_and_form(part: &str) -> (&str, &str) {
    let end = part.find([' ', '\n']).unwrap_or(part.len());
    part.split_at_checked(end).unwrap_or((part, ""))
}

/// The bytes of a part, of which this follows the name: spelled, of a shared text, or lines. `None` if it is none of these.
pub fn part_bytes(alloc: Global, texts: &MemoryFiles, form: &str) -> Option<Vec<u8>> {
    match after(form, " ") {
        Some(form) => formed_bytes(alloc, texts, form),
        None => lines_bytes(alloc, form),
    }
}

/// The bytes of `has SPELLED`, or of `is TEXT`.
fn formed_bytes(alloc: Global, texts: &MemoryFiles, form: &str) -> Option<Vec<u8>> {
    let (kind, text) = cut(form, " ");
    match kind {
        "has" => spelled(alloc, text),
        "is" => shared_bytes(alloc, texts, text),
        _ => None,
    }
}

/// The bytes of lines, each with its line feed. The first line is that of the name.
fn lines_bytes(alloc: Global, form: &str) -> Option<Vec<u8>> {
    let mut bytes = Text::new(alloc);
    if put_lines(alloc, &mut bytes, cut(form, "\n").1) {
        bytes.into_bytes().ok()
    } else {
        None
    }
}

/// Writes lines. `false` if memory runs out for a spelled one.
fn put_lines(alloc: Global, bytes: &mut Text, lines: &str) -> bool {
    let mut rest = lines;
    for _ in 0..lines.len() {
        if rest.is_empty() {
            break;
        }
        let (line, after) = cut(rest, "\n");
        if !put_line(alloc, bytes, line) {
            return false;
        }
        rest = after;
    }
    true
}

/// Writes a line. If it begins with a backslash, the rest of it is spelled and has no line feed.
fn put_line(alloc: Global, bytes: &mut Text, line: &str) -> bool {
    match after(line, "\\") {
        Some(text) => put_spelled(alloc, bytes, text),
        None => {
            bytes.put(line);
            bytes.put("\n");
            true
        }
    }
}

fn put_spelled(alloc: Global, bytes: &mut Text, text: &str) -> bool {
    match spelled(alloc, text) {
        Some(text) => {
            bytes.put_bytes(&text);
            true
        }
        None => false,
    }
}

/// The bytes of `NAME`, of `NAME with EDITS`, or of `N bytes of NAME`.
fn shared_bytes(alloc: Global, texts: &MemoryFiles, text: &str) -> Option<Vec<u8>> {
    let (name, edits) = cut(text, " with ");
    match named_bytes(texts, name) {
        Some(bytes) => edited(alloc, bytes, edits),
        None => None,
    }
}

/// The bytes of `NAME`, or of `N bytes of NAME`.
fn named_bytes<'a>(texts: &'a MemoryFiles, text: &str) -> Option<&'a [u8]> {
    let (count, name) = number_before(text, " bytes of ", usize::MAX);
    match find_file(texts, name) {
        Some(bytes) if count < usize::MAX => bytes.get(..count),
        bytes => bytes,
    }
}
