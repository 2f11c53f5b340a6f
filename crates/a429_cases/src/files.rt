//! The files that a command finds.
ghost use Rattle.std.specs.Prelude.{◌<◌, IfSome, length};

use crate::parts::find_file;
use a429_cli::{FileFault, FileReader, FileTrouble, MemoryFiles};
use std::alloc::{AllocError, Global};

/// What no file is named.
const NO_TEXT: &[u8] = b"\xff";

/// The text of a file for which memory runs out.
const NO_MEMORY: &[u8] = b"\xffno memory";

/// How many lines a piece of a file has.
const PIECE: usize = 3;

/// Files in memory.
#[derive(Drop)]
pub struct CaseFiles<'a> {
    alloc: Global,
    files: &'a MemoryFiles,
    /// The arguments that may name a file. A read takes the argument of its name away.
    unread: Vec<&'a [u8]>,
    /// Whether a file was read more often than the arguments name it.
    pub has_reread: bool,
}

impl<'a> CaseFiles<'a> {
    /// The files of a command with these arguments.
    pub fn new(alloc: Global, files: &'a MemoryFiles, words: &[&'a [u8]]) -> CaseFiles<'a> {
        let mut unread = Vec::new(alloc);
        let has_reread = unread.extend_from_slice(words).is_err();
        CaseFiles {
            alloc,
            files,
            unread,
            has_reread,
        }
    }

    /// The bytes of a file that a command reads.
    fn find(&mut self, name: &str) -> Result<&'a [u8], FileFault> {
        if !mark_read(&mut self.unread, name) {
            self.has_reread = true;
        }
        match find_file(self.files, name) {
            Some(bytes) if bytes == NO_MEMORY => Err(FileFault::NoMemory),
            Some(bytes) => Ok(bytes),
            None => Err(FileFault::Refused),
        }
    }
}

/// Takes the argument of this name away. `false` if there is none.
fn mark_read(unread: &mut [&[u8]], name: &str) -> bool {
    for place in 0..unread.len() {
        if is_named(unread[place], name) {
            unread[place] = NO_TEXT;
            return true;
        }
    }
    false
}

/// Whether an argument is the name of a file, alone or after `--OPTION=`.
fn is_named(word: &[u8], name: &str) -> bool {
    match word.strip_suffix(name.as_bytes()) {
        Some(option) => option.is_empty() || option.starts_with(b"--") && option.ends_with(b"="),
        None => false,
    }
}

impl FileReader for CaseFiles<'_> {
    ghost use Rattle.std.specs.Prelude.{false, None, ⊤};
    ghost use Rattle.a429_console.specs.Readings.{not_told};

    ghost tells = { λ _. false };

    ghost file = { λ _ _. None };

    ghost answers = { λ _ _ _ _. ⊤ };

    ghost known = { λ _ _ _ _ told _. not_told told };

    fn read(&mut self, name: &str, _most: usize) -> Result<Vec<u8>, FileFault> {
        match Vec::from_slice(self.alloc, self.find(name)?) {
            Ok(bytes) => Ok(bytes),
            Err(_) => Err(FileFault::NoMemory),
        }
    }

    fn read_pieces(
        &mut self,
        alloc: Global,
        name: &str,
        _most: usize,
    ) -> Result<Vec<Vec<u8>>, FileFault> {
        match in_pieces(alloc, self.find(name)?) {
            Ok(pieces) => Ok(pieces),
            Err(_) => Err(FileFault::NoMemory),
        }
    }

    fn trouble(&self, name: &str) -> FileTrouble {
        self.files.trouble(name)
    }
}

/// The bytes of a file in pieces of a few lines each.
fn in_pieces(alloc: Global, bytes: &[u8]) -> Result<Vec<Vec<u8>>, AllocError> {
    let mut pieces = Vec::new(alloc);
    let mut rest = bytes;
    for _ in 0..bytes.len() {
        let Some(at) = piece_end(rest) else {
            break;
        };
        pieces.push(Vec::from_slice(alloc, &rest[..at])?)?;
        rest = &rest[at + 1..];
    }
    pieces.push(Vec::from_slice(alloc, rest)?)?;
    Ok(pieces)
}

/// The place of the line feed that ends the first piece of a text. `None` if all of the text is one piece.
fn piece_end(text: &[u8]) -> Option<usize>
    ensures { IfSome result (λ at. at < length text.now) }
{
    let mut left = PIECE;
    for at in 0..text.len() {
        if text[at] == b'\n' {
            left = left.saturating_sub(1);
            if left == 0 {
                return Some(at);
            }
        }
    }
    None
}
