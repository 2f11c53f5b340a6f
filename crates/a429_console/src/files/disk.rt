//! Files of the system.

use crate::files::pieces::read_in_pieces;
use crate::files::{FileFault, FileReader, FileTrouble};
use std::alloc::Global;
use std::fs::File;
use std::io;
use std::io::{ErrorKind, Input, Read};
use std::rt::Files;

/// The system's files, by their paths. `-` is what the program is given on its standard input, once. A missing file, a
/// directory, and a file of more bytes than it may have are refused. Reading stops as soon as a file is too large.
#[derive(Drop)]
pub struct DiskFiles<'a, R: Files + Input + AllocGlobal> {
    rt: &'a R,
    /// Whether the standard input was read.
    is_input_read: bool,
    trouble: FileTrouble,
}

impl<'a, R: Files + Input + AllocGlobal> DiskFiles<'a, R> {
    /// The files that this runtime reaches.
    pub fn new(rt: &'a R) -> DiskFiles<'a, R> {
        DiskFiles {
            rt,
            is_input_read: false,
            trouble: FileTrouble::Unknown,
        }
    }

    /// The bytes of a file. `None` if there are more than `most`.
    fn read_file(&mut self, name: &str, most: usize) -> io::Result<Option<Vec<u8>>> {
        if name != "-" {
            return read_whole(self.rt.alloc(), File::open(self.rt, name)?, most);
        }
        self.begin_input()?;
        read_whole(self.rt.alloc(), self.rt.reader(), most)
    }

    /// The bytes of a file in pieces. `None` if there are more than `most`.
    fn read_file_in_pieces(
        &mut self,
        alloc: Global,
        name: &str,
        most: usize,
    ) -> io::Result<Option<Vec<Vec<u8>>>> {
        if name != "-" {
            return read_in_pieces(alloc, File::open(self.rt, name)?, most);
        }
        self.begin_input()?;
        read_in_pieces(alloc, self.rt.reader(), most)
    }

    /// Notes that the standard input is read. Error: it was read before.
    fn begin_input(&mut self) -> io::Result<()> {
        if self.is_input_read {
            return Err(io::Error::from(ErrorKind::NotFound));
        }
        self.is_input_read = true;
        Ok(())
    }

    /// The answer to the name of a file of which this was read. The file has at most `most` bytes if anything was.
    fn answer<T: Drop>(
        &mut self,
        read: io::Result<Option<T>>,
        most: usize,
    ) -> Result<T, FileFault> {
        match read {
            Ok(Some(contents)) => Ok(contents),
            Ok(None) => {
                self.trouble = FileTrouble::TooLarge(most);
                Err(FileFault::Refused)
            }
            Err(error) => {
                self.trouble = trouble_of(error.kind());
                Err(fault_of(error.kind()))
            }
        }
    }
}

/// The bytes that are left of a reader. `None` if there are more than `most`: the rest of them is not read.
fn read_whole<I: Read + Drop>(
    alloc: Global,
    reader: I,
    most: usize,
) -> io::Result<Option<Vec<u8>>> {
    let mut bytes = Vec::new(alloc);
    reader
        .take((most as u64).saturating_add(1))
        .read_to_end(&mut bytes)?;
    if bytes.len() > most {
        return Ok(None);
    }
    Ok(Some(bytes))
}

impl<R: Files + Input + AllocGlobal> FileReader for DiskFiles<'_, R> {
    ghost use Rattle.std.specs.Prelude.{false, None, ⊤};
    ghost use Rattle.a429_console.specs.Readings.{not_told};

    ghost tells = { λ _. false };

    ghost file = { λ _ _. None };

    ghost answers = { λ _ _ _ _. ⊤ };

    ghost known = { λ _ _ _ _ told _. not_told told };

    fn read(&mut self, name: &str, most: usize) -> Result<Vec<u8>, FileFault> {
        let read = self.read_file(name, most);
        self.answer(read, most)
    }

    fn read_pieces(
        &mut self,
        alloc: Global,
        name: &str,
        most: usize,
    ) -> Result<Vec<Vec<u8>>, FileFault> {
        let read = self.read_file_in_pieces(alloc, name, most);
        self.answer(read, most)
    }

    fn trouble(&self, _name: &str) -> FileTrouble {
        self.trouble
    }
}

/// The fault of a file that the system refused.
fn fault_of(kind: ErrorKind) -> FileFault {
    match kind {
        ErrorKind::OutOfMemory => FileFault::NoMemory,
        _ => FileFault::Refused,
    }
}

/// Why the system refused a file.
fn trouble_of(kind: ErrorKind) -> FileTrouble {
    match kind {
        ErrorKind::NotFound => FileTrouble::Missing,
        ErrorKind::IsADirectory => FileTrouble::Folder,
        ErrorKind::PermissionDenied => FileTrouble::Forbidden,
        _ => FileTrouble::Unknown,
    }
}
