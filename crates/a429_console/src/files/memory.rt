//! Files in memory.
ghost use Rattle.std.specs.Prelude.{◌≡◌, option_map};
ghost use Rattle.a429_console.specs.MemoryFile.{file_of};

use crate::files::pieces::in_one_piece;
use crate::files::{FileFault, FileReader, FileTrouble, LARGEST_FILE};
use std::alloc::Global;

/// Files by name. If two have one name, the first is read.
#[derive(Drop)]
pub struct MemoryFiles {
    pub files: Vec<(String, Vec<u8>)>,
}

impl FileReader for MemoryFiles {
    ghost use Rattle.std.specs.Prelude.{true, ◌≡◌, refl};
    ghost use Rattle.std.proofs.Common.{ap};
    ghost use Rattle.a429_console.specs.Readings.{IsAnswerOf};
    ghost use Rattle.a429_console.specs.MemoryFile.{file_of};

    ghost tells = { λ _. true };

    ghost file = { λ m name. file_of m.files.items name };

    ghost answers = { λ m name answer n. (n ≡ m) × IsAnswerOf (file_of m.files.items) name answer };

    ghost known = { λ m n name answer _ is. (is.1, (λ other. ap (λ k. file_of k.files.items other) is.0), refl) };

    fn read(&mut self, name: &str, _most: usize) -> Result<Vec<u8>, FileFault> {
        match find_file(&self.files, name) {
            None => Err(FileFault::Refused),
            Some(bytes) => match bytes.clone() {
                Ok(bytes) => Ok(bytes),
                Err(_) => Err(FileFault::NoMemory),
            },
        }
    }

    fn read_pieces(
        &mut self,
        alloc: Global,
        name: &str,
        most: usize,
    ) -> Result<Vec<Vec<u8>>, FileFault> {
        in_one_piece(alloc, self.read(name, most))
    }

    fn trouble(&self, name: &str) -> FileTrouble {
        match find_file(&self.files, name) {
            None => FileTrouble::Missing,
            Some(bytes) if bytes.len() > LARGEST_FILE => FileTrouble::TooLarge(LARGEST_FILE),
            Some(_) => FileTrouble::Unknown,
        }
    }
}

fn find_file<'a>(files: &'a [(String, Vec<u8>)], name: &str) -> Option<&'a Vec<u8>>
    ensures { option_map (λ v. v.now.items) result ≡ file_of files.entry.now name.now }
{
    let (_, bytes) = files.iter().find(|file| file.0.as_str() == name)?;
    Some(bytes)
}
