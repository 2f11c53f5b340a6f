//! Files as the page passes them.
ghost use Rattle.std.specs.Prelude.{◌≡◌, option_map, position};
ghost use Rattle.std.specs.Str.{bytes_eq};
ghost use Rattle.a429_arguments.specs.Texts.{texts_of};
ghost use Rattle.a429_page.specs.Parts.{file_in};

use a429_cli::{FileFault, FileReader, FileTrouble, LARGEST_FILE, in_one_piece};
use std::alloc::Global;

/// Files in memory: the bytes of each are at the place that its name has among the names. If two have one name, the first
/// is read.
#[derive(Drop)]
pub(crate) struct PassedFiles<'a, 'b> {
    pub(crate) alloc: Global,
    pub(crate) names: &'a [&'b [u8]],
    pub(crate) files: &'a [&'b [u8]],
}

impl FileReader for PassedFiles<'_, '_> {
    ghost use Rattle.std.specs.Prelude.{true, ◌≡◌, refl};
    ghost use Rattle.std.proofs.Common.{ap};
    ghost use Rattle.a429_console.specs.Readings.{IsAnswerOf};
    ghost use Rattle.a429_arguments.specs.Texts.{texts_of};
    ghost use Rattle.a429_page.specs.Parts.{file_in};

    ghost tells = { λ _. true };

    ghost file = { λ p name. file_in (texts_of p.names.now) (texts_of p.files.now) name };

    ghost answers = { λ p name answer q. (q ≡ p)
        × IsAnswerOf (file_in (texts_of p.names.now) (texts_of p.files.now)) name answer };

    ghost known = { λ p q name answer _ is.
        (is.1, (λ other. ap (λ k. file_in (texts_of k.names.now) (texts_of k.files.now) other) is.0), refl) };

    fn read(&mut self, name: &str, _most: usize) -> Result<Vec<u8>, FileFault> {
        match find_file(self.names, self.files, name) {
            None => Err(FileFault::Refused),
            Some(bytes) => match Vec::from_slice(self.alloc, bytes) {
                Ok(bytes) => Ok(bytes),
                Err(_) => Err(FileFault::NoMemory),
            },
        }
    }

    fn read_pieces(
        &mut self,
        alloc: Global,
        name: &str,
        most: usize,
    ) -> Result<Vec<Vec<u8>>, FileFault> {
        in_one_piece(alloc, self.read(name, most))
    }

    fn trouble(&self, name: &str) -> FileTrouble {
        match find_file(self.names, self.files, name) {
            None => FileTrouble::Missing,
            Some(bytes) if bytes.len() > LARGEST_FILE => FileTrouble::TooLarge(LARGEST_FILE),
            Some(_) => FileTrouble::Unknown,
        }
    }
}

/// The place of the first of these names that is this one.
fn place_of(names: &[&[u8]], name: &[u8]) -> Option<usize>
    ensures { result ≡ position (λ other. bytes_eq other name.now) (texts_of names.now) }
{
    names.iter().position(|other| *other == name)
}

/// The bytes of the file of this name.
fn find_file<'b>(names: &[&[u8]], files: &[&'b [u8]], name: &str) -> Option<&'b [u8]>
    ensures { option_map (λ bytes. bytes.now) result ≡ file_in (texts_of names.now) (texts_of files.now) name.now }
{
    let place = place_of(names, name.as_bytes())?;
    files.get(place).copied()
}
