//! What is kept of a file that was read.
ghost use Rattle.std.specs.Prelude.{◌≡◌, List, ℕ, length, nat_le};
ghost use Rattle.a429_logs.specs.Logs.{joined};
ghost use Rattle.a429_console.specs.Files.{bytes_of};
ghost use Rattle.a429_console.specs.Readings.{answer_by};

use crate::files::{FileFault, FileReader};
use std::alloc::Global;

/// What is kept of a file: its bytes as a whole, or in pieces.
pub(super) trait Contents: Drop {
    /// The bytes of the file.
    ghost text: { Self → List ℕ };

    /// Asks a reader for a file. Error: that of the reader.
    fn ask<F: FileReader>(
        alloc: Global,
        files: &mut F,
        name: &str,
        most: usize,
    ) -> Result<Self, FileFault>
        ensures { F.answers files.old name.now (answer_by text result) files.new };

    /// Whether the file has at most `most` bytes.
    fn has_at_most(&self, most: usize) -> bool
        ensures { result ≡ nat_le (length (text self.now)) most };
}

impl Contents for Vec<u8> {
    ghost text = { λ bytes. bytes.items };

    fn ask<F: FileReader>(
        _alloc: Global,
        files: &mut F,
        name: &str,
        most: usize,
    ) -> Result<Vec<u8>, FileFault> {
        files.read(name, most)
    }

    fn has_at_most(&self, most: usize) -> bool {
        self.len() <= most
    }
}

impl Contents for Vec<Vec<u8>> {
    ghost use Rattle.a429_logs.specs.Logs.{joined};
    ghost use Rattle.a429_console.specs.Files.{bytes_of};

    ghost text = { λ pieces. joined (bytes_of pieces.items) };

    fn ask<F: FileReader>(
        alloc: Global,
        files: &mut F,
        name: &str,
        most: usize,
    ) -> Result<Vec<Vec<u8>>, FileFault> {
        files.read_pieces(alloc, name, most)
    }

    fn has_at_most(&self, most: usize) -> bool {
        have_at_most(self, most)
    }
}

/// Whether pieces have at most `most` bytes, with a line feed between each two.
fn have_at_most(pieces: &[Vec<u8>], most: usize) -> bool
    ensures { result ≡ nat_le (length (joined (bytes_of pieces.now))) most }
{
    let (mut left, mut rest) = (most, pieces);
    while let Some((piece, others)) = rest.split_first() {
        if others.is_empty() {
            return piece.len() <= left;
        }
        if piece.len() >= left {
            return false;
        }
        left -= piece.len() + 1;
        rest = others;
    }
    true
}
