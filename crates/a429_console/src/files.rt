//! Files by name.
ghost use Rattle.std.specs.Prelude.{◌≡◌, Bool, List, ℕ, Option, Some, None, Result, IsTrue, IfOk, Err};
ghost use Rattle.a429_logs.specs.Logs.{joined};
ghost use Rattle.a429_console.specs.Files.{bytes_of};
ghost use Rattle.a429_console.specs.Readings.{IsAnswerOf, answer_of, pieces_answer};
ghost use Rattle.a429_console.specs.declared.files.FileFault.{FileFault};

mod contents;
pub mod disk;
pub mod lines;
pub mod memory;
pub mod pieces;
pub mod reading;
pub mod shown;

use std::alloc::Global;
use thiserror::Error;

/// How many bytes a file may have: 16 MiB (profile).
pub const LARGEST_FILE: usize = 16_777_216;

/// How many bytes a log may have: 1 GiB (profile).
pub const LARGEST_LOG: usize = 1_073_741_824;

/// Why the bytes of a file cannot be read.
#[derive(Clone, Copy, Debug, PartialEq, Eq, Error)]
pub enum FileFault {
    /// There is no such file, or it cannot be read.
    #[error("refused")]
    Refused,
    /// An allocation failed.
    #[error("out of memory")]
    NoMemory,
}

/// Why a file cannot be read, for a person.
#[derive(Clone, Copy, PartialEq, Eq)]
pub enum FileTrouble {
    /// There is none of this name.
    Missing,
    /// The name is that of a folder.
    Folder,
    /// It is there, and may not be read.
    Forbidden,
    /// It has more bytes than this, which is as many as it may have.
    TooLarge(usize),
    /// Another cause, or one that the reader does not report.
    Unknown,
}

/// What gives the bytes of files by their names.
pub trait FileReader {
    /// Whether its files are known.
    ghost tells: { Self → Bool };

    /// The bytes that it has under a name.
    ghost file: { Self → List ℕ → Option (List ℕ) };

    /// One call of `read`: what it was, the name, the answer, and what it is.
    ghost answers: { Self → List ℕ → Result (List ℕ) FileFault → Self → Type 0 };

    /// All bytes of a file. A reader may refuse a file of more than `most` bytes. Error: `Refused` if there are none, or
    /// `NoMemory`.
    fn read(&mut self, name: &str, most: usize) -> Result<Vec<u8>, FileFault>
        ensures answered { answers self.old name.now (answer_of result) self.new }
        ensures bytes { IsTrue (tells self.old) → IfOk result (λ bytes. file self.old name.now ≡ Some bytes.items) }
        ensures refused { IsTrue (tells self.old) → result ≡ Err FileFault.Refused → file self.old name.now ≡ None }
        ensures tells { tells self.new ≡ tells self.old }
        ensures keeps { (other : List ℕ) → file self.new other ≡ file self.old other };

    /// All bytes of a file, in pieces: there is a line feed between each two. A reader may refuse a file of more than `most`
    /// bytes. Error: `Refused` if there are none, or `NoMemory`.
    fn read_pieces(
        &mut self,
        alloc: Global,
        name: &str,
        most: usize,
    ) -> Result<Vec<Vec<u8>>, FileFault>
        ensures answered { answers self.old name.now (pieces_answer result) self.new }
        ensures bytes { IsTrue (tells self.old)
            → IfOk result (λ pieces. file self.old name.now ≡ Some (joined (bytes_of pieces.items))) }
        ensures refused { IsTrue (tells self.old) → result ≡ Err FileFault.Refused → file self.old name.now ≡ None }
        ensures tells { tells self.new ≡ tells self.old }
        ensures keeps { (other : List ℕ) → file self.new other ≡ file self.old other };

    /// Shows how many of all bytes that were read are done, to a person who waits. No contract rests on it.
    fn show_done(&self, _done: usize, _all: usize) {}

    /// The work on what was read has ended: nothing is shown any more.
    fn show_end(&self) {}

    /// Why the file of this name, the last that was read, is refused: for a hint to a person. No contract rests on it.
    fn trouble(&self, _name: &str) -> FileTrouble {
        FileTrouble::Unknown
    }

    /// If its files are known, each answer is of these files, and it has the same files after it.
    ghost known: { (old new : Self) (name : List ℕ) (answer : Result (List ℕ) FileFault) → IsTrue (tells old) → answers old name answer new
        → IsAnswerOf (file old) name answer × ((other : List ℕ) → file new other ≡ file old other) × IsTrue (tells new) };
}
