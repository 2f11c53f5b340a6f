//! Files whose work is shown on a terminal.
ghost use Rattle.a429_word.specs.Written.{Gains};
ghost use Rattle.a429_console.specs.Shown.{done_line};

use crate::files::{FileFault, FileReader, FileTrouble};
use crate::terminal::{TerminalLine, push_rest};
use std::alloc::Global;
use std::io;
use std::io::Write;
use std::rt::Clock;

/// The bytes of a MiB.
const MEBIBYTE: u64 = 1 << 20;

/// Files of which a terminal shows how much is done, in one line.
#[derive(Drop)]
pub struct ShownFiles<'a, F, C, W> {
    files: F,
    line: TerminalLine<'a, C, W>,
}

/// Appends the text of the line. Error: an allocation fails.
fn push_line(text: &mut Vec<u8>, done: u64, all: u64, spent: u32) -> io::Result<()>
    ensures { Gains result text.old.items text.new.items (done_line done all spent) }
{
    let (done_mib, all_mib) = (done / MEBIBYTE, all / MEBIBYTE);
    write!(text, "{done_mib} of {all_mib} MiB, ")?;
    push_rest(text, done, all, spent)
}

impl<'a, F: FileReader, C: Clock, W: Write + Copy> ShownFiles<'a, F, C, W> {
    /// These files, with this clock and this terminal.
    pub fn new(alloc: Global, files: F, clock: &'a C, terminal: W) -> ShownFiles<'a, F, C, W> {
        ShownFiles {
            files,
            line: TerminalLine::new(alloc, clock, terminal),
        }
    }

    /// Writes the line.
    fn show(&self, done: usize, all: usize, spent: u32) -> io::Result<()> {
        let mut text = self.line.start()?;
        push_line(&mut text, done as u64, all as u64, spent)?;
        self.line.write(text)
    }
}

impl<F: FileReader, C: Clock, W: Write + Copy> FileReader for ShownFiles<'_, F, C, W> {
    ghost tells = { λ shown. F.tells shown.files };

    ghost file = { λ shown. F.file shown.files };

    ghost answers = { λ old name answer new. F.answers old.files name answer new.files };

    ghost known = { λ old new name answer told is. F.known old.files new.files name answer told is };

    fn read(&mut self, name: &str, most: usize) -> Result<Vec<u8>, FileFault> {
        self.line.begin();
        self.files.read(name, most)
    }

    fn read_pieces(
        &mut self,
        alloc: Global,
        name: &str,
        most: usize,
    ) -> Result<Vec<Vec<u8>>, FileFault> {
        self.line.begin();
        self.files.read_pieces(alloc, name, most)
    }

    fn show_done(&self, done: usize, all: usize) {
        if let Some(spent) = self.line.due() {
            let _ = self.show(done, all, spent);
        }
    }

    fn show_end(&self) {
        self.line.end();
    }

    fn trouble(&self, name: &str) -> FileTrouble {
        self.files.trouble(name)
    }
}
