//! What was played.

use crate::parts::{keep_file, name_and_form, part_bytes};
use crate::spelling::after;
use a429_cli::MemoryFiles;
use a429_text::Text;
use std::alloc::Global;

/// The texts that cases share, the number of cases, and what failed.
pub struct Played {
    alloc: Global,
    pub texts: MemoryFiles,
    pub cases: u64,
    pub failed: Text,
}

impl Drop for Played {
    fn drop(self) {
        let Self {
            alloc: _,
            texts: _,
            cases: _,
            failed: _,
        } = self;
    }
}

impl Played {
    /// Nothing was played.
    pub fn new(alloc: Global) -> Played {
        Played {
            alloc,
            texts: MemoryFiles {
                files: Vec::new(alloc),
            },
            cases: 0,
            failed: Text::new(alloc),
        }
    }

    /// Keeps the text of a file under its name: its path without the folder.
    pub fn keep(&mut self, path: &str, text: &str) {
        let name = after(path, "data/").unwrap_or(path);
        let bytes = Vec::from_slice(self.alloc, text.as_bytes()).ok();
        self.keep_bytes(name, bytes);
    }

    /// Keeps the text `NAME FORM` that cases share.
    pub fn share(&mut self, part: &str) {
        let (name, form) = name_and_form(part.trim_end_matches('\n'));
        let bytes = part_bytes(self.alloc, &self.texts, form);
        self.keep_bytes(name, bytes);
    }

    fn keep_bytes(&mut self, name: &str, bytes: Option<Vec<u8>>) {
        if keep_file(self.alloc, &mut self.texts, name, bytes).is_none() {
            self.failed
                .fill(&["=== text ", name, "\ncannot be kept\n"], &[]);
        }
    }

    /// Adds the number of cases to the lines on what failed. The answer is `true` if nothing failed.
    pub fn end(&mut self) -> bool {
        let are_met = self.lines().is_empty();
        self.failed
            .fill(&["", " cases were played\n"], &[self.cases]);
        are_met
    }

    /// The lines on what failed. A failed case is written as a case has it.
    pub fn lines(&self) -> &[u8] {
        self.failed.as_bytes().unwrap_or(b"memory ran out\n")
    }
}
