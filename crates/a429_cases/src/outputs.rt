//! Outputs in memory, which may fail.

use a429_cli::CountedWriter;
use std::alloc::Global;
use std::io;
use std::io::{ErrorKind, Write};

/// An output in memory: what it took, its calls, and whether the last one was a flush. Flushes are calls too.
#[derive(Drop)]
pub struct Taken {
    pub bytes: Vec<u8>,
    pub calls: usize,
    pub is_flushed: bool,
    /// How many bytes it takes in one call.
    piece: usize,
    /// After how many calls it fails, and how.
    good_calls: usize,
    kind: ErrorKind,
}

/// An output in memory that takes this number of bytes in one call, and fails after this number of calls.
pub fn output(
    alloc: Global,
    piece: usize,
    good_calls: usize,
    kind: ErrorKind,
) -> CountedWriter<Taken> {
    CountedWriter::new(Taken {
        bytes: Vec::new(alloc),
        calls: 0,
        is_flushed: false,
        piece,
        good_calls,
        kind,
    })
}

impl Taken {
    /// Whether it failed after this number of calls, and has the beginning of what the other took.
    pub fn is_cut_from(&self, all: &Taken, good_calls: usize) -> bool {
        self.calls == good_calls.saturating_add(1) && all.bytes.starts_with(&self.bytes)
    }

    /// Counts a call. `false` if it fails.
    fn is_good_call(&mut self, is_flush: bool) -> bool {
        self.calls = self.calls.saturating_add(1);
        self.is_flushed = is_flush;
        self.calls <= self.good_calls
    }
}

impl Write for Taken {
    fn write(&mut self, buf: &[u8]) -> io::Result<usize> {
        if !self.is_good_call(false) {
            return Err(io::Error::from(self.kind));
        }
        let count = self.piece.min(buf.len());
        match self.bytes.extend_from_slice(&buf[..count]) {
            Ok(()) => Ok(count),
            Err(error) => Err(io::Error::from(error)),
        }
    }

    fn flush(&mut self) -> io::Result<()> {
        if self.is_good_call(true) {
            Ok(())
        } else {
            Err(io::Error::from(self.kind))
        }
    }
}
