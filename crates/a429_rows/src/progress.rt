//! The lines that show the progress of a run, and of the work on files.

use a429_console::files::FileReader;
use a429_console::files::memory::MemoryFiles;
use a429_console::files::shown::ShownFiles;
use a429_live::{Progress, ProgressLine};
use std::io;
use std::io::Write;
use std::rt::Clock;
use std::sync::atomic::{AtomicU64, Ordering};
use std::time::Duration;

/// Counts the pieces that are written to it, and their bytes.
#[derive(Clone, Copy)]
struct Screen<'a> {
    pieces: &'a AtomicU64,
    bytes: &'a AtomicU64,
}

impl Screen<'_> {
    /// Whether this number of pieces was written, of this number of bytes together.
    fn shows(&self, pieces: u64, bytes: u64) -> bool {
        self.pieces.load(Ordering::SeqCst) == pieces && self.bytes.load(Ordering::SeqCst) == bytes
    }
}

impl Write for Screen<'_> {
    fn write(&mut self, buf: &[u8]) -> io::Result<usize> {
        self.pieces.fetch_add(1, Ordering::SeqCst);
        self.bytes.fetch_add(buf.len() as u64, Ordering::SeqCst);
        Ok(buf.len())
    }

    fn flush(&mut self) -> io::Result<()> {
        Ok(())
    }
}

/// A clock that a test sets, in milliseconds.
#[derive(Drop)]
struct SetClock {
    millis: AtomicU64,
}

impl Clock for SetClock {
    fn monotonic(&self) -> io::Result<Duration> {
        Ok(Duration::from_millis(self.millis.load(Ordering::SeqCst)))
    }

    fn since_1970(&self) -> io::Result<Duration> {
        self.monotonic()
    }
}

/// Whether nothing is shown for a second, then a line, and the next one after 200 ms.
fn is_run_shown(line: &impl Progress, clock: &SetClock, screen: &Screen<'_>) -> bool {
    clock.millis.store(5000, Ordering::SeqCst);
    line.begin(8192);
    line.tell_accepted(4096);
    clock.millis.store(5999, Ordering::SeqCst);
    line.tell_sent(1024);
    let is_silent = screen.shows(0, 0);
    clock.millis.store(6000, Ordering::SeqCst);
    line.tell_sent(1024);
    // "\rcells sent 2048 of 8192, words accepted 4096, 25 %, 3 s left\x1b[K"
    let is_shown = screen.shows(1, 64);
    clock.millis.store(6199, Ordering::SeqCst);
    line.tell_sent(2048);
    let is_kept = screen.shows(1, 64);
    clock.millis.store(6200, Ordering::SeqCst);
    line.tell_sent(4096);
    // "\rcells sent 8192 of 8192, words accepted 4096, 100 %, 0 s left\x1b[K"
    is_silent && is_shown && is_kept && screen.shows(2, 129)
}

#[test]
fn a_run_is_shown_after_a_second_and_wiped(rt: HostRuntime) {
    let (pieces, bytes) = (AtomicU64::new(0), AtomicU64::new(0));
    let screen = Screen {
        pieces: &pieces,
        bytes: &bytes,
    };
    let clock = SetClock {
        millis: AtomicU64::new(0),
    };
    let line = ProgressLine::new(rt.alloc(), &clock, screen);
    let is_shown = is_run_shown(&line, &clock, &screen);
    line.end();
    drop(line);
    assert!(rt; is_shown && screen.shows(3, 133));
}

/// Whether nothing is shown for a second, then a line, and the next one after 200 ms.
fn is_shown_after_a_second(files: &impl FileReader, clock: &SetClock, screen: &Screen<'_>) -> bool {
    clock.millis.store(5000, Ordering::SeqCst);
    files.show_done(1 << 19, 1 << 22);
    clock.millis.store(5999, Ordering::SeqCst);
    files.show_done(1 << 20, 1 << 22);
    let is_silent = screen.shows(0, 0);
    clock.millis.store(6000, Ordering::SeqCst);
    files.show_done(1 << 20, 1 << 22);
    // "\r1 of 4 MiB, 25 %, 3 s left\x1b[K"
    let is_shown = screen.shows(1, 30);
    clock.millis.store(6199, Ordering::SeqCst);
    files.show_done(2 << 20, 1 << 22);
    let is_kept = screen.shows(1, 30);
    clock.millis.store(6200, Ordering::SeqCst);
    files.show_done(2 << 20, 1 << 22);
    is_silent && is_shown && is_kept && screen.shows(2, 60)
}

#[test]
fn work_on_files_is_shown_after_a_second_and_wiped(rt: HostRuntime) {
    let (pieces, bytes) = (AtomicU64::new(0), AtomicU64::new(0));
    let screen = Screen {
        pieces: &pieces,
        bytes: &bytes,
    };
    let clock = SetClock {
        millis: AtomicU64::new(0),
    };
    let none = MemoryFiles {
        files: Vec::new(rt.alloc()),
    };
    let files = ShownFiles::new(rt.alloc(), none, &clock, screen);
    let is_shown = is_shown_after_a_second(&files, &clock, &screen);
    files.show_end();
    files.show_end();
    drop(files);
    assert!(rt; is_shown && screen.shows(3, 64));
}
