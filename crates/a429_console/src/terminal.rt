//! One line on a terminal that shows how far the work is.
ghost use Rattle.std.specs.Prelude.{◌≡◌};
ghost use Rattle.a429_word.specs.Written.{Gains};
ghost use Rattle.a429_console.specs.Shown.{left_of, rest_text, share_of};

use std::alloc::Global;
use std::io;
use std::io::Write;
use std::rt::Clock;
use std::sync::atomic::{AtomicU64, Ordering};

/// For how long nothing is shown, in milliseconds.
const PATIENCE: u64 = 1000;

/// The shortest time from one line to the next, in milliseconds.
const INTERVAL: u64 = 200;

/// A line that comes a second after the work began, is written again while the work goes on, and is wiped at its end. If the
/// clock, the terminal or an allocation fails, nothing is shown.
#[derive(Drop)]
pub struct TerminalLine<'a, C, W> {
    alloc: Global,
    clock: &'a C,
    terminal: W,
    /// When the work began, and when the last line was written, in milliseconds from 1; 0: it did not, or none was.
    begun: AtomicU64,
    shown: AtomicU64,
}

/// How much of all is done, in per cent.
fn share_of(done: u64, all: u64) -> u128
    ensures { result ≡ share_of done all }
{
    if all == 0 {
        return 0;
    }
    100 * u128::from(done) / u128::from(all)
}

/// How long the rest takes, in seconds, if it goes on as in these milliseconds.
fn left_of(done: u64, all: u64, spent: u32) -> u128
    ensures { result ≡ left_of done all spent }
{
    if done == 0 {
        return 0;
    }
    u128::from(spent) * u128::from(all.saturating_sub(done)) / u128::from(done) / 1000
}

/// Appends the share that is done, and the time that is left after these milliseconds. Error: an allocation fails.
pub fn push_rest(text: &mut Vec<u8>, done: u64, all: u64, spent: u32) -> io::Result<()>
    ensures { Gains result text.old.items text.new.items (rest_text done all spent) }
{
    let (share, left) = (share_of(done, all), left_of(done, all, spent));
    write!(text, "{share} %, {left} s left")
}

impl<'a, C: Clock, W: Write + Copy> TerminalLine<'a, C, W> {
    /// A line on this terminal, by this clock.
    pub fn new(alloc: Global, clock: &'a C, terminal: W) -> TerminalLine<'a, C, W> {
        TerminalLine {
            alloc,
            clock,
            terminal,
            begun: AtomicU64::new(0),
            shown: AtomicU64::new(0),
        }
    }

    /// The time in milliseconds, from 1. 0: the clock failed.
    fn now(&self) -> u64 {
        match self.clock.monotonic() {
            Ok(time) => (time.as_secs().saturating_mul(1000))
                .saturating_add(u64::from(time.subsec_millis()))
                .max(1),
            Err(_) => 0,
        }
    }

    /// Notes when the work began, unless it has begun before.
    pub fn begin(&self) {
        if self.begun.load(Ordering::Relaxed) == 0 {
            self.begun.store(self.now(), Ordering::Relaxed);
        }
    }

    /// For how many milliseconds the work has gone on, if the line is due. Then it counts as written.
    pub fn due(&self) -> Option<u32> {
        self.begin();
        let now = self.now();
        let spent = now.saturating_sub(self.begun.load(Ordering::Relaxed));
        let since = now.saturating_sub(self.shown.load(Ordering::Relaxed));
        if spent < PATIENCE || since < INTERVAL {
            return None;
        }
        self.shown.store(now, Ordering::Relaxed);
        Some(u32::try_from(spent).unwrap_or(u32::MAX))
    }

    /// What a line begins with. Error: an allocation fails.
    pub fn start(&self) -> io::Result<Vec<u8>> {
        let mut text = Vec::new(self.alloc);
        text.push(b'\r')?;
        Ok(text)
    }

    /// Writes the line over the one before, in one piece.
    pub fn write(&self, mut text: Vec<u8>) -> io::Result<()> {
        text.extend_from_slice(b"\x1b[K")?;
        let mut terminal = self.terminal;
        terminal.write_all(&text)
    }

    /// Wipes the line. The work has ended.
    pub fn end(&self) {
        if self.shown.load(Ordering::Relaxed) != 0 {
            let mut terminal = self.terminal;
            let _ = terminal.write_all(b"\r\x1b[K");
        }
        self.shown.store(0, Ordering::Relaxed);
        self.begun.store(0, Ordering::Relaxed);
    }
}
