//! What a run of a station reports while it works.

use a429_cli::Progress;
use a429_text::Text;
use std::alloc::Global;
use std::sync::atomic::{AtomicU64, Ordering};

/// The sums of what was reported.
#[derive(Drop)]
pub struct Reported {
    announced: AtomicU64,
    sent: AtomicU64,
    accepted: AtomicU64,
    ends: AtomicU64,
}

impl Reported {
    /// Nothing was reported.
    pub fn new() -> Reported {
        Reported {
            announced: AtomicU64::new(0),
            sent: AtomicU64::new(0),
            accepted: AtomicU64::new(0),
            ends: AtomicU64::new(0),
        }
    }

    /// Whether the sums are the stated ones.
    pub fn are(&self, alloc: Global, stated: &[u8]) -> bool {
        let sums = [
            load(&self.sent),
            load(&self.announced),
            load(&self.accepted),
            load(&self.ends),
        ];
        let mut text = Text::new(alloc);
        text.fill(&["sent ", " of ", ", accepted ", ", ends ", "\n"], &sums);
        match text.as_bytes() {
            Ok(text) => text == stated,
            Err(_) => false,
        }
    }
}

fn load(sum: &AtomicU64) -> u64 {
    sum.load(Ordering::SeqCst)
}

impl Progress for Reported {
    fn begin(&self, cells: u64) {
        self.announced.fetch_add(cells, Ordering::SeqCst);
    }

    fn tell_sent(&self, cells: u64) {
        self.sent.fetch_add(cells, Ordering::SeqCst);
    }

    fn tell_accepted(&self, words: u64) {
        self.accepted.fetch_add(words, Ordering::SeqCst);
    }

    fn end(&self) {
        self.ends.fetch_add(1, Ordering::SeqCst);
    }
}
