//! What a command answers that prints nothing before it has its whole answer.
ghost use Rattle.std.specs.Prelude.{◌≤◌};

mod putting;

use crate::answered::Found;
pub use crate::reply::putting::{finding_status, put_reply};

/// What a command prints, its status, and what it leaves for a hint.
#[derive(Drop)]
pub struct Reply {
    pub bytes: Vec<u8>,
    pub status: u8,
    pub found: Found,
    ghost few: { status ≤ 1 },
}

impl Reply {
    ghost use Rattle.std.specs.Prelude.{◌≡◌};

    /// A text, with status 0.
    pub fn done(bytes: Vec<u8>) -> Reply
        ensures bytes { result.bytes ≡ bytes }
        ensures status { result.status ≡ 0 }
    {
        Reply {
            bytes,
            status: 0,
            found: Found::Nothing,
        }
    }

    /// This reply, and what was found for a hint.
    pub fn with(self, found: Found) -> Reply
        ensures bytes { result.bytes ≡ self.bytes }
        ensures status { result.status ≡ self.status }
    {
        let Reply { bytes, status, .. } = self;
        Reply {
            bytes,
            status,
            found,
        }
    }
}
