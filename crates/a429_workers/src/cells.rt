//! What a transmitter answers.

use a429_word::Word;
use thiserror::Error;

/// An answered cell: its bus, its slot counted from the station's first, and the word that is sent in it, if any.
#[derive(Clone, Copy, PartialEq, Eq)]
pub struct Sent {
    pub bus: u32,
    pub slot: u64,
    pub word: Option<Word>,
}

/// All cells of the frame were sent.
#[derive(Clone, Copy, Debug, PartialEq, Eq, Error)]
#[error("frame end")]
pub struct FrameEnd;

/// Why no next frame begins.
#[derive(Clone, Copy, Debug, PartialEq, Eq, Error)]
pub enum ChangeFault {
    /// Not all cells of the frame were sent.
    #[error("mid frame")]
    MidFrame,
    /// The next frame has slots that cannot be counted in 64 bits.
    #[error("slots spent")]
    SlotsSpent,
}
