//! Limits of a station (profile).

/// The maximum number of receivers of a station.
pub const RECEIVERS: usize = 16;

/// The maximum number of sources of a station.
pub const SOURCES: usize = 256;

/// The maximum number of groups of a station.
pub const GROUPS: usize = 8;

/// The maximum number of outputs of a group.
pub const OUTPUTS: usize = 128;

/// The number of bits that count the words that a source accepts. With the 23 bits of a word that are kept next to the
/// count they fill 64. After 2^41 - 1 words the next one is refused.
pub const COUNT_BITS: u32 = 41;

/// The maximum number of words that a receiver takes in one run on threads.
pub const WORDS: u64 = 1000000;

/// The maximum number of frames that a group sends in one run on threads.
pub const FRAMES: u32 = 1000000;

/// The longest interval of an output, in microseconds.
pub const LONGEST_INTERVAL: u32 = 30000000;

/// The maximum value of `hold`, the number of times that one accepted word may be sent.
pub const HOLD: u32 = 1000000;
