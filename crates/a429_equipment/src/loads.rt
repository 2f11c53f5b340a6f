//! Loads of current values.
use a429_word::Word;

/// One load of a source's current value: how many words the source had accepted, and the last of them,
/// or none.
#[derive(Clone, Copy, PartialEq, Eq)]
pub struct Load {
    pub source: usize,
    pub count: u64,
    pub word: Option<Word>,
}
