//! Arguments in memory.
ghost use Rattle.std.specs.Io.{WritesAtMost};

use crate::given::Arguments;
use std::env::FillError;

/// Arguments as a system gives them, which need not be text. The first is the path of the program.
#[derive(Clone, Copy)]
pub struct MemoryWords<'a, 'w> {
    pub words: &'a [&'w [u8]],
}

impl Arguments for MemoryWords<'_, '_> {
    ghost use Rattle.a429_arguments.specs.Texts.{texts_of};
    ghost use Rattle.a429_arguments.specs.GivenWords.{HasNoWordAt, IsWordAt};

    ghost gives = { λ m. IsWordAt (texts_of m.words.now) };

    ghost ends = { λ m. HasNoWordAt (texts_of m.words.now) };

    fn argument(&self, place: usize, room: &mut [u8]) -> Result<usize, FillError> {
        let Some(word) = self.words.get(place) else {
            return Err(FillError::NotPresent);
        };
        // Not `get_mut`: no clause of it says what a write through its answer leaves in the room.
        if word.len() > room.len() {
            return Err(FillError::TooLong);
        }
        room[..word.len()].copy_from_slice(word);
        Ok(word.len())
    }
}
