//! The call that the page makes.
ghost use Rattle.std.specs.Prelude.{◌≡◌, ◌≢◌, ◌≤◌, Err, IfOk};
ghost use Rattle.a429_page.specs.Calls.{IsAnswerTo, IsGiven, IsTooMuch, IsUnstated};

use crate::answering::{Answered, run_command};
use crate::files::PassedFiles;
use crate::parts::{divide, parts, texts};
use crate::room::put;
use std::alloc::Global;

/// How long the answer of a command is, and its status.
#[repr(C)]
#[derive(Clone, Copy)]
pub struct Answer {
    pub status: u64,
    /// Bytes on standard output.
    pub out: u64,
    /// Bytes on standard error.
    pub err: u64,
}

/// Why a call gives no answer of a command.
#[derive(Clone, Copy)]
pub(crate) enum Refusal {
    /// An allocation failed.
    NoMemory,
    /// The bytes are fewer than the sizes say, or an argument is not UTF-8.
    Unstated,
}

/// The call gave the answer.
const GIVEN: u32 = 0;

/// An allocation failed, and nothing was given.
const NO_MEMORY: u32 = 1;

/// The room is too small, and has nothing of the answer.
const TOO_MUCH: u32 = 2;

/// The bytes state no call.
const UNSTATED: u32 = 3;

/// Does a command over files in memory, and puts what it writes into the room: first standard output, then standard
/// error. `sizes` are the sizes in bytes of parts, which follow one another in `bytes`. The first parts are the
/// arguments, as many as `words` says, without the name of the program. Half of the other parts are the names of files,
/// and the rest are the bytes of these files. The command `live` is a usage error.
///
/// It answers 0 if the room has the answer; 1 if an allocation failed; 2 if the room is too small: then `answer` says how
/// long the answer is; 3 if the bytes are fewer than the sizes say, or if an argument is not UTF-8. The room is
/// changed only with 0, and `answer` only with 0 and 2.
#[unsafe(no_mangle)]
pub extern "C" fn a429_command(
    alloc: Global,
    sizes: &[usize],
    bytes: &[u8],
    words: usize,
    room: &mut [u8],
    answer: &mut Answer,
) -> u32
    ensures few { result ≤ 3 }
    ensures given { result ≡ 0 → IsGiven words sizes.now bytes.now room.old room.new answer.new }
    ensures too_much { result ≡ 2 → IsTooMuch words sizes.now bytes.now room.old answer.new }
    ensures unstated { result ≡ 3 → IsUnstated words sizes.now bytes.now }
    ensures left { result ≢ 0 → room.new ≡ room.old }
    ensures answer_left { result ≢ 0 → result ≢ 2 → answer.new ≡ answer.old }
{
    match stated_answer(alloc, sizes, bytes, words) {
        Ok(answered) => {
            *answer = answered.lengths();
            if put(&answered.out, &answered.err, room) {
                GIVEN
            } else {
                TOO_MUCH
            }
        }
        Err(Refusal::NoMemory) => NO_MEMORY,
        Err(Refusal::Unstated) => UNSTATED,
    }
}

/// The answer of the command that the bytes state.
fn stated_answer(
    alloc: Global,
    sizes: &[usize],
    bytes: &[u8],
    words: usize,
) -> Result<Answered, Refusal>
    ensures answered { IfOk result (λ a. IsAnswerTo words sizes.now bytes.now a.status a.out.items a.err.items) }
    ensures unstated { result ≡ Err Refusal.Unstated → IsUnstated words sizes.now bytes.now }
{
    let parts = parts(alloc, sizes, bytes)?;
    let divided = divide(&parts, words);
    let words = texts(alloc, divided.words)?;
    let mut files = PassedFiles {
        alloc,
        names: divided.names,
        files: divided.files,
    };
    run_command(alloc, &words, &mut files)
}
