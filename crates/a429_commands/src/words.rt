//! The program on arguments in memory.
ghost use Rattle.a429_console.specs.Ends.{writing};
ghost use Rattle.a429_arguments.specs.Texts.{texts_of};
ghost use Rattle.a429_console.specs.Readings.{HasReadFrom};
ghost use Rattle.a429_commands.specs.WordsInMemory.{ProgramGetsItsWords};

use a429_cli::{FileReader, Hints, MemoryWords, Output, Progress, run_program};
use std::sync::Wait;
use std::thread::Threads;

/// Runs the program on arguments in memory. Those after the path reach their command unaltered.
pub fn run_on_words<
    R: AllocGlobal + Threads + Wait,
    H: Hints,
    F: FileReader,
    O: Output,
    V: Output,
    P: Progress + Sync,
>(rt: &R, words: &[&[u8]], hints: &H, files: &mut F, out: &mut O, err: &mut V, progress: &P) -> u8
    ensures { ProgramGetsItsWords (texts_of words.now) (record { tells = F.tells files.old; file = F.file files.old })
        (λ Says. HasReadFrom F.answers Says files.old)
        (writing O.contents O.failures O.is_flushed out.old out.new) (writing V.contents V.failures V.is_flushed err.old err.new) result }
{
    let given = MemoryWords { words };
    run_program(rt, &given, hints, files, out, err, progress)
}
