//! The whole program: from its arguments to a status.
ghost use Rattle.std.specs.Prelude.{◌≡◌, map, string_bytes, IfOk};
ghost use Rattle.a429_console.specs.Ends.{IsMemoryRefused, writing};
ghost use Rattle.a429_arguments.specs.Texts.{texts_of};
ghost use Rattle.a429_console.specs.Readings.{HasReadFrom};
ghost use Rattle.a429_cli.specs.ProgramRuns.{HasRunProgram, IsDoneOrRefused, is_live};

use crate::commands::command;
use crate::live::command_live;
use a429_arguments::given::{Arguments, WordsFault, given_words};
use a429_console::files::FileReader;
use a429_console::hints::Hints;
use a429_console::output::Output;
use a429_console::output::endings::{refuse_memory, tell_fault};
use a429_console::replies::warn;
use a429_live::Progress;
use std::alloc::{AllocError, Global};
use std::sync::Wait;
use std::thread::Threads;

/// The line for an argument that is not UTF-8.
const NOT_TEXT: &[u8] = b"error: an argument is not UTF-8\n";

fn texts(alloc: Global, words: &[String]) -> Result<Vec<&str>, AllocError>
    ensures { IfOk result (λ texts. texts_of texts.items ≡ map string_bytes words.entry.now) }
{
    let mut texts = Vec::new(alloc);
    for word in words {
        texts.push(word.as_str())?;
    }
    Ok(texts)
}

/// Whether the first argument is `live`.
fn is_live(words: &[&str]) -> bool
    ensures { result ≡ is_live (texts_of words.now) }
{
    match words.first() {
        Some(first) => *first == "live",
        None => false,
    }
}

/// Puts the line `refused memory`. The status is 1.
fn refuse_without_memory<O: Output, V: Output>(out: &mut O, err: &mut V) -> u8
    ensures { IsMemoryRefused (writing O.contents O.failures O.is_flushed out.old out.new)
        (writing V.contents V.failures V.is_flushed err.old err.new) result }
{
    match refuse_memory(out) {
        Ok(status) => status,
        Err(fault) => {
            tell_fault(fault, err);
            1
        }
    }
}

/// Does what the arguments ask for. The status is the one that `command` answers, or `command_live` if the first
/// argument is `live`.
fn run_words<
    H: Hints,
    R: AllocGlobal + Threads + Wait,
    F: FileReader,
    O: Output,
    V: Output,
    P: Progress + Sync,
>(rt: &R, words: &[String], hints: &H, files: &mut F, out: &mut O, err: &mut V, progress: &P) -> u8
    ensures { IsDoneOrRefused (map string_bytes words.entry.now) (record { tells = F.tells files.old; file = F.file files.old })
        (λ Says. HasReadFrom F.answers Says files.old)
        (writing O.contents O.failures O.is_flushed out.old out.new) (writing V.contents V.failures V.is_flushed err.old err.new) result }
{
    let Ok(words) = texts(rt.alloc(), words) else {
        return refuse_without_memory(out, err);
    };
    if is_live(&words) {
        command_live(rt, rt.alloc(), &words, hints, files, out, err, progress)
    } else {
        command(rt.alloc(), &words, hints, files, out, err)
    }
}

/// Runs the program: does the command that its arguments ask for, `live` too. Answers and refusals go to `out`, the text
/// of a usage error and hints to `err`; arguments that are not all UTF-8 are a usage error. While a station runs,
/// `progress` gets reports of its progress. The status is the program's: 0 if the command was done; 1 if it was refused,
/// if something was found, or if an output failed; 2 after a usage error, and after a refusal of `load`, `lint`, `diff`,
/// `survey` or `judge`. It may wait for the threads of a station.
pub fn run_program<
    R: AllocGlobal + Threads + Wait,
    A: Arguments,
    H: Hints,
    F: FileReader,
    O: Output,
    V: Output,
    P: Progress + Sync,
>(rt: &R, arguments: &A, hints: &H, files: &mut F, out: &mut O, err: &mut V, progress: &P) -> u8
    ensures { HasRunProgram (A.gives arguments.now) (A.ends arguments.now) (record { tells = F.tells files.old; file = F.file files.old })
        (λ Says. HasReadFrom F.answers Says files.old)
        (writing O.contents O.failures O.is_flushed out.old out.new) (writing V.contents V.failures V.is_flushed err.old err.new) result }
{
    match given_words(rt.alloc(), arguments) {
        Ok(words) => run_words(rt, &words, hints, files, out, err, progress),
        Err(WordsFault::NotText) => warn(NOT_TEXT, err),
        Err(WordsFault::NoMemory) => refuse_without_memory(out, err),
    }
}
