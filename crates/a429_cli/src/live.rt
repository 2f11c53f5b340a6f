//! The command `live`, from arguments and files to bytes.
ghost use Rattle.std.specs.Prelude.{◌≡◌, ◌≤◌, true};
ghost use Rattle.a429_console.specs.Ends.{EndsBy, writing};
ghost use Rattle.a429_arguments.specs.Texts.{texts_of};
ghost use Rattle.a429_console.specs.Readings.{HasReadFrom};
ghost use Rattle.a429_arguments.specs.RequestRows.{AsksFor};
ghost use Rattle.a429_arguments.specs.Requests.{AskedBytes};
ghost use Rattle.a429_cli.specs.Replies.{RepliesToLive, RepliesToLiveByReader, IsSilent};
ghost use Rattle.a429_arguments.specs.Usage.{is_run, live_kinds_of_words};

use crate::calls::{asked_here, ended};
use a429_console::files::FileReader;
use a429_console::hints::Hints;
use a429_console::output::Output;
use a429_console::reply::put_reply;
use a429_live::{Progress, run_station};
use std::alloc::Global;
use std::sync::Wait;
use std::thread::Threads;

/// Does the command `live`. Every other command is a usage error here. It starts threads, and may wait for them: when
/// it returns all have ended. While the station runs, `progress` gets reports of its progress.
pub fn command_live<
    'a,
    R: Threads + Wait,
    H: Hints,
    F: FileReader,
    O: Output,
    V: Output,
    P: Progress + Sync,
>(
    rt: &R,
    alloc: Global,
    words: &'a [&'a str],
    hints: &H,
    files: &mut F,
    out: &mut O,
    err: &mut V,
    progress: &P,
) -> u8
    // If the arguments ask for a run and no call of the output failed, the bytes put and the status are those of its
    // report or of the one refusal.
    ensures replied { RepliesToLive F.tells F.file O.contents O.failures (texts_of words.entry.now) files.old out.old out.new result }
    // For a reader of any files, the answer is that of files which give what the reader answered in this call.
    ensures read { RepliesToLiveByReader F.answers O.contents O.failures (texts_of words.entry.now) files.old out.old out.new result }
    // With status 0 nothing is written to `err`, if there is nothing to warn of in any files which give what the reader
    // answered.
    ensures quiet { (r : AskedBytes) → is_run r.verb ≡ true → AsksFor (texts_of words.entry.now) r
        → HasReadFrom F.answers (λ file. IsSilent file r → result ≡ 0 → err.new ≡ err.old) files.old }
    ensures asked { (r : AskedBytes) → is_run r.verb ≡ true → AsksFor (texts_of words.entry.now) r → result ≤ 1 }
    // How it ends: help, usage errors, failures of `out` or `err`, and what was passed on.
    ensures ends { EndsBy (live_kinds_of_words (texts_of words.entry.now)) (writing O.contents O.failures O.is_flushed out.old out.new)
        (writing V.contents V.failures V.is_flushed err.old err.new) result }
{
    let asked = match asked_here(alloc, words, true, hints, out, err) {
        Ok(asked) => asked,
        Err(status) => return status,
    };
    let mut warnings = Vec::new(alloc);
    let reply = run_station(rt, alloc, files, &asked, &mut warnings, progress);
    let answered = put_reply(alloc, reply, 1, out);
    let status = ended(alloc, &asked, &answered, &warnings, hints, err);
    // `drop` keeps the proof short: a drop in place goes through all parts.
    drop(answered);
    drop(warnings);
    drop(asked);
    status
}
