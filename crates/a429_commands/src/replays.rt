//! A replay over files in memory: by the command, and by the whole program.
ghost use Rattle.std.specs.Prelude.{◌≡◌, IfSome};
ghost use Rattle.a429_arguments.specs.Requests.{IsName};
ghost use Rattle.a429_console.specs.MemoryFile.{file_of};
ghost use Rattle.a429_commands.specs.Replayed.{IsPlayedToTheEnd, IsReplayReply};

use crate::words::run_on_words;
use a429_arguments::laws::plain_words_ask;
use a429_cli::{CountedWriter, Hints, MemoryFiles, NoProgress, command};
use std::alloc::Global;
use std::sync::Wait;
use std::thread::Threads;

/// The status of a replay over files in memory, and what it writes. With status 0 that is the answers to all events of
/// the script, from the opening of the table's own plan. `None` if the output in memory failed, since an allocation did.
pub fn replay_in_memory<H: Hints>(
    alloc: Global,
    hints: &H,
    files: &mut MemoryFiles,
    table: &str,
    script: &str,
) -> Option<(u8, Vec<u8>)>
    requires table { IsName table.now }
    requires script { IsName script.now }
    ensures replied { IfSome result (λ told. IsReplayReply (file_of files.old.files.items) table.now script.now told.0 told.1.items) }
    ensures done { IfSome result (λ told. told.0 ≡ 0 → IsPlayedToTheEnd (file_of files.old.files.items) table.now script.now told.1.items) }
{
    plain_words_ask();
    let words = ["replay", table, script];
    let mut out = CountedWriter::new(Vec::new(alloc));
    let mut err = CountedWriter::new(Vec::new(alloc));
    let status = command(alloc, &words, hints, files, &mut out, &mut err);
    if out.failures > 0 {
        return None;
    }
    Some((status, out.writer))
}

/// The status of a replay over files in memory by the whole program, and what it writes. The arguments are in memory too:
/// the path of the program, which need not be text, `replay`, and the two names. It may wait for threads, since the
/// program may. `None` if the output in memory failed, since an allocation did.
pub fn replay_by_words<R: AllocGlobal + Threads + Wait, H: Hints>(
    rt: &R,
    hints: &H,
    files: &mut MemoryFiles,
    path: &[u8],
    table: &str,
    script: &str,
) -> Option<(u8, Vec<u8>)>
    requires table { IsName table.now }
    requires script { IsName script.now }
    ensures replied { IfSome result (λ told. IsReplayReply (file_of files.old.files.items) table.now script.now told.0 told.1.items) }
    ensures done { IfSome result (λ told. told.0 ≡ 0 → IsPlayedToTheEnd (file_of files.old.files.items) table.now script.now told.1.items) }
{
    plain_words_ask();
    let words: [&[u8]; 4] = [path, b"replay", table.as_bytes(), script.as_bytes()];
    let mut out = CountedWriter::new(Vec::new(rt.alloc()));
    let mut err = CountedWriter::new(Vec::new(rt.alloc()));
    let status = run_on_words(rt, &words, hints, files, &mut out, &mut err, &NoProgress);
    if out.failures > 0 {
        return None;
    }
    Some((status, out.writer))
}
