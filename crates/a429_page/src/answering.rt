//! A command over passed files, and what it writes.
ghost use Rattle.std.specs.Prelude.{◌≡◌, ◌≢◌, Err, IfOk, length};
ghost use Rattle.a429_arguments.specs.Texts.{texts_of};
ghost use Rattle.a429_page.specs.Calls.{IsAnswered};
ghost use Rattle.a429_page.specs.Parts.{file_in};

use crate::command::{Answer, Refusal};
use crate::files::PassedFiles;
use a429_cli::{CountedWriter, command};
use a429_hints::HintLines;
use std::alloc::Global;

/// What a command wrote, and its status.
pub(crate) struct Answered {
    pub(crate) status: u8,
    pub(crate) out: Vec<u8>,
    pub(crate) err: Vec<u8>,
}

impl Drop for Answered {
    fn drop(self) {
        let Self {
            status: _,
            out: _,
            err: _,
        } = self;
    }
}

impl Answered {
    /// How long it is, and its status.
    pub(crate) fn lengths(&self) -> Answer
        ensures status { result.status ≡ self.now.status }
        ensures out { result.out ≡ length self.now.out.items }
        ensures err { result.err ≡ length self.now.err.items }
    {
        Answer {
            status: u64::from(self.status),
            out: self.out.len() as u64,
            err: self.err.len() as u64,
        }
    }
}

/// Does the command of these arguments over these files. Error: an allocation failed, and one of the two outputs is cut
/// short.
pub(crate) fn run_command(
    alloc: Global,
    words: &[&str],
    files: &mut PassedFiles<'_, '_>,
) -> Result<Answered, Refusal>
    ensures answered { IfOk result (λ a. IsAnswered (texts_of words.now)
        (file_in (texts_of files.old.names.now) (texts_of files.old.files.now)) a.status a.out.items a.err.items) }
    ensures stated { result ≢ Err Refusal.Unstated }
{
    let mut out = CountedWriter::new(Vec::new(alloc));
    let mut err = CountedWriter::new(Vec::new(alloc));
    let status = command(alloc, words, &HintLines, files, &mut out, &mut err);
    if out.failures > 0 || err.failures > 0 {
        return Err(Refusal::NoMemory);
    }
    Ok(Answered {
        status,
        out: out.writer,
        err: err.writer,
    })
}
