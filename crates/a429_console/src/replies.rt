//! What is answered instead of a command: help, and the text of a usage error.
ghost use Rattle.std.specs.Prelude.{◌≡◌, ◌≤◌, ◌+◌, ◌⊎◌, IfOk, IsTrue, OnErr, OnOk};
ghost use Rattle.clap.specs.Words.{kind_of};
ghost use Rattle.a429_console.specs.Outputs.{CountsFault, HasFailed, IsPut, OrNoMemory};
ghost use Rattle.a429_console.specs.UsageReplies.{ExplainsKind, IsHelpReply, IsMistakeUntold, IsPassedOnUnless, IsWarned, TellsMistake};

use crate::files::reading::printable_char;
use crate::hints::Hints;
use crate::output::endings::{finish, put_whole, refuse_memory};
use crate::output::{Output, OutputFault};
use clap::Error;
use clap::error::ErrorKind;
use std::alloc::{AllocError, Global};
use std::io;
use std::io::Write;

/// Answers arguments that ask for no command, by the parser's error. Help that was asked for is put, with status 0. The
/// text of a usage error, with what may have been meant, is written to `err`, with status 2, or 1 if `err` fails. Error:
/// the output `out` failed.
pub fn explain<H: Hints, O: Output, V: Output>(
    alloc: Global,
    error: &Error,
    words: &[&str],
    hints: &H,
    out: &mut O,
    err: &mut V,
) -> Result<u8, OutputFault>
    ensures replied { ExplainsKind O.contents V.failures (kind_of error.now) out.old out.new err.old err.new result }
    ensures faults { CountsFault result (O.failures out.old) (O.failures out.new) }
    ensures status { IfOk result (λ status. status ≤ 2) }
    // If the status is 0, all was passed on; so it is with status 1, unless a call of `err` failed.
    ensures flushed { IfOk result (λ status. status ≡ 0 → IsTrue (O.is_flushed out.new)) }
    ensures told { IsPassedOnUnless (IsMistakeUntold V.failures (kind_of error.now) err.old err.new) (O.is_flushed out.new) result }
    ensures warned { IfOk result (λ status. status ≡ 2 → IsTrue (V.is_flushed err.new)) }
    // With status 0, or after an error, `err` stays the same. With status 2 `out` stays the same.
    ensures quiet { IfOk result (λ status. status ≡ 0 → err.new ≡ err.old) }
    ensures left { OnErr result (err.new ≡ err.old) }
    ensures silent { IfOk result (λ status. status ≡ 2 → out.new ≡ out.old) }
    // If a call of `err` failed, the status is 1, and there is no further one.
    ensures failed { IfOk result (λ status. (status ≡ 1) ⊎ (V.failures err.new ≡ V.failures err.old)) }
    ensures once { (V.failures err.new).count ≤ (V.failures err.old).count + 1 }
{
    match error.kind() {
        ErrorKind::OutOfMemory => refuse_memory(out),
        ErrorKind::DisplayHelp | ErrorKind::DisplayVersion => put_help(alloc, error, out),
        _ => tell_mistake(alloc, error, words, hints, out, err),
    }
}

/// Writes the text of a usage error to `err`. The status is 2, or 1 if `err` or an allocation for the text fails.
fn tell_mistake<H: Hints, O: Output, V: Output>(
    alloc: Global,
    mistake: &Error,
    words: &[&str],
    hints: &H,
    out: &mut O,
    err: &mut V,
) -> Result<u8, OutputFault>
    ensures replied { TellsMistake O.contents V.failures out.old out.new err.old err.new result }
    ensures faults { CountsFault result (O.failures out.old) (O.failures out.new) }
    ensures status { IfOk result (λ status. (1 ≤ status) × (status ≤ 2)) }
    ensures told { IsPassedOnUnless (HasFailed (V.failures err.old) (V.failures err.new)) (O.is_flushed out.new) result }
    ensures warned { IfOk result (λ status. status ≡ 2 → IsTrue (V.is_flushed err.new)) }
    ensures left { OnErr result (err.new ≡ err.old) }
    ensures silent { IfOk result (λ status. status ≡ 2 → out.new ≡ out.old) }
    ensures failed { IfOk result (λ status. (status ≡ 1) ⊎ (V.failures err.new ≡ V.failures err.old)) }
    ensures once { (V.failures err.new).count ≤ (V.failures err.old).count + 1 }
{
    match mistake_text(alloc, mistake) {
        Ok(mut text) => {
            add_suggestion(alloc, words, hints, &mut text);
            Ok(warn(&text, err))
        }
        Err(_) => refuse_memory(out),
    }
}

/// The text of a usage error. Arguments may be in it.
fn mistake_text(alloc: Global, mistake: &Error) -> io::Result<Vec<u8>> {
    let mut text = Vec::new(alloc);
    write!(text, "{mistake}")?;
    Ok(printable_text(alloc, str::from_utf8(&text).unwrap_or(""))?)
}

/// A text of several lines with `?` for each other control character: a terminal would obey those of an argument.
fn printable_text(alloc: Global, text: &str) -> Result<Vec<u8>, AllocError> {
    let mut shown = String::new(alloc);
    for c in text.chars() {
        shown.push(if c == '\n' { c } else { printable_char(c) })?;
    }
    Ok(shown.into_bytes())
}

/// Appends what may have been meant instead of a usage error, unless an allocation fails.
fn add_suggestion<H: Hints>(alloc: Global, words: &[&str], hints: &H, text: &mut Vec<u8>) {
    let mut suggestion = Vec::new(alloc);
    // a part of it would end in a broken line
    if hints.tell_mistake(alloc, words, &mut suggestion).is_ok() {
        let _ = text.extend_from_slice(&suggestion);
    }
}

/// Writes the text of a usage error. The status is 2, or 1 if the output fails.
pub fn warn<V: Output>(text: &[u8], err: &mut V) -> u8
    ensures status { IsWarned (V.failures err.old) (V.failures err.new) result }
    ensures warned { result ≡ 2 → IsTrue (V.is_flushed err.new) }
    ensures once { (V.failures err.new).count ≤ (V.failures err.old).count + 1 }
{
    match put_whole(text, err) {
        Ok(()) => 2,
        Err(_) => 1,
    }
}

/// Puts the text of help that was asked for. The status is 0, or 1 if an allocation for the text fails.
fn put_help<O: Output>(alloc: Global, help: &Error, out: &mut O) -> Result<u8, OutputFault>
    ensures replied { IfOk result (IsPut (OrNoMemory IsHelpReply) (O.contents out.old) (O.contents out.new)) }
    ensures status { IfOk result (λ status. status ≤ 1) }
    ensures flushed { OnOk result (IsTrue (O.is_flushed out.new)) }
    ensures faults { CountsFault result (O.failures out.old) (O.failures out.new) }
{
    let mut text = Vec::new(alloc);
    match write!(text, "{help}") {
        Ok(()) => finish(&text, true, out),
        Err(_) => refuse_memory(out),
    }
}
