//! What `command` and `command_live` do before and after what they are asked for.
ghost use Rattle.std.specs.Prelude.{◌≡◌, ◌≤◌, ◌+◌, [], false, true, IfErr, IfOk, MatchResult, OnErr};
ghost use Rattle.std.specs.Io.KnownBytes.{Appends};
ghost use Rattle.clap.specs.declared.error.kind.ErrorKind.TheVariants.{OutOfMemory};
ghost use Rattle.clap.specs.Words.{HasKind, Kinds, kind_of};
ghost use Rattle.a429_console.specs.Ends.{EndsBy, writing};
ghost use Rattle.a429_arguments.specs.Texts.{texts_of};
ghost use Rattle.a429_console.specs.Outputs.{NoneFailed, failed_line, is_closing};
ghost use Rattle.a429_arguments.specs.Usage.{elsewhere};
ghost use Rattle.a429_cli.specs.Calls.{IsAskedHere, IsExplained, IsSpent};

use a429_arguments::requests::{Asked, other_call_error, parse};
use a429_console::answered::Answered;
use a429_console::hints::warnings::Warning;
use a429_console::hints::{Hints, tell_hints};
use a429_console::output::endings::tell_fault;
use a429_console::output::{Output, OutputFault};
use a429_console::replies::explain;
use clap::Error;
use std::alloc::Global;

/// What the arguments ask for, if the call does that: `live` says whether it is `command_live`. Otherwise the arguments
/// are answered, by help or as a usage error. Error: the status of that.
pub fn asked_here<'a, H: Hints, O: Output, V: Output>(
    alloc: Global,
    words: &'a [&'a str],
    live: bool,
    hints: &H,
    out: &mut O,
    err: &mut V,
) -> Result<Asked<'a>, u8>
    ensures { MatchResult result
        (IsAskedHere live (texts_of words.entry.now) (writing O.contents O.failures O.is_flushed out.old out.new)
        (writing V.contents V.failures V.is_flushed err.old err.new))
        (IsExplained live (texts_of words.entry.now) (writing O.contents O.failures O.is_flushed out.old out.new)
        (writing V.contents V.failures V.is_flushed err.old err.new)) }
{
    match parse(alloc, words) {
        Ok(asked) => {
            if asked.verb.is_run() == live {
                Ok(asked)
            } else {
                Err(refuse_elsewhere(alloc, live, hints, out, err))
            }
        }
        Err(error) => Err(explained(alloc, &error, words, hints, out, err)),
    }
}

/// Answers arguments that ask for a command of the other call. It is the status.
fn refuse_elsewhere<H: Hints, O: Output, V: Output>(
    alloc: Global,
    live: bool,
    hints: &H,
    out: &mut O,
    err: &mut V,
) -> u8
    ensures { EndsBy (elsewhere true) (writing O.contents O.failures O.is_flushed out.old out.new)
        (writing V.contents V.failures V.is_flushed err.old err.new) result }
{
    let message = if live {
        "this call runs only `live`"
    } else {
        "this call does not run `live`"
    };
    let error = other_call_error(alloc, message);
    explained(alloc, &error, &[], hints, out, err)
}

/// Answers arguments that ask for no command, by the parser's error. It is the status.
fn explained<H: Hints, O: Output, V: Output>(
    alloc: Global,
    error: &Error,
    words: &[&str],
    hints: &H,
    out: &mut O,
    err: &mut V,
) -> u8
    ensures ends { (kinds : Kinds) → HasKind kinds error.now → EndsBy kinds (writing O.contents O.failures O.is_flushed out.old out.new)
        (writing V.contents V.failures V.is_flushed err.old err.new) result }
    ensures spent { kind_of error.now ≡ OutOfMemory → IsSpent (writing O.contents O.failures O.is_flushed out.old out.new) result }
{
    match explain(alloc, error, words, hints, out, err) {
        Ok(status) => status,
        Err(fault) => {
            tell_fault(fault, err);
            1
        }
    }
}

/// Ends a call that answered: writes to `err` what can be done about a refusal, or warnings, or that the output failed. It
/// is the status: that of the answer, or 1 if the output failed.
pub fn ended<H: Hints, V: Output>(
    alloc: Global,
    asked: &Asked,
    answered: &Result<Answered, OutputFault>,
    warnings: &[Warning],
    hints: &H,
    err: &mut V,
) -> u8
    ensures done { IfOk answered.now (λ status. result ≡ status) }
    ensures failed { OnErr answered.now (result ≡ 1) }
    ensures announced { IfErr answered.now (λ fault. is_closing fault ≡ false → NoneFailed (V.failures err.old) (V.failures err.new)
        → Appends (V.contents err.old) (V.contents err.new) failed_line) }
    ensures hushed { IfErr answered.now (λ fault. is_closing fault ≡ true → err.new ≡ err.old) }
    ensures quiet { warnings.now ≡ [] → result ≡ 0 → err.new ≡ err.old }
    ensures once { (V.failures err.new).count ≤ (V.failures err.old).count + 1 }
{
    match answered {
        Ok(answered) => {
            tell_hints(alloc, asked, answered, warnings, hints, err);
            answered.status()
        }
        Err(fault) => {
            tell_fault(*fault, err);
            1
        }
    }
}
