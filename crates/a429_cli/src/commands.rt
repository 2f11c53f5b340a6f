//! Commands, from arguments and files to bytes.
ghost use Rattle.std.specs.Prelude.{[], ◌∷◌, ◌≡◌, ◌≤◌, ◌+◌, ◌⊎◌, false, true, IfOk, IsTrue, OnErr, OnOk};
ghost use Rattle.a429_console.specs.Ends.{EndsBy, writing};
ghost use Rattle.a429_arguments.specs.Texts.{texts_of};
ghost use Rattle.a429_console.specs.Outputs.{CountsFault, IsPut};
ghost use Rattle.a429_console.specs.Readings.{HasRead, HasReadFrom};
ghost use Rattle.a429_arguments.specs.Given.{has_given};
ghost use Rattle.a429_arguments.specs.RequestRows.{AsksFor};
ghost use Rattle.a429_arguments.specs.Requests.{AskedBytes, asked_of};
ghost use Rattle.a429_cli.specs.Replies.{IsAnswerOf, IsNoAnswer, IsReplyOrMemory, RepliesToCommand, RepliesToCommandByReader, IsSilent, import_options};
ghost use Rattle.a429_cli.specs.Keeping.{IsPlanned, IsUnplanned};
ghost use Rattle.a429_console.specs.WholeReplies.{Replies};
ghost use Rattle.a429_arguments.specs.Usage.{is_run, is_whole, kinds_of_words, trouble_of};

use crate::calls::{asked_here, ended};
use crate::checks::check_reply;
use crate::diff::diff_reply;
use crate::encode::{FieldOptions, encode_reply};
use crate::import::import_reply;
use crate::keeping::kept_reply;
use crate::lines::tell_lines;
use crate::lint::lint_reply;
use crate::plans::plan_reply;
use crate::word::word_reply;
use a429_arguments::forms::Verb;
use a429_arguments::options::OptionName;
use a429_arguments::requests::Asked;
use a429_console::answered::Answered;
use a429_console::files::FileReader;
use a429_console::hints::Hints;
use a429_console::hints::warnings::Warning;
use a429_console::output::{Output, OutputFault};
use a429_console::refusals::Refused;
use a429_console::reply::{Reply, put_reply};
use a429_given::TableNames;
use a429_import::ImportOptions;
use a429_recordings::judge::judge_reply;
use a429_recordings::simulate::simulate;
use a429_recordings::survey::survey_reply;
use a429_replay::replay::replay;
use a429_replay::views::ReplayForm;
use std::alloc::Global;

/// Runs a command: `words` are the arguments without the program's name. Answers, refusals and help that is asked for
/// go to `out`. The text of a usage error, what `hints` says about a refusal, and warnings go to `err`. The status is 0
/// if the command was done, 1 if it was refused, and 2 after a usage error. The command `live` is a usage error here.
/// The status of `load`, `lint`, `diff`, `survey` and `judge` is 1 if something was found, and 2 after a refusal. If the output or
/// `err` fails, the status is 1 and nothing more is written there.
pub fn command<'a, H: Hints, F: FileReader, O: Output, V: Output>(
    alloc: Global,
    words: &'a [&'a str],
    hints: &H,
    files: &mut F,
    out: &mut O,
    err: &mut V,
) -> u8
    // If the arguments ask for something and no call of the output failed, the bytes put are those of the answer, and so
    // is the status.
    ensures replied { RepliesToCommand F.tells F.file O.contents O.failures (texts_of words.entry.now) files.old out.old out.new result }
    // For a reader of any files, the answer is that of files which give what the reader answered in this call.
    ensures read { RepliesToCommandByReader F.answers O.contents O.failures (texts_of words.entry.now) files.old out.old out.new result }
    // With status 0 nothing is written to `err`, if there is nothing to warn of in any files which give what the reader
    // answered.
    ensures quiet { (r : AskedBytes) → is_run r.verb ≡ false → AsksFor (texts_of words.entry.now) r
        → HasReadFrom F.answers (λ file. IsSilent file r → result ≡ 0 → err.new ≡ err.old) files.old }
    // The status is at most 1, or at most 2 of a command whose status 1 says that it found something.
    ensures asked { (r : AskedBytes) → is_run r.verb ≡ false → AsksFor (texts_of words.entry.now) r → result ≤ trouble_of r.verb }
    // How it ends: help, usage errors, failures of `out` or `err`, and what was passed on.
    ensures ends { EndsBy (kinds_of_words (texts_of words.entry.now)) (writing O.contents O.failures O.is_flushed out.old out.new)
        (writing V.contents V.failures V.is_flushed err.old err.new) result }
{
    let asked = match asked_here(alloc, words, false, hints, out, err) {
        Ok(asked) => asked,
        Err(status) => return status,
    };
    let mut warnings = Vec::new(alloc);
    let answered = answer(alloc, &asked, files, &mut warnings, out);
    files.show_end();
    let status = ended(alloc, &asked, &answered, &warnings, hints, err);
    // `drop` keeps the proof short: a drop in place goes through all parts.
    drop(answered);
    drop(warnings);
    drop(asked);
    status
}

/// The plan of a table, whose outputs keep the places of an earlier plan text if one is given. What moved is noted.
fn plan_or_kept<F: FileReader>(
    alloc: Global,
    files: &mut F,
    asked: &Asked,
    warnings: &mut Vec<Warning>,
) -> Result<Reply, Refused>
    requires { asked.now.verb ≡ Verb.Plan }
    ensures replied { HasRead F.answers (λ file. Replies (IsPlanned file (asked_of asked.now))
        (IsUnplanned file (asked_of asked.now)) result) files.old files.new }
    ensures silent { HasRead F.answers (λ file. has_given (asked_of asked.now).given OptionName.Keep ≡ false
        → warnings.new.items ≡ warnings.old.items) files.old files.new }
{
    match asked.text(OptionName::Keep) {
        Some(earlier) => {
            let form = asked.form();
            kept_reply(alloc, files, asked.first, earlier, form, warnings)
        }
        None => plan_reply(alloc, files, asked),
    }
}

/// What a command answers that prints nothing before it has its whole answer. What it warns of is noted.
fn reply_to<F: FileReader>(
    alloc: Global,
    asked: &Asked,
    files: &mut F,
    warnings: &mut Vec<Warning>,
) -> Result<Reply, Refused>
    requires { is_whole asked.now.verb ≡ true }
    ensures replied { HasRead F.answers (λ file. Replies (IsAnswerOf asked.now.verb file (asked_of asked.now))
        (IsNoAnswer asked.now.verb file (asked_of asked.now)) result) files.old files.new }
    ensures silent { HasRead F.answers (λ file. IsSilent file (asked_of asked.now)
        → warnings.new.items ≡ warnings.old.items) files.old files.new }
{
    let Asked { first, second, .. } = asked;
    let form = asked.form();
    match asked.verb {
        Verb::Word => word_reply(alloc, first, form),
        Verb::Encode => encode_reply(alloc, first, &FieldOptions::of(asked), form),
        Verb::Import => import_reply(
            alloc,
            files,
            first,
            asked.texts(OptionName::Map),
            asked.texts(OptionName::KeepColumns),
            import_options(asked),
            warnings,
        ),
        Verb::Check => check_reply(alloc, files, first, second, form),
        Verb::Lint => lint_reply(alloc, files, asked),
        Verb::Diff => diff_reply(alloc, files, asked),
        Verb::Survey => survey_reply(alloc, files, asked, warnings),
        Verb::Judge => judge_reply(alloc, files, asked, warnings),
        Verb::Plan => plan_or_kept(alloc, files, asked, warnings),
        _ => plan_reply(alloc, files, asked),
    }
}

/// Answers by a command that prints line by line.
fn answer_by_lines<F: FileReader, O: Output>(
    alloc: Global,
    asked: &Asked,
    files: &mut F,
    warnings: &mut Vec<Warning>,
    out: &mut O,
) -> Result<Answered, OutputFault>
    requires run { is_run asked.now.verb ≡ false }
    requires whole { is_whole asked.now.verb ≡ false }
    ensures read { HasRead F.answers (λ file. IfOk result
        (IsPut (IsReplyOrMemory file (asked_of asked.now)) (O.contents out.old) (O.contents out.new))) files.old files.new }
    ensures silent { HasRead F.answers (λ file. IsSilent file (asked_of asked.now)
        → warnings.new.items ≡ warnings.old.items) files.old files.new }
    ensures status { IfOk result (λ status. status ≤ 1) }
    ensures flushed { OnOk result (IsTrue (O.is_flushed out.new)) }
    ensures faults { CountsFault result (O.failures out.old) (O.failures out.new) }
{
    let Asked {
        first,
        second,
        more,
        ..
    } = asked;
    match asked.verb {
        Verb::Lines => tell_lines(alloc, files, first, more, asked.form(), out),
        Verb::Replay => {
            let view = ReplayForm::of(asked);
            let table = TableNames::of(asked);
            replay(alloc, files, table, second, more, &view, warnings, out)
        }
        Verb::Simulate => simulate(alloc, files, asked, warnings, out),
        _ => unreachable!(),
    }
}

/// How the rows of `import` are read, by the options that are given.
fn import_options(asked: &Asked) -> ImportOptions
    ensures { result ≡ import_options (asked_of asked.now).given }
{
    ImportOptions {
        fills: asked.has(OptionName::Fill),
        makes_names: asked.has(OptionName::Names),
    }
}

/// Answers what `command` is asked for. The status is 0 if it was done.
fn answer<F: FileReader, O: Output>(
    alloc: Global,
    asked: &Asked,
    files: &mut F,
    warnings: &mut Vec<Warning>,
    out: &mut O,
) -> Result<Answered, OutputFault>
    requires { is_run asked.now.verb ≡ false }
    ensures read { HasRead F.answers (λ file. IfOk result
        (IsPut (IsReplyOrMemory file (asked_of asked.now)) (O.contents out.old) (O.contents out.new))) files.old files.new }
    ensures silent { HasRead F.answers (λ file. IsSilent file (asked_of asked.now)
        → warnings.new.items ≡ warnings.old.items) files.old files.new }
    ensures status { IfOk result (λ status. status ≤ trouble_of asked.now.verb) }
    ensures few { IfOk result (λ status. status ≤ 2) }
    ensures flushed { OnOk result (IsTrue (O.is_flushed out.new)) }
    ensures faults { CountsFault result (O.failures out.old) (O.failures out.new) }
{
    if asked.verb.is_whole() {
        let reply = reply_to(alloc, asked, files, warnings);
        put_reply(alloc, reply, asked.verb.trouble(), out)
    } else {
        answer_by_lines(alloc, asked, files, warnings, out)
    }
}
