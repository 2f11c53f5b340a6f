//! The command `judge`.
ghost use Rattle.std.specs.Prelude.{◌≡◌, None, false, option_map, IfOk};
ghost use Rattle.a429_arguments.specs.Given.{has_given};
ghost use Rattle.a429_arguments.specs.Requests.{asked_of};
ghost use Rattle.a429_arguments.specs.Texts.{texts_of};
ghost use Rattle.a429_arguments.specs.declared.options.OptionName.TheVariants.{Align};
ghost use Rattle.a429_console.specs.Names.{naming_of};
ghost use Rattle.a429_console.specs.Readings.{HasRead};
ghost use Rattle.a429_console.specs.WholeReplies.{Replies};
ghost use Rattle.a429_recordings.specs.JudgeReplies.{AreJudged, AreUnjudged, IsJudgement, IsJudgingOf, IsPrinting, IsQuiet, IsUnjudged, MayBeFound, PassesNoAskedBoxLine, PassesNoneOf, aligned_by, files_of, is_no_group, no_group_of};

mod boxes;
mod clocks;
mod duties;
mod events;
mod input;
mod judging;
mod marks;
mod noted;
mod noting;
mod rows;
mod sheets;
mod spans;
mod words;

use crate::judge::boxes::read_notes;
use crate::judge::clocks::{BoxTexts, found_clock};
use crate::judge::duties::is_any_wide;
use crate::judge::input::{JudgeInput, read_input};
use crate::judge::judging::Judging;
use crate::judge::sheets::judge_sheet;
use crate::judge::words::BoxLog;
use a429_align::Alignment;
use a429_arguments::requests::Asked;
use a429_arguments::tolerances::tolerance_group;
use a429_console::files::FileReader;
use a429_console::hints::warnings::{FoundClock, Warning};
use a429_console::planning::with_plan;
use a429_console::refusals::tables::no_group;
use a429_console::refusals::{CommandRefusal, Refused};
use a429_console::reply::Reply;
use a429_replay::Names;
use a429_slots::{OUTPUTS, Proposal};
use std::alloc::{AllocError, Global};

/// What is said of the words of the logs, on the clock that is found, otherwise on that which is given. Error: a log is
/// refused.
fn judge_words<'a, F: FileReader>(
    alloc: Global,
    files: &F,
    proposal: &Proposal<OUTPUTS>,
    names: &Names,
    input: JudgeInput<'a>,
    found: Option<Alignment>,
    warnings: &mut Vec<Warning>,
) -> Result<Reply, Refused>
    requires { names.now ≡ naming_of proposal.now.station }
    ensures silent { PassesNoneOf (files_of input.entry) input.entry.terms.reading → warnings.new.items ≡ warnings.old.items }
    ensures printed { IsPrinting proposal.now (aligned_by found (files_of input.entry)) result }
{
    let terms = input.terms;
    let reading = terms.reading;
    let judge = read_notes(
        alloc, files, proposal, names, input, found, reading, warnings,
    )?;
    let judging = Judging {
        proposal,
        judge: &judge,
        tolerances: terms.tolerances,
    };
    Ok(judge_sheet(alloc, &judging, terms.events, terms.form)?)
}

/// Whether a tolerance is given for a group that is not there.
fn is_no_group(names: &Names, text: &str) -> bool
    ensures { result ≡ is_no_group names.now text.now }
{
    match tolerance_group(text) {
        Some(group) => names.group(group.as_bytes()).is_none(),
        None => false,
    }
}

/// The first group for which a tolerance is given, but which is not there. `None`: each is there.
fn no_group_of<'a>(names: &Names, tolerances: &'a [&'a str]) -> Option<&'a str>
    ensures { option_map (λ name. name.now) result ≡ no_group_of names.now (texts_of tolerances.now) }
{
    for text in tolerances {
        if is_no_group(names, text) {
            return tolerance_group(text);
        }
    }
    None
}

/// The clock of what was sent, if it is looked for and found. Error: an allocation failed.
fn asked_clock<'a, F: FileReader>(
    alloc: Global,
    files: &F,
    proposal: &Proposal<OUTPUTS>,
    names: &Names,
    input: &JudgeInput<'a>,
) -> Result<Option<Alignment>, AllocError>
    ensures { IfOk result (MayBeFound (files_of input.now)) }
{
    let terms = input.terms;
    if !terms.aligned {
        return Ok(None);
    }
    let heard = BoxTexts {
        view: terms.heard_view,
        part: input.part(BoxLog::Heard),
        texts: &input.heard,
    };
    let sent = BoxTexts {
        view: terms.sent_view,
        part: input.part(BoxLog::Sent),
        texts: input.logs_of_sent(),
    };
    found_clock(alloc, files, proposal, names, heard, sent, terms.reading)
}

/// Notes the clock of what was sent, if it was looked for.
fn note_clock(looked_for: bool, found: Option<Alignment>, warnings: &mut Vec<Warning>)
    ensures { looked_for ≡ false → warnings.new.items ≡ warnings.old.items }
{
    if !looked_for {
        return;
    }
    let clock = match found {
        Some(alignment) => Some(FoundClock {
            shift: alignment.shift,
            drift: alignment.drift,
            words: alignment.moments,
            unfit: alignment.unfit,
            margin: alignment.margin,
        }),
        None => None,
    };
    Warning::note_clock(warnings, clock);
}

/// What is said of a box with this plan, in which each group is there for which a tolerance is given. Errors: a tolerance is
/// too great; a log is refused.
fn judge_plan<'a, F: FileReader>(
    alloc: Global,
    files: &F,
    proposal: &Proposal<OUTPUTS>,
    names: &Names,
    input: JudgeInput<'a>,
    warnings: &mut Vec<Warning>,
) -> Result<Reply, Refused>
    requires names { names.now ≡ naming_of proposal.now.station }
    requires groups { no_group_of (naming_of proposal.now.station) (texts_of input.terms.tolerances.now) ≡ None }
    ensures silent { IsQuiet (files_of input.entry) → warnings.new.items ≡ warnings.old.items }
    ensures judged { IsJudgingOf proposal.now (files_of input.entry) result }
{
    let terms = input.terms;
    let wide = is_any_wide(alloc, proposal, terms.tolerances)?;
    if wide {
        return Err(Refused::plain(CommandRefusal::Tolerance));
    }
    let found = asked_clock(alloc, files, proposal, names, &input)?;
    match judge_words(alloc, files, proposal, names, input, found, warnings) {
        Ok(reply) => {
            note_clock(terms.aligned, found, warnings);
            Ok(reply)
        }
        Err(refusal) => Err(refusal),
    }
}

/// What is said of a box with this plan. Errors: a group is not there; a tolerance is too great; a log is refused.
fn judge_box<'a, F: FileReader>(
    alloc: Global,
    files: &F,
    proposal: &Proposal<OUTPUTS>,
    input: JudgeInput<'a>,
    warnings: &mut Vec<Warning>,
) -> Result<Reply, Refused>
    ensures silent { IsQuiet (files_of input.entry) → warnings.new.items ≡ warnings.old.items }
    ensures judged { IsJudgingOf proposal.now (files_of input.entry) result }
{
    let names = Names::of(alloc, proposal.equipment())?;
    match no_group_of(&names, input.terms.tolerances) {
        Some(group) => Err(Refused::plain(no_group(alloc, group))),
        None => judge_plan(alloc, files, proposal, &names, input, warnings),
    }
}

/// What is said of a box, by the bytes of the files. Errors: there is no plan; those of `judge_box`.
fn judge_input<'a, F: FileReader>(
    alloc: Global,
    files: &F,
    input: JudgeInput<'a>,
    warnings: &mut Vec<Warning>,
) -> Result<Reply, Refused>
    ensures silent { IsQuiet (files_of input.entry) → warnings.new.items ≡ warnings.old.items }
    ensures judged { Replies (AreJudged (files_of input.entry)) (AreUnjudged (files_of input.entry)) result }
{
    let proposal = input.table.propose(alloc)?;
    let judged = judge_box(alloc, files, &proposal, input, warnings);
    with_plan(judged, proposal)
}

/// Whether what a box sent is right, as a sheet, by logs of what came in and of what was sent, or by logs that have both. The status is 0 if
/// nothing was found, and otherwise 1. Errors, in this order: a file cannot be read; the table has a fault or no plan; a line of the
/// plan text is refused; a tolerance is given for a group that is not there, or is more than half the period of an output; the first
/// faulty line of what came in, and then of what was sent; the two have no time in common. `Memory` if an allocation fails. The
/// clock that was looked for is noted, and what is passed over in a log.
pub fn judge_reply<F: FileReader>(
    alloc: Global,
    files: &mut F,
    asked: &Asked,
    warnings: &mut Vec<Warning>,
) -> Result<Reply, Refused>
    ensures answer { HasRead F.answers (λ file. Replies (IsJudgement file (asked_of asked.now))
        (IsUnjudged file (asked_of asked.now)) result) files.old files.new }
    ensures silent { HasRead F.answers (λ file. has_given (asked_of asked.now).given Align ≡ false
        → PassesNoAskedBoxLine file (asked_of asked.now) → warnings.new.items ≡ warnings.old.items) files.old files.new }
{
    let input = read_input(alloc, files, asked)?;
    judge_input(alloc, files, input, warnings)
}
