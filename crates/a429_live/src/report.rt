//! The report of a run.
ghost use Rattle.std.specs.Prelude.{◌++◌, ◌∷◌, []};
ghost use Rattle.a429_word.specs.Written.{Gains};
ghost use Rattle.a429_console.specs.Files.{bytes_of};
ghost use Rattle.a429_live.specs.LiveReplies.{group_line, group_lines, receiver_line, receiver_lines, refused_words, total_lines};
ghost use Rattle.a429_live.specs.Resubmitted.{AppendsAll, AppendsAnswer, ReportsRun};
ghost use Rattle.a429_console.specs.RefusalText.{refusal_line};

use crate::control::SubmitAnswer;
use a429_console::refusals::{CommandRefusal, Refused};
use a429_console::reply::Reply;
use a429_equipment::{Equipment, GroupRow, ReceiverRow};
use a429_filter::MemoryLine;
use a429_station::Report;
use a429_workers::{CountSink, ReceiveTotals, SendTotals};
use std::alloc::Global;
use std::io;
use std::io::Write;

/// Appends how many words a receiver refused for another reason than parity.
fn push_refused_words(text: &mut Vec<u8>, totals: ReceiveTotals) -> io::Result<()>
    ensures { Gains result text.old.items text.new.items (refused_words totals) }
{
    let (filtered, no_source, spent) = (totals.filtered, totals.no_source, totals.spent);
    writeln!(
        text,
        " filtered {filtered} no-source {no_source} spent {spent}"
    )
}

/// Appends the line of a receiver. Error: an allocation fails; a part of the line may be left.
fn push_receiver(text: &mut Vec<u8>, row: &ReceiverRow, totals: ReceiveTotals) -> io::Result<()>
    ensures { Gains result text.old.items text.new.items (receiver_line row.now.name totals) }
{
    let (name, accepted, parity) = (row.name.as_str(), totals.accepted, totals.parity);
    write!(text, "receiver {name} accepted {accepted} parity {parity}")?;
    push_refused_words(text, totals)
}

/// Appends the line of a group. Error: an allocation fails; a part of the line may be left.
fn push_group(text: &mut Vec<u8>, row: &GroupRow, totals: SendTotals) -> io::Result<()>
    ensures { Gains result text.old.items text.new.items (group_line row.now.name totals) }
{
    let (name, cells) = (row.name.as_str(), totals.cells);
    writeln!(text, "group {name} cells {cells}")
}

/// Appends the lines of the receivers, in table order.
#[tactic(auto, using(crate::proofs::ReportParts::receivers_more, crate::proofs::ReportParts::receivers_over, crate::proofs::ReportParts::receivers_end))]
fn push_receivers(
    text: &mut Vec<u8>,
    rows: &[ReceiverRow],
    totals: &[ReceiveTotals],
) -> io::Result<()>
    ensures { Gains result text.old.items text.new.items (receiver_lines rows.now totals.now) }
{
    for (place, row) in rows.iter().enumerate() {
        // there are as many totals
        let Some(totals) = totals.get(place) else {
            return Ok(());
        };
        push_receiver(text, row, *totals)?;
    }
    Ok(())
}

/// Appends the lines of the groups, in table order.
#[tactic(auto, using(crate::proofs::ReportParts::groups_more, crate::proofs::ReportParts::groups_over, crate::proofs::ReportParts::groups_end))]
fn push_groups(text: &mut Vec<u8>, rows: &[GroupRow], totals: &[SendTotals]) -> io::Result<()>
    ensures { Gains result text.old.items text.new.items (group_lines rows.now totals.now) }
{
    for (place, row) in rows.iter().enumerate() {
        // there are as many totals
        let Some(totals) = totals.get(place) else {
            return Ok(());
        };
        push_group(text, row, *totals)?;
    }
    Ok(())
}

/// Appends the line of a refusal. Error: an allocation fails; a part of the line may be left.
fn push_refused(text: &mut Vec<u8>, refusal: &CommandRefusal) -> io::Result<()>
    ensures { Gains result text.old.items text.new.items (refusal_line refusal.now ++ 10 ∷ []) }
{
    writeln!(text, "{refusal}")
}

/// Appends the line of a further table, by what it was answered when it was resubmitted.
fn push_resubmitted(text: &mut Vec<u8>, answer: &SubmitAnswer) -> io::Result<()>
    ensures { AppendsAnswer answer.now text.old.items text.new.items result }
{
    match answer {
        SubmitAnswer::Published(number) => writeln!(text, "published {number}"),
        SubmitAnswer::Refused(refusal) => push_refused(text, refusal),
        SubmitAnswer::OtherStation => writeln!(text, "refused station-differs"),
        // a run publishes far fewer plans than there are numbers
        SubmitAnswer::NumbersSpent => Ok(()),
    }
}

/// Appends the lines of the further tables, in order, by what they were answered.
fn push_all_resubmitted(
    text: &mut Vec<u8>,
    further: &[Vec<u8>],
    answers: &[SubmitAnswer],
) -> io::Result<()>
    ensures { AppendsAll (bytes_of further.now) answers.now text.old.items text.new.items result }
{
    for (place, table) in further.iter().enumerate() {
        // there are as many answers
        let Some(answer) = answers.get(place) else {
            return Ok(());
        };
        push_resubmitted(text, answer)?;
    }
    Ok(())
}

/// The report: a line for each further table, for each receiver, and for each group. Error: `Memory` if an allocation fails.
pub fn report_reply(
    alloc: Global,
    station: &Equipment,
    further: &[Vec<u8>],
    answers: &[SubmitAnswer],
    report: &Report<MemoryLine, CountSink>,
) -> Result<Reply, Refused>
    ensures { ReportsRun station.now (bytes_of further.now) answers.now report.now.receivers.items report.now.groups.items result }
{
    let mut text = Vec::new(alloc);
    let Ok(()) = push_all_resubmitted(&mut text, further, answers) else {
        return Err(Refused::plain(CommandRefusal::Memory));
    };
    match push_totals(&mut text, station, report) {
        Ok(()) => Ok(Reply::done(text)),
        Err(_) => Err(Refused::plain(CommandRefusal::Memory)),
    }
}

/// Appends the lines of the receivers, and then those of the groups.
fn push_totals(
    text: &mut Vec<u8>,
    station: &Equipment,
    report: &Report<MemoryLine, CountSink>,
) -> io::Result<()>
    ensures { Gains result text.old.items text.new.items (total_lines station.now report.now.receivers.items report.now.groups.items) }
{
    push_receivers(text, station.receivers(), &report.receivers)?;
    push_groups(text, station.groups(), &report.groups)
}
