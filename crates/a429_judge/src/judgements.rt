//! What is said of an output.
ghost use Rattle.std.specs.Prelude.{◌≡◌, ◌<◌, ◌↔◌, length, false, IfOk, IsErrOf};
ghost use Rattle.std.specs.List.Sorted.{IsNonDecreasingBy};
ghost use Rattle.a429_judge.specs.Figures.{delays, greatest_of, intervals, least_of};
ghost use Rattle.a429_judge.specs.Judgements.{found_at, found_by, is_alike, judgement_by, judgement_of, known_sends, quiet_verdict, verdict_of};
ghost use Rattle.a429_judge.specs.Recordings.{duty_at, group_at, overlapping};

use crate::duties::Duty;
use crate::facts::{Facts, Mark, Span};
use crate::figures::{count_of, delays, greatest_of, intervals, least_of};
use crate::findings::{Finding, Kind, findings};
use crate::recordings::{Judge, JudgeFault};
use crate::windows::is_known;
use a429_text::Gathered;
use std::alloc::{AllocError, Global};

/// What is said of an output in a word.
#[derive(Clone, Copy, PartialEq, Eq)]
pub enum Verdict {
    /// Nothing is wrong with its sends.
    Ok,
    /// It sent no word. Something is found if it had to send one.
    NotSent,
    /// Its words may be those of another output of its group, so it is not judged.
    Alike,
    /// Something is wrong.
    Bad,
    /// Nothing is found, but the logs are too short to judge it: it sent fewer than two words, or no word of a send is known.
    TooShort,
}

/// What is said of an output. Times are in microseconds.
#[derive(Clone, Copy)]
pub struct Judgement {
    /// How many words it sent.
    pub sent: u64,
    /// Of how many of these the log of what came in knows the word.
    pub known: u64,
    /// The least interval from a send to the next, if there is one.
    pub least: Option<u64>,
    /// The greatest.
    pub greatest: Option<u64>,
    /// The greatest time from when a word came in until it or a later one was sent, if one was.
    pub delay: Option<u64>,
    /// How many findings of each kind there are.
    pub wrong: u64,
    pub stale: u64,
    pub soon: u64,
    pub late: u64,
    pub again: u64,
    pub silent: u64,
    pub missed: u64,
    /// How many findings there are in all.
    pub found: u64,
    /// How far times may be wrong.
    pub tolerance: u64,
    pub verdict: Verdict,
}

/// How many outputs of a list may have a label and an SDI in common with one.
fn overlapping(duty: &Duty, duties: &[Duty]) -> usize
    ensures { result ≡ overlapping duty.now duties.now }
{
    let mut count = 0;
    for other in duties {
        if duty.overlaps(other) {
            count += 1;
        }
    }
    count
}

/// Whether another output may have the same label and SDI.
fn is_alike(duties: &[Duty], duty: &Duty) -> bool
    ensures { result ≡ is_alike duties.now duty.now }
{
    overlapping(duty, duties) > 1
}

/// The verdict on an output if nothing is found, by how many words were accepted and sent, and by how many sends have a
/// known word.
fn quiet_verdict(heard: usize, sent: usize, known: u64) -> Verdict
    ensures { result ≡ quiet_verdict heard sent known }
{
    if sent == 0 {
        if heard == 0 {
            return Verdict::NotSent;
        }
        return Verdict::TooShort;
    }
    if sent >= 2 && known > 0 {
        Verdict::Ok
    } else {
        Verdict::TooShort
    }
}

/// The verdict on an output.
fn verdict_of(alike: bool, heard: usize, sent: usize, known: u64, found: &[Finding]) -> Verdict
    ensures { result ≡ verdict_of alike heard sent known found.now }
{
    if alike {
        return Verdict::Alike;
    }
    if found.is_empty() {
        return quiet_verdict(heard, sent, known);
    }
    if sent == 0 {
        Verdict::NotSent
    } else {
        Verdict::Bad
    }
}

/// Of how many sends the log of what came in knows the word.
fn known_sends(facts: &Facts, span: &Span, accepted: &[Mark], sends: &[Mark]) -> u64
    ensures { result ≡ known_sends facts.now span.now accepted.now sends.now }
{
    let mut count = 0;
    for send in sends {
        if is_known(facts, span, accepted, send.time) {
            count += 1;
        }
    }
    count
}

/// The least and the greatest interval between sends. Error: an allocation failed.
fn interval_bounds(alloc: Global, sends: &[Mark]) -> Result<(Option<u64>, Option<u64>), AllocError>
    ensures least { IfOk result (λ r. r.0 ≡ least_of (intervals sends.now)) }
    ensures greatest { IfOk result (λ r. r.1 ≡ greatest_of (intervals sends.now)) }
{
    let numbers = intervals(alloc, sends);
    let numbers = numbers.as_slice()?;
    Ok((least_of(numbers), greatest_of(numbers)))
}

/// What is found at an output with these words. Error: an allocation failed.
fn found_by(
    alloc: Global,
    duties: &[Duty],
    duty: &Duty,
    span: &Span,
    accepted: &[Mark],
    sends: &[Mark],
) -> Result<Gathered<Finding>, AllocError>
    requires accepted { IsNonDecreasingBy (λ (a : Mark). a.time) accepted.now }
    requires sends { IsNonDecreasingBy (λ (s : Mark). s.time) sends.now }
    ensures { IfOk result (λ found. found ≡ found_by duties.now duty.now span.now accepted.now sends.now) }
{
    if is_alike(duties, duty) {
        return Ok(Gathered::new(alloc));
    }
    findings(alloc, &duty.facts, span, accepted, sends)
}

/// The greatest delay. Error: an allocation failed.
fn delay_bound(
    alloc: Global,
    facts: &Facts,
    accepted: &[Mark],
    sends: &[Mark],
) -> Result<Option<u64>, AllocError>
    requires { IsNonDecreasingBy (λ (a : Mark). a.time) accepted.now }
    ensures { IfOk result (λ r. r ≡ greatest_of (delays facts.now accepted.now sends.now)) }
{
    let numbers = delays(alloc, facts, accepted, sends);
    Ok(greatest_of(numbers.as_slice()?))
}

/// The judgement by these words and findings. Error: an allocation failed.
#[tactic(auto, unfolding(crate::specs::Judgements::judgement_by))]
fn judgement_by(
    alloc: Global,
    duties: &[Duty],
    duty: &Duty,
    span: &Span,
    accepted: &[Mark],
    sends: &[Mark],
    found: &[Finding],
) -> Result<Judgement, AllocError>
    requires { IsNonDecreasingBy (λ (a : Mark). a.time) accepted.now }
    ensures { IfOk result (λ j. j ≡ judgement_by duties.now duty.now span.now accepted.now sends.now found.now) }
{
    let (least, greatest) = interval_bounds(alloc, sends)?;
    let delay = delay_bound(alloc, &duty.facts, accepted, sends)?;
    let known = known_sends(&duty.facts, span, accepted, sends);
    Ok(Judgement {
        sent: sends.len() as u64,
        known,
        least,
        greatest,
        delay,
        wrong: count_of(Kind::Wrong, found),
        stale: count_of(Kind::Stale, found),
        soon: count_of(Kind::Soon, found),
        late: count_of(Kind::Late, found),
        again: count_of(Kind::Again, found),
        silent: count_of(Kind::Silent, found),
        missed: count_of(Kind::Missed, found),
        found: found.len() as u64,
        tolerance: duty.facts.tolerance,
        verdict: verdict_of(
            is_alike(duties, duty),
            accepted.len(),
            sends.len(),
            known,
            found,
        ),
    })
}

/// The judgement of an output with these words. Error: an allocation failed.
fn judge_words(
    alloc: Global,
    duties: &[Duty],
    duty: &Duty,
    span: &Span,
    accepted: &[Mark],
    sends: &[Mark],
) -> Result<Judgement, AllocError>
    requires accepted { IsNonDecreasingBy (λ (a : Mark). a.time) accepted.now }
    requires sends { IsNonDecreasingBy (λ (s : Mark). s.time) sends.now }
    ensures { IfOk result (λ j. j ≡ judgement_by duties.now duty.now span.now accepted.now sends.now
        (found_by duties.now duty.now span.now accepted.now sends.now)) }
{
    let found = found_by(alloc, duties, duty, span, accepted, sends)?;
    let found = found.as_slice()?;
    judgement_by(alloc, duties, duty, span, accepted, sends, found)
}

impl Judge {
    /// What is found at an output of a group: at its sends in their order, after the last one, and then at the words that it
    /// missed. Nothing is found at an output that is alike another. Errors: a word came before the one before it in its log;
    /// an allocation failed.
    pub fn found(
        &self,
        alloc: Global,
        group: usize,
        output: usize,
    ) -> Result<Gathered<Finding>, JudgeFault>
        requires { output < length (group_at self.now.duties group) }
        ensures found { IfOk result (λ found. found ≡ found_at (group_at self.now.duties group)
            (duty_at (group_at self.now.duties group) output) self.now.noted) }
        ensures falls { IsErrOf result JudgeFault.TimesFall ↔ (self.now.in_order ≡ false) }
    {
        if !self.is_in_order() {
            return Err(JudgeFault::TimesFall);
        }
        let accepted = self.accepted(group, output)?;
        let sends = self.sends(group, output)?;
        let duties = self.duties(group);
        let span = self.span(group, output);
        let found = found_by(alloc, duties, &duties[output], &span, accepted, sends)?;
        Ok(found)
    }

    /// What is said of an output of a group. Errors: a word came before the one before it in its log; an allocation failed.
    pub fn judgement(
        &self,
        alloc: Global,
        group: usize,
        output: usize,
    ) -> Result<Judgement, JudgeFault>
        requires { output < length (group_at self.now.duties group) }
        ensures judgement { IfOk result (λ judgement. judgement ≡ judgement_of (group_at self.now.duties group)
            (duty_at (group_at self.now.duties group) output) self.now.noted) }
        ensures falls { IsErrOf result JudgeFault.TimesFall ↔ (self.now.in_order ≡ false) }
    {
        if !self.is_in_order() {
            return Err(JudgeFault::TimesFall);
        }
        let accepted = self.accepted(group, output)?;
        let sends = self.sends(group, output)?;
        let duties = self.duties(group);
        let span = self.span(group, output);
        let judgement = judge_words(alloc, duties, &duties[output], &span, accepted, sends)?;
        Ok(judgement)
    }
}
