//! The words of logs, judged by a plan.
ghost use Rattle.std.specs.Prelude.{◌≡◌, true};
ghost use Rattle.a429_arguments.specs.Texts.{texts_of};
ghost use Rattle.a429_recordings.specs.JudgedPlans.{all_duties};

use a429_judge::{Finding, Judge, JudgeFault, Judgement, Sent};
use a429_slots::{OUTPUTS, Proposal};
use a429_text::Gathered;
use std::alloc::{AllocError, Global};

/// A plan, a judge of its outputs that has noted the words of logs, and the tolerances of their times that are given: each is US or
/// GROUP=US, in microseconds. A group without one has its default. The times of the logs do not fall.
#[derive(Clone, Copy)]
pub struct Judging<'a> {
    pub proposal: &'a Proposal<OUTPUTS>,
    pub judge: &'a Judge,
    pub tolerances: &'a [&'a str],
    pub ghost duties: { judge.now.duties ≡ all_duties proposal.now (texts_of tolerances.now) },
    pub ghost in_order: { judge.now.in_order ≡ true },
}

impl Judging<'_> {
    ghost use Rattle.std.specs.Prelude.{◌<◌, length, IfOk};
    ghost use Rattle.a429_judge.specs.Judgements.{found_at};
    ghost use Rattle.a429_slots.specs.Tables.{groups_of, outputs_of};
    ghost use Rattle.a429_recordings.specs.JudgedPlans.{duties_of, duty_of, foreign_in, judged};
    ghost use Rattle.a429_recordings.specs.SimulationRuns.{HasPlannedGroup};
    ghost use Rattle.a429_recordings.specs.Timeline.{table_of};

    /// What is said of an output. Error: an allocation failed.
    pub fn judgement(
        &self,
        alloc: Global,
        group: usize,
        output: usize,
    ) -> Result<Judgement, AllocError>
        requires known { HasPlannedGroup self.now.proposal.now group }
        requires output { output < length (outputs_of (table_of self.now.proposal.now group)) }
        ensures { IfOk result (λ judgement. judgement
            ≡ judged self.now.proposal.now (texts_of self.now.tolerances.now) self.now.judge.now.noted group output) }
    {
        match self.judge.judgement(alloc, group, output) {
            Ok(judgement) => Ok(judgement),
            Err(JudgeFault::NoMemory) => Err(AllocError),
            Err(JudgeFault::TimesFall) => unreachable!(),
        }
    }

    /// What is found at an output. Error: an allocation failed.
    pub fn found(
        &self,
        alloc: Global,
        group: usize,
        output: usize,
    ) -> Result<Gathered<Finding>, AllocError>
        requires known { HasPlannedGroup self.now.proposal.now group }
        requires output { output < length (outputs_of (table_of self.now.proposal.now group)) }
        ensures { IfOk result (λ found. found ≡ found_at (duties_of self.now.proposal.now (texts_of self.now.tolerances.now) group)
            (duty_of self.now.proposal.now (texts_of self.now.tolerances.now) group output) self.now.judge.now.noted) }
    {
        match self.judge.found(alloc, group, output) {
            Ok(found) => Ok(found),
            Err(JudgeFault::NoMemory) => Err(AllocError),
            Err(JudgeFault::TimesFall) => unreachable!(),
        }
    }

    /// The words of a group that are of none of its outputs. Error: an allocation failed.
    pub fn foreign(&self, group: usize) -> Result<&[Sent], AllocError>
        requires { HasPlannedGroup self.now.proposal.now group }
        ensures { IfOk result (λ words. words.now
            ≡ foreign_in self.now.proposal.now (texts_of self.now.tolerances.now) self.now.judge.now.noted group) }
    {
        self.judge.foreign(group)
    }
}
