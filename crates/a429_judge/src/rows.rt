//! The rows of judgements.
ghost use Rattle.std.specs.Prelude.{◌≡◌, ◌<◌, ◌++◌, ◌∷◌, ◌↔◌, [], false, length, map, IsErrOf, OnOk};
ghost use Rattle.a429_text.specs.Sheets.{field_of};
ghost use Rattle.a429_judge.specs.Recordings.{group_at};
ghost use Rattle.a429_judge.specs.Rows.{figure_field, foreign_row, foreign_verdict, group_rows, output_row, row_at, verdict_text};

use crate::judgements::{Judgement, Verdict};
use crate::recordings::{Judge, JudgeFault};
use a429_text::{Cell, Rows};
use std::alloc::Global;

/// The names of the columns.
pub const COLUMNS: &[&str] = &[
    "group",
    "source",
    "sent",
    "known",
    "least_us",
    "greatest_us",
    "late_us",
    "wrong",
    "stale",
    "soon",
    "late",
    "again",
    "silent",
    "missed",
    "tolerance_us",
    "verdict",
];

/// The cell of a figure that may be missing.
fn figure_cell(figure: Option<u64>) -> Cell<'static>
    ensures { field_of result ≡ figure_field figure }
{
    match figure {
        Some(number) => Cell::Number(number),
        None => Cell::Absent,
    }
}

impl Verdict {
    /// As a row has it.
    pub fn text(self) -> &'static str
        ensures { result.now ≡ verdict_text self }
    {
        match self {
            Verdict::Ok => "ok",
            Verdict::NotSent => "not-sent",
            Verdict::Alike => "alike",
            Verdict::Bad => "bad",
            Verdict::TooShort => "too-short",
        }
    }
}

/// The cells of the row of an output.
#[tactic(auto, unfolding(crate::specs::Rows::output_row))]
fn output_cells<'a>(group: &'a str, source: &'a str, judgement: &Judgement) -> [Cell<'a>; 16]
    ensures { map field_of result ≡ output_row group.now source.now judgement.now }
{
    [
        Cell::Text(group),
        Cell::Text(source),
        Cell::Number(judgement.sent),
        Cell::Number(judgement.known),
        figure_cell(judgement.least),
        figure_cell(judgement.greatest),
        figure_cell(judgement.delay),
        Cell::Number(judgement.wrong),
        Cell::Number(judgement.stale),
        Cell::Number(judgement.soon),
        Cell::Number(judgement.late),
        Cell::Number(judgement.again),
        Cell::Number(judgement.silent),
        Cell::Number(judgement.missed),
        Cell::Number(judgement.tolerance),
        Cell::Text(judgement.verdict.text()),
    ]
}

/// Adds the row of an output, by the names of its group and its source.
pub fn add_output_row(rows: &mut Rows, group: &str, source: &str, judgement: &Judgement)
    ensures { rows.new ≡ rows.old ++ output_row group.now source.now judgement.now ∷ [] }
{
    rows.add(&output_cells(group, source, judgement));
}

/// The verdict on a group's foreign words, by their number.
fn foreign_verdict(count: u64) -> Verdict
    ensures { result ≡ foreign_verdict count }
{
    if count == 0 {
        Verdict::Ok
    } else {
        Verdict::Bad
    }
}

/// The cells of the row of a group's foreign words.
#[tactic(auto, unfolding(crate::specs::Rows::foreign_row))]
fn foreign_cells(group: &str, count: u64) -> [Cell<'_>; 16]
    ensures { map field_of result ≡ foreign_row group.now count }
{
    [
        Cell::Text(group),
        Cell::Text("foreign"),
        Cell::Number(count),
        Cell::Absent,
        Cell::Absent,
        Cell::Absent,
        Cell::Absent,
        Cell::Absent,
        Cell::Absent,
        Cell::Absent,
        Cell::Absent,
        Cell::Absent,
        Cell::Absent,
        Cell::Absent,
        Cell::Absent,
        Cell::Text(foreign_verdict(count).text()),
    ]
}

/// Adds the row of a group for its words that are of no output, by the name of the group and their number.
pub fn add_foreign_row(rows: &mut Rows, group: &str, count: u64)
    ensures { rows.new ≡ rows.old ++ foreign_row group.now count ∷ [] }
{
    rows.add(&foreign_cells(group, count));
}

impl Judge {
    /// Adds the row of an output of a group, by its place.
    fn add_row(
        &self,
        rows: &mut Rows,
        alloc: Global,
        number: usize,
        group: &str,
        names: &[&str],
        place: usize,
    ) -> Result<(), JudgeFault>
        requires within { place < length (group_at self.now.duties number) }
        requires named { length names.now ≡ length (group_at self.now.duties number) }
        ensures row { OnOk result (rows.new ≡ rows.old
            ++ row_at group.now (map (λ n. n.now) names.now) (group_at self.now.duties number) self.now.noted place) }
        ensures falls { IsErrOf result JudgeFault.TimesFall ↔ (self.now.in_order ≡ false) }
    {
        let judgement = self.judgement(alloc, number, place)?;
        add_output_row(rows, group, names[place], &judgement);
        Ok(())
    }

    /// Adds the rows of a group: of its outputs, in order, with the names of their sources, and then of its words that are
    /// of none. Errors: a word came before the one before it in its log; an allocation failed.
    #[tactic(auto, unfolding(crate::specs::Rows::group_rows))]
    pub fn add_group_rows(
        &self,
        rows: &mut Rows,
        alloc: Global,
        number: usize,
        group: &str,
        names: &[&str],
    ) -> Result<(), JudgeFault>
        requires within { number < length self.now.duties }
        requires named { length names.now ≡ length (group_at self.now.duties number) }
        ensures rows { OnOk result (rows.new ≡ rows.old
            ++ group_rows number group.now (map (λ n. n.now) names.now) (group_at self.now.duties number) self.now.noted) }
        ensures falls { IsErrOf result JudgeFault.TimesFall ↔ (self.now.in_order ≡ false) }
    {
        if !self.is_in_order() {
            return Err(JudgeFault::TimesFall);
        }
        for place in 0..self.duties(number).len() {
            self.add_row(rows, alloc, number, group, names, place)?;
        }
        let foreign = self.foreign(number)?;
        add_foreign_row(rows, group, foreign.len() as u64);
        Ok(())
    }
}
