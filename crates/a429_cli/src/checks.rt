//! The command `check`: whether the text of a plan shows the fewest buses.
ghost use Rattle.std.specs.Prelude.{◌≡◌, ◌≤◌, ◌++◌, ◌∷◌, [], IfOk, MatchResult, OnOk, map};
ghost use Rattle.std.specs.Io.KnownBytes.{Appends};
ghost use Rattle.a429_cert.specs.Judged.{IsVerdictOnBytes};
ghost use Rattle.a429_cert.specs.Printed.{verdict_text};
ghost use Rattle.a429_console.specs.Readings.{HasRead};
ghost use Rattle.a429_cli.specs.Checks.{AnswersCheck, IsJudging, IsUnjudged, IsVerdictReply, told_verdict, verdict_columns, verdict_row, verdict_status};
ghost use Rattle.a429_console.specs.WholeReplies.{Replies};
ghost use Rattle.a429_console.specs.RefusalText.{OrMemory};
ghost use Rattle.a429_console.specs.Tables.{IsUnfitNamed};

use a429_cert::{NoVerdict, Refusal, Verdict, refusal_of};
use a429_console::answered::Found;
use a429_console::files::FileReader;
use a429_console::files::reading::read_file;
use a429_console::planning::read_table;
use a429_console::refusals::evidence::TableEvidence;
use a429_console::refusals::tables::unfit;
use a429_console::refusals::{CommandRefusal, Refused};
use a429_console::reply::Reply;
use a429_equipment::Equipment;
use a429_given::objection_of;
use a429_text::{Cell, Rows, Sheet, SheetForm};
use std::alloc::{AllocError, Global};
use std::io;
use std::io::Write;
use std::marker::Model;

/// The names of the columns of a verdict.
const COLUMNS: &[&str] = &["result", "reason", "line"];

/// The refusal of the text of a plan, if it is refused, and the text, for a hint. Clauses see the verdict.
#[derive(Drop)]
struct JudgedText {
    refusal: Option<Refusal>,
    text: Vec<u8>,
}

impl Model for JudgedText {
    ghost use Rattle.a429_cert.specs.declared.verdicts.Verdict.{Verdict};

    ghost Value = { Verdict };

    ghost use Rattle.a429_cert.specs.Verdicts.{verdict_of};

    ghost view = { λ j. verdict_of j.refusal };
}

impl JudgedText {
    ghost use Rattle.std.specs.Prelude.{◌≡◌};

    /// The verdict.
    fn verdict(&self) -> Verdict
        ensures { result ≡ self.now }
    {
        match &self.refusal {
            None => Verdict::Fewest,
            Some(refusal) => Verdict::No(refusal.no()),
        }
    }

    /// What the verdict finds wrong, for a hint.
    fn into_found(self, alloc: Global) -> Found {
        match objection_of(alloc, self.refusal) {
            None => Found::Nothing,
            Some(objection) => Found::Objection {
                objection,
                text: self.text,
            },
        }
    }
}

/// The refusal of an unfit output, by the names of its group and its source, with the equipment.
fn refuse_unfit(equipment: Equipment, group: usize, output: usize) -> Refused
    ensures { IsUnfitNamed equipment group output result }
{
    let refusal = unfit(&equipment, group, output);
    Refused::of_table(refusal, TableEvidence::of_equipment(equipment))
}

/// The verdict on a text by a table's bytes. Error: the table's fault, then the first output in table order whose
/// interval fits no period of the grid.
fn verdict_on(alloc: Global, table: &[u8], text: Vec<u8>) -> Result<JudgedText, Refused>
    ensures { MatchResult result (IsVerdictOnBytes table.now text.items) (OrMemory (IsUnjudged table.now)) }
{
    let equipment = read_table(alloc, table)?;
    match refusal_of(alloc, &equipment, &text) {
        Ok(refusal) => Ok(JudgedText { refusal, text }),
        Err(NoVerdict::Unfit { group, output }) => { Err(refuse_unfit(equipment, group, output)) }
        Err(NoVerdict::NoMemory) => Err(Refused::plain(CommandRefusal::Memory)),
    }
}

/// The verdict on the text in a file by the table in another. Error: the first file is refused, then the second, then
/// the table.
fn verdict_on_files<F: FileReader>(
    alloc: Global,
    files: &mut F,
    table: &str,
    plan: &str,
) -> Result<JudgedText, Refused>
    ensures { HasRead F.answers (λ file. IsJudging file table.now plan.now result) files.old files.new }
{
    let table = read_file(alloc, files, table)?;
    let text = read_file(alloc, files, plan)?;
    verdict_on(alloc, &table, text)
}

/// Writes the line of a verdict.
fn write_verdict<W: Write>(out: &mut W, verdict: Verdict) -> io::Result<()>
    ensures { OnOk result (Appends (W.contents out.old) (W.contents out.new) (verdict_text verdict ++ 10 ∷ [])) }
{
    writeln!(out, "{verdict}")
}

/// The line of a verdict. Error: an allocation failed.
fn verdict_line(alloc: Global, verdict: Verdict) -> Result<Vec<u8>, AllocError>
    ensures { IfOk result (λ line. line.items ≡ verdict_text verdict ++ 10 ∷ []) }
{
    let mut line = Vec::new(alloc);
    match write_verdict(&mut line, verdict) {
        Ok(()) => Ok(line),
        Err(_) => Err(AllocError),
    }
}

/// Adds the row of a verdict.
fn add_row(rows: &mut Rows, verdict: Verdict)
    ensures { rows.new ≡ rows.old ++ verdict_row verdict ∷ [] }
{
    match verdict {
        Verdict::Fewest => rows.add(&[Cell::Text("fewest"), Cell::Absent, Cell::Absent]),
        Verdict::No(no) => rows.add(&[
            Cell::Text("no"),
            Cell::Text(no.reason.text()),
            Cell::Number(no.line as u64),
        ]),
    }
}

/// A verdict as a sheet of one row.
fn verdict_sheet(alloc: Global, verdict: Verdict) -> Sheet
    ensures columns { map (λ name. name.now) result.columns.now ≡ verdict_columns }
    ensures rows { result.rows ≡ verdict_row verdict ∷ [] }
{
    let mut rows = Rows::new(alloc);
    add_row(&mut rows, verdict);
    Sheet {
        columns: COLUMNS,
        rows,
    }
}

/// The line of a verdict, or its sheet with `--csv` or `--json`. Error: an allocation failed.
fn told_verdict(alloc: Global, verdict: Verdict, form: SheetForm) -> Result<Vec<u8>, AllocError>
    ensures { IfOk result (λ text. text.items ≡ told_verdict form verdict) }
{
    match form {
        SheetForm::Columns => verdict_line(alloc, verdict),
        SheetForm::Csv | SheetForm::Json => verdict_sheet(alloc, verdict).render(alloc, form),
    }
}

/// The status that belongs to a verdict: 0 if the text shows the fewest buses, otherwise 1.
fn verdict_status(verdict: Verdict) -> u8
    ensures due { result ≡ verdict_status verdict }
    ensures few { result ≤ 1 }
{
    match verdict {
        Verdict::Fewest => 0,
        Verdict::No(_) => 1,
    }
}

/// The verdict in a form, with its status. An allocation that fails is refused.
fn verdict_reply(alloc: Global, verdict: JudgedText, form: SheetForm) -> Result<Reply, Refused>
    ensures { Replies (IsVerdictReply form verdict) (λ refusal. ⊥) result }
{
    let Ok(bytes) = told_verdict(alloc, verdict.verdict(), form) else {
        return Err(Refused::plain(CommandRefusal::Memory));
    };
    let status = verdict_status(verdict.verdict());
    let found = verdict.into_found(alloc);
    Ok(Reply {
        bytes,
        status,
        found,
    })
}

/// The verdict on the text in a file by the table in another: its line, or its sheet with `--csv` or `--json`. The status is 0 if the text shows the fewest
/// buses for the table, otherwise 1. Errors, in this order: the file of the table or that of the text is refused, or the
/// table has a fault. `Memory` if an allocation fails.
pub fn check_reply<F: FileReader>(
    alloc: Global,
    files: &mut F,
    table: &str,
    plan: &str,
    form: SheetForm,
) -> Result<Reply, Refused>
    ensures { HasRead F.answers (λ file. AnswersCheck file form table.now plan.now result) files.old files.new }
{
    let verdict = verdict_on_files(alloc, files, table, plan)?;
    verdict_reply(alloc, verdict, form)
}
