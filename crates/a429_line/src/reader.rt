//! A reader of one line, symbols in any pieces.
ghost use Rattle.std.specs.Prelude.{◌≡◌, ◌≢◌, ◌++◌, ◌≤◌, ◌<◌, List, [], None, IfSome, OnOk, OnErr, IfOk, IsErr, is_ok, is_some, true, length, slice_range, if◌then◌else◌};
ghost use Rattle.std.specs.Option.{option_to_list};
ghost use Rattle.a429_line.specs.LineBytes.{symbols_of};
ghost use Rattle.a429_line.specs.Reports.{rest};
ghost use Rattle.a429_line.specs.Stages.{after_all, due_in};
ghost use Rattle.a429_line.specs.KeptLines.{AddsReports, BringReports, BringSome, GoesOnBySymbols, StandsForLine};
ghost use Rattle.a429_line.specs.declared.found.Symbol.{Symbol};

use crate::found::{Found, Symbol};
use crate::stage::Stage;
use crate::stretches::next_found;
use std::alloc::AllocError;
use std::marker::Model;

/// A reader of one line. It keeps nothing of the symbols before the run that it is in, and allocates no memory.
#[derive(Clone, Drop)]
pub struct LineReader {
    stage: Stage,
}

impl Model for LineReader {
    ghost use Rattle.a429_line.specs.declared.stage.Stage.{Stage};

    ghost Value = { Stage };

    ghost view = { λ r. r.stage };
}

/// Adds the report, if there is one.
fn push_some(out: &mut Vec<Found>, found: Option<Found>) -> Result<(), AllocError>
    ensures items { out.new.items ≡ (if is_ok result then out.old.items ++ option_to_list found else out.old.items) }
    ensures memory { IsErr result → is_some found ≡ true }
{
    if let Some(found) = found {
        out.push(found)?;
    }
    Ok(())
}

/// Takes symbols one after another, and adds the reports that are due. An `Err` leaves the list as it was.
#[tactic(auto, using(crate::proofs::Steps::due_next, crate::proofs::Steps::after_next, crate::proofs::Steps::due_none, crate::proofs::Steps::after_none))]
fn take_all(mut stage: Stage, piece: &[Symbol], out: &mut Vec<Found>) -> Result<Stage, AllocError>
    ensures due { OnOk result (out.new.items ≡ out.old.items ++ due_in stage piece.now) }
    ensures after { IfOk result (λ now. now ≡ after_all stage piece.now) }
    ensures err { OnErr result (out.new.items ≡ out.old.items) }
    ensures memory { OnErr result (due_in stage piece.now ≢ []) }
{
    let before = out.len();
    for symbol in piece {
        let found = stage.take(*symbol);
        if push_some(out, found).is_err() {
            out.truncate(before);
            return Err(AllocError);
        }
    }
    Ok(stage)
}

impl LineReader {
    /// A reader at the start of its line.
    #[tactic(auto, unfolding(crate::specs::KeptLines::StandsForLine, crate::specs::KeptLines::kept_from, crate::specs::Reports::first_piece, crate::specs::Reports::later_pieces))]
    pub fn new() -> Self
        ensures { StandsForLine [] result }
    {
        LineReader {
            stage: Stage::Between(0),
        }
    }

    /// Takes the next piece of the line, and adds the reports that are due in it at the end of the list. Error: an
    /// allocation failed for one of them; the reader and the list are then as before. A piece without a due report has
    /// no error.
    // For each line that the reader stood for, it then stands for that line followed by the piece. The added reports
    // are those that the longer line has and the shorter one lacks.
    pub fn feed(&mut self, piece: &[Symbol], out: &mut Vec<Found>) -> Result<(), AllocError>
        ensures stands { OnOk result (GoesOnBySymbols self.old piece.now self.new) }
        ensures reports { OnOk result (AddsReports self.old piece.now out.old.items out.new.items) }
        ensures err { OnErr result ((self.new ≡ self.old) × (out.new.items ≡ out.old.items)) }
        ensures memory { OnErr result (BringSome self.old piece.now) }
    {
        self.stage = take_all(self.stage, piece, out)?;
        Ok(())
    }

    /// Takes the symbols of the bytes from a place on, up to the next report, and gives that report; bytes without a
    /// symbol are skipped. The place is then the one after the bytes that were taken. `None` if no report is due; then
    /// all bytes were taken.
    // The reader then stands for each line that it stood for, followed by the symbols of the bytes taken. The report is
    // the one that the longer line has and the shorter one lacks.
    pub fn next(&mut self, bytes: &[u8], from: &mut usize) -> Option<Found>
        requires { from.old ≤ length bytes.now }
        ensures stands { GoesOnBySymbols self.old (symbols_of (slice_range bytes.now from.old from.new)) self.new }
        ensures reports { BringReports self.old (symbols_of (slice_range bytes.now from.old from.new)) (option_to_list result) }
        ensures forward { (from.old ≤ from.new) × (from.new ≤ length bytes.now) }
        ensures goes_on { IfSome result (λ _. from.old < from.new) }
        ensures end { result ≡ None → from.new ≡ length bytes.now }
    {
        let (found, reached, stage) = next_found(bytes, *from, self.stage);
        self.stage = stage;
        *from = reached;
        found
    }

    /// The length in bits of a run that is open and not yet reported; 0 if there is none.
    pub fn rest(&self) -> u32
        ensures { (x : List Symbol) → StandsForLine x self.now → result ≡ rest x }
    {
        match self.stage {
            Stage::Within(len, _) => len,
            Stage::Between(_) => 0,
            Stage::Reported => 0,
        }
    }
}
