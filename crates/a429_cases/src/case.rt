//! A case: what a command is given, and what it must do.

use crate::outcome::{Outcome, is_output, is_told};
use crate::outputs::output;
use crate::parts::{find_file, keep_file, name_and_form, part_bytes};
use crate::reported::Reported;
use crate::spelling::{cut, number_before, spelled};
use crate::written::Written;
use a429_cli::MemoryFiles;
use std::alloc::Global;
use std::io::ErrorKind;

/// The status of a case that was not run. No command ends with it.
const NOT_RUN: u8 = 255;

/// What is before the name of a part.
const PART: &str = "\n--- ";

/// A case.
pub struct Case {
    /// The arguments of the program.
    pub line: Vec<u8>,
    /// The parts by their names. Those that are no files of the command have what it must write.
    pub files: MemoryFiles,
    status: u8,
    failing: Failing,
}

/// The output that is to fail.
#[derive(Clone, Copy)]
struct Failing {
    /// How many calls it has at least. 0: none is to fail.
    least_calls: usize,
    /// How many bytes an output takes in one call.
    piece: usize,
    /// Whether it is standard error.
    is_err: bool,
}

/// No output is to fail.
const NOT_FAILING: Failing = Failing {
    least_calls: 0,
    piece: usize::MAX,
    is_err: false,
};

/// The case that was written so. `None` if it cannot be read.
pub fn case_of(alloc: Global, texts: &MemoryFiles, written: Written<'_>) -> Option<Case> {
    match written.filled(alloc) {
        Ok(text) => case_of_text(alloc, texts, &text),
        Err(_) => None,
    }
}

fn case_of_text(alloc: Global, texts: &MemoryFiles, text: &str) -> Option<Case> {
    let (line, parts) = cut(text, PART);
    let line = spelled(alloc, line)?;
    case_of_parts(alloc, texts, line, parts)
}

fn case_of_parts(alloc: Global, texts: &MemoryFiles, line: Vec<u8>, parts: &str) -> Option<Case> {
    let mut case = Case {
        line,
        files: MemoryFiles {
            files: Vec::new(alloc),
        },
        status: 0,
        failing: NOT_FAILING,
    };
    if case.take_parts(alloc, texts, parts) {
        Some(case)
    } else {
        None
    }
}

impl Drop for Case {
    fn drop(self) {
        let Self {
            line: _,
            files: _,
            status: _,
            failing: _,
        } = self;
    }
}

impl Case {
    /// Reads parts. `false` if one cannot be read.
    fn take_parts(&mut self, alloc: Global, texts: &MemoryFiles, parts: &str) -> bool {
        let mut rest = parts;
        for _ in 0..parts.len() {
            let (part, after) = cut(rest, PART);
            if self.take(alloc, texts, part).is_none() {
                return false;
            }
            rest = after;
            if rest.is_empty() {
                break;
            }
        }
        true
    }

    /// Reads a part.
    fn take(&mut self, alloc: Global, texts: &MemoryFiles, part: &str) -> Option<()> {
        let (name, form) = name_and_form(part);
        match name {
            "out" => self.take_out(alloc, texts, form),
            "fails" => self.take_failing(form),
            _ => self.keep(alloc, texts, name, form),
        }
    }

    /// Keeps the bytes of a part under this name.
    fn keep(&mut self, alloc: Global, texts: &MemoryFiles, name: &str, form: &str) -> Option<()> {
        let bytes = part_bytes(alloc, texts, form);
        keep_file(alloc, &mut self.files, name, bytes)
    }

    /// Reads ` STATUS FORM`.
    fn take_out(&mut self, alloc: Global, texts: &MemoryFiles, part: &str) -> Option<()> {
        let (status, form) = name_and_form(part.trim_start());
        match status.parse::<u8>() {
            Ok(status) => self.status = status,
            Err(_) => return None,
        }
        self.keep(alloc, texts, "out", form)
    }

    /// Reads ` CALLS calls of PIECE OUTPUT`.
    fn take_failing(&mut self, part: &str) -> Option<()> {
        let (least_calls, rest) = number_before(part, " calls of ", 0);
        let (piece, output) = number_before(rest, " ", 0);
        self.failing = Failing {
            least_calls,
            piece,
            is_err: output == "err",
        };
        if least_calls > 0 && piece > 0 {
            Some(())
        } else {
            None
        }
    }

    /// Before the command runs. The output that is to fail does so after this number of calls.
    pub fn begin(&self, alloc: Global, good_calls: usize, kind: ErrorKind) -> Outcome {
        let Failing { piece, is_err, .. } = self.failing;
        let (out_calls, err_calls) = if is_err {
            (usize::MAX, good_calls)
        } else {
            (good_calls, usize::MAX)
        };
        Outcome {
            out: output(alloc, piece, out_calls, kind),
            err: output(alloc, piece, err_calls, kind),
            reported: Reported::new(),
            status: NOT_RUN,
            has_reread: false,
        }
    }

    /// Whether the program did what the case states, if no output failed.
    pub fn is_met(&self, alloc: Global, outcome: &Outcome) -> bool {
        outcome.status == self.status
            && !outcome.has_reread
            && outcome.is_flushed()
            && outcome.outputs(self.failing.is_err).0.calls >= self.failing.least_calls
            && self.has_output(outcome)
            && outcome.has_errors(find_file(&self.files, "err"))
            && self.has_reports(alloc, outcome)
    }

    fn has_output(&self, outcome: &Outcome) -> bool {
        match find_file(&self.files, "out") {
            Some(stated) => is_output(stated, &outcome.out.writer.bytes),
            None => false,
        }
    }

    fn has_reports(&self, alloc: Global, outcome: &Outcome) -> bool {
        match find_file(&self.files, "progress") {
            Some(stated) => outcome.reported.are(alloc, stated),
            None => true,
        }
    }

    /// How many calls of the output are to fail, one in each run.
    pub fn failing_calls(&self, whole: &Outcome) -> usize {
        if self.failing.least_calls == 0 {
            0
        } else {
            whole.outputs(self.failing.is_err).0.calls
        }
    }

    /// Whether the command ended with status 1 at the call that failed, and wrote nothing more there.
    pub fn ends_short(
        &self,
        whole: &Outcome,
        cut: &Outcome,
        good_calls: usize,
        kind: ErrorKind,
    ) -> bool {
        let (failed, other) = cut.outputs(self.failing.is_err);
        let (all, rest) = whole.outputs(self.failing.is_err);
        let is_told = if self.failing.is_err {
            other.bytes == rest.bytes
        } else {
            is_told(&other.bytes, kind)
        };
        is_told && cut.status == 1 && failed.is_cut_from(all, good_calls)
    }
}
