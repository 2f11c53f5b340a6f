//! The program `a429`: an ARINC 429 data concentrator.
#![tactic(auto)]

use a429_cli::{CountedWriter, DiskFiles, NoProgress, ProgressLine, ShownFiles, run_program};
use a429_hints::HintLines;
use std::env;
use std::io::IsTerminal;
use std::process::ExitCode;

/// Whether `--quiet` is among the arguments, or they cannot be read.
fn is_quiet(rt: &HostRuntime) -> bool {
    match env::args(rt) {
        Ok(mut arguments) => arguments.any(|argument| argument.as_str() == "--quiet"),
        Err(_) => true,
    }
}

fn main(rt: HostRuntime) -> ExitCode {
    let mut out = CountedWriter::new(rt.stdout());
    // on a terminal long work shows its progress
    let is_shown = rt.stderr().is_terminal() && !is_quiet(&rt);
    let mut err = CountedWriter::new(rt.stderr());
    let disk = DiskFiles::new(&rt);
    let status = if is_shown {
        let line = ProgressLine::new(rt.alloc(), &rt, rt.stderr());
        let mut files = ShownFiles::new(rt.alloc(), disk, &rt, rt.stderr());
        run_program(&rt, &rt, &HintLines, &mut files, &mut out, &mut err, &line)
    } else {
        let mut files = disk;
        run_program(
            &rt,
            &rt,
            &HintLines,
            &mut files,
            &mut out,
            &mut err,
            &NoProgress,
        )
    };
    ExitCode::from(status)
}
