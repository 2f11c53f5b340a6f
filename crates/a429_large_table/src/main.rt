//! The program `a429` on a large table of the disk: its stored run shows that a long argument, a file and an output of more
//! than 64 KiB pass whole. `tools/large-table` writes its files.
#![tactic(auto)]

use a429_cli::{CountedWriter, DiskFiles, NoProgress, run_program};
use a429_hints::HintLines;
use std::process::ExitCode;

fn main(rt: HostRuntime) -> ExitCode {
    let mut files = DiskFiles::new(&rt);
    let mut out = CountedWriter::new(rt.stdout());
    let mut err = CountedWriter::new(rt.stderr());
    ExitCode::from(run_program(
        &rt,
        &rt,
        &HintLines,
        &mut files,
        &mut out,
        &mut err,
        &NoProgress,
    ))
}
