//! Commands of the program `a429`: from arguments and files to output bytes and a status. `command` does all but
//! `live`, which `command_live` does.
//!
//! `run_program` is the whole program: it takes what gives the arguments, hints, files, standard output, standard error
//! and threads, and answers the status. So tests run it over files in memory. A folder of `src/` is a command.
//!
//! ```text
//! let mut out = CountedWriter::new(rt.stdout());
//! ..
//! let mut err = CountedWriter::new(rt.stderr());
//! let disk = DiskFiles::new(&rt);
//! ..
//! let line = ProgressLine::new(rt.alloc(), &rt, rt.stderr());
//! let mut files = ShownFiles::new(rt.alloc(), disk, &rt, rt.stderr());
//! run_program(&rt, &rt, &HintLines, &mut files, &mut out, &mut err, &line)
//! ..
//! ExitCode::from(status)
//! ```
#![tactic(auto)]

mod calls;
mod checks;
mod commands;
mod diff;
mod drawings;
mod encode;
mod found;
mod import;
mod keeping;
pub mod laws;
mod lines;
mod lint;
mod live;
mod loads;
mod plans;
mod program;
mod slots;
mod stamping;
mod word;
mod word_rows;

pub use a429_arguments::given::{Arguments, given_words};
pub use a429_arguments::memory::MemoryWords;
pub use a429_arguments::requests::Asked;
pub use a429_console::answered::Answered;
pub use a429_console::files::disk::DiskFiles;
pub use a429_console::files::memory::MemoryFiles;
pub use a429_console::files::pieces::in_one_piece;
pub use a429_console::files::shown::ShownFiles;
pub use a429_console::files::{FileFault, FileReader, FileTrouble, LARGEST_FILE};
pub use a429_console::hints::Hints;
pub use a429_console::output::{CountedWriter, Output, OutputFault};
pub use a429_console::refusals::{CommandRefusal, Refused};
pub use a429_live::{NoProgress, Progress, ProgressLine};
pub use commands::command;
pub use live::command_live;
pub use program::run_program;
