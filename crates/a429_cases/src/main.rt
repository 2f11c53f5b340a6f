//! Runs commands of the program `a429` over files in memory. Each case is data.
//!
//! The arguments are files. The cases of each file are played, and the cases of later files can name its text. A case that
//! fails is printed with what the program did. The last line says how many cases were played, so that none can be lost. The
//! status is 1 if something failed.
//!
//! `data/README.md` describes the form of a file of cases.
#![tactic(auto)]

mod case;
mod files;
mod outcome;
mod outputs;
mod parts;
mod played;
mod playing;
mod reported;
mod spelling;
mod written;

use a429_cli::given_words;
use played::Played;
use playing::take_file;
use std::fs;
use std::io::Write;
use std::process::ExitCode;

fn main(rt: HostRuntime) -> ExitCode {
    let mut played = Played::new(rt.alloc());
    match given_words(rt.alloc(), &rt) {
        Ok(paths) => {
            for path in &paths {
                take_file(&rt, &mut played, path, &fs::read_to_string(&rt, path));
            }
        }
        Err(_) => played.failed.put("the arguments cannot be read\n"),
    }
    let are_met = played.end();
    let _ = rt.stdout().write_all(played.lines());
    ExitCode::from(u8::from(!are_met))
}
