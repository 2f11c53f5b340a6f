//! The version of the program, and the help of options.

use crate::forms::Verb;
use crate::options::{OptionHelp, OptionName};

pub const VERSION: &str = "0.2.0";

/// The help of an option of a command: its own, unless it does something else in this command.
pub fn option_help(verb: Verb, option: OptionName) -> OptionHelp {
    let (value, text) = match (verb, option) {
        (Verb::Simulate, OptionName::Json) => ("", "The summary as JSON"),
        (Verb::Slots, OptionName::All) => ("", "The empty cells too"),
        (Verb::Import, OptionName::Map) => ("HEADING=COLUMN", MAP),
        (Verb::Simulate, OptionName::Until) => ("US", UNTIL),
        (Verb::Replay, OptionName::Quiet) => ("", "Only the answers of cells that are sent"),
        _ => return option.help(),
    };
    OptionHelp { value, text }
}

const MAP: &str = "\
Take a heading as this column, such as
--map Equipment=receiver; may be given again";

const UNTIL: &str = "\
Simulate until US
[default: one frame after the last word]";
