//! The row of a command, by its names.
ghost use Rattle.std.specs.Prelude.{◌≡◌, ◌≤◌, IfSome};
ghost use Rattle.a429_arguments.specs.CommandLine.{IsRow};
ghost use Rattle.a429_arguments.specs.Usage.{is_run, is_whole, trouble_of};

use crate::forms::{AnswerForm, COMMANDS, Row, Verb};
use crate::options::OptionName;

/// The row of a command.
#[derive(Clone, Copy)]
pub struct CommandForm {
    pub verb: Verb,
    pub name: &'static str,
    pub first: &'static str,
    pub second: Option<&'static str>,
    /// What help calls the number of frames.
    pub number: Option<&'static str>,
    pub more: Option<&'static str>,
    pub options: &'static [OptionName],
}

impl Verb {
    /// The row of the command.
    pub fn form(self) -> CommandForm
        ensures row { IsRow result }
        ensures verb { result.verb ≡ self }
    {
        let (_, name, (first, second, number, more), options, _) = COMMANDS[self as usize];
        CommandForm {
            verb: self,
            name,
            first,
            second,
            number,
            more,
            options,
        }
    }

    /// Whether the command runs a station: `command_live` does it, and `command` all others.
    pub fn is_run(self) -> bool
        ensures { result ≡ is_run self }
    {
        matches!(COMMANDS[self as usize].4.form, AnswerForm::Station)
    }

    /// Whether the command prints nothing before it has its whole answer.
    pub fn is_whole(self) -> bool
        ensures { result ≡ is_whole self }
    {
        matches!(COMMANDS[self as usize].4.form, AnswerForm::Whole)
    }

    /// The status of a refusal: 2 of a command whose status 1 says that it found something, and 1 of all others.
    pub fn trouble(self) -> u8
        ensures due { result ≡ trouble_of self }
        ensures least { 1 ≤ result }
        ensures most { result ≤ 2 }
    {
        COMMANDS[self as usize].4.trouble
    }
}

/// The rows of all commands, in the order in which help lists them.
pub fn commands() -> &'static [Row] {
    COMMANDS
}

/// The command of this name. `None` if there is none.
pub fn command_named(name: &str) -> Option<CommandForm>
    ensures { IfSome result (λ form. IsRow form × (form.name.now ≡ name.now)) }
{
    for row in commands() {
        let form = row.0.form();
        if form.name == name {
            return Some(form);
        }
    }
    None
}
