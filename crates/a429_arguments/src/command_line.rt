//! The command line: its commands.
ghost use Rattle.std.specs.Prelude.{◌≡◌, ◌∷◌, [], IfOk, Some, fold, map};
ghost use Rattle.clap.specs.Words.{HasKind, app_of, kind_of, new_app, with_rule, with_subcommand};
ghost use Rattle.a429_arguments.specs.CommandLine.{HasRule, bare_line, command_line, form_row, given_rule, option_rule, name_id, row_app, row_of, with_any, with_commands};

use crate::command_forms::CommandForm;
use crate::forms::{COMMANDS, CommandHelp, MOST_FRAMES, Row, Verb, help_of};
use crate::help::{VERSION, option_help};
use crate::options::{OptionHelp, OptionKind, OptionName};
use crate::program_help::PROGRAM;
use clap::builder::ValueParser;
use clap::error::ErrorKind;
use clap::{Arg, ArgAction, Command, Error};
use std::alloc::{AllocError, Global};

/// What a command is given that is no option.
#[derive(Clone, Copy)]
pub enum Given {
    Name,
    /// A number of frames.
    Number,
    /// As many names as one likes.
    Names,
}

/// The argument of what is given. A name and a number must be given.
fn given_argument<'a>(alloc: Global, given: Given, id: &'static str, help: &'static str) -> Arg<'a>
    ensures { HasRule result (given_rule given id.now) }
{
    let argument = Arg::new(alloc, id).help(help);
    match given {
        Given::Name => argument.required(true),
        Given::Number => argument
            .required(true)
            .value_parser(ValueParser::unsigned(0, u64::from(MOST_FRAMES))),
        Given::Names => argument.action(ArgAction::Append),
    }
}

/// A command with one thing more that it is given, if help has a name for it.
fn with_given<'a>(
    alloc: Global,
    command: Command<'a>,
    given: Given,
    id: Option<&'static str>,
    help: &'static str,
) -> Result<Command<'a>, AllocError>
    ensures { IfOk result (λ c. app_of c ≡ with_any (given_rule given) (app_of command.entry) (name_id id.entry)) }
{
    match id {
        Some(id) => command.arg(given_argument(alloc, given, id, help)),
        None => Ok(command),
    }
}

/// The argument of an option, with this help.
fn option_argument<'a>(alloc: Global, option: OptionName, help: OptionHelp) -> Arg<'a>
    ensures { HasRule result (option_rule option) }
{
    let argument = Arg::new(alloc, option.id())
        .help(help.text)
        .long(option.id());
    match option.kind() {
        OptionKind::Flag => argument.action(ArgAction::SetTrue),
        OptionKind::Text(_) => argument.value_name(help.value),
        OptionKind::Texts(_) => argument.value_name(help.value).action(ArgAction::Append),
        OptionKind::Number { least, most } => argument
            .value_name(help.value)
            .value_parser(ValueParser::unsigned(least, most)),
    }
}

/// A command of this name without arguments. Its help begins with `about`, and ends with an example.
fn named_command<'a>(alloc: Global, name: &'a str, about: &'a str, end: &'a str) -> Command<'a>
    ensures { app_of result ≡ new_app name.entry.now }
{
    Command::new(alloc, name).about(about).after_help(end)
}

/// A command with one option more.
fn with_option<'a>(
    alloc: Global,
    command: Command<'a>,
    verb: Verb,
    option: OptionName,
) -> Result<Command<'a>, AllocError>
    ensures { IfOk result (λ c. app_of c ≡ with_rule (app_of command.entry) (option_rule option)) }
{
    command.arg(option_argument(alloc, option, option_help(verb, option)))
}

/// A command with all its options.
fn with_options<'a>(
    alloc: Global,
    mut command: Command<'a>,
    form: &CommandForm,
) -> Result<Command<'a>, AllocError>
    ensures { IfOk result (λ c. app_of c ≡ fold with_rule (app_of command.entry) (form_row form.now).options) }
{
    for option in form.options {
        command = with_option(alloc, command, form.verb, *option)?;
    }
    Ok(command)
}

/// The command of this form.
fn command_of<'a>(alloc: Global, form: &CommandForm) -> Result<Command<'a>, AllocError>
    ensures { IfOk result (λ c. app_of c ≡ row_app (form_row form.now)) }
{
    let CommandHelp { about, names, end } = help_of(form.verb);
    let command = named_command(alloc, form.name, about, end);
    let command = with_given(alloc, command, Given::Name, Some(form.first), names[0])?;
    let command = with_given(alloc, command, Given::Name, form.second, names[1])?;
    let command = with_given(alloc, command, Given::Number, form.number, names[2])?;
    let command = with_given(alloc, command, Given::Names, form.more, names[3])?;
    with_options(alloc, command, form)
}

/// The command line without its commands.
fn top_command<'a>(alloc: Global) -> Result<Command<'a>, AllocError>
    ensures { IfOk result (λ c. app_of c ≡ bare_line) }
{
    let named = Command::new(alloc, "a429").override_help(PROGRAM);
    let shown = named.version(VERSION).no_binary_name(true);
    let asked = shown.arg_required_else_help(true);
    asked.subcommand_required(true).bin_name("a429")
}

/// A command line with one more command.
fn with_command<'a>(alloc: Global, line: Command<'a>, verb: Verb) -> Result<Command<'a>, AllocError>
    ensures { IfOk result (λ r. app_of r ≡ with_subcommand (app_of line.entry) (row_app (row_of verb)).top) }
{
    match command_of(alloc, &verb.form()) {
        Ok(command) => line.subcommand(command),
        Err(error) => {
            // one call, instead of the drop of each part
            drop(line);
            Err(error)
        }
    }
}

/// A command line with more commands, one of each row.
fn with_commands<'a>(
    alloc: Global,
    mut line: Command<'a>,
    rows: &[Row],
) -> Result<Command<'a>, AllocError>
    ensures { IfOk result (λ r. app_of r ≡ with_commands (app_of line.entry) (map (λ row. row_of row.0) rows.now)) }
{
    for row in rows {
        line = with_command(alloc, line, row.0)?;
    }
    Ok(line)
}

/// The command line of the program. Error: an allocation failed.
#[tactic(auto, unfolding(crate::specs::CommandLine::command_line))]
pub fn build_command<'a>(alloc: Global) -> Result<Command<'a>, AllocError>
    ensures { IfOk result (λ c. app_of c ≡ command_line) }
{
    let line = top_command(alloc)?;
    with_commands(alloc, line, COMMANDS)
}

/// The command of this form, as its usage names it: with the name of the program. Error: an allocation failed.
fn whole_command<'a>(alloc: Global, form: &CommandForm) -> Result<Command<'a>, AllocError> {
    let name = format!(in alloc; "a429 {}", form.name)?;
    command_of(alloc, form)?.bin_name(name.as_str())
}

/// An error with the usage of the command of this form, or of the program.
fn usage_error(
    alloc: Global,
    form: Option<&CommandForm>,
    kind: ErrorKind,
    message: &str,
) -> Result<Error, AllocError>
    ensures { IfOk result (λ e. kind_of e ≡ kind) }
{
    let mut line = match form {
        Some(form) => whole_command(alloc, form)?,
        None => build_command(alloc)?,
    };
    let error = line.error(kind, message);
    drop(line);
    error
}

/// The error of arguments that the command line accepts, but no call can use. `message` says what is wrong with them. The
/// error has the usage of the command of this form; with `None` that of the program. If an allocation fails, the error
/// says that instead.
pub fn words_error(
    alloc: Global,
    form: Option<&CommandForm>,
    kind: ErrorKind,
    message: &str,
) -> Error
    ensures { HasKind (kind ∷ []) result }
{
    match usage_error(alloc, form, kind, message) {
        Ok(error) => error,
        Err(error) => Error::from(error),
    }
}
