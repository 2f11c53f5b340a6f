//! What the arguments ask for.
ghost use Rattle.std.specs.Prelude.{Bool, IfOk, List, Option, Some, false, not, option_map, true, unwrap_or, ◌≡◌};
ghost use Rattle.clap.specs.Words.{HasKind, Text, all_of, found_of, rows_of, subcommand_rows_of};
ghost use Rattle.a429_arguments.specs.CommandLine.{is_flag, name_id, row_of};
ghost use Rattle.a429_arguments.specs.Texts.{texts_of};
ghost use Rattle.a429_arguments.specs.Given.{form_of, has_given, is_unset, long_number_given, number_given, dates_of, drift_of, order_of, origin_of, shift_of, text_given, unit_of};
ghost use Rattle.a429_arguments.specs.Requests.{AskedBytes, IsRead, asked_of};
ghost use Rattle.a429_arguments.specs.RequestRows.{AreGivenTexts, AsksFor, IsFound, IsGivenText};
ghost use Rattle.a429_arguments.specs.Usage.{ComesTo, elsewhere, found_kinds, is_live, is_run, kinds_of_words, live_kinds_of_words};

use crate::command_forms::command_named;
use crate::command_line::{build_command, words_error};
use crate::forms::{MOST_FRAMES, Verb};
use crate::options::{OptionKind, OptionName};
use crate::rules::fault_of;
use crate::times::{
    Drift, LogOrigin, Shift, dates_in, drift_in, order_in, origin_in, shift_in, unit_in,
};
use crate::values::{number_up_to, short_number_up_to};
use a429_logs::{BitOrder, DateOrder, TimeUnit};
use a429_text::SheetForm;
use clap::error::ErrorKind;
use clap::{ArgMatches, Error};
use std::alloc::{AllocError, Global};

/// What is asked for: a command, and what it is given. Its row in `forms` says what its names are.
#[derive(Drop)]
pub struct Asked<'a> {
    pub verb: Verb,
    pub first: &'a str,
    /// Empty, if the command is given one name.
    pub second: &'a str,
    /// How many frames; 0, if the command is given no number.
    pub number: u32,
    /// Filters, further tables, or further logs.
    pub more: Vec<&'a str>,
    /// What was found of the options.
    pub found: ArgMatches<'a>,
}

impl<'a> Asked<'a> {
    /// The texts that are given with an option, in their order. With a flag the text `true`.
    pub(crate) fn given_texts(&self, option: OptionName) -> &[&'a str]
        ensures { texts_of result.now ≡ (asked_of self.now).given option }
    {
        let none = &self.more[..0];
        let values = values_or(none, &self.found, option.id());
        if is_unset(option.kind(), values) {
            none
        } else {
            values
        }
    }

    /// The texts that are given with an option that is no flag, in their order.
    pub fn texts(&self, option: OptionName) -> &[&'a str]
        ensures { is_flag option ≡ false → texts_of result.now ≡ (asked_of self.now).given option }
    {
        self.given_texts(option)
    }

    /// The text that is given with an option, if one is: the first of several. With a flag the text `true`.
    pub fn text(&self, option: OptionName) -> Option<&'a str>
        ensures { option_map (λ t. t.now) result ≡ text_given (asked_of self.now).given option }
    {
        self.given_texts(option).first().copied()
    }

    /// Whether an option is given.
    pub fn has(&self, option: OptionName) -> bool
        ensures { result ≡ has_given (asked_of self.now).given option }
    {
        self.text(option).is_some()
    }

    /// The number that is given with an option, if its text is a whole number below 2^32.
    pub fn number(&self, option: OptionName) -> Option<u32>
        ensures { result ≡ number_given (asked_of self.now).given option }
    {
        short_number_up_to(self.text(option)?, u32::MAX)
    }

    /// The number that is given with an option, if its text is a whole number below 2^64.
    pub fn long_number(&self, option: OptionName) -> Option<u64>
        ensures { result ≡ long_number_given (asked_of self.now).given option }
    {
        number_up_to(self.text(option)?, u64::MAX)
    }

    /// The form of what is printed: columns, unless `--csv` or `--json` is given.
    pub fn form(&self) -> SheetForm
        ensures { result ≡ form_of (asked_of self.now).given }
    {
        if self.has(OptionName::Csv) {
            SheetForm::Csv
        } else if self.has(OptionName::Json) {
            SheetForm::Json
        } else {
            SheetForm::Columns
        }
    }

    /// The unit of the times in a log, if `--tick` or `--time` gives one.
    pub fn unit(&self) -> Option<TimeUnit>
        ensures { result ≡ unit_of (asked_of self.now).given }
    {
        match self.number(OptionName::Tick) {
            Some(nanoseconds) => Some(TimeUnit::Ticks(nanoseconds)),
            None => unit_in(self.text(OptionName::Time)?),
        }
    }

    /// The order of days and months in dates, if `--dates` gives one.
    pub fn dates(&self) -> Option<DateOrder>
        ensures { result ≡ dates_of (asked_of self.now).given }
    {
        dates_in(self.text(OptionName::Dates)?)
    }

    /// The order in which the bits of words in a log are written: that of the word, unless `--reversed` is given.
    pub fn order(&self) -> BitOrder
        ensures { result ≡ order_of (asked_of self.now).given }
    {
        self.text(OptionName::Reversed)
            .and_then(order_in)
            .unwrap_or(BitOrder::AsWritten)
    }

    /// From when on they are counted: from 0, unless `--from` is given.
    pub fn origin(&self) -> LogOrigin
        ensures { result ≡ origin_of (asked_of self.now).given }
    {
        self.text(OptionName::From)
            .and_then(origin_in)
            .unwrap_or(LogOrigin::Time(0))
    }

    /// By how much the times of what was sent are moved: by 0, unless `--shift` is given.
    pub fn shift(&self) -> Shift
        ensures { result ≡ shift_of (asked_of self.now).given }
    {
        self.text(OptionName::Shift)
            .and_then(shift_in)
            .unwrap_or(Shift::Later(0))
    }

    /// By how much the clock of what was sent is fast: by nothing, unless `--drift` is given.
    pub fn drift(&self) -> Drift
        ensures { result ≡ drift_of (asked_of self.now).given }
    {
        self.text(OptionName::Drift)
            .and_then(drift_in)
            .unwrap_or(Drift::Fast(0))
    }
}

/// Whether these values are those of a flag that is not given.
fn is_unset(kind: OptionKind, values: &[&str]) -> bool
    ensures { result ≡ is_unset kind (texts_of values.now) }
{
    match (kind, values.first()) {
        (OptionKind::Flag, Some(value)) => *value != "true",
        _ => false,
    }
}

/// The values of an argument, in their order. If it has no values, these.
fn values_or<'t, 'a>(none: &'t [&'a str], found: &'t ArgMatches<'a>, id: &str) -> &'t [&'a str]
    ensures { texts_of result.now ≡ unwrap_or (all_of id.now (rows_of (found_of found.now))) (texts_of none.now) }
{
    found.get_strs(id).unwrap_or(none)
}

/// Reads the arguments, without the program's name. Error: the arguments are no request, or an allocation failed (kind
/// `OutOfMemory`). The error has the usage or help text for people.
pub fn parse<'a>(alloc: Global, words: &'a [&'a str]) -> Result<Asked<'a>, Error>
    // Arguments that ask for a request are read as it. The only error then is that an allocation fails.
    ensures asked { (r : AskedBytes) → AsksFor (texts_of words.entry.now) r → IsRead r result }
    // An error has a kind that the arguments have for `command`; a request means that they have none, unless it is for `live`.
    ensures kinds { ComesTo (kinds_of_words (texts_of words.entry.now)) is_run result }
    // An error has a kind that the arguments have for `command_live`, which does `live` alone.
    ensures live_kinds { ComesTo (live_kinds_of_words (texts_of words.entry.now)) (λ verb. not (is_run verb)) result }
{
    let command = build_command(alloc)?;
    let mut matches = command.try_get_matches_from(words)?;
    // by reference, so that its returns do not drop them: each would cost the check
    read_matches(alloc, &mut matches)
}

/// The error for a command which another call does.
pub fn other_call_error(alloc: Global, message: &str) -> Error
    ensures { HasKind (elsewhere true) result }
{
    words_error(alloc, None, ErrorKind::InvalidSubcommand, message)
}

/// What the arguments ask for, by what was found of them. Error: a text of an option has not its form, or options do not
/// go together.
fn read_matches<'a>(alloc: Global, matches: &mut ArgMatches<'a>) -> Result<Asked<'a>, Error>
    ensures asked { (r : AskedBytes) → IsFound (subcommand_rows_of matches.old) r → IsRead r result }
    // For both calls: `is_other` says of whether the command is `live` whether the other call does it.
    ensures kinds { (is_other : Bool → Bool) → ComesTo (found_kinds (subcommand_rows_of matches.old)
        (is_other (is_live (subcommand_rows_of matches.old)))) (λ verb. is_other (is_run verb)) result }
{
    let asked = read_asked(alloc, matches)?;
    match fault_of(&asked) {
        None => Ok(asked),
        Some(fault) => Err(words_error(
            alloc,
            Some(&asked.verb.form()),
            ErrorKind::InvalidValue,
            fault,
        )),
    }
}

/// What the arguments ask for, by what was found of them, whether or not it breaks a rule. Error: an allocation failed.
fn read_asked<'a>(alloc: Global, matches: &mut ArgMatches<'a>) -> Result<Asked<'a>, AllocError>
    ensures found { IfOk result (λ q. subcommand_rows_of matches.old ≡ Some ((row_of q.verb).name, rows_of (found_of q.found))) }
    ensures asked { IfOk result (λ q. (r : AskedBytes) → IsFound (subcommand_rows_of matches.old) r → asked_of q ≡ r) }
{
    // by the rules of the command line the name of a command is there
    let Some((name, found)) = matches.remove_subcommand() else {
        return Err(AllocError);
    };
    let Some(form) = command_named(name) else {
        return Err(AllocError);
    };
    let more = names_in(alloc, &found, form.more)?;
    Ok(Asked {
        verb: form.verb,
        first: name_in(&found, Some(form.first)),
        second: name_in(&found, form.second),
        // its rule lets no other text through
        number: short_number_up_to(name_in(&found, form.number), MOST_FRAMES).unwrap_or(0),
        more,
        found,
    })
}

/// The text that is given, if the command takes it. By the rules of the command line it is there then.
fn name_in<'a>(found: &ArgMatches<'a>, id: Option<&str>) -> &'a str
    ensures { (text : Text) → IsGivenText (rows_of (found_of found.now)) (name_id id.entry) text → result.now ≡ text }
{
    match id {
        Some(id) => found.get_str(id).unwrap_or(""),
        None => "",
    }
}

/// The names that are given as often as one likes, in their order, if the command is given any.
fn names_in<'a>(
    alloc: Global,
    found: &ArgMatches<'a>,
    id: Option<&str>,
) -> Result<Vec<&'a str>, AllocError>
    ensures { IfOk result (λ names. (texts : List Text)
        → AreGivenTexts (rows_of (found_of found.now)) (name_id id.entry) texts → texts_of names.items ≡ texts) }
{
    match id {
        Some(id) => Vec::from_slice(alloc, values_or(&[], found, id)),
        None => Ok(Vec::new(alloc)),
    }
}
