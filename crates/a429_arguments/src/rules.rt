//! The rules that `clap` does not state: which options go together, and which texts an option takes.
ghost use Rattle.std.specs.Prelude.{◌≡◌, is_some};
ghost use Rattle.std.specs.List.{list_all, list_any};
ghost use Rattle.a429_arguments.specs.CommandLine.{kind_of};
ghost use Rattle.a429_arguments.specs.Texts.{texts_of};
ghost use Rattle.a429_arguments.specs.Given.{are_refused, fit, fits, is_broken, is_refusing};
ghost use Rattle.a429_arguments.specs.Requests.{asked_of};

use crate::forms::Verb;
use crate::options::{OptionKind, OptionName, TextForm};
use crate::requests::Asked;
use crate::times::{dates_in, drift_in, order_in, origin_in, shift_in, unit_in};
use crate::tolerances::{is_general_twice, is_tolerance};
use a429_text::renames::{has_one_from_twice, is_rename};

/// A rule.
#[derive(Clone, Copy)]
pub enum Rule {
    /// The first option is given only with the second.
    Needs(OptionName, OptionName),
    /// The two are not given together.
    Excludes(OptionName, OptionName),
    /// One of the three is given, and no other.
    OneOf(OptionName, OptionName, OptionName),
    /// Each text of the option has its form.
    Fits(OptionName),
    /// No two texts of it have one FROM, or are for one group.
    Apart(OptionName),
    /// No two texts of it are for all groups.
    OneGeneral(OptionName),
}

/// The rules, in the order in which they are checked: those of a row, the command that they are for, or `None` for all
/// commands, and what is wrong with arguments that break one of them, for people.
macro_rules! all_rules {
    ($of_rows:ident $($given:tt)*) => {
        $of_rows! { $($given)*
            OneOf(Data, Bnr, Bcd), Some(Verb::Encode), "give exactly one of '--data', '--bnr' and '--bcd'";
            Needs(Bits, Bnr), None, "'--bits' needs '--bnr'";
            Needs(Slack, Rows), None, "'--slack' needs '--rows'";
            Needs(Text, Csv), None, "'--text' needs '--csv'";
            Fits(Channel), None, "'--channel <FROM=TO>' takes a channel, '=' and a name, such as 3=adc-1";
            Apart(Channel), None, "'--channel <FROM=TO>' is given twice for one channel";
            Fits(Map), None, "'--map <HEADING=COLUMN>' takes a heading, '=' and a column, such as Equipment=receiver";
            Apart(Map), None, "'--map <HEADING=COLUMN>' is given twice for one heading";
            Fits(Tolerance), None, "\
'--tolerance <US>' takes 0 to 30000000, or a group, '=' and such a number, as in engine=500";
            Apart(Tolerance), None, "'--tolerance <US>' is given twice for one group";
            OneGeneral(Tolerance), None, "'--tolerance <US>' is given twice for all groups";
            Excludes(Sent, Csv) Excludes(Sent, Json) Excludes(Sent, Summary), None, "\
'--sent' cannot be used with '--csv', '--json' or '--summary'";
            Fits(Width), None, "'--width <N>' must be 64, 128 or 256";
            Fits(Time), None, "'--time <UNIT>' takes us, ms, s or ns";
            Fits(From), None, "'--from <TIME>' takes 'first' or a number of at most 18 digits";
            Fits(Reversed), None, "'--reversed <BITS>' takes label or word";
            Fits(Shift), None, "\
'--shift <US>' takes a number of at most 14 digits, such as 500, or =-500 for the other way";
            Excludes(Csv, Json), None, "'--csv' and '--json' cannot be used together";
            Needs(Json, Summary), Some(Verb::Simulate), "'--json' needs '--summary'";
            Excludes(Code, Csv) Excludes(Code, Json) Excludes(Rows, Csv) Excludes(Rows, Json), None, "\
'--c' and '--rows' cannot be used with '--csv' or '--json'";
            Excludes(Code, Board), None, "'--c' and '--board' cannot be used together";
            Excludes(Board, All), None, "'--all' and '--board' cannot be used together";
            Excludes(Stamp, Json) Excludes(Stamp, Code), None, "'--stamp' cannot be used with '--json' or '--c'";
            Fits(Drift), None, "\
'--drift <PPB>' takes a number of at most 6 digits, such as 50000 for 50 ppm, or =-50000 for the other way";
            Excludes(Align, Shift) Excludes(Align, Drift), None, "'--align' cannot be used with '--shift' or '--drift'";
            Excludes(Table, Rows), None, "'--table' and '--rows' cannot be used together";
            Excludes(Tick, Time), None, "'--tick' and '--time' cannot be used together";
            Fits(Dates), None, "'--dates <ORDER>' takes dmy or mdy";
        }
    };
}

macro_rules! table {
    ($($($rule:ident($($option:ident),*))+, $scope:expr, $message:literal;)*) => {
        &[$($((Rule::$rule($(OptionName::$option),*), $scope)),+),*]
    };
}

macro_rules! message_of {
    ($broken:ident: $($($rule:ident($($option:ident),*))+, $scope:expr, $message:literal;)*) => {
        match $broken {
            $($(Rule::$rule($(OptionName::$option),*))|+ => $message,)*
            _ => "",
        }
    };
}

/// The rules, each with the command that it is for, or `None` for all.
pub static RULES: &[(Rule, Option<Verb>)] = all_rules!(table);

/// What is wrong with arguments that break a rule, for people.
fn message(rule: Rule) -> &'static str {
    all_rules!(message_of rule:)
}

/// Whether a text has this form.
fn fits(form: TextForm, text: &str) -> bool
    ensures { result ≡ fits form text.now }
{
    match form {
        TextForm::Any => true,
        TextForm::Width => text == "64" || text == "128" || text == "256",
        TextForm::Unit => unit_in(text).is_some(),
        TextForm::Origin => origin_in(text).is_some(),
        TextForm::Order => order_in(text).is_some(),
        TextForm::Dates => dates_in(text).is_some(),
        TextForm::Rename => is_rename(text),
        TextForm::Tolerance => is_tolerance(text),
        TextForm::Shift => shift_in(text).is_some(),
        TextForm::Drift => drift_in(text).is_some(),
    }
}

/// Whether all these texts have this form.
fn all_fit(form: TextForm, texts: &[&str]) -> bool
    ensures { result ≡ list_all (fits form) (texts_of texts.now) }
{
    for text in texts {
        if !fits(form, *text) {
            return false;
        }
    }
    true
}

/// Whether each text that is given with the option has its form.
fn fits_option(option: OptionName, texts: &[&str]) -> bool
    ensures { result ≡ fit (kind_of option) (texts_of texts.now) }
{
    match option.kind() {
        OptionKind::Text(form) | OptionKind::Texts(form) => all_fit(form, texts),
        _ => true,
    }
}

/// Whether what is asked for breaks a rule.
fn is_broken(rule: Rule, asked: &Asked<'_>) -> bool
    ensures { result ≡ is_broken (asked_of asked.now).given rule }
{
    match rule {
        Rule::Needs(option, needed) => asked.has(option) && !asked.has(needed),
        Rule::Excludes(option, other) => asked.has(option) && asked.has(other),
        Rule::OneOf(a, b, c) => match (asked.has(a), asked.has(b), asked.has(c)) {
            (true, false, false) | (false, true, false) | (false, false, true) => false,
            _ => true,
        },
        Rule::Fits(option) => !fits_option(option, asked.given_texts(option)),
        Rule::Apart(option) => has_one_from_twice(asked.given_texts(option)),
        Rule::OneGeneral(option) => is_general_twice(asked.given_texts(option)),
    }
}

/// Whether a rule is for the command that is asked for, and what is asked for breaks it.
fn is_refusing(row: &(Rule, Option<Verb>), asked: &Asked<'_>) -> bool
    ensures { result ≡ is_refusing (asked_of asked.now).verb (asked_of asked.now).given row.now }
{
    match row.1 {
        Some(verb) if verb != asked.verb => false,
        _ => is_broken(row.0, asked),
    }
}

/// What is wrong by the first of these rules that is broken.
fn fault_by(rules: &[(Rule, Option<Verb>)], asked: &Asked<'_>) -> Option<&'static str>
    ensures { is_some result ≡ list_any (is_refusing (asked_of asked.now).verb (asked_of asked.now).given) rules.now }
{
    for row in rules {
        if is_refusing(row, asked) {
            return Some(message(row.0));
        }
    }
    None
}

/// What is wrong with what is asked for, by the rules. `None` if nothing is wrong.
pub fn fault_of(asked: &Asked<'_>) -> Option<&'static str>
    ensures { is_some result ≡ are_refused (asked_of asked.now).verb (asked_of asked.now).given }
{
    fault_by(RULES, asked)
}
