//! Hints about usage errors.

use crate::hint::HintText;
use crate::nearest::Nearest;
use crate::rows::short_text;
use a429_arguments::command_forms::{CommandForm, command_named, commands};
use a429_arguments::options::{OPTIONS, OptionName};

/// Says which command or which option is nearest to an unknown one, or which commands have an option.
pub fn tell_nearest_word(words: &[&str], hint: &HintText) {
    let named = command_word(words);
    tell_command(named, hint);
    let form = command_named(named);
    for word in words {
        if *word == "--" {
            return;
        }
        tell_if_option(form, word, hint);
    }
}

/// The argument that names a command: the first one, or the one after `help`.
fn command_word<'a>(words: &[&'a str]) -> &'a str {
    let first = words.first().copied().unwrap_or("help");
    match words.get(1) {
        Some(second) if first == "help" => second,
        _ => first,
    }
}

/// Says what to write in the place of an argument that names no command.
fn tell_command(word: &str, hint: &HintText) {
    if word == "version" || word == "-v" {
        hint.say_line("for the version write -V or --version");
    } else {
        tell_nearest_command(word, hint);
    }
}

/// Says which command is nearest to an argument that is none, in any case of its letters. If two are equally near, it is the
/// one that is listed first. An option is no such argument.
fn tell_nearest_command(word: &str, hint: &HintText) {
    let shown = short_text(word);
    let Ok(small) = shown.as_str().to_ascii_lowercase(hint.alloc) else {
        return;
    };
    let mut nearest = Nearest::to(small.as_str());
    for row in commands() {
        nearest = nearest.or(hint.alloc, row.1);
    }
    match nearest.or(hint.alloc, "help").name() {
        Some(name) if name == word => {}
        Some(name) => hint.line_two("{?} is not a command; the nearest is {}", word, name),
        None if word.starts_with('-') => {}
        None => hint.line_one("{?} is not a command; a429 --help lists them", word),
    }
}

/// Says what is wrong with an argument that is an option, if the command of this form does not have it.
fn tell_if_option(form: Option<CommandForm>, word: &str, hint: &HintText) {
    if let Some(name) = word.strip_prefix("--") {
        let (name, _) = name.split_once('=').unwrap_or((name, ""));
        let shown = short_text(name);
        tell_option(form, shown.as_str(), hint);
    } else if let Some(name) = word.strip_prefix('-') {
        if commands().iter().any(|row| has_option(row.3, name)) && name.len() > 1 {
            hint.line_one("write --{..}", name);
        }
    }
}

/// Whether the option of this name is one of these.
fn has_option(options: &[OptionName], name: &str) -> bool {
    options.iter().any(|option| option.id() == name)
}

/// Says which commands have an option that the command of this form lacks, or which option is nearest to one that no command
/// has.
fn tell_option(form: Option<CommandForm>, name: &str, hint: &HintText) {
    if !commands().iter().any(|row| has_option(row.3, name)) {
        return tell_nearest_option(name, hint);
    }
    match form {
        Some(form) if !has_option(form.options, name) => tell_owners(form.name, name, hint),
        _ => {}
    }
}

/// Says which commands have an option that this command lacks.
fn tell_owners(command: &str, name: &str, hint: &HintText) {
    hint.begin(": ");
    hint.say_two("{} has no --{}; it is an option of", command, name);
    for owner in commands() {
        if has_option(owner.3, name) {
            hint.say_one(" {}", owner.1);
        }
    }
    hint.end("");
}

/// Says which option is nearest to one that is none. Its two hyphens are left out of the comparison.
fn tell_nearest_option(name: &str, hint: &HintText) {
    let mut nearest = Nearest::after(2, name);
    for option in OPTIONS {
        nearest = nearest.or(hint.alloc, option.1);
    }
    let nearest = nearest.or(hint.alloc, "help").or(hint.alloc, "version");
    if let Some(other) = nearest.other_name() {
        hint.line_two(
            "\"--{}\" is not an option; the nearest is --{}",
            name,
            other,
        );
    }
}

/// Says how to write what other programs take: the name of a file for the answer, a number with `%`, or a value after an
/// option in another form.
pub fn tell_habits(words: &[&str], hint: &HintText) {
    let mut before = "";
    for word in words {
        if word.ends_with(".svg") || word.ends_with(".html") {
            hint.line_one("to write a file, add > before its name: >{..}", *word);
        } else if let Some(number) = word.strip_suffix('%') {
            hint.line_one("write {..} without %", number);
        } else {
            tell_value(before, word, hint);
        }
        before = word;
    }
}

/// Says how to write a value after an option.
fn tell_value(option: &str, word: &str, hint: &HintText) {
    if option == "--bnr" && word.starts_with('-') {
        hint.line_one("write --bnr={..}", word);
    } else if option == "--until" {
        tell_microseconds(word, hint);
    } else if option == "--ssm" || option == "--sdi" {
        tell_bits(option, word, hint);
    } else if option == "--bcd" {
        if let Some(digits) = word.strip_prefix('-') {
            let form = "the sign of BCD data is its SSM: write --bcd {..} --ssm 3";
            hint.line_one(form, digits);
        }
    }
}

/// Says the microseconds of a time with a unit.
fn tell_microseconds(word: &str, hint: &HintText) {
    for (unit, micros) in [("us", 1), ("ms", 1000), ("s", 1_000_000)] {
        if let Some(number) = word.strip_suffix(unit) {
            let time = number.parse::<u64>().ok();
            if let Some(time) = time.and_then(|time| time.checked_mul(micros)) {
                hint.line_one("--until is in microseconds: write --until {}", time);
            }
            return;
        }
    }
}

/// Says the number of two bits.
fn tell_bits(option: &str, word: &str, hint: &HintText) {
    let number: u32 = match word {
        "10" => 2,
        "11" => 3,
        _ => return,
    };
    let form = "{} takes a number from 0 to 3: for the bits {} write {}";
    hint.line_three(form, option, word, number);
}
