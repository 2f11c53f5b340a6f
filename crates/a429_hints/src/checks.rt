//! Hints about a line of a plan text: what was found, and what was expected.

use crate::files::{REFUSED_OUTPUT, other_file};
use crate::hint::HintText;
use crate::lists::text_of;
use crate::reasons::meaning;
use a429_arguments::options::OptionName;
use a429_arguments::requests::Asked;
use a429_console::answered::Objection;
use a429_text::cut::{first_line, lines_from};

/// Says what is wrong with a line of a plan text.
pub fn tell_objection(text: &[u8], objection: &Objection, hint: &HintText) {
    hint.turn_to_line(objection.line);
    if text.starts_with(b"refused ") {
        return hint.say_line(REFUSED_OUTPUT);
    }
    if let Some(advice) = other_file(text) {
        return hint.say_line(advice);
    }
    let rest = lines_from(text, objection.line);
    let found = text_of(first_line(rest));
    let expected = objection.expected.as_str();
    match objection.reason {
        "form" => tell_form(rest, found, expected, hint),
        "shared" => hint.line_one(
            "the output of line {} uses a cell of this output: same bus, and offsets that are equal modulo the smaller period",
            expected,
        ),
        "bound" => hint.line_three(
            "found `{..}`, expected `{}`: {}",
            found,
            expected,
            meaning("bound"),
        ),
        reason => tell_value(found, reason, expected, hint),
    }
}

/// Says what is wrong with a line of the plan text that was given for a table, or for the second of two.
pub fn tell_plan(
    asked: &Asked,
    objection: &Objection,
    text: &[u8],
    is_second: bool,
    hint: &HintText,
) {
    let option = if is_second {
        OptionName::OtherPlan
    } else {
        OptionName::Plan
    };
    hint.turn_to(asked.text(option).unwrap_or(""));
    tell_objection(text, objection, hint);
    hint.say_line(
        "`a429 plan` with --keep makes a plan in which as many outputs of this text stay as can",
    );
}

/// Says the form that is expected of a line, the first of the rest of a text. It is empty after the last line.
fn tell_form(rest: &[u8], found: &str, expected: &str, hint: &HintText) {
    hint.begin(": ");
    if expected.is_empty() {
        return hint.end("the text must end before this line");
    }
    if found.starts_with('\u{feff}') {
        return hint.end("the file begins with a byte order mark: save it as UTF-8 without one");
    }
    if rest.is_empty() {
        hint.say("the line is missing; ");
    } else if found.ends_with('\r') {
        return hint.end("the line ends with a carriage return: save the file with line feeds only");
    } else if !rest.contains(&b'\n') {
        hint.say("the line has no line feed at its end; ");
    }
    hint.end_one("expected `{}`", expected);
}

/// Says which value was found, which was expected if only one is right, and what that is.
fn tell_value(found: &str, reason: &str, expected: &str, hint: &HintText) {
    hint.begin(": found ");
    if reason == "place" {
        hint.say_two(
            "bus {} offset {}",
            value_at(found, "bus"),
            value_at(found, "offset"),
        );
    } else {
        hint.say_one("{..}", value_at(found, reason));
    }
    if !expected.is_empty() {
        hint.say_one(", expected {}", expected);
    }
    hint.end_one(": {}", meaning(reason));
}

/// The value after a key of a line; empty if there is none. A line is key, value, key, value, ..
fn value_at<'a>(line: &'a str, key: &str) -> &'a str {
    let mut words = line.split(' ');
    while let Some(word) = words.next() {
        let value = words.next().unwrap_or("");
        if word == key {
            return value;
        }
    }
    ""
}
