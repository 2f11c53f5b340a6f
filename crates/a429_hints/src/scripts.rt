//! Hints about lines of scripts and of files of words.

use crate::hint::HintText;
use crate::lists::{has_name, say_unknown};
use crate::nearest::Nearest;
use crate::rows::short_text;
use a429_console::refusals::evidence::LineEvidence;

/// The forms of the lines of a script.
const FORMS: &str = "arrive RECEIVER HEX, cell GROUP, frame GROUP, or publish N";

/// What is wrong with a line that is not text.
pub const NOT_UTF8: &str = "the line is not UTF-8";

/// The first words of the lines of a script, separated by spaces.
const VERBS: &str = "arrive cell frame publish";

/// Says what is wrong with a line of a script.
pub fn tell_script_line(line: &LineEvidence, hint: &HintText) {
    let Some(text) = text_or_tell(line, FORMS, hint) else {
        return;
    };
    let (verb, rest) = cut(text);
    match verb {
        "arrive" => tell_arrival(line, rest, hint),
        "cell" | "frame" => tell_unknown("group", rest, &line.groups, hint),
        "publish" => tell_publication(line, rest, hint),
        _ => tell_verb(verb, hint),
    }
}

/// Says what is wrong with a line of a file of words.
pub fn tell_words_line(line: &LineEvidence, hint: &HintText) {
    let Some(text) = text_or_tell(line, "RECEIVER HEX", hint) else {
        return;
    };
    if is_script_word(cut(text).0) {
        return hint.say_line("this is a line of a script; a file of words has lines RECEIVER HEX");
    }
    tell_arrival(line, text, hint);
}

/// The text before the first space, and the text after it.
pub fn cut(text: &str) -> (&str, &str) {
    text.split_once(' ').unwrap_or((text, ""))
}

/// Whether a line of a script begins with this word.
pub fn is_script_word(word: &str) -> bool {
    matches!(word, "arrive" | "cell" | "frame" | "publish")
}

/// The text of a line. If something is wrong with its form, before its words are read, says what, and gives no text.
fn text_or_tell<'a>(line: &'a LineEvidence, form: &str, hint: &HintText) -> Option<&'a str> {
    let Ok(text) = str::from_utf8(&line.bytes) else {
        hint.say_line(NOT_UTF8);
        return None;
    };
    let Some(fault) = fault_of_form(line, text) else {
        return Some(text);
    };
    if fault.ends_with("{}") {
        hint.line_one(fault, form);
    } else {
        hint.say_line(fault);
    }
    None
}

/// What is wrong with the form of a line. A `{}` in it is the place of the right form. `None` if nothing is wrong.
fn fault_of_form(line: &LineEvidence, text: &str) -> Option<&'static str> {
    if text.starts_with('\u{feff}') {
        Some("the file begins with a byte order mark: save it as UTF-8 without one")
    } else if text.ends_with('\r') {
        Some("the line ends with a carriage return: save the file with line feeds only")
    } else if text.is_empty() && line.is_ended {
        Some("the line is empty; each line is {}")
    } else if text.starts_with('#') {
        Some("this file cannot have comments; each line is {}")
    } else if text.contains('\t') {
        Some("the line has a tab; use single spaces")
    } else if text.starts_with(' ') {
        Some("the line begins with a space")
    } else if text.contains("  ") {
        Some("the line has two spaces together; use single spaces")
    } else if text.ends_with(' ') {
        Some("the line ends with a space")
    } else if !line.is_ended {
        Some("the last line has no line feed at its end")
    } else {
        None
    }
}

fn tell_verb(verb: &str, hint: &HintText) {
    let shown = short_text(verb);
    let shown = shown.as_str();
    hint.begin(": ");
    hint.say_one("{?} is not an event", shown);
    Nearest::among(hint.alloc, shown, VERBS).tell("; the nearest is {}", hint);
    hint.end_one("; each line is {}", FORMS);
}

/// Says that a line names no receiver or group.
fn tell_unknown(kind: &str, name: &str, names: &[String], hint: &HintText) {
    hint.begin(": ");
    say_unknown(kind, name, names, hint);
    hint.end("");
}

/// Says what is wrong with a receiver and a word.
pub fn tell_arrival(line: &LineEvidence, text: &str, hint: &HintText) {
    let (receiver, word) = cut(text);
    if has_name(&line.receivers, receiver) {
        tell_word(word, hint);
    } else {
        tell_unknown("receiver", receiver, &line.receivers, hint);
    }
}

/// Says what is wrong with a word.
fn tell_word(word: &str, hint: &HintText) {
    if word.is_empty() {
        hint.say_line("the word is missing; it must be eight hexadecimal digits");
    } else if word.starts_with("0x") || word.starts_with("0X") {
        hint.line_one(
            "{?} begins with 0x; write only the eight hexadecimal digits",
            word,
        );
    } else if word.contains(' ') {
        hint.line_one(
            "{?} is more than one word; a line has one word of eight hexadecimal digits",
            word,
        );
    } else {
        tell_no_word(word, hint);
    }
}

/// Says that a text is not a word, and how long it is.
pub fn tell_no_word(text: &str, hint: &HintText) {
    hint.line_two(
        "{?} is not a word: it has {} characters, and a word is eight hexadecimal digits",
        text,
        text.len(),
    );
}

/// Says what is wrong with the number of a further table.
fn tell_publication(line: &LineEvidence, number: &str, hint: &HintText) {
    if number.starts_with('+') || number.starts_with('-') {
        return hint.line_one("{?} has a sign; write the number without it", number);
    }
    match line.further {
        0 => hint.say_line("no further table is given; name it after the script"),
        1 => hint.line_one(
            "{?} is not the number of a further table: there is one, number 1",
            number,
        ),
        further => hint.line_two(
            "{?} is not the number of a further table: there are {}, numbered from 1",
            number,
            further,
        ),
    }
}
