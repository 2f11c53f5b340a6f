//! The text of a hint.

use crate::rows::short_text;
use a429_console::files::reading::printable_name;
use std::alloc::{AllocError, Global};
use std::cell::{Cell, RefCell};
use std::fmt::Display;
use std::io;
use std::io::Write;

/// The maximum number of lines of the hints of one run: a terminal shows them at once. One last line counts the others.
pub const LINES: usize = 20;

/// The lines of a hint, in memory. If an allocation fails, none of them is written. A control character is written as its
/// number: a line may quote a file of someone else, and a terminal obeys control characters.
///
/// A text to fill in is a form with a mark for each value: `{}` is a number or a text as it is, `{..}` the first 48 bytes of a
/// text, and `{?}` these in quotes. One call for a whole line costs the proof less than a call for each piece.
///
/// It is written by a shared reference, which costs the proof of each function that says something less than `&mut`. No
/// contract is about what it has.
#[derive(Drop)]
pub struct HintText {
    pub alloc: Global,
    /// What the next lines are about.
    file: RefCell<Option<String>>,
    line: Cell<Option<usize>>,
    lines: RefCell<String>,
    count: Cell<usize>,
    left_out: Cell<u64>,
    is_refused: Cell<bool>,
}

impl HintText {
    /// A hint without lines.
    pub fn new(alloc: Global) -> HintText {
        HintText {
            alloc,
            file: RefCell::new(None),
            line: Cell::new(None),
            lines: RefCell::new(String::new(alloc)),
            count: Cell::new(0),
            left_out: Cell::new(0),
            is_refused: Cell::new(false),
        }
    }

    /// Writes the lines to `err`. Error: the writer's, or that an allocation failed.
    pub fn put<V: Write>(&self, err: &mut V) -> io::Result<()> {
        let more = self.left_out.get();
        if more > 0 {
            // so that there is room for one more line
            self.count.set(0);
            writeln!(self, "a429: and {more} more");
        }
        match self.lines.try_borrow() {
            Ok(lines) if !self.is_refused.get() => err.write_all(lines.as_str().as_bytes()),
            _ => Err(io::Error::from(AllocError)),
        }
    }

    /// Records that an allocation failed: nothing is written.
    pub fn give_up(&self) {
        self.is_refused.set(true);
    }

    /// Whether there are as many lines as are shown.
    fn is_full(&self) -> bool {
        self.count.get() >= LINES
    }

    /// Called by `write!`.
    pub fn write_fmt<D: Display + Drop>(&self, value: D) {
        if self.is_full() {
            return;
        }
        if let Ok(mut lines) = self.lines.try_borrow_mut() {
            if lines.write_fmt(value).is_err() {
                self.give_up();
            }
        }
    }

    /// Adds a text to the line. A control character is written as its number, such as `\u{7}`.
    pub fn say(&self, words: &str) {
        for c in words.chars() {
            if c.is_control() {
                write!(self, "\\u{{{:x}}}", u32::from(c));
            } else {
                self.write_fmt(c);
            }
        }
    }

    /// Says the words of a form up to its mark, and a value at the mark. The answer is the form after the mark.
    fn fill<'a, S: Shown>(&self, form: &'a str, value: S) -> &'a str {
        let (words, marked) = form.split_once('{').unwrap_or((form, ""));
        let (mark, rest) = marked.split_once('}').unwrap_or(("", marked));
        self.say(words);
        value.show(mark, self);
        rest
    }

    /// Says a form with a value.
    pub fn say_one<S: Shown>(&self, form: &str, value: S) {
        let rest = self.fill(form, value);
        self.say(rest);
    }

    /// Says a form with two values.
    pub fn say_two<S: Shown, T: Shown>(&self, form: &str, value: S, other: T) {
        let rest = self.fill(form, value);
        self.say_one(rest, other);
    }

    /// Says words, and a value as it displays.
    pub fn say_value<D: Display + Drop>(&self, words: &str, value: D) {
        self.say(words);
        self.write_fmt(value);
    }

    /// The lines that follow are about this file. A control character of its name is written as `?`.
    pub fn turn_to(&self, file: &str) {
        self.line.set(None);
        match printable_name(self.alloc, file) {
            Ok(shown) => {
                let _ = self.file.try_replace(Some(shown));
            }
            Err(_) => self.give_up(),
        }
    }

    /// The lines that follow are about this line of the file, counted from 1.
    pub fn turn_to_line(&self, line: usize) {
        self.line.set(Some(line));
    }

    /// Begins a line: says the file and the line in it, as far as there are such, and words.
    pub fn begin(&self, words: &str) {
        self.say("a429");
        self.say_file(": {}");
        if let Some(line) = self.line.get() {
            self.say_one(", line {}", line);
        }
        self.say(words);
    }

    /// Says a form with the name of the file, if there is one.
    pub fn say_file(&self, form: &str) {
        if let Ok(file) = self.file.try_borrow() {
            if let Some(name) = &*file {
                self.say_one(form, name.as_str());
            }
        }
    }

    /// Says the last words of a line.
    pub fn end(&self, words: &str) {
        self.say(words);
        if self.is_full() {
            return self.leave_out(1);
        }
        self.write_fmt('\n');
        self.count.set(self.count.get().saturating_add(1));
    }

    /// Says the end of a line: a form with a value.
    pub fn end_one<S: Shown>(&self, form: &str, value: S) {
        let rest = self.fill(form, value);
        self.end(rest);
    }

    /// Says the end of a line: a form with two values.
    pub fn end_two<S: Shown, T: Shown>(&self, form: &str, value: S, other: T) {
        let rest = self.fill(form, value);
        self.end_one(rest, other);
    }

    /// Says a whole line.
    pub fn say_line(&self, words: &str) {
        self.begin(": ");
        self.end(words);
    }

    /// Says a whole line: a form with a value.
    pub fn line_one<S: Shown>(&self, form: &str, value: S) {
        self.begin(": ");
        self.end_one(form, value);
    }

    /// Says a whole line: a form with two values.
    pub fn line_two<S: Shown, T: Shown>(&self, form: &str, value: S, other: T) {
        self.begin(": ");
        self.end_two(form, value, other);
    }

    /// Says a whole line: a form with three values.
    pub fn line_three<S: Shown, T: Shown, U: Shown>(
        &self,
        form: &str,
        value: S,
        other: T,
        third: U,
    ) {
        self.begin(": ");
        let rest = self.fill(form, value);
        self.end_two(rest, other, third);
    }

    /// Counts lines that are not shown.
    pub fn leave_out(&self, lines: usize) {
        let before = self.left_out.get();
        self.left_out.set(before.saturating_add(lines as u64));
    }
}

/// A value of a form.
pub trait Shown: Drop {
    /// Says the value, by what its mark has between the braces.
    fn show(self, mark: &str, hint: &HintText);
}

impl<'a> Shown for &'a str {
    fn show(self, mark: &str, hint: &HintText) {
        if mark.is_empty() {
            return hint.say(self);
        }
        let shown = short_text(self);
        if mark == "?" {
            write!(hint, "{:?}", shown.as_str());
        } else {
            hint.say(shown.as_str());
        }
    }
}

impl Shown for u64 {
    fn show(self, _: &str, hint: &HintText) {
        hint.write_fmt(self);
    }
}

impl Shown for u32 {
    fn show(self, _: &str, hint: &HintText) {
        hint.write_fmt(self);
    }
}

impl Shown for i64 {
    fn show(self, _: &str, hint: &HintText) {
        hint.write_fmt(self);
    }
}

impl Shown for usize {
    fn show(self, _: &str, hint: &HintText) {
        hint.write_fmt(self);
    }
}
