//! What a command wrote, and its status.

use crate::outputs::Taken;
use crate::reported::Reported;
use crate::spelling::cut;
use a429_cli::CountedWriter;
use a429_text::Text;
use bstr::ByteSlice;
use std::io::ErrorKind;

/// What a command did.
pub struct Outcome {
    pub out: CountedWriter<Taken>,
    pub err: CountedWriter<Taken>,
    pub reported: Reported,
    pub status: u8,
    /// Whether a file was read more often than the arguments name it.
    pub has_reread: bool,
}

impl Drop for Outcome {
    fn drop(self) {
        let Self {
            out: _,
            err: _,
            reported: _,
            status: _,
            has_reread: _,
        } = self;
    }
}

impl Outcome {
    /// The two outputs: first standard error, if so asked.
    pub fn outputs(&self, is_err: bool) -> (&Taken, &Taken) {
        let (out, err) = (&self.out.writer, &self.err.writer);
        if is_err { (err, out) } else { (out, err) }
    }

    /// Whether each output was flushed after its last byte.
    pub fn is_flushed(&self) -> bool {
        let (out, err) = (&self.out.writer, &self.err.writer);
        (out.is_flushed || out.calls == 0) && (err.is_flushed || err.calls == 0)
    }

    /// Whether standard error has each of these lines. Without any it is empty, or has hints.
    pub fn has_errors(&self, lines: Option<&[u8]>) -> bool {
        let err = text_of(&self.err.writer.bytes);
        match lines {
            Some(lines) => !err.is_empty() && has_lines(err, text_of(lines)),
            None => err.is_empty() || self.may_hint() && are_hints(err),
        }
    }

    fn may_hint(&self) -> bool {
        let out = text_of(&self.out.writer.bytes);
        (self.status != 0 || refuses_a_table(out)) && !out.ends_with("refused memory\n")
    }

    /// Reports its status and what it wrote.
    pub fn report(&self, failed: &mut Text) {
        failed.put_number(u64::from(self.status));
        failed.put("\n");
        failed.put_bytes(&self.out.writer.bytes);
        failed.put("--- err\n");
        failed.put_bytes(&self.err.writer.bytes);
    }
}

/// The text that these bytes are.
fn text_of(bytes: &[u8]) -> &str {
    str::from_utf8(bytes).unwrap_or("not UTF-8")
}

/// Whether an output is the stated one. A line `...` matches any text.
pub fn is_output(stated: &[u8], out: &[u8]) -> bool {
    match stated.split_once_str(b"...\n") {
        Some((start, end)) => {
            out.len() >= start.len().saturating_add(end.len())
                && out.starts_with(start)
                && out.ends_with(end)
        }
        None => stated == out,
    }
}

/// Whether each of these lines is found in a text.
fn has_lines(text: &str, lines: &str) -> bool {
    let mut rest = lines;
    for _ in 0..lines.len() {
        let (line, after) = cut(rest, "\n");
        if !text.contains(line) {
            return false;
        }
        rest = after;
    }
    true
}

/// How lines that refuse a table begin. After the refusal of a further table the command goes on.
static TABLE_REFUSALS: [&str; 4] = [
    "refused table ",
    "refused unfit ",
    "refused too-many-buses ",
    "refused station-differs",
];

fn refuses_a_table(out: &str) -> bool {
    for refusal in &TABLE_REFUSALS {
        if out.contains(*refusal) {
            return true;
        }
    }
    false
}

/// Whether each line is a hint.
fn are_hints(err: &str) -> bool {
    let mut rest = err;
    for _ in 0..err.len() {
        if rest.is_empty() {
            break;
        }
        if !rest.starts_with("a429: ") {
            return false;
        }
        rest = cut(rest, "\n").1;
    }
    true
}

/// What standard error gets if standard output failed. If its reader closed it, that is nothing.
pub fn is_told(err: &[u8], kind: ErrorKind) -> bool {
    match kind {
        ErrorKind::BrokenPipe => err.is_empty(),
        _ => err == b"a429: standard output failed\n".as_slice(),
    }
}
