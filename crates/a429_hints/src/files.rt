//! Hints about files that cannot be read.

use crate::hint::HintText;
use a429_console::files::FileTrouble;

/// The hint about a file that begins with the line of a refusal.
pub const REFUSED_OUTPUT: &str =
    "this is the output of a command that refused its file; correct that, and run the command again";

/// The hint about a file in UTF-16.
pub const UTF_16: &str = "the file is UTF-16; save it as UTF-8";

/// The text with this number, counted from 1; empty if there is none.
pub fn nth<'a>(texts: &[&'a str], number: usize) -> &'a str {
    texts.get(number.saturating_sub(1)).copied().unwrap_or("")
}

/// Says why the file of this name cannot be read.
pub fn tell_trouble(trouble: FileTrouble, name: &str, hint: &HintText) {
    hint.turn_to(name);
    if let FileTrouble::TooLarge(most) = trouble {
        return hint.line_one("the file has more than {} bytes (the limit)", most);
    }
    hint.say_line(match trouble {
        _ if name == "-" => "standard input cannot be read; it can be given for one file only",
        FileTrouble::Missing => "there is no file of this name",
        FileTrouble::Folder => "this is a folder, not a file",
        FileTrouble::Forbidden => "you have no permission to read the file",
        FileTrouble::TooLarge(_) | FileTrouble::Unknown => return,
    });
}

/// The hint about a capture file.
const CAPTURE: &str = "this is a capture file (pcap); export it as text";

/// The bytes with which kinds of files begin, and what to do about each.
static KINDS: [(&[u8], &str); 6] = [
    (b"\xFF\xFE", UTF_16),
    (b"\xFE\xFF", UTF_16),
    (
        b"\x1F\x8B",
        "the file is compressed (gzip); unpack it first",
    ),
    (b"\xD4\xC3\xB2\xA1", CAPTURE),
    (b"\xA1\xB2\xC3\xD4", CAPTURE),
    (
        b"PK\x03\x04",
        "this is a workbook or an archive; save it as comma-separated values",
    ),
];

/// What kind of file begins with these bytes, and what to do with it. `None` if they begin like no other kind than text
/// in UTF-8.
pub fn other_file(bytes: &[u8]) -> Option<&'static str> {
    for (start, advice) in &KINDS {
        if bytes.starts_with(*start) {
            return Some(*advice);
        }
    }
    match bytes.get(1) {
        Some(0) => Some(UTF_16),
        _ => None,
    }
}
