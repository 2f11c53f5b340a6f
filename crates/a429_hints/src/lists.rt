//! Lists of names in a hint.

use crate::hint::HintText;
use crate::nearest::Nearest;
use crate::rows::short_text;
use a429_table::text_at;
use a429_text::{CsvLine, Row};
use std::alloc::Global;
use std::cmp::min;
use toml::Value;

/// How many fields of a heading are looked at: as many columns as spreadsheet programs have.
const FIELDS: usize = 16384;

/// The number of fields of a heading that are looked at.
pub fn field_count(heading: &CsvLine) -> usize {
    min(heading.len(), FIELDS)
}

/// The maximum number of names that a hint lists.
pub const LISTED: usize = 16;

/// What has a name.
pub trait Named {
    fn name(&self) -> &str;
}

impl Named for String {
    fn name(&self) -> &str {
        self.as_str()
    }
}

impl Named for Value {
    fn name(&self) -> &str {
        text_at(self, "name")
    }
}

/// The text of bytes; the empty text if they are not UTF-8.
pub fn text_of(bytes: &[u8]) -> &str {
    str::from_utf8(bytes).unwrap_or("")
}

/// The text of a row in a column; empty if there is none.
pub fn text_in(row: &Row, column: usize) -> &str {
    match row.text(column) {
        Ok(Some(text)) => text_of(text),
        _ => "",
    }
}

/// Whether a name is one of these.
pub fn has_name<N: Named>(names: &[N], name: &str) -> bool {
    names.iter().any(|known| known.name() == name)
}

/// Says that a name is unknown, which name is the nearest, and which names there are.
pub fn say_unknown<N: Named>(kind: &str, name: &str, names: &[N], hint: &HintText) {
    let shown = short_text(name);
    hint.say_two("no {} has the name {?}", kind, name);
    nearest_of(hint.alloc, shown.as_str(), names).tell("; the nearest is {}", hint);
    if names.is_empty() {
        return hint.say("; the table has none");
    }
    hint.say_one("; the {}s are", kind);
    for known in names.iter().take(LISTED) {
        hint.say_one(" {}", known.name());
    }
    say_more(names.len(), hint);
}

/// Which of these names is the nearest to a text.
pub fn nearest_of<'a, N: Named>(alloc: Global, text: &'a str, names: &'a [N]) -> Nearest<'a> {
    let mut nearest = Nearest::to(text);
    for known in names {
        nearest = nearest.or(alloc, known.name());
    }
    nearest
}

/// Says how many names are not listed, if there are any.
pub fn say_more(count: usize, hint: &HintText) {
    if count > LISTED {
        hint.say_one(" and {} more", count - LISTED);
    }
}

/// The text under a name in rows `NAME: TEXT`; empty if there is none.
pub fn text_under(rows: &[&'static str], name: &str) -> &'static str {
    for row in rows {
        match row.split_once(": ") {
            Some((key, text)) if key == name => return text,
            _ => {}
        }
    }
    ""
}
