//! A case as a file has it, before it is read.

use crate::spelling::cut;
use a429_text::Text;
use std::alloc::{AllocError, Global};

/// A case before it is read: the fields of its row go to the places of its text.
#[derive(Clone, Copy)]
pub struct Written<'a> {
    pub title: &'a str,
    pub text: &'a str,
    pub row: &'a str,
}

/// The marks that the fields of a row replace, each with the next one, which shows that a further field is used.
static PLACES: [(&str, &str); 4] = [
    ("{1}", "{2}"),
    ("{2}", "{3}"),
    ("{3}", "{4}"),
    ("{4}", "{5}"),
];

impl Written<'_> {
    /// Reports it: its title, its row, and what happened to it.
    pub fn report(self, failed: &mut Text, what: &str) {
        failed.fill(&["=== ", self.title, " ", self.row, what], &[]);
    }

    /// The text with the fields of the row in their places. Bars separate the fields; the last field that the text uses
    /// has the rest of the row. Error: an allocation failed.
    pub fn filled(self, alloc: Global) -> Result<String, AllocError> {
        let mut text = String::from_str(alloc, self.text);
        let mut rest = self.row;
        for (mark, further) in &PLACES {
            let (field, after) = first_field(rest, self.text.contains(*further));
            text = replaced(alloc, text, *mark, field.trim());
            rest = after;
        }
        text
    }
}

/// The first field of a row, and the rest of the row. Without a further field it is all of the row.
fn first_field(row: &str, has_further: bool) -> (&str, &str) {
    if has_further {
        cut(row, "|")
    } else {
        (row, "")
    }
}

fn replaced(
    alloc: Global,
    text: Result<String, AllocError>,
    mark: &str,
    field: &str,
) -> Result<String, AllocError> {
    text?.replace(alloc, mark, field)
}
