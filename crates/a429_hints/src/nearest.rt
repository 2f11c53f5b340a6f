//! The nearest of some names.

use crate::hint::HintText;
use std::alloc::Global;
use strsim::levenshtein;

/// The name nearest to a text, and how many edits lead to it.
#[derive(Clone, Copy)]
pub struct Nearest<'a> {
    text: &'a str,
    /// How many letters the text and all names have before these.
    common: usize,
    best: Option<(usize, &'a str)>,
}

impl<'a> Nearest<'a> {
    /// The name nearest to a text, before any name was compared.
    pub fn to(text: &'a str) -> Nearest<'a> {
        Nearest::after(0, text)
    }

    /// The name nearest to a text, before any name was compared. The text and all names have this number of letters
    /// before these.
    pub fn after(common: usize, text: &'a str) -> Nearest<'a> {
        Nearest {
            text,
            common,
            best: None,
        }
    }

    /// The name nearest to a text, among names that are separated by spaces.
    pub fn among(alloc: Global, text: &'a str, names: &'a str) -> Nearest<'a> {
        let mut nearest = Nearest::to(text);
        for name in names.split(' ') {
            nearest = nearest.or(alloc, name);
        }
        nearest
    }

    /// Compares one more name. If an allocation fails, the name is left out.
    pub fn or(self, alloc: Global, name: &'a str) -> Nearest<'a> {
        let Ok(edits) = levenshtein(alloc, self.text, name) else {
            return self;
        };
        match self.best {
            Some((fewest, _)) if fewest <= edits => self,
            _ => Nearest {
                text: self.text,
                common: self.common,
                best: Some((edits, name)),
            },
        }
    }

    /// The nearest name. `None` if no name was compared, if the text is a name itself, or if more than half of the
    /// letters differ.
    pub fn other_name(self) -> Option<&'a str> {
        match self.best {
            Some((0, _)) => None,
            _ => self.name(),
        }
    }

    /// The nearest name. `None` if no name was compared, or if more than half of its letters differ.
    pub fn name(self) -> Option<&'a str> {
        match self.best {
            Some((edits, name)) if edits <= name.len().saturating_add(self.common) / 2 => {
                Some(name)
            }
            _ => None,
        }
    }

    /// Says a form with the nearest name, if at most half of its letters differ.
    pub fn tell(self, form: &str, hint: &HintText) {
        if let Some(name) = self.name() {
            hint.say_one(form, name);
        }
    }
}
