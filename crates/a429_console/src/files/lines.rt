//! Files with one thing a line.
ghost use Rattle.std.specs.Prelude.{◌≡◌, ◌<◌, ℕ, List, Option, Ok, Err, IfSome, length, option_map};
ghost use Rattle.a429_console.specs.Lines.{ReadsLines, first_entry};

use a429_text::cut::cut_at;
use std::alloc::{AllocFailed, Global};
use thiserror::Error;

/// What the lines of a file have to look like, and what one of them states.
pub trait LineForm {
    /// What a line states.
    type Entry: Copy;

    /// What a line states, if it has this form.
    ghost states: { Self → List ℕ → Option Self.Entry };

    /// What is true of all that a line can state.
    ghost fits: { Self → Self.Entry → Type 0 };

    /// What a line states, which is given without its line feed. `None` if the line is faulty.
    fn entry(&self, line: &[u8]) -> Option<Self::Entry>
        ensures stated { result ≡ states self.now line.now }
        ensures fits { IfSome result (fits self.now) };
}

/// Why the lines of a file cannot be read.
#[derive(Clone, Copy, Debug, PartialEq, Eq, Error)]
pub enum LinesFault {
    /// The line of this number, from 1, is the first that does not have the form, or that no line feed ends.
    #[error("line {0}")]
    Line(usize),
    /// An allocation failed.
    #[error("out of memory")]
    NoMemory,
}

impl<T: Drop> From<AllocFailed<T>> for LinesFault {
    ghost use Rattle.std.specs.Prelude.{◌≡◌};
    ghost use Rattle.a429_console.specs.declared.files.lines.LinesFault.TheVariants.{NoMemory};

    ghost from_gives = { λ _ e. e ≡ NoMemory };

    fn from(_error: AllocFailed<T>) -> LinesFault {
        LinesFault::NoMemory
    }
}

/// What the first line of a text states, and the text after the line. `None` if the line is faulty, or no line feed
/// ends it.
pub fn first_entry<'a, F: LineForm>(form: &F, text: &'a [u8]) -> Option<(F::Entry, &'a [u8])>
    ensures entry { option_map (λ p. (p.0, p.1.now)) result ≡ first_entry (F.states form.now) text.entry.now }
    ensures shorter { IfSome result (λ p. length p.1.now < length text.entry.now) }
    ensures fits { IfSome result (λ p. F.fits form.now p.0) }
{
    let (line, rest) = cut_at(text, b'\n')?;
    Some((form.entry(line)?, rest))
}

/// What the lines of a text state, in order. Error: the number of the first faulty line, or an allocation failed.
pub fn read_lines<F: LineForm>(
    alloc: Global,
    form: &F,
    text: &[u8],
) -> Result<Vec<F::Entry>, LinesFault>
    ensures { ReadsLines (F.states form.now) text.now result }
{
    let mut entries = Vec::new(alloc);
    let mut left = text;
    while !left.is_empty() {
        let Some(first) = first_entry(form, left) else {
            return Err(LinesFault::Line(entries.len() + 1));
        };
        entries.push(first.0)?;
        left = first.1;
    }
    Ok(entries)
}
