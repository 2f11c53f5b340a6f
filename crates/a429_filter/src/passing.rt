//! A table of the labels that pass.
ghost use Rattle.std.specs.Prelude.{◌≡◌, ℕ, ◌<◌, slice_index_or, true, false, ◌||◌};
ghost use Rattle.a429_filter.specs.Filters.{passes};

use crate::filters::Filter;
use a429_word::Label;

/// How many labels there are: a label has eight bits (ARINC 429 Part 1, word format).
const LABELS: usize = 256;

/// Of each label whether it passes, so that asking costs the same with 1 filter and with 32.
#[derive(Clone, Copy)]
pub struct Passing {
    labels: [bool; LABELS],
}

impl Passing {
    ghost use Rattle.a429_filter.specs.Passing.{PassesMore};

    /// A table in which each label passes, or none.
    pub fn each(passes: bool) -> Passing
        ensures { (label : ℕ) → label < 256 → slice_index_or result.labels label false ≡ passes }
    {
        Passing {
            labels: [passes; LABELS],
        }
    }

    /// Whether a label passes.
    pub fn passes(&self, label: Label) -> bool
        ensures { result ≡ slice_index_or self.now.labels label false }
    {
        self.labels[usize::from(label.value())]
    }

    /// With the labels that the filter passes.
    pub fn with(&self, filter: &Filter) -> Passing
        ensures { PassesMore self.now filter.now result }
    {
        let mut labels = self.labels;
        for value in 0..LABELS {
            let passes = filter.passes(Label::new(value as u8));
            labels[value] |= passes;
        }
        Passing { labels }
    }
}
