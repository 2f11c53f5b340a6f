//! The numbers of outputs.
ghost use Rattle.std.specs.Prelude.{◌≡◌};

use std::marker::Model;

/// An output of a group, by its number in table order from 0.
#[derive(Clone, Copy, PartialEq, Eq)]
pub struct OutputId {
    number: usize,
}

impl Model for OutputId {
    ghost use Rattle.std.specs.Prelude.{ℕ};

    ghost Value = { ℕ };

    ghost view = { λ id. id.number };

    ghost inverse = { λ n. record { number = n } };
}

impl OutputId {
    /// The output of this number.
    pub fn new(number: usize) -> OutputId
        ensures { result ≡ number }
    {
        OutputId { number }
    }

    /// Its number.
    pub fn number(self) -> usize
        ensures { result ≡ self }
    {
        self.number
    }
}
