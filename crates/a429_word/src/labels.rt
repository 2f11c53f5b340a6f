//! Labels, and how they are written.
ghost use Rattle.std.specs.Prelude.{◌≡◌, ◌<◌, ◌^◌, ℕ, Ok, IfOk, Some};
ghost use Rattle.a429_word.specs.Texts.{label_value, octal};

use std::fmt;
use std::marker::Model;
use thiserror::Error;

/// A label: the name of what a word carries, bits 1 to 8 of the word with bit 1 the highest
/// (ARINC 429 Part 1, word format).
#[derive(Clone, Copy, PartialEq, Eq)]
pub struct Label {
    value: u8,
}

impl Model for Label {
    ghost use Rattle.std.specs.Prelude.{ℕ};

    ghost Value = { ℕ };

    ghost view = { λ label. label.value };

    ghost inverse = { λ n. record { value = n } };
}

/// The text is not one of `000` to `377` in octal digits.
#[derive(Clone, Copy, Debug, PartialEq, Eq, Error)]
#[error("a label is three octal digits, 000 to 377")]
pub struct LabelText;

impl Label {
    /// The label of this number, as its eight bits read with bit 1 the highest.
    pub fn new(value: u8) -> Label
        ensures { result ≡ value }
    {
        Label { value }
    }

    /// Reads three octal digits, `000` to `377`, as labels are written (ARINC 429 Part 1). Error: any other text.
    #[tactic(auto, using(crate::proofs::LabelTexts::written, crate::proofs::LabelTexts::value_of_written))]
    pub fn parse(text: &str) -> Result<Label, LabelText>
        ensures printed { IfOk result (λ label. text.now ≡ octal label) }
        ensures each { (value : ℕ) → value < 2 ^ 8 → text.now ≡ octal value → result ≡ Ok value }
    {
        Label::of_digits(text.as_bytes()).ok_or(LabelText)
    }

    /// The label of three octal digits, `000` to `377`; `None` for any other bytes.
    #[tactic(auto, unfolding(crate::specs::Texts::label_value))]
    pub fn of_digits(digits: &[u8]) -> Option<Label>
        ensures { result ≡ label_value digits.now }
    {
        match digits {
            [high @ b'0'..=b'3', middle @ b'0'..=b'7', low @ b'0'..=b'7'] => {
                let value = (high - b'0') * 64 + (middle - b'0') * 8 + (low - b'0');
                Some(Label { value })
            }
            _ => None,
        }
    }

    /// Its number, 0 to 255.
    pub fn value(self) -> u8
        ensures { result ≡ self }
    {
        self.value
    }
}

impl fmt::Display for Label {
    ghost output = { λ label. Some (octal label) };

    /// Three octal digits.
    #[tactic(auto, using(std::proofs::lemmas::Fmt::decimal_digit))]
    fn fmt<W: fmt::Write>(&self, f: &mut fmt::Formatter<W>) -> fmt::Result {
        let value = self.value;
        write!(f, "{}{}{}", value / 64, value / 8 % 8, value % 8)
    }
}
