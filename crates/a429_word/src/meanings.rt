//! What the sign and status matrix says of a word's data.
ghost use Rattle.std.specs.Prelude.{◌≡◌, Some};
ghost use Rattle.a429_word.specs.Meanings.{bcd_meaning, bcd_text, bnr_meaning, bnr_text};

use crate::identifiers::Ssm;
use std::fmt;

/// What the SSM says of BNR data (profile).
#[derive(Clone, Copy, PartialEq, Eq)]
pub enum BnrMeaning {
    /// SSM 00.
    FailureWarning,
    /// SSM 01.
    NoComputedData,
    /// SSM 10.
    FunctionalTest,
    /// SSM 11.
    NormalOperation,
}

/// What the SSM says of BCD data (profile).
#[derive(Clone, Copy, PartialEq, Eq)]
pub enum BcdMeaning {
    /// SSM 00.
    Plus,
    /// SSM 01.
    NoComputedData,
    /// SSM 10.
    FunctionalTest,
    /// SSM 11.
    Minus,
}

impl Ssm {
    /// What it says of BNR data (profile).
    pub fn bnr_meaning(self) -> BnrMeaning
        ensures { result ≡ bnr_meaning self }
    {
        match self.value() {
            0 => BnrMeaning::FailureWarning,
            1 => BnrMeaning::NoComputedData,
            2 => BnrMeaning::FunctionalTest,
            _ => BnrMeaning::NormalOperation,
        }
    }

    /// What it says of BCD data (profile).
    pub fn bcd_meaning(self) -> BcdMeaning
        ensures { result ≡ bcd_meaning self }
    {
        match self.value() {
            0 => BcdMeaning::Plus,
            1 => BcdMeaning::NoComputedData,
            2 => BcdMeaning::FunctionalTest,
            _ => BcdMeaning::Minus,
        }
    }
}

impl fmt::Display for BnrMeaning {
    ghost output = { λ meaning. Some (bnr_text meaning) };

    /// `failure warning`, `no computed data`, `functional test` or `normal operation`.
    fn fmt<W: fmt::Write>(&self, f: &mut fmt::Formatter<W>) -> fmt::Result {
        match self {
            BnrMeaning::FailureWarning => write!(f, "failure warning"),
            BnrMeaning::NoComputedData => write!(f, "no computed data"),
            BnrMeaning::FunctionalTest => write!(f, "functional test"),
            BnrMeaning::NormalOperation => write!(f, "normal operation"),
        }
    }
}

impl fmt::Display for BcdMeaning {
    ghost output = { λ meaning. Some (bcd_text meaning) };

    /// `plus`, `no computed data`, `functional test` or `minus`.
    fn fmt<W: fmt::Write>(&self, f: &mut fmt::Formatter<W>) -> fmt::Result {
        match self {
            BcdMeaning::Plus => write!(f, "plus"),
            BcdMeaning::NoComputedData => write!(f, "no computed data"),
            BcdMeaning::FunctionalTest => write!(f, "functional test"),
            BcdMeaning::Minus => write!(f, "minus"),
        }
    }
}
