//! The two small fields of a word: the SDI and the SSM.
ghost use Rattle.std.specs.Prelude.{◌≡◌, ◌<◌, Some};
ghost use Rattle.std.specs.Fmt.{decimal};
ghost use Rattle.a429_word.specs.Meanings.{two_bits};

use std::fmt;
use std::marker::Model;

/// The source and destination identifier, bits 9 and 10 of a word (ARINC 429 Part 1): 0 to 3.
#[derive(Clone, Copy, PartialEq, Eq)]
pub struct Sdi {
    value: u8,
}

impl Model for Sdi {
    ghost use Rattle.std.specs.Prelude.{ℕ, ◌<◌};

    ghost Value = { ℕ };

    ghost view = { λ sdi. sdi.value };

    ghost invariant = { λ sdi. sdi.value < 4 };

    ghost inverse = { λ n. record { value = n } };
}

impl Sdi {
    /// The SDI of this number, 0 to 3.
    pub fn new(value: u8) -> Sdi
        requires { value < 4 }
        ensures { result ≡ value }
    {
        Sdi { value }
    }

    /// Its number, 0 to 3.
    pub fn value(self) -> u8
        ensures value { result ≡ self }
        ensures small { result < 4 }
    {
        self.value
    }
}

/// The sign and status matrix, bits 30 and 31 of a word (ARINC 429 Part 1): 0 to 3, bit 31 the upper one.
#[derive(Clone, Copy, PartialEq, Eq)]
pub struct Ssm {
    bits: u8,
}

impl Model for Ssm {
    ghost use Rattle.std.specs.Prelude.{ℕ, ◌<◌};

    ghost Value = { ℕ };

    ghost view = { λ ssm. ssm.bits };

    ghost invariant = { λ ssm. ssm.bits < 4 };

    ghost inverse = { λ n. record { bits = n } };
}

impl Ssm {
    /// The SSM of this number, 0 to 3.
    pub fn new(bits: u8) -> Ssm
        requires { bits < 4 }
        ensures { result ≡ bits }
    {
        Ssm { bits }
    }

    /// Its number, 0 to 3.
    pub fn value(self) -> u8
        ensures value { result ≡ self }
        ensures small { result < 4 }
    {
        self.bits
    }
}

impl fmt::Display for Sdi {
    ghost output = { λ sdi. Some (decimal sdi) };

    /// One decimal digit.
    fn fmt<W: fmt::Write>(&self, f: &mut fmt::Formatter<W>) -> fmt::Result {
        write!(f, "{}", self.value)
    }
}

impl fmt::Display for Ssm {
    ghost output = { λ ssm. Some (two_bits ssm) };

    /// Two binary digits: bit 31, then bit 30.
    #[tactic(auto, using(std::proofs::lemmas::Fmt::decimal_digit))]
    fn fmt<W: fmt::Write>(&self, f: &mut fmt::Formatter<W>) -> fmt::Result {
        write!(f, "{}{}", self.bits / 2, self.bits % 2)
    }
}
