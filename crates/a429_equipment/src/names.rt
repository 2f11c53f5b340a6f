//! The names of receivers, sources and groups.
ghost use Rattle.std.specs.Prelude.{◌≡◌, List, ℕ};
ghost use Rattle.a429_equipment.specs.NameForm.{short_name};

use std::marker::Model;
use std::str;

/// The most bytes of a name (profile).
const NAME_LEN: usize = 16;

/// A name of a receiver, a source or a group: a text of at most 16 bytes. In an equipment it is 1 to 16 characters of `a` to
/// `z`, `0` to `9`, `-` and `_` (profile).
#[derive(Clone, Copy)]
pub struct Name {
    /// Zeros follow the text.
    bytes: [u8; NAME_LEN],
    len: u8,
}

impl Model for Name {
    ghost use Rattle.std.specs.Prelude.{List, ℕ, take, replicate, length, ◌++◌, ◌-◌};
    ghost use Rattle.a429_equipment.specs.InName.{IsNameInside, bytes_are, len_is};

    ghost Value = { List ℕ };

    ghost view = { λ n. take n.len n.bytes };

    ghost invariant = { IsNameInside };

    ghost inverse = { λ s. record { bytes = s ++ replicate (16 - length s) 0; len = length s } };

    ghost inverse_ok = { λ n h i. record { bytes = bytes_are n h i; len = len_is n h i } };
}

impl Name {
    /// The name with this text, whose form is not tested here; the empty name, if the text has more than 16 bytes.
    pub fn of(text: &str) -> Name
        ensures { result ≡ short_name text.now }
    {
        let mut bytes = [0; NAME_LEN];
        if text.len() > NAME_LEN {
            return Name { bytes, len: 0 };
        }
        bytes[..text.len()].copy_from_slice(text.as_bytes());
        Name {
            bytes,
            len: text.len() as u8,
        }
    }

    /// Its text.
    pub fn as_str(&self) -> &str
        ensures { result.now ≡ self.now }
    {
        match str::from_utf8(&self.bytes[..usize::from(self.len)]) {
            Ok(text) => text,
            Err(_) => "",
        }
    }
}
