//! A text that is written at its end.
ghost use Rattle.std.specs.Prelude.{◌≡◌, ◌++◌, [], IfOk, map, replicate};
ghost use Rattle.std.specs.Fmt.{decimal, signed_decimal};
ghost use Rattle.a429_word.specs.Hexadecimal.{hex};
ghost use Rattle.a429_text.specs.Texts.{filled, octal, tenths};

use crate::from_end::put_hex;
use crate::said::Said;
use itoa::Buffer;
use std::alloc::{AllocError, Global};
use std::marker::Model;

/// A text that is written at its end. Clauses see all that was written. Writing a part has no error: if an allocation
/// fails, the text is dropped, and the call that takes the text returns the error.
pub struct Text {
    kept: Vec<u8>,
    /// All that was written, if an allocation failed.
    lost: Option<Said>,
}

// Written by hand, a drop is one call in the proofs of its owners.
impl Drop for Text {
    fn drop(self) {
        let Self { kept: _, lost: _ } = self;
    }
}

impl Model for Text {
    ghost use Rattle.std.specs.Prelude.{ℕ, List};
    ghost use Rattle.a429_text.specs.Texts.{written};

    ghost Value = { List ℕ };

    ghost view = { λ t. written t.lost t.kept.items };
}

impl Text {
    /// An empty text.
    pub fn new(alloc: Global) -> Text
        ensures { result ≡ [] }
    {
        Text {
            kept: Vec::new(alloc),
            lost: None,
        }
    }

    /// Writes bytes.
    pub fn put_bytes(&mut self, bytes: &[u8])
        ensures { self.new ≡ self.old ++ bytes.now }
    {
        if let Some(said) = &mut self.lost {
            said.append(bytes);
            return;
        }
        if self.kept.extend_from_slice(bytes).is_err() {
            let mut said = Said::Nothing;
            said.append(&self.kept);
            said.append(bytes);
            self.lost = Some(said);
        }
    }

    /// Writes words.
    pub fn put(&mut self, words: &str)
        ensures { self.new ≡ self.old ++ words.now }
    {
        self.put_bytes(words.as_bytes());
    }

    /// Writes a number in decimal.
    pub fn put_number(&mut self, number: u64)
        ensures { self.new ≡ self.old ++ decimal number }
    {
        let mut room = Buffer::new();
        let digits = room.format(number);
        self.put(digits);
    }

    /// Writes a number that may be below 0 in decimal.
    pub fn put_signed(&mut self, number: i32)
        ensures { self.new ≡ self.old ++ signed_decimal number }
    {
        let mut room = Buffer::new();
        let digits = room.format(number);
        self.put(digits);
    }

    /// Writes a number of tenths in decimal, with one digit after the point.
    pub fn put_tenths(&mut self, number: u64)
        ensures { self.new ≡ self.old ++ tenths number }
    {
        self.put_number(number / 10);
        self.put(".");
        self.put_number(number % 10);
    }

    /// Writes a number in three octal digits.
    pub fn put_octal(&mut self, value: u8)
        ensures { self.new ≡ self.old ++ octal value }
    {
        self.put_bytes(&[b'0' + value / 64, b'0' + value / 8 % 8, b'0' + value % 8]);
    }

    /// Writes a raw word as eight hexadecimal digits.
    pub fn put_hex(&mut self, raw: u32)
        ensures { self.new ≡ self.old ++ hex raw }
    {
        let mut room = [0u8; 8];
        let start = put_hex(&mut room, 8, raw);
        self.put_bytes(&room[start..]);
    }

    /// Writes spaces.
    pub fn put_spaces(&mut self, count: usize)
        ensures { self.new ≡ self.old ++ replicate count 32 }
    {
        for written in 0..count {
            self.put_bytes(b" ");
        }
    }

    /// Writes words, and after each of them its number, as long as there are some.
    pub fn fill(&mut self, words: &[&str], numbers: &[u64])
        ensures { self.new ≡ self.old ++ filled (map (λ w. w.now) words.now) numbers.now }
    {
        for place in 0..words.len() {
            self.put(words[place]);
            if place < numbers.len() {
                self.put_number(numbers[place]);
            }
        }
    }

    /// What was written. Error: an allocation failed for a part of it.
    pub fn as_bytes(&self) -> Result<&[u8], AllocError>
        ensures { IfOk result (λ bytes. bytes.now ≡ self.now) }
    {
        match &self.lost {
            None => Ok(self.kept.as_slice()),
            Some(_) => Err(AllocError),
        }
    }

    /// Gives what was written. Error: an allocation failed for a part of it.
    pub fn into_bytes(self) -> Result<Vec<u8>, AllocError>
        ensures { IfOk result (λ bytes. bytes.items ≡ self) }
    {
        let Text { kept, lost } = self;
        match lost {
            None => Ok(kept),
            Some(_) => Err(AllocError),
        }
    }
}
