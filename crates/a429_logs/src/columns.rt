//! The columns of a log with a heading.
ghost use Rattle.std.specs.Prelude.{◌≡◌, ◌&&◌, ◌+◌, ◌-◌, ◌^◌, ◌≤◌, Ok, Err, MatchResult, length};
ghost use Rattle.a429_logs.specs.LogColumns.{as_parts, data_word, fits, found_in, found_next, has_unit, is_absent, is_heading, label_place, names_in, noted, optional, parity_place, parts_places, place_of, places_of, plain_places, unit_in, value_in_base, value_place, wider, width_of, word_by, word_places, word_without};
ghost use Rattle.a429_logs.specs.LogFields.{fields_of};
ghost use Rattle.a429_logs.specs.declared.cells.Column.TheVariants.{DecimalLabel, Hex, HexLabel, Label};

use crate::cells::{Column, Found};
use crate::fields::{Fields, Separator};
use crate::times::{TimeUnit, can_be_time};
use a429_text::renames::renamed;

/// What is wrong with a heading.
#[derive(Clone, Copy)]
pub enum HeadingFault {
    /// It lacks a column.
    Lacks(Column),
    /// It has a column twice or more.
    Repeats(Column),
}

/// The base in which a number is written.
#[derive(Clone, Copy)]
pub enum Base {
    Two,
    Eight,
    Ten,
    Sixteen,
}

/// The column of a number, and its base.
#[derive(Clone, Copy)]
pub struct ValuePlace {
    pub base: Base,
    pub place: usize,
}

/// The columns of a word that is given by its label, SDI, SSM and data.
#[derive(Clone, Copy)]
pub struct PartsPlaces {
    pub label: ValuePlace,
    pub sdi: usize,
    pub ssm: usize,
    pub value: ValuePlace,
    /// The column of parities. Without it the parity of words is odd.
    pub parity: Option<usize>,
}

/// The columns of a word.
#[derive(Clone, Copy)]
pub enum WordPlaces {
    /// All of it in one column.
    Whole(usize),
    Parts(PartsPlaces),
}

/// How many fields a line has.
#[derive(Clone, Copy)]
pub struct Width {
    pub all: usize,
    /// How many without an empty field at the end.
    pub bare: usize,
}

impl Width {
    /// The width of a line with one field more.
    fn wider(self, field: &[u8]) -> Width
        requires { self.all + 1 ≤ 2 ^ 64 - 1 }
        ensures { result ≡ wider self field.now }
    {
        let all = self.all + 1;
        Width {
            all,
            bare: if field.is_empty() { self.all } else { all },
        }
    }

    /// The width of a line.
    pub fn of(separator: Separator, line: &[u8]) -> Width
        ensures width { result ≡ width_of (fields_of separator line.now) }
        ensures all { result.all ≡ length (fields_of separator line.now) }
    {
        let mut width = Width { all: 0, bare: 0 };
        let mut fields = Fields::of(separator, line);
        for place in 0..line.len() + 1 {
            let Some(field) = fields.next() else {
                return width;
            };
            width = width.wider(field);
        }
        width
    }
}

/// The columns of a log, counted from 0, and how many columns there are.
#[derive(Clone, Copy)]
pub struct Places {
    /// The width of the heading.
    pub width: Width,
    /// The unit that the heading says of times.
    pub unit: Option<TimeUnit>,
    pub time: usize,
    pub name: usize,
    pub word: WordPlaces,
}

impl Places {
    /// Whether a row of this width has a field for each column.
    pub fn fits(&self, width: Width) -> bool
        ensures { result ≡ fits self.now width }
    {
        width.all == self.width.all || width.bare == self.width.bare
    }
}

/// A log's first line, cut at these separators.
#[derive(Clone, Copy)]
pub struct Heading<'a> {
    pub separator: Separator,
    pub line: &'a [u8],
    /// Texts FROM=TO. A field FROM counts as TO.
    pub renames: &'a [&'a str],
}

impl Heading<'_> {
    /// Whether it is a heading, if times are in this unit: it does not begin as the time of a word does.
    pub fn is_heading(&self, unit: TimeUnit) -> bool
        ensures { result ≡ is_heading unit (names_in self.now) }
    {
        let mut fields = Fields::of(self.separator, self.line);
        match fields.next() {
            Some(first) => !can_be_time(unit, renamed(self.renames, first)),
            None => !can_be_time(unit, &[]),
        }
    }

    /// The place of a column.
    fn find(&self, column: Column) -> Found
        ensures { result ≡ found_in (names_in self.now) column }
    {
        let mut found = Found::Absent;
        let mut fields = Fields::of(self.separator, self.line);
        for place in 0..self.line.len() + 1 {
            let Some(name) = fields.next() else {
                return found;
            };
            found = found.after(column, place, renamed(self.renames, name));
        }
        found
    }

    /// The place of a column that has to be there once.
    fn place(&self, column: Column) -> Result<usize, HeadingFault>
        ensures { result ≡ place_of (names_in self.now) column }
    {
        match self.find(column) {
            Found::Absent => Err(HeadingFault::Lacks(column)),
            Found::Twice => Err(HeadingFault::Repeats(column)),
            Found::At(place) => Ok(place),
        }
    }

    /// The column of a number with digits in this base, if it is there; otherwise the other one.
    fn value_in_base(
        &self,
        column: Column,
        base: Base,
        otherwise: Result<ValuePlace, HeadingFault>,
    ) -> Result<ValuePlace, HeadingFault>
        ensures { result ≡ value_in_base (names_in self.now) column base otherwise }
    {
        match self.find(column) {
            Found::Absent => otherwise,
            Found::Twice => Err(HeadingFault::Repeats(column)),
            Found::At(place) => Ok(ValuePlace { base, place }),
        }
    }

    /// The column of the 19 data bits.
    #[tactic(auto, unfolding(crate::specs::LogColumns::value_place))]
    fn value_place(&self) -> Result<ValuePlace, HeadingFault>
        ensures { result ≡ value_place (names_in self.now) }
    {
        let none = Err(HeadingFault::Lacks(Column::Hex));
        let decimal = self.value_in_base(Column::Decimal, Base::Ten, none);
        let binary = self.value_in_base(Column::Binary, Base::Two, decimal);
        let octal = self.value_in_base(Column::Octal, Base::Eight, binary);
        self.value_in_base(Column::Hex, Base::Sixteen, octal)
    }

    /// Whether no column has labels.
    fn has_no_label(&self) -> bool
        ensures { result ≡ (is_absent (found_in (names_in self.now) Label) && (is_absent (found_in (names_in self.now) HexLabel)
            && is_absent (found_in (names_in self.now) DecimalLabel))) }
    {
        self.find(Column::Label).is_absent()
            && self.find(Column::HexLabel).is_absent()
            && self.find(Column::DecimalLabel).is_absent()
    }

    /// The column of labels. `None` if there is none.
    #[tactic(auto, unfolding(crate::specs::LogColumns::label_place))]
    fn label_place(&self) -> Option<Result<ValuePlace, HeadingFault>>
        ensures { result ≡ label_place (names_in self.now) }
    {
        if self.has_no_label() {
            return None;
        }
        let none = Err(HeadingFault::Lacks(Column::Label));
        let decimal = self.value_in_base(Column::DecimalLabel, Base::Ten, none);
        let hex = self.value_in_base(Column::HexLabel, Base::Sixteen, decimal);
        Some(self.value_in_base(Column::Label, Base::Eight, hex))
    }

    /// The column of parities, if there is one.
    fn parity_place(&self) -> Result<Option<usize>, HeadingFault>
        ensures { result ≡ parity_place (names_in self.now) }
    {
        match self.find(Column::Parity) {
            Found::Absent => Ok(None),
            Found::Twice => Err(HeadingFault::Repeats(Column::Parity)),
            Found::At(place) => Ok(Some(place)),
        }
    }

    /// The columns of a word with its label in this one.
    fn parts_places(&self, label: ValuePlace) -> Result<PartsPlaces, HeadingFault>
        ensures { result ≡ parts_places (names_in self.now) label }
    {
        let sdi = self.place(Column::Sdi)?;
        let ssm = self.place(Column::Ssm)?;
        let value = self.value_place()?;
        let parity = self.parity_place()?;
        Ok(PartsPlaces {
            label,
            sdi,
            ssm,
            value,
            parity,
        })
    }

    /// The column of whole words, if there is no label.
    fn data_word(&self) -> Result<WordPlaces, HeadingFault>
        ensures { result ≡ data_word (found_in (names_in self.now) Hex) }
    {
        match self.find(Column::Hex) {
            Found::At(place) => Ok(WordPlaces::Whole(place)),
            Found::Twice => Err(HeadingFault::Repeats(Column::Hex)),
            Found::Absent => Err(HeadingFault::Lacks(Column::Word)),
        }
    }

    /// The columns of a word, if none is named for whole words.
    fn word_without(&self) -> Result<WordPlaces, HeadingFault>
        ensures { result ≡ word_without (names_in self.now) (label_place (names_in self.now)) }
    {
        let Some(label) = self.label_place() else {
            return self.data_word();
        };
        Ok(WordPlaces::Parts(self.parts_places(label?)?))
    }

    /// The columns of a word.
    #[tactic(auto, unfolding(crate::specs::LogColumns::word_places))]
    fn word_places(&self) -> Result<WordPlaces, HeadingFault>
        ensures { result ≡ word_places (names_in self.now) }
    {
        match self.find(Column::Word) {
            Found::At(place) => Ok(WordPlaces::Whole(place)),
            Found::Twice => Err(HeadingFault::Repeats(Column::Word)),
            Found::Absent => self.word_without(),
        }
    }

    /// Whether a column of times has this unit as its note.
    fn has_unit(&self, unit: TimeUnit) -> bool
        ensures { result ≡ has_unit (names_in self.now) unit }
    {
        !self.find(Column::TimeIn(unit)).is_absent()
    }

    /// The unit that a column of times has as its note.
    #[tactic(auto, unfolding(crate::specs::LogColumns::unit_in))]
    fn unit(&self) -> Option<TimeUnit>
        ensures { result ≡ unit_in (names_in self.now) }
    {
        if self.has_unit(TimeUnit::Nanoseconds) {
            Some(TimeUnit::Nanoseconds)
        } else if self.has_unit(TimeUnit::Microseconds) {
            Some(TimeUnit::Microseconds)
        } else if self.has_unit(TimeUnit::Milliseconds) {
            Some(TimeUnit::Milliseconds)
        } else if self.has_unit(TimeUnit::Seconds) {
            Some(TimeUnit::Seconds)
        } else {
            None
        }
    }

    /// The columns of a log with this heading. Errors: `Lacks` with a column that the heading does not have, `Repeats`
    /// with one that it has twice or more.
    #[tactic(auto, unfolding(crate::specs::LogColumns::places_of))]
    pub fn places(&self) -> Result<Places, HeadingFault>
        ensures { result ≡ places_of (width_of (fields_of self.now.separator self.now.line.now)) (names_in self.now) }
    {
        let time = self.place(Column::Time)?;
        let name = self.place(Column::Name)?;
        let word = self.word_places()?;
        Ok(Places {
            width: Width::of(self.separator, self.line),
            unit: self.unit(),
            time,
            name,
            word,
        })
    }
}
