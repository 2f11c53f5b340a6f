//! The survey of a recording.
ghost use Rattle.std.specs.Prelude.{◌≡◌, ◌↔◌, ◌++◌, ◌∷◌, ◌-◌, ◌^◌, [], length, map, IfOk, OnOk, OnErr, IsErrOf};
ghost use Rattle.a429_survey.specs.Expected.{compared_columns, compared_rows};
ghost use Rattle.a429_survey.specs.Starts.{start_columns, start_rows};
ghost use Rattle.a429_survey.specs.Survey.{survey_columns, survey_rows};

use crate::expected::Expected;
use crate::lines::Line;
use crate::missing::add_missing;
use crate::names::note_word;
use crate::past::Past;
use crate::rows::{RowKind, rows_of};
use a429_text::Sheet;
use std::alloc::{AllocError, Global};
use std::marker::Model;
use thiserror::Error;

/// The names of the columns.
const COLUMNS: &[&str] = &[
    "name",
    "label",
    "sdi",
    "words",
    "even",
    "least_us",
    "mean_us",
    "greatest_us",
    "first_us",
    "last_us",
    "last_word",
    "load",
];

/// The names of the columns if a table is compared.
const COMPARED_COLUMNS: &[&str] = &[
    "name",
    "label",
    "sdi",
    "words",
    "even",
    "least_us",
    "mean_us",
    "greatest_us",
    "first_us",
    "last_us",
    "last_word",
    "load",
    "ssm_0",
    "ssm_1",
    "ssm_2",
    "ssm_3",
    "least_bnr",
    "greatest_bnr",
    "least_bcd",
    "greatest_bcd",
    "table",
];

/// The names of the columns of rows that start a table.
const START_COLUMNS: &[&str] = &[
    "group", "rate", "source", "receiver", "label", "sdi", "min_us", "max_us",
];

/// Why a word was not noted. Then the survey is as before.
#[derive(Clone, Copy, Debug, PartialEq, Eq, Error)]
pub enum NoteFault {
    /// An allocation failed. Only the first word of a name, or of a label and an SDI of it, allocates memory.
    #[error("out of memory")]
    NoMemory,
    /// The survey has 2^64 - 1 words.
    #[error("a survey has at most 18446744073709551615 words")]
    TooManyWords,
}

/// What is on the lines of a recording. Clauses see all words that were noted, oldest first. A program keeps figures: it
/// needs some 200 bytes for each name and 160 for each label and SDI of it, and nothing for a word.
#[derive(Drop)]
pub struct Survey {
    alloc: Global,
    /// A line for each name, in their order.
    lines: Vec<Line>,
    /// The place of the line of the last word.
    last: usize,
    /// How many words were noted.
    count: u64,
    past: Past,
}

impl Model for Survey {
    ghost use Rattle.std.specs.Prelude.{List};
    ghost use Rattle.a429_survey.specs.Figures.{Noted};

    ghost Value = { List Noted };

    ghost use Rattle.a429_survey.specs.Past.{words_in};
    ghost use Rattle.a429_survey.specs.Kept.{IsKept};

    ghost view = { λ s. words_in s.past };

    ghost invariant = { λ s. IsKept (words_in s.past) s.lines.items s.count };
}

impl Survey {
    /// A survey of no words.
    pub fn new(alloc: Global) -> Survey
        ensures { result ≡ [] }
    {
        Survey {
            alloc,
            lines: Vec::new(alloc),
            last: 0,
            count: 0,
            past: Past::Nothing,
        }
    }

    /// Notes a word: the name of its receiver or channel, its time in microseconds, and its 32 bits, of even or odd parity.
    /// A caller whose names are bytes checks first that they are UTF-8. Times may fall: an interval to an earlier time is 0.
    /// Error: an allocation failed, or the survey has 2^64 - 1 words.
    pub fn note(&mut self, name: &str, time: u64, raw: u32) -> Result<(), NoteFault>
        ensures noted { OnOk result (self.new ≡ self.old ++ record { time = time; name = name.now; raw = raw } ∷ []) }
        ensures kept { OnErr result (self.new ≡ self.old) }
        ensures full { IsErrOf result NoteFault.TooManyWords ↔ (length self.old ≡ 2 ^ 64 - 1) }
    {
        if self.count == u64::MAX {
            return Err(NoteFault::TooManyWords);
        }
        let Ok(place) = note_word(self.alloc, &mut self.lines, self.last, name, time, raw) else {
            return Err(NoteFault::NoMemory);
        };
        let line = &self.lines[place];
        self.past.add(line.name(), time, raw);
        self.count += 1;
        self.last = place;
        Ok(())
    }

    /// The sheet of the words that were noted, at a bit rate in bit/s, by which `load` is reckoned. Names are in the order
    /// of their bytes. A name has a row for each label and SDI of its words, by label and then by SDI, and a row for all
    /// its words follows them. Error: an allocation failed.
    pub fn sheet(&self, alloc: Global, rate: u32) -> Result<Sheet, AllocError>
        ensures columns { IfOk result (λ sheet. map (λ name. name.now) sheet.columns.now ≡ survey_columns) }
        ensures rows { IfOk result (λ sheet. sheet.rows ≡ survey_rows rate self.now) }
    {
        let rows = rows_of(alloc, RowKind::Figures, rate, &self.lines)?;
        Ok(Sheet {
            columns: COLUMNS,
            rows,
        })
    }

    /// The rows of `sheet` with how many words have each SSM, with the least and the greatest data of the words, and with a column
    /// `table`. The data is read as BNR and as BCD. The row of all words says nothing of it.
    ///
    /// `table` is what a table says that expects these words. It is `expected` or `unexpected`, or how the words of a group
    /// come: `fast`, if their least interval is less than the least that is expected, or `slow`, if the greatest is more than
    /// the greatest. Nothing is said in the row of all words. Rows of expected words that are `missing` follow, if a name of
    /// the recording is for their line. `has_finding` says whether a row has another text than `expected`. Error: an
    /// allocation failed.
    pub fn compared_sheet(
        &self,
        alloc: Global,
        rate: u32,
        expected: &[Expected<'_>],
    ) -> Result<Sheet, AllocError>
        ensures columns { IfOk result (λ sheet. map (λ name. name.now) sheet.columns.now ≡ compared_columns) }
        ensures rows { IfOk result (λ sheet. sheet.rows ≡ compared_rows expected.now rate self.now) }
    {
        let mut rows = rows_of(alloc, RowKind::Compared(expected), rate, &self.lines)?;
        add_missing(&mut rows, expected, &self.lines);
        Ok(Sheet {
            columns: COMPARED_COLUMNS,
            rows,
        })
    }

    /// The start of a table, as rows for `import`: one for each label and SDI of each name, in the order of `sheet`. The
    /// group is empty, `rate` is the bit rate in bit/s, and the name is that of the receiver. The source is named for the
    /// receiver, the label, and the SDI if that is not 0. Minimum and maximum transmit interval are the least and the
    /// greatest interval that was seen, shortened and lengthened by `slack` per cent, in microseconds; nothing is said of
    /// one word, or of 2^32 or more. Error: an allocation failed.
    pub fn start_sheet(&self, alloc: Global, rate: u32, slack: u32) -> Result<Sheet, AllocError>
        ensures columns { IfOk result (λ sheet. map (λ name. name.now) sheet.columns.now ≡ start_columns) }
        ensures rows { IfOk result (λ sheet. sheet.rows ≡ start_rows slack rate self.now) }
    {
        let rows = rows_of(alloc, RowKind::Starts(slack), rate, &self.lines)?;
        Ok(Sheet {
            columns: START_COLUMNS,
            rows,
        })
    }
}
