//! Words that a table expects on a line.
ghost use Rattle.std.specs.Prelude.{◌≡◌, ◌==◌, ◌<◌, false, true, find, option_map, position, IfSome, None, Some, length};
ghost use Rattle.a429_text.specs.Sheets.{field_of};
ghost use Rattle.a429_text.specs.Fields.{Text};
ghost use Rattle.a429_survey.specs.Expected.{Expectation, expectation_for, expected_sdi, group_in};
ghost use Rattle.a429_survey.specs.Kept.{is_above, verdict_in};

use crate::cells::sdi_cell;
use crate::figures::Figures;
use a429_text::Cell;
use a429_word::{Label, Sdi};
use std::marker::Model;

/// The full stop between the name of a group and the number of a bus.
const STOP: u8 = b'.';

/// Words that a table expects on a line: of a label, and of an SDI or of any. Clauses see its `Expectation`.
#[derive(Drop)]
pub struct Expected<'a> {
    line: &'a str,
    is_group: bool,
    label: Label,
    sdi: Option<Sdi>,
    least: u64,
    greatest: Option<u64>,
}

impl<'a> Model for Expected<'a> {
    ghost use Rattle.a429_survey.specs.Expected.{Expectation};

    ghost Value = { Expectation };

    ghost view = { λ e. record { line = e.line.now; is_group = e.is_group; label = e.label; sdi = e.sdi; least = e.least; greatest = e.greatest } };
}

/// The place of the first full stop in a name.
fn stop_in(name: &[u8]) -> Option<usize>
    ensures place { result ≡ position (λ c. c == 46) name.now }
    ensures within { IfSome result (λ at. at < length name.now) }
{
    name.iter().position(|byte| *byte == STOP)
}

/// The group that a name is for: GROUP or GROUP.BUS.
fn group_in(name: &[u8]) -> &[u8]
    ensures { result.now ≡ group_in name.now }
{
    match stop_in(name) {
        None => name,
        Some(at) => &name[..at],
    }
}

impl<'a> Expected<'a> {
    ghost use Rattle.a429_survey.specs.Expected.{heard_at, is_on, sent_by, takes, takes_sdi};

    /// Words that come in at a receiver of this name.
    pub fn heard(line: &'a str, label: Label, sdi: Option<Sdi>) -> Expected<'a>
        ensures { result ≡ heard_at line.entry.now label sdi }
    {
        Expected {
            line,
            is_group: false,
            label,
            sdi,
            least: 0,
            greatest: None,
        }
    }

    /// Words that a group of this name sends on its buses, with the minimum and the maximum time from one to the next in
    /// microseconds.
    pub fn sent(
        line: &'a str,
        label: Label,
        sdi: Option<Sdi>,
        least: u64,
        greatest: u64,
    ) -> Expected<'a>
        ensures { result ≡ sent_by line.entry.now label sdi least greatest }
    {
        Expected {
            line,
            is_group: true,
            label,
            sdi,
            least,
            greatest: Some(greatest),
        }
    }

    /// The name of its line.
    pub fn line(&self) -> &str
        ensures { result.now ≡ self.now.line }
    {
        self.line
    }

    /// Its label.
    pub fn label(&self) -> u8
        ensures { result ≡ self.now.label }
    {
        self.label.value()
    }

    /// Whether a name in a recording is for its line.
    pub fn is_on(&self, name: &str) -> bool
        ensures { result ≡ is_on self.now name.now }
    {
        let name = name.as_bytes();
        let line = if self.is_group { group_in(name) } else { name };
        line == self.line.as_bytes()
    }

    /// Whether an SDI is the one that is expected, or any is.
    pub fn takes_sdi(&self, sdi: u8) -> bool
        ensures { result ≡ takes_sdi self.now sdi }
    {
        match self.sdi {
            Some(own) => own.value() == sdi,
            None => true,
        }
    }

    /// Whether the words with a label and an SDI of a name are expected.
    fn takes(&self, name: &str, label: u8, sdi: u8) -> bool
        ensures { result ≡ takes name.now label sdi self.now }
    {
        self.is_on(name) && self.label() == label && self.takes_sdi(sdi)
    }

    /// What is said of words with these figures.
    fn pace(&self, figures: &Figures) -> &'static str
        ensures { result.now ≡ verdict_in (Some self.now) figures.now }
    {
        if figures.words <= 1 {
            "expected"
        } else if figures.least < self.least {
            "fast"
        } else if is_above(figures.greatest, self.greatest) {
            "slow"
        } else {
            "expected"
        }
    }

    /// The cell of the SDI that is expected.
    pub fn sdi_cell(&self) -> Cell<'static>
        ensures { field_of result ≡ Text (expected_sdi self.now.sdi) }
    {
        match self.sdi {
            None => Cell::Text("any"),
            Some(sdi) => sdi_cell(sdi.value()),
        }
    }
}

/// Whether an interval is above the greatest, if there is such.
fn is_above(interval: u64, greatest: Option<u64>) -> bool
    ensures { result ≡ is_above interval greatest }
{
    match greatest {
        Some(greatest) => interval > greatest,
        None => false,
    }
}

/// The first that takes the words with a label and an SDI of a name.
fn expectation_for<'e, 'a>(
    expected: &'e [Expected<'a>],
    name: &str,
    label: u8,
    sdi: u8,
) -> Option<&'e Expected<'a>>
    ensures { option_map (λ e. e.now) result ≡ expectation_for expected.now name.now label sdi }
{
    expected.iter().find(|e| e.takes(name, label, sdi))
}

/// What a table says of the words with a label and an SDI of a name, by their figures.
pub fn verdict(
    expected: &[Expected<'_>],
    name: &str,
    label: u8,
    sdi: u8,
    figures: &Figures,
) -> &'static str
    ensures { result.now ≡ verdict_in (expectation_for expected.now name.now label sdi) figures.now }
{
    match expectation_for(expected, name, label, sdi) {
        Some(expectation) => expectation.pace(figures),
        None => "unexpected",
    }
}
