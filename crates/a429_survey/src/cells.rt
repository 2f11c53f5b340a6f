//! The cells of a row.
ghost use Rattle.std.specs.Prelude.{◌≡◌, ◌<◌, ◌∷◌, ◌++◌, ◌-◌, [], map, OnOk};
ghost use Rattle.a429_text.specs.Sheets.{field_of};
ghost use Rattle.a429_survey.specs.Figures.{tenths_field};
ghost use Rattle.a429_text.specs.Fields.{Text};
ghost use Rattle.a429_survey.specs.Survey.{sdi_text};
ghost use Rattle.a429_survey.specs.Kept.{greatest_in, interval_in, least_in, load_in, mean_in, row_with, span_in, wider_row};

use crate::extents::Extent;
use crate::figures::Figures;
use crate::lines::RowFigures;
use a429_text::{Cell, Row, Rows};
use std::alloc::{AllocError, Global};

/// The time that a word takes at 1 bit/s, in microseconds, times the 1000 tenths of a percent in a whole: 36 bit times.
const WORD_SHARE: u128 = 36 * 1_000_000 * 1000;

/// The cell of a number of tenths, which is at most 2^64 - 1.
fn tenths_cell(number: u128) -> Cell<'static>
    ensures { field_of result ≡ tenths_field number }
{
    match u64::try_from(number) {
        Ok(tenths) => Cell::Tenths(tenths),
        Err(_) => Cell::Tenths(u64::MAX),
    }
}

/// The time from the first word to the last.
fn span(figures: &Figures) -> u64
    ensures { result ≡ span_in figures.now }
{
    figures.last.saturating_sub(figures.first)
}

/// The cell of an interval, which says nothing of one word.
fn interval_cell(figures: &Figures, interval: u64) -> Cell<'static>
    ensures { field_of result ≡ interval_in figures.now interval }
{
    if figures.words > 1 {
        Cell::Number(interval)
    } else {
        Cell::Absent
    }
}

/// The cell of the mean interval.
fn mean_cell(figures: &Figures) -> Cell<'static>
    ensures { field_of result ≡ mean_in figures.now }
{
    if figures.words <= 1 {
        return Cell::Absent;
    }
    tenths_cell(10 * u128::from(span(figures)) / u128::from(figures.words - 1))
}

/// The cell of the load at a bit rate in bit/s.
pub fn load_cell(rate: u32, figures: &Figures) -> Cell<'static>
    ensures { field_of result ≡ load_in rate figures.now }
{
    let room = u128::from(rate) * u128::from(span(figures));
    if room == 0 {
        return Cell::Absent;
    }
    let intervals = u128::from(figures.words.saturating_sub(1));
    tenths_cell((WORD_SHARE * intervals).div_ceil(room))
}

/// An SDI as a text.
fn sdi_text(sdi: u8) -> &'static str
    requires { sdi < 4 }
    ensures { result.now ≡ sdi_text sdi }
{
    match sdi {
        0 => "0",
        1 => "1",
        2 => "2",
        _ => "3",
    }
}

/// The cell of an SDI.
pub fn sdi_cell(sdi: u8) -> Cell<'static>
    requires { sdi < 4 }
    ensures { field_of result ≡ Text (sdi_text sdi) }
{
    Cell::Text(sdi_text(sdi))
}

/// The cells of the row of some words.
#[tactic(auto, unfolding(crate::specs::Kept::row_in))]
fn cells<'a>(
    name: &'a str,
    label: Cell<'a>,
    sdi: Cell<'a>,
    load: Cell<'a>,
    figures: &Figures,
) -> [Cell<'a>; 12]
    ensures { map field_of result ≡ row_with name.now label.entry sdi.entry load.entry figures.now }
{
    [
        Cell::Text(name),
        label,
        sdi,
        Cell::Number(figures.words),
        Cell::Number(figures.even),
        interval_cell(figures, figures.least),
        mean_cell(figures),
        interval_cell(figures, figures.greatest),
        Cell::Number(figures.first),
        Cell::Number(figures.last),
        Cell::Hex(figures.last_word),
        load,
    ]
}

/// Adds the row of some words.
pub fn add_row(
    rows: &mut Rows,
    name: &str,
    label: Cell<'_>,
    sdi: Cell<'_>,
    load: Cell<'_>,
    figures: &Figures,
)
    ensures { rows.new ≡ rows.old ++ row_with name.now label.entry sdi.entry load.entry figures.now ∷ [] }
{
    rows.add(&cells(name, label, sdi, load, figures));
}

/// The cell of the least number of an extent.
fn least_cell(extent: Option<Extent>) -> Cell<'static>
    ensures { field_of result ≡ least_in extent }
{
    match extent {
        Some(extent) => Cell::Signed(extent.least),
        None => Cell::Absent,
    }
}

/// The cell of the greatest.
fn greatest_cell(extent: Option<Extent>) -> Cell<'static>
    ensures { field_of result ≡ greatest_in extent }
{
    match extent {
        Some(extent) => Cell::Signed(extent.greatest),
        None => Cell::Absent,
    }
}

/// Adds the row of some words, with how many of them have each SSM, with their data, and with what a table says at its end.
/// Error: an allocation failed.
pub fn add_wider(
    rows: &mut Rows,
    alloc: Global,
    name: &str,
    label: Cell<'_>,
    sdi: Cell<'_>,
    load: Cell<'_>,
    figures: &RowFigures,
    says: Cell<'_>,
) -> Result<(), AllocError>
    ensures { OnOk result (rows.new
        ≡ rows.old ++ wider_row (row_with name.now label.entry sdi.entry load.entry figures.now.common) figures.now (field_of says.entry) ∷ []) }
{
    let row = Row::of(alloc, &cells(name, label, sdi, load, &figures.common));
    let ssm = &figures.common.ssm;
    let said = &figures.said;
    let more = [
        Cell::Number(ssm.zero),
        Cell::Number(ssm.one),
        Cell::Number(ssm.two),
        Cell::Number(ssm.three),
        least_cell(said.bnr),
        greatest_cell(said.bnr),
        least_cell(said.bcd),
        greatest_cell(said.bcd),
        says,
    ];
    rows.add_wider(&row, &more)
}
