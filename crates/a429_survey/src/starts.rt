//! The rows of a survey that start a table.
ghost use Rattle.std.specs.Prelude.{◌≡◌, ◌<◌, ◌∷◌, ◌++◌, [], map, string_bytes, IfOk, OnOk};
ghost use Rattle.a429_text.specs.Sheets.{field_of};
ghost use Rattle.a429_survey.specs.Kept.{longer_in, shorter_in, start_in};
ghost use Rattle.a429_survey.specs.Starts.{interval_field, octal_digit, sdi_suffix, source_name};

use crate::figures::Figures;
use a429_text::{Cell, Rows};
use std::alloc::{AllocError, Global};

/// The cell of an interval in microseconds, if it is below 2^32.
fn interval_cell(us: u128) -> Cell<'static>
    ensures { field_of result ≡ interval_field us }
{
    match u32::try_from(us) {
        Ok(us) => Cell::Number(u64::from(us)),
        Err(_) => Cell::Absent,
    }
}

/// The cell of the least interval, shortened by this part of it, in per cent.
fn shorter_cell(slack: u32, figures: &Figures) -> Cell<'static>
    ensures { field_of result ≡ shorter_in slack figures.now }
{
    if figures.words <= 1 {
        return Cell::Absent;
    }
    interval_cell(u128::from(figures.least) * u128::from(100u32.saturating_sub(slack)) / 100)
}

/// The cell of the greatest interval, lengthened by this part of it, in per cent.
fn longer_cell(slack: u32, figures: &Figures) -> Cell<'static>
    ensures { field_of result ≡ longer_in slack figures.now }
{
    if figures.words <= 1 {
        return Cell::Absent;
    }
    interval_cell((u128::from(figures.greatest) * (100 + u128::from(slack))).div_ceil(100))
}

/// An octal digit.
fn octal_digit(digit: u8) -> &'static str
    requires { digit < 8 }
    ensures { result.now ≡ octal_digit digit }
{
    match digit {
        0 => "0",
        1 => "1",
        2 => "2",
        3 => "3",
        4 => "4",
        5 => "5",
        6 => "6",
        _ => "7",
    }
}

/// What follows the label in the name of a source.
fn sdi_suffix(sdi: u8) -> &'static str
    requires { sdi < 4 }
    ensures { result.now ≡ sdi_suffix sdi }
{
    match sdi {
        0 => "",
        1 => "-1",
        2 => "-2",
        _ => "-3",
    }
}

/// The name of a source. Error: an allocation failed.
fn source_name(alloc: Global, name: &str, label: u8, sdi: u8) -> Result<String, AllocError>
    requires { sdi < 4 }
    ensures { IfOk result (λ text. string_bytes text ≡ source_name name.now label sdi) }
{
    let high = octal_digit(label / 64);
    let middle = octal_digit(label / 8 % 8);
    let low = octal_digit(label % 8);
    let suffix = sdi_suffix(sdi);
    format!(in alloc; "{name}-{high}{middle}{low}{suffix}")
}

/// The cells of the row of a label and an SDI.
#[tactic(auto, unfolding(crate::specs::Kept::start_in))]
fn cells<'a>(
    slack: u32,
    rate: u32,
    source: &'a str,
    name: &'a str,
    label: u8,
    sdi: u8,
    figures: &Figures,
) -> [Cell<'a>; 8]
    requires { source.now ≡ source_name name.now label sdi }
    ensures { map field_of result ≡ start_in slack rate name.now label sdi figures.now }
{
    [
        Cell::Absent,
        Cell::Number(u64::from(rate)),
        Cell::Text(source),
        Cell::Text(name),
        Cell::Octal(label),
        Cell::Number(u64::from(sdi)),
        shorter_cell(slack, figures),
        longer_cell(slack, figures),
    ]
}

/// Adds the row of a label and an SDI of a name. Error: an allocation failed.
pub fn add_start(
    rows: &mut Rows,
    alloc: Global,
    slack: u32,
    rate: u32,
    name: &str,
    label: u8,
    sdi: u8,
    figures: &Figures,
) -> Result<(), AllocError>
    requires { sdi < 4 }
    ensures { OnOk result (rows.new ≡ rows.old ++ start_in slack rate name.now label sdi figures.now ∷ []) }
{
    let source = source_name(alloc, name, label, sdi)?;
    rows.add(&cells(slack, rate, source.as_str(), name, label, sdi, figures));
    Ok(())
}
