//! The outputs that an earlier plan text lists.
ghost use Rattle.std.specs.Prelude.{◌≡◌, ◌<◌, ◌++◌, ◌∷◌, [], All, find, map, option_map, OnOk};
ghost use Rattle.std.specs.List.{list_any};
ghost use Rattle.std.specs.Option.{option_copied};
ghost use Rattle.a429_cert.specs.Views.{listing};
ghost use Rattle.a429_keep.specs.Rows.{is_row, row_view, shares_cells};

use a429_cert::{OutputLine, shares};

/// An output as a plan text lists it, with the name of its group.
#[derive(Clone, Copy)]
pub struct Row<'a> {
    pub group: &'a [u8],
    pub said: OutputLine<'a>,
}

/// Whether two outputs of one group have a cell in common.
fn shares_cells(first: &Row<'_>, second: &Row<'_>) -> bool
    requires first { 0 < first.now.said.period }
    requires second { 0 < second.now.said.period }
    ensures { result ≡ shares_cells (row_view first.now) (row_view second.now) }
{
    shares(&first.said, &second.said) && first.group == second.group
}

/// Whether one of these outputs has a cell in common with this one.
pub fn shares_any(rows: &[Row<'_>], row: &Row<'_>) -> bool
    requires row { 0 < row.now.said.period }
    requires rows { All (λ r. 0 < r.said.period) rows.now }
    ensures { result ≡ list_any (λ other. shares_cells (row_view row.now) (row_view other)) rows.now }
{
    rows.iter().any(|other| shares_cells(row, other))
}

/// Whether this is the row of an output of a group, by the name of its source and its period in slots.
fn is_row(row: &Row<'_>, group: &str, source: &str, period: u64) -> bool
    ensures { result ≡ is_row group.now source.now period (row_view row.now) }
{
    row.said.period == period
        && row.said.source == source.as_bytes()
        && row.group == group.as_bytes()
}

/// The first row of an output.
fn first_row<'r, 'a>(
    rows: &'r [Row<'a>],
    group: &str,
    source: &str,
    period: u64,
) -> Option<&'r Row<'a>>
    ensures { option_copied result ≡ find (λ row. is_row group.now source.now period (row_view row)) rows.now }
{
    rows.iter().find(|row| is_row(row, group, source, period))
}

/// The row of an output, if there is one: the first of several.
pub fn row_of<'r, 'a>(
    rows: &'r [Row<'a>],
    group: &str,
    source: &str,
    period: u64,
) -> Option<&'r Row<'a>>
    ensures { option_map row_view (option_copied result) ≡ find (is_row group.now source.now period) (map row_view rows.now) }
{
    first_row(rows, group, source, period)
}
