//! The rows of a survey.
ghost use Rattle.std.specs.Prelude.{◌≡◌, ◌<◌, ◌∷◌, ◌++◌, [], flat_map, IfOk, OnOk};
ghost use Rattle.std.specs.List.{range_with_len};
ghost use Rattle.a429_survey.specs.Kept.{end_by, label_in, pair_by, pair_in, rows_in};

use crate::cells::{add_row, add_wider, load_cell, sdi_cell};
use crate::expected::{Expected, verdict};
use crate::lines::{Line, RowFigures};
use crate::starts::add_start;
use a429_text::{Cell, Rows};
use std::alloc::{AllocError, Global};

/// Which rows are asked for.
#[derive(Clone, Copy)]
pub enum RowKind<'a> {
    /// The figures of the words.
    Figures,
    /// The figures and the data, and what a table says of them that expects these words.
    Compared(&'a [Expected<'a>]),
    /// The start of a table, with intervals widened by this part of them, in per cent.
    Starts(u32),
}

/// Adds the row of a label and an SDI of a name. Error: an allocation failed.
fn add_figures(
    rows: &mut Rows,
    alloc: Global,
    kind: RowKind<'_>,
    rate: u32,
    name: &str,
    label: u8,
    sdi: u8,
    figures: &RowFigures,
) -> Result<(), AllocError>
    requires { sdi < 4 }
    ensures { OnOk result (rows.new ≡ rows.old ++ pair_by kind.entry rate name.now label sdi figures.now ∷ []) }
{
    match kind {
        RowKind::Figures => {
            add_row(
                rows,
                name,
                Cell::Octal(label),
                sdi_cell(sdi),
                Cell::Absent,
                &figures.common,
            );
            Ok(())
        }
        RowKind::Starts(slack) => add_start(
            rows,
            alloc,
            slack,
            rate,
            name,
            label,
            sdi,
            &figures.common,
        ),
        RowKind::Compared(expected) => {
            let says = Cell::Text(verdict(expected, name, label, sdi, &figures.common));
            let (label, sdi) = (Cell::Octal(label), sdi_cell(sdi));
            add_wider(rows, alloc, name, label, sdi, Cell::Absent, figures, says)
        }
    }
}

/// Adds the row of a label and an SDI of a name, if it has such words. Error: an allocation failed.
#[tactic(auto, unfolding(crate::specs::Kept::pair_in))]
fn add_pair(
    rows: &mut Rows,
    alloc: Global,
    kind: RowKind<'_>,
    rate: u32,
    line: &Line,
    label: u8,
    sdi: u8,
) -> Result<(), AllocError>
    requires { sdi < 4 }
    ensures { OnOk result (rows.new ≡ rows.old ++ pair_in kind.entry rate line.now label sdi) }
{
    let figures = line.at(label, sdi);
    if figures.common.words == 0 {
        return Ok(());
    }
    add_figures(
        rows,
        alloc,
        kind,
        rate,
        line.name().as_str(),
        label,
        sdi,
        &figures,
    )
}

/// Adds the rows of a label of a name, by SDI. Error: an allocation failed.
fn add_label(
    rows: &mut Rows,
    alloc: Global,
    kind: RowKind<'_>,
    rate: u32,
    line: &Line,
    label: u8,
) -> Result<(), AllocError>
    ensures { OnOk result (rows.new ≡ rows.old ++ label_in kind.entry rate line.now label) }
{
    for sdi in 0..4 {
        add_pair(rows, alloc, kind, rate, line, label, sdi)?;
    }
    Ok(())
}

/// Adds the rows of each label of a name, in order. Error: an allocation failed.
fn add_labels(
    rows: &mut Rows,
    alloc: Global,
    kind: RowKind<'_>,
    rate: u32,
    line: &Line,
) -> Result<(), AllocError>
    ensures { OnOk result (rows.new ≡ rows.old ++ flat_map (label_in kind.entry rate line.now) (range_with_len 0 256)) }
{
    for label in 0..256u32 {
        add_label(rows, alloc, kind, rate, line, label as u8)?;
    }
    Ok(())
}

/// Adds what follows the rows of each label. Error: an allocation failed.
fn add_end(
    rows: &mut Rows,
    alloc: Global,
    kind: RowKind<'_>,
    rate: u32,
    line: &Line,
) -> Result<(), AllocError>
    ensures { OnOk result (rows.new ≡ rows.old ++ end_by kind.entry rate line.now) }
{
    let none = Cell::Absent;
    let name = line.name().as_str();
    match kind {
        RowKind::Figures => {
            let load = load_cell(rate, line.all());
            add_row(rows, name, none, none, load, line.all());
            Ok(())
        }
        RowKind::Starts(_) => Ok(()),
        RowKind::Compared(_) => {
            let load = load_cell(rate, line.all());
            let whole = RowFigures::whole(*line.all());
            add_wider(rows, alloc, name, none, none, load, &whole, none)
        }
    }
}

/// Adds the rows of a name. Error: an allocation failed.
fn add_line(
    rows: &mut Rows,
    alloc: Global,
    kind: RowKind<'_>,
    rate: u32,
    line: &Line,
) -> Result<(), AllocError>
    ensures { OnOk result (rows.new ≡ rows.old ++ rows_in kind.entry rate line.now) }
{
    add_labels(rows, alloc, kind, rate, line)?;
    add_end(rows, alloc, kind, rate, line)
}

/// The rows of each name, in order. Error: an allocation failed.
pub fn rows_of(
    alloc: Global,
    kind: RowKind<'_>,
    rate: u32,
    lines: &[Line],
) -> Result<Rows, AllocError>
    ensures { IfOk result (λ rows. rows ≡ flat_map (rows_in kind.entry rate) lines.now) }
{
    let mut rows = Rows::new(alloc);
    for line in lines {
        add_line(&mut rows, alloc, kind, rate, line)?;
    }
    Ok(rows)
}
