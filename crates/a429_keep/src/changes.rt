//! What changes from one plan text to another.
ghost use Rattle.std.specs.Prelude.{◌≡◌, ◌++◌, IfOk, OnOk, count_by, filter_map, find, map, not, option_map, option_to_list};
ghost use Rattle.std.specs.Option.{option_copied};
ghost use Rattle.a429_keep.specs.Changes.{AreChanges, has_twin, is_same_output, is_same_place, move_of, move_view, moves_of, stays, twin_of};
ghost use Rattle.a429_keep.specs.Rows.{row_view};

use crate::rows::Row;
use std::alloc::{AllocError, AllocFailed, Global};

/// An output that is at another place than before.
#[derive(Clone, Copy)]
pub struct Move<'a> {
    pub before: Row<'a>,
    pub after: Row<'a>,
}

/// What changes from one plan text to another.
#[derive(Drop)]
pub struct Changes<'a> {
    /// How many outputs have their period, their bus and their offset as before.
    pub stay: usize,
    /// How many outputs are not in the earlier text.
    pub added: usize,
    /// How many outputs are no longer there.
    pub gone: usize,
    /// The outputs that are at another place, in the order of the later text.
    pub moved: Vec<Move<'a>>,
}

/// Whether two rows are of one output: they have one group and one source.
fn is_same_output(first: &Row<'_>, second: &Row<'_>) -> bool
    ensures { result ≡ is_same_output (row_view first.now) (row_view second.now) }
{
    first.said.source == second.said.source && first.group == second.group
}

/// Whether two rows have one period, bus and offset.
fn is_same_place(first: &Row<'_>, second: &Row<'_>) -> bool
    ensures { result ≡ is_same_place (row_view first.now) (row_view second.now) }
{
    first.said.period == second.said.period
        && first.said.bus == second.said.bus
        && first.said.offset == second.said.offset
}

/// The first row of the same output among others.
fn first_twin<'r, 'a>(row: &Row<'_>, rows: &'r [Row<'a>]) -> Option<&'r Row<'a>>
    ensures { option_copied result ≡ find (λ other. is_same_output (row_view row.now) (row_view other)) rows.now }
{
    rows.iter().find(|other| is_same_output(row, other))
}

/// The row of the same output among others.
fn twin_of<'r, 'a>(row: &Row<'_>, rows: &'r [Row<'a>]) -> Option<&'r Row<'a>>
    ensures { option_map row_view (option_copied result) ≡ twin_of (row_view row.now) (map row_view rows.now) }
{
    first_twin(row, rows)
}

/// Whether the output is among others.
fn has_twin(rows: &[Row<'_>], row: &Row<'_>) -> bool
    ensures { result ≡ has_twin (map row_view rows.now) (row_view row.now) }
{
    twin_of(row, rows).is_some()
}

/// Whether the output was at this place before.
fn stays(earlier: &[Row<'_>], row: &Row<'_>) -> bool
    ensures { result ≡ stays (map row_view earlier.now) (row_view row.now) }
{
    match twin_of(row, earlier) {
        Some(before) => is_same_place(before, row),
        None => false,
    }
}

/// The move of an output, if it was at another place before.
fn move_of<'a>(earlier: &[Row<'a>], row: &Row<'a>) -> Option<Move<'a>>
    ensures { option_map move_view result ≡ move_of (map row_view earlier.now) (row_view row.now) }
{
    match twin_of(row, earlier) {
        Some(before) if !is_same_place(before, row) => Some(Move {
            before: *before,
            after: *row,
        }),
        _ => None,
    }
}

/// Adds a move, if there is one.
fn add_move<'a>(
    moved: &mut Vec<Move<'a>>,
    step: Option<Move<'a>>,
) -> Result<(), AllocFailed<Move<'a>>>
    ensures { OnOk result (moves_of moved.new.items ≡ moves_of moved.old.items ++ option_to_list (option_map move_view step.entry)) }
{
    match step {
        Some(step) => moved.push(step),
        None => Ok(()),
    }
}

/// The outputs that are at another place, in this order.
fn moves<'a>(
    alloc: Global,
    earlier: &[Row<'a>],
    later: &[Row<'a>],
) -> Result<Vec<Move<'a>>, AllocError>
    ensures { IfOk result (λ moved. moves_of moved.items ≡ filter_map (λ r. move_of (map row_view earlier.now) (row_view r)) later.now) }
{
    let mut moved = Vec::new(alloc);
    for row in later {
        add_move(&mut moved, move_of(earlier, row))?;
    }
    Ok(moved)
}

/// How many of these outputs have the places that they had before.
fn count_stays(earlier: &[Row<'_>], later: &[Row<'_>]) -> usize
    ensures { result ≡ count_by (λ row. stays (map row_view earlier.now) (row_view row)) later.now }
{
    later.iter().filter(|row| stays(earlier, row)).count()
}

/// How many of these outputs are not among others.
fn count_new(rows: &[Row<'_>], others: &[Row<'_>]) -> usize
    ensures { result ≡ count_by (λ r. not (has_twin (map row_view others.now) (row_view r))) rows.now }
{
    rows.iter().filter(|row| !has_twin(others, row)).count()
}

/// What changes from the outputs of a plan text to those of a later one. Error: an allocation failed.
pub fn changes_between<'a>(
    alloc: Global,
    earlier: &[Row<'a>],
    later: &[Row<'a>],
) -> Result<Changes<'a>, AllocError>
    ensures { IfOk result (AreChanges (map row_view earlier.now) (map row_view later.now)) }
{
    let moved = moves(alloc, earlier, later)?;
    Ok(Changes {
        stay: count_stays(earlier, later),
        added: count_new(later, earlier),
        gone: count_new(earlier, later),
        moved,
    })
}
