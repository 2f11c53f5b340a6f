//! The best block for an output that has none.
ghost use Rattle.std.specs.Prelude.{◌≡◌, ◌≤◌, ◌+◌, ◌^◌};
ghost use Rattle.a429_keep.specs.Spots.{better, is_better, spot_in, spot_on, spot_of_whole};

use crate::blocks::{Block, Stand, count_in, is_filled};
use a429_grid::Period;

/// A block that an output can have: the first cells of it, if the output has fewer.
#[derive(Clone, Copy)]
pub struct Spot {
    pub cells: u32,
    pub start: u32,
    /// How many outputs have a cell of it: they move.
    pub moved: usize,
}

/// Whether a spot is better than another: fewer outputs move, or equally many and it is smaller.
fn is_better(first: &Spot, second: &Spot) -> bool
    ensures { result ≡ is_better first.now second.now }
{
    first.moved < second.moved || first.moved == second.moved && first.cells < second.cells
}

/// The second spot if it is better than the first, otherwise the first.
fn better(first: Option<Spot>, second: Option<Spot>) -> Option<Spot>
    ensures { result ≡ better first second }
{
    match (first, second) {
        (None, second) => second,
        (first, None) => first,
        (Some(first), Some(second)) => {
            if is_better(&second, &first) {
                Some(second)
            } else {
                Some(first)
            }
        }
    }
}

/// The spot that a whole block is for an output of this number of cells, if that is known without a look at its halves. The inner
/// `None`: no cell of it can be had.
#[tactic(auto, unfolding(crate::specs::Spots::spot_of_whole))]
fn spot_of_whole(block: Block, cells: u32, stands: &[Stand]) -> Option<Option<Spot>>
    ensures { result ≡ spot_of_whole block cells stands.now }
{
    let moved = count_in(block, stands);
    let spot = Spot {
        cells: block.cells,
        start: block.start,
        moved,
    };
    if moved == 0 {
        return Some(Some(spot));
    }
    if is_filled(block, stands) {
        return Some(None);
    }
    if block.cells <= cells {
        Some(Some(spot))
    } else {
        None
    }
}

/// The best spot for an output of this number of cells in the block of `2^digits` cells that begins here.
#[tactic(auto, using(crate::proofs::Halves::whole_is, crate::proofs::Halves::none_is, crate::proofs::Halves::halves_are, crate::proofs::Halves::half_of))]
fn spot_in(digits: u32, start: u32, cells: u32, stands: &[Stand]) -> Option<Spot>
    requires few { digits ≤ 13 }
    requires within { start + 2 ^ digits ≤ 131072 }
    ensures { result ≡ spot_in digits start cells stands.now }
{
    let block = Block {
        cells: Period::of_digits(digits).slots(),
        start,
    };
    if let Some(spot) = spot_of_whole(block, cells, stands) {
        return spot;
    }
    if digits == 0 {
        return None;
    }
    let middle = start + Period::of_digits(digits - 1).slots();
    better(
        spot_in(digits - 1, start, cells, stands),
        spot_in(digits - 1, middle, cells, stands),
    )
}

/// The best spot for an output of this number of cells on this number of buses, each of which has `2^frame` cells in a frame.
#[tactic(auto, using(crate::proofs::Halves::spot_on_none, crate::proofs::Halves::spot_on_more))]
pub fn spot_on(buses: u32, frame: Period, cells: u32, stands: &[Stand]) -> Option<Spot>
    requires { buses ≤ 16 }
    ensures { result ≡ spot_on buses frame cells stands.now }
{
    let mut best = None;
    for bus in 0..buses {
        let start = bus * frame.slots();
        best = better(best, spot_in(frame.digits(), start, cells, stands));
    }
    best
}
