//! The blocks of the outputs of a group that do not stay.
ghost use Rattle.std.specs.Prelude.{◌≡◌, ◌≤◌, ◌<◌, length, map};
ghost use Rattle.a429_keep.specs.Placing.{cleared, is_waiting, place_all, place_down, place_first, place_one, put};

use crate::blocks::{Block, Stand, is_in};
use crate::spots::spot_on;
use a429_grid::Period;

/// How many numbers of cells an output can have: powers of two, 1 to 8192.
const SHARES: u32 = 14;

/// An output without its block, if it has a cell of this one.
fn cleared(block: Block, stand: &Stand) -> Stand
    ensures { result ≡ cleared block stand.now }
{
    if is_in(block, stand) {
        Stand {
            cells: stand.cells,
            start: None,
        }
    } else {
        *stand
    }
}

/// Takes the block from each output that has a cell of this one.
#[tactic(auto, using(crate::proofs::Clearing::cleared_more))]
fn clear(block: Block, stands: &mut [Stand])
    ensures { stands.new ≡ map (cleared block) stands.old }
{
    for stand in stands.iter_mut() {
        *stand = cleared(block, stand);
    }
}

/// Whether an output has this number of cells and no block.
fn is_waiting(cells: u32, stand: &Stand) -> bool
    ensures { result ≡ is_waiting cells stand.now }
{
    stand.start.is_none() && stand.cells == cells
}

/// Gives an output the block that begins here. Outputs with a cell of it lose theirs.
fn put(output: usize, cells: u32, start: u32, stands: &mut [Stand])
    requires { output < length stands.old }
    ensures { stands.new ≡ put output cells start stands.old }
{
    clear(Block { cells, start }, stands);
    stands[output] = Stand {
        cells,
        start: Some(start),
    };
}

/// Gives the output of this number a block, if it has none and has this number of cells.
fn place_one(buses: u32, frame: Period, cells: u32, output: usize, stands: &mut [Stand])
    requires few { buses ≤ 16 }
    requires known { output < length stands.old }
    ensures { stands.new ≡ place_one buses frame cells output stands.old }
{
    if !is_waiting(cells, &stands[output]) {
        return;
    }
    if let Some(spot) = spot_on(buses, frame, cells, stands) {
        put(output, cells, spot.start, stands);
    }
}

/// Gives each output with this number of cells a block if it has none, in table order.
#[tactic(auto, using(crate::proofs::Clearing::first_none, crate::proofs::Clearing::first_more))]
fn place_share(buses: u32, frame: Period, cells: u32, stands: &mut [Stand])
    requires few { buses ≤ 16 }
    ensures { stands.new ≡ place_first buses frame cells (length stands.old) stands.old }
{
    for output in 0..stands.len() {
        place_one(buses, frame, cells, output, stands);
    }
}

/// Gives each output a block that has none: those with the most cells first, and of equally many in table order. Outputs
/// of `stands` have no cell in common.
#[tactic(auto, using(crate::proofs::Clearing::down_none, crate::proofs::Clearing::down_more))]
pub fn place_all(buses: u32, frame: Period, stands: &mut [Stand])
    requires few { buses ≤ 16 }
    ensures { stands.new ≡ place_all buses frame stands.old }
{
    for digits in (0..SHARES).rev() {
        place_share(buses, frame, Period::of_digits(digits).slots(), stands);
    }
}
