//! The outputs of a slot table at other places.
ghost use Rattle.std.specs.Prelude.{◌≡◌, ◌<◌, ◌≤◌, ◌^◌, None, All, IfOk, IfSome, length, map};
ghost use Rattle.std.specs.List.Sorted.{IsNonDecreasingBy, IsPermutation};
ghost use Rattle.a429_pack.specs.Kept.{padded};
ghost use Rattle.a429_slots.specs.Kept.{steps_from};
ghost use Rattle.a429_slots.specs.Laid.{laid_by, nothing_laid};
ghost use Rattle.a429_slots.specs.Moves.{AreApart, HasOverlap, IsInside, block_of, blocks_of};

use crate::group_plan::{LaidOutput, NOTHING_LAID, SlotPlace};
use crate::layout::place_of_cell;
use a429_grid::Period;
use a429_pack::SumTable;
use std::alloc::{AllocError, Global};

/// Why outputs cannot have their places.
#[derive(Clone, Copy, PartialEq, Eq)]
pub enum MoveFault {
    /// Two of them have a cell in common.
    Shared,
    /// An allocation failed.
    NoMemory,
}

/// The block of an output: its first place in a frame, and the one after its last. Places are counted bus by bus, and on
/// a bus by the slot with its digits in reverse.
#[derive(Clone, Copy)]
pub struct Block {
    pub begin: u32,
    pub end: u32,
    pub output: usize,
}

/// The block of an output at this place, in a frame of this number of slots.
fn block_of(frame: Period, output: usize, place: SlotPlace) -> Block
    requires { IsInside frame 16 place }
    ensures { result ≡ block_of frame output place }
{
    let begin = place_of_cell(place.bus, u64::from(place.offset), frame);
    Block {
        begin,
        end: begin + frame.slots() / place.period.slots(),
        output,
    }
}

/// The blocks of outputs, by their numbers. Error: an allocation failed.
fn blocks_of(alloc: Global, frame: Period, places: &[SlotPlace]) -> Result<Vec<Block>, AllocError>
    requires { All (IsInside frame 16) places.now }
    ensures { IfOk result (λ blocks. blocks.items ≡ blocks_of frame places.now) }
{
    let mut blocks = Vec::new(alloc);
    for (output, place) in places.iter().enumerate() {
        blocks.push(block_of(frame, output, *place))?;
    }
    Ok(blocks)
}

/// The blocks of outputs in order. Error: an allocation failed.
pub fn sorted_blocks(
    alloc: Global,
    frame: Period,
    places: &[SlotPlace],
) -> Result<Vec<Block>, AllocError>
    requires { All (IsInside frame 16) places.now }
    ensures all { IfOk result (λ blocks. IsPermutation (blocks_of frame places.now) blocks.items) }
    ensures rising { IfOk result (λ blocks. IsNonDecreasingBy (λ b. b.begin) blocks.items) }
{
    let mut blocks = blocks_of(alloc, frame, places)?;
    blocks.sort_unstable_by_key(|block| block.begin);
    Ok(blocks)
}

/// The stretches of blocks, each from the end of the one before it to its own. `None`: one begins before that end.
pub fn stretches_of<const N: usize>(blocks: &[Block]) -> Option<SumTable<N>>
    requires room { length blocks.now ≤ N }
    requires some { All (λ b. b.begin < b.end) blocks.now }
    requires few { All (λ b. b.end < 2 ^ 32) blocks.now }
    ensures apart { IfSome result (λ _. AreApart blocks.now) }
    ensures stretches { IfSome result (λ sums. sums ≡ steps_from 0 (map (λ b. b.end) blocks.now)) }
    ensures overlap { result ≡ None → HasOverlap blocks.now }
{
    let mut sums = SumTable::new();
    for block in blocks {
        if block.begin < sums.total() {
            return None;
        }
        sums.push(block.end - sums.total());
    }
    Some(sums)
}

/// The outputs in the order of their blocks.
pub fn laid_by_blocks<const N: usize>(blocks: &[Block]) -> [LaidOutput; N]
    requires { length blocks.now ≤ N }
    ensures { result ≡ padded nothing_laid N (map laid_by blocks.now) }
{
    let mut laid = [NOTHING_LAID; N];
    for (place, block) in blocks.iter().enumerate() {
        laid[place] = LaidOutput {
            output: block.output,
            begin: block.begin,
        };
    }
    laid
}

/// The buses of places.
pub fn buses_in<const N: usize>(places: &[SlotPlace]) -> [u32; N]
    requires { length places.now ≤ N }
    ensures { result ≡ padded 0 N (map (λ p. p.bus) places.now) }
{
    let mut buses = [0; N];
    for (output, place) in places.iter().enumerate() {
        buses[output] = place.bus;
    }
    buses
}

/// The offsets of places.
pub fn offsets_in<const N: usize>(places: &[SlotPlace]) -> [u32; N]
    requires { length places.now ≤ N }
    ensures { result ≡ padded 0 N (map (λ p. p.offset) places.now) }
{
    let mut offsets = [0; N];
    for (output, place) in places.iter().enumerate() {
        offsets[output] = place.offset;
    }
    offsets
}
