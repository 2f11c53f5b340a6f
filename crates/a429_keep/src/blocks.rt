//! Blocks of cells, and the outputs that have one.
ghost use Rattle.std.specs.Prelude.{◌≡◌, ◌≤◌, ◌^◌, count_by, length};
ghost use Rattle.std.specs.List.{list_any};
ghost use Rattle.a429_keep.specs.Blocks.{end_of, fills, is_in, meet};

/// A block: this number of cells of a frame, from the one with this place on. Places are counted bus by bus, and on a bus
/// by the slot with its digits in reverse (profile: layout).
#[derive(Clone, Copy)]
pub struct Block {
    pub cells: u32,
    pub start: u32,
}

/// An output of a group: how many cells of a frame are its own, and the place at the start of its block. `None`: it has no
/// block yet.
#[derive(Clone, Copy)]
pub struct Stand {
    pub cells: u32,
    pub start: Option<u32>,
}

/// The place after the last cell of a block.
fn end_of(block: Block) -> u64
    ensures { result ≡ end_of block }
{
    u64::from(block.start) + u64::from(block.cells)
}

/// Whether two blocks have a cell in common.
fn meet(first: Block, second: Block) -> bool
    ensures { result ≡ meet first second }
{
    u64::from(first.start) < end_of(second) && u64::from(second.start) < end_of(first)
}

/// Whether an output has a cell of a block.
pub fn is_in(block: Block, stand: &Stand) -> bool
    ensures { result ≡ is_in block stand.now }
{
    match stand.start {
        Some(start) => meet(
            block,
            Block {
                cells: stand.cells,
                start,
            },
        ),
        None => false,
    }
}

/// Whether an output has a cell of a block, and has at least as many cells as the block.
fn fills(block: Block, stand: &Stand) -> bool
    ensures { result ≡ fills block stand.now }
{
    is_in(block, stand) && block.cells <= stand.cells
}

/// Whether an output of at least the size of a block has a cell of it.
pub fn is_filled(block: Block, stands: &[Stand]) -> bool
    ensures { result ≡ list_any (fills block) stands.now }
{
    stands.iter().any(|stand| fills(block, stand))
}

/// How many outputs have a cell of a block.
pub fn count_in(block: Block, stands: &[Stand]) -> usize
    ensures { result ≡ count_by (is_in block) stands.now }
{
    stands.iter().filter(|stand| is_in(block, stand)).count()
}
