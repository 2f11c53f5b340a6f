//! A group in its frame, with the output of each cell at hand.
ghost use Rattle.std.specs.Prelude.{◌≡◌, ◌≤◌, ◌+◌, ◌<◌, ◌*◌, ◌^◌, ◌/◌, ◌%◌, ℕ, List, IfOk, IfSome, MatchOption, ⊤, length, get_or, nat_lt, option_map, [], true, false};
ghost use Rattle.a429_slots.specs.Tables.{cell_at, cells_of, frame_of, outputs_of, output_in};
ghost use Rattle.a429_slots.specs.FrameStates.{begun, next_cell, after_cell, fits_next, turned, due_of};
ghost use Rattle.a429_slots.specs.Cached.{AreCached, IsCellOf, cached};

use crate::group_plan::{GroupPlan, SlotPlace};
use crate::outputs::OutputId;
use crate::senders::{Due, Sender};
use a429_equipment::OUTPUTS;
use std::alloc::{AllocError, Global};
use std::marker::Model;

/// How many cells the largest frame has: 8192 slots on each of 16 buses.
const CELLS: usize = 131072;

/// The byte of an empty cell.
const EMPTY: u8 = 0;

/// A `Sender`, and the output of each cell of its frame. Each cell has a byte: 0 if it is empty, otherwise the output's
/// number plus one. A plan with the same outputs in the same cells keeps these bytes; for any other plan they are
/// written when its first frame begins. So a cell takes one read, however many outputs there are. There is room for the
/// cells of the largest frame, so no memory is allocated later.
#[derive(Drop)]
pub struct CachedSender {
    sender: Sender,
    cells: Vec<u8>,
}

impl Model for CachedSender {
    ghost use Rattle.a429_slots.specs.FrameStates.{FrameState};
    ghost use Rattle.a429_slots.specs.Cached.{AreCached};

    ghost Value = { FrameState };

    ghost view = { λ s. s.sender };

    ghost invariant = { λ s. AreCached s.sender.table s.cells.items };
}

/// The output whose byte this is; `None`: the byte of an empty cell.
#[inline(always)]
fn output_of(byte: u8) -> Option<OutputId>
    ensures { cached result ≡ byte }
{
    if byte == EMPTY {
        None
    } else {
        Some(OutputId::new(byte as usize - 1))
    }
}

/// The output in a cell of a slot table, by what is known of its cells.
#[tactic(auto, using(crate::proofs::Cells::cell_known))]
#[inline(always)]
fn look_up(cells: &Vec<u8>, plan: &GroupPlan<OUTPUTS>, bus: u32, slot: u64) -> Option<OutputId>
    requires { AreCached plan.now cells.now.items }
    ensures cell { result ≡ cell_at plan.now bus slot }
    ensures known { IfSome result (λ output. output < length (outputs_of plan.now)) }
{
    if bus >= 16 || slot >= (cells.len() / 16) as u64 {
        return plan.at(bus, slot);
    }
    output_of(cells[slot as usize * 16 + bus as usize])
}

/// Makes this number of empty cells. `false`: an allocation failed, and there are none.
fn clear(cells: &mut Vec<u8>, many: usize) -> bool
    ensures many { result ≡ true → length cells.new.items ≡ many }
    ensures empty { (i : ℕ) → get_or cells.new.items i 0 ≡ 0 }
    ensures none { result ≡ false → cells.new.items ≡ [] }
{
    cells.clear();
    cells.resize(many, EMPTY).is_ok()
}

/// Gives these cells a byte: those of one place, in this number of slots.
fn mark(cells: &mut Vec<u8>, place: SlotPlace, slots: usize, byte: u8)
    requires many { length cells.old.items ≡ slots * 16 }
    requires few { slots ≤ 8192 }
    requires bus { place.bus < 16 }
    requires offset { place.offset < 2 ^ place.period }
    requires period { 2 ^ place.period ≤ 8192 }
    ensures many { length cells.new.items ≡ slots * 16 }
    ensures marked { (i : ℕ) → i / 16 < slots → IsCellOf place (i % 16) (i / 16) → get_or cells.new.items i 0 ≡ byte }
    ensures others { (i : ℕ) → (IsCellOf place (i % 16) (i / 16) → ⊥) → get_or cells.new.items i 0 ≡ get_or cells.old.items i 0 }
{
    let period = place.period.slots() as usize;
    let mut slot = place.offset as usize;
    while slot < slots {
        cells[slot * 16 + place.bus as usize] = byte;
        slot += period;
    }
}

/// Writes the output of each cell of a slot table. If the room for its cells is too small and cannot grow, nothing is known of any.
fn fill(cells: &mut Vec<u8>, plan: &GroupPlan<OUTPUTS>)
    ensures { AreCached plan.now cells.new.items }
{
    let slots = plan.frame() as usize;
    if !clear(cells, slots * 16) {
        return;
    }
    prove!(plan.buses() <= 16);
    for number in 0..plan.outputs() {
        mark(
            cells,
            plan.place(OutputId::new(number)),
            slots,
            number as u8 + 1,
        );
    }
}

/// Whether a frame by another table has the same outputs in the same cells.
fn has_same_frame(plan: &GroupPlan<OUTPUTS>, newest: &GroupPlan<OUTPUTS>) -> bool
    ensures { (cells : List ℕ) → result ≡ true → AreCached plan.now cells → AreCached newest.now cells }
{
    plan.frame() == newest.frame() && plan.has_cells_of(newest)
}

impl CachedSender {
    /// A group before its first cell, by the opening plan. All the memory that is ever needed is allocated here. Error:
    /// an allocation failed.
    pub fn open(
        alloc: Global,
        plan: GroupPlan<OUTPUTS>,
        first: u64,
    ) -> Result<CachedSender, AllocError>
        requires { first + frame_of plan < 2 ^ 64 }
        ensures { IfOk result (λ sender. sender ≡ begun first plan) }
    {
        let mut cells = Vec::with_capacity(alloc, CELLS)?;
        fill(&mut cells, &plan);
        Ok(CachedSender {
            sender: Sender::open(plan, first),
            cells,
        })
    }

    /// Puts the group before the first cell of a frame that begins at this slot, by this plan. The call allocates no memory.
    pub fn restart(&mut self, plan: &GroupPlan<OUTPUTS>, first: u64)
        requires { first + frame_of plan.now < 2 ^ 64 }
        ensures { self.new ≡ begun first plan.now }
    {
        let CachedSender { sender, cells } = self;
        let same = has_same_frame(sender.plan(), plan);
        *sender = Sender::open(*plan, first);
        if !same {
            fill(cells, plan);
        }
    }

    /// How many cells a frame has: its slots on each bus, at most 16 times 8192.
    pub fn cells(&self) -> u64
        ensures value { result ≡ cells_of self.now.table }
        ensures few { result ≤ 131072 }
    {
        self.sender.cells()
    }

    /// The first slot of the frame.
    pub fn first(&self) -> u64
        ensures { result ≡ self.now.first }
    {
        self.sender.first()
    }

    /// Whether cells of the frame are left to send.
    pub fn is_mid_frame(&self) -> bool
        ensures { result ≡ (nat_lt self.now.sent (cells_of self.now.table)) }
    {
        self.sender.is_mid_frame()
    }

    /// The output of a bus in a slot of the frame; `None`: an empty cell.
    #[inline(always)]
    pub fn output_in(&self, bus: u32, slot: u64) -> Option<Due>
        ensures output { result ≡ option_map due_of (output_in self.now.table bus slot) }
        ensures some { IfSome result (λ due. 1 ≤ due.limits.spacing) }
    {
        let output = look_up(&self.cells, self.sender.plan(), bus, slot)?;
        Some(self.sender.due(output))
    }

    /// The bus and the slot in the frame of the next cell, which then counts as sent; `None` if all cells of the frame
    /// were sent.
    #[inline(always)]
    pub fn cell(&mut self) -> Option<(u32, u64)>
        ensures due { result ≡ next_cell self.old }
        ensures after { self.new ≡ after_cell self.old }
        ensures fits { MatchOption result ⊤ (λ c. self.old.first + c.1 + 1 < 2 ^ 64) }
    {
        self.sender.cell()
    }

    /// Goes on to the next frame by this plan. The answer is `false`, and nothing changes, if the frame's slots cannot
    /// be counted in 64 bits.
    pub fn turn(&mut self, newest: &GroupPlan<OUTPUTS>) -> bool
        ensures room { result ≡ fits_next self.old newest.now }
        ensures after { self.new ≡ turned self.old newest.now }
    {
        let CachedSender { sender, cells } = self;
        let same = has_same_frame(sender.plan(), newest);
        let turned = sender.turn(newest);
        if turned && !same {
            fill(cells, newest);
        }
        turned
    }
}
