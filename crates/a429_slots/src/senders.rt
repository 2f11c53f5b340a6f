//! The place of a group in its frame.
pub mod cached;

ghost use Rattle.std.specs.Prelude.{◌≡◌, ◌≤◌, ◌+◌, ◌<◌, ◌^◌, length, nat_lt, option_map, slice_get, MatchOption, Some, ⊤};
ghost use Rattle.a429_slots.specs.Tables.{cells_of, frame_of, outputs_of};
ghost use Rattle.a429_slots.specs.FrameStates.{begun, next_cell, after_cell, fits_next, turned, due_of};

use crate::group_plan::{GroupPlan, SendLimits};
use crate::outputs::OutputId;
use a429_equipment::OUTPUTS;
use std::marker::Model;

/// An output whose cell is due: the number of its source, and what limits its sends.
#[derive(Clone, Copy, PartialEq, Eq)]
pub struct Due {
    pub source: usize,
    pub limits: SendLimits,
}

/// The plan in force of a group, the first slot of its frame, and the slot and the bus of the next cell: cells are
/// counted up slot by slot, and in a slot bus by bus, so that no number of cells is divided.
#[derive(Drop)]
pub(crate) struct Sender {
    plan: GroupPlan<OUTPUTS>,
    first: u64,
    slot: u32,
    bus: u32,
}

impl Model for Sender {
    ghost use Rattle.std.specs.Prelude.{◌<◌, ◌+◌, ◌^◌};
    ghost use Rattle.a429_slots.specs.Tables.{frame_of};
    ghost use Rattle.a429_slots.specs.FrameStates.{FrameState, IsNextCell, cells_before};

    ghost Value = { FrameState };

    ghost view = { λ s. record { table = s.plan; first = s.first; sent = cells_before s.plan s.bus s.slot } };

    ghost invariant = { λ s. (s.first + frame_of s.plan < 2 ^ 64) × IsNextCell s.plan s.bus s.slot };
}

impl Sender {
    /// A group before its first cell, by the opening plan.
    pub fn open(plan: GroupPlan<OUTPUTS>, first: u64) -> Sender
        requires { first + frame_of plan < 2 ^ 64 }
        ensures { result ≡ begun first plan }
    {
        Sender {
            plan,
            first,
            slot: 0,
            bus: 0,
        }
    }

    /// How many cells a frame has: its slots on each bus, at most 16 times 8192.
    pub fn cells(&self) -> u64
        ensures value { result ≡ cells_of self.now.table }
        ensures few { result ≤ 131072 }
    {
        u64::from(self.plan.buses()) * u64::from(self.plan.frame())
    }

    /// The first slot of the frame.
    pub fn first(&self) -> u64
        ensures { result ≡ self.now.first }
    {
        self.first
    }

    /// Whether cells of the frame are left to send.
    #[inline(always)]
    pub fn is_mid_frame(&self) -> bool
        ensures { result ≡ (nat_lt self.now.sent (cells_of self.now.table)) }
    {
        self.bus < self.plan.buses() && self.slot < self.plan.frame()
    }

    /// The slot table in force.
    pub(crate) fn plan(&self) -> &GroupPlan<OUTPUTS>
        ensures { result.now ≡ self.now.table }
    {
        &self.plan
    }

    /// The source of an output, and what limits its sends.
    #[inline(always)]
    pub(crate) fn due(&self, output: OutputId) -> Due
        requires { output < length (outputs_of self.now.table) }
        ensures value { option_map due_of (slice_get (outputs_of self.now.table) output) ≡ Some result }
        ensures some { 1 ≤ result.limits.spacing }
    {
        Due {
            source: self.plan.source(output),
            limits: self.plan.limits(output),
        }
    }

    /// The bus and the slot in the frame of the next cell, which then counts as sent; `None` if all cells of the frame
    /// were sent.
    #[inline(always)]
    pub fn cell(&mut self) -> Option<(u32, u64)>
        ensures due { result ≡ next_cell self.old }
        ensures after { self.new ≡ after_cell self.old }
        ensures fits { MatchOption result ⊤ (λ c. self.old.first + c.1 + 1 < 2 ^ 64) }
    {
        if !self.is_mid_frame() {
            return None;
        }
        let (bus, slot) = (self.bus, self.slot);
        if bus + 1 == self.plan.buses() {
            (self.bus, self.slot) = (0, slot + 1);
        } else {
            self.bus = bus + 1;
        }
        Some((bus, u64::from(slot)))
    }

    /// Goes on to the next frame by this plan. The answer is `false`, and nothing changes, if the frame's slots cannot
    /// be counted in 64 bits.
    pub fn turn(&mut self, newest: &GroupPlan<OUTPUTS>) -> bool
        ensures room { result ≡ fits_next self.old newest.now }
        ensures after { self.new ≡ turned self.old newest.now }
    {
        let first = self.first + u64::from(self.plan.frame());
        if u64::MAX - first < u64::from(newest.frame()) {
            return false;
        }
        self.plan = *newest;
        self.first = first;
        (self.bus, self.slot) = (0, 0);
        true
    }
}
