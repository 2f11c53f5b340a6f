//! The layout of a group.
ghost use Rattle.std.specs.Prelude.{◌≡◌, ◌<◌, ◌≤◌, length, slice_index};

use crate::sums::SumTable;
use a429_grid::Period;
use std::marker::Model;

/// The layout of a group of at most `N` outputs on buses: its outputs in layout order, each with a stretch of as
/// many places as it has cells in a frame. Contracts see it as a `Layout`.
#[derive(Clone, Copy)]
pub struct Packed<const N: usize> {
    pub(crate) frame: Period,
    pub(crate) buses: u32,
    pub(crate) sums: SumTable<N>,
    pub(crate) inputs: [usize; N],
}

impl<const N: usize> Model for Packed<N> {
    ghost use Rattle.std.specs.Prelude.{◌≡◌, length, take};
    ghost use Rattle.std.proofs.Common.{sym};
    ghost use Rattle.a429_pack.specs.Layout.{Layout, IsLaidOut};
    ghost use Rattle.a429_pack.specs.Kept.{kept_layout, padded};

    ghost Value = { Layout };

    ghost view = { λ p. kept_layout p.frame p.buses p.sums p.inputs };

    ghost invariant = { λ p. (p.inputs ≡ padded 0 N (take (length p.sums) p.inputs)) × IsLaidOut (kept_layout p.frame p.buses p.sums p.inputs) };

    ghost inverse = { λ l. record { frame = l.frame; buses = l.buses; sums = l.demands; inputs = padded 0 N l.inputs } };

    ghost inverse_ok = { λ p h i. record { frame = p.frame; buses = p.buses; sums = p.sums; inputs = sym h.0 i } };
}

impl<const N: usize> Packed<N> {
    ghost use Rattle.a429_pack.specs.Layout.{IsLaidOut};

    /// The frame: the greatest period of the group.
    pub fn frame(&self) -> Period
        ensures value { result ≡ self.now.frame }
        ensures laid_out { IsLaidOut self.now }
    {
        self.frame
    }

    /// How many buses the group needs, at most 16.
    pub fn buses(&self) -> u32
        ensures value { result ≡ self.now.buses }
        ensures laid_out { IsLaidOut self.now }
    {
        self.buses
    }

    /// How many outputs the group has.
    pub fn len(&self) -> usize
        ensures value { result ≡ length self.now.inputs }
        ensures room { result ≤ N }
        ensures laid_out { IsLaidOut self.now }
    {
        self.sums.len()
    }

    /// The output at place `k` of the layout, by its number in the order given.
    pub fn input(&self, k: usize) -> usize
        requires { k < length self.now.inputs }
        ensures value { result ≡ slice_index self.now.inputs k }
        ensures known { result < length self.now.inputs }
    {
        prove!(k < self.sums.len());
        self.inputs[k]
    }

    /// The outputs' demands in layout order: how many slots of a frame each one has.
    pub fn sums(&self) -> &SumTable<N>
        ensures value { result.now ≡ self.now.demands }
        ensures laid_out { IsLaidOut self.now }
    {
        &self.sums
    }
}
