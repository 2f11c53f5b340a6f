//! Demands and their running sums.
ghost use Rattle.std.specs.Prelude.{◌≡◌, ◌+◌, ◌<◌, ◌≤◌, ◌^◌, ◌↔◌, ◌∷◌, ◌++◌, ℕ, [], Some, None, IfSome, length, sum, slice_index};
ghost use Rattle.a429_pack.specs.Sums.{start_of, Holds};

use std::marker::Model;

/// Up to `N` demands, and the start of the stretch of each if they follow one another. Contracts see the list of the
/// demands.
#[derive(Clone, Copy)]
pub struct SumTable<const N: usize> {
    demands: [u32; N],
    starts: [u32; N],
    count: usize,
    total: u32,
}

impl<const N: usize> Model for SumTable<N> {
    ghost use Rattle.std.specs.Prelude.{ℕ, List, length, sum, take};
    ghost use Rattle.std.proofs.Common.{sym};
    ghost use Rattle.a429_pack.specs.Kept.{AreKept, length-kept, padded, starts_from};

    ghost Value = { List ℕ };

    ghost view = { λ t. take t.count t.demands };

    ghost invariant = { λ t. AreKept N t.demands t.starts t.count t.total };

    ghost inverse = { λ ds. record { demands = padded 0 N ds; starts = padded 0 N (starts_from 0 ds); count = length ds; total = sum ds } };

    ghost inverse_ok = { λ t h i. record {
      demands = sym h.demands i;
      starts = sym h.starts i;
      count = length-kept 0 N t.demands t.count h.room h.demands i;
      total = sym h.total i;
    } };
}

impl<const N: usize> SumTable<N> {
    /// An empty table.
    pub fn new() -> SumTable<N>
        ensures { result ≡ [] }
    {
        SumTable {
            demands: [0; N],
            starts: [0; N],
            count: 0,
            total: 0,
        }
    }

    /// Adds a demand, whose stretch follows the others. The table must have room, and the new total must fit.
    pub fn push(&mut self, demand: u32)
        requires room { length self.old < N }
        requires some { 1 ≤ demand }
        requires fits { sum self.old + demand < 2 ^ 32 }
        ensures { self.new ≡ self.old ++ demand ∷ [] }
    {
        self.demands[self.count] = demand;
        self.starts[self.count] = self.total;
        (self.count, self.total) = (self.count + 1, self.total + demand);
    }

    /// How many demands there are, at most `N`.
    pub fn len(&self) -> usize
        ensures value { result ≡ length self.now }
        ensures few { result ≤ N }
    {
        self.count
    }

    /// The sum of the demands.
    pub fn total(&self) -> u32
        ensures { result ≡ sum self.now }
    {
        self.total
    }

    /// Demand `i`, at least 1.
    pub fn demand(&self, i: usize) -> u32
        requires { i < length self.now }
        ensures value { result ≡ slice_index self.now i }
        ensures some { 1 ≤ result }
    {
        prove!(i < self.count);
        self.demands[i]
    }

    /// The start of the stretch of demand `i`: the sum of the demands before it.
    pub fn start(&self, i: usize) -> u32
        requires { i < length self.now }
        ensures { result ≡ start_of self.now i }
    {
        prove!(i < self.count);
        self.starts[i]
    }

    /// The demand whose stretch has `x`, and how many running sums were read to find it. If `x` is not below the total,
    /// the demand is `None` and no sum is read. The search halves the demands: for n demands with d binary digits it
    /// reads at most d sums, and if it finds a demand at least d - 1.
    #[tactic(auto, using(crate::proofs::Halving::few_probes, crate::proofs::Halving::some_probes))]
    pub fn find_counted(&self, x: u32) -> (Option<usize>, u32)
        ensures found { IfSome result.0 (Holds self.now x) }
        ensures only { (i : ℕ) → Holds self.now x i → result.0 ≡ Some i }
        ensures none { (result.0 ≡ None) ↔ (sum self.now ≤ x) }
        ensures probes { (digits : ℕ) → length self.now < 2 ^ digits → result.1 ≤ digits }
        ensures least { IfSome result.0 (λ _. length self.now < 2 ^ (result.1 + 1)) }
        ensures outside { result.0 ≡ None → result.1 ≡ 0 }
    {
        if x >= self.total() {
            return (None, 0);
        }
        let mut low = 0;
        let mut left = self.len();
        let mut probes = 0;
        while left > 1 {
            let half = left / 2;
            probes += 1;
            if self.start(low + half) <= x {
                low += half;
            }
            left -= half;
        }
        (Some(low), probes)
    }

    /// The demand whose stretch has `x`; `None` if `x` is not below the total.
    pub fn find(&self, x: u32) -> Option<usize>
        ensures found { IfSome result (Holds self.now x) }
        ensures only { (i : ℕ) → Holds self.now x i → result ≡ Some i }
        ensures none { (result ≡ None) ↔ (sum self.now ≤ x) }
    {
        self.find_counted(x).0
    }
}
