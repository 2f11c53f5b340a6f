//! What follows from the definition of reversed digits.
ghost use Rattle.std.specs.Prelude.{ℕ, ◌≤◌};
ghost use Rattle.a429_grid.specs.Grid.{IsGridPeriod, IsLeastSpacing, least_spacing};
ghost use Rattle.a429_grid.specs.Blocks.{HasPeriodicBlocks};

/// Places are counted bus by bus, and on a bus by the slot with its digits in reverse. Then a block of a power of two
/// of places has the slots of one offset on one bus, once in every period: the upper digits of a place are the lower
/// ones of its slot.
pub fn blocks_are_periodic()
    ensures { (digits : ℕ) → HasPeriodicBlocks digits }
{}

/// The spacing of an interval is a quotient, and no grid period is less: within one plan every output keeps to it.
pub fn spacings_are_least()
    ensures least { (min_us rate : ℕ) → IsLeastSpacing min_us rate (least_spacing min_us rate) }
    ensures period { (min_us max_us rate p : ℕ) → IsGridPeriod min_us max_us rate p → least_spacing min_us rate ≤ p }
{}
