//! What follows from the definitions of schedules, orders and stretches.
ghost use Rattle.std.specs.Prelude.{◌≡◌, ℕ, ◌<◌, ◌≤◌, ◌*◌, List, length, slice_index, sum};
ghost use Rattle.std.specs.List.{range_with_len};
ghost use Rattle.std.specs.List.Sorted.{IsPermutation};
ghost use Rattle.a429_pack.specs.Demanded.{AreFewestBuses, IsBusCount};
ghost use Rattle.a429_pack.specs.declared.demands.Demand.{Demand};
ghost use Rattle.a429_pack.specs.Demands.{IsLayoutOrder, greatest};
ghost use Rattle.a429_pack.specs.Orders.{NamesEachOnce};
ghost use Rattle.a429_pack.specs.Sums.{Holds};
ghost use Rattle.a429_pack.specs.Windows.{Endless, ServesEndlessly, cells_asked, raw_bound};

use a429_grid::laws::blocks_are_periodic;

/// The fewest buses that any schedule of a group needs are those that carry its demand in one frame, if one bus less
/// does not. The group is given by its outputs' periods in slots, as exponents of two. A frame is the greatest of the
/// periods (profile: layout). No other number of buses is the fewest.
pub fn fewest_by_demand()
    ensures carried { (exponents : List ℕ) (buses : ℕ) → 1 ≤ length exponents → IsBusCount exponents buses
        → AreFewestBuses exponents buses }
    ensures only { (exponents : List ℕ) (buses : ℕ) → 1 ≤ length exponents
        → AreFewestBuses exponents buses → IsBusCount exponents buses }
    ensures one { (exponents : List ℕ) (buses others : ℕ) → AreFewestBuses exponents buses → AreFewestBuses exponents others
        → buses ≡ others }
{
    blocks_are_periodic();
}

/// No number of a list is above its greatest, by the definition of `greatest`.
pub fn none_is_above_the_greatest()
    ensures { (numbers : List ℕ) (i : ℕ) → i < length numbers → slice_index numbers i ≤ greatest numbers }
{}

/// A permutation of the numbers below `n` has each of them at exactly one place, since their range has each of them
/// once.
pub fn orders_name_each_once()
    ensures { (n : ℕ) (order : List ℕ) → IsPermutation (range_with_len 0 n) order → NamesEachOnce n order }
{}

/// Each stretch starts at the end of the one before it. So two stretches that hold one place are the same, and a place
/// that is held is below the sum of the demands.
pub fn stretches_are_apart()
    ensures apart { (demands : List ℕ) (x i j : ℕ) → Holds demands x i → Holds demands x j → i ≡ j }
    ensures within { (demands : List ℕ) (x i : ℕ) → Holds demands x i → x < sum demands }
{}

/// A group has one layout order: no two lists of its outputs are in it.
pub fn layout_orders_are_unique()
    ensures { (demands : List Demand) (inputs others : List ℕ) → IsLayoutOrder demands inputs → IsLayoutOrder demands others
        → inputs ≡ others }
{}

/// Every endless schedule of any form, in which each output recurs within its own window of slots, has at least as many
/// buses as the raw bound of the windows: any stretch of slots has a cell in each whole window of each output. So if a
/// plan has that number of buses, no choice of periods saves a bus (profile: raw bound).
pub fn raw_bound_holds()
    ensures asked { (windows : List ℕ) (e : Endless) → ServesEndlessly windows e → (slots : ℕ)
        → cells_asked slots windows ≤ slots * e.rows }
    ensures bound { (windows : List ℕ) (e : Endless) → ServesEndlessly windows e → raw_bound windows ≤ e.rows }
{}
