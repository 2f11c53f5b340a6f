//! Outputs that would have to get twice their period for a group to need a bus less.
ghost use Rattle.std.specs.Prelude.{◌≡◌, ℕ, ◌+◌, ◌-◌, ◌^◌, ◌<◌, ◌≤◌, ◌↔◌, ◌⊎◌, ◌&&◌, IsTrue, false, length, nat_le, nat_lt, if◌then◌else◌, slice_index_or};
ghost use Rattle.a429_pack.specs.Demanded.{IsBusCount, demand_of};
ghost use Rattle.a429_pack.specs.Demands.{greatest};
ghost use Rattle.a429_pack.specs.Taken.{AreTaken, freeable};
ghost use Rattle.a429_pack.specs.Widening.{IsLeastSaving, NoneSaves, Saves, excess};

use a429_grid::Period;

/// The greatest of some periods; one slot if there are none.
fn greatest_of(periods: &[Period]) -> Period
    ensures { result ≡ greatest periods.now }
{
    let mut digits = 0;
    for period in periods {
        digits = digits.max(period.digits());
    }
    Period::of_digits(digits)
}

/// How many slots of a frame an output of this period has.
fn cells_of(period: Period, frame: Period) -> u32
    requires { period ≤ frame }
    ensures value { result ≡ 2 ^ (frame - period) }
    ensures few { result ≤ 8192 }
{
    Period::of_digits(frame.digits() - period.digits()).slots()
}

/// How many slots of a frame all outputs have.
fn cells_of_all(periods: &[Period], frame: Period) -> u64
    requires many { length periods.now < 2 ^ 32 }
    requires frame { frame ≡ greatest periods.now }
    ensures value { result ≡ demand_of periods.now }
    ensures few { result < 2 ^ 45 }
{
    let mut cells = 0;
    for period in periods {
        cells += u64::from(cells_of(*period, frame));
    }
    cells
}

/// The number of cells that become free if an output of this period is wider; 0 if its exponent is below `low` or its
/// period is the whole frame.
fn cells_freed(period: Period, frame: Period, low: u32) -> u32
    ensures value { result ≡ (if nat_le low period && nat_lt period frame then 2 ^ (frame - period - 1) else 0) }
    ensures few { result ≤ 8192 }
{
    if low > period.digits() || period.digits() >= frame.digits() {
        return 0;
    }
    Period::of_digits(frame.digits() - period.digits() - 1).slots()
}

/// The number of cells that become free if all outputs whose exponent is at least `low` and below the frame's are
/// wider.
fn cells_freed_by_all(periods: &[Period], frame: Period, low: u32) -> u64
    requires { length periods.now < 2 ^ 32 }
    ensures value { result ≡ freeable frame low frame periods.now }
    ensures few { result < 2 ^ 45 }
{
    let mut cells = 0;
    for period in periods {
        cells += u64::from(cells_freed(*period, frame, low));
    }
    cells
}

/// Whether an output that frees `size` cells is chosen. Of `needed` cells that must become free, `cells` are free
/// already; `rest` would become free if all outputs of greater periods were wider.
fn is_due(size: u64, cells: u64, needed: u64, rest: u64) -> bool
    requires fits { cells + size < 2 ^ 64 }
    requires both { cells + rest < 2 ^ 64 }
    ensures { IsTrue result ↔ ((cells + size ≤ needed) ⊎ (cells + rest < needed)) }
{
    cells + size <= needed || cells + rest < needed
}

/// Chooses among the outputs whose period has this exponent, in table order, once those of shorter periods are decided.
fn take_some(
    periods: &[Period],
    frame: Period,
    digits: u32,
    needed: u64,
    mut cells: u64,
    chosen: &mut [bool],
) -> u64
    requires many { length periods.now < 2 ^ 32 }
    requires few { needed < 2 ^ 45 }
    requires shorter { digits < frame }
    requires taken { AreTaken frame needed digits periods.now chosen.old cells }
    ensures { AreTaken frame needed (digits + 1) periods.now chosen.new result }
{
    let size = u64::from(Period::of_digits(frame.digits() - digits - 1).slots());
    let rest = cells_freed_by_all(periods, frame, digits + 1);
    for (place, period) in periods.iter().enumerate() {
        if period.digits() == digits && is_due(size, cells, needed, rest) {
            chosen[place] = true;
            cells += size;
        }
    }
    cells
}

/// Chooses no output.
fn clear(chosen: &mut [bool])
    ensures { (i : ℕ) → slice_index_or chosen.new i false ≡ false }
{
    for output in chosen.iter_mut() {
        *output = false;
    }
}

/// Chooses outputs from the shortest period on, so that as many cells as needed become free. Answers how many do.
fn take(periods: &[Period], frame: Period, needed: u64, chosen: &mut [bool]) -> u64
    requires many { length periods.now < 2 ^ 32 }
    requires few { needed < 2 ^ 45 }
    requires each { length chosen.old ≡ length periods.now }
    requires enough { needed ≤ freeable frame 0 frame periods.now }
    ensures { AreTaken frame needed frame periods.now chosen.new result }
{
    clear(chosen);
    let mut cells = 0;
    for digits in 0..frame.digits() {
        cells = take_some(periods, frame, digits, needed, cells, chosen);
    }
    cells
}

/// How many cells of the demand of all outputs one bus less has no room for.
fn excess(periods: &[Period], frame: Period, buses: u32) -> u64
    requires many { length periods.now < 2 ^ 32 }
    requires frame { frame ≡ greatest periods.now }
    requires count { IsBusCount periods.now buses }
    requires more { 2 ≤ buses }
    ensures value { result ≡ excess periods.now buses }
    ensures few { result < 2 ^ 45 }
{
    cells_of_all(periods, frame) - (u64::from(buses) - 1) * u64::from(frame.slots())
}

/// Whether a group of two buses or more would need one bus less if some of its outputs got twice their period each, and
/// which: the choice that frees the fewest slots of the frame. Only outputs whose period is below the greatest are
/// chosen, so the frame stays. If the answer is yes, `chosen` says of each output whether it is one. If the answer is
/// no, nothing is chosen and no choice saves a bus (profile: layout).
pub fn widening_saves(periods: &[Period], buses: u32, chosen: &mut [bool]) -> bool
    requires many { length periods.now < 2 ^ 32 }
    requires each { length chosen.old ≡ length periods.now }
    requires count { IsBusCount periods.now buses }
    requires more { 2 ≤ buses }
    ensures saves { IsTrue result → Saves periods.now buses chosen.new }
    ensures least { IsTrue result → IsLeastSaving periods.now buses chosen.new }
    ensures none { result ≡ false → NoneSaves periods.now buses }
    ensures cleared { result ≡ false → (i : ℕ) → slice_index_or chosen.new i false ≡ false }
{
    let frame = greatest_of(periods);
    let needed = excess(periods, frame, buses);
    if cells_freed_by_all(periods, frame, 0) < needed {
        clear(chosen);
        return false;
    }
    take(periods, frame, needed, chosen);
    true
}
