//! What limits the sends of an output.
ghost use Rattle.std.specs.Prelude.{◌≡◌, ℕ, ◌≤◌, length, map};
ghost use Rattle.std.specs.List.{AllByRecursion};
ghost use Rattle.a429_equipment.specs.Sound.{IsInterval};
ghost use Rattle.a429_pack.specs.Kept.{padded};
ghost use Rattle.a429_slots.specs.Asked.{limits_at};
ghost use Rattle.a429_slots.specs.Tables.{unlimited};

use crate::group_plan::SendLimits;
use a429_equipment::OutputRow;
use a429_grid::spacing;

/// The limits of an output, at this bit rate in bit/s.
fn limits(rate: u32, output: &OutputRow) -> SendLimits
    requires interval { IsInterval output.now }
    requires rate { (1 ≤ rate) × (rate ≤ 100000) }
    ensures { result ≡ limits_at rate output.now }
{
    SendLimits {
        hold: output.hold,
        spacing: spacing(output.min_us, rate),
    }
}

/// The limits of the outputs, by their numbers.
pub fn limits_in<const N: usize>(rate: u32, outputs: &[OutputRow]) -> [SendLimits; N]
    requires room { length outputs.now ≤ N }
    requires intervals { AllByRecursion IsInterval outputs.now }
    requires rate { (1 ≤ rate) × (rate ≤ 100000) }
    ensures { result ≡ padded unlimited N (map (limits_at rate) outputs.now) }
{
    let unlimited = SendLimits {
        hold: None,
        spacing: 0,
    };
    let mut all = [unlimited; N];
    for (number, output) in outputs.iter().enumerate() {
        all[number] = limits(rate, output);
    }
    all
}
