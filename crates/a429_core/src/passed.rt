//! Groups whose slots have passed.
ghost use Rattle.std.specs.Prelude.{◌≡◌, ◌<◌, ◌^◌, length};
ghost use Rattle.a429_slots.specs.Tables.{groups_of};
ghost use Rattle.a429_core.specs.Passed.{after_slots, groups_passed};

use a429_slots::{CachedSender, GroupPlan, OUTPUTS, Plan};

/// Puts a group after this number of slots by a table, from slot 0.
fn pass_frames(sender: &mut CachedSender, table: &GroupPlan<OUTPUTS>, slots: u64)
    requires few { slots < 2 ^ 63 }
    ensures { sender.new ≡ after_slots table.now slots }
{
    let on = slots % u64::from(table.frame());
    let cells = on * u64::from(table.buses());
    sender.restart(table, slots - on);
    for _ in 0..cells {
        let _ = sender.cell();
    }
}

/// Puts a group after this number of slots by its newest table, from slot 0.
pub fn pass_group(groups: &mut Vec<CachedSender>, newest: &Plan<OUTPUTS>, group: usize, slots: u64)
    requires group { group < length groups.old.items }
    requires planned { group < length (groups_of newest.now) }
    requires few { slots < 2 ^ 63 }
    ensures after { groups.new.items ≡ groups_passed groups.old.items newest.now group slots }
    ensures len { length groups.new.items ≡ length groups.old.items }
{
    pass_frames(&mut groups[group], newest.group(group), slots);
}
