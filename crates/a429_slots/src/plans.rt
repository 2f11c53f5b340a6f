//! The plans of a station's groups.
ghost use Rattle.std.specs.Prelude.{◌≡◌, ◌<◌, ◌≤◌, ◌++◌, ◌∷◌, [], length, slice_get, slice_set, Some};
ghost use Rattle.a429_slots.specs.Tables.{groups_of};

use crate::group_plan::GroupPlan;
use a429_equipment::GROUPS;
use std::marker::Model;

/// A plan: a slot table for each group, in table order, and the number under which it was published.
#[derive(Clone, Copy)]
pub struct Plan<const N: usize> {
    count: usize,
    groups: [GroupPlan<N>; GROUPS],
    number: u64,
}

impl<const N: usize> Model for Plan<N> {
    ghost use Rattle.std.specs.Prelude.{◌≡◌, ◌≤◌, length, take};
    ghost use Rattle.std.proofs.Common.{sym};
    ghost use Rattle.a429_pack.specs.Kept.{length-kept, padded};
    ghost use Rattle.a429_slots.specs.Tables.{PlanTable, no_table};

    ghost Value = { PlanTable };

    ghost view = { λ p. record { groups = take p.count p.groups; number = p.number } };

    ghost invariant = { λ p. (p.count ≤ 8) × (p.groups ≡ padded no_table 8 (take p.count p.groups)) };

    ghost inverse = { λ t. record { count = length t.groups; groups = padded no_table 8 t.groups; number = t.number } };

    ghost inverse_ok = { λ p h i. record {
      count = length-kept no_table 8 p.groups p.count h.0 h.1 i;
      groups = sym h.1 i;
      number = p.number;
    } };
}

/// Sets the slot table of a group.
fn put<const N: usize>(groups: &mut [GroupPlan<N>], group: usize, table: GroupPlan<N>)
    requires { group < length groups.old }
    ensures { groups.new ≡ slice_set groups.old group table.entry }
{
    groups[group] = table;
}

impl<const N: usize> Plan<N> {
    /// The plan of a station without groups, of number 0.
    pub(crate) fn empty() -> Plan<N>
        ensures none { groups_of result ≡ [] }
        ensures number { result.number ≡ 0 }
    {
        Plan {
            count: 0,
            groups: [GroupPlan::empty(); GROUPS],
            number: 0,
        }
    }

    /// Adds the slot table of the next group.
    pub(crate) fn push(&mut self, group: GroupPlan<N>)
        requires { length (groups_of self.old) < 8 }
        ensures groups { groups_of self.new ≡ groups_of self.old ++ group.entry ∷ [] }
        ensures number { self.new.number ≡ self.old.number }
    {
        put(&mut self.groups, self.count, group);
        self.count += 1;
    }

    /// Gives a group another slot table.
    pub(crate) fn replace(&mut self, group: usize, table: GroupPlan<N>)
        requires { group < length (groups_of self.old) }
        ensures groups { groups_of self.new ≡ slice_set (groups_of self.old) group table.entry }
        ensures number { self.new.number ≡ self.old.number }
    {
        put(&mut self.groups, group, table);
    }

    /// How many groups the station has, at most 8.
    pub fn groups(&self) -> usize
        ensures value { result ≡ length (groups_of self.now) }
        ensures few { result ≤ 8 }
    {
        self.count
    }

    /// The slot table of a group.
    pub fn group(&self, group: usize) -> &GroupPlan<N>
        requires { group < length (groups_of self.now) }
        ensures { slice_get (groups_of self.now) group ≡ Some result.now }
    {
        let groups: &[GroupPlan<N>] = &self.groups;
        &groups[group]
    }

    /// The number under which the plan was published, from 0.
    pub fn number(&self) -> u64
        ensures { result ≡ self.now.number }
    {
        self.number
    }

    /// This plan under this number.
    pub fn numbered(self, number: u64) -> Plan<N>
        ensures { result ≡ record self.entry { number = number } }
    {
        Plan { number, ..self }
    }

    /// Takes the slot tables of another plan, under this number.
    pub fn take_tables(&mut self, plan: &Plan<N>, number: u64)
        ensures { self.new ≡ record plan.now { number = number } }
    {
        *self = *plan;
        self.number = number;
    }

    /// A copy of the plan.
    pub fn copied(&self) -> Plan<N>
        ensures { result ≡ self.now }
    {
        *self
    }
}
