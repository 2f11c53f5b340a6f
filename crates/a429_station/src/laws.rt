//! What follows of the plans of a run, from the definitions alone.
ghost use Rattle.a429_station.specs.Resubmitting.{PlansOfRunsAreSpaced};

use a429_slots::laws::planned_tables_are_spaced;

/// The plans of a run keep to the spacings of their outputs: the one that it began with and those that were published
/// during it. So the laws of `a429_workers` on spacing are true of its calls.
pub fn plans_of_runs_are_spaced()
    ensures { PlansOfRunsAreSpaced }
{
    planned_tables_are_spaced();
}
