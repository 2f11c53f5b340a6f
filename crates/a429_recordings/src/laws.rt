//! What follows from the definitions of commands on recordings.
ghost use Rattle.a429_recordings.specs.JudgedPlans.{DefaultToleranceIsAllowed};
ghost use Rattle.a429_recordings.specs.SummaryLaws.{WordsAreWithinBounds};

use a429_core::laws::accepted_words_go_out_in_time;
use a429_slots::laws::plans_in_force_are_spaced;

/// In each row of the summary of a simulation, `late_us` is at most `bound_us`, if the output sent a word. The simulation is
/// of the plan of a table that is read, with any log and up to any time.
pub fn words_are_within_bounds()
    ensures { WordsAreWithinBounds }
{
    plans_in_force_are_spaced();
    accepted_words_go_out_in_time();
}

/// If no tolerance is given to `judge`, that of each group is at most half the period of each of its outputs. So it is
/// refused for no plan.
pub fn default_tolerance_is_allowed()
    ensures { DefaultToleranceIsAllowed }
{}
