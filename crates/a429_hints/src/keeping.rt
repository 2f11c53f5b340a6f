//! Hints about plans whose outputs stay at their places.

use crate::hint::HintText;
use a429_console::hints::warnings::{KeptCounts, MovedOutput, StatedPlace};
use a429_console::refusals::kinds::PlanKind;

/// Says how many outputs stay.
pub fn tell_kept(counts: KeptCounts, hint: &HintText) {
    hint.begin(": ");
    hint.say_two(
        "outputs that stay: {}, that move: {}",
        counts.stay,
        counts.moved,
    );
    hint.end_two(
        ", that are new: {}, that are gone: {}",
        counts.added,
        counts.gone,
    );
}

/// Says a place.
fn say_place(place: StatedPlace, hint: &HintText) {
    hint.say_two("period {}, bus {}", place.period, place.bus);
    hint.say_one(", offset {}", place.offset);
}

/// Says which output moves, and from where to where.
pub fn tell_moved(output: &MovedOutput, hint: &HintText) {
    hint.begin(": ");
    hint.say_two(
        "group {}, output of source {}: ",
        output.group.as_str(),
        output.source.as_str(),
    );
    say_place(output.before, hint);
    hint.say(" becomes ");
    say_place(output.after, hint);
    hint.end("");
}

/// What is wrong with a line of the plan text of `--keep`.
pub fn kept_line(kind: PlanKind) -> &'static str {
    match kind {
        PlanKind::Rate => {
            "the table has another bit rate for this group, so that its slots are other times; plan it without --keep"
        }
        PlanKind::Place => "the offset must be below the period",
        PlanKind::Shared => "an output above has cells of this one; `a429 check` says which",
        _ => "this is no line of a plan text; give the output of `a429 plan`",
    }
}
