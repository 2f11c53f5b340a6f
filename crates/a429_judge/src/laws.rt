//! What follows from the definitions.
ghost use Rattle.a429_judge.specs.Laws.{GridPeriodsArePlanned, OkIsRight, RightBoxHasNoFinding};
ghost use Rattle.a429_judge.specs.Machine.{RecordedBoxHasNoFinding};
ghost use Rattle.a429_judge.specs.RecordExample.{RecordExample};

/// Let the verdict on an output be ok. If the window of a send is within the log of what came in, its word was the latest
/// accepted one at some moment of the window. Two consecutive sends are within the output's interval, up to the
/// tolerance, unless its hold forbade one between them. The logs end as soon after its last send.
pub fn ok_is_right()
    ensures { OkIsRight }
{}

/// A right box is never condemned: nothing is found at its outputs. Its slots may begin at any time. Each may come a period
/// after the one before, or sooner or later by `drift`. A send is recorded up to a slot after its slot begins, and each
/// time of the logs may be wrong by `wrong`. Twice `wrong` and `drift` are at most the tolerance. The log of what came in may
/// be any piece. The log of what was sent may begin at any send of the group, and has each of its later sends to the end of
/// both logs.
pub fn right_box_has_no_finding()
    ensures { RightBoxHasNoFinding }
{}

/// A box that sends as the machine does is never condemned: in each slot of an output the latest accepted word, unless it
/// was sent as often as the hold allows. Its slots and its logs may be as in `right_box_has_no_finding`.
pub fn recorded_box_has_no_finding()
    ensures { RecordedBoxHasNoFinding }
{}

/// The grid period of an output's interval is within it: so the facts of a planned output meet the premise of the laws above.
pub fn grid_periods_are_planned()
    ensures { GridPeriodsArePlanned }
{}

/// An example of a recorded box whose slots drift: the premises of `recorded_box_has_no_finding` can be met.
pub fn recorded_box_applies()
    ensures { RecordExample }
{}
