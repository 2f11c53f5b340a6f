//! What is true of the definitions that the contracts cite.
ghost use Rattle.a429_keep.specs.KeepExamples.{AreExamples};
ghost use Rattle.a429_keep.specs.Laws.{AllStay};

/// The definitions, by examples in a frame of 4 slots.
pub fn places_are_as_written()
    ensures { AreExamples }
{}

/// If each output has a block, all stay: none is placed.
#[tactic(auto, using(crate::proofs::Staying::all_stay))]
pub fn all_stay()
    ensures { AllStay }
{}
