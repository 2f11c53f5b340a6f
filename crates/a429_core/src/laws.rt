//! What follows from the definition of answers.
ghost use Rattle.std.specs.Prelude.{◌≡◌, ◌++◌, ◌∷◌, [], ℕ, List};
ghost use Rattle.a429_slots.specs.Events.{Event};
ghost use Rattle.a429_slots.specs.History.{Opening};
ghost use Rattle.a429_slots.specs.Answers.{answer, answers};
ghost use Rattle.a429_core.specs.Latency.{AcceptedWordsGoOutAnyway, AcceptedWordsGoOutInTime, CellsRecurAcrossAChange, CellsRecurAcrossChanges, LatencyIsBounded, LatencyIsBoundedAcrossAChange, LatencyIsBoundedAcrossChanges, OnePlanKeepsOutputs, OpeningWordsGoOutInTime, OutputsComeRound, OutputsRecurExactly, SendsRecurAcrossAChange, SendsRecurAcrossChanges, SlotsPassOneByOne, StayingCellsAreFull, WordsGoOutAcrossAChange, WordsGoOutAcrossChanges, WordsGoOutOrAreFirst};
ghost use Rattle.a429_core.specs.LatencyExample.{MeetsPremises};
ghost use Rattle.a429_core.specs.Spaced.{AreSpaced, LaterCellsAreFull, OnlyFirstCellsAreEmpty, OpeningCellsAreFull, SentWordsAreApart};
ghost use Rattle.a429_core.specs.MachineStates.{GoesOnByEvents, IsWholeEvent, MachineState};
ghost use Rattle.a429_core.specs.MachineSteps.{CallsAreAnswered, OtherCellsHaveNoWord, SentCellsAreAnswered, stepped};
ghost use Rattle.a429_core.specs.Sends.{CellsAreAnsweredInTurn, SentWordsWereAccepted, TakenFramesAreAnswered, TakenFramesFollowAllCells, WordsAreAcceptedOneByOne};

use a429_slots::laws::{
    plans_in_force_are_spaced, sends_are_recalled, spacing_empties_first_cells_only,
    words_are_spaced,
};

/// `arrive`, `cell`, `frame` and `publish` answer what the definition of answers says of their events, for every
/// history that the state stands for. What they make of what a state keeps agrees with that definition too.
pub fn calls_are_answered()
    ensures answer { CallsAreAnswered }
    ensures stands { (C : ℕ) (e : Event) (v : MachineState) → IsWholeEvent e → GoesOnByEvents C v (e ∷ []) (stepped C v e).1 }
{
    sends_are_recalled();
}

/// What `send_cell` answers is what the definition of answers says of the cell: its bus, its slot and its word, or that the
/// cell has no word or is refused, for every history that the state stands for.
pub fn sent_cells_are_answered()
    ensures sent { SentCellsAreAnswered }
    ensures none { OtherCellsHaveNoWord }
{
    calls_are_answered();
}

/// A word that is sent is the latest that was accepted before for the source of the output in its slot.
pub fn word_was_accepted()
    ensures { SentWordsWereAccepted }
{}

/// A source accepts exactly the words of the arrivals that are answered so, one by one.
pub fn words_are_accepted_one_by_one()
    ensures { WordsAreAcceptedOneByOne }
{}

/// From the beginning of a frame of a group up to the next taken Frame, its cells are answered in order: slot by slot,
/// in a slot bus by bus, each once. After the last one the answer is `FrameEnd`. If a Frame is taken, all of them were
/// answered.
pub fn cells_are_answered_in_turn()
    ensures each { CellsAreAnsweredInTurn }
    ensures all { TakenFramesFollowAllCells }
{}

/// A Frame is answered with the number of the newest plan if and only if it is taken.
pub fn taken_frames_are_answered()
    ensures { TakenFramesAreAnswered }
{}

/// A history that is cut anywhere gives the same answers.
pub fn cut_histories_answer_alike()
    ensures { (C : ℕ) (o : Opening) (E xs ys : List Event) → answers C o E (xs ++ ys) ≡ answers C o E xs ++ answers C o (E ++ xs) ys }
{}

/// What is true of the spacing of words, in one.
fn spacing_is_kept()
    ensures { AreSpaced }
{
    words_are_spaced();
    spacing_empties_first_cells_only();
}

/// Let q be the spacing, in slots, of an output in the plan in force at its cell. If the cell sends a word, each
/// earlier word of the source was sent at least q slots before, even if plans changed between. A word that is accepted
/// and not held is missing in its cell only in one case: a word of its source was sent fewer than q slots before, and
/// the cell is the first of its output since the plan came into force.
pub fn sent_words_are_spaced()
    ensures apart { SentWordsAreApart }
    ensures only { OnlyFirstCellsAreEmpty }
{
    spacing_is_kept();
}

/// Within one plan no cell is empty because of spacing: from an output's second cell on, and from its first under the
/// opening plan, each cell has the last accepted word, unless that is held.
pub fn outputs_recur_within_a_plan()
    ensures again { LaterCellsAreFull }
    ensures opening { OpeningCellsAreFull }
{
    spacing_is_kept();
}

/// A group answers its cells on a bus slot by slot and leaves none out, as long as its plans have the bus.
pub fn slots_pass_one_by_one()
    ensures { SlotsPassOneByOne }
{}

/// An output that stays at its place has a cell in each period of slots, in any frames and under any plans. Each cell
/// is exactly a period after the one before. From the second on it has the last accepted word, unless that is held. As
/// long as one plan is in force, each of its outputs stays.
pub fn outputs_come_round()
    ensures round { OutputsComeRound }
    ensures exact { OutputsRecurExactly }
    ensures full { StayingCellsAreFull }
    ensures plan { OnePlanKeepsOutputs }
{
    plans_in_force_are_spaced();
    spacing_is_kept();
}

/// P is the period of the source's output and q its spacing, in slots. An output has settled if it was there from the
/// opening on or had stayed for a period before. An accepted word goes out, it or a later one of its source, within a
/// bound on the output's bus: P slots if the output has settled, otherwise P + q - 1 slots. If it does not go out
/// within P slots, its cell was emptied because of that spacing. The latency is from when the word is accepted until
/// the slot of its cell ends. If the output had stayed for a period before, and no cell is asked for before its slot
/// begins, the latency is at most P + 1 slots. Each accepted word may go out once, for any hold.
pub fn accepted_words_go_out_in_time()
    ensures settled { AcceptedWordsGoOutInTime }
    ensures latency { LatencyIsBounded }
    ensures opening { OpeningWordsGoOutInTime }
    ensures first { WordsGoOutOrAreFirst }
    ensures anyway { AcceptedWordsGoOutAnyway }
{
    plans_in_force_are_spaced();
    spacing_is_kept();
}

/// A group goes on from one plan to another, and both have an output of one source: then the cells and words of that
/// source go on. P and P' are the periods of the first and the second output, and no spacing is above q, in slots.
/// After a cell by the first plan the next one comes within fewer than P + P' slots. If the source's words are not
/// held, the next word after a word that was sent is sent within fewer than P' + max(P, q) slots. Let the first output
/// have stayed for a period. Then a word that is accepted before the change goes out, it or a later one, with a latency
/// of at most P' + max(P, q) slots.
pub fn words_go_on_across_a_change()
    ensures cells { CellsRecurAcrossAChange }
    ensures words { SendsRecurAcrossAChange }
    ensures accepted { WordsGoOutAcrossAChange }
    ensures latency { LatencyIsBoundedAcrossAChange }
{
    plans_in_force_are_spaced();
    spacing_is_kept();
}

/// Any plans may follow one another: as long as each has an output of the source, its cells and words go on. The
/// periods are at most P slots and the spacings at most q slots. The next cell comes within fewer than 2 P slots. If no
/// plan holds the source's words, the next word after a word that was sent is sent within fewer than q + 2 P slots. An
/// accepted word goes out, it or a later one, with a latency of at most q + 2 P - 1 slots.
pub fn words_go_on_across_changes()
    ensures cells { CellsRecurAcrossChanges }
    ensures words { SendsRecurAcrossChanges }
    ensures accepted { WordsGoOutAcrossChanges }
    ensures latency { LatencyIsBoundedAcrossChanges }
{
    plans_in_force_are_spaced();
    spacing_is_kept();
}

/// The premises of the law of latency can be met.
pub fn latency_applies()
    ensures { MeetsPremises }
{}
