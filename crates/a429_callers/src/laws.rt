//! What is true of the documents of a plan, of what is imported from them, and of the gap between two plans.
ghost use Rattle.a429_callers.specs.ChangesExample.{MeetsPremisesOfAChange};
ghost use Rattle.a429_callers.specs.ImportedIcd.{ImportedIcdIsSamePlan};
ghost use Rattle.a429_callers.specs.ManyChangesExample.{MeetsPremisesOfChanges};
ghost use Rattle.a429_callers.specs.NextSends.{NextSendIsAGapLater};
ghost use Rattle.a429_callers.specs.ReadBack.{SheetsAreReadBack};

use a429_slots::laws::{
    plans_are_unique, plans_in_force_are_spaced, spacing_empties_first_cells_only, words_are_spaced,
};

/// `import_table`, which makes no names, is given `icd_sheet` as comma-separated values, of a table of version 2 without
/// filters. It answers a table that is read with the same groups and outputs, in order, each with the same source and
/// receiver. The text of its plan is the same. Only the numbers of sources and receivers may be others. The sources that
/// no group sends are gone, and so are the receivers that are left without a source. The one error is that memory ran
/// out.
pub fn imported_icd_is_same_plan()
    ensures { ImportedIcdIsSamePlan }
{
    plans_are_unique();
}

/// A group goes on from one plan to another that has an output of the source too, and the last cell of the source by
/// the first plan was sent. Then the source is sent next exactly `gap_of` slots later, which is the gap that `diff`
/// prints. No hold may empty a cell of the source in between: one that has run out makes the gap longer.
pub fn next_send_is_a_gap_later()
    ensures { NextSendIsAGapLater }
{
    words_are_spaced();
    spacing_empties_first_cells_only();
    plans_in_force_are_spaced();
}

/// The premises of the laws of one change can be met, even by a change to a plan with another period.
pub fn laws_of_a_change_apply()
    ensures { MeetsPremisesOfAChange }
{}

/// The premises of the laws of any number of changes can be met, by two changes between plans with different periods.
pub fn laws_of_changes_apply()
    ensures { MeetsPremisesOfChanges }
{}

/// A reader of a sheet's comma-separated values (RFC 4180) gets the names of the columns and the texts of the cells. Each
/// row must have a cell, and the text must not begin with a byte order mark.
pub fn sheets_are_read_back()
    ensures { SheetsAreReadBack }
{}
