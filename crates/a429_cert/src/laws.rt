//! What is true of the definitions that the contracts cite.
ghost use Rattle.std.specs.Prelude.{◌≡◌, ℕ};
ghost use Rattle.a429_cert.specs.Judged.{CheckedPlansAreFewest, FewestIsShown, OwnTextsAreFewest};
ghost use Rattle.a429_equipment.specs.TableRecord.{TableRecord};
ghost use Rattle.a429_slots.specs.Tables.{PlanTable};
ghost use Rattle.a429_slots.specs.Planned.{HasOwnLayout, IsPlanOf};
ghost use Rattle.a429_cert.specs.Spelling.{version_text, rate_text, group_text, output_text, bound_text, IsShort, FitsHeading, FitsListing, FitsBounding};
ghost use Rattle.a429_cert.specs.Reading.{IsReadAs, IsReadOnlyAs, plan_line, rate_line, group_line, output_line, bound_line};
ghost use Rattle.a429_cert.specs.PlanText.{plan_text_of};

use a429_pack::laws::fewest_by_demand;
use a429_slots::laws::plans_are_unique;

/// The first line is read if and only if it is spelled in its form (profile: plan text).
pub fn plan_lines()
    ensures found { IsReadOnlyAs plan_line version_text IsShort }
    ensures only { IsReadAs plan_line version_text IsShort }
{}

/// The line `rate` of version 1 is read if and only if it is spelled in its form (profile: plan text).
pub fn rate_lines()
    ensures found { IsReadOnlyAs rate_line rate_text IsShort }
    ensures only { IsReadAs rate_line rate_text IsShort }
{}

/// A group's first line is read if and only if it is spelled in its form, in each version (profile: plan text).
pub fn group_lines()
    ensures found { (version : ℕ) → IsReadOnlyAs (group_line version) group_text (FitsHeading version) }
    ensures only { (version : ℕ) → IsReadAs (group_line version) group_text (FitsHeading version) }
{}

/// The line of an output is read if and only if it is spelled in its form, in each version (profile: plan text).
pub fn output_lines()
    ensures found { (version : ℕ) → IsReadOnlyAs (output_line version) output_text (FitsListing version) }
    ensures only { (version : ℕ) → IsReadAs (output_line version) output_text (FitsListing version) }
{}

/// A group's last line is read if and only if it is spelled in its form (profile: plan text).
pub fn bound_lines()
    ensures found { IsReadOnlyAs bound_line bound_text FitsBounding }
    ensures only { IsReadAs bound_line bound_text FitsBounding }
{}

/// A table has one plan text of the own layout: that of any plan of it that is laid out so.
pub fn plan_texts_are_unique()
    ensures { (e : TableRecord) (p q : PlanTable) → IsPlanOf e p → HasOwnLayout e p → IsPlanOf e q → HasOwnLayout e q
        → plan_text_of e p ≡ plan_text_of e q }
{
    plans_are_unique();
}

/// The check of a table's own plan answers `fewest`: the text is the one that `plan_text` gives of a proposal, and the
/// table that of its equipment.
pub fn own_text_is_fewest()
    ensures { OwnTextsAreFewest }
{
    fewest_by_demand();
}

/// A checked plan of a group is on the fewest buses, from any author: no schedule that serves the group has fewer.
pub fn checked_plans_are_fewest()
    ensures { CheckedPlansAreFewest }
{
    fewest_by_demand();
}

/// If the check of a text answers `fewest`, the text states a plan of every group, and no schedule that serves the
/// group has fewer buses.
pub fn fewest_is_shown()
    ensures { FewestIsShown }
{
    fewest_by_demand();
}
