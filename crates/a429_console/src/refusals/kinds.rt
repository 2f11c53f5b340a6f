//! What is wrong with a row or with a line of a plan text.
use std::fmt;

/// What is wrong with a row of comma-separated values.
#[derive(Clone, Copy, PartialEq, Eq)]
pub enum CsvKind {
    /// It has more or fewer fields than the heading, or a field is not of its column's form.
    Form,
    /// The heading lacks a column, or has it twice.
    Column,
    /// It contradicts an earlier row about the same source, receiver or group.
    Differs,
    /// With it there is one receiver, source or group too many, one output of its group or one filter of its receiver.
    TooMany,
}

impl fmt::Display for CsvKind {
    ghost use Rattle.std.specs.Prelude.{Some};
    ghost use Rattle.a429_console.specs.RefusalText.{csv_kind_text};

    ghost output = { λ kind. Some (csv_kind_text kind) };

    /// Its name in refusals.
    fn fmt<W: fmt::Write>(&self, f: &mut fmt::Formatter<W>) -> fmt::Result {
        match self {
            CsvKind::Form => f.write_str("form"),
            CsvKind::Column => f.write_str("column"),
            CsvKind::Differs => f.write_str("differs"),
            CsvKind::TooMany => f.write_str("too-many"),
        }
    }
}

/// What is wrong with a line of a plan text. With `--keep` it is one of the first four.
#[derive(Clone, Copy, PartialEq, Eq)]
pub enum PlanKind {
    /// It is not of the form of a plan text; with `--plan`, not of the form due here.
    Form,
    /// It says another bit rate than the table.
    Rate,
    /// The offset is not below the period; with `--plan`, or the bus not below the number of buses.
    Place,
    /// An earlier output of the group has cells of this one.
    Shared,
    /// The name is not that of the group due.
    Group,
    /// The frame is not the greatest period of the group.
    Frame,
    /// The number of buses is 0 or above 16.
    Buses,
    /// No output of the group has this source, or an earlier line lists it.
    Output,
    /// The period is not the grid period of the output.
    Period,
    /// A number of the bound is wrong.
    Bound,
    /// The hold is not that of the output.
    Hold,
}

impl fmt::Display for PlanKind {
    ghost use Rattle.std.specs.Prelude.{Some};
    ghost use Rattle.a429_console.specs.RefusalText.{plan_kind_text};

    ghost output = { λ kind. Some (plan_kind_text kind) };

    /// Its name in refusals.
    fn fmt<W: fmt::Write>(&self, f: &mut fmt::Formatter<W>) -> fmt::Result {
        match self {
            PlanKind::Form => f.write_str("form"),
            PlanKind::Rate => f.write_str("rate"),
            PlanKind::Place => f.write_str("place"),
            PlanKind::Shared => f.write_str("shared"),
            PlanKind::Group => f.write_str("group"),
            PlanKind::Frame => f.write_str("frame"),
            PlanKind::Buses => f.write_str("buses"),
            PlanKind::Output => f.write_str("output"),
            PlanKind::Period => f.write_str("period"),
            PlanKind::Bound => f.write_str("bound"),
            PlanKind::Hold => f.write_str("hold"),
        }
    }
}
