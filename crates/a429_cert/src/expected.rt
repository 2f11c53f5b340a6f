//! What is expected at a line that is refused: for people, no clause is about it.

use crate::line::BoundLine;
use a429_equipment::Name;
use std::fmt;

/// Which line of a text is due. A plan's first line, and those of groups and outputs, are of a version.
#[derive(Clone, Copy)]
pub enum LineForm {
    Plan(u32),
    Rate,
    Group(u32),
    Output(u32),
    Bound,
    /// No line: the text must end.
    End,
}

/// What a line must state or be.
#[derive(Clone, Copy)]
pub enum Expected {
    /// The rule of the reason says all.
    Rule,
    Form(LineForm),
    /// A bit rate in bit/s, or a frame or a period in slots.
    Number(u64),
    /// The name of a group.
    Name(Name),
    Hold(Option<u64>),
    Bound(BoundLine),
    /// A cell that the output of this earlier line, counted from 1, does not use.
    Apart(usize),
}

impl LineForm {
    /// The form, with a letter or a word for each value; empty at the end.
    pub fn text(self) -> &'static str {
        match self {
            LineForm::Plan(1) => "plan 1",
            LineForm::Plan(_) => "plan 2",
            LineForm::Rate => "rate R",
            LineForm::Group(1) => "group NAME frame H buses M",
            LineForm::Group(_) => "group NAME rate R frame H buses M",
            LineForm::Output(1) => "output SOURCE period P bus B offset O",
            LineForm::Output(_) => "output SOURCE period P bus B offset O hold N, or hold none",
            LineForm::Bound => "bound D > F * H",
            LineForm::End => "",
        }
    }
}

impl fmt::Display for Expected {
    /// A value as a plan text spells it, the form of a line, or the number of the earlier line; nothing for `Rule`.
    fn fmt<W: fmt::Write>(&self, f: &mut fmt::Formatter<W>) -> fmt::Result {
        match *self {
            Expected::Rule => Ok(()),
            Expected::Form(form) => f.write_str(form.text()),
            Expected::Number(number) | Expected::Hold(Some(number)) => write!(f, "{number}"),
            Expected::Name(name) => f.write_str(name.as_str()),
            Expected::Hold(None) => f.write_str("none"),
            Expected::Bound(bound) => {
                let BoundLine {
                    demand,
                    full_buses,
                    frame,
                } = bound;
                write!(f, "bound {demand} > {full_buses} * {frame}")
            }
            Expected::Apart(line) => write!(f, "{line}"),
        }
    }
}
