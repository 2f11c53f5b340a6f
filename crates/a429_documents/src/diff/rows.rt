//! Rows of what changes.
ghost use Rattle.std.specs.Prelude.{◌≡◌, ◌≤◌, ◌^◌, ◌∷◌, ◌++◌, []};
ghost use Rattle.a429_text.specs.Sheets.{field_of};
ghost use Rattle.a429_documents.specs.Diff.{change_row, change_rows, gap_of_slots, no_gap, of_group, of_kind, of_name, of_output, over_time};

use a429_grid::SLOT_TIME;
use a429_text::{Cell, Rows};
use std::marker::Model;

/// From the last send of an output by the first plan to its next send by the second: in slots, in microseconds, and whether
/// it is above the new maximum.
#[derive(Drop)]
pub struct Gap {
    slots: Cell<'static>,
    time: Cell<'static>,
    over_max: Cell<'static>,
}

impl Model for Gap {
    ghost use Rattle.a429_text.specs.Sheets.{field_of};
    ghost use Rattle.a429_documents.specs.Diff as diff;

    ghost Value = { diff.Gap };

    ghost view = { λ g. record { slots = field_of g.slots; time = field_of g.time; over_max = field_of g.over_max } };
}

/// Whether this time in microseconds is above a maximum, if there is one: `yes` or `no`.
fn over_cell(time: u64, max_us: Option<u64>) -> Cell<'static>
    ensures { field_of result ≡ over_time time max_us }
{
    match max_us {
        None => Cell::Absent,
        Some(max_us) if max_us < time => Cell::Text("yes"),
        Some(_) => Cell::Text("no"),
    }
}

impl Gap {
    /// There is none.
    pub fn none() -> Gap
        ensures { result ≡ no_gap }
    {
        Gap {
            slots: Cell::Absent,
            time: Cell::Absent,
            over_max: Cell::Absent,
        }
    }

    /// This number of slots at a bit rate in bit/s, and the new maximum.
    pub fn of(rate: u32, slots: u64, max_us: Option<u64>) -> Gap
        requires rate { 1 ≤ rate }
        requires few { slots ≤ 2 ^ 34 }
        ensures { result ≡ gap_of_slots rate slots max_us }
    {
        let time = (SLOT_TIME * slots).div_ceil(u64::from(rate));
        Gap {
            slots: Cell::Number(slots),
            time: Cell::Number(time),
            over_max: over_cell(time, max_us),
        }
    }
}

/// What a row is about: a kind of thing, the name of its group, and its own name.
#[derive(Drop)]
pub struct Subject<'a> {
    kind: &'static str,
    group: Cell<'a>,
    name: Cell<'a>,
    gap: Gap,
}

impl<'a> Model for Subject<'a> {
    ghost use Rattle.a429_text.specs.Sheets.{field_of};
    ghost use Rattle.a429_documents.specs.Diff as diff;

    ghost Value = { diff.Subject };

    ghost view = { λ s. record { kind = s.kind.now; group = field_of s.group; name = field_of s.name; gap = s.gap } };
}

impl<'a> Subject<'a> {
    /// A kind of which there is one.
    pub fn of_kind(kind: &'static str) -> Subject<'a>
        ensures { result ≡ of_kind kind.now }
    {
        Subject {
            kind,
            group: Cell::Absent,
            name: Cell::Absent,
            gap: Gap::none(),
        }
    }

    /// A thing of this kind and name that is in no group.
    pub fn of_name(kind: &'static str, name: &'a str) -> Subject<'a>
        ensures { result ≡ of_name kind.now name.now }
    {
        Subject {
            kind,
            group: Cell::Absent,
            name: Cell::Text(name),
            gap: Gap::none(),
        }
    }

    /// The group of this name.
    pub fn of_group(group: &'a str) -> Subject<'a>
        ensures { result ≡ of_group group.now }
    {
        Subject {
            kind: "group",
            group: Cell::Text(group),
            name: Cell::Absent,
            gap: Gap::none(),
        }
    }

    /// The output of a group, by the name of its source.
    pub fn of_output(group: &'a str, name: &'a str, gap: Gap) -> Subject<'a>
        ensures { result ≡ of_output group.now name.now gap }
    {
        Subject {
            kind: "output",
            group: Cell::Text(group),
            name: Cell::Text(name),
            gap,
        }
    }
}

/// Adds a row of a subject.
pub fn add_row(rows: &mut Rows, subject: &Subject<'_>, change: &str)
    ensures { rows.new ≡ rows.old ++ change_row subject.now change.now ∷ [] }
{
    let gap = &subject.gap;
    rows.add(&[
        Cell::Text(subject.kind),
        subject.group,
        subject.name,
        Cell::Text(change),
        gap.slots,
        gap.time,
        gap.over_max,
    ]);
}

/// Adds a row of what changes of a subject, unless the text says nothing.
#[tactic(auto, unfolding(crate::specs::Diff::change_rows))]
pub fn add_change(rows: &mut Rows, subject: &Subject<'_>, change: &str)
    ensures { rows.new ≡ rows.old ++ change_rows subject.now change.now }
{
    if !change.is_empty() {
        add_row(rows, subject, change);
    }
}
