//! The findings about the receivers of an equipment.
ghost use Rattle.std.specs.Prelude.{◌≡◌, ◌<◌, ◌++◌, ◌∷◌, ◌&&◌, [], length, nat_lt};
ghost use Rattle.a429_text.specs.Sheets.{field_of};
ghost use Rattle.a429_documents.specs.Lint.{all_blind_rows, are_twins, blind_rows, has_source, idle_rows, of_each, receiver_finding, receiver_row, receiver_rows, sees_source, twin_row, twin_rows};

use crate::lint::ReceiverFinding;
use a429_equipment::{Equipment, ReceiverRow, SourceRow, same_filters};
use a429_filter::Filter;
use a429_text::{Cell, Rows};

/// Whether a receiver has a source.
fn has_source(sources: &[SourceRow], receiver: usize) -> bool
    ensures { result ≡ has_source sources.now receiver }
{
    sources.iter().any(|source| source.receiver == receiver)
}

/// Whether a filter passes the label of a source of the receiver.
fn sees_source(sources: &[SourceRow], receiver: usize, filter: Filter) -> bool
    ensures { result ≡ sees_source sources.now receiver filter }
{
    sources.iter().any(|source| source.receiver == receiver && filter.passes(source.label))
}

/// Adds a finding of a receiver, with another one, or with a number if it has one.
fn add_finding<'a>(
    found: &mut Rows,
    finding: &'a str,
    receiver: &'a str,
    other: Cell<'a>,
    number: Cell<'a>,
)
    ensures { found.new ≡ found.old ++ receiver_row finding.now receiver.now (field_of other.entry) (field_of number.entry) ∷ [] }
{
    found.add(&[
        Cell::Text(finding),
        Cell::Absent,
        Cell::Text(receiver),
        Cell::Absent,
        other,
        number,
        Cell::Absent,
    ]);
}

/// Adds a receiver without a source.
fn add_idle(found: &mut Rows, sources: &[SourceRow], number: usize, receiver: &ReceiverRow)
    ensures { found.new ≡ found.old ++ idle_rows sources.now number receiver.now }
{
    if has_source(sources, number) {
        return;
    }
    let nothing = Cell::Absent;
    add_finding(found, "idle", receiver.name.as_str(), nothing, nothing);
}

/// Adds a filter that passes no source of the receiver.
fn add_blind(
    found: &mut Rows,
    sources: &[SourceRow],
    receiver: usize,
    name: &str,
    filters: &[Filter],
    number: usize,
)
    requires { number < length filters.now }
    ensures { found.new ≡ found.old ++ blind_rows sources.now receiver name.now filters.now number }
{
    if sees_source(sources, receiver, filters[number]) {
        return;
    }
    let number = Cell::Number(number as u64 + 1);
    add_finding(found, "blind", name, Cell::Absent, number);
}

/// Adds the filters of a list that pass no source of the receiver.
#[tactic(auto, using(crate::proofs::Ranges::flat_more))]
fn add_blinds(
    found: &mut Rows,
    sources: &[SourceRow],
    receiver: usize,
    name: &str,
    filters: &[Filter],
)
    ensures { found.new ≡ found.old ++ of_each (length filters.now) (blind_rows sources.now receiver name.now filters.now) }
{
    for number in 0..filters.len() {
        add_blind(found, sources, receiver, name, filters, number);
    }
}

/// Adds the filters of a receiver that pass none of its sources.
fn add_blind_filters(found: &mut Rows, sources: &[SourceRow], number: usize, receiver: &ReceiverRow)
    ensures { found.new ≡ found.old ++ all_blind_rows sources.now number receiver.now }
{
    let name = receiver.name.as_str();
    match receiver.filters.list() {
        Some(filters) => add_blinds(found, sources, number, name, filters),
        None => {}
    }
}

/// Whether a receiver has a list of filters, and another one has the same.
fn are_twins(receiver: &ReceiverRow, other: &ReceiverRow) -> bool
    ensures { result ≡ are_twins receiver.now other.now }
{
    receiver.filters.list().is_some() && same_filters(&receiver.filters, &other.filters)
}

/// Whether the second of two receivers is the later one, and has the same filters.
fn is_later_twin(number: usize, receiver: &ReceiverRow, later: usize, other: &ReceiverRow) -> bool
    ensures { result ≡ (nat_lt number later && are_twins receiver.now other.now) }
{
    number < later && are_twins(receiver, other)
}

/// Adds a receiver with a later one, if that has the same filters.
fn add_twin(
    found: &mut Rows,
    number: usize,
    receiver: &ReceiverRow,
    later: usize,
    other: &ReceiverRow,
)
    ensures { found.new ≡ found.old ++ twin_row number receiver.now later other.now }
{
    if !is_later_twin(number, receiver, later, other) {
        return;
    }
    let name = receiver.name.as_str();
    let other = Cell::Text(other.name.as_str());
    add_finding(found, "same-filters", name, other, Cell::Absent);
}

/// Adds a receiver with each later one that has the same filters.
fn add_twins(found: &mut Rows, receivers: &[ReceiverRow], number: usize, receiver: &ReceiverRow)
    ensures { found.new ≡ found.old ++ of_each (length receivers.now) (twin_rows receivers.now number receiver.now) }
{
    for later in 0..receivers.len() {
        add_twin(found, number, receiver, later, &receivers[later]);
    }
}

/// Adds the findings of one kind of a receiver.
fn add_receiver(
    found: &mut Rows,
    receivers: &[ReceiverRow],
    sources: &[SourceRow],
    kind: ReceiverFinding,
    number: usize,
    receiver: &ReceiverRow,
)
    ensures { found.new ≡ found.old ++ receiver_finding receivers.now sources.now kind number receiver.now }
{
    match kind {
        ReceiverFinding::Idle => add_idle(found, sources, number, receiver),
        ReceiverFinding::Blind => add_blind_filters(found, sources, number, receiver),
        ReceiverFinding::SameFilters => add_twins(found, receivers, number, receiver),
    }
}

/// Adds the findings of one kind of each receiver.
pub fn add_receivers(found: &mut Rows, equipment: &Equipment, kind: ReceiverFinding)
    ensures { found.new ≡ found.old ++ of_each (length equipment.now.receivers) (receiver_rows equipment.now kind) }
{
    let sources = equipment.sources();
    let receivers = equipment.receivers();
    for number in 0..receivers.len() {
        add_receiver(found, receivers, sources, kind, number, &receivers[number]);
    }
}
