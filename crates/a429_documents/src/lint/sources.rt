//! The findings about the sources of an equipment.
ghost use Rattle.std.specs.Prelude.{◌≡◌, ◌<◌, ◌++◌, ◌∷◌, [], length};
ghost use Rattle.a429_documents.specs.Lint.{has_output_of, is_heard, is_sent, of_each, source_finding, source_row, source_rows};

use crate::lint::SourceFinding;
use a429_equipment::{Equipment, OutputRow, ReceiverRow, SourceRow};
use a429_text::{Cell, Rows};

/// Whether a filter of its receiver passes the label of a source, or the receiver has no list of filters.
fn is_heard(receivers: &[ReceiverRow], source: &SourceRow) -> bool
    requires { source.now.receiver < length receivers.now }
    ensures { result ≡ is_heard receivers.now source.now }
{
    receivers[source.receiver].filters.passes(source.label)
}

/// Whether a group has an output of the source.
fn has_output_of(rows: &[OutputRow], source: usize) -> bool
    ensures { result ≡ has_output_of rows.now source }
{
    rows.iter().any(|row| row.source == source)
}

/// Whether some group has an output of the source.
fn is_sent(equipment: &Equipment, source: usize) -> bool
    ensures { result ≡ is_sent equipment.now source }
{
    let mut sent = false;
    for group in 0..equipment.groups().len() {
        sent |= has_output_of(equipment.outputs(group), source);
    }
    sent
}

/// Adds a finding of a source.
fn add_finding<'a>(found: &mut Rows, finding: &'a str, source: &'a SourceRow)
    ensures { found.new ≡ found.old ++ source_row finding.now source.now.name ∷ [] }
{
    found.add(&[
        Cell::Text(finding),
        Cell::Absent,
        Cell::Absent,
        Cell::Text(source.name.as_str()),
        Cell::Absent,
        Cell::Absent,
        Cell::Absent,
    ]);
}

/// Adds a source that is never accepted.
fn add_unheard(found: &mut Rows, equipment: &Equipment, source: &SourceRow)
    requires { source.now.receiver < length equipment.now.receivers }
    ensures { found.new ≡ found.old ++ source_finding equipment.now SourceFinding.Unheard 0 source.now }
{
    if is_heard(equipment.receivers(), source) {
        return;
    }
    add_finding(found, "unheard", source);
}

/// Adds a source that is never sent.
fn add_unsent(found: &mut Rows, equipment: &Equipment, number: usize, source: &SourceRow)
    ensures { found.new ≡ found.old ++ source_finding equipment.now SourceFinding.Unsent number source.now }
{
    if is_sent(equipment, number) {
        return;
    }
    add_finding(found, "unsent", source);
}

/// Adds the finding of one kind about a source, if it applies.
fn add_source(
    found: &mut Rows,
    equipment: &Equipment,
    kind: SourceFinding,
    number: usize,
    source: &SourceRow,
)
    requires { source.now.receiver < length equipment.now.receivers }
    ensures { found.new ≡ found.old ++ source_finding equipment.now kind number source.now }
{
    match kind {
        SourceFinding::Unheard => add_unheard(found, equipment, source),
        SourceFinding::Unsent => add_unsent(found, equipment, number, source),
    }
}

/// Adds the findings of one kind about each source.
pub fn add_sources(found: &mut Rows, equipment: &Equipment, kind: SourceFinding)
    ensures { found.new ≡ found.old ++ of_each (length equipment.now.sources) (source_rows equipment.now kind) }
{
    equipment.rows_are_sound();
    let sources = equipment.sources();
    for number in 0..sources.len() {
        add_source(found, equipment, kind, number, &sources[number]);
    }
}
