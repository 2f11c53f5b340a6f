//! What a table expects on the lines of a recording.
ghost use Rattle.std.specs.Prelude.{◌≡◌, ◌<◌, ◌++◌, length, map, IfOk};
ghost use Rattle.a429_console.specs.Names.{name_at, naming_of};
ghost use Rattle.a429_recordings.specs.Comparing.{expected_by, heard_by, sent_in, sent_in_group};
ghost use Rattle.a429_recordings.specs.JudgedPlans.{label_of, sdi_of};

use a429_equipment::{Equipment, OutputRow, SourceRow, receiver_name};
use a429_survey::Expected;
use a429_text::Gathered;
use a429_word::{Label, Sdi};
use std::alloc::{AllocError, Global};

/// The name of a group. Empty if there is no group of this number.
fn group_name(equipment: &Equipment, group: usize) -> &str
    ensures { result.now ≡ name_at (naming_of equipment.now).groups group }
{
    match equipment.groups().get(group) {
        Some(row) => row.name.as_str(),
        None => "",
    }
}

/// The label of a source. If there is no source of this number, 0.
fn label_of(equipment: &Equipment, source: usize) -> Label
    ensures { result ≡ label_of equipment.now source }
{
    match equipment.sources().get(source) {
        Some(row) => row.label,
        None => Label::new(0),
    }
}

/// The SDI of a source; `None`: any, or there is no source of this number.
fn sdi_of(equipment: &Equipment, source: usize) -> Option<Sdi>
    ensures { result ≡ sdi_of equipment.now source }
{
    match equipment.sources().get(source) {
        Some(row) => row.sdi,
        None => None,
    }
}

/// The words of a source.
fn heard_by<'a>(equipment: &'a Equipment, source: &SourceRow) -> Expected<'a>
    ensures { result ≡ heard_by equipment.now source.now }
{
    let line = receiver_name(equipment.receivers(), source.receiver);
    Expected::heard(line, source.label, source.sdi)
}

/// The words of an output of a group.
fn sent_in_group<'a>(equipment: &'a Equipment, group: usize, output: &OutputRow) -> Expected<'a>
    ensures { result ≡ sent_in_group equipment.now group output.now }
{
    let label = label_of(equipment, output.source);
    let sdi = sdi_of(equipment, output.source);
    let line = group_name(equipment, group);
    let (least, greatest) = (u64::from(output.min_us), u64::from(output.max_us));
    Expected::sent(line, label, sdi, least, greatest)
}

/// Adds the words of all sources.
fn add_heard<'a>(expected: &mut Gathered<Expected<'a>>, equipment: &'a Equipment)
    ensures { expected.new ≡ expected.old ++ map (heard_by equipment.now) equipment.now.sources }
{
    for source in equipment.sources() {
        expected.push(heard_by(equipment, source));
    }
}

/// Adds the words of the outputs of a group.
fn add_sent<'a>(expected: &mut Gathered<Expected<'a>>, equipment: &'a Equipment, group: usize)
    requires { group < length equipment.now.groups }
    ensures { expected.new ≡ expected.old ++ sent_in equipment.now group }
{
    for output in equipment.outputs(group) {
        expected.push(sent_in_group(equipment, group, output));
    }
}

/// The words that a table expects: those of its sources at their receivers, and those of its outputs on the buses of their
/// groups. Error: an allocation failed.
pub fn expected_by(alloc: Global, equipment: &Equipment) -> Result<Vec<Expected<'_>>, AllocError>
    ensures { IfOk result (λ expected. expected.items ≡ expected_by equipment.now) }
{
    let mut expected = Gathered::new(alloc);
    add_heard(&mut expected, equipment);
    for group in 0..equipment.groups().len() {
        add_sent(&mut expected, equipment, group);
    }
    expected.into_vec()
}
