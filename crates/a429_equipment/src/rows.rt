//! The rows of an equipment table.
ghost use Rattle.std.specs.Prelude.{◌≡◌};
ghost use Rattle.a429_equipment.specs.TableRecord.{receiver_name};

use crate::names::Name;
use crate::version::TableVersion;
use a429_filter::FilterSet;
use a429_word::{Label, Sdi};

/// A receiver: one line, and the filters that the labels of its words have to pass.
#[derive(Drop)]
pub struct ReceiverRow {
    pub name: Name,
    /// If the table has no `filters`, a set without a list, which passes every label.
    pub filters: FilterSet,
}

/// The name of the receiver of this number. Empty if there is none.
pub fn receiver_name(receivers: &[ReceiverRow], number: usize) -> &str
    ensures { result.now ≡ receiver_name receivers.now number }
{
    match receivers.get(number) {
        None => "",
        Some(row) => row.name.as_str(),
    }
}

/// A source: the number of its receiver, its label, and its SDI; `None` is any SDI.
#[derive(Clone, Copy)]
pub struct SourceRow {
    pub name: Name,
    /// The number of its receiver.
    pub receiver: usize,
    pub label: Label,
    /// `None`: any SDI.
    pub sdi: Option<Sdi>,
}

/// A group of outputs, which is one set of destinations, and the bit rate of its buses.
#[derive(Clone, Copy)]
pub struct GroupRow {
    pub name: Name,
    /// In bit/s: 100000, or 12000 to 14500 (ARINC 429 Part 1, bit rates). In version 1 the root's bit rate.
    pub rate: u32,
}

/// An output of a group: the number of its source, and the minimum and the maximum time from one transmission to the
/// next, in microseconds.
#[derive(Clone, Copy, PartialEq, Eq)]
pub struct OutputRow {
    /// The number of its source.
    pub source: usize,
    /// In microseconds, at least 1.
    pub min_us: u32,
    /// In microseconds, at least `min_us` and at most 30000000.
    pub max_us: u32,
    /// The output sends one accepted word at most this number of times, 1 to 1000000. `None`: no limit (always so in
    /// version 1).
    pub hold: Option<u32>,
}

/// What an equipment is made of: the rows of a station, numbered from 0 in table order (profile).
#[derive(Drop)]
pub struct StationRows {
    pub version: TableVersion,
    /// In bit/s, of all groups in version 1; `None` in version 2, in which each group has its own.
    pub rate: Option<u32>,
    pub receivers: Vec<ReceiverRow>,
    pub sources: Vec<SourceRow>,
    pub groups: Vec<GroupRow>,
    /// Of each group, its outputs.
    pub outputs: Vec<Vec<OutputRow>>,
}
