//! An equipment: the record of its table.
ghost use Rattle.std.specs.Prelude.{◌≡◌, ◌<◌, slice_get, length, Some, IfOk, position, option_map};
ghost use Rattle.std.specs.Result.{result_map_both};

use crate::arrivals::ArrivalRefusal;
use crate::index::Index;
use crate::rows::{GroupRow, OutputRow, ReceiverRow, SourceRow, StationRows};
use crate::same::{same_groups, same_receivers, same_sources};
use a429_word::Word;
use std::alloc::{AllocError, Global};
use std::marker::Model;

/// The receivers, sources, groups and outputs of a station, numbered from 0 in table order (profile).
pub struct Equipment {
    rows: StationRows,
    index: Index,
}

impl Model for Equipment {
    ghost use Rattle.a429_equipment.specs.TableRecord.{TableRecord};

    ghost Value = { TableRecord };

    ghost use Rattle.a429_equipment.specs.Inside.{record_inside, IsSoundInside};

    ghost view = { record_inside };

    ghost invariant = { IsSoundInside };
}

// Written by hand, a drop is one call in the proofs of its owners.
impl Drop for Equipment {
    fn drop(self) {
        let Self { rows: _, index: _ } = self;
    }
}

impl Equipment {
    ghost use Rattle.a429_equipment.specs.TableRecord.{outputs_in, record_of};
    ghost use Rattle.a429_equipment.specs.Sound.{IsSound};
    ghost use Rattle.a429_equipment.specs.Arrivals.{sorted, is_for};
    ghost use Rattle.a429_equipment.specs.SameStation.{same_station};

    /// The equipment of these rows, which keep to the limits of a table: each number and name is in range, no two
    /// sources of a receiver overlap, and names and outputs are unique. Error: an allocation failed.
    pub fn of_rows(alloc: Global, rows: StationRows) -> Result<Equipment, AllocError>
        requires { IsSound (record_of rows) }
        ensures { IfOk result (λ e. e ≡ record_of rows) }
    {
        let index = Index::of(alloc, &rows.receivers, &rows.sources)?;
        Ok(Equipment { rows, index })
    }

    /// A copy of the equipment. Error: an allocation failed.
    pub fn copied(&self, alloc: Global) -> Result<Equipment, AllocError>
        ensures { IfOk result (λ e. e ≡ self.now) }
    {
        let rows = self.rows.copied(alloc)?;
        let index = self.index.copied(alloc)?;
        Ok(Equipment { rows, index })
    }

    /// The equipment keeps to the limits of a table, and each number and name is in range. It does nothing. A function
    /// calls it if its proof needs this fact. The other functions do not state it: a fact of many parts makes every proof
    /// above it longer.
    pub fn rows_are_sound(&self)
        ensures { IsSound self.now }
    {
        // a proof knows the invariant if the body mentions a field
        let _rows = &self.rows;
    }

    /// The version of its table: 1 or 2 (profile: equipment table).
    pub fn version(&self) -> u32
        ensures version { result ≡ self.now.version }
    {
        self.rows.version.number()
    }

    /// The bit rate of every bus, in bit/s: 100000, or 12000 to 14500 (ARINC 429 Part 1, bit rates). `None` in version
    /// 2, in which each group has its own.
    pub fn rate(&self) -> Option<u32>
        ensures rate { result ≡ self.now.rate }
    {
        self.rows.rate
    }

    /// The receivers, at most 16.
    pub fn receivers(&self) -> &[ReceiverRow]
        ensures rows { result.now ≡ self.now.receivers }
    {
        self.rows.receivers.as_slice()
    }

    /// The sources, at most 256. No word of a receiver is for two of them.
    pub fn sources(&self) -> &[SourceRow]
        ensures rows { result.now ≡ self.now.sources }
    {
        self.rows.sources.as_slice()
    }

    /// The groups, at most 8.
    pub fn groups(&self) -> &[GroupRow]
        ensures rows { result.now ≡ self.now.groups }
    {
        self.rows.groups.as_slice()
    }

    /// The bit rate of the buses of a group, in bit/s: 100000, or 12000 to 14500 (ARINC 429 Part 1, bit rates).
    pub fn group_rate(&self, group: usize) -> u32
        requires { group < length self.now.groups }
        ensures rate { option_map (λ row. row.rate) (slice_get self.now.groups group) ≡ Some result }
    {
        self.rows.groups[group].rate
    }

    /// The outputs of a group, 1 to 128.
    pub fn outputs(&self, group: usize) -> &[OutputRow]
        requires { group < length self.now.groups }
        ensures rows { slice_get self.now.outputs group ≡ Some result.now }
    {
        self.rows.outputs[group].as_slice()
    }

    /// An output's hold: the group sends one accepted word of its source at most this number of times, 1 to 1000000.
    /// `None`: no limit (always so in version 1).
    pub fn hold(&self, group: usize, output: usize) -> Option<u32>
        requires group { group < length self.now.groups }
        requires output { output < length (outputs_in self.now group) }
        ensures hold { option_map (λ row. row.hold) (slice_get (outputs_in self.now group) output) ≡ Some result }
    {
        self.rows.outputs[group][output].hold
    }

    /// The number of the source that a raw word is for, which came in at this receiver, with the word (profile:
    /// sources). Errors, in this order: the word has even parity; its label passes no filter of the receiver; no source
    /// of the receiver has its label and SDI. The cost does not grow with the number of filters or of sources, and no
    /// memory is allocated.
    pub fn source_for(&self, receiver: usize, raw: u32) -> Result<(usize, Word), ArrivalRefusal>
        requires { receiver < length self.now.receivers }
        ensures sorted { sorted self.now receiver raw ≡ result_map_both (λ found. found.0) (λ refusal. refusal) result }
        ensures word { IfOk result (λ found. found.1 ≡ raw) }
    {
        let Ok(word) = Word::from_raw(raw) else {
            return Err(ArrivalRefusal::Parity);
        };
        let row = &self.rows.receivers[receiver];
        if !row.filters.passes(word.label()) {
            return Err(ArrivalRefusal::Filtered);
        }
        match self.source_of(receiver, word) {
            Some(source) => Ok((source, word)),
            None => Err(ArrivalRefusal::NoSource),
        }
    }

    /// The number of the source that a word is for, by one look-up.
    fn source_of(&self, receiver: usize, word: Word) -> Option<usize>
        requires { receiver < length self.now.receivers }
        ensures { result ≡ position (is_for receiver word) self.now.sources }
    {
        self.index.source_of(receiver, word.label(), word.sdi())
    }

    /// Whether two equipments are of one station: equal receivers with their filters as written, sources, and names and
    /// bit rates of groups, each in order (profile). Outputs may differ, and the versions of the tables.
    #[tactic(auto, unfolding(crate::specs::SameStation::same_station))]
    pub fn same_station(&self, other: &Equipment) -> bool
        ensures { result ≡ same_station self.now other.now }
    {
        same_receivers(&self.rows.receivers, &other.rows.receivers)
            && same_sources(&self.rows.sources, &other.rows.sources)
            && same_groups(&self.rows.groups, &other.rows.groups)
    }
}
