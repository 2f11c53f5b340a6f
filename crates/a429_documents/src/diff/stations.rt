//! What differs of the stations of two tables.
ghost use Rattle.std.specs.Prelude.{◌≡◌, ◌==◌, ◌<◌, ◌++◌, IfOk, OnOk, codes, length, string_bytes};
ghost use Rattle.a429_documents.specs.Diff.{filter_change, filter_count, lists_rows, no_change, of_group, of_name, source_change, station_rows, with_label, with_receiver, with_sdi};

use crate::cells::sdi_text;
use crate::diff::names::{Named, add_list};
use crate::diff::rows::{Subject, add_row};
use crate::diff::texts::{put_change, put_counts};
use a429_equipment::{
    Equipment, GroupRow, ReceiverRow, SourceRow, receiver_name, same_filters, same_sdi,
};
use a429_filter::FilterSet;
use a429_text::Rows;
use std::alloc::{AllocError, Global};

/// The number of filters, if there is a list.
fn filter_count(filters: &FilterSet) -> Option<u64>
    ensures { result ≡ filter_count filters.now }
{
    match filters.list() {
        None => None,
        Some(list) => Some(list.len() as u64),
    }
}

impl Named for ReceiverRow {
    ghost list_of = { λ e. e.receivers };

    ghost name_of = { λ r. r.name };

    ghost subject_of = { λ r. of_name (codes "receiver") r.name };

    ghost change_of = { λ own others. filter_change };

    fn list(equipment: &Equipment) -> &[Self] {
        equipment.receivers()
    }

    fn name(&self) -> &str {
        self.name.as_str()
    }

    fn subject(&self) -> Subject<'_> {
        Subject::of_name("receiver", self.name.as_str())
    }

    fn change(
        &self,
        alloc: Global,
        other: &Self,
        _a: &Equipment,
        _b: &Equipment,
    ) -> Result<String, AllocError> {
        let same = same_filters(&self.filters, &other.filters);
        let (own, others) = (filter_count(&self.filters), filter_count(&other.filters));
        let mut text = String::new(alloc);
        put_counts(&mut text, same, "filters", own, others)?;
        Ok(text)
    }
}

/// Writes the receiver of a source, if its name differs.
fn put_receiver(text: &mut String, own: &str, other: &str) -> Result<(), AllocError>
    ensures { OnOk result (string_bytes text.new ≡ with_receiver own.now other.now (string_bytes text.old)) }
{
    put_change(text, own == other, "receiver", own, other)
}

/// Writes the label of a source, if it differs.
fn put_label(
    alloc: Global,
    text: &mut String,
    source: &SourceRow,
    other: &SourceRow,
) -> Result<(), AllocError>
    ensures { OnOk result (string_bytes text.new ≡ with_label source.now.label other.now.label (string_bytes text.old)) }
{
    let first = format!(in alloc; "{}", source.label)?;
    let second = format!(in alloc; "{}", other.label)?;
    let same = source.label == other.label;
    put_change(text, same, "label", &first, &second)
}

/// Writes the SDI of a source, if it differs.
fn put_sdi(text: &mut String, source: &SourceRow, other: &SourceRow) -> Result<(), AllocError>
    ensures { OnOk result (string_bytes text.new ≡ with_sdi source.now.sdi other.now.sdi (string_bytes text.old)) }
{
    let same = same_sdi(source.sdi, other.sdi);
    let first = sdi_text(source.sdi);
    let second = sdi_text(other.sdi);
    put_change(text, same, "sdi", first, second)
}

impl Named for SourceRow {
    ghost list_of = { λ e. e.sources };

    ghost name_of = { λ s. s.name };

    ghost subject_of = { λ s. of_name (codes "source") s.name };

    ghost change_of = { source_change };

    fn list(equipment: &Equipment) -> &[Self] {
        equipment.sources()
    }

    fn name(&self) -> &str {
        self.name.as_str()
    }

    fn subject(&self) -> Subject<'_> {
        Subject::of_name("source", self.name.as_str())
    }

    fn change(
        &self,
        alloc: Global,
        other: &Self,
        a: &Equipment,
        b: &Equipment,
    ) -> Result<String, AllocError> {
        let own = receiver_name(a.receivers(), self.receiver);
        let others = receiver_name(b.receivers(), other.receiver);
        let mut text = String::new(alloc);
        put_receiver(&mut text, own, others)?;
        put_label(alloc, &mut text, self, other)?;
        put_sdi(&mut text, self, other)?;
        Ok(text)
    }
}

impl Named for GroupRow {
    ghost list_of = { λ e. e.groups };

    ghost name_of = { λ g. g.name };

    ghost subject_of = { λ g. of_group g.name };

    ghost change_of = { λ own others. no_change };

    fn list(equipment: &Equipment) -> &[Self] {
        equipment.groups()
    }

    fn name(&self) -> &str {
        self.name.as_str()
    }

    fn subject(&self) -> Subject<'_> {
        Subject::of_group(self.name.as_str())
    }

    fn change(
        &self,
        alloc: Global,
        _other: &Self,
        _a: &Equipment,
        _b: &Equipment,
    ) -> Result<String, AllocError> {
        Ok(String::new(alloc))
    }
}

/// Adds the row that the two tables are of two stations, if they are.
pub fn add_station(rows: &mut Rows, a: &Equipment, b: &Equipment)
    ensures { rows.new ≡ rows.old ++ station_rows a.now b.now }
{
    if a.same_station(b) {
        return;
    }
    add_row(rows, &Subject::of_kind("station"), "another");
}

/// Adds the rows of receivers and sources, and of the groups that only one table has. Error: an allocation failed.
pub fn add_lists(
    alloc: Global,
    rows: &mut Rows,
    a: &Equipment,
    b: &Equipment,
) -> Result<(), AllocError>
    ensures { OnOk result (rows.new ≡ rows.old ++ lists_rows a.now b.now) }
{
    add_list::<ReceiverRow>(alloc, rows, a, b)?;
    add_list::<SourceRow>(alloc, rows, a, b)?;
    add_list::<GroupRow>(alloc, rows, a, b)
}
