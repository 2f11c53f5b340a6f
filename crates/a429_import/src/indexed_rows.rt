//! Rows, with an index of the names of their receivers, sources and groups.
ghost use Rattle.std.specs.Prelude.{◌≡◌, ◌++◌, ◌∷◌, ◌<◌, [], ◌&&◌, if◌then◌else◌, IfOk, OnOk, None, Some, length, nat_lt, slice_get, slice_index_or};
ghost use Rattle.a429_import.specs.declared.firsts.Part.{Part};
ghost use Rattle.a429_import.specs.declared.firsts.Part.TheVariants as part;
ghost use Rattle.a429_import.specs.ImportLimits.{has_too_many_outputs, too_many};
ghost use Rattle.a429_import.specs.ImportRows.{row_view, says_nothing};
ghost use Rattle.a429_import.specs.ImportTables.{firsts, groups_of, words};
ghost use Rattle.a429_import.specs.IndexedRows.{IsIndexed, IndexesFirsts, IndexesMore, named_of, names_of, numbers_of, one_output, place_of, with_output};

use crate::fault::ImportColumn;
use crate::firsts::Part;
use crate::rows::{ImportRow, RowFields, copy_of};
use a429_equipment::{GROUPS, OUTPUTS, RECEIVERS, SOURCES};
use a429_filter::FILTERS;
use indexmap::IndexMap;
use std::alloc::{AllocError, Global};

/// Names in the order of their first rows, and the numbers of these rows, counted from 0.
#[derive(Drop)]
pub struct NamedRows {
    firsts: IndexMap<String, usize>,
}

impl NamedRows {
    /// No names.
    pub fn new(alloc: Global) -> NamedRows
        ensures { (part : Part) → IndexesFirsts part result [] }
    {
        NamedRows {
            firsts: IndexMap::new(alloc),
        }
    }

    /// The number of names.
    pub fn len(&self) -> usize
        ensures { result ≡ length (names_of self.now) }
    {
        self.firsts.len()
    }

    /// The number of the first row of the name at a place; 0 if there is none.
    pub fn first_at(&self, place: usize) -> usize
        ensures { result ≡ slice_index_or (numbers_of self.now) place 0 }
    {
        match self.firsts.get_index(place) {
            Some((_, number)) => *number,
            None => 0,
        }
    }

    /// The place of a name, counted from 0. `None` if it is not known.
    pub fn find(&self, name: &str) -> Option<usize>
        ensures { result ≡ place_of self.now name.now }
    {
        self.firsts.get_index_of(name)
    }

    /// Takes a name of the next row, with the number of that row. The answer is the place of the name, if it was known.
    /// Error: an allocation failed.
    pub fn note(
        &mut self,
        alloc: Global,
        name: &str,
        number: usize,
    ) -> Result<Option<usize>, AllocError>
        ensures place { IfOk result (λ place. place ≡ place_of self.old name.now) }
        ensures known { OnOk result (IndexesMore self.old self.new name.now number) }
    {
        let place = self.firsts.get_index_of(name);
        if place.is_none() {
            self.firsts.insert(String::from_str(alloc, name)?, number)?;
        }
        Ok(place)
    }
}

/// Rows, with the names of their receivers, sources and groups.
#[derive(Drop)]
pub struct IndexedRows {
    pub rows: Vec<ImportRow>,
    receivers: NamedRows,
    sources: NamedRows,
    groups: NamedRows,
    /// The number of outputs of each group; one above the limit stands for any above it.
    outputs: Vec<u8>,
}

/// One more output, up to one above the limit.
fn one_output(count: u8) -> u8
    ensures { result ≡ one_output count }
{
    if usize::from(count) <= OUTPUTS {
        count + 1
    } else {
        count
    }
}

/// Counts one more output: of the group at a place, or of a new group.
fn count_output(outputs: &mut Vec<u8>, group: Option<usize>) -> Result<(), AllocError>
    ensures { OnOk result (outputs.new.items ≡ with_output outputs.old.items group) }
{
    match group {
        Some(place) if place < outputs.len() => outputs[place] = one_output(outputs[place]),
        Some(_) => {}
        None => outputs.push(1)?,
    }
    Ok(())
}

/// Whether these are too many filters for a receiver.
fn has_too_many_filters(text: &str) -> bool
    ensures { result ≡ nat_lt 32 (length (words text.now)) }
{
    FILTERS < text.split(' ').filter(|part| !part.is_empty()).count()
}

impl IndexedRows {
    /// What is known before the first row.
    pub fn new(alloc: Global) -> IndexedRows
        ensures known { IsIndexed result }
        ensures rows { result.rows.items ≡ [] }
    {
        IndexedRows {
            rows: Vec::new(alloc),
            receivers: NamedRows::new(alloc),
            sources: NamedRows::new(alloc),
            groups: NamedRows::new(alloc),
            outputs: Vec::new(alloc),
        }
    }

    /// The names of the receivers, the sources or the groups.
    pub fn named(&self, part: Part) -> &NamedRows
        ensures { result.now ≡ named_of part self.now }
    {
        match part {
            Part::Receivers => &self.receivers,
            Part::Sources => &self.sources,
            Part::Groups => &self.groups,
        }
    }

    /// The number of names of the receivers, the sources or the groups.
    pub fn count(&self, part: Part) -> usize
        ensures { result ≡ length (names_of (named_of part self.now)) }
    {
        self.named(part).len()
    }

    /// The first row of the receiver, the source or the group at a place.
    pub fn first_row(&self, part: Part, place: usize) -> &ImportRow
        requires known { IsIndexed self.now }
        requires place { place < length (names_of (named_of part self.now)) }
        ensures { slice_get (firsts part self.now.rows.items) place ≡ Some result.now }
    {
        &self.rows[self.named(part).first_at(place)]
    }

    /// Whether a row says nothing new: it has no group, and its source is known.
    pub fn has_all_of(&self, row: &RowFields<'_>) -> bool
        requires { IsIndexed self.now }
        ensures { result ≡ says_nothing self.now.rows.items (row_view row.now) }
    {
        row.texts.group.is_empty() && self.sources.find(row.texts.source).is_some()
    }

    /// The number of groups. The empty name stands for the rows without a group.
    pub fn group_count(&self) -> usize
        requires { IsIndexed self.now }
        ensures { result ≡ length (groups_of self.now.rows.items) }
    {
        let mut count = 0;
        for place in 0..self.groups.len() {
            let row = self.first_row(Part::Groups, place);
            count += usize::from(!row.texts.group.as_str().is_empty());
        }
        count
    }

    /// Whether there are too many outputs of the group of a row.
    fn has_too_many_outputs(&self, row: &RowFields<'_>) -> bool
        requires { IsIndexed self.now }
        ensures { result ≡ has_too_many_outputs self.now.rows.items (row_view row.now) }
    {
        match self.groups.find(row.texts.group) {
            Some(place) if place < self.outputs.len() => {
                !row.texts.group.is_empty() && OUTPUTS < usize::from(self.outputs[place])
            }
            _ => false,
        }
    }

    /// The first column of which there is one too many; this is the last row. `None` if there is no such column.
    #[tactic(auto, unfolding(crate::specs::ImportLimits::too_many))]
    pub fn too_many(&self, row: &RowFields<'_>) -> Option<ImportColumn>
        requires { IsIndexed self.now }
        ensures { result ≡ too_many self.now.rows.items (row_view row.now) }
    {
        if RECEIVERS < self.receivers.len() {
            Some(ImportColumn::Receiver)
        } else if SOURCES < self.sources.len() {
            Some(ImportColumn::Source)
        } else if GROUPS < self.group_count() || self.has_too_many_outputs(row) {
            Some(ImportColumn::Group)
        } else if has_too_many_filters(row.texts.filters) {
            Some(ImportColumn::Filters)
        } else {
            None
        }
    }

    /// Takes one more row. Error: an allocation failed.
    pub fn push(&mut self, alloc: Global, row: &RowFields<'_>) -> Result<(), AllocError>
        requires { IsIndexed self.old }
        ensures known { OnOk result (IsIndexed self.new) }
        ensures rows { OnOk result (self.new.rows.items ≡ self.old.rows.items ++ row_view row.now ∷ []) }
    {
        let number = self.rows.len();
        self.receivers.note(alloc, row.texts.receiver, number)?;
        self.sources.note(alloc, row.texts.source, number)?;
        let group = self.groups.note(alloc, row.texts.group, number)?;
        count_output(&mut self.outputs, group)?;
        self.rows.push(copy_of(alloc, row)?)?;
        Ok(())
    }
}
