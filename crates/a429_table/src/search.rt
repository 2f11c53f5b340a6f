//! The first fault of a table.

ghost use Rattle.std.specs.Prelude.{◌≡◌, map, option_map, IfOk, None};
ghost use Rattle.std.specs.List.{find, flat_map};
ghost use Rattle.a429_table.specs.Stops.{stop_view, table_of};
ghost use Rattle.a429_table.specs.Walk.{walk};
ghost use Rattle.a429_table.specs.Early.{early_kinds};
ghost use Rattle.a429_table.specs.Faults.{faults, faults_of, first};
ghost use Rattle.a429_table.specs.Repeats.{AreRepeatsIn, AreRowsOf, found, is_found};
ghost use Rattle.a429_table.specs.Stated.{stated};

use crate::build::{WordRows, word_rows};
use crate::early::{is_early, note_early};
use crate::fault::{FaultKind, TablePlace};
use crate::fault_places::FaultPlaces;
use crate::names::{names_nothing, repeats_name};
use crate::repeats::Repeats;
use crate::shape::{has_unknown_key, has_wrong_kind, has_wrong_version, lacks_key};
use crate::table_index::TableIndex;
use crate::values::{
    has_bad_hold, has_bad_interval, has_bad_label, has_bad_name, has_bad_sdi, has_too_many,
    has_wrong_rate, is_empty_group,
};
use crate::version::version_of;
use crate::walk::{Stop, walk};
use std::alloc::{AllocError, Global};
use toml::Value;

/// The kinds of faults that no row shows by itself, in the order in which they are sought.
const LATE_KINDS: [FaultKind; 10] = [
    FaultKind::Name,
    FaultKind::DuplicateName,
    FaultKind::Label,
    FaultKind::Sdi,
    FaultKind::Interval,
    FaultKind::UnknownName,
    FaultKind::DuplicateSource,
    FaultKind::DuplicateOutput,
    FaultKind::EmptyGroup,
    FaultKind::Hold,
];

#[tactic(auto, unfolding(crate::specs::Faults::stands, crate::specs::Repeats::is_found))]
fn is_found(index: &TableIndex<'_>, repeats: &Repeats, kind: FaultKind, stop: &Stop) -> bool
    ensures { result ≡ is_found repeats.now (table_of index.now) kind (stop_view stop.now) }
{
    match kind {
        FaultKind::NotToml => false,
        FaultKind::Version => has_wrong_version(stop),
        FaultKind::UnknownKey => has_unknown_key(index.version, stop),
        FaultKind::MissingKey => lacks_key(index.version, stop),
        FaultKind::WrongKind => has_wrong_kind(index.version, stop),
        FaultKind::Rate => has_wrong_rate(index.version, stop),
        FaultKind::TooMany => has_too_many(stop),
        FaultKind::Name => has_bad_name(stop),
        FaultKind::DuplicateName => repeats_name(index, stop),
        FaultKind::Label => has_bad_label(stop),
        FaultKind::Sdi => has_bad_sdi(stop),
        FaultKind::Interval => has_bad_interval(stop),
        FaultKind::UnknownName => names_nothing(index, stop),
        FaultKind::DuplicateSource => repeats.has_source(stop.place),
        FaultKind::DuplicateOutput => repeats.has_output(stop.place),
        FaultKind::EmptyGroup => is_empty_group(stop),
        FaultKind::Hold => has_bad_hold(stop),
    }
}

/// The first place in walk order at which a kind is found.
fn first_place(
    index: &TableIndex<'_>,
    repeats: &Repeats,
    stops: &[Stop],
    kind: FaultKind,
) -> Option<TablePlace>
    ensures { result ≡ option_map (λ s. s.0) (find (is_found repeats.now (table_of index.now) kind) (map stop_view stops.now)) }
{
    let stop = stops
        .iter()
        .find(|stop| is_found(index, repeats, kind, stop))?;
    Some(stop.place)
}

/// The first fault of these kinds, by kind and then in walk order.
fn first_of_kinds(
    index: &TableIndex<'_>,
    repeats: &Repeats,
    stops: &[Stop],
    kinds: &[FaultKind],
) -> Option<(FaultKind, TablePlace)>
    ensures { result ≡ first (flat_map (found (is_found repeats.now (table_of index.now)) (map stop_view stops.now)) kinds.now) }
{
    for kind in kinds {
        if let Some(place) = first_place(index, repeats, stops, *kind) {
            return Some((*kind, place));
        }
    }
    None
}

/// The first fault of a table with these repeats, if no row shows one by itself.
#[tactic(auto, unfolding(crate::specs::Early::late_kinds))]
fn first_fault(
    alloc: Global,
    index: &TableIndex<'_>,
    repeats: &Repeats,
) -> Result<Option<(FaultKind, TablePlace)>, AllocError>
    requires repeats { AreRepeatsIn (stated (table_of index.now)).sources (stated (table_of index.now)).outputs repeats.now }
    requires none_early { first (flat_map (faults_of (table_of index.now)) early_kinds) ≡ None }
    ensures { IfOk result (λ fault. fault ≡ first (faults (table_of index.now))) }
{
    let stops = walk(alloc, index.root)?;
    Ok(first_of_kinds(index, repeats, &stops, &LATE_KINDS))
}

/// The first fault of a table with these rows, if no row shows one by itself. `None` if it has no fault. Error: an allocation
/// failed.
pub fn fault_of(
    alloc: Global,
    index: &TableIndex<'_>,
    words: &WordRows,
) -> Result<Option<(FaultKind, TablePlace)>, AllocError>
    requires rows { AreRowsOf (table_of index.now) words.now }
    requires none_early { first (flat_map (faults_of (table_of index.now)) early_kinds) ≡ None }
    ensures { IfOk result (λ fault. fault ≡ first (faults (table_of index.now))) }
{
    let repeats = Repeats::of(alloc, words)?;
    first_fault(alloc, index, &repeats)
}

/// The repeats of a table.
fn repeats_of(alloc: Global, index: &TableIndex<'_>) -> Result<Repeats, AllocError> {
    let words = word_rows(alloc, index)?;
    Repeats::of(alloc, &words)
}

/// Notes the places of a table at which a fault of a late kind is.
fn note_late(
    places: &mut FaultPlaces,
    alloc: Global,
    index: &TableIndex<'_>,
    kind: FaultKind,
) -> Result<(), AllocError> {
    let repeats = repeats_of(alloc, index)?;
    for stop in &walk(alloc, index.root)? {
        if is_found(index, &repeats, kind, stop) {
            places.note(stop.place)?;
        }
    }
    Ok(())
}

/// The places of a root table with a fault of this kind, in walk order, of which this many are kept: for a hint, so it has no
/// clause. The table has no fault of an earlier kind. Error: an allocation failed.
pub fn places_of(
    alloc: Global,
    root: &Value,
    kind: FaultKind,
    most: usize,
) -> Result<FaultPlaces, AllocError> {
    let mut places = FaultPlaces::none(alloc, most);
    if is_early(kind) {
        note_early(&mut places, version_of(root), kind, root)?;
    } else {
        note_late(&mut places, alloc, &TableIndex::of(alloc, root)?, kind)?;
    }
    Ok(places)
}
