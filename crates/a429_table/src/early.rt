//! The first fault that a row shows by itself.
//!
//! It is sought before anything is gathered of the rows, so a table with more rows than a station may have takes no memory
//! beyond its tree.

ghost use Rattle.std.specs.Prelude.{◌≡◌, map, option_map};
ghost use Rattle.std.specs.List.{find, flat_map};
ghost use Rattle.toml.specs.View.{view};
ghost use Rattle.a429_table.specs.Early.{early_kinds, is_sought, shows};
ghost use Rattle.a429_table.specs.Faults.{all_fit_columns, faults_of, first};
ghost use Rattle.a429_table.specs.Stops.{stop_view};
ghost use Rattle.a429_table.specs.Version.{version_of};
ghost use Rattle.a429_table.specs.Walk.{below, group_stops, numbered, stops_of_groups, walk};

use crate::fault::{FaultKind, TablePlace};
use crate::fault_places::FaultPlaces;
use crate::shape::{fits_columns, has_unknown_key, has_wrong_kind, has_wrong_version, lacks_key};
use crate::tree::rows_at;
use crate::values::{has_too_many, has_wrong_rate};
use crate::walk::{Rows, Stop};
use a429_equipment::TableVersion;
use std::alloc::AllocError;
use toml::Value;

/// The kinds of faults that a row shows by itself, in the order in which they are sought.
const EARLY_KINDS: [FaultKind; 6] = [
    FaultKind::Version,
    FaultKind::UnknownKey,
    FaultKind::MissingKey,
    FaultKind::WrongKind,
    FaultKind::Rate,
    FaultKind::TooMany,
];

/// What is sought among the rows.
#[derive(Clone, Copy)]
pub enum Sought {
    /// A fault of this kind.
    Kind(FaultKind),
    /// A row that lacks a key, or has a value of a wrong kind.
    Misfit,
}

/// Whether a row of a table of this version shows a fault of this kind.
#[tactic(auto, unfolding(crate::specs::Early::shows))]
fn shows(version: TableVersion, kind: FaultKind, stop: &Stop) -> bool
    ensures { result ≡ shows version kind (stop_view stop.now) }
{
    match kind {
        FaultKind::Version => has_wrong_version(stop),
        FaultKind::UnknownKey => has_unknown_key(version, stop),
        FaultKind::MissingKey => lacks_key(version, stop),
        FaultKind::WrongKind => has_wrong_kind(version, stop),
        FaultKind::Rate => has_wrong_rate(version, stop),
        FaultKind::TooMany => has_too_many(stop),
        _ => false,
    }
}

/// Whether a row is sought.
fn is_sought(version: TableVersion, sought: Sought, stop: &Stop) -> bool
    ensures { result ≡ is_sought version sought (stop_view stop.now) }
{
    match sought {
        Sought::Kind(kind) => shows(version, kind, stop),
        Sought::Misfit => !fits_columns(version, stop),
    }
}

/// The place of the first row of an array that is sought. `None` if there is none.
fn place_among(
    version: TableVersion,
    sought: Sought,
    rows: Rows,
    values: &[Value],
) -> Option<TablePlace>
    ensures { result ≡ option_map (λ s. s.0) (find (is_sought version sought) (numbered rows (map view values.now))) }
{
    for (row, value) in values.iter().enumerate() {
        let place = rows.place(row);
        if is_sought(version, sought, &Stop { place, value }) {
            return Some(place);
        }
    }
    None
}

/// The place of the first that is sought of a group and its outputs. `None` if there is none.
fn place_in_group(
    version: TableVersion,
    sought: Sought,
    number: usize,
    group: &Value,
) -> Option<TablePlace>
    ensures { result ≡ option_map (λ s. s.0) (find (is_sought version sought) (group_stops (number, view group.now))) }
{
    let place = TablePlace::Group(number);
    if is_sought(
        version,
        sought,
        &Stop {
            place,
            value: group,
        },
    ) {
        return Some(place);
    }
    place_among(
        version,
        sought,
        Rows::Outputs(number),
        rows_at(group, "output"),
    )
}

/// The place of the first that is sought of some groups and their outputs. `None` if there is none.
fn place_in_groups(version: TableVersion, sought: Sought, groups: &[Value]) -> Option<TablePlace>
    ensures { result ≡ option_map (λ s. s.0) (find (is_sought version sought) (stops_of_groups (map view groups.now))) }
{
    for (number, group) in groups.iter().enumerate() {
        let place = place_in_group(version, sought, number, group);
        if place.is_some() {
            return place;
        }
    }
    None
}

/// The place of the first that is sought below the root. `None` if there is none.
fn place_below(version: TableVersion, sought: Sought, root: &Value) -> Option<TablePlace>
    ensures { result ≡ option_map (λ s. s.0) (find (is_sought version sought) (below (view root.now))) }
{
    let receivers = place_among(version, sought, Rows::Receivers, rows_at(root, "receiver"));
    let sources = place_among(version, sought, Rows::Sources, rows_at(root, "source"));
    let groups = place_in_groups(version, sought, rows_at(root, "group"));
    receivers.or(sources).or(groups)
}

/// The first place of a root table that is sought, in walk order. `None` if there is none.
fn place_of(version: TableVersion, sought: Sought, root: &Value) -> Option<TablePlace>
    ensures { result ≡ option_map (λ s. s.0) (find (is_sought version sought) (walk (view root.now))) }
{
    let place = TablePlace::Root;
    if is_sought(version, sought, &Stop { place, value: root }) {
        return Some(place);
    }
    place_below(version, sought, root)
}

/// The first place of a kind. If all rows fit their columns, two kinds are not sought.
fn place_of_kind(
    version: TableVersion,
    all_fit: bool,
    kind: FaultKind,
    root: &Value,
) -> Option<TablePlace>
    requires { all_fit ≡ all_fit_columns version (walk (view root.now)) }
    ensures { result ≡ option_map (λ s. s.0) (find (shows version kind) (walk (view root.now))) }
{
    match kind {
        FaultKind::MissingKey if all_fit => None,
        FaultKind::WrongKind if all_fit => None,
        _ => place_of(version, Sought::Kind(kind), root),
    }
}

/// The first fault of a root table of this version that a row shows by itself, by kind and then in walk order. `None` if there
/// is none.
pub fn early_fault(version: TableVersion, root: &Value) -> Option<(FaultKind, TablePlace)>
    requires { version ≡ version_of (view root.now) }
    ensures { result ≡ first (flat_map (faults_of (view root.now)) early_kinds) }
{
    let has_misfit = place_of(version, Sought::Misfit, root).is_some();
    for kind in &EARLY_KINDS {
        if let Some(place) = place_of_kind(version, !has_misfit, *kind, root) {
            return Some((*kind, place));
        }
    }
    None
}

/// Whether a row shows faults of this kind by itself.
pub fn is_early(kind: FaultKind) -> bool {
    matches!(
        kind,
        FaultKind::Version
            | FaultKind::UnknownKey
            | FaultKind::MissingKey
            | FaultKind::WrongKind
            | FaultKind::Rate
            | FaultKind::TooMany
    )
}

/// Notes the place of a row that shows a fault of this kind.
fn note_row(
    places: &mut FaultPlaces,
    version: TableVersion,
    kind: FaultKind,
    stop: &Stop,
) -> Result<(), AllocError> {
    if shows(version, kind, stop) {
        places.note(stop.place)?;
    }
    Ok(())
}

/// Notes the places of the rows of an array that show a fault of this kind.
fn note_rows(
    places: &mut FaultPlaces,
    version: TableVersion,
    kind: FaultKind,
    rows: Rows,
    values: &[Value],
) -> Result<(), AllocError> {
    for (row, value) in values.iter().enumerate() {
        let place = rows.place(row);
        note_row(places, version, kind, &Stop { place, value })?;
    }
    Ok(())
}

/// Notes the places of a root table that show a fault of this kind, in walk order. Error: an allocation failed.
pub fn note_early(
    places: &mut FaultPlaces,
    version: TableVersion,
    kind: FaultKind,
    root: &Value,
) -> Result<(), AllocError> {
    let place = TablePlace::Root;
    note_row(places, version, kind, &Stop { place, value: root })?;
    note_rows(
        places,
        version,
        kind,
        Rows::Receivers,
        rows_at(root, "receiver"),
    )?;
    note_rows(
        places,
        version,
        kind,
        Rows::Sources,
        rows_at(root, "source"),
    )?;
    for (number, group) in rows_at(root, "group").iter().enumerate() {
        let place = TablePlace::Group(number);
        note_row(
            places,
            version,
            kind,
            &Stop {
                place,
                value: group,
            },
        )?;
        note_rows(
            places,
            version,
            kind,
            Rows::Outputs(number),
            rows_at(group, "output"),
        )?;
    }
    Ok(())
}
