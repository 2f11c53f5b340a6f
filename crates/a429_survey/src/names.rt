//! The lines of a survey, in the order of their names.
ghost use Rattle.std.specs.Prelude.{◌≡◌, ◌<◌, ◌≤◌, false, true, length, set, slice_get, slice_index_or, IfOk, OnErr, OnOk, Some};
ghost use Rattle.a429_survey.specs.Kept.{Ascend, LineKept, is_before, line_with, names_in, place_for, with_line};

use crate::lines::Line;
use std::alloc::{AllocError, Global};

/// Whether there is a line at a place, and it is that of a name.
fn is_at(lines: &[Line], place: usize, name: &str) -> bool
    ensures yes { result ≡ true → slice_get (names_in lines.now) place ≡ Some name.now }
    ensures no { result ≡ false → slice_get (names_in lines.now) place ≡ Some name.now → ⊥ }
{
    if place < lines.len() {
        let line = &lines[place];
        line.name().as_str() == name
    } else {
        false
    }
}

/// Whether the name of the line at a place is before a name.
fn is_before(lines: &[Line], place: usize, name: &str) -> bool
    requires { place < length lines.now }
    ensures { (d : LineKept) → result ≡ is_before (slice_index_or lines.now place d).name name.now }
{
    let line = &lines[place];
    line.name().as_str() < name
}

/// How many lines have names before a name.
fn place_for(lines: &[Line], name: &str) -> usize
    requires { Ascend (names_in lines.now) }
    ensures value { result ≡ place_for name.now (names_in lines.now) }
    ensures within { result ≤ length lines.now }
{
    let mut low = 0;
    let mut high = lines.len();
    while low < high {
        let middle = low + (high - low) / 2;
        if is_before(lines, middle, name) {
            low = middle + 1;
        } else {
            high = middle;
        }
    }
    low
}

/// Takes one more word into the line at a place. Error: an allocation failed.
fn note_at(lines: &mut Vec<Line>, place: usize, time: u64, raw: u32) -> Result<(), AllocError>
    requires { place < length lines.old.items }
    ensures noted { OnOk result ((d : LineKept)
        → lines.new.items ≡ set lines.old.items place (line_with time raw (slice_index_or lines.old.items place d))) }
    ensures kept { OnErr result (lines.new.items ≡ lines.old.items) }
{
    let line = &mut lines[place];
    line.note(time, raw)
}

/// Takes one more word into the line of a name, which is made if there is none. The place of the line. The name's line may
/// be at the place `last`, which is looked at first. Error: an allocation failed.
pub fn note_word(
    alloc: Global,
    lines: &mut Vec<Line>,
    last: usize,
    name: &str,
    time: u64,
    raw: u32,
) -> Result<usize, AllocError>
    requires { Ascend (names_in lines.old.items) }
    ensures noted { IfOk result (λ place. (d : LineKept) → lines.new.items ≡ set (with_line name.now lines.old.items) place
        (line_with time raw (slice_index_or (with_line name.now lines.old.items) place d))) }
    ensures named { IfOk result (λ place. slice_get (names_in (with_line name.now lines.old.items)) place ≡ Some name.now) }
    ensures kept { OnErr result (lines.new.items ≡ lines.old.items) }
{
    if is_at(lines, last, name) {
        note_at(lines, last, time, raw)?;
        return Ok(last);
    }
    let place = place_for(lines, name);
    if is_at(lines, place, name) {
        note_at(lines, place, time, raw)?;
        return Ok(place);
    }
    let line = Line::of_word(alloc, name, time, raw)?;
    lines.insert(place, line)?;
    Ok(place)
}
