//! Blanks round fields: spaces, tabs, line breaks, and no-break spaces (U+00A0 and U+202F).
ghost use Rattle.std.specs.Prelude.{◌≡◌, IfOk, map, option_map};
ghost use Rattle.std.specs.List.{list_all};
ghost use Rattle.csv.specs.Records.{fields_of};
ghost use Rattle.a429_import.specs.ImportWords.{after_blank, before_blank, has_no_blank, trimmed, without_back, without_front};

use crate::plain::is_blank;
use a429_text::field_at;
use csv::ByteRecord;
use std::alloc::{AllocError, Global};

/// A text without the blank at its beginning. `None` if it has none.
fn after_blank(text: &[u8]) -> Option<&[u8]>
    ensures { option_map (λ rest. rest.now) result ≡ after_blank text.now }
{
    match text {
        [byte, rest @ ..] if is_blank(*byte) => Some(rest),
        [0xC2, 0xA0, rest @ ..] => Some(rest),
        [0xE2, 0x80, 0xAF, rest @ ..] => Some(rest),
        _ => None,
    }
}

/// A text without the blank at its end. `None` if it has none.
fn before_blank(text: &[u8]) -> Option<&[u8]>
    ensures { option_map (λ rest. rest.now) result ≡ before_blank text.now }
{
    match text {
        [rest @ .., byte] if is_blank(*byte) => Some(rest),
        [rest @ .., 0xC2, 0xA0] => Some(rest),
        [rest @ .., 0xE2, 0x80, 0xAF] => Some(rest),
        _ => None,
    }
}

/// A text without blanks at its beginning.
fn without_front(text: &[u8]) -> &[u8]
    ensures { result.now ≡ without_front text.now }
{
    let mut rest = text;
    let mut left = text.len();
    while 0 < left {
        match after_blank(rest) {
            Some(after) => rest = after,
            None => return rest,
        }
        left -= 1;
    }
    rest
}

/// A text without blanks at its end.
fn without_back(text: &[u8]) -> &[u8]
    ensures { result.now ≡ without_back text.now }
{
    let mut rest = text;
    let mut left = text.len();
    while 0 < left {
        match before_blank(rest) {
            Some(before) => rest = before,
            None => return rest,
        }
        left -= 1;
    }
    rest
}

/// A field without the blanks round it.
#[tactic(auto, unfolding(crate::specs::ImportWords::trimmed))]
pub fn trimmed(field: &[u8]) -> &[u8]
    ensures { result.now ≡ trimmed field.now }
{
    without_back(without_front(field))
}

/// Whether a field has no blank at its beginning and none at its end.
fn has_no_blank(field: &[u8]) -> bool
    ensures { result ≡ has_no_blank field.now }
{
    after_blank(field).is_none() && before_blank(field).is_none()
}

/// Whether no field of a row has a blank at its beginning or at its end.
fn have_no_blank(fields: &ByteRecord) -> bool
    ensures { result ≡ list_all has_no_blank (fields_of fields.now) }
{
    for place in 0..fields.len() {
        if !has_no_blank(field_at(fields, place)) {
            return false;
        }
    }
    true
}

/// The fields of a row without blanks round them.
fn copy_trimmed(alloc: Global, fields: &ByteRecord) -> Result<ByteRecord, AllocError>
    ensures { IfOk result (λ copy. fields_of copy ≡ map trimmed (fields_of fields.now)) }
{
    let mut copy = ByteRecord::new(alloc);
    for place in 0..fields.len() {
        copy.push_field(trimmed(field_at(fields, place)))?;
    }
    Ok(copy)
}

/// A row without blanks round its fields. Error: an allocation failed.
pub fn trimmed_row(alloc: Global, fields: ByteRecord) -> Result<ByteRecord, AllocError>
    ensures { IfOk result (λ row. fields_of row ≡ map trimmed (fields_of fields)) }
{
    if have_no_blank(&fields) {
        Ok(fields)
    } else {
        copy_trimmed(alloc, &fields)
    }
}
