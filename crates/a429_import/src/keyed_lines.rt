//! Lines with keys of sources. The key of a source is its text, and after it its receiver, its label and its SDI.
ghost use Rattle.std.specs.Prelude.{◌≡◌, ◌++◌, [], if◌then◌else◌, OnOk};
ghost use Rattle.csv.specs.Records.{fields_of, partial_of};
ghost use Rattle.a429_import.specs.declared.fault.ImportColumn.TheVariants.{Source};
ghost use Rattle.a429_import.specs.ImportFields.{field_in};
ghost use Rattle.a429_import.specs.ImportRows.{column_field};
ghost use Rattle.a429_import.specs.KeyedLines.{IsKeyedLine, end_in, is_place, keyed_text, with_text};

use crate::columns::Heading;
use crate::fault::ImportColumn;
use crate::fields::{label_in, sdi_in, text_in};
use crate::made_names::put_label_end;
use a429_text::CsvLine;
use csv::ByteRecord;
use std::alloc::{AllocError, Global};

/// Writes the key of the source of a line: its text, and after it the receiver, the label and the SDI, if the line states
/// them. Nothing if the line has no source.
#[tactic(auto, unfolding(crate::specs::KeyedLines::end_in))]
fn put_key(key: &mut Vec<u8>, heading: &Heading, line: &CsvLine) -> Result<(), AllocError>
    requires { key.old.items ≡ [] }
    ensures { OnOk result (key.new.items ≡ keyed_text (end_in (fields_of heading.now.line.fields) (fields_of line.now.fields))
        (column_field (fields_of heading.now.line.fields) (fields_of line.now.fields) Source)) }
{
    let source = heading.field_of(line, ImportColumn::Source);
    if source.is_empty() {
        return Ok(());
    }
    key.extend_from_slice(source)?;
    let receiver = text_in(heading.field_of(line, ImportColumn::Receiver));
    let label = label_in(heading.field_of(line, ImportColumn::Label));
    let sdi = sdi_in(heading.field_of(line, ImportColumn::Sdi));
    match (receiver, label, sdi) {
        (Some(receiver), Some(label), Some(sdi)) => {
            key.extend_from_slice(&[0])?;
            key.extend_from_slice(receiver.as_bytes())?;
            put_label_end(key, label, sdi)
        }
        _ => Ok(()),
    }
}

/// The field of a line at a place, or the key of its source if the source is there.
fn keyed_at<'a>(line: &'a CsvLine, source: Option<usize>, key: &'a [u8], place: usize) -> &'a [u8]
    ensures { result.now ≡ (if is_place place source then key.now else field_in place (fields_of line.now.fields)) }
{
    match source {
        Some(found) if found == place => key,
        _ => line.field(place),
    }
}

/// Adds the fields of a line, with the key of its source, which is at a place.
fn push_keyed(
    fields: &mut ByteRecord,
    line: &CsvLine,
    source: Option<usize>,
    key: &[u8],
) -> Result<(), AllocError>
    requires none { fields_of fields.old ≡ [] }
    requires partial { partial_of fields.old ≡ [] }
    ensures { OnOk result (fields_of fields.new ≡ with_text source key.now (fields_of line.now.fields)) }
{
    for place in 0..line.len() {
        fields.push_field(keyed_at(line, source, key, place))?;
    }
    Ok(())
}

/// Room for a line with the key of its source. It is used for one line after the other.
#[derive(Drop)]
pub struct KeyedRoom {
    pub key: Vec<u8>,
    pub line: CsvLine,
}

impl KeyedRoom {
    /// Room that was not used.
    pub fn new(alloc: Global) -> KeyedRoom {
        KeyedRoom {
            key: Vec::new(alloc),
            line: CsvLine {
                number: 1,
                separator: b',',
                fields: ByteRecord::new(alloc),
            },
        }
    }
}

/// Writes a line below a heading, with the key of its source, in the place of another. Error: an allocation failed.
pub fn put_keyed(room: &mut KeyedRoom, heading: &Heading, line: &CsvLine) -> Result<(), AllocError>
    ensures { OnOk result (IsKeyedLine heading.now.line line.now room.new.line) }
{
    room.key.clear();
    put_key(&mut room.key, heading, line)?;
    room.line.number = line.number;
    room.line.separator = line.separator;
    room.line.fields.clear();
    let source = heading.place(ImportColumn::Source);
    push_keyed(&mut room.line.fields, line, source, &room.key)
}
