//! The names of a table in the header of C, and the enumerations of its receivers and sources.
ghost use Rattle.std.specs.Prelude.{◌≡◌, ◌++◌, length};
ghost use Rattle.std.specs.List.{flat_map, range_with_len};
ghost use Rattle.a429_documents.specs.SlotNames.{array_byte, array_name, constant, constant_line, count_line, macro_byte, macro_name, row_enum, row_line};
ghost use Rattle.a429_documents.specs.SlotHeader.{table_enums};

use crate::diff::names::Named;
use a429_equipment::Equipment;
use a429_text::Text;

/// A byte of a name in a macro.
fn macro_byte(byte: u8) -> u8
    ensures { result ≡ macro_byte byte }
{
    match byte {
        b'-' => b'_',
        b'_' => b'u',
        _ => byte.to_ascii_uppercase(),
    }
}

/// A byte of a name in an array.
fn array_byte(byte: u8) -> u8
    ensures { result ≡ array_byte byte }
{
    match byte {
        b'-' => b'_',
        b'_' => b'U',
        _ => byte,
    }
}

/// Writes a name as a part of a macro.
pub(crate) fn put_macro_name(text: &mut Text, name: &str)
    ensures { text.new ≡ text.old ++ macro_name name.now }
{
    let bytes = name.as_bytes();
    for byte in bytes {
        text.put_bytes(&[macro_byte(*byte)]);
    }
}

/// Writes a name as a part of the name of an array.
pub(crate) fn put_array_name(text: &mut Text, name: &str)
    ensures { text.new ≡ text.old ++ array_name name.now }
{
    let bytes = name.as_bytes();
    for byte in bytes {
        text.put_bytes(&[array_byte(*byte)]);
    }
}

/// Writes the constant of a receiver or a source.
#[tactic(auto, unfolding(crate::specs::SlotNames::constant))]
pub(crate) fn put_constant(text: &mut Text, what: &str, name: &str)
    ensures { text.new ≡ text.old ++ constant what.now name.now }
{
    text.put("A429_");
    text.put(what);
    put_macro_name(text, name);
}

/// Writes the line of a constant with this number.
#[tactic(auto, unfolding(crate::specs::SlotNames::constant_line))]
fn put_constant_line(text: &mut Text, what: &str, name: &str, number: usize)
    ensures { text.new ≡ text.old ++ constant_line what.now name.now number }
{
    text.put("    ");
    put_constant(text, what, name);
    text.put(" = ");
    text.put_number(number as u64);
    text.put(",\n");
}

/// Ends an enumeration with the count of its names.
#[tactic(auto, unfolding(crate::specs::SlotNames::count_line))]
fn put_count_line(text: &mut Text, what: &str, count: usize)
    ensures { text.new ≡ text.old ++ count_line what.now count }
{
    text.put("    A429_");
    text.put(what);
    text.put(" = ");
    text.put_number(count as u64);
    text.put("\n};\n\n");
}

/// Writes the lines of the rows of a table.
fn put_lines<T: Named>(text: &mut Text, what: &str, rows: &[T])
    ensures { text.new ≡ text.old ++ flat_map (row_line what.now T.name_of rows.now) (range_with_len 0 (length rows.now)) }
{
    for number in 0..rows.len() {
        put_constant_line(text, what, rows[number].name(), number);
    }
}

/// Writes an enumeration of the rows of a table.
fn put_enum<T: Named>(text: &mut Text, start: &str, what: &str, counted: &str, rows: &[T])
    ensures { text.new ≡ text.old ++ row_enum start.now what.now counted.now T.name_of rows.now }
{
    text.put(start);
    put_lines(text, what, rows);
    put_count_line(text, counted, rows.len());
}

/// Writes the receivers and the sources of a table.
#[tactic(auto, unfolding(crate::specs::SlotHeader::table_enums))]
pub(crate) fn put_enums(text: &mut Text, equipment: &Equipment)
    ensures { text.new ≡ text.old ++ table_enums equipment.now }
{
    let (receivers, sources) = (equipment.receivers(), equipment.sources());
    put_enum(
        text,
        "enum a429_receiver {\n",
        "RECEIVER_",
        "RECEIVERS",
        receivers,
    );
    put_enum(text, "enum a429_source {\n", "SOURCE_", "SOURCES", sources);
}
