//! The arrays of outputs in the header of C.
ghost use Rattle.std.specs.Prelude.{◌≡◌, ◌<◌, ◌++◌, codes};
ghost use Rattle.a429_text.specs.Nibbles.{nibble, nibbles};
ghost use Rattle.a429_documents.specs.SlotColumns.{array_start, check_end, check_start, column_array, column_arrays, column_kind, column_value, column_word, group_array, group_macro, sdi_value, size_test, type_start, value_line, value_lines};

use crate::planned::{PlannedGroup, PlannedOutput};
use crate::slots::header::names::{put_array_name, put_constant, put_macro_name};
use a429_equipment::{GroupRow, receiver_name};
use a429_text::Text;
use a429_word::Sdi;

/// What an array has of each output.
#[derive(Clone, Copy)]
pub enum Column {
    /// The labels.
    Labels,
    /// The SDIs.
    Sdis,
    /// The receivers of the sources.
    Receivers,
    /// The sources.
    Sources,
    /// The periods, in slots.
    Periods,
}

impl Column {
    ghost use Rattle.std.specs.Prelude.{◌≡◌};
    ghost use Rattle.a429_documents.specs.SlotColumns.{column_kind, column_word};

    /// The word that ends the name of the array.
    fn word(self) -> &'static str
        ensures { result.now ≡ column_word self }
    {
        match self {
            Column::Labels => "labels",
            Column::Sdis => "sdis",
            Column::Receivers => "receivers",
            Column::Sources => "sources",
            Column::Periods => "periods",
        }
    }

    /// The type of its elements.
    fn kind(self) -> &'static str
        ensures { result.now ≡ column_kind self }
    {
        match self {
            Column::Labels => "uint8_t",
            Column::Sdis => "uint8_t",
            Column::Receivers => "enum a429_receiver",
            Column::Sources => "enum a429_source",
            Column::Periods => "uint16_t",
        }
    }
}

/// Writes a macro of a group.
#[tactic(auto, unfolding(crate::specs::SlotColumns::group_macro))]
pub(crate) fn put_group_macro(text: &mut Text, group: &GroupRow, word: &str)
    ensures { text.new ≡ text.old ++ group_macro group.now word.now }
{
    text.put("A429_GROUP_");
    put_macro_name(text, group.name.as_str());
    text.put(word);
}

/// Writes the name of an array of a group.
#[tactic(auto, unfolding(crate::specs::SlotColumns::group_array))]
fn put_group_array(text: &mut Text, group: &GroupRow, word: &str)
    ensures { text.new ≡ text.old ++ group_array group.now word.now }
{
    text.put("a429_");
    put_array_name(text, group.name.as_str());
    text.put("_");
    text.put(word);
}

/// Begins an array.
#[tactic(auto, unfolding(crate::specs::SlotColumns::array_start))]
pub(crate) fn put_array_start(text: &mut Text, kind: &str, group: &GroupRow, word: &str)
    ensures { text.new ≡ text.old ++ array_start kind.now group.now word.now }
{
    text.put("static const ");
    text.put(kind);
    text.put(" ");
    put_group_array(text, group, word);
    text.put("[] = {");
}

/// Begins the test of the size of an array, after `sizeof`.
#[tactic(auto, unfolding(crate::specs::SlotColumns::size_test))]
fn put_size_test(text: &mut Text, group: &GroupRow, word: &str)
    ensures { text.new ≡ text.old ++ size_test group.now word.now }
{
    put_group_array(text, group, word);
    text.put(" / sizeof ");
    put_group_array(text, group, word);
    text.put("[0]\n    == ");
}

/// Begins a type that is named for an array.
fn put_type_start(text: &mut Text, group: &GroupRow, word: &str)
    ensures { text.new ≡ text.old ++ type_start group.now word.now }
{
    text.put("typedef char ");
    put_group_array(text, group, word);
    text.put("_is_whole[\n    sizeof ");
}

/// Begins the type that checks the size of an array.
#[tactic(auto, unfolding(crate::specs::SlotColumns::check_start))]
pub(crate) fn put_check_start(text: &mut Text, group: &GroupRow, word: &str)
    ensures { text.new ≡ text.old ++ check_start group.now word.now }
{
    put_type_start(text, group, word);
    put_size_test(text, group, word);
}

/// Ends that type.
pub(crate) fn put_check_end(text: &mut Text)
    ensures { text.new ≡ text.old ++ check_end }
{
    text.put(" ? 1 : -1];\n");
}

/// A hexadecimal digit.
#[tactic(auto, unfolding(a429_text::specs::Nibbles::nibble))]
fn digit(value: u8) -> u8
    requires { value < 16 }
    ensures { result ≡ nibble value }
{
    if value < 10 {
        b'0' + value
    } else {
        b'a' + (value - 10)
    }
}

/// Writes two hexadecimal digits.
#[tactic(auto, unfolding(a429_text::specs::Nibbles::nibbles))]
fn put_digits(text: &mut Text, value: u8)
    ensures { text.new ≡ text.old ++ nibbles 2 value }
{
    text.put_bytes(&[digit(value / 16 % 16), digit(value % 16)]);
}

/// Writes a label in hexadecimal.
fn put_label(text: &mut Text, label: u8)
    ensures { text.new ≡ text.old ++ (codes "0x" ++ nibbles 2 label) }
{
    text.put("0x");
    put_digits(text, label);
}

/// Writes an SDI, or the macro for any.
fn put_sdi(text: &mut Text, sdi: Option<Sdi>)
    ensures { text.new ≡ text.old ++ sdi_value sdi }
{
    match sdi {
        None => text.put("A429_ANY_SDI"),
        Some(sdi) => text.put_number(u64::from(sdi.value())),
    }
}

/// Writes what a column has of an output.
fn put_value(text: &mut Text, column: Column, output: &PlannedOutput<'_>)
    ensures { text.new ≡ text.old ++ column_value output.now column }
{
    let source = output.source;
    match column {
        Column::Labels => put_label(text, source.label.value()),
        Column::Sdis => put_sdi(text, source.sdi),
        Column::Receivers => {
            put_constant(
                text,
                "RECEIVER_",
                receiver_name(output.receivers, source.receiver),
            )
        }
        Column::Sources => put_constant(text, "SOURCE_", source.name.as_str()),
        Column::Periods => text.put_number(u64::from(output.place.period.slots())),
    }
}

/// Writes the same as a line.
#[tactic(auto, unfolding(crate::specs::SlotColumns::value_line))]
fn put_value_line(text: &mut Text, column: Column, output: &PlannedOutput<'_>)
    ensures { text.new ≡ text.old ++ value_line column output.now }
{
    text.put("\n    ");
    put_value(text, column, output);
    text.put(",");
}

/// Writes a line for each output, in table order.
#[tactic(auto, using(crate::proofs::Ranges::flat_more))]
fn put_values(text: &mut Text, column: Column, group: &PlannedGroup<'_>)
    ensures { text.new ≡ text.old ++ value_lines column group.now }
{
    for number in 0..group.table.outputs() {
        put_value_line(text, column, &group.output(number));
    }
}

/// Writes an array, and the type that checks its size.
#[tactic(auto, unfolding(crate::specs::SlotColumns::column_array))]
fn put_column(text: &mut Text, group: &PlannedGroup<'_>, column: Column)
    ensures { text.new ≡ text.old ++ column_array group.now column }
{
    put_array_start(text, column.kind(), group.row, column.word());
    put_values(text, column, group);
    text.put("\n};\n");
    put_check_start(text, group.row, column.word());
    put_group_macro(text, group.row, "_OUTPUTS");
    put_check_end(text);
}

/// Writes the arrays of a group's outputs.
#[tactic(auto, unfolding(crate::specs::SlotColumns::column_arrays))]
pub(crate) fn put_columns(text: &mut Text, group: &PlannedGroup<'_>)
    ensures { text.new ≡ text.old ++ column_arrays group.now }
{
    put_column(text, group, Column::Labels);
    put_column(text, group, Column::Sdis);
    put_column(text, group, Column::Receivers);
    put_column(text, group, Column::Sources);
    put_column(text, group, Column::Periods);
}
