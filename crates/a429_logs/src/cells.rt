//! The fields of a heading: the name of a column, and a note.
ghost use Rattle.std.specs.Prelude.{◌≡◌, position};
ghost use Rattle.a429_logs.specs.declared.times.TimeUnit.TheVariants.{Microseconds};
ghost use Rattle.a429_logs.specs.LogColumns.{found_next, from_first, is_absent, is_binary_note, is_bits_note, is_channel_name, is_channel_note, is_closing, is_column, is_column_by, is_data_name, is_decimal_note, is_frame, is_hex_note, is_inner, is_label_name, is_named, is_octal_note, is_parity_note, is_time_name, is_time_note, is_unit_note, is_word_name, is_word_note, name_in, note_in, noted, up_to};

use crate::fields::trimmed;
use crate::times::TimeUnit;

/// The columns that are read. Others are passed over.
#[derive(Clone, Copy)]
pub enum Column {
    /// When a word comes in.
    Time,
    /// When a word comes in, in the unit that is the note of the column.
    TimeIn(TimeUnit),
    /// The receiver, the channel, the bus or the group of a word.
    Name,
    /// A word, as eight hexadecimal digits.
    Word,
    /// The 19 data bits of a word as hexadecimal digits; without a label the word.
    Hex,
    /// The 19 data bits of a word as octal digits.
    Octal,
    /// The 19 data bits of a word as binary digits.
    Binary,
    /// The 19 data bits of a word as decimal digits.
    Decimal,
    /// The label of a word, in octal.
    Label,
    /// The label of a word as hexadecimal digits.
    HexLabel,
    /// The label of a word as decimal digits.
    DecimalLabel,
    /// The SDI of a word.
    Sdi,
    /// The SSM of a word.
    Ssm,
    /// The parity of a word that is given by its fields.
    Parity,
}

/// Whether a text is this one, in any case.
pub fn is_named(name: &[u8], text: &str) -> bool
    ensures { result ≡ is_named text.now name.now }
{
    text.as_bytes().eq_ignore_ascii_case(name)
}

/// Whether a byte ends the name of a column, or comes before its note.
fn is_frame(byte: u8) -> bool
    ensures { result ≡ is_frame byte }
{
    byte.is_ascii_whitespace() || byte == b'(' || byte == b'[' || byte == b'_'
}

/// Whether a byte ends a note.
fn is_closing(byte: u8) -> bool
    ensures { result ≡ is_closing byte }
{
    byte == b')' || byte == b']'
}

/// Whether a byte begins a note.
fn is_inner(byte: u8) -> bool
    ensures { result ≡ is_inner byte }
{
    !is_frame(byte)
}

/// The place of the first byte that ends the name of a column.
fn frame_at(text: &[u8]) -> Option<usize>
    ensures { result ≡ position is_frame text.now }
{
    text.iter().position(|byte| is_frame(*byte))
}

/// The place of the first byte that begins a note.
fn inner_at(text: &[u8]) -> Option<usize>
    ensures { result ≡ position is_inner text.now }
{
    text.iter().position(|byte| is_inner(*byte))
}

/// The place of the first byte that ends a note.
fn closing_at(text: &[u8]) -> Option<usize>
    ensures { result ≡ position is_closing text.now }
{
    text.iter().position(|byte| is_closing(*byte))
}

/// The name of a column: the text before the first byte that ends it.
#[tactic(auto, unfolding(crate::specs::LogColumns::name_in))]
fn name_in(cell: &[u8]) -> &[u8]
    ensures { result.now ≡ name_in cell.now }
{
    match frame_at(cell) {
        Some(end) => &cell[..end],
        None => cell,
    }
}

/// A text from the first byte on that ends the name of a column.
fn after_name(cell: &[u8]) -> &[u8]
    ensures { result.now ≡ from_first is_frame cell.now }
{
    match frame_at(cell) {
        Some(end) => &cell[end..],
        None => &[],
    }
}

/// A text from the first byte on that begins a note.
fn inner_part(text: &[u8]) -> &[u8]
    ensures { result.now ≡ from_first is_inner text.now }
{
    match inner_at(text) {
        Some(start) => &text[start..],
        None => &[],
    }
}

/// A text before the first closing bracket, if it has one.
fn before_closing(text: &[u8]) -> &[u8]
    ensures { result.now ≡ up_to is_closing text.now }
{
    match closing_at(text) {
        Some(end) => &text[..end],
        None => text,
    }
}

/// The note after the name of a column, such as its unit: nothing if there is none.
#[tactic(auto, unfolding(crate::specs::LogColumns::note_in))]
fn note_in(cell: &[u8]) -> &[u8]
    ensures { result.now ≡ note_in cell.now }
{
    trimmed(before_closing(inner_part(after_name(cell))))
}

/// Whether a note says that digits are hexadecimal.
fn is_hex_note(note: &[u8]) -> bool
    ensures { result ≡ is_hex_note note.now }
{
    is_named(note, "hex") || is_named(note, "hexadecimal")
}

/// Whether a note says that digits are octal.
fn is_octal_note(note: &[u8]) -> bool
    ensures { result ≡ is_octal_note note.now }
{
    is_named(note, "oct") || is_named(note, "octal")
}

/// Whether a note says that digits are decimal.
fn is_decimal_note(note: &[u8]) -> bool
    ensures { result ≡ is_decimal_note note.now }
{
    is_named(note, "dec") || is_named(note, "decimal")
}

/// Whether a note says that digits are binary.
fn is_binary_note(note: &[u8]) -> bool
    ensures { result ≡ is_binary_note note.now }
{
    is_named(note, "bin") || is_named(note, "binary")
}

/// Whether a note is a name of the microsecond.
fn is_micro_note(note: &[u8]) -> bool
    ensures { result ≡ is_unit_note Microseconds note.now }
{
    is_named(note, "us")
        || is_named(note, "usec")
        || is_named(note, "microseconds")
        || is_named(note, "\u{b5}s")
        || is_named(note, "\u{3bc}s")
}

/// Whether a note is a name of this unit.
fn is_unit_note(unit: TimeUnit, note: &[u8]) -> bool
    ensures { result ≡ is_unit_note unit note.now }
{
    match unit {
        TimeUnit::Nanoseconds => {
            is_named(note, "ns") || is_named(note, "nsec") || is_named(note, "nanoseconds")
        }
        TimeUnit::Microseconds => is_micro_note(note),
        TimeUnit::Milliseconds => {
            is_named(note, "ms") || is_named(note, "msec") || is_named(note, "milliseconds")
        }
        TimeUnit::Seconds => {
            is_named(note, "s") || is_named(note, "sec") || is_named(note, "seconds")
        }
        TimeUnit::Ticks(_) => false,
    }
}

/// Whether a column of times may have this note.
fn is_time_note(note: &[u8]) -> bool
    ensures { result ≡ is_time_note note.now }
{
    is_named(note, "")
        || is_named(note, "stamp")
        || is_named(note, "utc")
        || is_unit_note(TimeUnit::Nanoseconds, note)
        || is_unit_note(TimeUnit::Microseconds, note)
        || is_unit_note(TimeUnit::Milliseconds, note)
        || is_unit_note(TimeUnit::Seconds, note)
}

/// Whether a column of receivers may have this note.
fn is_channel_note(note: &[u8]) -> bool
    ensures { result ≡ is_channel_note note.now }
{
    is_named(note, "")
        || is_named(note, "#")
        || is_named(note, "no")
        || is_named(note, "number")
        || is_named(note, "id")
        || is_named(note, "name")
}

/// Whether it is the name of a column of times.
fn is_time_name(name: &[u8]) -> bool
    ensures { result ≡ is_time_name name.now }
{
    is_named(name, "time") || is_named(name, "timestamp")
}

/// Whether it is the name of a column of receivers.
fn is_channel_name(name: &[u8]) -> bool
    ensures { result ≡ is_channel_name name.now }
{
    is_named(name, "receiver")
        || is_named(name, "channel")
        || is_named(name, "bus")
        || is_named(name, "group")
        || is_named(name, "name")
        || is_named(name, "chan")
        || is_named(name, "ch")
        || is_named(name, "rx")
}

/// Whether it is the name of a column of whole words.
fn is_word_name(name: &[u8]) -> bool
    ensures { result ≡ is_word_name name.now }
{
    is_named(name, "word") || is_named(name, "hex") || is_named(name, "raw")
}

/// Whether a column of whole words may have this note.
fn is_word_note(note: &[u8]) -> bool
    ensures { result ≡ is_word_note note.now }
{
    is_named(note, "") || is_hex_note(note) || is_named(note, "word") || is_named(note, "data")
}

/// Whether it is the name of a column of data.
fn is_data_name(name: &[u8]) -> bool
    ensures { result ≡ is_data_name name.now }
{
    is_named(name, "data")
}

/// Whether it is the name of a column of labels.
fn is_label_name(name: &[u8]) -> bool
    ensures { result ≡ is_label_name name.now }
{
    is_named(name, "label") || is_named(name, "lbl")
}

/// Whether a column of the SDI or the SSM may have this note.
fn is_bits_note(note: &[u8]) -> bool
    ensures { result ≡ is_bits_note note.now }
{
    is_named(note, "") || is_binary_note(note) || is_named(note, "bits")
}

/// Whether a column of parities may have this note.
fn is_parity_note(note: &[u8]) -> bool
    ensures { result ≡ is_parity_note note.now }
{
    is_named(note, "") || is_named(note, "bit")
}

impl Column {
    /// Whether a name and a note make this column.
    fn is_by(self, name: &[u8], note: &[u8]) -> bool
        ensures { result ≡ is_column_by self name.now note.now }
    {
        match self {
            Column::Time => is_time_name(name) && is_time_note(note),
            Column::TimeIn(unit) => is_time_name(name) && is_unit_note(unit, note),
            Column::Name => is_channel_name(name) && is_channel_note(note),
            Column::Word => is_word_name(name) && is_word_note(note),
            Column::Hex => is_data_name(name) && (is_named(note, "") || is_hex_note(note)),
            Column::Octal => is_data_name(name) && is_octal_note(note),
            Column::Binary => is_data_name(name) && is_binary_note(note),
            Column::Decimal => is_data_name(name) && is_decimal_note(note),
            Column::Label => is_label_name(name) && (is_named(note, "") || is_octal_note(note)),
            Column::HexLabel => is_label_name(name) && is_hex_note(note),
            Column::DecimalLabel => is_label_name(name) && is_decimal_note(note),
            Column::Sdi => is_named(name, "sdi") && is_bits_note(note),
            Column::Ssm => is_named(name, "ssm") && is_bits_note(note),
            Column::Parity => is_named(name, "parity") && is_parity_note(note),
        }
    }

    /// Whether a field of a heading is the name of this column, in any case.
    fn is(self, cell: &[u8]) -> bool
        ensures { result ≡ is_column self cell.now }
    {
        self.is_by(name_in(cell), note_in(cell))
    }
}

/// The place of a column in a heading, counted from 0.
#[derive(Clone, Copy)]
pub enum Found {
    Absent,
    At(usize),
    Twice,
}

impl Found {
    /// Whether no place has the column.
    pub fn is_absent(self) -> bool
        ensures { result ≡ is_absent self }
    {
        match self {
            Found::Absent => true,
            _ => false,
        }
    }

    /// What is found after one more place that has the column: this place, or that the column is there twice.
    fn noted(self, place: usize) -> Found
        ensures { result ≡ noted self place }
    {
        match self {
            Found::Absent => Found::At(place),
            _ => Found::Twice,
        }
    }

    /// What is found after one more field of the heading, the one at this place. Nothing changes if the field does not
    /// name the column.
    pub fn after(self, column: Column, place: usize, name: &[u8]) -> Found
        ensures { result ≡ found_next column self place name.now }
    {
        if column.is(name) {
            self.noted(place)
        } else {
            self
        }
    }
}
