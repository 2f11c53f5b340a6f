//! The outputs of a group in an image: their shapes.
use crate::drawing::groups::DrawnGroup;
use crate::kept::KeptText;
use crate::page::put_escaped;
use a429_equipment::SourceRow;
use a429_slots::OutputId;
use a429_text::Text;
use a429_word::{Label, Sdi};

/// The hue of a label, in degrees.
fn hue_of(label: Label) -> u64 {
    u64::from(label.value()) * 137 % 360
}

/// The lightness of an SDI in per cent.
fn lightness_of(sdi: Option<Sdi>) -> u64 {
    match sdi {
        None => 70,
        Some(sdi) => 92 - 5 * u64::from(sdi.value()),
    }
}

/// Writes the colour of a source.
fn put_colour(text: &mut Text, source: &SourceRow) {
    text.fill(
        &[
            "</title>\n<rect width='15' height='17' fill='hsl(",
            ",65%,",
            "%)'/>\n<text x='7' y='12' font-size='7' text-anchor='middle'>",
        ],
        &[hue_of(source.label), lightness_of(source.sdi)],
    );
}

/// Writes what comments of the table say of a source: each column and its text, after a comma.
fn put_said(text: &mut Text, texts: &[KeptText<'_>], source: &str) {
    for said in texts {
        if said.source == source {
            text.put(", ");
            put_escaped(text, said.column.as_bytes());
            text.put(" ");
            put_escaped(text, said.text.as_bytes());
        }
    }
}

/// Writes the shape of an output that sends this source: its colour, its label, and the name of the source with what
/// comments of the table say of it, which a viewer shows under the pointer.
fn put_shape(
    text: &mut Text,
    group: usize,
    output: usize,
    source: &SourceRow,
    texts: &[KeptText<'_>],
) {
    text.fill(
        &["<g id='o", "-", "'><title>"],
        &[group as u64, output as u64],
    );
    text.put(source.name.as_str());
    put_said(text, texts, source.name.as_str());
    put_colour(text, source);
    text.put_octal(source.label.value());
    text.put("</text></g>\n");
}

/// Writes the shapes of a group's outputs, in table order. They are not shown here: the marks refer to them.
pub(crate) fn put_shapes(text: &mut Text, group: &DrawnGroup<'_>, texts: &[KeptText<'_>]) {
    let sources = group.equipment.sources();
    for output in 0..group.table.outputs() {
        if let Some(source) = sources.get(group.table.source(OutputId::new(output))) {
            put_shape(text, group.number, output, source, texts);
        }
    }
}

/// Writes the shape of an output at a place.
pub(crate) fn put_used(text: &mut Text, group: usize, output: OutputId, left: u64, top: u64) {
    text.fill(
        &["<use href='#o", "-", "' x='", "' y='", "'/>\n"],
        &[group as u64, output.number() as u64, left, top],
    );
}
