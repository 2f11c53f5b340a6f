//! The parts of an equipment table that are looked for by their first rows.

/// The arrays of an equipment table.
#[derive(Clone, Copy)]
pub enum Part {
    Receivers,
    Sources,
    Groups,
}
