//! Rows of comma-separated values that are refused, for a hint.

use a429_text::CsvLine;

/// Rows of comma-separated values that are refused.
#[derive(Drop)]
pub struct RowsEvidence {
    /// The bytes of their file.
    pub bytes: Vec<u8>,
    /// The name of the column that is at fault, if one is.
    pub column: Option<&'static str>,
    /// The heading as it is written. `None` if there is none.
    pub titles: Option<CsvLine>,
    /// The heading by the names of its columns. `None` if no row was looked at.
    pub heading: Option<CsvLine>,
    /// The rows above the first fault that say something new. Below a heading with a fault, its first rows.
    pub rows: Vec<CsvLine>,
    /// The first faulty rows, at most three.
    pub faulty: Vec<CsvLine>,
    /// How many rows are faulty.
    pub count: usize,
    /// Whether the quotes of a field are wrong.
    pub is_misquoted: bool,
}
