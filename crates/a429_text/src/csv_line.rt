//! Rows of comma-separated values, each with its line.
ghost use Rattle.std.specs.Prelude.{◌≡◌, [], IfOk, length, slice_index_or};
ghost use Rattle.csv.specs.Records.{fields_of};

use csv::ByteRecord;
use std::alloc::AllocError;

/// A row with the line on which it begins, counted from 1.
#[derive(Drop)]
pub struct CsvLine {
    pub number: u64,
    /// What separates its fields.
    pub separator: u8,
    pub fields: ByteRecord,
}

/// The field of a row in a column, counted from 0; empty if there is no such field.
pub fn field_at(fields: &ByteRecord, column: usize) -> &[u8]
    ensures { result.now ≡ slice_index_or (fields_of fields.now) column [] }
{
    match fields.get(column) {
        Some(field) => field,
        None => &[],
    }
}

impl CsvLine {
    /// The number of fields.
    pub fn len(&self) -> usize
        ensures { result ≡ length (fields_of self.now.fields) }
    {
        self.fields.len()
    }

    /// The field in a column, counted from 0; empty if there is no such field.
    pub fn field(&self, column: usize) -> &[u8]
        ensures { result.now ≡ slice_index_or (fields_of self.now.fields) column [] }
    {
        field_at(&self.fields, column)
    }

    /// A copy of the row. Error: an allocation failed.
    pub fn copy(&self) -> Result<CsvLine, AllocError>
        ensures { IfOk result (λ copy. copy ≡ self.now) }
    {
        Ok(CsvLine {
            number: self.number,
            separator: self.separator,
            fields: self.fields.clone()?,
        })
    }
}
