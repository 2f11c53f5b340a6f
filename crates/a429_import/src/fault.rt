//! Why rows do not give an equipment table.
ghost use Rattle.std.specs.Prelude.{◌≡◌, Some};
ghost use Rattle.a429_import.specs.ImportRows.{column_name, is_needed};
ghost use Rattle.a429_import.specs.ImportFaults.{kind_text, of_table};
ghost use Rattle.a429_import.specs.declared.fault.ImportFault.TheVariants.{NoMemory};

use a429_table::TableFault;
use std::alloc::AllocError;
use std::fmt;
use thiserror::Error;

/// The columns that are read (profile: import).
#[derive(Clone, Copy, Debug, PartialEq, Eq)]
pub enum ImportColumn {
    /// The name of the group that sends the output. A row without one states its source and receiver alone; its fields of
    /// the bit rate, the intervals and the hold are empty.
    Group,
    /// The bit rate of the group, in bit/s.
    Rate,
    /// The name of the source.
    Source,
    /// The name of the source's receiver.
    Receiver,
    /// The source's label: one to three octal digits.
    Label,
    /// The source's SDI: 0 to 3, or `any`.
    Sdi,
    /// The minimum transmit interval, in microseconds.
    MinUs,
    /// The maximum transmit interval, in microseconds.
    MaxUs,
    /// The maximum number of times that one accepted word is sent; empty or `none` for no limit. The column may be
    /// absent.
    Hold,
    /// The receiver's filters, separated by spaces; empty if it has none. The column may be absent.
    Filters,
}

impl ImportColumn {
    /// The name of the column in the heading.
    pub fn name(self) -> &'static str
        ensures { result.now ≡ column_name self }
    {
        match self {
            ImportColumn::Group => "group",
            ImportColumn::Rate => "rate",
            ImportColumn::Source => "source",
            ImportColumn::Receiver => "receiver",
            ImportColumn::Label => "label",
            ImportColumn::Sdi => "sdi",
            ImportColumn::MinUs => "min_us",
            ImportColumn::MaxUs => "max_us",
            ImportColumn::Hold => "hold",
            ImportColumn::Filters => "filters",
        }
    }

    /// Whether the heading must have it.
    pub fn is_needed(self) -> bool
        ensures { result ≡ is_needed self }
    {
        !matches!(self, ImportColumn::Hold | ImportColumn::Filters)
    }
}

/// What is wrong with a row.
#[derive(Clone, Copy, Debug, PartialEq, Eq)]
pub enum CsvFaultKind {
    /// The row has more or fewer fields than the heading, or a field does not have the form of its column. Or a field in
    /// quotes does not end with a quote and then a separator or a line end. Or the row is one of data above the heading.
    Form,
    /// The heading lacks a column, or has it twice.
    Column,
    /// The row contradicts an earlier row about the same source, receiver or group.
    Differs,
    /// With the row there is one receiver, source or group too many, one output of its group or one filter of its receiver.
    TooMany,
}

impl fmt::Display for CsvFaultKind {
    ghost output = { λ kind. Some (kind_text kind) };

    fn fmt<W: fmt::Write>(&self, f: &mut fmt::Formatter<W>) -> fmt::Result {
        match self {
            CsvFaultKind::Form => f.write_str("form"),
            CsvFaultKind::Column => f.write_str("column"),
            CsvFaultKind::Differs => f.write_str("differs"),
            CsvFaultKind::TooMany => f.write_str("too-many"),
        }
    }
}

/// Error of `import_table`.
#[derive(Debug, Drop, Error)]
pub enum ImportFault {
    /// An allocation failed. This can come instead of any other answer.
    #[error("out of memory")]
    NoMemory,
    /// The rows have a fault of this kind, and no earlier row has a fault. Fields in quotes are looked at before any other
    /// fault, and then rows of data above the heading. Lines are counted from 1. `column` is `None` if the row has more or
    /// fewer fields than the heading. It is also `None` if the quotes of a field that begins on the line are wrong, or if the
    /// row is above the heading.
    #[error("csv line {line} {kind}")]
    Csv {
        line: u64,
        kind: CsvFaultKind,
        column: Option<ImportColumn>,
    },
    /// The table that the rows describe has this fault.
    #[error("table {0}")]
    Table(TableFault),
}

/// The fault of a line.
pub fn csv_fault(line: u64, kind: CsvFaultKind, column: Option<ImportColumn>) -> ImportFault
    ensures { result ≡ ImportFault.Csv line kind column }
{
    ImportFault::Csv { line, kind, column }
}

impl From<AllocError> for ImportFault {
    ghost from_gives = { λ _ e. e ≡ NoMemory };

    fn from(_e: AllocError) -> ImportFault {
        ImportFault::NoMemory
    }
}

impl From<TableFault> for ImportFault {
    ghost from_gives = { λ fault e. e ≡ of_table fault };

    fn from(fault: TableFault) -> ImportFault {
        match fault {
            TableFault::NoMemory => ImportFault::NoMemory,
            TableFault::At(kind, place) => ImportFault::Table(TableFault::At(kind, place)),
        }
    }
}
