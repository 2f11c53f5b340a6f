//! The faults of a table, and their places.

ghost use Rattle.std.specs.Prelude.{◌≡◌, Some};
ghost use Rattle.a429_table.specs.Printed.{kind_text, place_text};
ghost use Rattle.a429_table.specs.declared.fault.TableFault.TheVariants.{NoMemory};

use std::alloc::{AllocError, AllocFailed};
use std::fmt;
use thiserror::Error;

/// The kinds of fault, in the order in which they are tested (profile). Each kind is tested over the whole table before
/// the next.
#[derive(Clone, Copy, Debug, PartialEq, Eq)]
pub enum FaultKind {
    /// The bytes are not UTF-8, or not a TOML document. At the root.
    NotToml,
    /// `version` is absent, or is neither the integer 1 nor the integer 2. At the root.
    Version,
    /// A table has a key that this version does not know. At that table.
    UnknownKey,
    /// A table lacks a required key; only `filters` and `hold` are optional. At that table.
    MissingKey,
    /// The value of a key, or a filter, has another kind: at the table with the key. An element of an array of tables
    /// is not a table: at that element.
    WrongKind,
    /// A rate is neither 100000 bit/s nor 12000 to 14500 bit/s. In version 1 at the root, in version 2 at
    /// that group.
    Rate,
    /// More than 16 receivers, 256 sources or 8 groups: at the root. More than 32 filters or 128 outputs:
    /// at that receiver or group.
    TooMany,
    /// A name is not 1 to 16 of `a` to `z`, `0` to `9`, `-` and `_`. At that table.
    Name,
    /// A name is that of an earlier table of the same array. At the later one.
    DuplicateName,
    /// A label is not three octal digits, 000 to 377, or a filter is not two labels with a slash between them. At
    /// that table.
    Label,
    /// An SDI is neither 0 to 3 nor `any`. At that source.
    Sdi,
    /// `min_us` or `max_us` is not 1 to 30000000 microseconds, or `min_us` is above `max_us`. At that output.
    Interval,
    /// A source's receiver or an output's source has no table. At that table.
    UnknownName,
    /// An earlier source has the same receiver and label, and the SDIs are equal or one of them is any.
    /// At the later one.
    DuplicateSource,
    /// An earlier output of the group has a source of the same label and the same SDI; any equals only any. At the
    /// later one.
    DuplicateOutput,
    /// A group has no output. At that group.
    EmptyGroup,
    /// There is a `hold`, and it is not 1 to 1000000. At that output.
    Hold,
}

/// A table within the equipment table. Numbers count from 0, and an output has its group's first.
#[derive(Clone, Copy, Debug, PartialEq, Eq)]
pub enum TablePlace {
    /// The table itself.
    Root,
    /// The receiver of this number.
    Receiver(usize),
    /// The source of this number.
    Source(usize),
    /// The group of this number.
    Group(usize),
    /// The output of a group, by the group's number and its own within the group.
    Output(usize, usize),
}

impl FaultKind {
    /// Its name in refusals: `not-toml` to `hold`.
    #[tactic(auto, unfolding(crate::specs::Printed::kind_text))]
    fn text(self) -> &'static str
        ensures { result.now ≡ kind_text self }
    {
        match self {
            FaultKind::NotToml => "not-toml",
            FaultKind::Version => "version",
            FaultKind::UnknownKey => "unknown-key",
            FaultKind::MissingKey => "missing-key",
            FaultKind::WrongKind => "wrong-kind",
            FaultKind::Rate => "rate",
            FaultKind::TooMany => "too-many",
            FaultKind::Name => "name",
            FaultKind::DuplicateName => "duplicate-name",
            FaultKind::Label => "label",
            FaultKind::Sdi => "sdi",
            FaultKind::Interval => "interval",
            FaultKind::UnknownName => "unknown-name",
            FaultKind::DuplicateSource => "duplicate-source",
            FaultKind::DuplicateOutput => "duplicate-output",
            FaultKind::EmptyGroup => "empty-group",
            FaultKind::Hold => "hold",
        }
    }
}

impl fmt::Display for FaultKind {
    ghost output = { λ kind. Some (kind_text kind) };

    /// Its name in refusals.
    fn fmt<W: fmt::Write>(&self, f: &mut fmt::Formatter<W>) -> fmt::Result {
        write!(f, "{}", self.text())
    }
}

impl fmt::Display for TablePlace {
    ghost output = { λ place. Some (place_text place) };

    /// The form in which refusals print it: `root`, `receiver 0`, or `output 1 0` with the group first.
    #[tactic(auto, unfolding(crate::specs::Printed::place_text))]
    fn fmt<W: fmt::Write>(&self, f: &mut fmt::Formatter<W>) -> fmt::Result {
        match self {
            TablePlace::Root => write!(f, "root"),
            TablePlace::Receiver(i) => write!(f, "receiver {i}"),
            TablePlace::Source(i) => write!(f, "source {i}"),
            TablePlace::Group(i) => write!(f, "group {i}"),
            TablePlace::Output(i, j) => write!(f, "output {i} {j}"),
        }
    }
}

/// Why a table is not read.
#[derive(Debug, Drop, Error)]
pub enum TableFault {
    /// Memory ran out. This may come instead of any other answer.
    #[error("out of memory")]
    NoMemory,
    /// The table has a fault of this kind at this place, and none of an earlier kind or at an earlier place.
    #[error("{0} {1}")]
    At(FaultKind, TablePlace),
}

impl From<AllocError> for TableFault {
    ghost from_gives = { λ _ e. e ≡ NoMemory };

    fn from(_e: AllocError) -> TableFault {
        TableFault::NoMemory
    }
}

impl<T: Drop> From<AllocFailed<T>> for TableFault {
    ghost from_gives = { λ _ e. e ≡ NoMemory };

    fn from(_e: AllocFailed<T>) -> TableFault {
        TableFault::NoMemory
    }
}
