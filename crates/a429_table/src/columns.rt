//! The keys of each table, and the shape of each value.

ghost use Rattle.std.specs.Prelude.{◌≡◌, map};
ghost use Rattle.a429_table.specs.Columns.{columns, column_view};

use crate::fault::TablePlace;
use a429_equipment::TableVersion;

/// The shape of a value.
#[derive(Clone, Copy)]
pub enum Shape {
    Integer,
    Text,
    /// An array of texts.
    Texts,
    /// An array of tables.
    Tables,
    IntegerOrText,
}

#[derive(Clone, Copy)]
pub struct Column {
    pub key: &'static str,
    pub shape: Shape,
    /// Whether the key is required.
    pub required: bool,
}

const VERSION: Column = Column {
    key: "version",
    shape: Shape::Integer,
    required: true,
};

const RATE: Column = Column {
    key: "rate",
    shape: Shape::Integer,
    required: true,
};

const RECEIVERS: Column = Column {
    key: "receiver",
    shape: Shape::Tables,
    required: true,
};

const SOURCES: Column = Column {
    key: "source",
    shape: Shape::Tables,
    required: true,
};

const GROUPS: Column = Column {
    key: "group",
    shape: Shape::Tables,
    required: true,
};

const NAME: Column = Column {
    key: "name",
    shape: Shape::Text,
    required: true,
};

const FILTERS: Column = Column {
    key: "filters",
    shape: Shape::Texts,
    required: false,
};

const ITS_RECEIVER: Column = Column {
    key: "receiver",
    shape: Shape::Text,
    required: true,
};

const LABEL: Column = Column {
    key: "label",
    shape: Shape::Text,
    required: true,
};

const SDI: Column = Column {
    key: "sdi",
    shape: Shape::IntegerOrText,
    required: true,
};

const OUTPUTS: Column = Column {
    key: "output",
    shape: Shape::Tables,
    required: true,
};

const ITS_SOURCE: Column = Column {
    key: "source",
    shape: Shape::Text,
    required: true,
};

const MIN_US: Column = Column {
    key: "min_us",
    shape: Shape::Integer,
    required: true,
};

const MAX_US: Column = Column {
    key: "max_us",
    shape: Shape::Integer,
    required: true,
};

const HOLD: Column = Column {
    key: "hold",
    shape: Shape::Integer,
    required: false,
};

static ROOT_1: [Column; 5] = [VERSION, RATE, RECEIVERS, SOURCES, GROUPS];

static ROOT_2: [Column; 4] = [VERSION, RECEIVERS, SOURCES, GROUPS];

static RECEIVER: [Column; 2] = [NAME, FILTERS];

static SOURCE: [Column; 4] = [NAME, ITS_RECEIVER, LABEL, SDI];

static GROUP_1: [Column; 2] = [NAME, OUTPUTS];

static GROUP_2: [Column; 3] = [NAME, RATE, OUTPUTS];

static OUTPUT_1: [Column; 3] = [ITS_SOURCE, MIN_US, MAX_US];

static OUTPUT_2: [Column; 4] = [ITS_SOURCE, MIN_US, MAX_US, HOLD];

/// The keys of a table of this place, in this version.
#[tactic(auto, unfolding(crate::specs::Columns::columns))]
pub fn columns_of(version: TableVersion, place: TablePlace) -> &'static [Column]
    ensures { map column_view result.now ≡ columns version place }
{
    match (version, place) {
        (TableVersion::One, TablePlace::Root) => &ROOT_1,
        (TableVersion::Two, TablePlace::Root) => &ROOT_2,
        (_, TablePlace::Receiver(_)) => &RECEIVER,
        (_, TablePlace::Source(_)) => &SOURCE,
        (TableVersion::One, TablePlace::Group(_)) => &GROUP_1,
        (TableVersion::Two, TablePlace::Group(_)) => &GROUP_2,
        (TableVersion::One, TablePlace::Output(_, _)) => &OUTPUT_1,
        (TableVersion::Two, TablePlace::Output(_, _)) => &OUTPUT_2,
    }
}
