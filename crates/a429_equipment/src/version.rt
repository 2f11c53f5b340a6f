//! The versions of equipment tables.

ghost use Rattle.std.specs.Prelude.{◌≡◌};
ghost use Rattle.a429_equipment.specs.Version.{version_number};

/// A version of equipment tables (profile).
#[derive(Clone, Copy, PartialEq, Eq)]
pub enum TableVersion {
    /// One rate for all groups, at the root.
    One,
    /// A rate for each group, and holds.
    Two,
}

impl TableVersion {
    /// Its number: 1 or 2.
    pub fn number(self) -> u32
        ensures { result ≡ version_number self }
    {
        match self {
            TableVersion::One => 1,
            TableVersion::Two => 2,
        }
    }
}
