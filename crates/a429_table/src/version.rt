//! The version of an equipment table.

ghost use Rattle.std.specs.Prelude.{◌≡◌};
ghost use Rattle.toml.specs.View.{view};
ghost use Rattle.a429_table.specs.Version.{version_of};

use crate::tree::integer_at;
use a429_equipment::TableVersion;
use toml::Value;

/// The version that a root table states: 2 if it states 2, otherwise 1.
#[tactic(auto, unfolding(crate::specs::Version::version_of))]
pub fn version_of(root: &Value) -> TableVersion
    ensures { result ≡ version_of (view root.now) }
{
    if integer_at(root, "version") == 2 {
        TableVersion::Two
    } else {
        TableVersion::One
    }
}
