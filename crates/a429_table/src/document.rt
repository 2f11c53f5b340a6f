//! The tree that bytes are.

ghost use Rattle.a429_table.specs.Reading.{GivesUnlessMemory, root_of, document};
ghost use Rattle.toml.specs.View.{view};

use crate::fault::{FaultKind, TableFault, TablePlace};
use std::alloc::Global;
use toml::Value;
use toml::de::Error;

/// What a table that is refused was read as, for a hint to a person.
#[derive(Drop)]
pub enum RefusedTable {
    /// Its tree, which has a fault.
    Tree(Value),
    /// Why it is no TOML.
    NotToml(Error),
}

/// What TOML's reader says of bytes that are not UTF-8.
fn not_text(alloc: Global, bytes: &[u8]) -> Option<RefusedTable> {
    match toml::table_from_slice(alloc, bytes) {
        Ok(_) => None,
        Err(error) => Some(RefusedTable::NotToml(error)),
    }
}

/// The root table of the bytes. Error: they are no TOML document (then `kept` gets what the TOML reader says),
/// or an allocation failed.
#[tactic(auto, unfolding(crate::specs::Reading::document))]
pub fn document(
    alloc: Global,
    bytes: &[u8],
    kept: &mut Option<RefusedTable>,
) -> Result<Value, TableFault>
    ensures { GivesUnlessMemory view bytes.now result (root_of (document bytes.now)) }
{
    let Ok(text) = str::from_utf8(bytes) else {
        *kept = not_text(alloc, bytes);
        return Err(TableFault::At(FaultKind::NotToml, TablePlace::Root));
    };
    match toml::table_from_str(alloc, text) {
        Ok(table) => Ok(Value::Table(table)),
        Err(e) => {
            if e.is_memory() {
                Err(TableFault::NoMemory)
            } else {
                *kept = Some(RefusedTable::NotToml(e));
                Err(TableFault::At(FaultKind::NotToml, TablePlace::Root))
            }
        }
    }
}
