//! The numbers of tables by their names.
//!
//! A table may have hundreds of names, and each is looked up for several faults: so they are gathered once.

ghost use Rattle.std.specs.Prelude.{◌≡◌, map, codes, IfOk, OnOk, []};
ghost use Rattle.toml.specs.View.{view};
ghost use Rattle.a429_table.specs.Names.{number_named};
ghost use Rattle.a429_table.specs.Numbers.{NumbersNames, NumbersOneMore};
ghost use Rattle.a429_table.specs.Tree.{rows_at};
ghost use Rattle.a429_table.specs.Version.{version_of};

use crate::tree::{rows_at, text_at};
use crate::version::version_of;
use a429_equipment::TableVersion;
use indexmap::IndexMap;
use std::alloc::{AllocError, Global};
use toml::Value;

/// A root table, with its version, and the numbers of its receivers, sources and groups by their names.
#[derive(Drop)]
pub struct TableIndex<'a> {
    pub root: &'a Value,
    pub version: TableVersion,
    names: NameNumbers,
    ghost of_version: { version ≡ version_of (view root.now) },
    ghost of_receivers: { NumbersNames names.receivers (rows_at (codes "receiver") (view root.now)) },
    ghost of_sources: { NumbersNames names.sources (rows_at (codes "source") (view root.now)) },
    ghost of_groups: { NumbersNames names.groups (rows_at (codes "group") (view root.now)) },
}

impl<'a> TableIndex<'a> {
    ghost use Rattle.a429_table.specs.Stops.{table_of};

    /// Gathers the names of a root table. Error: an allocation failed.
    pub fn of(alloc: Global, root: &'a Value) -> Result<TableIndex<'a>, AllocError>
        ensures { IfOk result (λ numbers. table_of numbers ≡ view root.now) }
    {
        let names = names_of(alloc, root)?;
        Ok(TableIndex {
            root,
            version: version_of(root),
            names,
        })
    }

    /// The number of the first receiver with the name. `None` if there is none.
    pub fn receiver(&self, name: &str) -> Option<usize>
        ensures { result ≡ number_named name.now (rows_at (codes "receiver") (table_of self.now)) }
    {
        self.names.receivers.get(name).copied()
    }

    /// The number of the first source with the name. `None` if there is none.
    pub fn source(&self, name: &str) -> Option<usize>
        ensures { result ≡ number_named name.now (rows_at (codes "source") (table_of self.now)) }
    {
        self.names.sources.get(name).copied()
    }

    /// The number of the first group with the name. `None` if there is none.
    pub fn group(&self, name: &str) -> Option<usize>
        ensures { result ≡ number_named name.now (rows_at (codes "group") (table_of self.now)) }
    {
        self.names.groups.get(name).copied()
    }
}

/// The numbers of a table's receivers, sources and groups by their names.
#[derive(Drop)]
struct NameNumbers {
    receivers: IndexMap<String, usize>,
    sources: IndexMap<String, usize>,
    groups: IndexMap<String, usize>,
}

/// The names of a root table. What is filled is one value, so that a refusal drops one.
#[tactic(auto, unfolding(crate::specs::Names::number_named))]
fn names_of(alloc: Global, root: &Value) -> Result<NameNumbers, AllocError>
    ensures receivers { IfOk result (λ names. NumbersNames names.receivers (rows_at (codes "receiver") (view root.now))) }
    ensures sources { IfOk result (λ names. NumbersNames names.sources (rows_at (codes "source") (view root.now))) }
    ensures groups { IfOk result (λ names. NumbersNames names.groups (rows_at (codes "group") (view root.now))) }
{
    let mut names = NameNumbers {
        receivers: IndexMap::new(alloc),
        sources: IndexMap::new(alloc),
        groups: IndexMap::new(alloc),
    };
    note_names(&mut names, alloc, root)?;
    Ok(names)
}

/// Gives the receivers, the sources and the groups of a root table their numbers.
fn note_names(names: &mut NameNumbers, alloc: Global, root: &Value) -> Result<(), AllocError>
    requires receivers { NumbersNames names.old.receivers [] }
    requires sources { NumbersNames names.old.sources [] }
    requires groups { NumbersNames names.old.groups [] }
    ensures receivers { OnOk result (NumbersNames names.new.receivers (rows_at (codes "receiver") (view root.now))) }
    ensures sources { OnOk result (NumbersNames names.new.sources (rows_at (codes "source") (view root.now))) }
    ensures groups { OnOk result (NumbersNames names.new.groups (rows_at (codes "group") (view root.now))) }
{
    number_names(&mut names.receivers, alloc, rows_at(root, "receiver"))?;
    number_names(&mut names.sources, alloc, rows_at(root, "source"))?;
    number_names(&mut names.groups, alloc, rows_at(root, "group"))
}

/// Gives a name a number, unless it has one. Error: an allocation failed.
pub fn number_name(
    numbers: &mut IndexMap<String, usize>,
    alloc: Global,
    name: &str,
    number: usize,
) -> Result<(), AllocError>
    ensures { OnOk result (NumbersOneMore numbers.old numbers.new name.now number) }
{
    if !numbers.contains_key(name) {
        numbers.insert(String::from_str(alloc, name)?, number)?;
    }
    Ok(())
}

/// Numbers the tables of an array by their names, from an empty index. Of tables with one name the first has it. Error:
/// an allocation failed.
#[tactic(auto, unfolding(crate::specs::Names::number_named))]
fn number_names(
    numbers: &mut IndexMap<String, usize>,
    alloc: Global,
    tables: &[Value],
) -> Result<(), AllocError>
    requires { NumbersNames numbers.old [] }
    ensures { OnOk result (NumbersNames numbers.new (map view tables.now)) }
{
    for (row, table) in tables.iter().enumerate() {
        number_name(numbers, alloc, text_at(table, "name"), row)?;
    }
    Ok(())
}
