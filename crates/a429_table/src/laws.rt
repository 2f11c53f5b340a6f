//! Laws of the definitions.

ghost use Rattle.std.specs.Prelude.{◌≡◌, ℕ, List, Some, Ok};
ghost use Rattle.toml.specs.Data.{Data};
ghost use Rattle.a429_equipment.specs.TableRecord.{TableRecord};
ghost use Rattle.a429_table.specs.declared.fault.FaultKind.{FaultKind};
ghost use Rattle.a429_table.specs.declared.fault.TablePlace.{TablePlace};
ghost use Rattle.a429_table.specs.Faults.{first, faults};
ghost use Rattle.a429_table.specs.Least.{IsLeast};
ghost use Rattle.a429_table.specs.Reading.{reading};
ghost use Rattle.a429_table.specs.AsWritten.{IsWrittenIn};

/// The first fault is the least: no place has a fault of an earlier kind, and no earlier place has one of its kind.
#[tactic(auto, using(crate::proofs::Leastness::is_least))]
pub fn first_is_least()
    ensures { (root : Data) (kind : FaultKind) (place : TablePlace) → first (faults root) ≡ Some (kind, place) → IsLeast root kind place }
{}

/// The record that `read_equipment` answers says what is written in the document. Its texts and integers are those at
/// the keys. A filter and a label are the text that is printed of them. The row that a name stands for has that name.
#[tactic(auto, using(crate::proofs::Written::is_as_written))]
pub fn record_is_as_written()
    ensures { (bytes : List ℕ) (t : TableRecord) → reading bytes ≡ Ok t → IsWrittenIn bytes t }
{}
