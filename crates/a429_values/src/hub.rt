//! A hub: the table that its ends share.
ghost use Rattle.std.specs.Prelude.{◌≡◌, ◌≤◌, ◌-◌, ◌^◌, [], length, IfOk};
ghost use Rattle.a429_equipment.specs.Limits.{count_bits};

use crate::desk::Desk;
use crate::shared_words::{HubSeat, SharedWords};
use crate::wired::{Wired, zeros};
use a429_equipment::Equipment;
use atomic_table::Table;
use std::alloc::{AllocError, Global};
use std::marker::Model;
use std::snapshot::Snapshot;
use std::sync::Arc;

/// The current values of a station: for each of its sources, at most `S`, how many words were accepted,
/// counted in `C` bits, 1 to 41, and the last of them.
#[derive(Drop)]
pub struct Hub<const S: usize, const C: u32> {
    pub(crate) wired: Arc<Wired, Global>,
}

impl<const S: usize, const C: u32> Model for Hub<S, C> {
    ghost use Rattle.std.specs.Prelude.{◌≤◌};
    ghost use Rattle.std.specs.Arc.{arc_value};
    ghost use Rattle.a429_values.specs.Ends.{Place};
    ghost use Rattle.a429_values.specs.Wires.{place_of};

    ghost Value = { Place };

    ghost view = { λ h. place_of (arc_value h.wired) };

    ghost invariant = { λ _. C ≤ 41 };
}

impl<const S: usize, const C: u32> Hub<S, C> {
    /// A hub of this station, with the desk that gives out its receivers and transmitters, of which none was given out
    /// yet. Error: an allocation failed.
    pub fn open(alloc: Global, equipment: &Equipment) -> Result<(Hub<S, C>, Desk), AllocError>
        requires sources { length equipment.now.sources ≤ S }
        requires bits { (1 ≤ C) × (C ≤ count_bits) }
        ensures station { IfOk result (λ ends. ends.0.station ≡ equipment.now) }
        ensures desk { IfOk result (λ ends. ends.1 ≡ record { at = ends.0; receivers = []; transmitters = [] }) }
    {
        // Seats step on the first word, even if there is no source.
        let words = zeros(alloc, S.max(1))?;
        let about = Snapshot::of(equipment);
        let (shared_words, seat): (SharedWords, HubSeat) = Table::of_words(
            alloc,
            words.as_slice(),
            &about,
        )?;
        let equipment = equipment.copied(alloc)?;
        let wired = Arc::new(
            alloc,
            Wired {
                shared_words,
                equipment,
            },
        )?;
        Ok((Hub { wired }, Desk::of_seat(alloc, seat)))
    }
}
