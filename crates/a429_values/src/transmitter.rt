//! A transmitter's end of a hub.
ghost use Rattle.std.specs.Prelude.{◌≡◌, ◌<◌, ◌∷◌, [], length, ℕ, true};
ghost use Rattle.a429_equipment.specs.declared.loads.Load.{Load};
ghost use Rattle.a429_equipment.specs.Agreement.{loads_of_all, AgreesToTheEnd, CountsNoLess};
ghost use Rattle.a429_values.specs.Ends.{with_loads};
ghost use Rattle.a429_values.specs.Later.{OthersStayAgreed, StaysWhole};
ghost use Rattle.a429_values.specs.Seats.{IsSeatOf, Stays};
ghost use Rattle.a429_values.specs.Views.{with_loads_of};
ghost use Rattle.a429_values.specs.Words.{Tells, load_of};

use crate::receiver::Receiver;
use crate::shared_words::HubSeat;
use crate::steps::{ONE, join_step, load_step, look_step, part_step};
use crate::wired::Wired;
use a429_word::laws::word_is_determined;
use a429_word::{Label, Word};
use atomic_table::Badge;
use std::alloc::Global;
use std::marker::Model;
use std::mem::replace;
use std::sync::Arc;

/// Loads the current values of a station for one group.
#[derive(Drop)]
pub struct Transmitter {
    pub(crate) wired: Arc<Wired, Global>,
    pub(crate) seat: HubSeat,
    pub(crate) number: usize,
}

impl Model for Transmitter {
    ghost use Rattle.std.specs.Arc.{arc_value};
    ghost use Rattle.a429_values.specs.Ends.{TransmitterEnd, IsSending};
    ghost use Rattle.a429_values.specs.Seats.{IsSeatOf};
    ghost use Rattle.a429_values.specs.Wires.{place_of};

    ghost Value = { TransmitterEnd };

    ghost view = { λ t. record { at = place_of (arc_value t.wired); number = t.number; loads = t.seat.me.0.loads } };

    ghost invariant = { λ t. IsSeatOf (place_of (arc_value t.wired)).hub t.seat × IsSending (place_of (arc_value t.wired)) t.number t.seat.me.0 };
}

/// What a number of the table says of a source whose words have this label: how many words it accepted and
/// the last of them, or none.
fn word_in(label: Label, number: u64) -> Option<(u64, Word)>
    ensures { (s : ℕ) (l : Load) → Tells s label number l → l ≡ load_of s result }
{
    word_is_determined();
    let count = number / ONE;
    if count == 0 {
        None
    } else {
        let bits = (number % ONE) as u32;
        Some((count, Word::of_label(label, bits)))
    }
}

/// Loads each source of the receiver that the seat is too.
fn load_all(wired: &Wired, seat: &mut HubSeat, number: usize)
    requires seat { IsSeatOf wired.now.shared_words.shared.table_id seat.old }
    requires view { (seat.old.me.0.transmits ≡ true) × (seat.old.me.0.receives ≡ true) × (seat.old.me.0.station ≡ wired.now.equipment) }
    requires number { seat.old.me.0.number ≡ number }
    ensures seat { Stays seat.old seat.new }
    ensures view { seat.new.me.0 ≡ with_loads_of seat.old.me.0 wired.now.equipment number }
    ensures agrees { AgreesToTheEnd wired.now.equipment number seat.old.me.0.accepted seat.new.me.0.loads }
{
    look_step(&wired.shared_words, seat);
    let sources = wired.equipment.sources();
    for source in 0..sources.len() {
        if sources[source].receiver == number {
            load_step(&wired.shared_words, seat, source);
        }
    }
}

impl Transmitter {
    /// The number of its group.
    pub fn number(&self) -> usize
        ensures { result ≡ self.now.number }
    {
        self.number
    }

    /// How many sources the station has.
    pub fn sources(&self) -> usize
        ensures { result ≡ length self.now.at.station.sources }
    {
        self.wired.equipment.sources().len()
    }

    /// The accepted word that one load of the source finds, with its number among the source's accepted words, counted
    /// from 1; `None` if it finds none. That number is at least that of any earlier load of the source by this
    /// transmitter. No clause promises that it is the last accepted word before a `meet` with the receiver; up to then
    /// this is only tested. The call allocates no memory and waits for nobody.
    pub fn load_numbered(&mut self, source: usize) -> Option<(u64, Word)>
        requires { source < length self.old.at.station.sources }
        ensures load { self.new ≡ with_loads self.old (load_of source result ∷ []) }
        ensures no_less { CountsNoLess self.old.loads (load_of source result) }
    {
        let Transmitter { wired, seat, .. } = self;
        let label = wired.equipment.sources()[source].label;
        word_in(label, load_step(&wired.shared_words, seat, source))
    }

    /// The word that one load of the source finds, like `load_numbered`; `None` if it finds no accepted word. It was
    /// accepted no earlier than that of any earlier load of the source by this transmitter. The call allocates no memory
    /// and waits for nobody.
    pub fn load(&mut self, source: usize) -> Option<Word>
        requires { source < length self.old.at.station.sources }
        ensures load { (count : ℕ) × (self.new ≡ with_loads self.old (record { source = source; count = count; word = result } ∷ [])) }
        ensures no_less { (l : Load) → self.new ≡ with_loads self.old (l ∷ []) → CountsNoLess self.old.loads l }
    {
        self.load_numbered(source).map(|found| found.1)
    }

    /// Takes in what the receiver accepted: it loads each of its sources. From then on the loads agree with
    /// what the receiver accepted, up to all of it. This allocates no memory and waits for nobody.
    pub fn meet(&mut self, other: &mut Receiver)
        requires { other.old.at ≡ self.old.at }
        ensures receiver { other.new ≡ other.old }
        ensures loads { self.new ≡ with_loads self.old (loads_of_all self.old.at.station other.old.number other.old.accepted) }
        ensures agrees { AgreesToTheEnd self.old.at.station other.old.number other.old.accepted self.new.loads }
        ensures later { StaysWhole self.old.at.station other.old.number other.old.accepted self.new.loads }
        ensures others { OthersStayAgreed self.old.at.station other.old.number self.old.loads self.new.loads }
    {
        let Transmitter { wired, seat, .. } = self;
        let Receiver { badge, number, .. } = other;
        join_step(
            &wired.shared_words,
            seat,
            replace(badge, Badge::blank()).into_seat(),
        );
        load_all(wired, seat, *number);
        *badge = part_step(&wired.shared_words, seat).into_badge();
    }
}
