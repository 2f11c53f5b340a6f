//! The table under its rule, and what each of its steps finds.
use crate::view::View;
use a429_equipment::Equipment;
use atomic_table::{Join, Play, Seat, Split, Table, TableRule};
use std::alloc::Global;
use std::marker::{Brand, PhantomData};
use std::snapshot::Snapshot;

/// Each word has the count and bits 9 to 31 of the last accepted word of its source.
pub struct Latest;

impl TableRule<(), View, Snapshot<Equipment>> for Latest {
    ghost use Rattle.a429_values.specs.Rule.{KeepsRule};
    ghost use Rattle.a429_values.specs.Views.{desk};

    ghost holds = { λ key s. KeepsRule key.value s.words s.views };

    ghost first = { λ key. desk key.value };
}

pub type SharedWords = Table<(), View, Snapshot<Equipment>, Latest, Global>;

pub type HubSeat = Seat<(), View>;

/// A number that is chosen when a step is made.
pub trait Chosen {
    ghost use Rattle.std.specs.Prelude.{ℕ};

    ghost number: { ℕ };
}

impl Chosen for Brand {
    ghost number = { 0 };
}

/// The store of an accepted word.
pub struct Accepts<N> {
    of: PhantomData<N>,
}

impl<N: Chosen> Play<(), View> for Accepts<N> {
    ghost use Rattle.std.specs.Prelude.{◌≡◌};
    ghost use Rattle.a429_values.specs.Views.{with_accepted};

    ghost then = { λ s v n w. (w.0 ≡ with_accepted v.0 (s.word, N.number)) × (w.1 ≡ v.1) };
}

/// The load of a source's word.
pub struct Loads;

impl Play<(), View> for Loads {
    ghost use Rattle.a429_values.specs.Views.{found_by};

    ghost then = { found_by };
}

/// A load that changes nothing. It shows to its seat that the seat's lists agree.
pub struct Looks;

impl Play<(), View> for Looks {
    ghost use Rattle.a429_values.specs.Views.{seen};

    ghost then = { seen };
}

/// The desk gives out the receiver of a number.
pub struct NewReceiver<N> {
    of: PhantomData<N>,
}

impl<N: Chosen> Split<View> for NewReceiver<N> {
    ghost use Rattle.a429_values.specs.Views.{dealt, receiver};

    ghost left = { λ v. dealt v N.number };

    ghost right = { λ v. receiver v.station N.number };
}

/// The desk gives out the transmitter of a number.
pub struct NewTransmitter<N> {
    of: PhantomData<N>,
}

impl<N: Chosen> Split<View> for NewTransmitter<N> {
    ghost use Rattle.a429_values.specs.Views.{dealt_transmitter, transmitter};

    ghost left = { λ v. dealt_transmitter v N.number };

    ghost right = { λ v. transmitter v.station N.number };
}

/// A transmitter takes in a receiver, and gives it back.
pub struct Meets;

impl Join<View> for Meets {
    ghost use Rattle.a429_values.specs.Views.{both_of, spent};

    ghost both = { both_of };

    ghost spent = { spent };
}

impl Split<View> for Meets {
    ghost use Rattle.a429_values.specs.Views.{transmitting, receiving};

    ghost left = { transmitting };

    ghost right = { receiving };
}
