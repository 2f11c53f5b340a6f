//! What runs on the calling thread at the same time as the workers of a station.
ghost use Rattle.a429_station.specs.Resubmitting.{GoesOn, Running};
ghost use Rattle.std.specs.Prelude.{⊤, OnOk};

use crate::station::Station;
use crate::threads::Meanwhile;
use std::alloc::AllocError;
use std::sync::Wait;

/// Runs once on the calling thread while the workers of a station run, and may publish plans for it.
pub trait Control<R: Wait> {
    /// What it says of a run in which no allocation failed: whether it and the station can so change. By default it
    /// says nothing.
    ghost did: { Self → Running → Running → Self → Type 0 } = { λ _ _ _ _. ⊤ };

    /// Resubmits tables. Error: an allocation failed.
    fn run(&mut self, station: &mut Station<'_, R>) -> Result<(), AllocError>
        ensures station { GoesOn station.old station.new }
        ensures did { OnOk result (did self.old station.old station.new self.new) };
}

/// Publishes nothing.
#[derive(Clone, Copy, PartialEq, Eq)]
pub struct NoControl;

impl<R: Wait> Control<R> for NoControl {
    ghost use Rattle.std.specs.Prelude.{◌≡◌};

    ghost did = { λ _ old new _. new ≡ old };

    fn run(&mut self, _station: &mut Station<'_, R>) -> Result<(), AllocError> {
        Ok(())
    }
}

impl<'a, R: Wait, K: Control<R>> Meanwhile<Station<'a, R>> for K {
    ghost use Rattle.std.specs.Prelude.{IsTrue};
    ghost use Rattle.a429_station.specs.Resubmitting.{GoesOn};

    ghost did = { λ before old new after well. GoesOn old new × (IsTrue well → K.did before old new after) };

    fn meanwhile(&mut self, station: &mut Station<'a, R>) -> Result<(), AllocError> {
        self.run(station)
    }
}
