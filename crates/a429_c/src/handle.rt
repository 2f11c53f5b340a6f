//! A station in memory of its own, or none, as a program in C holds it.
ghost use Rattle.std.specs.Prelude.{◌≡◌, None, Some, option_map};
ghost use Rattle.std.specs.declared.option.Option.{Option as Maybe};
ghost use Rattle.a429_c.specs.Stations.{Held};
ghost use Rattle.a429_c.specs.contracts.machine.Machine.{the_row as machine_row};
ghost use Rattle.a429_c.specs.Held.{held_at};

use crate::machine::Machine;
use crate::pointers::BoxOrNull;
use std::alloc::Global;
use std::marker::Model;
use std::mem::replace;

/// The pointer to a station's memory, or null.
#[repr(C)]
pub struct Handle {
    at: *mut (),
    pub(crate) ghost held: { Maybe Held },
}

impl Model for Handle {
    ghost also_owns = { λ h. held_at machine_row h.at h.held };
}

impl Handle {
    /// A handle for C.
    pub(crate) fn of(station: BoxOrNull<Machine>) -> Handle
        ensures { result.held ≡ station.held }
    {
        let BoxOrNull { at } = station;
        Handle { at: at as *mut () }
    }

    /// What a handle holds.
    pub(crate) fn into_station(self) -> BoxOrNull<Machine>
        ensures { result.held ≡ self.held }
    {
        let Handle { at } = self;
        BoxOrNull {
            at: at as *mut Machine,
        }
    }

    /// Takes out the station that is held. `None` if none is held.
    pub(crate) fn take(&mut self, alloc: Global) -> Option<Box<Machine>>
        ensures taken { option_map (λ b. b.value) result ≡ self.old.held }
        ensures left { self.new.held ≡ None }
    {
        replace(self, Handle::of(BoxOrNull::null()))
            .into_station()
            .into_box(alloc)
    }

    /// Holds this station from now on. The one that was held before is gone.
    pub(crate) fn put(&mut self, alloc: Global, machine: Box<Machine>)
        ensures { self.new.held ≡ Some machine.value }
    {
        let before = replace(self, Handle::of(BoxOrNull::of(machine)));
        let _gone = before.into_station().into_box(alloc);
    }
}

unsafe impl Send for Handle {}
