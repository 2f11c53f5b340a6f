//! A box or nothing, as one pointer.
ghost use Rattle.std.specs.Prelude.{◌≡◌, option_map};
ghost use Rattle.std.specs.Coded.{coded_option};
ghost use Rattle.std.specs.declared.option.Option.{Option as Maybe};
ghost use Rattle.std.specs.declared.option.Option.TheVariants.{None, Some};
ghost use Rattle.a429_c.specs.Held.{held_at};

use std::alloc::Global;
use std::marker::Model;
use std::ptr::null_mut;

/// The pointer of a box, or null.
pub(crate) struct BoxOrNull<T> {
    pub(crate) at: *mut T,
    pub(crate) ghost held: { Maybe T } by { coded_option T.code },
}

impl<T> Model for BoxOrNull<T> {
    ghost also_owns = { λ b. held_at T.row b.at b.held };
}

impl<T> BoxOrNull<T> {
    /// Null.
    pub(crate) fn null() -> BoxOrNull<T>
        ensures { result.held ≡ None }
    {
        BoxOrNull { at: null_mut() }
    }

    /// The box again, or nothing.
    pub(crate) fn into_box(self, alloc: Global) -> Option<Box<T>>
        ensures { option_map (λ b. b.value) result ≡ self.held }
    {
        let BoxOrNull { at } = self;
        if at.is_null() {
            return None;
        }
        let value = unsafe { Box::from_raw(alloc, at) };
        Some(value)
    }
}

impl<T: Drop> BoxOrNull<T> {
    /// The pointer of a box.
    pub(crate) fn of(value: Box<T>) -> BoxOrNull<T>
        ensures { result.held ≡ Some value.value }
    {
        let at = Box::into_raw(value);
        BoxOrNull { at }
    }
}
