//! Events of a script as they are kept between reading and play.
ghost use Rattle.std.specs.Prelude.{◌≡◌};
ghost use Rattle.a429_replay.specs.declared.script.ScriptEvent.TheVariants.{Arrive, Cell, Frame};
ghost use Rattle.a429_replay.specs.Kept.{IsShortEvent, event_of, raw_of};

use crate::script::ScriptEvent;

/// What an event of a script is.
#[derive(Clone, Copy)]
#[repr(u8)]
enum Verb {
    Arrive,
    Cell,
    Frame,
    Publish,
}

/// An event in six bytes. A line of a script has seven bytes or more, so what is kept of the largest script, of 16 MiB,
/// takes less than 14 MiB.
#[derive(Clone, Copy)]
pub struct KeptEvent {
    verb: Verb,
    place: u8,
    low: u16,
    high: u16,
}

impl KeptEvent {
    /// An event with a raw word, or with what is left of a larger number.
    fn with(verb: Verb, place: u8, raw: u32) -> KeptEvent
        ensures verb { result.verb ≡ verb }
        ensures place { result.place ≡ place }
        ensures raw { raw_of result ≡ raw }
    {
        KeptEvent {
            verb,
            place,
            low: (raw % 65536) as u16,
            high: (raw / 65536) as u16,
        }
    }

    /// An arrival as it is kept.
    #[inline(always)]
    pub fn arrive(receiver: u8, raw: u32) -> KeptEvent
        ensures { event_of result ≡ Arrive receiver raw }
    {
        KeptEvent::with(Verb::Arrive, receiver, raw)
    }

    /// A cell as it is kept.
    #[inline(always)]
    pub fn cell(group: u8) -> KeptEvent
        ensures { event_of result ≡ Cell group }
    {
        KeptEvent {
            verb: Verb::Cell,
            place: group,
            low: 0,
            high: 0,
        }
    }

    /// A frame as it is kept.
    #[inline(always)]
    pub fn frame(group: u8) -> KeptEvent
        ensures { event_of result ≡ Frame group }
    {
        KeptEvent {
            verb: Verb::Frame,
            place: group,
            low: 0,
            high: 0,
        }
    }

    /// Keeps an event.
    pub fn of(event: ScriptEvent) -> KeptEvent
        requires { IsShortEvent event }
        ensures { event_of result ≡ event }
    {
        match event {
            ScriptEvent::Arrive(receiver, raw) => KeptEvent::arrive(receiver, raw),
            ScriptEvent::Cell(group) => KeptEvent::cell(group),
            ScriptEvent::Frame(group) => KeptEvent::frame(group),
            ScriptEvent::Publish(number) => {
                KeptEvent::with(Verb::Publish, (number % 256) as u8, (number / 256) as u32)
            }
        }
    }

    /// The raw word that is kept.
    fn raw(self) -> u32
        ensures { result ≡ raw_of self }
    {
        u32::from(self.low) + 65536 * u32::from(self.high)
    }

    /// The event that was kept.
    #[inline(always)]
    pub fn event(self) -> ScriptEvent
        ensures { result ≡ event_of self }
    {
        match self.verb {
            Verb::Arrive => ScriptEvent::Arrive(self.place, self.raw()),
            Verb::Cell => ScriptEvent::Cell(self.place),
            Verb::Frame => ScriptEvent::Frame(self.place),
            Verb::Publish => {
                ScriptEvent::Publish(usize::from(self.place) + 256 * self.raw() as usize)
            }
        }
    }
}
