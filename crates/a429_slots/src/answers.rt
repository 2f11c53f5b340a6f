//! What events of a station are answered.

use a429_equipment::ArrivalRefusal;
use a429_word::Word;
use thiserror::Error;

/// Why an event changed nothing.
#[derive(Clone, Copy, Debug, PartialEq, Eq, Error)]
pub enum Refusal {
    /// The station has no receiver or group of this number.
    #[error("no such receiver or group")]
    NoSuch,
    /// An even number of the word's bits are ones.
    #[error("even parity")]
    Parity,
    /// The word's label passes no filter of the receiver.
    #[error("filtered")]
    Filtered,
    /// No source of the receiver has the word's label and SDI.
    #[error("no source")]
    NoSource,
    /// No more can be counted: accepted words of the source, or published plans.
    #[error("count spent")]
    CountSpent,
    /// All cells of the frame were sent.
    #[error("frame end")]
    FrameEnd,
    /// Not all cells of the frame were sent.
    #[error("mid frame")]
    MidFrame,
    /// The slots of the next frame cannot be counted in 64 bits.
    #[error("slots spent")]
    SlotsSpent,
    /// The proposal is for another station.
    #[error("station differs")]
    StationDiffers,
}

impl From<ArrivalRefusal> for Refusal {
    ghost use Rattle.std.specs.Prelude.{◌≡◌};
    ghost use Rattle.a429_slots.specs.Answers.{refusal_of};

    ghost from_gives = { λ refusal e. e ≡ refusal_of refusal };

    fn from(refusal: ArrivalRefusal) -> Refusal {
        match refusal {
            ArrivalRefusal::Parity => Refusal::Parity,
            ArrivalRefusal::Filtered => Refusal::Filtered,
            ArrivalRefusal::NoSource => Refusal::NoSource,
        }
    }
}

/// What an event is answered.
#[derive(Clone, Copy, PartialEq, Eq)]
pub enum Answer {
    /// The word was kept for the source of this number.
    Accepted {
        source: usize,
    },
    /// The cell on this bus, in this slot counted from the station's first, and the word that was sent in it, if any.
    Sent {
        bus: u32,
        slot: u64,
        word: Option<Word>,
    },
    /// The plan of this number is in force for the group.
    Changed {
        plan: u64,
    },
    /// The proposal has this number.
    Published {
        plan: u64,
    },
    /// Nothing changed.
    Refused(Refusal),
}
