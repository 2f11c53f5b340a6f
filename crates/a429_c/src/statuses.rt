//! Why a call is refused: a number for the program in C, and a text for people.
ghost use Rattle.std.specs.Prelude.{◌≡◌};
ghost use Rattle.a429_c.specs.Statuses.{code_of, line_of, status_for, table_code};

use a429_console::refusals::CommandRefusal;
use a429_core::Refusal;

/// Why a call is refused, apart from the faults of a table.
#[derive(Clone, Copy)]
pub enum Status {
    /// The station has no receiver, group, output, source or name like this.
    NoSuch,
    /// An even number of the word's bits are ones.
    Parity,
    /// The word's label passes no filter of the receiver.
    Filtered,
    /// No source of the receiver has the word's label and SDI.
    NoSource,
    /// As many words, or plans, as can be counted.
    CountSpent,
    /// All cells of the frame were sent.
    FrameEnd,
    /// Not all cells of the frame were sent.
    MidFrame,
    /// The slots of a frame cannot be counted in 64 bits.
    SlotsSpent,
    /// The table is of another station.
    StationDiffers,
    /// No station is held.
    Closed,
    /// An allocation failed.
    Memory,
    /// The table has more than 16 MiB.
    TooLarge,
    /// The text is longer than the caller's room.
    NoRoom,
    /// A field of a word has too many bits.
    Field,
}

impl Status {
    /// The number of the status in C.
    pub(crate) fn code(self) -> u32
        ensures { result ≡ code_of self }
    {
        match self {
            Status::NoSuch => 1,
            Status::Parity => 2,
            Status::Filtered => 3,
            Status::NoSource => 4,
            Status::CountSpent => 5,
            Status::FrameEnd => 6,
            Status::MidFrame => 7,
            Status::SlotsSpent => 8,
            Status::StationDiffers => 9,
            Status::Closed => 10,
            Status::Memory => 11,
            Status::TooLarge => 15,
            Status::NoRoom => 16,
            Status::Field => 17,
        }
    }

    /// The text of the status: for refusals of the machine and of memory the line that the program prints.
    pub(crate) fn line(self) -> &'static [u8]
        ensures { result.now ≡ line_of self }
    {
        match self {
            Status::NoSuch => b"refused no-such",
            Status::Parity => b"refused parity",
            Status::Filtered => b"refused filtered",
            Status::NoSource => b"refused no-source",
            Status::CountSpent => b"refused count-spent",
            Status::FrameEnd => b"refused frame-end",
            Status::MidFrame => b"refused mid-frame",
            Status::SlotsSpent => b"refused slots-spent",
            Status::StationDiffers => b"refused station-differs",
            Status::Closed => b"refused closed",
            Status::Memory => b"refused memory",
            Status::TooLarge => b"refused too-large",
            Status::NoRoom => b"refused no-room",
            Status::Field => b"refused field",
        }
    }
}

/// The status of a refusal of the machine.
pub(crate) fn status_for(refusal: Refusal) -> Status
    ensures { result ≡ status_for refusal }
{
    match refusal {
        Refusal::NoSuch => Status::NoSuch,
        Refusal::Parity => Status::Parity,
        Refusal::Filtered => Status::Filtered,
        Refusal::NoSource => Status::NoSource,
        Refusal::CountSpent => Status::CountSpent,
        Refusal::FrameEnd => Status::FrameEnd,
        Refusal::MidFrame => Status::MidFrame,
        Refusal::SlotsSpent => Status::SlotsSpent,
        Refusal::StationDiffers => Status::StationDiffers,
    }
}

/// The number of the status in C of a table's fault, of its plan's, or of a plan text's.
pub(crate) fn table_code(refusal: &CommandRefusal) -> u32
    ensures { result ≡ table_code refusal.now }
{
    match refusal {
        CommandRefusal::Table(_, _) => 12,
        CommandRefusal::Unfit { .. } => 13,
        CommandRefusal::TooManyBuses { .. } => 14,
        CommandRefusal::PlanLine { .. } => 18,
        _ => 11,
    }
}
