//! The steps of the table, each one atomic step of a seat.
ghost use Rattle.std.specs.Prelude.{◌≡◌, ◌<◌, ◌^◌, true};
ghost use Rattle.a429_word.specs.Bits.{number_from};
ghost use Rattle.a429_equipment.specs.Agreement.{Agrees};
ghost use Rattle.a429_equipment.specs.Receiving.{IsAccepted};
ghost use Rattle.a429_values.specs.Views.{with_accepted, both_of, transmitting, receiving, HasFound, CanDeal, CanDealTransmitter, CanMeet, Deals, DealsTransmitter, ReceivesFor, IsNextCount};
ghost use Rattle.a429_values.specs.Seats.{HasWordOf, IsSeatOf, SitsAt, Stays};

use crate::shared_words::{
    Accepts, Chosen, HubSeat, Loads, Looks, Meets, NewReceiver, NewTransmitter, SharedWords,
};

/// What one more word adds to the number of a source: the count is above the 23 bits of the last word.
pub const ONE: u64 = 1 << 23;

/// The one store of an accepted word, whose count and bits 9 to 31 are given.
pub fn accept_step<N: Chosen>(
    shared_words: &SharedWords,
    seat: &mut HubSeat,
    source: usize,
    count: u64,
    bits: u32,
)
    requires seat { IsSeatOf shared_words.now.shared.table_id seat.old }
    requires source { HasWordOf shared_words.now.shared.table_id shared_words.now.shared.key.value source }
    requires view { ReceivesFor seat.old.me.0 shared_words.now.shared.key.value }
    requires word { IsAccepted shared_words.now.shared.key.value seat.old.me.0.number (source, N.number) }
    requires bits { bits ≡ number_from 9 23 N.number }
    requires small { bits < 2 ^ 23 }
    requires count { IsNextCount seat.old.me.0 source count }
    ensures seat { Stays seat.old seat.new }
    ensures view { seat.new.me.0 ≡ with_accepted seat.old.me.0 (source, N.number) }
{
    shared_words
        .shared
        .store::<Accepts<N>>(seat, source, count * ONE + u64::from(bits));
}

/// The one load of a source's word.
pub fn load_step(shared_words: &SharedWords, seat: &mut HubSeat, source: usize) -> u64
    requires seat { IsSeatOf shared_words.now.shared.table_id seat.old }
    requires source { HasWordOf shared_words.now.shared.table_id shared_words.now.shared.key.value source }
    requires view { (seat.old.me.0.transmits ≡ true) × (seat.old.me.0.station ≡ shared_words.now.shared.key.value) }
    ensures seat { Stays seat.old seat.new }
    ensures found { HasFound seat.old.me.0 source result seat.new.me.0 }
{
    shared_words.shared.load::<Loads>(seat, source)
}

/// A load that shows the seat that its own lists agree.
pub fn look_step(shared_words: &SharedWords, seat: &mut HubSeat)
    requires seat { SitsAt shared_words.now.shared.table_id seat.old }
    requires view { (seat.old.me.0.receives ≡ true) × (seat.old.me.0.transmits ≡ true) }
    ensures seat { Stays seat.old seat.new }
    ensures view { seat.new.me.0 ≡ seat.old.me.0 }
    ensures agrees { Agrees seat.old.me.0.station seat.old.me.0.number seat.old.me.0.accepted seat.old.me.0.loads }
{
    shared_words.shared.load::<Looks>(seat, 0);
}

/// Cuts off the receiver of this number, which was not given out.
pub fn receiver_step<N: Chosen>(shared_words: &SharedWords, seat: &mut HubSeat) -> HubSeat
    requires seat { SitsAt shared_words.now.shared.table_id seat.old }
    requires view { CanDeal seat.old.me.0 N.number }
    ensures seat { Stays seat.old seat.new × Stays seat.old result }
    ensures view { Deals seat.old.me.0 N.number seat.new.me.0 result.me.0 }
{
    shared_words.shared.split_seat::<NewReceiver<N>>(seat)
}

/// Cuts off the transmitter of this number, which was not given out.
pub fn transmitter_step<N: Chosen>(shared_words: &SharedWords, seat: &mut HubSeat) -> HubSeat
    requires seat { SitsAt shared_words.now.shared.table_id seat.old }
    requires view { CanDealTransmitter seat.old.me.0 N.number }
    ensures seat { Stays seat.old seat.new × Stays seat.old result }
    ensures view { DealsTransmitter seat.old.me.0 N.number seat.new.me.0 result.me.0 }
{
    shared_words.shared.split_seat::<NewTransmitter<N>>(seat)
}

/// The transmitter's seat takes in the receiver's.
pub fn join_step(shared_words: &SharedWords, seat: &mut HubSeat, other: HubSeat)
    requires seat { SitsAt shared_words.now.shared.table_id seat.old }
    requires other { IsSeatOf shared_words.now.shared.table_id other }
    requires view { CanMeet seat.old.me.0 other.me.0 }
    ensures seat { Stays seat.old seat.new }
    ensures view { seat.new.me.0 ≡ both_of seat.old.me.0 other.me.0 }
{
    shared_words.shared.join_seat::<Meets>(seat, other);
}

/// A joined seat gives the receiver's part back.
pub fn part_step(shared_words: &SharedWords, seat: &mut HubSeat) -> HubSeat
    requires seat { SitsAt shared_words.now.shared.table_id seat.old }
    requires view { seat.old.me.0.receives ≡ true }
    ensures seat { Stays seat.old seat.new × Stays seat.old result }
    ensures view { (seat.new.me.0 ≡ transmitting seat.old.me.0) × (result.me.0 ≡ receiving seat.old.me.0) }
{
    shared_words.shared.split_seat::<Meets>(seat)
}
