//! The desk, which gives the ends of a hub out.
ghost use Rattle.std.specs.Prelude.{◌≡◌, ◌==◌, ◌++◌, ◌∷◌, [], ◌<◌, ◌-◌, ◌^◌, ◌↔◌, length, replicate, true, IfOk, OnErr, IsErrOf, IsTrue};
ghost use Rattle.std.specs.Arc.{arc_value};
ghost use Rattle.std.specs.List.{list_any};
ghost use Rattle.a429_values.specs.Seats.{IsSeatOf, SitsAt, Stays};
ghost use Rattle.a429_values.specs.Views.{CanDeal, CanDealTransmitter, Deals, DealsTransmitter};

use crate::hub::Hub;
use crate::receiver::Receiver;
use crate::shared_words::{Chosen, HubSeat, SharedWords};
use crate::steps::{receiver_step, transmitter_step};
use crate::transmitter::Transmitter;
use crate::wired::{Wired, zeros};
use std::alloc::{AllocError, Global};
use std::marker::{Brand, Model};
use std::sync::Arc;
use thiserror::Error;

/// Gives out the receivers and transmitters of one hub, each number once.
#[derive(Drop)]
pub struct Desk {
    seat: HubSeat,
    receivers: Vec<usize>,
    transmitters: Vec<usize>,
}

impl Model for Desk {
    ghost use Rattle.std.specs.Prelude.{◌≡◌};
    ghost use Rattle.a429_values.specs.Ends.{Dealing, IsDealing};
    ghost use Rattle.a429_values.specs.Seats.{IsSeatOf};

    ghost Value = { Dealing };

    ghost view = { λ d. record {
      at = record { hub = d.seat.table_id; station = d.seat.me.0.station };
      receivers = d.receivers.items;
      transmitters = d.transmitters.items;
    } };

    ghost invariant = { λ d. IsSeatOf d.seat.table_id d.seat × IsDealing d.seat.me.0 d.receivers.items d.transmitters.items };
}

/// Why a receiver or a transmitter is not given out.
#[derive(Clone, Copy, Debug, PartialEq, Eq, Error)]
pub enum HubFault {
    /// Its number was given out before.
    #[error("already taken")]
    AlreadyTaken,
    /// An allocation failed. The number was not given out.
    #[error("out of memory")]
    NoMemory,
}

impl From<AllocError> for HubFault {
    ghost use Rattle.std.specs.Prelude.{◌≡◌};
    ghost use Rattle.a429_values.specs.declared.desk.HubFault.TheVariants as fault;

    ghost from_gives = { λ _ e. e ≡ fault.NoMemory };

    fn from(_error: AllocError) -> HubFault {
        HubFault::NoMemory
    }
}

/// What a receiver has in addition to its seat.
#[derive(Drop)]
struct ReceiverParts {
    wired: Arc<Wired, Global>,
    counts: Vec<u64>,
}

impl ReceiverParts {
    /// Those of a receiver that has accepted nothing.
    fn of(alloc: Global, wired: &Arc<Wired, Global>) -> Result<ReceiverParts, AllocError>
        ensures wired { IfOk result (λ parts. arc_value parts.wired ≡ arc_value wired.now) }
        ensures many { IfOk result (λ parts. length parts.counts.items ≡ length (arc_value wired.now).equipment.sources) }
        ensures counts { IfOk result (λ parts. parts.counts.items ≡ replicate (length (arc_value wired.now).equipment.sources) 0) }
    {
        let counts = zeros(alloc, wired.equipment.sources().len())?;
        let wired = Arc::try_clone(wired)?;
        Ok(ReceiverParts { wired, counts })
    }
}

impl Desk {
    /// The desk with this seat, which has given nothing out.
    pub(crate) fn of_seat(alloc: Global, seat: HubSeat) -> Desk
        requires seat { IsSeatOf seat.table_id seat }
        requires view { (seat.me.0.deals ≡ true) × (seat.me.0.given ≡ []) × (seat.me.0.sent ≡ []) }
        ensures { result ≡ record { at = record { hub = seat.table_id; station = seat.me.0.station }; receivers = []; transmitters = [] } }
    {
        Desk {
            seat,
            receivers: Vec::new(alloc),
            transmitters: Vec::new(alloc),
        }
    }

    /// Gives out the receiver of this number, which has accepted nothing yet. Errors: `AlreadyTaken` if and only if it
    /// was given out before; `NoMemory` if an allocation failed, or if the hub counts no further owner. Then nothing
    /// changes.
    pub fn receiver<const S: usize, const C: u32>(
        &mut self,
        alloc: Global,
        hub: &Hub<S, C>,
        number: usize,
    ) -> Result<Receiver, HubFault>
        requires hub { self.old.at ≡ hub.now }
        requires number { number < length hub.now.station.receivers }
        ensures receiver { IfOk result (λ r. r ≡ record { at = hub.now; number = number; limit = 2 ^ C - 1; accepted = [] }) }
        ensures given { IfOk result (λ _. self.new ≡ record self.old { receivers = self.old.receivers ++ number ∷ [] }) }
        ensures taken { IsErrOf result HubFault.AlreadyTaken ↔ IsTrue (list_any (λ y. y == number) self.old.receivers) }
        ensures refused { OnErr result (self.new ≡ self.old) }
    {
        let Desk {
            seat,
            receivers,
            ..
        } = self;
        if receivers.as_slice().contains(&number) {
            return Err(HubFault::AlreadyTaken);
        }
        let parts = ReceiverParts::of(alloc, &hub.wired)?;
        if receivers.push(number).is_err() {
            return Err(HubFault::NoMemory);
        }
        let ReceiverParts { wired, counts } = parts;
        let badge = cut_receiver(&wired.shared_words, seat, number).into_badge();
        Ok(Receiver {
            wired,
            badge,
            number,
            limit: (1u64 << C) - 1,
            counts,
        })
    }

    /// Gives out the transmitter of this group, which has loaded nothing yet. Errors: `AlreadyTaken` if and only if it
    /// was given out before; `NoMemory` if an allocation failed, or if the hub counts no further owner. Then nothing
    /// changes.
    pub fn transmitter<const S: usize, const C: u32>(
        &mut self,
        hub: &Hub<S, C>,
        number: usize,
    ) -> Result<Transmitter, HubFault>
        requires hub { self.old.at ≡ hub.now }
        requires number { number < length hub.now.station.groups }
        ensures transmitter { IfOk result (λ t. t ≡ record { at = hub.now; number = number; loads = [] }) }
        ensures given { IfOk result (λ _. self.new ≡ record self.old { transmitters = self.old.transmitters ++ number ∷ [] }) }
        ensures taken { IsErrOf result HubFault.AlreadyTaken ↔ IsTrue (list_any (λ y. y == number) self.old.transmitters) }
        ensures refused { OnErr result (self.new ≡ self.old) }
    {
        let Desk {
            seat,
            transmitters,
            ..
        } = self;
        if transmitters.as_slice().contains(&number) {
            return Err(HubFault::AlreadyTaken);
        }
        let wired = Arc::try_clone(&hub.wired)?;
        if transmitters.push(number).is_err() {
            return Err(HubFault::NoMemory);
        }
        let seat = cut_transmitter(&wired.shared_words, seat, number);
        Ok(Transmitter {
            wired,
            seat,
            number,
        })
    }
}

fn cut_receiver_as<N: Chosen>(
    shared_words: &SharedWords,
    seat: &mut HubSeat,
    number: usize,
) -> HubSeat
    requires number { number ≡ N.number }
    requires seat { SitsAt shared_words.now.shared.table_id seat.old }
    requires view { CanDeal seat.old.me.0 number }
    ensures seat { Stays seat.old seat.new × Stays seat.old result }
    ensures view { Deals seat.old.me.0 number seat.new.me.0 result.me.0 }
{
    receiver_step::<N>(shared_words, seat)
}

fn cut_receiver(shared_words: &SharedWords, seat: &mut HubSeat, number: usize) -> HubSeat
    requires seat { SitsAt shared_words.now.shared.table_id seat.old }
    requires view { CanDeal seat.old.me.0 number }
    ensures seat { Stays seat.old seat.new × Stays seat.old result }
    ensures view { Deals seat.old.me.0 number seat.new.me.0 result.me.0 }
{
    cut_receiver_as::<Brand>(shared_words, seat, number)
}

fn cut_transmitter_as<N: Chosen>(
    shared_words: &SharedWords,
    seat: &mut HubSeat,
    number: usize,
) -> HubSeat
    requires number { number ≡ N.number }
    requires seat { SitsAt shared_words.now.shared.table_id seat.old }
    requires view { CanDealTransmitter seat.old.me.0 number }
    ensures seat { Stays seat.old seat.new × Stays seat.old result }
    ensures view { DealsTransmitter seat.old.me.0 number seat.new.me.0 result.me.0 }
{
    transmitter_step::<N>(shared_words, seat)
}

fn cut_transmitter(shared_words: &SharedWords, seat: &mut HubSeat, number: usize) -> HubSeat
    requires seat { SitsAt shared_words.now.shared.table_id seat.old }
    requires view { CanDealTransmitter seat.old.me.0 number }
    ensures seat { Stays seat.old seat.new × Stays seat.old result }
    ensures view { DealsTransmitter seat.old.me.0 number seat.new.me.0 result.me.0 }
{
    cut_transmitter_as::<Brand>(shared_words, seat, number)
}
