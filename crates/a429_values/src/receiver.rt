//! A receiver's end of a hub.
ghost use Rattle.std.specs.Prelude.{◌≡◌, ◌∷◌, []};
ghost use Rattle.a429_equipment.specs.Receiving.{accepted_after, AreAccepted, IsAccepted, IsReceived};
ghost use Rattle.a429_values.specs.Ends.{accept_answer, with_answer};
ghost use Rattle.a429_values.specs.Seats.{HasWordOf, IsSeatOf, Stays};
ghost use Rattle.a429_values.specs.Views.{with_accepted, ReceivesFor, IsNextCount};

use crate::shared_words::{Chosen, HubSeat, SharedWords};
use crate::steps::accept_step;
use crate::view::View;
use crate::wired::Wired;
use a429_equipment::ArrivalRefusal;
use a429_equipment::laws::sorted_words_are_accepted;
use a429_word::Word;
use atomic_table::Badge;
use std::alloc::Global;
use std::marker::{Brand, Model};
use std::mem::replace;
use std::sync::Arc;

/// What a receiver answers to a raw word.
#[derive(Clone, Copy, PartialEq, Eq)]
pub enum Accept {
    /// The word was kept for the source of this number.
    Accepted(usize),
    /// An even number of its bits are ones.
    Parity,
    /// Its label passes no filter of the receiver.
    Filtered,
    /// No source of the receiver has its label and SDI.
    NoSource,
    /// The source has accepted as many words as can be counted.
    CountSpent,
}

impl From<ArrivalRefusal> for Accept {
    ghost use Rattle.std.specs.Prelude.{◌≡◌};
    ghost use Rattle.a429_values.specs.Ends.{refusal_of};

    ghost from_gives = { λ refusal a. a ≡ refusal_of refusal };

    fn from(refusal: ArrivalRefusal) -> Accept {
        match refusal {
            ArrivalRefusal::Parity => Accept::Parity,
            ArrivalRefusal::Filtered => Accept::Filtered,
            ArrivalRefusal::NoSource => Accept::NoSource,
        }
    }
}

/// Accepts the words of one line for the sources of its receiver.
#[derive(Drop)]
pub struct Receiver {
    pub(crate) wired: Arc<Wired, Global>,
    pub(crate) badge: Badge<View>,
    pub(crate) number: usize,
    pub(crate) limit: u64,
    /// Of each source, how many words this receiver accepted.
    pub(crate) counts: Vec<u64>,
}

impl Model for Receiver {
    ghost use Rattle.std.specs.Arc.{arc_value};
    ghost use Rattle.a429_values.specs.Ends.{ReceiverEnd, IsReceiving, view_in};
    ghost use Rattle.a429_values.specs.Wires.{place_of};

    ghost Value = { ReceiverEnd };

    ghost view = { λ r. record {
      at = place_of (arc_value r.wired);
      number = r.number;
      limit = r.limit;
      accepted = (view_in r.badge.views).accepted;
    } };

    ghost invariant = { λ r. IsReceiving (place_of (arc_value r.wired)) r.number r.limit r.counts.items r.badge.table_id r.badge.views };
}

fn store_as<N: Chosen>(
    shared_words: &SharedWords,
    seat: &mut HubSeat,
    source: usize,
    count: u64,
    word: Word,
)
    requires number { word ≡ N.number }
    requires seat { IsSeatOf shared_words.now.shared.table_id seat.old }
    requires source { HasWordOf shared_words.now.shared.table_id shared_words.now.shared.key.value source }
    requires view { ReceivesFor seat.old.me.0 shared_words.now.shared.key.value }
    requires word { IsAccepted shared_words.now.shared.key.value seat.old.me.0.number (source, word) }
    requires count { IsNextCount seat.old.me.0 source count }
    ensures seat { Stays seat.old seat.new }
    ensures view { seat.new.me.0 ≡ with_accepted seat.old.me.0 (source, word) }
{
    accept_step::<N>(shared_words, seat, source, count, word.above_label());
}

/// Stores an accepted word, the source's `count`th, by one step.
fn store(shared_words: &SharedWords, seat: &mut HubSeat, source: usize, count: u64, word: Word)
    requires seat { IsSeatOf shared_words.now.shared.table_id seat.old }
    requires source { HasWordOf shared_words.now.shared.table_id shared_words.now.shared.key.value source }
    requires view { ReceivesFor seat.old.me.0 shared_words.now.shared.key.value }
    requires word { IsAccepted shared_words.now.shared.key.value seat.old.me.0.number (source, word) }
    requires count { IsNextCount seat.old.me.0 source count }
    ensures seat { Stays seat.old seat.new }
    ensures view { seat.new.me.0 ≡ with_accepted seat.old.me.0 (source, word) }
{
    store_as::<Brand>(shared_words, seat, source, count, word);
}

impl Receiver {
    /// The number of the receiver. Each word of its list is of 32 bits and one that its source accepts, and of the words
    /// of the list it accepts all: no source has more of them than the limit.
    pub fn number(&self) -> usize
        ensures number { result ≡ self.now.number }
        ensures valid { AreAccepted self.now.at.station self.now.number self.now.accepted }
        ensures received { IsReceived self.now.limit self.now.at.station self.now.number self.now.accepted }
    {
        self.number
    }

    /// Takes a raw word that came in. If one of `Parity`, `Filtered`, `NoSource` and `CountSpent` is the case, the
    /// first such is the answer, and nothing changes. Otherwise the word is accepted, by one store. The call allocates
    /// no memory and waits for nobody.
    pub fn accept(&mut self, raw: u32) -> Accept
        ensures answer { result ≡ accept_answer self.old raw }
        ensures appended { self.new ≡ record self.old { accepted = with_answer self.old.accepted raw result } }
        ensures after { self.new.accepted ≡ accepted_after self.old.limit self.old.at.station self.old.number self.old.accepted (raw ∷ []) }
    {
        let Receiver {
            wired,
            badge,
            number,
            limit,
            counts,
        } = self;
        let (source, word) = match wired.equipment.source_for(*number, raw) {
            Ok(found) => found,
            Err(refusal) => return Accept::from(refusal),
        };
        sorted_words_are_accepted();
        let count = counts[source];
        if count >= *limit {
            return Accept::CountSpent;
        }
        let mut seat = replace(badge, Badge::blank()).into_seat();
        store(&wired.shared_words, &mut seat, source, count + 1, word);
        *badge = seat.into_badge();
        counts[source] = count + 1;
        Accept::Accepted(source)
    }
}
