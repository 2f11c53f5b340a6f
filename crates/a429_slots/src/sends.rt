//! What a group keeps of its sends of one source.
ghost use Rattle.std.specs.Prelude.{◌≡◌, ◌≤◌, ◌+◌, ◌<◌, ◌^◌};
ghost use Rattle.a429_slots.specs.Recalling.{may_send, recent_after, never};

use crate::group_plan::SendLimits;
use std::marker::Model;

/// The word of a source that a group sent last: its number among the accepted words, how often it was sent, and
/// the slot of the last time.
#[derive(Clone, Copy, PartialEq, Eq)]
pub struct LastSend {
    count: u64,
    times: u64,
    slot: u64,
}

impl Model for LastSend {
    ghost use Rattle.std.specs.Prelude.{◌≤◌, ◌+◌};
    ghost use Rattle.a429_slots.specs.Recalling.{Recent};

    ghost Value = { Recent };

    ghost view = { λ s. record { count = s.count; times = s.times; slot = s.slot } };

    ghost invariant = { λ s. s.times ≤ s.slot + 1 };

    ghost inverse = { λ r. record { count = r.count; times = r.times; slot = r.slot } };
}

impl LastSend {
    /// What is kept before the first send.
    pub fn never() -> LastSend
        ensures { result ≡ never }
    {
        LastSend {
            count: 0,
            times: 0,
            slot: 0,
        }
    }

    /// Whether the accepted word of this number may be sent in this slot. It may not if it was sent as often as the
    /// hold says, or if a word of the source was sent too few slots before. If it may, it counts as sent.
    #[inline(always)]
    pub fn send(&mut self, slot: u64, count: u64, limits: SendLimits) -> bool
        requires some { 1 ≤ limits.spacing }
        requires room { slot + 1 < 2 ^ 64 }
        ensures sent { result ≡ may_send self.old slot count limits.hold limits.spacing }
        ensures after { self.new ≡ recent_after self.old slot count limits.hold limits.spacing }
    {
        let times = if self.count == count { self.times } else { 0 };
        if let Some(most) = limits.hold {
            if u64::from(most) <= times {
                return false;
            }
        }
        if self.times > 0 && slot.saturating_sub(self.slot) < u64::from(limits.spacing) {
            return false;
        }
        self.count = count;
        self.times = times + 1;
        self.slot = slot;
        true
    }
}
