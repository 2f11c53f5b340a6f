//! What a group keeps of its sends, source by source.
ghost use Rattle.std.specs.Prelude.{◌≡◌, ◌≤◌, ◌+◌, ◌<◌, ◌^◌, IfOk, length, replicate};
ghost use Rattle.a429_slots.specs.Recalling.{never, source_sends, source_after};

use crate::senders::Due;
use crate::sends::LastSend;
use std::alloc::{AllocError, Global};
use std::marker::Model;

/// The last sends of a group, by the numbers of the sources.
#[derive(Drop)]
pub struct GroupSends {
    sources: Vec<LastSend>,
}

impl Model for GroupSends {
    ghost use Rattle.std.specs.Prelude.{List};
    ghost use Rattle.a429_slots.specs.Recalling.{Recent};

    ghost Value = { List Recent };

    ghost view = { λ s. s.sources.items };
}

#[inline(always)]
fn send_source(sources: &mut Vec<LastSend>, slot: u64, count: u64, due: Due) -> bool
    requires kept { due.source < length sources.old.items }
    requires some { 1 ≤ due.limits.spacing }
    requires room { slot + 1 < 2 ^ 64 }
    ensures sent { result ≡ source_sends sources.old.items slot count due }
    ensures after { sources.new.items ≡ source_after sources.old.items slot count due }
{
    sources[due.source].send(slot, count, due.limits)
}

impl GroupSends {
    /// Nothing was sent of this number of sources. All the memory that is ever needed is allocated here. Error: an
    /// allocation failed.
    pub fn open(alloc: Global, sources: usize) -> Result<GroupSends, AllocError>
        ensures { IfOk result (λ sends. sends ≡ replicate sources never) }
    {
        Ok(GroupSends {
            sources: vec![in alloc; LastSend::never(); sources]?,
        })
    }

    /// The number of sources whose sends are kept.
    pub fn sources(&self) -> usize
        ensures { result ≡ length self.now }
    {
        self.sources.len()
    }

    /// Sends the accepted word of this number of an output's source, if the output's limits and what was sent before
    /// allow it. Answers whether it is sent. If no sends are kept of the source, nothing is sent. Slots count from the
    /// station's first.
    pub fn send(&mut self, slot: u64, count: u64, due: Due) -> bool
        requires some { 1 ≤ due.limits.spacing }
        requires room { slot + 1 < 2 ^ 64 }
        ensures sent { result ≡ source_sends self.old slot count due }
        ensures after { self.new ≡ source_after self.old slot count due }
    {
        if due.source >= self.sources.len() {
            return false;
        }
        self.send_kept(slot, count, due)
    }

    /// Like `send`, for an output whose source has its sends kept here: its number is below the number of sources.
    #[inline(always)]
    pub fn send_kept(&mut self, slot: u64, count: u64, due: Due) -> bool
        requires kept { due.source < length self.old }
        requires some { 1 ≤ due.limits.spacing }
        requires room { slot + 1 < 2 ^ 64 }
        ensures sent { result ≡ source_sends self.old slot count due }
        ensures after { self.new ≡ source_after self.old slot count due }
    {
        send_source(&mut self.sources, slot, count, due)
    }
}
