//! What is kept of the words that each group sent.
ghost use Rattle.std.specs.Prelude.{◌≡◌, ◌≤◌, ◌+◌, ◌<◌, ◌^◌, IfOk, replicate};
ghost use Rattle.a429_slots.specs.Recalling.{never};
ghost use Rattle.a429_core.specs.MachineSteps.{group_sends, group_after};

use a429_slots::{Due, GroupSends};
use a429_word::Word;
use std::alloc::{AllocError, Global};

/// A word that a group sent: the bus and the slot of its cell, the source of the cell's output, and the word. The slot
/// is counted from the station's first.
#[derive(Clone, Copy, PartialEq, Eq)]
pub struct SentCell {
    pub bus: u32,
    pub slot: u64,
    pub source: usize,
    pub word: Word,
}

/// The sends of this number of groups before their first cells. Error: an allocation failed.
pub fn sends_of(alloc: Global, groups: usize, sources: usize) -> Result<Vec<GroupSends>, AllocError>
    ensures { IfOk result (λ sends. sends.items ≡ replicate groups (replicate sources never)) }
{
    let mut sends = Vec::new(alloc);
    for _ in 0..groups {
        sends.push(GroupSends::open(alloc, sources)?)?;
    }
    Ok(sends)
}

/// A group sends the accepted word of this number in a cell of this output, unless the output's limits forbid it.
pub fn send_word(sends: &mut Vec<GroupSends>, group: usize, slot: u64, count: u64, due: Due) -> bool
    requires some { 1 ≤ due.limits.spacing }
    requires room { slot + 1 < 2 ^ 64 }
    ensures sent { result ≡ group_sends sends.old.items group slot count due }
    ensures after { sends.new.items ≡ group_after sends.old.items group slot count due }
{
    if group >= sends.len() {
        return false;
    }
    sends[group].send(slot, count, due)
}
