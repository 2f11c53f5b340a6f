//! A group's transmitter.
ghost use Rattle.std.specs.Prelude.{◌≡◌, ◌≤◌, ◌+◌, ◌<◌, ◌^◌, ◌↔◌, ◌∷◌, [], false, length, IfOk, IfSome, IsErrOf, IsErr, OnErr, None, Some};
ghost use Rattle.std.specs.List.{AllByRecursion};
ghost use Rattle.a429_slots.specs.Tables.{groups_of, cells_of};
ghost use Rattle.a429_slots.specs.FrameStates.{next_cell, after_cell};
ghost use Rattle.a429_equipment.specs.TableRecord.{TableRecord};
ghost use Rattle.a429_equipment.specs.Agreement.{AgreesToTheEnd};
ghost use Rattle.a429_values.specs.Later.{StaysWhole};
ghost use Rattle.a429_workers.specs.Calls.{Meets, number_of};
ghost use mathlib.Core.List.{IsPrefix};
ghost use Rattle.a429_workers.specs.Transmitting.{BeginsWith, GoesOnByCalls, IsDone, IsKnownPlan, IsKnownTable, IsLastTable, IsSameGroup, KeepsOthers, TakesNext, TellsSpent, cell_call, change_call, first_fits, loads_since, met, place_due, sent_by};

use crate::cells::{ChangeFault, FrameEnd, Sent};
use a429_board::{Planner, Watcher};
use a429_slots::laws::sends_are_recalled;
use a429_slots::{CachedSender, Due, GroupPlan, GroupSends, OUTPUTS, OpenFault};
use a429_values::{Receiver, Transmitter};
use a429_word::Word;
use std::alloc::Global;
use std::marker::Model;

/// Sends the cells of one group: words by loads of the current values, in frames by the newest plan of a board.
///
/// It keeps no list of its calls. Contracts speak of every list that it stands for: each call's answer is lawful after
/// those before it, as long as the plans that the watcher saw are plans of the hub's station. A plan of another station
/// may have an output whose source the hub's station lacks: its cells have neither a word nor a load.
#[derive(Drop)]
pub struct Transmit {
    transmitter: Transmitter,
    watcher: Watcher,
    sender: CachedSender,
    number: u64,
    sends: GroupSends,
}

impl Model for Transmit {
    ghost use Rattle.std.specs.Prelude.{◌≡◌, ◌<◌, length};
    ghost use Rattle.a429_slots.specs.Tables.{groups_of};
    ghost use Rattle.a429_workers.specs.Transmitting.{Transmitting};

    ghost Value = { Transmitting };

    ghost view = { λ t. record {
      transmitter = t.transmitter;
      watcher = t.watcher;
      frame = t.sender;
      number = t.number;
      sends = t.sends;
    } };

    ghost invariant = { λ t. (length t.sends ≡ length t.transmitter.at.station.sources)
        × (t.transmitter.number < length (groups_of t.watcher.opened)) };
}

/// The word that goes out for an output if the load of its source found this.
#[inline(always)]
fn word_found(
    sends: &mut GroupSends,
    slot: u64,
    due: Due,
    found: Option<(u64, Word)>,
) -> Option<Word>
    requires kept { due.source < length sends.old }
    requires some { 1 ≤ due.limits.spacing }
    requires room { slot + 1 < 2 ^ 64 }
    ensures word { result ≡ (sent_by sends.old slot due found).0 }
    ensures after { sends.new ≡ (sent_by sends.old slot due found).1 }
    ensures sized { length sends.new ≡ length sends.old }
{
    let (count, word) = found?;
    if sends.send_kept(slot, count, due) {
        Some(word)
    } else {
        None
    }
}

/// The word that goes out in a cell of this output, if any, by one load of its source.
#[inline(always)]
fn word_for(
    transmitter: &mut Transmitter,
    sends: &mut GroupSends,
    slot: u64,
    due: Option<Due>,
) -> Option<Word>
    requires sized { length sends.old ≡ length transmitter.old.at.station.sources }
    requires some { IfSome due (λ d. 1 ≤ d.limits.spacing) }
    requires room { slot + 1 < 2 ^ 64 }
    ensures done { IsDone transmitter.old sends.old slot due result transmitter.new sends.new }
    ensures hub { transmitter.new.at ≡ transmitter.old.at }
    ensures group { transmitter.new.number ≡ transmitter.old.number }
    ensures sized { length sends.new ≡ length sends.old }
{
    let due = due?;
    if due.source >= sends.sources() {
        return None;
    }
    let found = transmitter.load_numbered(due.source);
    word_found(sends, slot, due, found)
}

/// The number of the last plan that a watcher saw or was given.
fn last_number(watcher: &Watcher) -> u64
    ensures { result ≡ number_of watcher.now.list }
{
    watcher.last().number()
}

/// The slot table of a group in that plan; the opening one if that plan has no such group.
fn last_table(watcher: &Watcher, group: usize) -> &GroupPlan<OUTPUTS>
    requires { group < length (groups_of watcher.now.opened) }
    ensures table { IsLastTable watcher.now group result.now }
    ensures known { (t : TableRecord) → AllByRecursion (IsKnownPlan t) watcher.now.list → IsKnownTable t result.now }
{
    let plan = watcher.last();
    if group < plan.groups() {
        plan.group(group)
    } else {
        watcher.opened().group(group)
    }
}

impl Transmit {
    /// The transmitter of a group, before its first cell: by the plan that the board was opened with, in frames from
    /// this slot on. Errors: `SlotsSpent` if and only if 64 bits cannot count the slots of the group's first frame;
    /// otherwise `NoMemory` if an allocation failed. All the memory that it ever needs is allocated here.
    pub fn open(
        alloc: Global,
        transmitter: Transmitter,
        watcher: Watcher,
        group: usize,
        first_slot: u64,
    ) -> Result<Transmit, OpenFault>
        requires group { group ≡ transmitter.number }
        requires planned { group < length (groups_of watcher.opened) }
        ensures stands { IfOk result (BeginsWith transmitter watcher first_slot) }
        ensures ends { IfOk result (λ t. (t.transmitter ≡ transmitter) × (t.watcher ≡ watcher)) }
        ensures begins { IfOk result (λ t. (t.frame.first ≡ first_slot) × (t.frame.sent ≡ 0) × (t.number ≡ watcher.opened.number)) }
        ensures spent { IsErrOf result OpenFault.SlotsSpent ↔ (first_fits watcher.opened group first_slot ≡ false) }
    {
        sends_are_recalled();
        let opened = watcher.opened();
        let table = *opened.group(group);
        let number = opened.number();
        if u64::MAX - first_slot < u64::from(table.frame()) {
            return Err(OpenFault::SlotsSpent);
        }
        let sender = CachedSender::open(alloc, table, first_slot)?;
        let sends = GroupSends::open(alloc, transmitter.sources())?;
        Ok(Transmit {
            transmitter,
            watcher,
            sender,
            number,
            sends,
        })
    }

    /// How many cells a frame of the plan in force has, at most 16 buses times 8192 slots.
    pub fn cells(&self) -> u64
        ensures value { result ≡ cells_of self.now.frame.table }
        ensures few { result ≤ 131072 }
    {
        self.sender.cells()
    }

    /// The number of the plan in force.
    pub fn plan(&self) -> u64
        ensures { result ≡ self.now.number }
    {
        self.number
    }

    /// The next cell, slot by slot and in a slot bus by bus. A cell of an output takes one load of its source, even if
    /// the word is then held back; an empty cell takes none. Error: `FrameEnd` if and only if all cells of the frame
    /// were sent; then nothing changes. The call allocates no memory and waits for nobody.
    #[inline(always)]
    pub fn cell(&mut self) -> Result<Sent, FrameEnd>
        ensures stands { GoesOnByCalls self.old (cell_call result (loads_since self.old self.new) ∷ []) self.new }
        ensures end { IsErr result ↔ (next_cell self.old.frame ≡ None) }
        ensures place { IfOk result (λ sent. place_due self.old.frame ≡ Some (sent.bus, sent.slot)) }
        ensures err { OnErr result (self.new ≡ self.old) }
        ensures frame { self.new.frame ≡ after_cell self.old.frame }
        ensures number { self.new.number ≡ self.old.number }
        ensures watcher { self.new.watcher ≡ self.old.watcher }
        ensures same { IsSameGroup self.old self.new }
    {
        sends_are_recalled();
        let Transmit {
            transmitter,
            sender,
            sends,
            ..
        } = self;
        let first = sender.first();
        let Some((bus, in_frame)) = sender.cell() else {
            return Err(FrameEnd);
        };
        let slot = first + in_frame;
        let due = sender.output_in(bus, in_frame);
        Ok(Sent {
            bus,
            slot,
            word: word_for(transmitter, sends, slot, due),
        })
    }

    /// Goes on to the next frame, by the newest plan that the watcher reads; if that plan has no such group, by the
    /// opening table. Answers the plan's number. Errors: `MidFrame` if and only if some cell of the frame was not sent;
    /// `SlotsSpent` if and only if the frame is over and 64 bits cannot count the slots of the next one. Then plan,
    /// frame and cell stay, and the watcher may have seen a newer plan. The call allocates no memory and waits for
    /// nobody.
    pub fn change(&mut self) -> Result<u64, ChangeFault>
        ensures stands { GoesOnByCalls self.old (change_call result self.new.watcher.list ∷ []) self.new }
        ensures mid { IsErrOf result ChangeFault.MidFrame ↔ (self.old.frame.sent < cells_of self.old.frame.table) }
        ensures spent { TellsSpent self.old result self.new }
        ensures next { TakesNext self.old result self.new }
        ensures newest { IfOk result (λ n. n ≡ number_of self.new.watcher.list) }
        ensures seen { IsPrefix self.old.watcher.list self.new.watcher.list }
        ensures begins { IfOk result (λ n. (self.new.number ≡ n) × (self.new.frame.sent ≡ 0)) }
        ensures err { OnErr result ((self.new.frame ≡ self.old.frame) × (self.new.number ≡ self.old.number)) }
        ensures transmitter { self.new.transmitter ≡ self.old.transmitter }
        ensures sends { self.new.sends ≡ self.old.sends }
        ensures same { IsSameGroup self.old self.new }
    {
        let Transmit {
            transmitter,
            watcher,
            sender,
            number,
            ..
        } = self;
        if sender.is_mid_frame() {
            return Err(ChangeFault::MidFrame);
        }
        watcher.look();
        let newest = last_number(watcher);
        if !sender.turn(last_table(watcher, transmitter.number())) {
            return Err(ChangeFault::SlotsSpent);
        }
        *number = newest;
        Ok(newest)
    }

    /// Takes in what a receiver of the same hub accepted: loads each of its sources, and sends nothing. It takes no
    /// memory and waits for nobody.
    pub fn meet(&mut self, other: &mut Receiver)
        requires { other.old.at ≡ self.old.transmitter.at }
        ensures stands { GoesOnByCalls self.old (Meets (loads_since self.old self.new) ∷ []) self.new }
        ensures receiver { other.new ≡ other.old }
        ensures loads { self.new ≡ met self.old other.old }
        ensures agrees { AgreesToTheEnd self.old.transmitter.at.station other.old.number other.old.accepted self.new.transmitter.loads }
        ensures later { StaysWhole self.old.transmitter.at.station other.old.number other.old.accepted self.new.transmitter.loads }
        ensures others { KeepsOthers self.old other.old.number self.new }
    {
        self.transmitter.meet(other);
    }

    /// Takes from the planner of its board all that was published. The call allocates no memory and waits for nobody.
    pub fn told(&mut self, planner: &mut Planner)
        requires { self.old.watcher.book ≡ planner.old.book }
        ensures stands { GoesOnByCalls self.old [] self.new }
        ensures planner { planner.new ≡ planner.old }
        ensures beginning { IsPrefix self.old.watcher.list planner.old.list }
        ensures list { self.new ≡ record self.old { watcher = record self.old.watcher { list = planner.old.list } } }
    {
        planner.tell(&mut self.watcher);
    }
}
