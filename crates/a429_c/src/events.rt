//! Calls that open and close a station, and those that are its events.
ghost use Rattle.std.specs.Prelude.{◌≡◌, ◌≤◌, None, Some, IfOk, IfErr, OnErr, option_map};
ghost use Rattle.a429_core.specs.MachineSteps.{cell_asked, frame_asked};
ghost use Rattle.a429_c.specs.Calls.{arrival_step, asked, cell_of, given_or, moved, plan_of, source_of, status_of, text_in};
ghost use Rattle.a429_c.specs.Openings.{IsNoPublication, IsOpenIn, HasPublishedTable, IsPublishing, IsRefusedOpening};
ghost use Rattle.a429_c.specs.Places.{KeepsText, found_in};

use crate::answers::{CellAnswer, cell_of, plan_of, source_of};
use crate::machine::{Machine, build};
use crate::slot_tables::slot_tables_of;
use crate::station::StationHandle;
use crate::statuses::Status;
use crate::tables::{TableRefusal, read_proposal, refuse_table};
use std::alloc::Global;

/// Opens the station of a table, with the plan of a text if one is given.
fn open(
    alloc: Global,
    station: &mut StationHandle,
    table: &[u8],
    plan: Option<&[u8]>,
    first_slot: u64,
) -> u32
    ensures opened { result ≡ 0 → IsOpenIn table.now (option_map (λ p. p.now) plan.entry) first_slot station.new.handle.held }
    ensures silent { result ≡ 0 → station.new.refusal_text ≡ station.old.refusal_text }
    ensures kept { 1 ≤ result → station.new.handle.held ≡ station.old.handle.held }
    ensures refused { 1 ≤ result → IsRefusedOpening table.now (option_map (λ p. p.now) plan.entry) first_slot result
        (text_in station.new.refusal_text) }
{
    match build(alloc, table, plan, first_slot) {
        Ok(machine) => {
            station.handle.put(alloc, machine);
            0
        }
        Err(refusal) => refuse_table(alloc, refusal, &mut station.refusal_text),
    }
}

/// Opens the station of a table, whose first frames begin at this slot. A station that was held before is closed then.
/// Errors, in this order: the table has more than 16 MiB; the table has a fault; its plan has a fault; the slots of a
/// first frame cannot be counted in 64 bits. Memory may run out instead of any of these. On an error the station that
/// was held stays.
#[unsafe(no_mangle)]
pub extern "C" fn a429_open(
    alloc: Global,
    station: &mut StationHandle,
    table: &[u8],
    first_slot: u64,
) -> u32
    ensures opened { result ≡ 0 → IsOpenIn table.now None first_slot station.new.handle.held }
    ensures silent { result ≡ 0 → station.new.refusal_text ≡ station.old.refusal_text }
    ensures kept { 1 ≤ result → station.new.handle.held ≡ station.old.handle.held }
    ensures refused { 1 ≤ result → IsRefusedOpening table.now None first_slot result (text_in station.new.refusal_text) }
{
    open(alloc, station, table, None, first_slot)
}

/// Opens the station of a table by the plan that a text states, which `check` accepts. Errors: as `a429_open`; the text has
/// more than 16 MiB, or a line of it is refused. A fault of the table or of its own plan comes before that of a line.
#[unsafe(no_mangle)]
pub extern "C" fn a429_open_planned(
    alloc: Global,
    station: &mut StationHandle,
    table: &[u8],
    plan: &[u8],
    first_slot: u64,
) -> u32
    ensures opened { result ≡ 0 → IsOpenIn table.now (Some plan.now) first_slot station.new.handle.held }
    ensures silent { result ≡ 0 → station.new.refusal_text ≡ station.old.refusal_text }
    ensures kept { 1 ≤ result → station.new.handle.held ≡ station.old.handle.held }
    ensures refused { 1 ≤ result → IsRefusedOpening table.now (Some plan.now) first_slot result (text_in station.new.refusal_text) }
{
    open(alloc, station, table, Some(plan), first_slot)
}

/// Closes a station. If none is held, nothing happens.
#[unsafe(no_mangle)]
pub extern "C" fn a429_close(alloc: Global, station: &mut StationHandle)
    ensures closed { station.new.handle.held ≡ None }
    ensures refusal_text { station.new.refusal_text ≡ station.old.refusal_text }
{
    let _gone = station.handle.take(alloc);
}

/// A raw word comes in at a receiver. Gives the source for which it is accepted.
#[unsafe(no_mangle)]
pub extern "C" fn a429_arrive(
    alloc: Global,
    station: &mut StationHandle,
    receiver: usize,
    raw: u32,
    source: &mut usize,
) -> u32
    ensures status { result ≡ status_of (asked source_of (arrival_step receiver raw) station.old.handle.held) }
    ensures source { source.new ≡ given_or (asked source_of (arrival_step receiver raw) station.old.handle.held) source.old }
    ensures after { station.new.handle.held ≡ moved (arrival_step receiver raw) station.old.handle.held }
    ensures refusal_text { KeepsText (asked source_of (arrival_step receiver raw) station.old.handle.held) station.old station.new }
{
    let Some(mut machine) = station.handle.take(alloc) else {
        return station.refusal_text.refuse(Status::Closed);
    };
    let answer = machine.arrive(receiver, raw);
    station.handle.put(alloc, machine);
    station.refusal_text.give(source_of(answer), source)
}

/// A group sends its next cell. Gives the cell.
#[unsafe(no_mangle)]
pub extern "C" fn a429_cell(
    alloc: Global,
    station: &mut StationHandle,
    group: usize,
    sent: &mut CellAnswer,
) -> u32
    ensures status { result ≡ status_of (asked cell_of (λ s. cell_asked s group) station.old.handle.held) }
    ensures cell { sent.new ≡ given_or (asked cell_of (λ s. cell_asked s group) station.old.handle.held) sent.old }
    ensures after { station.new.handle.held ≡ moved (λ s. cell_asked s group) station.old.handle.held }
    ensures refusal_text { KeepsText (asked cell_of (λ s. cell_asked s group) station.old.handle.held) station.old station.new }
{
    let Some(mut machine) = station.handle.take(alloc) else {
        return station.refusal_text.refuse(Status::Closed);
    };
    let answer = machine.cell(group);
    station.handle.put(alloc, machine);
    station.refusal_text.give(cell_of(answer), sent)
}

/// A group goes on to its next frame, by the newest plan. Gives the number of that plan.
#[unsafe(no_mangle)]
pub extern "C" fn a429_frame(
    alloc: Global,
    station: &mut StationHandle,
    group: usize,
    plan: &mut u64,
) -> u32
    ensures status { result ≡ status_of (asked plan_of (λ s. frame_asked s group) station.old.handle.held) }
    ensures plan { plan.new ≡ given_or (asked plan_of (λ s. frame_asked s group) station.old.handle.held) plan.old }
    ensures after { station.new.handle.held ≡ moved (λ s. frame_asked s group) station.old.handle.held }
    ensures refusal_text { KeepsText (asked plan_of (λ s. frame_asked s group) station.old.handle.held) station.old station.new }
{
    let Some(mut machine) = station.handle.take(alloc) else {
        return station.refusal_text.refuse(Status::Closed);
    };
    let answer = machine.frame(group);
    station.handle.put(alloc, machine);
    station.refusal_text.give(plan_of(answer), plan)
}

/// A table is read and planned, and its plan is proposed for all groups. Gives the number of the plan. Errors, in this
/// order: the station is closed; an error of `a429_open` for this table; the table is of another station.
#[unsafe(no_mangle)]
pub extern "C" fn a429_publish(
    alloc: Global,
    station: &mut StationHandle,
    table: &[u8],
    plan: &mut u64,
) -> u32
    ensures { IsPublishing table.now (found_in station.old plan.old) (found_in station.new plan.new) station.old.handle.held result }
{
    let Some(mut machine) = station.handle.take(alloc) else {
        return station.refusal_text.refuse(Status::Closed);
    };
    match publish(alloc, &mut machine, table) {
        Ok(outcome) => {
            station.handle.put(alloc, machine);
            station.refusal_text.give(outcome, plan)
        }
        Err(refusal) => {
            station.handle.put(alloc, machine);
            refuse_table(alloc, refusal, &mut station.refusal_text)
        }
    }
}

/// The number of the plan that is published of a table, or why the machine refuses it. Error: why the table is refused.
fn publish(
    alloc: Global,
    machine: &mut Machine,
    table: &[u8],
) -> Result<Result<u64, Status>, TableRefusal>
    ensures published { IfOk result (HasPublishedTable table.now machine.old machine.new) }
    ensures refused { IfErr result (IsNoPublication table.now) }
    ensures kept { OnErr result (machine.new ≡ machine.old) }
{
    let proposal = read_proposal(alloc, table, None)?;
    let Ok(tables) = slot_tables_of(alloc, proposal.plan()) else {
        return Err(TableRefusal::Call(Status::Memory));
    };
    Ok(plan_of(machine.publish(&proposal, tables)))
}
