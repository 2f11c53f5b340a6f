//! Calls that ask a station for names, numbers, sizes and places, and for the text of the last refusal. They leave it as
//! it is.
ghost use Rattle.std.specs.Prelude.{◌≡◌, length, option_map};
ghost use Rattle.a429_slots.specs.Tables.{buses_of, frame_of};
ghost use Rattle.a429_c.specs.Places.{KeepsText};
ghost use Rattle.a429_c.specs.Calls.{counted, fitting, given_or, length_or, name_in, named, numbered, or_no_such, placed, refusal_of, room_after, sized, status_of, text_in};

use crate::answers::PlaceAnswer;
use crate::machine::{group_number, receiver_number};
use crate::refusal_text::put_text;
use crate::station::StationHandle;
use crate::statuses::Status;
use std::alloc::Global;

/// Gives the number of the receiver with this name. Error: the station is closed, or has no such receiver.
#[unsafe(no_mangle)]
pub extern "C" fn a429_receiver(
    alloc: Global,
    station: &mut StationHandle,
    name: &[u8],
    receiver: &mut usize,
) -> u32
    ensures status { result ≡ status_of (numbered (λ n. n.receivers) name.now station.old.handle.held) }
    ensures number { receiver.new ≡ given_or (numbered (λ n. n.receivers) name.now station.old.handle.held) receiver.old }
    ensures same { station.new.handle.held ≡ station.old.handle.held }
    ensures refusal_text { KeepsText (numbered (λ n. n.receivers) name.now station.old.handle.held) station.old station.new }
{
    let Some(machine) = station.handle.take(alloc) else {
        return station.refusal_text.refuse(Status::Closed);
    };
    let found = receiver_number(machine.equipment.receivers(), name);
    station.handle.put(alloc, machine);
    station.refusal_text.give(or_no_such(found), receiver)
}

/// Gives the number of the group with this name. Error: the station is closed, or has no such group.
#[unsafe(no_mangle)]
pub extern "C" fn a429_group(
    alloc: Global,
    station: &mut StationHandle,
    name: &[u8],
    group: &mut usize,
) -> u32
    ensures status { result ≡ status_of (numbered (λ n. n.groups) name.now station.old.handle.held) }
    ensures number { group.new ≡ given_or (numbered (λ n. n.groups) name.now station.old.handle.held) group.old }
    ensures same { station.new.handle.held ≡ station.old.handle.held }
    ensures refusal_text { KeepsText (numbered (λ n. n.groups) name.now station.old.handle.held) station.old station.new }
{
    let Some(machine) = station.handle.take(alloc) else {
        return station.refusal_text.refuse(Status::Closed);
    };
    let found = group_number(machine.equipment.groups(), name);
    station.handle.put(alloc, machine);
    station.refusal_text.give(or_no_such(found), group)
}

/// Puts the name of a receiver at the start of the caller's room, and gives its length in bytes. Error: the station is
/// closed, it has no such receiver, or the name is longer than the room.
#[unsafe(no_mangle)]
pub extern "C" fn a429_receiver_name(
    alloc: Global,
    station: &mut StationHandle,
    receiver: usize,
    room: &mut [u8],
    count: &mut usize,
) -> u32
    ensures status { result ≡ status_of (named (λ n. n.receivers) receiver (length room.old) station.old.handle.held) }
    ensures room { room.new ≡ room_after (named (λ n. n.receivers) receiver (length room.old) station.old.handle.held) room.old }
    ensures count { count.new ≡ length_or (named (λ n. n.receivers) receiver (length room.old) station.old.handle.held) count.old }
    ensures same { station.new.handle.held ≡ station.old.handle.held }
    ensures refusal_text { KeepsText (named (λ n. n.receivers) receiver (length room.old) station.old.handle.held) station.old station.new }
{
    let Some(machine) = station.handle.take(alloc) else {
        return station.refusal_text.refuse(Status::Closed);
    };
    let refused = put_name(machine.receiver_name(receiver), room, count);
    station.handle.put(alloc, machine);
    station.refusal_text.end(refused)
}

/// Puts the name of a group at the start of the caller's room, and gives its length in bytes. Error: the station is
/// closed, it has no such group, or the name is longer than the room.
#[unsafe(no_mangle)]
pub extern "C" fn a429_group_name(
    alloc: Global,
    station: &mut StationHandle,
    group: usize,
    room: &mut [u8],
    count: &mut usize,
) -> u32
    ensures status { result ≡ status_of (named (λ n. n.groups) group (length room.old) station.old.handle.held) }
    ensures room { room.new ≡ room_after (named (λ n. n.groups) group (length room.old) station.old.handle.held) room.old }
    ensures count { count.new ≡ length_or (named (λ n. n.groups) group (length room.old) station.old.handle.held) count.old }
    ensures same { station.new.handle.held ≡ station.old.handle.held }
    ensures refusal_text { KeepsText (named (λ n. n.groups) group (length room.old) station.old.handle.held) station.old station.new }
{
    let Some(machine) = station.handle.take(alloc) else {
        return station.refusal_text.refuse(Status::Closed);
    };
    let refused = put_name(machine.group_name(group), room, count);
    station.handle.put(alloc, machine);
    station.refusal_text.end(refused)
}

/// Puts the name of a source at the start of the caller's room, and gives its length in bytes. Error: the station is
/// closed, it has no such source, or the name is longer than the room.
#[unsafe(no_mangle)]
pub extern "C" fn a429_source_name(
    alloc: Global,
    station: &mut StationHandle,
    source: usize,
    room: &mut [u8],
    count: &mut usize,
) -> u32
    ensures status { result ≡ status_of (named (λ n. n.sources) source (length room.old) station.old.handle.held) }
    ensures room { room.new ≡ room_after (named (λ n. n.sources) source (length room.old) station.old.handle.held) room.old }
    ensures count { count.new ≡ length_or (named (λ n. n.sources) source (length room.old) station.old.handle.held) count.old }
    ensures same { station.new.handle.held ≡ station.old.handle.held }
    ensures refusal_text { KeepsText (named (λ n. n.sources) source (length room.old) station.old.handle.held) station.old station.new }
{
    let Some(machine) = station.handle.take(alloc) else {
        return station.refusal_text.refuse(Status::Closed);
    };
    let refused = put_name(machine.source_name(source), room, count);
    station.handle.put(alloc, machine);
    station.refusal_text.end(refused)
}

/// Gives how many receivers the station has, numbered from 0. Error: the station is closed.
#[unsafe(no_mangle)]
pub extern "C" fn a429_receivers(
    alloc: Global,
    station: &mut StationHandle,
    count: &mut usize,
) -> u32
    ensures status { result ≡ status_of (counted (λ n. n.receivers) station.old.handle.held) }
    ensures count { count.new ≡ given_or (counted (λ n. n.receivers) station.old.handle.held) count.old }
    ensures same { station.new.handle.held ≡ station.old.handle.held }
    ensures refusal_text { KeepsText (counted (λ n. n.receivers) station.old.handle.held) station.old station.new }
{
    let Some(machine) = station.handle.take(alloc) else {
        return station.refusal_text.refuse(Status::Closed);
    };
    let all = machine.equipment.receivers().len();
    station.handle.put(alloc, machine);
    station.refusal_text.give(Ok(all), count)
}

/// Gives how many groups the station has, numbered from 0. Error: the station is closed.
#[unsafe(no_mangle)]
pub extern "C" fn a429_groups(alloc: Global, station: &mut StationHandle, count: &mut usize) -> u32
    ensures status { result ≡ status_of (counted (λ n. n.groups) station.old.handle.held) }
    ensures count { count.new ≡ given_or (counted (λ n. n.groups) station.old.handle.held) count.old }
    ensures same { station.new.handle.held ≡ station.old.handle.held }
    ensures refusal_text { KeepsText (counted (λ n. n.groups) station.old.handle.held) station.old station.new }
{
    let Some(machine) = station.handle.take(alloc) else {
        return station.refusal_text.refuse(Status::Closed);
    };
    let all = machine.equipment.groups().len();
    station.handle.put(alloc, machine);
    station.refusal_text.give(Ok(all), count)
}

/// Gives how many buses a group has by the plan that is in force for it. Error: the station is closed, or has no such
/// group.
#[unsafe(no_mangle)]
pub extern "C" fn a429_buses(
    alloc: Global,
    station: &mut StationHandle,
    group: usize,
    buses: &mut u32,
) -> u32
    ensures status { result ≡ status_of (sized buses_of group station.old.handle.held) }
    ensures buses { buses.new ≡ given_or (sized buses_of group station.old.handle.held) buses.old }
    ensures same { station.new.handle.held ≡ station.old.handle.held }
    ensures refusal_text { KeepsText (sized buses_of group station.old.handle.held) station.old station.new }
{
    let Some(machine) = station.handle.take(alloc) else {
        return station.refusal_text.refuse(Status::Closed);
    };
    let found = machine.buses(group);
    station.handle.put(alloc, machine);
    station.refusal_text.give(or_no_such(found), buses)
}

/// Gives how many slots a group's frame has by the plan that is in force for it. Error: the station is closed, or has
/// no such group.
#[unsafe(no_mangle)]
pub extern "C" fn a429_frame_slots(
    alloc: Global,
    station: &mut StationHandle,
    group: usize,
    slots: &mut u32,
) -> u32
    ensures status { result ≡ status_of (sized frame_of group station.old.handle.held) }
    ensures slots { slots.new ≡ given_or (sized frame_of group station.old.handle.held) slots.old }
    ensures same { station.new.handle.held ≡ station.old.handle.held }
    ensures refusal_text { KeepsText (sized frame_of group station.old.handle.held) station.old station.new }
{
    let Some(machine) = station.handle.take(alloc) else {
        return station.refusal_text.refuse(Status::Closed);
    };
    let found = machine.frame_slots(group);
    station.handle.put(alloc, machine);
    station.refusal_text.give(or_no_such(found), slots)
}

/// Gives the place of an output by the plan that is in force for its group.
#[unsafe(no_mangle)]
pub extern "C" fn a429_places(
    alloc: Global,
    station: &mut StationHandle,
    group: usize,
    output: usize,
    place: &mut PlaceAnswer,
) -> u32
    ensures status { result ≡ status_of (placed group output station.old.handle.held) }
    ensures place { place.new ≡ given_or (placed group output station.old.handle.held) place.old }
    ensures same { station.new.handle.held ≡ station.old.handle.held }
    ensures refusal_text { KeepsText (placed group output station.old.handle.held) station.old station.new }
{
    let Some(machine) = station.handle.take(alloc) else {
        return station.refusal_text.refuse(Status::Closed);
    };
    let found = machine.place(group, output);
    station.handle.put(alloc, machine);
    station.refusal_text.give(or_no_such(found), place)
}

/// Puts the text of the last refusal at the start of the caller's room, and gives its length; 0 if every call so far
/// succeeded. It answers for a closed station too, so that the reason of a refused opening can be read. Error: the text
/// is longer than the room; then the text of the refusal stays.
#[unsafe(no_mangle)]
pub extern "C" fn a429_refusal(
    station: &mut StationHandle,
    room: &mut [u8],
    count: &mut usize,
) -> u32
    ensures status { result ≡ status_of (fitting (length room.old) (text_in station.old.refusal_text)) }
    ensures room { room.new ≡ room_after (fitting (length room.old) (text_in station.old.refusal_text)) room.old }
    ensures count { count.new ≡ length_or (fitting (length room.old) (text_in station.old.refusal_text)) count.old }
    ensures same { station.new ≡ station.old }
{
    match put_text(station.refusal_text.text(), room, count) {
        Some(status) => status.code(),
        None => 0,
    }
}

/// What is found. Error: `NoSuch` if nothing is found.
fn or_no_such<X: Drop>(found: Option<X>) -> Result<X, Status>
    ensures { result ≡ or_no_such found }
{
    match found {
        Some(found) => Ok(found),
        None => Err(Status::NoSuch),
    }
}

/// Puts a name at the start of the caller's room, and its length into the caller's place, or gives why not.
fn put_name(name: Option<&[u8]>, room: &mut [u8], count: &mut usize) -> Option<Status>
    ensures refused { result ≡ refusal_of (name_in (length room.old) (option_map (λ b. b.now) name.entry)) }
    ensures room { room.new ≡ room_after (name_in (length room.old) (option_map (λ b. b.now) name.entry)) room.old }
    ensures count { count.new ≡ length_or (name_in (length room.old) (option_map (λ b. b.now) name.entry)) count.old }
{
    match name {
        Some(name) => put_text(name, room, count),
        None => Some(Status::NoSuch),
    }
}
