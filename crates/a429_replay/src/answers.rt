//! Lines of answers.
ghost use Rattle.std.specs.Prelude.{◌≡◌, ◌≤◌, ◌+◌, ◌++◌, [], drop, length, OnErr};
ghost use Rattle.std.specs.Fmt.{decimal};
ghost use Rattle.a429_word.specs.Written.{Gains};
ghost use Rattle.a429_slots.specs.declared.answers.Answer.TheVariants.{Sent, Refused};
ghost use Rattle.a429_replay.specs.AnswerLines.{answer_line, cell_text, refusal_text};

use crate::names::Names;
use crate::slots::SlotTexts;
use a429_core::{Answer, Refusal};
use a429_text::from_end::{ROOM, push_number, put_decimal, put_hex, put_text};
use a429_word::Word;
use std::alloc::AllocError;

/// The line of a refused event.
fn refusal_line(refusal: Refusal) -> &'static [u8]
    ensures { result.now ≡ answer_line [] (Refused refusal) }
{
    match refusal {
        Refusal::NoSuch => b"refused no-such\n",
        Refusal::Parity => b"refused parity\n",
        Refusal::Filtered => b"refused filtered\n",
        Refusal::NoSource => b"refused no-source\n",
        Refusal::CountSpent => b"refused count-spent\n",
        Refusal::FrameEnd => b"refused frame-end\n",
        Refusal::MidFrame => b"refused mid-frame\n",
        Refusal::SlotsSpent => b"refused slots-spent\n",
        Refusal::StationDiffers => b"refused station-differs\n",
    }
}

/// The name of the reason for which an event is refused.
pub fn refusal_reason(refusal: Refusal) -> &'static [u8]
    ensures name { result.now ≡ refusal_text refusal }
    ensures short { length result.now ≤ 16 }
{
    match refusal {
        Refusal::NoSuch => b"no-such",
        Refusal::Parity => b"parity",
        Refusal::Filtered => b"filtered",
        Refusal::NoSource => b"no-source",
        Refusal::CountSpent => b"count-spent",
        Refusal::FrameEnd => b"frame-end",
        Refusal::MidFrame => b"mid-frame",
        Refusal::SlotsSpent => b"slots-spent",
        Refusal::StationDiffers => b"station-differs",
    }
}

/// Writes the content of a cell before the bytes that begin at `end`, and gives its start.
fn put_cell(room: &mut [u8], end: usize, word: Option<Word>) -> usize
    requires { (8 ≤ end) × (end ≤ length room.old) }
    ensures start { (result ≤ end) × (end ≤ result + 8) }
    ensures written { drop result room.new ≡ cell_text word ++ drop end room.old }
    ensures size { length room.new ≡ length room.old }
{
    match word {
        Some(word) => put_hex(room, end, word.raw()),
        None => put_text(room, end, b"none"),
    }
}

/// Writes the number of a bus before the bytes that begin at `end`, and gives its start.
#[inline(always)]
#[tactic(auto, using(std::proofs::lemmas::Fmt::decimal_digit))]
fn put_bus(room: &mut [u8], end: usize, bus: u32) -> usize
    requires { (20 ≤ end) × (end ≤ length room.old) }
    ensures start { (result ≤ end) × (end ≤ result + 20) }
    ensures written { drop result room.new ≡ decimal bus ++ drop end room.old }
    ensures size { length room.new ≡ length room.old }
{
    if bus < 10 {
        let digit = [48 + bus as u8];
        put_text(room, end, &digit)
    } else {
        put_decimal(room, end, u64::from(bus))
    }
}

/// Appends the line of a cell that was sent. If an allocation fails, nothing is appended.
#[inline(always)]
fn push_sent(
    text: &mut Vec<u8>,
    slots: &mut SlotTexts,
    bus: u32,
    slot: u64,
    word: Option<Word>,
) -> Result<(), AllocError>
    ensures line { Gains result text.old.items text.new.items (answer_line [] (Sent bus slot word)) }
    ensures kept { OnErr result (text.new.items ≡ text.old.items) }
{
    let mut room = [0u8; ROOM];
    let at = put_text(&mut room, ROOM, b"\n");
    let at = put_cell(&mut room, at, word);
    let at = slots.put(&mut room, at, slot);
    let at = put_bus(&mut room, at, bus);
    let at = put_text(&mut room, at, b"sent ");
    text.extend_from_slice(&room[at..])
}

/// Appends the line of an answer. Error: an allocation failed; then nothing is appended.
#[inline(always)]
pub fn push_answer(
    text: &mut Vec<u8>,
    slots: &mut SlotTexts,
    names: &Names,
    answer: Answer,
) -> Result<(), AllocError>
    ensures line { Gains result text.old.items text.new.items (answer_line names.now.sources answer) }
    ensures kept { OnErr result (text.new.items ≡ text.old.items) }
{
    match answer {
        Answer::Accepted { source } => text.extend_from_slice(names.accepted_line(source)),
        Answer::Sent { bus, slot, word } => push_sent(text, slots, bus, slot, word),
        Answer::Changed { plan } => push_number(text, b"changed ", plan),
        Answer::Published { plan } => push_number(text, b"published ", plan),
        Answer::Refused(refusal) => text.extend_from_slice(refusal_line(refusal)),
    }
}
