//! A worked line, by pieces, and a line with very many symbols.
ghost use Rattle.std.specs.Prelude.{◌≤◌};

use crate::support::word;
use a429_filter::{LineSource, MemoryLine};
use a429_line::Symbol::{Hi, Lo, Null};
use a429_line::{Found, LineReader, SLOT, Symbol, write_slot};
use std::alloc::Global;
use std::process::Abort;

/// A slot with the word 600000c1.
static SENT_SLOT: [Symbol; SLOT] = [
    Null, Null, Null, Null, Hi, Lo, Lo, Lo, Lo, Lo, Hi, Hi, Lo, Lo, Lo, Lo, Lo, Lo, Lo, Lo, Lo, Lo,
    Lo, Lo, Lo, Lo, Lo, Lo, Lo, Lo, Lo, Lo, Lo, Hi, Hi, Lo,
];

/// A reader takes the slot in pieces of this size.
fn feed_slot(rt: &impl Abort, reader: &mut LineReader, found: &mut Vec<Found>, size: usize)
    requires { 1 ≤ size }
{
    for piece in SENT_SLOT.chunks(size) {
        reader.feed(piece, found).expect(rt, "memory");
    }
}

/// What a reader reports of the slot and a Null after it, in pieces of this size.
fn reports(rt: &impl Abort, alloc: Global, size: usize) -> Vec<Found>
    requires { 1 ≤ size }
{
    let mut reader = LineReader::new();
    let mut found = Vec::new(alloc);
    feed_slot(rt, &mut reader, &mut found, size);
    reader.feed(&[Null], &mut found).expect(rt, "memory");
    found
}

/// Whether there is only the report of the word.
fn is_sent_word(found: &[Found]) -> bool {
    match found {
        [Found::Word(word)] => word.raw() == 0x6000_00c1,
        _ => false,
    }
}

#[test]
fn pieces_report_what_the_whole_line_reports(rt: HostRuntime) {
    for size in 1..=SLOT {
        let found = reports(&rt, rt.alloc(), size);
        assert!(rt; is_sent_word(&found));
    }
}

#[test]
fn slots_hold_a_gap_and_the_word_bit_1_first(rt: HostRuntime) {
    assert!(rt; write_slot(Some(word(&rt))) == SENT_SLOT);
    assert!(rt; write_slot(None) == [Null; SLOT]);
}

/// A line of this many slots.
fn many_slots(rt: &impl Abort, alloc: Global, count: usize) -> MemoryLine {
    let symbols = SENT_SLOT
        .as_slice()
        .repeat(alloc, count)
        .expect(rt, "memory");
    MemoryLine::from_symbols(alloc, &symbols).expect(rt, "memory")
}

/// Whether a line gives the word this often.
fn gives_words(line: &mut MemoryLine, count: usize) -> bool {
    for _ in 0..count {
        if line.next() != Ok(Some(0x6000_00c1)) {
            return false;
        }
    }
    true
}

#[test]
fn a_line_may_have_100000_symbols(rt: HostRuntime) {
    let mut line = many_slots(&rt, rt.alloc(), 2800);
    assert!(rt; gives_words(&mut line, 2799));
    assert!(rt; line.next() == Ok(None) && line.failures() == 0);
    drop(line);
}
