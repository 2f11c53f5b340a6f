//! Logs, as a caller of `a429_logs` reads them.

use a429_logs::{Clock, LogReader, Reading, StatedWord, TimeUnit};
use std::alloc::Global;
use std::process::Abort;

/// The receivers whose words are read.
const NAMES: [&str; 2] = ["adc", "irs"];

/// A word at a receiver, by the receiver's number.
#[derive(Clone, Copy, PartialEq, Eq)]
struct Word {
    time: u64,
    receiver: usize,
    raw: u32,
}

/// A word of a log at one of these receivers. `None` if none has its name.
fn word_for(names: &[&str], word: StatedWord<'_>) -> Option<Word> {
    for receiver in 0..names.len() {
        if names[receiver].as_bytes() == word.name {
            return Some(Word {
                time: word.time,
                receiver,
                raw: word.raw,
            });
        }
    }
    None
}

/// A log in these pieces.
fn log_of(rt: &impl Abort, alloc: Global, texts: &[&str]) -> Vec<Vec<u8>> {
    let mut pieces = Vec::new(alloc);
    for text in texts {
        let piece = Vec::from_slice(alloc, text.as_bytes()).expect(rt, "memory");
        pieces.push(piece).expect(rt, "memory");
    }
    pieces
}

/// The words of a log in these pieces. Error: the line of the first that is faulty, or is of no receiver.
fn words_in(
    rt: &impl Abort,
    alloc: Global,
    names: &[&str],
    texts: &[&str],
) -> Result<Vec<Word>, usize> {
    let reading = Reading::new(Some(TimeUnit::Microseconds), Clock::from_time(0));
    let mut words = Vec::new(alloc);
    let log = log_of(rt, alloc, texts);
    let mut reader = LogReader::open(reading, &log);
    while let Some(entry) = reader.next() {
        let entry = match entry {
            Ok(entry) => entry,
            Err(fault) => return Err(fault.line),
        };
        let Some(word) = word_for(names, entry.word) else {
            return Err(entry.line);
        };
        words.push(word).expect(rt, "memory");
    }
    Ok(words)
}

#[test]
fn words_come_with_their_receivers(rt: HostRuntime) {
    let log = "# time receiver word\n5 irs 600000c1\n\n7 adc 000000c1\n";
    let words = words_in(&rt, rt.alloc(), &NAMES, &[log]).ok();
    let words = words.expect(&rt, "words");
    let (first, second) = (words.first().copied(), words.last().copied());
    assert!(rt; words.len() == 2);
    let due = Word {
        time: 5,
        receiver: 1,
        raw: 0x600000c1,
    };
    assert!(rt; first == Some(due));
    let due = Word {
        time: 7,
        receiver: 0,
        raw: 0x000000c1,
    };
    assert!(rt; second == Some(due));
}

#[test]
fn a_line_of_no_receiver_is_named(rt: HostRuntime) {
    let faulty = words_in(
        &rt,
        rt.alloc(),
        &NAMES,
        &["5 irs 600000c1\n7 gps 000000c1\n"],
    )
    .err();
    assert!(rt; faulty == Some(2));
    let faulty = words_in(&rt, rt.alloc(), &NAMES, &["5 irs 600000c1", "7 adc 00c1\n"]).err();
    assert!(rt; faulty == Some(2));
}

/// The line and the time of the next word of the piece that is read.
fn next_time(reader: &mut LogReader<'_, '_>) -> Option<(usize, u64)> {
    match reader.next_here() {
        Some(Ok(entry)) => Some((entry.line, entry.word.time)),
        _ => None,
    }
}

#[test]
fn a_log_goes_on_after_pieces_that_are_dropped(rt: HostRuntime) {
    let reading = Reading::new(Some(TimeUnit::Microseconds), Clock::from_time(0));
    let log = log_of(
        &rt,
        rt.alloc(),
        &["a title\ntime,name,word\n5,irs,600000c1"],
    );
    let mut reader = LogReader::open(reading, &log);
    assert!(rt; next_time(&mut reader) == Some((3, 5)));
    assert!(rt; next_time(&mut reader).is_none());
    assert!(rt; reader.next_piece() == 1);
    let point = reader.point();
    drop(log);
    let later = log_of(&rt, rt.alloc(), &["7,adc,000000c1", "", "9,irs,600000c1"]);
    let mut reader = LogReader::go_on(point, &later);
    assert!(rt; next_time(&mut reader) == Some((4, 7)));
    assert!(rt; next_time(&mut reader).is_none());
    assert!(rt; reader.next_piece() == 1);
    let rest = log_of(&rt, rt.alloc(), &["", "9,irs,600000c1"]);
    let mut reader = LogReader::go_on(reader.point(), &rest);
    assert!(rt; next_time(&mut reader).is_none());
    let last = log_of(&rt, rt.alloc(), &["9,irs,600000c1"]);
    let mut reader = LogReader::go_on(reader.point(), &last);
    assert!(rt; next_time(&mut reader) == Some((6, 9)));
    assert!(rt; reader.passed_over().titles == 1);
}
