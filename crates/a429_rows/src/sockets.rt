//! Sockets on lines in memory, and on a source that fails once.

use a429_filter::{Filter, FilterSet, LineSource, MemoryLine, Socket, SourceFault};
use a429_word::{Label, Word};
use std::alloc::Global;
use std::process::Abort;

/// The word of the examples, of label 203.
const WORD: u32 = 0x6000_00c1;

/// The word of the examples with the other parity bit, so that its parity is even.
const EVEN: u32 = 0xe000_00c1;

/// A socket without filters on this number of words of even parity, followed by the word of the examples.
fn socket_of(rt: &impl Abort, alloc: Global, evens: usize) -> Socket<MemoryLine> {
    let mut words = vec![in alloc; EVEN; evens].expect(rt, "memory");
    words.push(WORD).expect(rt, "memory");
    Socket::new(MemoryLine::from_words(words), FilterSet::all())
}

/// The raw number of a word that was received.
fn raw(answer: Result<Option<Word>, SourceFault>) -> Result<Option<u32>, SourceFault> {
    Ok(answer?.map(Word::raw))
}

/// The next call of a socket answers this.
fn gives<L: LineSource>(
    rt: &impl Abort,
    socket: &mut Socket<L>,
    stated: Result<Option<u32>, SourceFault>,
) {
    assert!(rt; raw(socket.recv()) == stated);
}

#[test]
fn a_call_looks_at_65536_words(rt: HostRuntime) {
    let mut socket = socket_of(&rt, rt.alloc(), 65536);
    gives(&rt, &mut socket, Err(SourceFault::Skipped));
    gives(&rt, &mut socket, Ok(Some(WORD)));
    gives(&rt, &mut socket, Ok(None));
    drop(socket);
}

#[test]
fn a_call_passes_65535_words(rt: HostRuntime) {
    let mut socket = socket_of(&rt, rt.alloc(), 65535);
    gives(&rt, &mut socket, Ok(Some(WORD)));
    gives(&rt, &mut socket, Ok(None));
    drop(socket);
}

/// The filter that label 203 alone passes.
fn exact_filter(rt: &impl Abort) -> FilterSet {
    let mut filters = FilterSet::all();
    let exact = Filter {
        label: Label::new(0o203),
        mask: 0o377,
    };
    filters.add(exact).expect(rt, "room");
    filters
}

/// A socket with that filter, on a word of label 204 and two of label 203.
fn filtered_socket(rt: &impl Abort, alloc: Global) -> Socket<MemoryLine> {
    let words = vec![in alloc; 0x8000_0021, WORD, 0x0000_00c1].expect(rt, "memory");
    Socket::new(MemoryLine::from_words(words), exact_filter(rt))
}

#[test]
fn words_of_other_labels_are_skipped(rt: HostRuntime) {
    let mut socket = filtered_socket(&rt, rt.alloc());
    gives(&rt, &mut socket, Ok(Some(WORD)));
    gives(&rt, &mut socket, Ok(Some(0x0000_00c1)));
    gives(&rt, &mut socket, Ok(None));
    drop(socket);
}

/// Words in memory, with a failure in the call of this number, counted from 1.
#[derive(Drop)]
struct FailingLine {
    line: MemoryLine,
    fails_in: u64,
    failures: u64,
    ended: bool,
}

impl LineSource for FailingLine {
    ghost use Rattle.std.specs.Prelude.{Some};

    ghost given = { λ s. s.line.given };

    ghost ended = { λ s. s.ended };

    ghost failed = { λ s. s.failures };

    ghost left = { λ s. Some s.line.left };

    fn next(&mut self) -> Result<Option<u32>, SourceFault> {
        self.fails_in = self.fails_in.wrapping_sub(1);
        if self.fails_in == 0 {
            self.ended = false;
            self.failures = self.failures.saturating_add(1);
            return Err(SourceFault::Failed);
        }
        let answer = self.line.next();
        self.ended = answer == Ok(None);
        answer
    }

    fn failures(&self) -> u64 {
        self.failures
    }
}

/// A socket on two words, with a failure in its second call.
fn failing_socket(rt: &impl Abort, alloc: Global) -> Socket<FailingLine> {
    let words = vec![in alloc; WORD, 0x0000_00c1].expect(rt, "memory");
    let line = FailingLine {
        line: MemoryLine::from_words(words),
        fails_in: 2,
        failures: 0,
        ended: false,
    };
    Socket::new(line, FilterSet::all())
}

#[test]
fn a_failed_call_loses_no_word(rt: HostRuntime) {
    let mut socket = failing_socket(&rt, rt.alloc());
    gives(&rt, &mut socket, Ok(Some(WORD)));
    gives(&rt, &mut socket, Err(SourceFault::Failed));
    gives(&rt, &mut socket, Ok(Some(0x0000_00c1)));
    gives(&rt, &mut socket, Ok(None));
    drop(socket);
}
