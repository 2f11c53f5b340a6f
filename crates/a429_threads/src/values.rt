//! The two ends of a hub, on one thread and on two. Label 001 has the word 00000080, label 204 has 80000021.
ghost use Rattle.std.specs.Prelude.{◌≡◌, ◌<◌, length};

use crate::devices::{FailingLine, line_of};
use crate::ends::{Ends, open_ends};
use crate::support::{EVEN, FIRST, ONE, SECOND, let_go};
use a429_values::{Accept, Receiver, Transmitter};
use a429_workers::{OpenGate, ReceiveFault, ReceiveTotals, receive_all};
use std::thread::{Threads, join};

/// One receiver with a filter, one source of label 203 and any SDI, and one group that sends it.
const FILTERED: &str = r#"version = 1
rate = 100000
[[receiver]]
name = "r"
filters = ["200/370"]
[[source]]
name = "s"
receiver = "r"
label = "203"
sdi = "any"
[[group]]
name = "g"
[[group.output]]
source = "s"
min_us = 1
max_us = 360
"#;

/// A raw word, how a receiver answers it, and the load after it. There is no meeting in between: the load reads the
/// shared word and no copy.
type Row = (u32, Accept, Option<(u64, u32)>);

/// Words one after another, counted in two bits. Label 001 is outside the filter, label 204 within it, without a source.
static WORDS: [Row; 8] = [
    (EVEN, Accept::Parity, None),
    (FIRST, Accept::Accepted(0), Some((1, FIRST))),
    (EVEN, Accept::Parity, Some((1, FIRST))),
    (0x00000080, Accept::Filtered, Some((1, FIRST))),
    (0x80000021, Accept::NoSource, Some((1, FIRST))),
    (SECOND, Accept::Accepted(0), Some((2, SECOND))),
    (FIRST, Accept::Accepted(0), Some((3, FIRST))),
    (SECOND, Accept::CountSpent, Some((3, FIRST))),
];

impl Ends {
    /// Whether a word is answered so, and the load after it is this.
    fn come_to(&mut self, row: &Row) -> bool {
        let (raw, answer, load) = *row;
        let Ends { receiver, .. } = self;
        receiver.accept(raw) == answer && self.load() == load
    }
}

#[test]
fn a_load_is_the_last_accepted_word(rt: HostRuntime) {
    let mut ends = open_ends::<_, 2>(&rt, rt.alloc(), FILTERED);
    for row in &WORDS {
        assert!(rt; ends.come_to(row));
    }
    let_go(ends);
}

/// Takes the words of a line in a thread of its own.
fn take_all(
    mut receiver: Receiver,
    mut line: FailingLine,
) -> (Receiver, Result<ReceiveTotals, ReceiveFault>)
    ensures { result.0.at ≡ receiver.at }
{
    let answer = receive_all(&mut line, &mut receiver, 0, &OpenGate);
    (receiver, answer)
}

/// Whether a load of the first source is none, or one of the two words with its number; and that number.
fn load_known(transmitter: &mut Transmitter) -> (bool, u64)
    requires { 0 < length transmitter.old.at.station.sources }
    ensures { transmitter.new.at ≡ transmitter.old.at }
{
    match transmitter.load_numbered(0) {
        None => (true, 0),
        Some((count, word)) => (
            matches!((count, word.raw()), (1, FIRST) | (2, SECOND)),
            count,
        ),
    }
}

/// Loads the source this number of times. Whether each load was none or one of the two words, and none went back in
/// their order.
fn load_many(mut transmitter: Transmitter, times: u32) -> (Transmitter, bool)
    requires { 0 < length transmitter.at.station.sources }
    ensures { result.0.at ≡ transmitter.at }
{
    let mut last = 0;
    let mut rises = true;
    for _ in 0..times {
        let (known, count) = load_known(&mut transmitter);
        rises = rises && known && last <= count;
        last = count;
    }
    (transmitter, rises)
}

/// A receiver takes the words of a line at the same time as a hundred loads. What it answers, whether the loads never
/// went back, and the last load.
fn take_beside_loads<R: Threads>(
    rt: &R,
    ends: Ends,
    line: FailingLine,
) -> (
    Result<ReceiveTotals, ReceiveFault>,
    bool,
    Option<(u64, u32)>,
) {
    let Ends {
        receiver,
        transmitter,
        ..
    } = ends;
    let ((receiver, answer), (transmitter, rises)) = join(
        rt,
        || take_all(receiver, line),
        || load_many(transmitter, 100),
    );
    let mut ends = Ends {
        receiver,
        transmitter,
    };
    let last = ends.load();
    let_go(ends);
    (answer, rises, last)
}

#[test]
fn a_receiver_takes_its_line_beside_loads(rt: HostRuntime) {
    let ends = open_ends::<_, 41>(&rt, rt.alloc(), ONE);
    let line = line_of(&rt, rt.alloc(), &[FIRST, EVEN, SECOND], 0);
    let (answer, rises, last) = take_beside_loads(&rt, ends, line);
    let totals = ReceiveTotals {
        accepted: 2,
        parity: 1,
        filtered: 0,
        no_source: 0,
        spent: 0,
    };
    assert!(rt; rises && answer == Ok(totals) && last == Some((2, SECOND)));
}
