//! Stations that stop: which fault is reported if several workers have one.

use super::{ONE_WORD, Setup, WORDS, run, setup_of};
use crate::devices::ShutGate;
use crate::support::{ONE, TWO};
use a429_station::{Control, LiveFault, Station};
use a429_workers::{OpenGate, Point};
use std::alloc::{AllocError, Global};
use std::process::Abort;
use std::sync::Wait;
use std::thread::Threads;

/// Publishes nothing. It answers at once, perhaps that an allocation failed.
#[derive(Clone, Copy)]
struct Idle {
    fails: bool,
}

impl<R: Wait> Control<R> for Idle {
    fn run(&mut self, _station: &mut Station<'_, R>) -> Result<(), AllocError> {
        if self.fails { Err(AllocError) } else { Ok(()) }
    }
}

/// Why a station of two receivers and two groups stops at a gate that is open.
fn fault_of_run<R: Threads + Wait + Abort>(
    rt: &R,
    alloc: Global,
    setup: &Setup<'_>,
    control_fails: bool,
) -> Option<LiveFault> {
    let mut control = Idle {
        fails: control_fails,
    };
    run(rt, alloc, setup, &OpenGate, &mut control).fault
}

/// Whether the second line fails, both sinks, and the control; and the fault of the run.
type Stop = (bool, bool, bool, Option<LiveFault>);

static STOPS: [Stop; 6] = [
    (false, false, false, None),
    (true, true, false, Some(LiveFault::Source)),
    (false, true, false, Some(LiveFault::Sink)),
    // a worker's fault before that of the control
    (true, true, true, Some(LiveFault::Source)),
    (false, true, true, Some(LiveFault::Sink)),
    (false, false, true, Some(LiveFault::NoMemory)),
];

/// Whether a run stops so.
fn stops<R: Threads + Wait + Abort>(rt: &R, alloc: Global, stop: &Stop) -> bool {
    let (line_fails, sinks_fail, control_fails, fault) = *stop;
    let setup = Setup {
        line_fails,
        sinks_fail,
        ..setup_of(TWO, WORDS, 2)
    };
    fault_of_run(rt, alloc, &setup, control_fails) == fault
}

#[test]
fn the_first_fault_is_answered(rt: HostRuntime) {
    for stop in &STOPS {
        assert!(rt; stops(&rt, rt.alloc(), stop));
    }
}

#[test]
fn too_many_words_are_answered_before_the_next_receivers_fault(rt: HostRuntime) {
    let words = vec![in rt.alloc(); 0x00000080; 1000001].expect(&rt, "memory");
    let lines: [&[u32]; 2] = [words.as_slice(), &[0x00000040]];
    let setup = Setup {
        line_fails: true,
        ..setup_of(TWO, &lines, 1)
    };
    let fault = fault_of_run(&rt, rt.alloc(), &setup, false);
    assert!(rt; fault == Some(LiveFault::TooMuch));
}

#[test]
fn a_shut_gate_ends_the_run(rt: HostRuntime) {
    let gate = ShutGate {
        at: Point::BeforeAccept(0, 0),
    };
    let mut control = Idle { fails: false };
    let setup = setup_of(ONE, ONE_WORD, 1);
    let fault = run(&rt, rt.alloc(), &setup, &gate, &mut control).fault;
    assert!(rt; fault == Some(LiveFault::Gate));
}
