//! Workers that do not run at once. The gates that hold a worker until others have begun end them. So a station that goes
//! on at these gates runs its workers at once.

use super::holds::{CONTROL, Held, TURNS_ALONE, gate};
use a429_workers::{Gate, Point};
use std::sync::atomic::Ordering;
use std::time::Clock;

/// Whether the gate that holds so ends a worker that comes to this point first, with the control's mark alone.
fn is_ended<R: Clock>(rt: &R, held: Held, point: Point) -> bool {
    let gate = gate(rt, held, TURNS_ALONE);
    gate.made.store(CONTROL, Ordering::SeqCst);
    gate.pass(point, &()).is_err()
}

/// The points at which the workers begin: of two receivers and of two groups, and of one each.
static BEGINNINGS: [(Held, Point); 6] = [
    (Held::UntilAll, Point::BeforeAccept(0, 0)),
    (Held::UntilAll, Point::BeforeAccept(1, 0)),
    (Held::UntilAll, Point::BeforeCell(0, 0)),
    (Held::UntilAll, Point::BeforeCell(1, 0)),
    (Held::InTurn, Point::BeforeAccept(0, 0)),
    (Held::InTurn, Point::BeforeCell(0, 0)),
];

#[test]
fn a_gate_ends_whichever_worker_comes_first(rt: HostRuntime) {
    for (held, point) in &BEGINNINGS {
        assert!(rt; is_ended(&rt, *held, *point));
    }
}
