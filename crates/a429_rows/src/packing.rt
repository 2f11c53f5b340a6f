//! Running sums of a few demands, and bounds of small groups of outputs.

use a429_pack::{SumTable, raw_bound};

/// Demands of 4, 2, 1 and 1.
fn few_sums() -> SumTable<4> {
    let mut sums = SumTable::new();
    sums.push(4);
    sums.push(2);
    sums.push(1);
    sums.push(1);
    sums
}

#[test]
fn stretches_are_found(rt: HostRuntime) {
    let sums = few_sums();
    assert!(rt; sums.find(0) == Some(0) && sums.find(5) == Some(1));
    assert!(rt; sums.find(7) == Some(3) && sums.find(8).is_none());
}

#[test]
fn raw_bounds_are_rounded_up_once(rt: HostRuntime) {
    assert!(rt; raw_bound(&[3, 3, 3]) == 1 && raw_bound(&[3, 3, 3, 1000]) == 2);
    assert!(rt; raw_bound(&[1, 1, 83333]) == 3);
}

/// Whether 128 demands of one cell are each found, in at most eight probes, and nothing after them.
fn are_found(sums: &SumTable<128>) -> bool {
    for x in 0..128 {
        let (found, probes) = sums.find_counted(x);
        if found != Some(x as usize) || probes > 8 {
            return false;
        }
    }
    sums.find_counted(128) == (None, 0)
}

#[test]
fn demands_are_found_in_few_probes(rt: HostRuntime) {
    let mut sums = SumTable::<128>::new();
    for _ in 0..128 {
        if sums.len() < 128 && sums.total() < 128 {
            sums.push(1);
        }
    }
    assert!(rt; are_found(&sums));
}
