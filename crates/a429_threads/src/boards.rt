//! Boards of real plans, and watchers in threads of their own.

use crate::support::{ONE, let_go, plan_of};
use a429_board::{Board, Planner, Watcher};
use a429_slots::{OUTPUTS, Plan};
use std::alloc::Global;
use std::process::Abort;
use std::sync::Wait;
use std::sync::atomic::{AtomicU64, Ordering};
use std::thread::{Threads, for_each_mut, join_mut};

/// The number of the newest plan that each watcher reads, if it is one for all, and that plan has one group.
fn number_of_all(watchers: &mut [Watcher]) -> Option<u64> {
    let mut common = None;
    for watcher in watchers.iter_mut() {
        let (number, plan) = watcher.newest();
        if common.unwrap_or(number) != number || plan.number() != number || plan.groups() != 1 {
            return None;
        }
        common = Some(number);
    }
    common
}

/// Reads this number of times, and says whether the numbers never fell.
fn read_all(watcher: &mut Watcher, times: u64) -> bool {
    let mut last = 0;
    let mut rises = true;
    for _ in 0..times {
        let (number, _) = watcher.newest();
        rises = rises && last <= number;
        last = number;
    }
    rises
}

/// Publishes the plan this number of times, and counts the plans that were published.
fn publish_all<R: Wait>(rt: &R, planner: &mut Planner, plan: Plan<OUTPUTS>, times: u64) -> u64 {
    let mut published = 0u64;
    for _ in 0..times {
        if planner.publish(rt, plan).is_ok() {
            published = published.wrapping_add(1);
        }
    }
    published
}

/// Reads by each watcher in a thread of its own, and counts those whose numbers fell.
fn read_by_all<R: Threads + Sync>(rt: &R, watchers: &mut [Watcher], times: u64, falls: &AtomicU64) {
    for_each_mut(
        rt,
        watchers,
        10,
        &|_, watcher: &mut Watcher| {
            if !read_all(watcher, times) {
                falls.fetch_add(1, Ordering::SeqCst);
            }
        },
    );
}

/// Publishes the plan this number of times while all watchers read. Answers how many plans were published, and how many
/// watchers read numbers that fell.
fn soak<R: Threads + Wait + Sync>(
    rt: &R,
    planner: &mut Planner,
    plan: Plan<OUTPUTS>,
    watchers: &mut [Watcher],
) -> (u64, u64) {
    let falls = AtomicU64::new(0);
    let (published, _) = join_mut(
        rt,
        &mut || publish_all(rt, planner, plan, 10000),
        &mut || read_by_all(rt, watchers, 2000, &falls),
    );
    (published, falls.load(Ordering::SeqCst))
}

/// Ten watchers read while plans are published: how many plans and falls there were, and which number all of them read
/// after it. None of them was given a plan.
fn soak_ten<R: Threads + Wait + Abort + Sync>(rt: &R, alloc: Global) -> ((u64, u64), Option<u64>) {
    let plan = plan_of(rt, alloc, ONE);
    let (mut planner, mut watchers) = Board::open(rt, alloc, plan, 10).expect(rt, "a board");
    let soaked = soak(rt, &mut planner, plan, watchers.as_mut_slice());
    let last = number_of_all(watchers.as_mut_slice());
    planner.close(rt);
    let_go(watchers);
    (soaked, last)
}

#[test]
fn ten_watchers_never_go_back(rt: HostRuntime) {
    assert!(rt; soak_ten(&rt, rt.alloc()) == ((10000, 0), Some(10000)));
}
