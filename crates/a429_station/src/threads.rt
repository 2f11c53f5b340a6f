//! Workers, each on a thread of its own.
ghost use Rattle.std.specs.Prelude.{◌≡◌, Bool, IfOk, is_ok, map};
ghost use Rattle.std.specs.List.{AllZip};
ghost use Rattle.a429_station.specs.Lending.{IsDoneMeanwhile, LendsTheSame};

use crate::lists::put;
use core::scope::{Scope, scope_env, scoped};
use std::alloc::{AllocError, Global};
use std::snapshot::Snapshot;
use std::sync::Wait;
use std::thread::{Promise, PromisedHandle, Threads, join_promised};

/// A piece of work for a thread of its own.
pub trait Work: Send + Drop {
    /// The result of the work.
    type Done: Send + Drop;

    /// Whether this work can end with this result.
    ghost did: { Self → Self.Done → Type 0 };

    /// Does the work, and gives its result.
    fn work(self) -> Self::Done
        ensures { did self result };
}

/// What the thread of a worker answers.
#[derive(Drop)]
pub struct Doing<W: Work>(Snapshot<W>);

impl<W: Work> Promise<W::Done> for Doing<W> {
    ghost kept_by = { λ p r. W.did p.0.value r };
}

/// A thread could not be started or joined.
#[derive(Drop)]
pub struct NotJoined;

type Handles<W> = Vec<PromisedHandle<<W as Work>::Done, Doing<W>>>;

// Starts a thread for each of the workers, in order.
fn start_workers<'s, E, W: Work + 's>(
    scope: &'s Scope<'s, E>,
    alloc: Global,
    workers: Vec<W>,
) -> Result<Handles<W>, NotJoined>
    ensures { IfOk result (λ handles. map (λ h. h.promise.0.value) handles.items ≡ workers.items) }
{
    let Ok(mut handles) = Vec::with_capacity(alloc, workers.len()) else {
        return Err(NotJoined);
    };
    for worker in workers {
        let doing = Doing(Snapshot::of(&worker));
        let Ok(handle) = scope.spawn_with(doing, move || worker.work()) else {
            return Err(NotJoined);
        };
        put(&mut handles, handle);
    }
    Ok(handles)
}

// What the workers of these threads did, in order.
fn join_workers<R: Threads, W: Work>(rt: &R, handles: Handles<W>) -> Result<Vec<W::Done>, NotJoined>
    ensures { IfOk result (λ done. AllZip W.did (map (λ h. h.promise.0.value) handles.items) done.items) }
{
    match join_promised(rt, handles) {
        Ok(done) => Ok(done),
        Err(_) => Err(NotJoined),
    }
}

/// What the calling thread does while workers run, to a value.
pub trait Meanwhile<S> {
    /// Whether it and the value can so change; the last argument says whether it ended well.
    ghost did: { Self → S → S → Self → Bool → Type 0 };

    /// Does what the calling thread does to the value while the workers run. Error: an allocation failed.
    fn meanwhile(&mut self, to: &mut S) -> Result<(), AllocError>
        ensures { did self.old to.old to.new self.new (is_ok result) };
}

/// What workers did at once, and the answer of the calling thread's own work.
#[derive(Drop)]
pub struct Ended<X: Drop, Y: Drop> {
    pub first: Vec<X>,
    pub second: Vec<Y>,
    pub answer: Result<(), AllocError>,
}

// Starts the workers, does the calling thread's own work, and takes the workers in.
fn run_workers<
    's,
    E,
    R: Threads,
    W: Work<Done = X> + 's,
    V: Work<Done = Y> + 's,
    S,
    M: Meanwhile<S>,
    X: Send + Drop,
    Y: Send + Drop,
>(
    scope: &'s Scope<'s, E>,
    rt: &R,
    alloc: Global,
    first: Vec<W>,
    second: Vec<V>,
    to: &mut S,
    meanwhile: &mut M,
) -> Result<Ended<X, Y>, NotJoined>
    ensures first { IfOk result (λ done. AllZip W.did first.items done.first.items) }
    ensures second { IfOk result (λ done. AllZip V.did second.items done.second.items) }
    ensures meanwhile { IfOk result (λ done. M.did meanwhile.old to.old to.new meanwhile.new (is_ok done.answer)) }
{
    let Ok(first) = start_workers(scope, alloc, first) else {
        return Err(NotJoined);
    };
    let Ok(second) = start_workers(scope, alloc, second) else {
        return Err(NotJoined);
    };
    let answer = meanwhile.meanwhile(to);
    let Ok(first) = join_workers(rt, first) else {
        return Err(NotJoined);
    };
    let Ok(second) = join_workers(rt, second) else {
        return Err(NotJoined);
    };
    Ok(Ended {
        first,
        second,
        answer,
    })
}

// What is lent to a scope of threads, and given back.
#[derive(Drop)]
struct Lent<'b, S, M, X: Drop, Y: Drop> {
    to: &'b mut S,
    meanwhile: &'b mut M,
    ended: &'b mut Result<Ended<X, Y>, NotJoined>,
}

// Works as `run_workers` does, on what is lent.
fn run_lent_workers<
    's,
    E,
    R: Threads,
    W: Work<Done = X> + 's,
    V: Work<Done = Y> + 's,
    S,
    M: Meanwhile<S>,
    X: Send + Drop,
    Y: Send + Drop,
>(
    scope: &'s Scope<'s, E>,
    rt: &R,
    alloc: Global,
    first: Vec<W>,
    second: Vec<V>,
    lent: &mut Lent<'_, S, M, X, Y>,
)
    ensures same { LendsTheSame lent.old lent.new }
    ensures first { IfOk lent.new.ended.now (λ done. AllZip W.did first.items done.first.items) }
    ensures second { IfOk lent.new.ended.now (λ done. AllZip V.did second.items done.second.items) }
    ensures meanwhile { IsDoneMeanwhile M.did lent.old lent.new }
{
    *lent.ended = run_workers(
        scope,
        rt,
        alloc,
        first,
        second,
        &mut *lent.to,
        &mut *lent.meanwhile,
    );
}

// Works in a scope of threads, and gives back what was lent.
fn run_in_scope<
    'b,
    R: Threads + Wait,
    W: Work<Done = X>,
    V: Work<Done = Y>,
    S,
    M: Meanwhile<S>,
    X: Send + Drop,
    Y: Send + Drop,
>(
    rt: &R,
    alloc: Global,
    first: Vec<W>,
    second: Vec<V>,
    lent: Lent<'b, S, M, X, Y>,
) -> Lent<'b, S, M, X, Y>
    ensures same { LendsTheSame lent.entry result }
    ensures first { IfOk result.ended.now (λ done. AllZip W.did first.items done.first.items) }
    ensures second { IfOk result.ended.now (λ done. AllZip V.did second.items done.second.items) }
    ensures meanwhile { IsDoneMeanwhile M.did lent.entry result }
{
    scoped(
        scope_env(),
        rt,
        move |scope| -> Lent<S, M, X, Y>
            ensures same { LendsTheSame lent.entry result }
            ensures first { IfOk result.ended.now (λ done. AllZip W.did first.items done.first.items) }
            ensures second { IfOk result.ended.now (λ done. AllZip V.did second.items done.second.items) }
            ensures meanwhile { IsDoneMeanwhile M.did lent.entry result }
        {
            let mut lent = lent;
            run_lent_workers(scope, rt, alloc, first, second, &mut lent);
            lent
        },
    )
}

/// Runs each worker on a thread of its own, all at once, and at the same time the calling thread's own work. Error: a
/// thread could not be started or joined. Then no answer of a worker is given. In any case the threads that were started
/// have ended.
pub fn run_at_once<
    R: Threads + Wait,
    W: Work<Done = X>,
    V: Work<Done = Y>,
    S,
    M: Meanwhile<S>,
    X: Send + Drop,
    Y: Send + Drop,
>(
    rt: &R,
    alloc: Global,
    first: Vec<W>,
    second: Vec<V>,
    to: &mut S,
    meanwhile: &mut M,
) -> Result<Ended<X, Y>, NotJoined>
    ensures first { IfOk result (λ done. AllZip W.did first.items done.first.items) }
    ensures second { IfOk result (λ done. AllZip V.did second.items done.second.items) }
    ensures meanwhile { IfOk result (λ done. M.did meanwhile.old to.old to.new meanwhile.new (is_ok done.answer)) }
{
    let mut ended = Err(NotJoined);
    {
        let lent = Lent {
            to,
            meanwhile,
            ended: &mut ended,
        };
        let _back = run_in_scope(rt, alloc, first, second, lent);
    }
    ended
}
