//! Tests workers that sleep while no node needs a job: an update wakes them, and they end when they are dismissed.
ghost use Rattle.std.specs.Prelude.{◌≡◌, Some};

use crate::common::*;
use crate::same::assert_same;
use lv_bodies::Sum;
use lv_geometry::Limits;
use lv_hub::*;
use std::alloc::{AllocError, Global};
use std::marker::Brand;
use std::process::Abort;
use std::sync::Wait;
use std::sync::atomic::{AtomicU64, Ordering};
use std::sync::ledger::Blank;
use std::thread;
use std::thread::Threads;
use std::time::{Clock, Duration};

// A gate that counts the workers that pass it.
#[derive(Drop)]
struct Turnstile {
    passed: AtomicU64,
}

impl Turnstile {
    fn new() -> Turnstile {
        Turnstile {
            passed: AtomicU64::new(0),
        }
    }

    // Whether this many workers pass within 10 seconds.
    fn is_passed_by(&self, clock: &impl Clock, count: u64) -> bool {
        for _ in 0..10_000 {
            if count <= self.passed.load(Ordering::SeqCst) {
                return true;
            }
            thread::sleep(clock, Duration::from_millis(1));
        }
        false
    }
}

impl Gate for Turnstile {
    fn hold(&self, _turn: u64) {
        self.passed.fetch_add(1, Ordering::SeqCst);
    }
}

// Gives another thread time to fall asleep, or to use up a thousand turns if it doesn't sleep.
fn let_it_sleep(clock: &impl Clock) {
    thread::sleep(clock, Duration::from_millis(50));
}

// Pushes a block that a worker claims and, once the worker had time to fall asleep, another one. Then the worker is dismissed. Returns whether
// the first block was claimed, and whether both were.
fn push_then_dismiss<N: WithBody<Sum>, R: Wait + Clock + Abort>(
    rt: &R,
    hub: &Hub<Sum, N>,
    share: &mut Share<N>,
    gate: &Turnstile,
) -> (bool, bool) {
    push_all(rt, hub, share, 8, 1);
    let first = gate.is_passed_by(rt, 1);
    let_it_sleep(rt);
    push_all(rt, hub, share, 8, 1);
    let both = gate.is_passed_by(rt, 2);
    hub.dismiss(rt);
    (first, both)
}

// A worker of a thousand turns attends while two blocks are pushed.
fn assert_woken<N: WithBody<Sum> + Send + Sync, R: Threads + Wait + Clock + Abort + Sync>(
    rt: &R,
    hub: &Hub<Sum, N>,
    share: &mut Share<N>,
) {
    let turnstile = Turnstile::new();
    let gate = &turnstile;
    let seen = thread::join(
        rt,
        move || attend(rt, hub, gate, 1000),
        move || push_then_dismiss(rt, hub, share, gate),
    );
    assert_same(rt, &seen, &(installed(2), (true, true)));
}

fn woken<N: WithBody<Sum> + Send + Sync, R: Threads + Wait + Clock + Abort + Sync>(
    rt: &R,
    alloc: Global,
    limits: Limits,
    blank: Blank,
    opened: Opened,
    body: Sum,
)
    requires name { blank.name ≡ N.name }
    requires all { blank.parts ≡ N.parts }
    requires one { blank.parts ≡ 1 }
    requires limits { limits ≡ N.limits }
    requires history { opened ≡ N.history }
    requires body { N.body ≡ Some body }
{
    let (hub, mut share) = Hub::<Sum, N>::new(alloc, limits, body, blank, 1, opened);
    assert_woken(rt, &hub, &mut share);
    drop(hub);
}

#[test]
fn an_edit_wakes_a_sleeping_worker(rt: HostRuntime) {
    woken::<Brand, _>(
        &rt,
        rt.alloc(),
        Limits::greatest(),
        Blank::new(1),
        Opened::new(),
        Sum,
    );
}

// The counts of eight workers that would attend forever, at a hub with nothing to do, and were dismissed.
fn dismiss_eight<N: WithBody<Sum> + Send + Sync, R: Threads + Wait + Clock + Sync>(
    rt: &R,
    alloc: Global,
    hub: &Hub<Sum, N>,
) -> Result<Vec<Worked>, AllocError> {
    let worker = |_: usize| attend(rt, hub, &OpenGate, u64::MAX);
    let (worked, ()) = thread::join(
        rt,
        || thread::map_indices(rt, alloc, 8, &worker),
        || {
            let_it_sleep(rt);
            hub.dismiss(rt);
        },
    );
    worked
}

// Eight workers end when they are dismissed, and one that comes later ends too, although a node needs a job. A worker that only works for a
// number of turns still finds that job.
fn assert_dismissed<N: WithBody<Sum> + Send + Sync, R: Threads + Wait + Clock + Abort + Sync>(
    rt: &R,
    alloc: Global,
    hub: &Hub<Sum, N>,
    share: &mut Share<N>,
) -> Result<(), AllocError> {
    assert_same(rt, &attend(rt, hub, &OpenGate, 1), &installed(0));
    for worked in dismiss_eight(rt, alloc, hub)?.iter() {
        assert_same(rt, &*worked, &installed(0));
    }
    push_all(rt, hub, share, 8, 1);
    assert_same(rt, &attend(rt, hub, &OpenGate, 1000), &installed(0));
    assert_same(rt, &work(rt, hub, &OpenGate, 1000), &installed(1));
    Ok(())
}

fn dismissed<N: WithBody<Sum> + Send + Sync, R: Threads + Wait + Clock + Abort + Sync>(
    rt: &R,
    alloc: Global,
    limits: Limits,
    blank: Blank,
    opened: Opened,
    body: Sum,
) -> Result<(), AllocError>
    requires name { blank.name ≡ N.name }
    requires all { blank.parts ≡ N.parts }
    requires one { blank.parts ≡ 1 }
    requires limits { limits ≡ N.limits }
    requires history { opened ≡ N.history }
    requires body { N.body ≡ Some body }
{
    let (hub, mut share) = Hub::<Sum, N>::new(alloc, limits, body, blank, 1, opened);
    let seen = assert_dismissed(rt, alloc, &hub, &mut share);
    drop(hub);
    seen
}

#[test]
fn dismissed_workers_end(rt: HostRuntime) -> Result<(), AllocError> {
    dismissed::<Brand, _>(
        &rt,
        rt.alloc(),
        Limits::greatest(),
        Blank::new(1),
        Opened::new(),
        Sum,
    )
}
