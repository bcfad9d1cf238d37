//! Tests that a worker which waits at its gate, or within a body's `lift`, blocks nobody.
ghost use Rattle.std.specs.Prelude.{◌≡◌, Some};

use crate::common::*;
use crate::same::assert_same;
use fixtures::{Latch, Stage, Staged};
use lv_bodies::Body;
use lv_edits::{Edit, Receipt};
use lv_geometry::{Limits, Refusal};
use lv_hub::*;
use lv_reduce::Answer;
use std::alloc::Global;
use std::marker::Brand;
use std::process::Abort;
use std::sync::Wait;
use std::sync::atomic::{AtomicU32, Ordering};
use std::sync::ledger::Blank;
use std::thread;
use std::thread::Threads;

// A gate at which a worker waits, and after which the next call of `lift` waits. It also has the number of elements that were lifted before.
#[derive(Drop)]
struct JobGate<'a> {
    latch: Latch,
    stage: &'a Stage,
    early: AtomicU32,
}

impl Gate for JobGate<'_> {
    fn hold(&self, _turn: u64) {
        self.early.store(self.stage.take_lifts(), Ordering::SeqCst);
        self.latch.stand();
        self.stage.hold_next_lift();
    }
}

// The replies to the main thread while a job is held: to a push and a reduction while the worker is at the gate, and to another push while it is
// within `lift`.
type HeldAnswers = (
    Result<Receipt, Refusal>,
    Result<Answer<u64>, Refusal>,
    Result<Receipt, Refusal>,
);

// Makes these calls while a worker waits.
fn while_held<B: Body<S = u64>, N: WithBody<B>, R: Wait>(
    rt: &R,
    hub: &Hub<B, N>,
    share: &mut Share<N>,
    gate: &JobGate<'_>,
) -> HeldAnswers {
    gate.latch.wait_for_it();
    let first = hub.edit(rt, share, Edit::Push(1));
    let answer = hub.reduce(rt, share, 0, 9);
    gate.latch.release();
    gate.stage.latch.wait_for_it();
    let second = hub.edit(rt, share, Edit::Push(1));
    gate.stage.latch.release();
    (first, answer, second)
}

// Gives a new hub eight elements 1. A worker's first job is held, and the main thread makes its calls at the same time.
fn hold_once<B: Body<S = u64>, N: WithBody<B> + Send + Sync, R: Threads + Wait + Abort + Sync>(
    rt: &R,
    hub: &Hub<B, N>,
    share: &mut Share<N>,
    gate: &JobGate<'_>,
) -> (Worked, HeldAnswers) {
    push_all(rt, hub, share, 8, 1);
    thread::join(
        rt,
        move || work(rt, hub, gate, 1),
        move || while_held(rt, hub, share, gate),
    )
}

// The results while a job of a hub of eight elements 1 was held.
fn hold_a_job<B: Body<S = u64>, N: WithBody<B> + Send + Sync, R: Threads + Wait + Abort + Sync>(
    rt: &R,
    alloc: Global,
    limits: Limits,
    blank: Blank,
    opened: Opened,
    body: B,
    gate: &JobGate<'_>,
) -> (Worked, HeldAnswers)
    requires name { blank.name ≡ N.name }
    requires all { blank.parts ≡ N.parts }
    requires one { blank.parts ≡ 1 }
    requires limits { limits ≡ N.limits }
    requires history { opened ≡ N.history }
    requires body { N.body ≡ Some body }
{
    let (hub, mut share) = Hub::<B, N>::new(alloc, limits, body, blank, 1, opened);
    let done = hold_once(rt, &hub, &mut share, gate);
    drop(hub);
    done
}

// Checks the results while a job was held.
fn assert_held(rt: &impl Abort, done: (Worked, HeldAnswers)) -> Result<(), Refusal> {
    let (worked, (first, answer, second)) = done;
    let first_wanted = Receipt::Pushed { edit: 9, index: 8 };
    let second_wanted = Receipt::Pushed { edit: 10, index: 9 };
    assert_same(rt, &(first, second), &(Ok(first_wanted), Ok(second_wanted)));
    assert_same(rt, &worked, &installed(1));
    let answer = answer?;
    assert_same(rt, &(answer.edit, answer.value), &(9, 9));
    Ok(())
}

#[test]
fn a_held_job_holds_nobody(rt: HostRuntime) -> Result<(), Refusal> {
    let stage = Stage::new(false);
    let gate = JobGate {
        latch: Latch::new(),
        stage: &stage,
        early: AtomicU32::new(0),
    };
    let done = hold_a_job::<Staged<'_>, Brand, _>(
        &rt,
        rt.alloc(),
        Limits::greatest(),
        Blank::new(1),
        Opened::new(),
        Staged { stage: &stage },
        &gate,
    );
    assert_same(&rt, &gate.latch.was_in_time(), &true);
    assert_same(&rt, &stage.latch.was_in_time(), &true);
    // A claim that computes its job under the lock lifts elements before the gate.
    assert_same(&rt, &gate.early.load(Ordering::SeqCst), &0);
    assert_held(&rt, done)
}
