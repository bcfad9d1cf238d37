//! Tests a worker whose outcome comes late, after another worker and an update.
ghost use Rattle.std.specs.Prelude.{◌≡◌, Some};

use crate::common::*;
use crate::same::assert_same;
use fixtures::Latch;
use lv_bodies::Sum;
use lv_edits::{Edit, Receipt};
use lv_geometry::{Limits, Refusal};
use lv_hub::*;
use std::alloc::Global;
use std::marker::Brand;
use std::process::Abort;
use std::sync::Wait;
use std::sync::ledger::Blank;
use std::test::Fail;
use std::thread;
use std::thread::Threads;

// A gate at which a worker waits.
#[derive(Drop)]
struct HeldGate {
    latch: Latch,
}

impl Gate for HeldGate {
    fn hold(&self, _turn: u64) {
        self.latch.stand();
    }
}

// The counts of a worker whose only outcome was stale.
fn one_stale() -> Worked {
    Worked {
        claimed: 1,
        installed: 0,
        held: 0,
        stale: 1,
        strangers: 0,
    }
}

// While the first worker waits at its gate, a second one works for a turn, and then the first element is overwritten.
fn overtake<N: WithBody<Sum>, R: Wait>(
    rt: &R,
    hub: &Hub<Sum, N>,
    share: &mut Share<N>,
    gate: &HeldGate,
) -> (Worked, Result<Receipt, Refusal>) {
    gate.latch.wait_for_it();
    let worked = work(rt, hub, &OpenGate, 1);
    let written = hub.edit(rt, share, Edit::Write { index: 0, value: 9 });
    gate.latch.release();
    (worked, written)
}

// The counts of the late worker, those of the other worker, and the reply to the update that was made meanwhile.
type DoneLate = (Worked, (Worked, Result<Receipt, Refusal>));

// A worker that claimed the first block waits at its gate while another works and the main thread makes an update.
fn work_late<N: WithBody<Sum> + Send + Sync, R: Threads + Wait + Sync>(
    rt: &R,
    hub: &Hub<Sum, N>,
    share: &mut Share<N>,
    gate: &HeldGate,
) -> DoneLate {
    thread::join(
        rt,
        move || work(rt, hub, gate, 1),
        move || overtake(rt, hub, share, gate),
    )
}

// Checks the results while a worker was late.
fn assert_done_late(rt: &impl Abort, done: DoneLate) {
    let receipt = Receipt::Written {
        edit: 17,
        before: 1,
    };
    assert_same(rt, &done, &(one_stale(), (installed(1), Ok(receipt))));
}

// Gives a new hub 16 elements 1, at which a worker is late.
fn assert_late<N: WithBody<Sum> + Send + Sync, R: Threads + Wait + Abort + Sync>(
    rt: &R,
    hub: &Hub<Sum, N>,
    share: &mut Share<N>,
) -> Result<(), Fail> {
    push_all(rt, hub, share, 16, 1);
    let gate = HeldGate {
        latch: Latch::new(),
    };
    let done = work_late(rt, hub, share, &gate);
    assert_same(rt, &gate.latch.was_in_time(), &true);
    assert_done_late(rt, done);
    assert_sum(rt, hub, share, 16, 17, 24)
}

// A hub of 16 elements 1, at which a worker is late.
fn late_worker<N: WithBody<Sum> + Send + Sync, R: Threads + Wait + Abort + Sync>(
    rt: &R,
    alloc: Global,
    limits: Limits,
    blank: Blank,
    opened: Opened,
    body: Sum,
) -> Result<(), Fail>
    requires name { blank.name ≡ N.name }
    requires all { blank.parts ≡ N.parts }
    requires one { blank.parts ≡ 1 }
    requires limits { limits ≡ N.limits }
    requires history { opened ≡ N.history }
    requires body { N.body ≡ Some body }
{
    let (hub, mut share) = Hub::<Sum, N>::new(alloc, limits, body, blank, 1, opened);
    let seen = assert_late(rt, &hub, &mut share);
    drop(hub);
    seen
}

#[test]
fn a_late_worker(rt: HostRuntime) -> Result<(), Fail> {
    late_worker::<Brand, _>(
        &rt,
        rt.alloc(),
        Limits::greatest(),
        Blank::new(1),
        Opened::new(),
        Sum,
    )
}
