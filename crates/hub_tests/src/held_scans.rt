//! Tests that a scan which waits within a body's `lift` blocks nobody: its elements were copied, and the lock is free again.
ghost use Rattle.std.specs.Prelude.{◌≡◌, Some};

use crate::common::*;
use crate::same::assert_same;
use fixtures::{Stage, Staged};
use lv_bodies::Body;
use lv_edits::{Edit, Receipt};
use lv_geometry::{Limits, Refusal};
use lv_hub::*;
use lv_reduce::Scan;
use std::alloc::Global;
use std::marker::Brand;
use std::process::Abort;
use std::sync::Wait;
use std::sync::ledger::Blank;
use std::test::Fail;
use std::thread;
use std::thread::Threads;

// One of the two scans of a hub's first two elements. Its first `lift` waits.
fn scan_two<B: Body<S = u64>, N: WithBody<B>, R: Threads + Wait + Sync>(
    rt: &R,
    alloc: Global,
    hub: &Hub<B, N>,
    share: &mut Share<N>,
    stage: &Stage,
    inclusive: bool,
) -> Result<Scan<u64>, Refusal> {
    stage.hold_next_lift();
    if inclusive {
        return hub.scan_inclusive(rt, alloc, share, 0, 2);
    }
    hub.scan_exclusive(rt, alloc, share, 0, 2)
}

// Pushes while a scan waits, and then releases it.
fn push_meanwhile<B: Body<S = u64>, N: WithBody<B>, R: Wait>(
    rt: &R,
    hub: &Hub<B, N>,
    share: &mut Share<N>,
    stage: &Stage,
) -> Result<Receipt, Refusal> {
    stage.latch.wait_for_it();
    let pushed = hub.edit(rt, share, Edit::Push(1));
    stage.latch.release();
    pushed
}

// The result of a held scan, and of the push that was made at the same time.
type ScanAndPush = (Result<Scan<u64>, Refusal>, Result<Receipt, Refusal>);

// Gives a new hub two elements 1. One thread scans them and is held, and another pushes.
fn hold_once<B: Body<S = u64>, N: WithBody<B> + Send + Sync, R: Threads + Wait + Abort + Sync>(
    rt: &R,
    alloc: Global,
    hub: &Hub<B, N>,
    share: Share<N>,
    stage: &Stage,
    inclusive: bool,
) -> ScanAndPush
    requires { share.parts ≡ 2 }
{
    let mut mine = share;
    let mut theirs = mine.split();
    push_all(rt, hub, &mut mine, 2, 1);
    thread::join(
        rt,
        move || scan_two(rt, alloc, hub, &mut theirs, stage, inclusive),
        move || push_meanwhile(rt, hub, &mut mine, stage),
    )
}

// Holds a scan at a hub of its own.
fn hold_a_scan<B: Body<S = u64>, N: WithBody<B> + Send + Sync, R: Threads + Wait + Abort + Sync>(
    rt: &R,
    alloc: Global,
    limits: Limits,
    blank: Blank,
    opened: Opened,
    body: B,
    stage: &Stage,
    inclusive: bool,
) -> ScanAndPush
    requires name { blank.name ≡ N.name }
    requires all { blank.parts ≡ N.parts }
    requires two { blank.parts ≡ 2 }
    requires limits { limits ≡ N.limits }
    requires history { opened ≡ N.history }
    requires body { N.body ≡ Some body }
{
    let (hub, share) = Hub::<B, N>::new(alloc, limits, body, blank, 2, opened);
    let done = hold_once(rt, alloc, &hub, share, stage, inclusive);
    drop(hub);
    done
}

// Checks that a push during a held scan waits for nothing, and that the scan's version is that before the push.
fn assert_held_scan<R: Threads + Wait + Abort + Sync>(
    rt: &R,
    alloc: Global,
    inclusive: bool,
    values: &[u64],
) -> Result<(), Fail> {
    let stage = Stage::new(false);
    let (scan, pushed) = hold_a_scan::<Staged<'_>, Brand, _>(
        rt,
        alloc,
        Limits::greatest(),
        Blank::new(2),
        Opened::new(),
        Staged { stage: &stage },
        &stage,
        inclusive,
    );
    assert_same(rt, &stage.latch.was_in_time(), &true);
    let receipt = Receipt::Pushed { edit: 3, index: 2 };
    assert_same(rt, &pushed, &Ok(receipt));
    let scan = scan?;
    assert_same(rt, &scan.edit, &2);
    assert_same(rt, &scan.values.as_slice(), &values);
    Ok(())
}

#[test]
fn a_held_inclusive_scan_holds_nobody(rt: HostRuntime) -> Result<(), Fail> {
    assert_held_scan(&rt, rt.alloc(), true, &[1, 2])
}

#[test]
fn a_held_exclusive_scan_holds_nobody(rt: HostRuntime) -> Result<(), Fail> {
    assert_held_scan(&rt, rt.alloc(), false, &[0, 1])
}
