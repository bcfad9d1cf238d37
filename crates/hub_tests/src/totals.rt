//! Tests that shares count all accepted updates and no others, when two threads make updates and when memory runs out.
ghost use Rattle.std.specs.Prelude.{◌≡◌, Some};

use crate::common::*;
use crate::same::assert_same;
use lv_bodies::Sum;
use lv_edits::{Edit, Receipt};
use lv_geometry::{Limits, Refusal};
use lv_hub::*;
use std::alloc::Global;
use std::marker::Brand;
use std::process::Abort;
use std::sync::Wait;
use std::sync::ledger::Blank;
use std::thread;
use std::thread::Threads;

// Pushes 500 elements with a share of its own, and returns it.
fn push_500<N: WithBody<Sum>, R: Wait + Abort>(
    rt: &R,
    hub: &Hub<Sum, N>,
    share: Share<N>,
) -> Share<N>
    ensures { result.parts ≡ share.parts }
{
    let mut share = share;
    push_all(rt, hub, &mut share, 500, 1);
    share
}

// Two threads push 500 elements each. Both shares are returned as one.
fn push_from_two<N: WithBody<Sum> + Send + Sync, R: Threads + Wait + Abort + Sync>(
    rt: &R,
    hub: &Hub<Sum, N>,
    share: Share<N>,
) -> Share<N>
    requires { share.parts ≡ 2 }
    ensures { result.parts ≡ 2 }
{
    let mut mine = share;
    let theirs = mine.split();
    let (theirs, mut all) = thread::join(
        rt,
        move || push_500(rt, hub, theirs),
        move || push_500(rt, hub, mine),
    );
    all.join(theirs);
    all
}

// A hub at which two threads make updates is closed.
fn total<N: WithBody<Sum> + Send + Sync, R: Threads + Wait + Abort + Sync>(
    rt: &R,
    alloc: Global,
    limits: Limits,
    blank: Blank,
    opened: Opened,
    body: Sum,
)
    requires name { blank.name ≡ N.name }
    requires all { blank.parts ≡ N.parts }
    requires two { blank.parts ≡ 2 }
    requires limits { limits ≡ N.limits }
    requires history { opened ≡ N.history }
    requires body { N.body ≡ Some body }
{
    let (hub, share) = Hub::<Sum, N>::new(alloc, limits, body, blank, 2, opened);
    let share = push_from_two(rt, &hub, share);
    let counted = share.count();
    assert_counted(rt, counted, hub.close(share), 1000);
}

#[test]
fn totals_over_threads(rt: HostRuntime) {
    total::<Brand, _>(
        &rt,
        rt.alloc(),
        Limits::greatest(),
        Blank::new(2),
        Opened::new(),
        Sum,
    );
}

// Pushes a 1. If memory runs out, it checks that the share counts nothing, and pushes again.
fn push_or_again<N: WithBody<Sum>, R: Wait + Abort>(
    rt: &R,
    hub: &Hub<Sum, N>,
    share: &mut Share<N>,
) -> Result<Receipt, Refusal>
    ensures { share.new.parts ≡ share.old.parts }
{
    let before = share.count();
    let first = hub.edit(rt, share, Edit::Push(1));
    if first == Err(Refusal::NoMemory) {
        assert_same(rt, &share.count(), &before);
        return hub.edit(rt, share, Edit::Push(1));
    }
    first
}

fn push_nine<N: WithBody<Sum>, R: Wait + Abort>(rt: &R, hub: &Hub<Sum, N>, share: &mut Share<N>)
    ensures { share.new.parts ≡ share.old.parts }
{
    for index in 0..9 {
        let receipt = push_or_again(rt, hub, share);
        let edit = index + 1;
        assert_same(rt, &receipt, &Ok(Receipt::Pushed { edit, index }));
    }
}

// Makes nine pushes.
struct NinePushes;

impl AtHub<Sum> for NinePushes {
    type Seen = ();

    fn meet<N: WithBody<Sum>, R: Wait + Abort>(
        &self,
        rt: &R,
        _alloc: Global,
        hub: &Hub<Sum, N>,
        share: Share<N>,
    ) -> (Share<N>, ()) {
        let mut share = share;
        push_nine(rt, hub, &mut share);
        (share, ())
    }
}

// It is also run with each allocation failing in turn.
#[test]
fn want_of_memory_counts_nothing(rt: HostRuntime) {
    let ((), counted, live) = at_hub(&rt, rt.alloc(), Sum, &NinePushes);
    assert_counted(&rt, counted, live, 9);
}
