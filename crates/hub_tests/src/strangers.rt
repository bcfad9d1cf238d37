//! Tests the reply of a hub to the outcome of another hub, and the results of both scans.
ghost use Rattle.std.specs.Prelude.{◌≡◌, Some};

use crate::common::*;
use crate::same::assert_same;
use lv_bodies::{Automaton, Sum};
use lv_geometry::{Limits, Refusal};
use lv_hub::*;
use lv_reduce::Scan;
use lv_refresh::Outcome;
use lv_summary::Accepted;
use std::alloc::Global;
use std::marker::Brand;
use std::process::Abort;
use std::sync::Wait;
use std::sync::ledger::Blank;
use std::test::Fail;
use std::thread::Threads;

// Computes the first job of a hub of eight equal elements.
#[derive(Drop)]
struct FirstJob {
    x: i64,
}

impl AtHub<Sum> for FirstJob {
    type Seen = Result<Outcome<Sum>, Fail>;

    fn meet<N: WithBody<Sum>, R: Wait + Abort>(
        &self,
        rt: &R,
        _alloc: Global,
        hub: &Hub<Sum, N>,
        share: Share<N>,
    ) -> (Share<N>, Result<Outcome<Sum>, Fail>) {
        let mut share = share;
        push_all(rt, hub, &mut share, 8, self.x);
        (share, next_outcome(rt, hub))
    }
}

impl AtHub<Automaton> for FirstJob {
    type Seen = Result<Outcome<Automaton>, Fail>;

    fn meet<N: WithBody<Automaton>, R: Wait + Abort>(
        &self,
        rt: &R,
        _alloc: Global,
        hub: &Hub<Automaton, N>,
        share: Share<N>,
    ) -> (Share<N>, Result<Outcome<Automaton>, Fail>) {
        let mut share = share;
        push_all(rt, hub, &mut share, 8, self.x);
        (share, next_outcome(rt, hub))
    }
}

// The outcome of the first job of a hub of eight elements 1, by an automaton.
fn outcome_by<R: Wait + Abort>(
    rt: &R,
    alloc: Global,
    body: Automaton,
) -> Result<Outcome<Automaton>, Fail> {
    let (outcome, counted, live) = at_hub(rt, alloc, body, &FirstJob { x: 1 });
    assert_counted(rt, counted, live, 8);
    outcome
}

// Gives an outcome to a hub of eight elements 1.
#[derive(Drop)]
struct Given {
    outcome: Outcome<Automaton>,
}

impl AtHub<Automaton> for Given {
    type Seen = Result<Accepted, Refusal>;

    fn meet<N: WithBody<Automaton>, R: Wait + Abort>(
        &self,
        rt: &R,
        _alloc: Global,
        hub: &Hub<Automaton, N>,
        share: Share<N>,
    ) -> (Share<N>, Result<Accepted, Refusal>) {
        let mut share = share;
        push_all(rt, hub, &mut share, 8, 1);
        (share, hub.give(rt, self.outcome))
    }
}

// The reply to an outcome of a hub of eight elements 1, with the program's automaton.
fn answer_to<R: Wait + Abort>(
    rt: &R,
    alloc: Global,
    outcome: Outcome<Automaton>,
) -> Result<Accepted, Refusal> {
    let body = Automaton::program();
    let (answer, counted, live) = at_hub(rt, alloc, body, &Given { outcome });
    assert_counted(rt, counted, live, 8);
    answer
}

// Checks the version and the values of a scan.
fn assert_scan(rt: &impl Abort, scan: &Scan<u64>, edit: u32, values: &[u64]) {
    assert_same(rt, &scan.edit, &edit);
    assert_same(rt, &scan.values.as_slice(), &values);
}

// Gives a hub of eight elements 1 the outcome of another, and then its own, twice.
fn assert_own_alone<N: WithBody<Sum>, R: Wait + Abort>(
    rt: &R,
    hub: &Hub<Sum, N>,
    share: &mut Share<N>,
    strange: Outcome<Sum>,
) -> Result<(), Fail>
    ensures { share.new.parts ≡ share.old.parts }
{
    assert_given(rt, hub, strange, Err(Refusal::Stranger));
    assert_sum(rt, hub, share, 8, 8, 8)?;
    let own = next_outcome(rt, hub)?;
    assert_given(rt, hub, own, Ok(Accepted::Installed));
    assert_given(rt, hub, own, Ok(Accepted::Held));
    Ok(())
}

// Checks that a hub of eight elements 1 follows a write of 5, and that the other hub's outcome is now late.
fn assert_follows<N: WithBody<Sum>, R: Threads + Wait + Abort + Sync>(
    rt: &R,
    alloc: Global,
    hub: &Hub<Sum, N>,
    share: &mut Share<N>,
    strange: Outcome<Sum>,
) -> Result<(), Fail>
    ensures { share.new.parts ≡ share.old.parts }
{
    assert_given(rt, hub, strange, Ok(Accepted::Stale { now: 9 }));
    assert_sum(rt, hub, share, 8, 9, 12)?;
    assert_scans(rt, alloc, hub, share)
}

// Checks both scans of the elements 5 and 1 with which a hub begins at version 9.
fn assert_scans<N: WithBody<Sum>, R: Threads + Wait + Abort + Sync>(
    rt: &R,
    alloc: Global,
    hub: &Hub<Sum, N>,
    share: &mut Share<N>,
) -> Result<(), Fail>
    ensures { share.new.parts ≡ share.old.parts }
{
    assert_scan(rt, &hub.scan_inclusive(rt, alloc, share, 0, 2)?, 9, &[5, 6]);
    assert_scan(rt, &hub.scan_exclusive(rt, alloc, share, 0, 2)?, 9, &[0, 5]);
    Ok(())
}

// Gives a new hub eight elements 1, and an outcome of another hub before and after a write.
fn assert_strangers<N: WithBody<Sum>, R: Threads + Wait + Abort + Sync>(
    rt: &R,
    alloc: Global,
    hub: &Hub<Sum, N>,
    share: &mut Share<N>,
    strange: Outcome<Sum>,
) -> Result<(), Fail>
    ensures { share.new.parts ≡ share.old.parts }
{
    push_all(rt, hub, share, 8, 1);
    assert_own_alone(rt, hub, share, strange)?;
    overwrite_a_one(rt, hub, share, 0, 5, 9);
    assert_follows(rt, alloc, hub, share, strange)
}

// A hub of eight elements 1 gets an outcome of another hub before and after a write, and is closed.
fn one_hub_of_two<N: WithBody<Sum>, R: Threads + Wait + Abort + Sync>(
    rt: &R,
    alloc: Global,
    limits: Limits,
    blank: Blank,
    opened: Opened,
    body: Sum,
    strange: Outcome<Sum>,
) -> Result<(), Fail>
    requires name { blank.name ≡ N.name }
    requires all { blank.parts ≡ N.parts }
    requires one { blank.parts ≡ 1 }
    requires limits { limits ≡ N.limits }
    requires history { opened ≡ N.history }
    requires body { N.body ≡ Some body }
{
    let (hub, mut share) = Hub::<Sum, N>::new(alloc, limits, body, blank, 1, opened);
    let seen = assert_strangers(rt, alloc, &hub, &mut share, strange);
    let counted = share.count();
    assert_counted(rt, counted, hub.close(share), 9);
    seen
}

#[test]
fn two_hubs(rt: HostRuntime) -> Result<(), Fail> {
    let (strange, counted, live) = at_hub(&rt, rt.alloc(), Sum, &FirstJob { x: 2 });
    assert_counted(&rt, counted, live, 8);
    let strange = strange?;
    one_hub_of_two::<Brand, _>(
        &rt,
        rt.alloc(),
        Limits::greatest(),
        Blank::new(1),
        Opened::new(),
        Sum,
        strange,
    )
}

#[test]
fn equal_contents_are_no_stranger(rt: HostRuntime) -> Result<(), Fail> {
    let outcome = outcome_by(&rt, rt.alloc(), Automaton::program())?;
    let answer = answer_to(&rt, rt.alloc(), outcome);
    assert_same(&rt, &answer, &Ok(Accepted::Installed));
    Ok(())
}

// The automaton that an element `x` leads from state `q` to `(q + x mod 4) mod 8`.
fn adding() -> Result<Automaton, Refusal> {
    Automaton::new([
        [0, 1, 2, 3],
        [1, 2, 3, 4],
        [2, 3, 4, 5],
        [3, 4, 5, 6],
        [4, 5, 6, 7],
        [5, 6, 7, 0],
        [6, 7, 0, 1],
        [7, 0, 1, 2],
    ])
}

#[test]
fn an_outcome_by_another_table_is_a_stranger(rt: HostRuntime) -> Result<(), Fail> {
    let outcome = outcome_by(&rt, rt.alloc(), adding()?)?;
    let answer = answer_to(&rt, rt.alloc(), outcome);
    assert_same(&rt, &answer, &Err(Refusal::Stranger));
    Ok(())
}
