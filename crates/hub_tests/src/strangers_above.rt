//! Tests the reply of a hub to the outcome of another hub, for a node above the blocks.
ghost use Rattle.std.specs.Prelude.{◌≡◌};

use crate::common::*;
use crate::same::assert_same;
use lv_bodies::Sum;
use lv_geometry::{Node, Refusal};
use lv_hub::*;
use lv_refresh::Outcome;
use lv_summary::Accepted;
use std::alloc::Global;
use std::process::Abort;
use std::sync::Wait;
use std::test::Fail;

// Claims a hub's next job and delivers its outcome.
fn refresh<N: WithBody<Sum>, R: Wait + Abort>(rt: &R, hub: &Hub<Sum, N>) -> Result<(), Fail> {
    let outcome = next_outcome(rt, hub)?;
    assert_given(rt, hub, outcome, Ok(Accepted::Installed));
    Ok(())
}

// Gives a new hub 64 equal elements, and has its eight blocks precomputed.
fn eight_blocks<N: WithBody<Sum>, R: Wait + Abort>(
    rt: &R,
    hub: &Hub<Sum, N>,
    share: &mut Share<N>,
    x: i64,
) -> Result<(), Fail>
    ensures { share.new.parts ≡ share.old.parts }
{
    push_all(rt, hub, share, 64, x);
    for _ in 0..8 {
        refresh(rt, hub)?;
    }
    Ok(())
}

// Gives a new hub 64 elements 2, and computes the job of the node above its eight blocks.
fn outcome_of_64<N: WithBody<Sum>, R: Wait + Abort>(
    rt: &R,
    hub: &Hub<Sum, N>,
    share: &mut Share<N>,
) -> Result<Outcome<Sum>, Fail>
    ensures { share.new.parts ≡ share.old.parts }
{
    eight_blocks(rt, hub, share, 2)?;
    let outcome = next_outcome(rt, hub)?;
    let node = Node {
        level: 2,
        number: 0,
    };
    assert_same(rt, &(outcome.node(), outcome.version()), &(node, 64));
    Ok(outcome)
}

// Has a hub of 64 elements 2 compute the job of the node above its eight blocks.
struct JobAbove;

impl AtHub<Sum> for JobAbove {
    type Seen = Result<Outcome<Sum>, Fail>;

    fn meet<N: WithBody<Sum>, R: Wait + Abort>(
        &self,
        rt: &R,
        _alloc: Global,
        hub: &Hub<Sum, N>,
        share: Share<N>,
    ) -> (Share<N>, Result<Outcome<Sum>, Fail>) {
        let mut share = share;
        let outcome = outcome_of_64(rt, hub, &mut share);
        (share, outcome)
    }
}

// Gives a new hub 64 elements 1, and an outcome of another hub for a node above the blocks, before and after a write.
fn assert_strangers_above<N: WithBody<Sum>, R: Wait + Abort>(
    rt: &R,
    hub: &Hub<Sum, N>,
    share: &mut Share<N>,
    strange: Outcome<Sum>,
) -> Result<(), Fail>
    ensures { share.new.parts ≡ share.old.parts }
{
    eight_blocks(rt, hub, share, 1)?;
    assert_given(rt, hub, strange, Err(Refusal::Stranger));
    overwrite_a_one(rt, hub, share, 3, 9, 65);
    assert_given(rt, hub, strange, Ok(Accepted::Stale { now: 65 }));
    Ok(())
}

// Gives a hub of 64 elements 1 an outcome of another hub for a node above the blocks, before and after a write.
#[derive(Drop)]
struct StrangersAbove {
    strange: Outcome<Sum>,
}

impl AtHub<Sum> for StrangersAbove {
    type Seen = Result<(), Fail>;

    fn meet<N: WithBody<Sum>, R: Wait + Abort>(
        &self,
        rt: &R,
        _alloc: Global,
        hub: &Hub<Sum, N>,
        share: Share<N>,
    ) -> (Share<N>, Result<(), Fail>) {
        let mut share = share;
        let seen = assert_strangers_above(rt, hub, &mut share, self.strange);
        (share, seen)
    }
}

#[test]
fn strangers_above_the_blocks(rt: HostRuntime) -> Result<(), Fail> {
    let (strange, counted, live) = at_hub(&rt, rt.alloc(), Sum, &JobAbove);
    assert_counted(&rt, counted, live, 64);
    let strangers = StrangersAbove { strange: strange? };
    let (seen, counted, live) = at_hub(&rt, rt.alloc(), Sum, &strangers);
    assert_counted(&rt, counted, live, 65);
    seen
}
