//! Tests what a live vector does with the outcomes of another.
use crate::same::assert_same;
use lv_bodies::{Body, Sum};
use lv_edits::Edit;
use lv_geometry::{Limits, Node, Refusal};
use lv_live::Live;
use lv_refresh::{Claims, Outcome};
use lv_summary::Accepted;
use std::alloc::Global;
use std::process::Abort;
use std::test::Fail;

// Adds equal elements.
pub(crate) fn push_all<B: Body>(live: &mut Live<B>, count: u32, x: i64) -> Result<(), Refusal> {
    for _ in 0..count {
        live.apply(Edit::Push(x))?;
    }
    Ok(())
}

// Gives an outcome to a vector, if the vector vouches for it.
pub(crate) fn give<B: Body>(live: &mut Live<B>, outcome: Outcome<B>) -> Option<Accepted> {
    if live.vet(&outcome) {
        Some(live.accept(outcome))
    } else {
        None
    }
}

// The outcome of the first job of a new vector to which eight elements 2 were pushed.
fn first_outcome(live: &mut Live<Sum>) -> Result<Outcome<Sum>, Fail> {
    push_all(live, 8, 2)?;
    match live.claim() {
        Some(job) => Ok(job.run()),
        None => Err(Fail::new("no job")),
    }
}

fn outcome_of_another(alloc: Global) -> Result<Outcome<Sum>, Fail> {
    let mut other = Live::new(alloc, Limits::greatest(), Sum);
    let outcome = first_outcome(&mut other);
    drop(other);
    outcome
}

// Gives an outcome at once, after a pop, and after a push.
fn give_thrice(
    live: &mut Live<Sum>,
    outcome: Outcome<Sum>,
) -> Result<[Option<Accepted>; 3], Refusal> {
    let first = give(live, outcome);
    live.apply(Edit::Pop)?;
    let second = give(live, outcome);
    live.apply(Edit::Push(1))?;
    Ok([first, second, give(live, outcome)])
}

// Claims a job, and returns its node and version.
fn next(live: &mut Live<Sum>) -> Option<(Node, u32)> {
    let job = live.claim()?;
    Some((job.node(), job.version()))
}

fn check_outcomes(
    rt: &impl Abort,
    live: &mut Live<Sum>,
    outcome: Outcome<Sum>,
) -> Result<(), Refusal> {
    push_all(live, 8, 1)?;
    let given = give_thrice(live, outcome)?;
    let expected = [
        None,
        Some(Accepted::Stale { now: 8 }),
        Some(Accepted::Stale { now: 10 }),
    ];
    assert_same(rt, &given, &expected);
    let node = Node {
        level: 1,
        number: 0,
    };
    assert_same(rt, &next(live), &Some((node, 10)));
    Ok(())
}

#[test]
fn outcomes_of_another_vector(rt: HostRuntime) -> Result<(), Fail> {
    let outcome = outcome_of_another(rt.alloc())?;
    let mut live = Live::new(rt.alloc(), Limits::greatest(), Sum);
    let seen = check_outcomes(&rt, &mut live, outcome);
    drop(live);
    Ok(seen?)
}

// Checks that claims make room for the first block. None is claimed yet.
fn check_claims(rt: &impl Abort, claims: &mut Claims) {
    assert_same(rt, &claims.blocks(), &0);
    assert_same(rt, &claims.grow(1), &Ok(()));
    assert_same(rt, &claims.blocks(), &1);
}

#[test]
fn claims_grow_by_a_block(rt: HostRuntime) {
    let mut claims = Claims::new(rt.alloc());
    check_claims(&rt, &mut claims);
    drop(claims);
}
