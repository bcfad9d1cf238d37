//! Tests that nothing changes when memory runs out.
use crate::same::assert_same;
use lv_bodies::Sum;
use lv_edits::{Edit, Receipt};
use lv_geometry::{Limits, Refusal};
use lv_live::{Event, Live, ReplyOf, World, run};
use std::alloc::Global;
use std::process::Abort;

// Pushes a 1. If there is no memory, it checks that nothing has changed, and pushes again.
fn push_or_again(rt: &impl Abort, live: &mut Live<Sum>) -> Result<Receipt, Refusal> {
    let before = (live.size(), live.edit(), live.capacity());
    let first = live.apply(Edit::Push(1));
    if first == Err(Refusal::NoMemory) {
        assert_same(rt, &(live.size(), live.edit(), live.capacity()), &before);
        return live.apply(Edit::Push(1));
    }
    first
}

fn check_pushes(rt: &impl Abort, live: &mut Live<Sum>) {
    for index in 0..17 {
        let receipt = push_or_again(rt, live);
        assert_same(
            rt,
            &receipt,
            &Ok(Receipt::Pushed {
                edit: index + 1,
                index,
            }),
        );
    }
    assert_same(
        rt,
        &(live.size(), live.edit(), live.capacity()),
        &(17, 17, 24),
    );
}

// To be run with each allocation failing in turn, too.
#[test]
fn want_of_memory_changes_nothing(rt: HostRuntime) {
    let mut live = Live::new(rt.alloc(), Limits::greatest(), Sum);
    check_pushes(&rt, &mut live);
    drop(live);
}

// The reply to a push as an event. If there is no memory, it checks that nothing has changed, and runs the event again.
fn run_or_again(
    rt: &impl Abort,
    alloc: Global,
    world: &mut World<Sum>,
) -> Result<Option<Receipt>, Refusal> {
    let events = [Event::Edit(Edit::Push(1)), Event::Settle];
    let mut replies = run(alloc, world, &events);
    if let Err(refusal) = &replies {
        assert_same(
            rt,
            &(*refusal, world.live().edit()),
            &(Refusal::NoMemory, 0),
        );
        replies = run(alloc, world, &events);
    }
    Ok(match replies?.as_slice() {
        [ReplyOf::Did(receipt), ReplyOf::Settled] => Some(*receipt),
        _ => None,
    })
}

fn check_run(rt: &impl Abort, alloc: Global, world: &mut World<Sum>) -> Result<(), Refusal> {
    let pushed = run_or_again(rt, alloc, world)?;
    if world.live().edit() == 1 {
        assert_same(rt, &pushed, &Some(Receipt::Pushed { edit: 1, index: 0 }));
    }
    Ok(())
}

// To be run with each allocation failing in turn, too.
#[test]
fn a_run_without_room_changes_nothing(rt: HostRuntime) -> Result<(), Refusal> {
    let mut world = World::new(rt.alloc(), Limits::greatest(), Sum);
    let seen = check_run(&rt, rt.alloc(), &mut world);
    drop(world);
    seen
}
