//! A test that jobs which are held to the end, and then delivered late and twice, change no answer.
use crate::same::assert_same;
use lv_bodies::{Affine, AffineMap};
use lv_edits::{Edit, Receipt};
use lv_geometry::{Limits, Refusal};
use lv_live::{Event, ReplyOf, World, run};
use lv_reduce::Answer;
use lv_summary::Accepted;
use std::alloc::{AllocError, Global};
use std::test::Fail;

// The map `y -> 2y + 3` is the first element; all others are `y -> y + 1`.
fn element(index: u32) -> i64 {
    if index == 0 { 515 } else { 257 }
}

// Eight blocks are pushed; the last element of every other block is popped and pushed again. If `refreshes` is true, a job is claimed after each
// eighth push.
fn edits(alloc: Global, refreshes: bool) -> Result<Vec<Event>, AllocError> {
    let mut events = Vec::new(alloc);
    for index in 0..64 {
        let push = Event::Edit(Edit::Push(element(index)));
        events.push(push)?;
        if refreshes && index % 8 == 7 {
            events.push(Event::Claim)?;
        }
        if index % 16 == 15 {
            events.push(Event::Edit(Edit::Pop))?;
            events.push(push)?;
        }
    }
    Ok(events)
}

// These edits. If `refreshes` is true, all jobs are delivered after them, in reverse order and each twice. Then come two reductions.
fn events(alloc: Global, refreshes: bool) -> Result<Vec<Event>, AllocError> {
    let mut events = edits(alloc, refreshes)?;
    if refreshes {
        for job in [8, 7, 6, 5, 4, 3, 2, 1] {
            events.push(Event::Deliver(job))?;
            events.push(Event::Deliver(job))?;
        }
        events.push(Event::Forget)?;
    }
    events.push(Event::Reduce { lo: 0, hi: 64 })?;
    events.push(Event::Reduce { lo: 1, hi: 64 })?;
    Ok(events)
}

// The replies to some events, in a new world.
fn play(alloc: Global, events: &[Event]) -> Result<Vec<ReplyOf<AffineMap>>, Refusal> {
    let mut world = World::new(alloc, Limits::greatest(), Affine);
    let replies = run(alloc, &mut world, events);
    drop(world);
    replies
}

// The part of a reply that no refresh event changes: a receipt, or an answer without its counts.
#[derive(Clone, Copy, PartialEq, Eq)]
enum Plain {
    Did(Receipt),
    Answered(u32, AffineMap),
}

// The replies to edits and reductions.
fn answers_of(alloc: Global, replies: &[ReplyOf<AffineMap>]) -> Result<Vec<Plain>, AllocError> {
    let mut all = Vec::new(alloc);
    for reply in replies {
        match reply {
            ReplyOf::Did(receipt) => all.push(Plain::Did(*receipt))?,
            ReplyOf::Answered(answer) => all.push(Plain::Answered(answer.edit, answer.value))?,
            _ => {}
        }
    }
    Ok(all)
}

// What became of the outcomes that were delivered.
fn given(alloc: Global, replies: &[ReplyOf<AffineMap>]) -> Result<Vec<Accepted>, AllocError> {
    let mut all = Vec::new(alloc);
    for reply in replies {
        if let ReplyOf::Gave(accepted) = reply {
            all.push(*accepted)?;
        }
    }
    Ok(all)
}

// The last reply, if it is an answer.
fn last(replies: &[ReplyOf<AffineMap>]) -> Option<Answer<AffineMap>> {
    match replies.last() {
        Some(ReplyOf::Answered(answer)) => Some(*answer),
        _ => None,
    }
}

// What becomes of the deliveries. Job 2 is that of the second block before its last element was popped; job 3 is that of the same block after.
fn wanted() -> [Accepted; 16] {
    let mut wanted = [Accepted::Held; 16];
    for place in [0, 2, 4, 6, 8, 10, 14] {
        wanted[place] = Accepted::Installed;
    }
    wanted[12] = Accepted::Stale { now: 18 };
    wanted[13] = Accepted::Stale { now: 18 };
    wanted
}

#[test]
fn held_to_the_end(rt: HostRuntime) -> Result<(), Fail> {
    let alloc = rt.alloc();
    let refreshed = play(alloc, &events(alloc, true)?)?;
    let alone = play(alloc, &events(alloc, false)?)?;
    assert_same(
        &rt,
        &given(alloc, &refreshed)?.as_slice(),
        &wanted().as_slice(),
    );
    assert_same(
        &rt,
        &answers_of(alloc, &refreshed)?.as_slice(),
        &answers_of(alloc, &alone)?.as_slice(),
    );
    let answer = Answer {
        edit: 72,
        value: AffineMap { a: 1, b: 63 },
        cells_read: 15,
        summaries_read: 6,
    };
    assert_same(&rt, &last(&refreshed), &Some(answer));
    Ok(())
}
