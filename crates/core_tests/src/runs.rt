//! Tests of runs: every event's reply as a value, and that a reduction lifts as many elements as it says.
use crate::live::{give, push_all};
use crate::same::assert_same;
use fixtures::{Stage, Staged};
use lv_bodies::Sum;
use lv_edits::{Edit, Receipt};
use lv_geometry::{Limits, Refusal};
use lv_live::{Event, Live, ReplyOf, World, run};
use lv_reduce::{Answer, Scan, reduce};
use lv_summary::Accepted;
use std::alloc::Global;
use std::process::Abort;

// Claims a job, runs it and delivers its outcome, if there is a job.
fn refresh_counted(live: &mut Live<Staged<'_>>) -> Option<Accepted> {
    match live.claim() {
        Some(job) => give(live, job.run()),
        None => None,
    }
}

// Sums all of 64 ones but the first and the last, and checks how many elements and summaries it reads, and how many lifts it takes.
fn assert_lifts(
    rt: &impl Abort,
    live: &Live<Staged<'_>>,
    stage: &Stage,
    wanted: (u32, u32, u32),
) -> Result<(), Refusal> {
    stage.take_lifts();
    let answer = live.reduce(1, 63)?;
    let read = (answer.cells_read, answer.summaries_read, stage.take_lifts());
    assert_same(rt, &(answer.edit, answer.value, read), &(64, 62, wanted));
    Ok(())
}

fn check_lifts(rt: &impl Abort, live: &mut Live<Staged<'_>>, stage: &Stage) -> Result<(), Refusal> {
    push_all(live, 64, 1)?;
    // A reduction keeps nothing: if no node is fresh it lifts each element of the range, and the next reduction does so again.
    assert_lifts(rt, live, stage, (62, 0, 62))?;
    assert_lifts(rt, live, stage, (62, 0, 62))?;
    for block in 0..8_u32 {
        let accepted = refresh_counted(live);
        assert_same(rt, &(block, accepted), &(block, Some(Accepted::Installed)));
    }
    assert_lifts(rt, live, stage, (14, 6, 14))
}

#[test]
fn lifts_are_counted(rt: HostRuntime) -> Result<(), Refusal> {
    let stage = Stage::new(false);
    let mut live = Live::new(rt.alloc(), Limits::greatest(), Staged { stage: &stage });
    let seen = check_lifts(&rt, &mut live, &stage);
    drop(live);
    seen
}

// Claims a job of a version, and delivers its outcome. Returns whether there was a job and its summary was installed.
fn refresh_block(rt: &impl Abort, live: &mut Live<Sum>, version: u32) -> bool {
    match live.claim() {
        None => false,
        Some(job) => {
            assert_same(rt, &(job.node().level, job.version()), &(1, version));
            give(live, job.run()) == Some(Accepted::Installed)
        }
    }
}

// Three fresh blocks of ones, read through a view. Of all elements but the first and the last, only the middle block is read as a summary.
fn check_view(rt: &impl Abort, live: &mut Live<Sum>) -> Result<(), Refusal> {
    push_all(live, 24, 1)?;
    for version in [8, 16, 24] {
        let installed = refresh_block(rt, live, version);
        assert_same(rt, &(version, installed), &(version, true));
    }
    live.keeps();
    let middle = reduce(live.view(), &Sum, 1, 23)?;
    let wanted = Answer {
        edit: 24,
        value: 22,
        cells_read: 14,
        summaries_read: 1,
    };
    assert_same(rt, &middle, &wanted);
    Ok(())
}

#[test]
fn a_view_of_three_fresh_blocks(rt: HostRuntime) -> Result<(), Refusal> {
    let mut live = Live::new(rt.alloc(), Limits::greatest(), Sum);
    let seen = check_view(&rt, &mut live);
    drop(live);
    seen
}

// A reply, as a value that can be compared. Of a scan it has the edit, and whether the values are 1, 3 and 6.
#[derive(Clone, Copy, PartialEq, Eq)]
enum Told {
    Did(Receipt),
    Settled,
    Job(u64, u32, u32, u32),
    Idle,
    Gave(Accepted),
    Forgotten,
    Answered(Answer<u64>),
    Scanned(u32, bool),
    Refused(Refusal),
}

fn tell(reply: &ReplyOf<u64>) -> Told {
    match reply {
        ReplyOf::Did(receipt) => Told::Did(*receipt),
        ReplyOf::Settled => Told::Settled,
        ReplyOf::Claimed { k, node, version } => {
            Told::Job(*k, node.level, node.number, *version)
        }
        ReplyOf::Idle => Told::Idle,
        ReplyOf::Gave(accepted) => Told::Gave(*accepted),
        ReplyOf::Forgotten => Told::Forgotten,
        ReplyOf::Answered(answer) => Told::Answered(*answer),
        ReplyOf::Scanned(scan) => Told::Scanned(scan.edit, is_1_3_6(scan)),
        ReplyOf::Refused(refusal) => Told::Refused(*refusal),
    }
}

fn is_1_3_6(scan: &Scan<u64>) -> bool {
    scan.values.as_slice() == [1, 3, 6].as_slice()
}

fn sum(value: u64, cells_read: u32, summaries_read: u32) -> Told {
    Told::Answered(Answer {
        edit: 9,
        value,
        cells_read,
        summaries_read,
    })
}

// Events of each kind with their replies, on the elements 1 to 8. The first ten are late and stale deliveries.
fn events_of_each_kind() -> [(Event, Told); 16] {
    let write = Event::Edit(Edit::Write { index: 3, value: 9 });
    let (lo, hi) = (0, 3);
    [
        (Event::Claim, Told::Job(1, 1, 0, 8)),
        (Event::Claim, Told::Idle),
        (write, Told::Did(Receipt::Written { edit: 9, before: 4 })),
        (Event::Deliver(1), Told::Gave(Accepted::Stale { now: 9 })),
        (Event::Reduce { lo: 0, hi: 8 }, sum(41, 8, 0)),
        (Event::Claim, Told::Job(2, 1, 0, 9)),
        (Event::Deliver(2), Told::Gave(Accepted::Installed)),
        (Event::Deliver(2), Told::Gave(Accepted::Held)),
        (Event::Deliver(1), Told::Gave(Accepted::Stale { now: 9 })),
        (Event::Reduce { lo: 0, hi: 8 }, sum(41, 0, 1)),
        (Event::Settle, Told::Settled),
        (Event::Forget, Told::Forgotten),
        (Event::Deliver(3), Told::Refused(Refusal::NoJob)),
        (
            Event::Reduce { lo: 9, hi: 8 },
            Told::Refused(Refusal::BadRange),
        ),
        (
            Event::Scan {
                lo,
                hi,
                inclusive: true,
            },
            Told::Scanned(9, true),
        ),
        (
            Event::Scan {
                lo,
                hi,
                inclusive: false,
            },
            Told::Scanned(9, false),
        ),
    ]
}

// Pushes of 1 to 8, and then the events of a table: all in one list.
fn events_of(table: &[(Event, Told); 16]) -> [Event; 24] {
    let mut events = [Event::Settle; 24];
    for k in 0..8_u32 {
        events[k as usize] = Event::Edit(Edit::Push(i64::from(k) + 1));
    }
    for k in 0..16_usize {
        events[8 + k] = table[k].0;
    }
    events
}

// Checks the reply to each of such events.
fn check_replies(rt: &impl Abort, replies: &[ReplyOf<u64>], table: &[(Event, Told); 16]) {
    assert_same(rt, &replies.len(), &24);
    for index in 0..8_u32 {
        let pushed = Receipt::Pushed {
            edit: index + 1,
            index,
        };
        let told = replies.get(index as usize).map(tell);
        assert_same(rt, &told, &Some(Told::Did(pushed)));
    }
    for k in 0..16_usize {
        let (event, wanted) = table[k];
        let told = replies.get(8 + k).map(tell);
        assert_same(rt, &(event, told), &(event, Some(wanted)));
    }
}

fn check_each_kind(rt: &impl Abort, alloc: Global, world: &mut World<Sum>) -> Result<(), Refusal> {
    let table = events_of_each_kind();
    let replies = run(alloc, world, &events_of(&table))?;
    check_replies(rt, &replies, &table);
    drop(replies);
    Ok(())
}

#[test]
fn events_and_their_replies(rt: HostRuntime) -> Result<(), Refusal> {
    let mut world = World::new(rt.alloc(), Limits::greatest(), Sum);
    let seen = check_each_kind(&rt, rt.alloc(), &mut world);
    drop(world);
    seen
}
