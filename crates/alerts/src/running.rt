//! Sensors, a worker and a subscriber at one hub, and what they leave.
ghost use Rattle.std.specs.Prelude.{◌≡◌, ◌+◌, IfOk, List, Some};
ghost use mathlib.Core.List.{IsPrefix};
ghost use Rattle.lv_vector.specs.Query.{Query};
ghost use Rattle.lv_vector.specs.Renewing.{IsOfOneVector};
ghost use Rattle.alerts.specs.Alerts.{TellsOf};
ghost use Rattle.alerts.specs.Followed.{AreUnbounded, Follows, HasFed, KeepsFollowing};

use crate::feeding::{Fed, READINGS, feed};
use crate::following::{Follower, begin, follow};
use lv_vector::hub::{Ended, Hub, OpenGate, Opened, Query, Share, Told, WithBody, attend};
use lv_vector::{Limits, Refusal, Six};
use std::alloc::Global;
use std::marker::Brand;
use std::sync::Wait;
use std::sync::ledger::Blank;
use std::thread;
use std::thread::Threads;

// The parts of the hub: one for each sensor, and one for the subscriber. The worker needs none.
const PARTS: u64 = 3;

// How many turns the worker has: more than it takes before it is dismissed.
const TURNS: u64 = 1_000_000;

/// The result of a run: the notifications that the subscriber got while it followed, in order, and its last one at the end, how many readings
/// were accepted and how many refused, and whether the subscriber ended early because memory ran out.
#[derive(Drop)]
pub struct Report {
    pub told: Vec<Told>,
    pub last: Told,
    pub accepted: u32,
    pub refused: u32,
    pub starved: bool,
}

// What the threads leave, with their shares merged into one.
#[derive(Drop)]
struct Gathered<N: WithBody<Six>> {
    share: Share<N>,
    ended: Ended,
    told: Vec<Told>,
    accepted: u32,
    refused: u32,
    starved: bool,
}

// What the threads leave, each by itself.
#[derive(Drop)]
struct Done<N: WithBody<Six>> {
    follower: Follower<N>,
    first: Fed<N>,
    second: Fed<N>,
}

/// Two sensors push their readings onto one empty vector of these limits, and a subscriber asks these questions. Refused as
/// `Subscriber::watch` is, before any reading is pushed.
pub fn run<R: Threads + Wait + Sync>(
    rt: &R,
    alloc: Global,
    limits: Limits,
    questions: &[Query],
) -> Result<Report, Refusal>
    requires { AreUnbounded questions.now }
    ensures told { IfOk result (TellsOf limits questions.now) }
    ensures offered { IfOk result (λ report. report.accepted + report.refused ≡ READINGS + READINGS) }
{
    run_as::<Brand, R>(
        rt,
        alloc,
        limits,
        questions,
        Blank::new(PARTS),
        Opened::new(),
        Six,
    )
}

// Does what `run` does, at a hub of this name.
fn run_as<N: WithBody<Six> + Send + Sync, R: Threads + Wait + Sync>(
    rt: &R,
    alloc: Global,
    limits: Limits,
    questions: &[Query],
    blank: Blank,
    opened: Opened,
    body: Six,
) -> Result<Report, Refusal>
    requires name { blank.name ≡ N.name }
    requires all { blank.parts ≡ N.parts }
    requires parts { blank.parts ≡ PARTS }
    requires limits { limits ≡ N.limits }
    requires history { opened ≡ N.history }
    requires body { N.body ≡ Some body }
    requires unbounded { AreUnbounded questions.now }
    ensures told { IfOk result (TellsOf limits questions.now) }
    ensures offered { IfOk result (λ report. report.accepted + report.refused ≡ READINGS + READINGS) }
{
    let (hub, share) = Hub::<Six, N>::new(alloc, limits, body, blank, PARTS, opened);
    match gather(rt, alloc, &hub, share, questions) {
        Ok(gathered) => Ok(finish(hub, gathered)),
        Err(refusal) => {
            drop(hub);
            Err(refusal)
        }
    }
}

// Runs all threads at a hub that has no updates yet, and merges what they leave.
fn gather<N: WithBody<Six> + Send + Sync, R: Threads + Wait + Sync>(
    rt: &R,
    alloc: Global,
    hub: &Hub<Six, N>,
    mut share: Share<N>,
    questions: &[Query],
) -> Result<Gathered<N>, Refusal>
    requires parts { share.parts ≡ PARTS }
    requires count { share.count ≡ 0 }
    requires unbounded { AreUnbounded questions.now }
    ensures parts { IfOk result (λ g. g.share.parts ≡ PARTS) }
    ensures count { IfOk result (λ g. g.share.count ≡ g.accepted) }
    ensures offered { IfOk result (λ g. g.accepted + g.refused ≡ READINGS + READINGS) }
    ensures follows { IfOk result (λ g. Follows questions.now g.share.seen g.ended.questions g.ended.told g.told.items) }
{
    let first = share.split();
    let second = share.split();
    match begin(alloc, share, questions) {
        Ok(follower) => Ok(join_all(run_all(rt, alloc, hub, follower, first, second))),
        Err(refusal) => Err(refusal),
    }
}

// Runs the worker and, at the same time, the others, which dismiss it. If no thread can be made for the worker, it runs last, and ends at once.
fn run_all<N: WithBody<Six> + Send + Sync, R: Threads + Wait + Sync>(
    rt: &R,
    alloc: Global,
    hub: &Hub<Six, N>,
    follower: Follower<N>,
    first: Share<N>,
    second: Share<N>,
) -> Done<N>
    ensures follows { KeepsFollowing follower.subscriber result.follower.subscriber follower.told.items result.follower.told.items }
    ensures first { HasFed READINGS first result.first.share result.first.accepted result.first.refused }
    ensures second { HasFed READINGS second result.second.share result.second.accepted result.second.refused }
{
    let ((), done) = thread::join(
        rt,
        move || {
            attend(rt, hub, &OpenGate, TURNS);
        },
        move || -> Done<N>
            ensures { KeepsFollowing follower.subscriber result.follower.subscriber follower.told.items result.follower.told.items
                × HasFed READINGS first result.first.share result.first.accepted result.first.refused
                × HasFed READINGS second result.second.share result.second.accepted result.second.refused }
        { follow_and_feed(rt, alloc, hub, follower, first, second) },
    );
    done
}

// Runs the subscriber and, at the same time, the sensors, which dismiss it. If no thread can be made for the subscriber, it runs last, and is
// only notified at the end.
fn follow_and_feed<N: WithBody<Six> + Send + Sync, R: Threads + Wait + Sync>(
    rt: &R,
    alloc: Global,
    hub: &Hub<Six, N>,
    follower: Follower<N>,
    first: Share<N>,
    second: Share<N>,
) -> Done<N>
    ensures follows { KeepsFollowing follower.subscriber result.follower.subscriber follower.told.items result.follower.told.items }
    ensures first { HasFed READINGS first result.first.share result.first.accepted result.first.refused }
    ensures second { HasFed READINGS second result.second.share result.second.accepted result.second.refused }
{
    let (follower, (first, second)) = thread::join(
        rt,
        move || -> Follower<N>
            ensures { KeepsFollowing follower.subscriber result.subscriber follower.told.items result.told.items }
        { follow(rt, alloc, hub, follower) },
        move || -> (Fed<N>, Fed<N>)
            ensures { HasFed READINGS first result.0.share result.0.accepted result.0.refused
                × HasFed READINGS second result.1.share result.1.accepted result.1.refused }
        {
            let fed = feed_both(rt, hub, first, second);
            hub.dismiss(rt);
            fed
        },
    );
    Done {
        follower,
        first,
        second,
    }
}

// Runs both sensors at the same time.
fn feed_both<N: WithBody<Six> + Send + Sync, R: Threads + Wait + Sync>(
    rt: &R,
    hub: &Hub<Six, N>,
    first: Share<N>,
    second: Share<N>,
) -> (Fed<N>, Fed<N>)
    ensures first { HasFed READINGS first result.0.share result.0.accepted result.0.refused }
    ensures second { HasFed READINGS second result.1.share result.1.accepted result.1.refused }
{
    thread::join(
        rt,
        move || -> Fed<N>
            ensures { HasFed READINGS first result.share result.accepted result.refused }
        { feed(rt, hub, first, 0) },
        move || -> Fed<N>
            ensures { HasFed READINGS second result.share result.accepted result.refused }
        { feed(rt, hub, second, 1) },
    )
}

// Merges the shares into one, and collects what else the threads leave.
fn join_all<N: WithBody<Six>>(done: Done<N>) -> Gathered<N>
    requires first { done.first.accepted + done.first.refused ≡ READINGS }
    requires second { done.second.accepted + done.second.refused ≡ READINGS }
    ensures parts { result.share.parts ≡ done.follower.subscriber.share.parts + done.first.share.parts + done.second.share.parts }
    ensures count { result.share.count ≡ done.follower.subscriber.share.count + done.first.share.count + done.second.share.count }
    ensures seen { IsPrefix done.follower.subscriber.share.seen result.share.seen }
    ensures accepted { result.accepted ≡ done.first.accepted + done.second.accepted }
    ensures refused { result.refused ≡ done.first.refused + done.second.refused }
    ensures questions { result.ended.questions ≡ done.follower.subscriber.questions }
    ensures answers { result.ended.told ≡ done.follower.subscriber.told }
    ensures told { result.told.items ≡ done.follower.told.items }
{
    let Done {
        follower,
        first,
        second,
    } = done;
    let (accepted, refused) = (
        first.accepted + second.accepted,
        first.refused + second.refused,
    );
    let (mut share, ended) = follower.subscriber.end();
    share.join(first.share);
    share.join(second.share);
    Gathered {
        share,
        ended,
        told: follower.told,
        accepted,
        refused,
        starved: follower.starved,
    }
}

// Closes the hub, and has the subscriber make its last notification. Allocates no memory.
fn finish<N: WithBody<Six>>(hub: Hub<Six, N>, gathered: Gathered<N>) -> Report
    requires parts { gathered.share.parts ≡ N.parts }
    requires count { gathered.share.count ≡ gathered.accepted }
    requires one { IsOfOneVector N.limits }
    ensures told { (questions : List Query) → Follows questions gathered.share.seen gathered.ended.questions gathered.ended.told gathered.told.items → TellsOf N.limits questions result }
    ensures accepted { result.accepted ≡ gathered.accepted }
    ensures refused { result.refused ≡ gathered.refused }
{
    let Gathered {
        share,
        ended,
        told,
        accepted,
        refused,
        starved,
    } = gathered;
    let mut live = hub.close(share);
    let edit = u64::from(live.edit());
    let last = ended.tell(&mut live, edit);
    drop(live);
    Report {
        told,
        last,
        accepted,
        refused,
        starved,
    }
}
