//! Events played in turn, with the reply to each.
ghost use Rattle.std.specs.Prelude.{◌≡◌, ◌+◌, ◌≤◌, ◌<◌, [], ◌∷◌, ◌++◌, List, length, vec_capacity, vec_len};
ghost use Rattle.lv_refresh.specs.Carried.{Carried};
ghost use Rattle.lv_live.specs.Kept.{IsWorld};
ghost use Rattle.lv_live.specs.State.{SameSetting, recorded, with_issued};
ghost use Rattle.lv_live.specs.Step.{Run, Scans, Step, accepted_reply, numbered_reply};
ghost use Rattle.lv_live.specs.declared.events.Event.TheVariants as event;

use crate::events::Event;
use crate::issued::Issued;
use crate::live::Live;
use crate::replies::{Reply, ReplyOf};
use lv_bodies::Body;
use lv_edits::Edit;
use lv_geometry::{Node, Refusal};
use lv_reduce::Scan;
use lv_summary::Accepted;
use std::alloc::Global;

/// Plays events in turn, and puts the reply to each after the replies. The room was made before.
pub fn play<B: Body>(
    alloc: Global,
    live: &mut Live<B>,
    issued: &mut Issued<B>,
    events: &[Event],
    replies: &mut Vec<Reply<B>>,
)
    requires world { IsWorld (B.operations live.old.body) live.old issued.old.jobs }
    requires issued { length events.now ≤ issued.old.room }
    requires replies { vec_len replies.old + length events.now ≤ vec_capacity replies.old }
    ensures run { (said : List (ReplyOf B.S)) × (replies.new.items ≡ replies.old.items ++ said)
        × Run (B.operations live.old.body) live.old.history.limits (with_issued live.old issued.old.jobs) events.now said (with_issued live.new issued.new.jobs) }
    ensures world { IsWorld (B.operations live.old.body) live.new issued.new.jobs }
    ensures setting { SameSetting live.old live.new }
{
    for event in events {
        let reply = play_one(alloc, live, issued, *event);
        replies.push_reserved(reply);
    }
}

// Plays one event.
fn play_one<B: Body>(
    alloc: Global,
    live: &mut Live<B>,
    issued: &mut Issued<B>,
    event: Event,
) -> Reply<B>
    requires world { IsWorld (B.operations live.old.body) live.old issued.old.jobs }
    requires room { 0 < issued.old.room }
    ensures step { Step (B.operations live.old.body) live.old.history.limits (with_issued live.old issued.old.jobs) event result (with_issued live.new issued.new.jobs) }
    ensures world { IsWorld (B.operations live.old.body) live.new issued.new.jobs }
    ensures setting { SameSetting live.old live.new }
    ensures room { issued.old.room ≤ issued.new.room + 1 }
{
    match event {
        Event::Edit(edit) => play_edit(live, edit),
        Event::Settle => play_settle(live),
        Event::Claim => play_claim(live, issued),
        Event::Deliver(k) => play_delivery(live, issued, k),
        Event::Forget => play_forget(live),
        Event::Reduce { lo, hi } => play_reduction(live, lo, hi),
        Event::Scan { lo, hi, inclusive } => play_scan(alloc, live, lo, hi, inclusive),
    }
}

// Makes an edit.
fn play_edit<B: Body>(live: &mut Live<B>, edit: Edit) -> Reply<B>
    ensures step { (jobs : List (Carried B B.S)) → Step (B.operations live.old.body) live.old.history.limits (with_issued live.old jobs) (event.Edit edit) result (with_issued live.new jobs) }
    ensures world { (jobs : List (Carried B B.S)) → IsWorld (B.operations live.old.body) live.old jobs → IsWorld (B.operations live.old.body) live.new jobs }
    ensures setting { SameSetting live.old live.new }
{
    match live.apply(edit) {
        Ok(receipt) => ReplyOf::Did(receipt),
        Err(refusal) => ReplyOf::Refused(refusal),
    }
}

// Completes what is pending.
fn play_settle<B: Body>(live: &mut Live<B>) -> Reply<B>
    ensures step { (jobs : List (Carried B B.S)) → Step (B.operations live.old.body) live.old.history.limits (with_issued live.old jobs) event.Settle result (with_issued live.new jobs) }
    ensures world { (jobs : List (Carried B B.S)) → IsWorld (B.operations live.old.body) live.old jobs → IsWorld (B.operations live.old.body) live.new jobs }
    ensures setting { SameSetting live.old live.new }
{
    live.settle();
    ReplyOf::Settled
}

// Answers a claim.
fn play_claim<B: Body>(live: &mut Live<B>, issued: &mut Issued<B>) -> Reply<B>
    requires room { 0 < issued.old.room }
    ensures step { Step (B.operations live.old.body) live.old.history.limits (with_issued live.old issued.old.jobs) event.Claim result (with_issued live.new issued.new.jobs) }
    ensures world { IsWorld (B.operations live.old.body) live.old issued.old.jobs → IsWorld (B.operations live.old.body) live.new issued.new.jobs }
    ensures setting { SameSetting live.old live.new }
    ensures room { issued.old.room ≤ issued.new.room + 1 }
{
    match claim(live, issued) {
        Some((job, node, version)) => ReplyOf::Claimed {
            k: job,
            node,
            version,
        },
        None => ReplyOf::Idle,
    }
}

/// Claims a job for the least node that wants one, and keeps it under its number. Returns that number, the node and the version, or none if no
/// node wants a job. Room was made before. Takes no memory.
pub fn claim<B: Body>(live: &mut Live<B>, issued: &mut Issued<B>) -> Option<(u64, Node, u32)>
    requires room { 0 < issued.old.room }
    ensures step { Step (B.operations live.old.body) live.old.history.limits (with_issued live.old issued.old.jobs) event.Claim (numbered_reply result) (with_issued live.new issued.new.jobs) }
    ensures world { IsWorld (B.operations live.old.body) live.old issued.old.jobs → IsWorld (B.operations live.old.body) live.new issued.new.jobs }
    ensures body { live.new.body ≡ live.old.body }
    ensures history { live.new.history ≡ live.old.history }
    ensures room { issued.old.room ≤ issued.new.room + 1 }
    ensures most { issued.new.most ≡ issued.old.most }
    ensures few { length issued.new.jobs ≤ length issued.old.jobs + 1 }
{
    let job = live.claim()?;
    let (node, version) = (job.node(), job.version());
    Some((issued.keep(job), node, version))
}

// Answers a delivery.
fn play_delivery<B: Body>(live: &mut Live<B>, issued: &Issued<B>, k: u64) -> Reply<B>
    requires world { IsWorld (B.operations live.old.body) live.old issued.now.jobs }
    ensures step { Step (B.operations live.old.body) live.old.history.limits (with_issued live.old issued.now.jobs) (event.Deliver k) result (with_issued live.new issued.now.jobs) }
    ensures world { IsWorld (B.operations live.old.body) live.new issued.now.jobs }
    ensures setting { SameSetting live.old live.new }
{
    match deliver(live, issued, k) {
        Ok(accepted) => ReplyOf::Gave(accepted),
        Err(refusal) => ReplyOf::Refused(refusal),
    }
}

/// Delivers what the job of a number gave, however late, and however often. Refused with `NoJob` if no such job was handed out. Takes no memory.
pub fn deliver<B: Body>(live: &mut Live<B>, issued: &Issued<B>, k: u64) -> Result<Accepted, Refusal>
    requires world { IsWorld (B.operations live.old.body) live.old issued.now.jobs }
    ensures step { Step (B.operations live.old.body) live.old.history.limits (with_issued live.old issued.now.jobs) (event.Deliver k) (accepted_reply result) (with_issued live.new issued.now.jobs) }
    ensures world { IsWorld (B.operations live.old.body) live.new issued.now.jobs }
    ensures body { live.new.body ≡ live.old.body }
    ensures history { live.new.history ≡ live.old.history }
{
    match issued.named(k) {
        Some((node, version)) => Ok(live.deliver(node, version)),
        None => Err(Refusal::NoJob),
    }
}

// Forgets all claims.
fn play_forget<B: Body>(live: &mut Live<B>) -> Reply<B>
    ensures step { (jobs : List (Carried B B.S)) → Step (B.operations live.old.body) live.old.history.limits (with_issued live.old jobs) event.Forget result (with_issued live.new jobs) }
    ensures world { (jobs : List (Carried B B.S)) → IsWorld (B.operations live.old.body) live.old jobs → IsWorld (B.operations live.old.body) live.new jobs }
    ensures setting { SameSetting live.old live.new }
{
    live.forget_claims();
    ReplyOf::Forgotten
}

// Answers a reduction.
fn play_reduction<B: Body>(live: &Live<B>, lo: u32, hi: u32) -> Reply<B>
    ensures { (jobs : List (Carried B B.S)) → Step (B.operations live.now.body) live.now.history.limits (with_issued live.now jobs) (event.Reduce lo hi) result (with_issued live.now jobs) }
{
    match live.reduce(lo, hi) {
        Ok(answer) => ReplyOf::Answered(answer),
        Err(refusal) => ReplyOf::Refused(refusal),
    }
}

// Answers a scan.
fn play_scan<B: Body>(alloc: Global, live: &Live<B>, lo: u32, hi: u32, inclusive: bool) -> Reply<B>
    ensures { (jobs : List (Carried B B.S)) → Step (B.operations live.now.body) live.now.history.limits (with_issued live.now jobs) (event.Scan lo hi inclusive) result (with_issued live.now jobs) }
{
    match scan(alloc, live, lo, hi, inclusive) {
        Ok(scan) => ReplyOf::Scanned(scan),
        Err(refusal) => ReplyOf::Refused(refusal),
    }
}

// One of the two scans.
fn scan<B: Body>(
    alloc: Global,
    live: &Live<B>,
    lo: u32,
    hi: u32,
    inclusive: bool,
) -> Result<Scan<B::S>, Refusal>
    ensures { Scans (B.operations live.now.body) (recorded live.now) lo hi inclusive result }
{
    if inclusive {
        live.scan_inclusive(alloc, lo, hi)
    } else {
        live.scan_exclusive(alloc, lo, hi)
    }
}
