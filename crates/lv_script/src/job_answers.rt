//! The replies to commands about tasks: claims, deliveries, and `forget`.
ghost use Rattle.std.specs.Prelude.{◌≡◌, ◌+◌, ◌<◌, ◌≤◌, ◌++◌, List, ℕ, length};
ghost use Rattle.lv_bodies.specs.Six.{SixSummary, six_operations};
ghost use Rattle.lv_bodies.specs.declared.sixes.Six.{Six};
ghost use Rattle.lv_refresh.specs.Carried.{Carried};
ghost use Rattle.lv_live.specs.Kept.{IsWorld};
ghost use Rattle.lv_live.specs.declared.events.Event.TheVariants as event;
ghost use Rattle.lv_lines.specs.Output.{HasRoom, KeepsRoom};
ghost use Rattle.lv_script.specs.Script.{CommandAnswer, TellsEvent};
ghost use Rattle.lv_script.specs.Scripted.{state_of};

use crate::refresh_replies::{put_accepted, put_forgotten, put_idle, put_job};
use crate::watch_replies::ROOM;
use lv_bodies::Six;
use lv_geometry::Refusal;
use lv_lines::{Command, put_refusal};
use lv_live::Issued;
use lv_standing::Standing;

/// Claims a job, once there is room to keep it.
pub fn put_claim(standing: &mut Standing, issued: &mut Issued<Six>, held: &mut Vec<u8>)
    requires { HasRoom held.old ROOM }
    ensures answer { (reply : List ℕ) × CommandAnswer (state_of standing.old issued.old.jobs) Command.Claim reply (state_of standing.new issued.new.jobs)
        × (held.new.items ≡ held.old.items ++ reply) }
    ensures world { IsWorld six_operations standing.old.live issued.old.jobs → IsWorld six_operations standing.new.live issued.new.jobs }
    ensures room { KeepsRoom held.old held.new }
    ensures most { issued.new.most ≡ issued.old.most }
    ensures few { length issued.old.jobs ≤ issued.old.most → length issued.new.jobs ≤ issued.new.most }
{
    let Ok(()) = issued.make_room(1) else {
        put_refusal(held, Refusal::NoMemory);
        return;
    };
    put_next_job(standing, issued, held);
}

// Claims a job, and keeps it under its number.
fn put_next_job(standing: &mut Standing, issued: &mut Issued<Six>, held: &mut Vec<u8>)
    requires held { HasRoom held.old ROOM }
    requires issued { 0 < issued.old.room }
    ensures answer { (reply : List ℕ) × TellsEvent (state_of standing.old issued.old.jobs) event.Claim reply (state_of standing.new issued.new.jobs)
        × (held.new.items ≡ held.old.items ++ reply) }
    ensures world { IsWorld six_operations standing.old.live issued.old.jobs → IsWorld six_operations standing.new.live issued.new.jobs }
    ensures room { KeepsRoom held.old held.new }
    ensures most { issued.new.most ≡ issued.old.most }
    ensures few { length issued.new.jobs ≤ length issued.old.jobs + 1 }
{
    match standing.claim_numbered(issued) {
        Some((number, node, version)) => put_job(held, number, node, version),
        None => put_idle(held),
    }
}

/// Delivers the result of a task, if there is one of that number.
pub fn put_delivery(standing: &mut Standing, issued: &Issued<Six>, k: u32, held: &mut Vec<u8>)
    requires world { IsWorld six_operations standing.old.live issued.now.jobs }
    requires room { HasRoom held.old ROOM }
    ensures answer { (reply : List ℕ) × TellsEvent (state_of standing.old issued.now.jobs) (event.Deliver k) reply (state_of standing.new issued.now.jobs)
        × (held.new.items ≡ held.old.items ++ reply) }
    ensures world { IsWorld six_operations standing.new.live issued.now.jobs }
    ensures room { KeepsRoom held.old held.new }
{
    match standing.deliver(issued, k as u64) {
        Ok(accepted) => put_accepted(held, accepted),
        Err(refusal) => put_refusal(held, refusal),
    }
}

/// Forgets all claims.
pub fn put_forget(standing: &mut Standing, held: &mut Vec<u8>)
    requires { HasRoom held.old ROOM }
    ensures answer { (reply : List ℕ) × ((jobs : List (Carried Six SixSummary)) → TellsEvent (state_of standing.old jobs) event.Forget reply (state_of standing.new jobs))
        × (held.new.items ≡ held.old.items ++ reply) }
    ensures world { (jobs : List (Carried Six SixSummary)) → IsWorld six_operations standing.old.live jobs → IsWorld six_operations standing.new.live jobs }
    ensures room { KeepsRoom held.old held.new }
{
    standing.forget_claims();
    put_forgotten(held);
}
