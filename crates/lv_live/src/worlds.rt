//! A live vector with every job that it handed out.
ghost use Rattle.std.specs.Prelude.{◌≡◌, ◌+◌, ◌≤◌, None, [], length, IfOk, IfErr, OnErr};
ghost use Rattle.lv_geometry.specs.declared.nodes.Node.{Node};
ghost use Rattle.lv_live.specs.State.{SameSetting, world_record};
ghost use Rattle.lv_live.specs.Step.{Run};

use crate::events::Event;
use crate::issued::Issued;
use crate::live::Live;
use crate::playing::play;
use crate::replies::Reply;
use lv_bodies::Body;
use lv_geometry::{Limits, Refusal};
use std::alloc::Global;
use std::marker::Model;

/// A live vector, and every job that it handed out.
#[derive(Drop)]
pub struct World<B: Body> {
    live: Live<B>,
    issued: Issued<B>,
}

impl<B: Body> Model for World<B> {
    ghost use Rattle.lv_live.specs.Kept.{IsWorld};
    ghost use Rattle.lv_live.specs.State.{WorldState};

    ghost Value = { WorldState B B.S };

    ghost view = { λ a. record { live = a.live; jobs = a.issued.jobs } };

    ghost invariant = { λ a. IsWorld (B.operations a.live.body) a.live a.issued.jobs };
}

impl<B: Body> World<B> {
    /// An empty vector, and no jobs. Takes no memory.
    pub fn new(alloc: Global, limits: Limits, body: B) -> World<B>
        ensures body { result.live.body ≡ body }
        ensures history { result.live.history ≡ record { limits = limits; journal = [] } }
        ensures jobs { result.jobs ≡ [] }
        ensures unclaimed { (n : Node) → (world_record result).claimed n ≡ None }
        ensures nothing_kept { (n : Node) → (world_record result).kept n ≡ None }
    {
        World {
            live: Live::new(alloc, limits, body),
            issued: Issued::new(alloc),
        }
    }

    /// The live vector.
    pub fn live(&self) -> &Live<B>
        ensures { result.now ≡ self.now.live }
    {
        &self.live
    }
}

/// Plays a list of events, and gives the reply to each. It is refused with `NoMemory` only if there is no room for all replies and jobs, which is
/// made first: the world is then unchanged. After that, an event that runs out of memory has `NoMemory` as its reply.
///
/// This is the theorem of the live vector: whatever the events, also if deliveries are late, stale or repeated, the run is one whose every step
/// is as `Step` says. So, by `answers_are_plain`, each answer is the plain left fold at its edit.
pub fn run<B: Body>(
    alloc: Global,
    world: &mut World<B>,
    events: &[Event],
) -> Result<Vec<Reply<B>>, Refusal>
    ensures ok { IfOk result (λ replies. Run (B.operations world.old.live.body) world.old.live.history.limits
        (world_record world.old) events.now replies.items (world_record world.new)) }
    ensures err { IfErr result (λ refusal. refusal ≡ Refusal.NoMemory) }
    ensures unchanged { OnErr result (world.new ≡ world.old) }
    ensures setting { SameSetting world.old.live world.new.live }
{
    let Ok(mut replies) = Vec::with_capacity(alloc, events.len()) else {
        return Err(Refusal::NoMemory);
    };
    let Ok(()) = world.issued.make_room(events.len()) else {
        return Err(Refusal::NoMemory);
    };
    play(
        alloc,
        &mut world.live,
        &mut world.issued,
        events,
        &mut replies,
    );
    Ok(replies)
}
