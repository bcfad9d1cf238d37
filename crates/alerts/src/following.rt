//! A subscriber that keeps its notifications.
ghost use Rattle.std.specs.Prelude.{◌≡◌, [], IfOk, OnOk};
ghost use Rattle.alerts.specs.Followed.{AreUnbounded, Follows, IsWatching, KeepsFollowing};

use lv_vector::hub::{Hub, Query, Share, Subscriber, Told, WithBody};
use lv_vector::{Refusal, Six};
use std::alloc::Global;
use std::sync::Wait;
use std::time::Duration;

// How long the subscriber pauses between two looks.
const PAUSE_MICROSECONDS: u64 = 50;

/// A subscriber, its notifications in order, and whether it ended early because memory ran out.
#[derive(Drop)]
pub struct Follower<N: WithBody<Six>> {
    pub subscriber: Subscriber<N>,
    pub told: Vec<Told>,
    pub starved: bool,
}

/// A subscriber with these questions and this share, which has reported nothing yet. Refused as `Subscriber::watch` is.
pub fn begin<N: WithBody<Six>>(
    alloc: Global,
    share: Share<N>,
    questions: &[Query],
) -> Result<Follower<N>, Refusal>
    requires { AreUnbounded questions.now }
    ensures follows { IfOk result (λ f. Follows questions.now f.subscriber.share.seen f.subscriber.questions f.subscriber.told f.told.items) }
    ensures share { IfOk result (λ f. f.subscriber.share ≡ share) }
{
    let mut subscriber = Subscriber::new(alloc, share);
    subscriber.set_pause(Duration::from_micros(PAUSE_MICROSECONDS));
    match watch_all(&mut subscriber, questions) {
        Ok(()) => Ok(Follower {
            subscriber,
            told: Vec::new(alloc),
            starved: false,
        }),
        Err(refusal) => Err(refusal),
    }
}

// Registers questions in order, for a subscriber that has none yet.
fn watch_all<N: WithBody<Six>>(
    subscriber: &mut Subscriber<N>,
    questions: &[Query],
) -> Result<(), Refusal>
    requires questions { subscriber.old.questions ≡ [] }
    requires told { subscriber.old.told ≡ [] }
    ensures watching { OnOk result (IsWatching questions.now subscriber.new) }
    ensures share { subscriber.new.share ≡ subscriber.old.share }
{
    for i in 0..questions.len() {
        subscriber.watch(&questions[i])?;
    }
    Ok(())
}

/// Keeps all notifications until the hub's workers are dismissed, or until memory runs out.
pub fn follow<N: WithBody<Six>, R: Wait>(
    rt: &R,
    alloc: Global,
    hub: &Hub<Six, N>,
    mut follower: Follower<N>,
) -> Follower<N>
    ensures { KeepsFollowing follower.subscriber result.subscriber follower.told.items result.told.items }
{
    follow_all(rt, alloc, hub, &mut follower);
    follower
}

// Does what `follow` does, with a follower that is lent.
fn follow_all<N: WithBody<Six>, R: Wait>(
    rt: &R,
    alloc: Global,
    hub: &Hub<Six, N>,
    follower: &mut Follower<N>,
)
    ensures { KeepsFollowing follower.old.subscriber follower.new.subscriber follower.old.told.items follower.new.told.items }
{
    for _ in 0..u64::MAX {
        if !follow_once(rt, alloc, hub, follower) {
            return;
        }
    }
}

// Keeps the next notification. Returns whether there may be another, which isn't so if the workers are dismissed or if memory runs out.
fn follow_once<N: WithBody<Six>, R: Wait>(
    rt: &R,
    alloc: Global,
    hub: &Hub<Six, N>,
    follower: &mut Follower<N>,
) -> bool
    ensures { KeepsFollowing follower.old.subscriber follower.new.subscriber follower.old.told.items follower.new.told.items }
{
    // Room is made first, so that no notification is lost.
    if follower.told.reserve(1).is_err() {
        follower.starved = true;
        return false;
    }
    match follower.subscriber.next(rt, alloc, hub) {
        Ok(Some(told)) => {
            follower.told.push_reserved(told);
            true
        }
        Ok(None) => false,
        Err(_) => {
            follower.starved = true;
            false
        }
    }
}
