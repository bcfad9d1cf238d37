//! Workers that sleep while there is nothing to do.
ghost use Rattle.std.specs.Prelude.{◌≡◌, ◌+◌, ◌≤◌};

use crate::gates::Gate;
use crate::hubs::Hub;
use crate::worked::Worked;
use lv_bodies::Body;
use lv_history::WithBody;
use std::sync::Wait;

/// Precomputes the aggregates of a hub for a number of turns, as `work` does, and sleeps while no node needs a job, until an update wakes it. It
/// ends sooner once the workers are dismissed by `Hub::dismiss`, for which the caller is responsible.
///
/// To claim a job it waits behind other threads: while they hold the lock, it naps, at most eight times for a tenth of a millisecond. A claim
/// that found no job counts as a turn too. A worker whose turns are used up doesn't sleep any more, and wakes another in its place.
pub fn attend<B: Body, N: WithBody<B>, G: Gate, R: Wait>(
    rt: &R,
    hub: &Hub<B, N>,
    gate: &G,
    turns: u64,
) -> Worked
    ensures turns { result.claimed ≤ turns }
    ensures all { result.installed + result.held + result.stale + result.strangers ≡ result.claimed }
{
    let mut worked = Worked::default();
    for turn in 0..turns {
        match hub.claim_or_sleep(rt, turn + 1 < turns) {
            Some(job) => worked.finish(rt, hub, gate, turn, job),
            None => {
                if hub.is_dismissed(rt) {
                    break;
                }
            }
        }
    }
    hub.wake_another(rt);
    worked
}
