//! Workers that run for a number of turns.
ghost use Rattle.std.specs.Prelude.{◌≡◌, ◌+◌, ◌^◌, ◌<◌, ◌≤◌};

use crate::gates::Gate;
use crate::hubs::Hub;
use crate::worked::Worked;
use lv_bodies::Body;
use lv_history::WithBody;
use lv_refresh::Job;
use std::sync::Wait;
use std::thread;

impl Worked {
    // Passes the gate with a job that was claimed, computes it and delivers the outcome. Holds no lock in between.
    #[inline(always)]
    pub(crate) fn finish<B: Body, N: WithBody<B>, G: Gate, R: Wait>(
        &mut self,
        rt: &R,
        hub: &Hub<B, N>,
        gate: &G,
        turn: u64,
        job: Job<B>,
    )
        requires claimed { self.old.claimed + 1 < 2 ^ 64 }
        requires all { self.old.installed + self.old.held + self.old.stale + self.old.strangers ≡ self.old.claimed }
        ensures claimed { self.new.claimed ≡ self.old.claimed + 1 }
        ensures all { self.new.installed + self.new.held + self.new.stale + self.new.strangers ≡ self.new.claimed }
    {
        gate.hold(turn);
        let outcome = job.run();
        self.claimed += 1;
        self.note(hub.give(rt, outcome));
    }
}

/// Precomputes the aggregates of a hub for a number of turns. In each turn it claims a job. If there is one, it passes the gate, computes the job
/// and delivers the outcome, and holds no lock in between. If there is none, it lets other threads run.
pub fn work<B: Body, N: WithBody<B>, G: Gate, R: Wait>(
    rt: &R,
    hub: &Hub<B, N>,
    gate: &G,
    turns: u64,
) -> Worked
    ensures turns { result.claimed ≤ turns }
    ensures all { result.installed + result.held + result.stale + result.strangers ≡ result.claimed }
{
    let mut worked = Worked::default();
    for turn in 0..turns {
        match hub.claim(rt) {
            Some(job) => worked.finish(rt, hub, gate, turn, job),
            None => thread::yield_now(),
        }
    }
    worked
}
