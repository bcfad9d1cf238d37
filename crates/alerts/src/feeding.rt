//! What sensors read, and the threads that push it.
ghost use Rattle.std.specs.Prelude.{◌≡◌, ◌+◌, ◌<◌};
ghost use Rattle.alerts.specs.Followed.{HasFed};

use lv_vector::hub::{Hub, Share, WithBody};
use lv_vector::{Edit, Six};
use std::sync::Wait;

/// How many readings each sensor has.
pub const READINGS: u32 = 1000;

/// What a sensor's thread leaves: its share of the hub, and how many of its readings were accepted and how many refused.
#[derive(Drop)]
pub struct Fed<N: WithBody<Six>> {
    pub share: Share<N>,
    pub accepted: u32,
    pub refused: u32,
}

/// Pushes the readings of a sensor, in order. Its share counts those that are accepted.
pub fn feed<N: WithBody<Six>, R: Wait>(
    rt: &R,
    hub: &Hub<Six, N>,
    share: Share<N>,
    sensor: u32,
) -> Fed<N>
    ensures { HasFed READINGS share result.share result.accepted result.refused }
{
    let mut fed = Fed {
        share,
        accepted: 0,
        refused: 0,
    };
    for k in 0..READINGS {
        push(rt, hub, &mut fed, reading(sensor, k));
    }
    fed
}

// Pushes a reading, and counts it as accepted or as refused.
fn push<N: WithBody<Six>, R: Wait>(rt: &R, hub: &Hub<Six, N>, fed: &mut Fed<N>, value: i64)
    requires few { fed.old.accepted + fed.old.refused < READINGS }
    ensures parts { fed.new.share.parts ≡ fed.old.share.parts }
    ensures count { fed.new.share.count + fed.old.accepted ≡ fed.old.share.count + fed.new.accepted }
    ensures offered { fed.new.accepted + fed.new.refused ≡ fed.old.accepted + fed.old.refused + 1 }
{
    match hub.edit(rt, &mut fed.share, Edit::Push(value)) {
        Ok(_) => fed.accepted += 1,
        Err(_) => fed.refused += 1,
    }
}

// Reading `k` of a sensor, in tenths of a degree.
fn reading(sensor: u32, k: u32) -> i64 {
    150 + i64::from(sensor % 10) * 25 + i64::from(k % 1000 * 37 % 211)
}
