//! The counts of a worker.
ghost use Rattle.std.specs.Prelude.{◌≡◌, ◌+◌, ◌^◌, ◌<◌};
ghost use Rattle.lv_hub.specs.Work.{noted};

use lv_geometry::Refusal;
use lv_summary::Accepted;

/// The counts of a worker: how many jobs it claimed, and the results of their outcomes.
#[derive(Clone, Copy, Default, PartialEq, Eq)]
pub struct Worked {
    /// How many jobs were claimed.
    pub claimed: u64,
    /// How many outcomes were installed.
    pub installed: u64,
    /// How many were already held.
    pub held: u64,
    /// How many were stale.
    pub stale: u64,
    /// How many were refused as those of another vector.
    pub strangers: u64,
}

impl Worked {
    // Counts the result of an outcome.
    pub(crate) fn note(&mut self, given: Result<Accepted, Refusal>)
        requires { self.old.installed + self.old.held + self.old.stale + self.old.strangers + 1 < 2 ^ 64 }
        ensures { self.new ≡ noted self.old given }
    {
        match given {
            Ok(Accepted::Installed) => self.installed += 1,
            Ok(Accepted::Held) => self.held += 1,
            Ok(Accepted::Stale { .. }) => self.stale += 1,
            Err(_) => self.strangers += 1,
        }
    }
}
