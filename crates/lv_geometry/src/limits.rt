//! The limits of one vector: of its buckets and of its edits.
ghost use Rattle.std.specs.Prelude.{◌≡◌, ◌≤◌, ◌↔◌, IsOk, IfOk, IfErr};
ghost use Rattle.lv_geometry.specs.Cells.{capacity_of};
ghost use Rattle.lv_geometry.specs.Bounds.{AreAllowed};

use crate::cells::capacity;
use crate::refusals::Refusal;
use std::marker::Model;

/// The limits of one vector: at most `buckets` buckets are opened, and at most `edits` edits accepted.
#[derive(Clone, Copy, PartialEq, Eq)]
pub struct Limits {
    buckets: u32,
    edits: u32,
}

impl Model for Limits {
    ghost use Rattle.lv_geometry.specs.Bounds.{Bounds, AreAllowed};

    ghost Value = { Bounds };

    ghost view = { λ a. record { buckets = a.buckets; edits = a.edits } };

    ghost invariant = { λ a. AreAllowed a.buckets a.edits };

    ghost inverse = { λ b. record { buckets = b.buckets; edits = b.edits } };
}

impl Limits {
    /// Limits of 1 to 17 buckets and 1 to 16,777,215 edits. Any others are refused with `BadLimits`.
    pub fn new(buckets: u32, edits: u32) -> Result<Limits, Refusal>
        ensures allowed { IsOk result ↔ AreAllowed buckets edits }
        ensures ok { IfOk result (λ limits. limits ≡ record { buckets = buckets; edits = edits }) }
        ensures err { IfErr result (λ refusal. refusal ≡ Refusal.BadLimits) }
    {
        if buckets == 0 || buckets > 17 || edits == 0 || edits > 16_777_215 {
            return Err(Refusal::BadLimits);
        }
        Ok(Limits { buckets, edits })
    }

    /// The greatest limits: 17 buckets, which hold 1,048,568 elements, and 16,777,215 edits.
    pub fn greatest() -> Limits
        ensures { result ≡ record { buckets = 17; edits = 16777215 } }
    {
        Limits {
            buckets: 17,
            edits: 16_777_215,
        }
    }

    /// At most how many buckets are opened.
    pub fn buckets(&self) -> u32
        ensures value { result ≡ self.now.buckets }
        ensures allowed { AreAllowed self.now.buckets self.now.edits }
    {
        self.buckets
    }

    /// At most how many edits are accepted.
    pub fn edits(&self) -> u32
        ensures value { result ≡ self.now.edits }
        ensures allowed { AreAllowed self.now.buckets self.now.edits }
    {
        self.edits
    }

    /// How many elements the vector holds when it is full.
    pub fn capacity(&self) -> u32
        ensures value { result ≡ capacity_of self.now.buckets }
        ensures allowed { AreAllowed self.now.buckets self.now.edits }
    {
        capacity(self.buckets)
    }
}
