//! The object in a slot, lent to be read.
ghost use Rattle.std.specs.Prelude.{◌≡◌, IsSome, Some};
ghost use Rattle.std.specs.Borrow.{sem};
ghost use Rattle.livevec_c.specs.Kept.{Keeps};

use crate::objects::Object;
use crate::slots::Slot;

/// Lends what a full slot holds to be read.
pub fn shared(slot: &mut Slot) -> &Object
    requires full { IsSome slot.old.raw.inner }
    ensures* kept { sem 𝓛 (Keeps slot.entry) }
    ensures held { slot.old.raw.inner ≡ Some result.now }
{
    slot.raw.as_mut()
}
