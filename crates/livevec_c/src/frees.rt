//! How the object in a slot ends: a free is of one sort of object, and of no other.
ghost use Rattle.std.specs.Prelude.{◌≡◌};
ghost use Rattle.livevec_c.specs.Frees.{free_number, left_by_free, sort_of};

use crate::objects::Object;
use crate::results::NO_HANDLE;
use crate::slots::{Slot, put, take};
use std::alloc::Global;

/// The sort of an object, by the number that C has for it.
pub fn sort_of(object: &Object) -> u32
    ensures { result ≡ sort_of object.now }
{
    match object {
        Object::Vector(..) => 0,
        Object::Job(_) => 1,
        Object::Outcome(_) => 2,
        Object::Batch(_)
        | Object::BatchOutcome(_)
        | Object::Subtree(_)
        | Object::SubtreeOutcome(_) => 3,
        Object::Board(_) | Object::Closed(_) => 4,
        Object::Seat(_) => 5,
        Object::Series(_) | Object::Samples(_) | Object::Loader(_) => 6,
        Object::Queries(_) => 7,
    }
}

/// Frees the object in a slot and empties the slot, if the object is of this sort.
#[unsafe(no_mangle)]
pub extern "C" fn livevec_proved_free(alloc: Global, slot: &mut Slot, sort: u32) -> u32
    ensures number { result ≡ free_number sort slot.old.raw.inner }
    ensures left { slot.new.raw.inner ≡ left_by_free sort slot.old.raw.inner }
{
    match take(alloc, slot) {
        None => NO_HANDLE,
        Some(held) => {
            if sort_of(&held) == sort {
                drop(held);
                return 0;
            }
            put(slot, held);
            NO_HANDLE
        }
    }
}
