//! The slot that C holds.
ghost use Rattle.std.specs.Prelude.{◌≡◌, Option, IsSome, Some, None, option_map, is_some};

pub mod lent;

use crate::objects::Object;
use crate::raw::Raw;
use std::alloc::Global;
use std::mem;

/// The handle that C holds. If all its bytes are zero, it is empty.
#[repr(C)]
#[derive(Drop)]
pub struct Slot {
    full: bool,
    raw: Raw,
    ghost agrees: { full ≡ is_some raw.inner },
}

impl Slot {
    pub fn empty(alloc: Global) -> Slot
        ensures { result.raw.inner ≡ None }
    {
        Slot {
            full: false,
            raw: Raw::empty(alloc),
        }
    }

    pub fn full_of(b: Box<Object>) -> Slot
        ensures { result.raw.inner ≡ Some b.value }
    {
        Slot {
            full: true,
            raw: Raw::of_box(b),
        }
    }
}

/// Takes what a slot holds, and leaves it empty.
#[inline(always)]
pub fn take(alloc: Global, slot: &mut Slot) -> Option<Box<Object>>
    ensures taken { slot.old.raw.inner ≡ option_map (λ b. b.value) result }
    ensures left { slot.new.raw.inner ≡ None }
{
    if is_full(slot) {
        Some(take_full(alloc, slot))
    } else {
        None
    }
}

/// Takes what a full slot holds, and leaves it empty.
// Inlined: if a caller asked first whether it is full, no choice between two pointers is left.
#[inline(always)]
pub fn take_full(alloc: Global, slot: &mut Slot) -> Box<Object>
    requires full { IsSome slot.old.raw.inner }
    ensures taken { slot.old.raw.inner ≡ Some result.value }
    ensures left { slot.new.raw.inner ≡ None }
{
    let Slot { full: _, raw } = mem::replace(slot, Slot::empty(alloc));
    raw.into_box()
}

/// Puts a box into a slot that is empty.
#[inline(always)]
pub fn put(slot: &mut Slot, b: Box<Object>)
    ensures { slot.new.raw.inner ≡ Some b.value }
{
    *slot = Slot::full_of(b);
}

/// Whether a slot holds something.
#[inline(always)]
pub fn is_full(slot: &mut Slot) -> bool
    ensures full { result ≡ is_some slot.old.raw.inner }
    ensures same { slot.new.raw.inner ≡ slot.old.raw.inner }
{
    slot.full
}
