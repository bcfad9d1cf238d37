//! The pointer that C keeps, and what it owns.
ghost use Rattle.std.specs.Prelude.{◌≡◌, Option, IsSome, Some, None};
ghost use Rattle.std.specs.Borrow.{sem};
ghost use Rattle.livevec_c.specs.declared.objects.Object.{Object};
ghost use Rattle.livevec_c.specs.Owned.{inner_coded, raw_owns};

mod parts;

use crate::objects::Object;
use parts::Parts;
use std::alloc::Global;
use std::marker::Model;

/// A pointer to an object that it owns, or to nothing.
#[repr(C)]
#[derive(Drop)]
pub struct Raw {
    at: *mut u8,
    alloc: Global,
    pub ghost inner: { Option Object } by { inner_coded },
}

impl Model for Raw {
    ghost also_owns = { λ h. raw_owns h.alloc h.at h.inner };
}

impl Raw {
    ghost use Rattle.livevec_c.specs.Lent.{LendsInner};

    /// Owns what the box owned.
    pub fn of_box(b: Box<Object>) -> Raw
        ensures { result.inner ≡ Some b.value }
    {
        Raw::of_parts(Parts::of(b))
    }

    /// The box again.
    pub fn into_box(self) -> Box<Object>
        requires { IsSome self.inner }
        ensures { self.inner ≡ Some result.value }
    {
        self.into_parts().into_box()
    }

    /// Lends the object that it owns.
    pub fn as_mut(&mut self) -> &mut Object
        requires { IsSome self.old.inner }
        ensures* writes_back { sem 𝓛 (LendsInner self.entry result) }
        ensures value { self.old.inner ≡ Some result.now }
    {
        unsafe { &mut *(self.at as *mut Object) }
    }

    fn of_parts(parts: Parts<Object, Global>) -> Raw
        ensures { result.inner ≡ Some parts.value }
    {
        let Parts { ptr, alloc } = parts;
        Raw {
            at: ptr as *mut u8,
            alloc,
        }
    }

    fn into_parts(self) -> Parts<Object, Global>
        requires { IsSome self.inner }
        ensures { self.inner ≡ Some result.value }
    {
        let Raw { at, alloc } = self;
        Parts {
            ptr: at as *mut Object,
            alloc,
        }
    }

    /// Owns nothing.
    pub fn empty(alloc: Global) -> Raw
        ensures { result.inner ≡ None }
    {
        Raw {
            at: std::ptr::null_mut(),
            alloc,
        }
    }
}
