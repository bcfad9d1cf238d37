//! Answers of a series.
ghost use Rattle.std.specs.Prelude.{◌≡◌, ⊤};

use std::alloc::AllocError;

/// The answer to a query of a range: the number of the last edit, and the value of the range's elements after it.
#[derive(Copy, PartialEq, Eq)]
pub struct LongAnswer<S> {
    pub edit: u64,
    pub value: S,
}

impl<S: Copy> Clone for LongAnswer<S> {
    ghost is_clone = { λ x y. y ≡ x };

    ghost is_infallible = { λ _. ⊤ };

    fn clone(&self) -> Result<LongAnswer<S>, AllocError> {
        Ok(*self)
    }
}

/// The answer to a piece of a scan: the number of the last edit, and how many values were put into the buffer.
#[derive(Clone, Copy, PartialEq, Eq)]
pub struct LongScan {
    pub edit: u64,
    pub count: usize,
}
