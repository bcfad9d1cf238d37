//! A reduction under way.
use std::alloc::AllocError;

// A reduction under way: the fold of the elements from `lo` up to `at`, and how many cells and blocks were read for it.
#[derive(Copy)]
pub(crate) struct BoardWalk<S> {
    pub(crate) lo: u32,
    pub(crate) at: u32,
    pub(crate) sum: S,
    pub(crate) cells: u32,
    pub(crate) summaries: u32,
}

impl<S: Copy> Clone for BoardWalk<S> {
    ghost use Rattle.std.specs.Prelude.{◌≡◌, ⊤};

    ghost is_clone = { λ x y. y ≡ x };

    ghost is_infallible = { λ _. ⊤ };

    fn clone(&self) -> Result<BoardWalk<S>, AllocError> {
        Ok(*self)
    }
}
