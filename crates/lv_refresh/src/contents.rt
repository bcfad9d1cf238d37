//! What a node's summary is computed from: eight elements, or eight summaries.
use std::alloc::AllocError;

/// Eight values, in order.
#[derive(PartialEq, Eq)]
pub struct Eight<S> {
    pub a: S,
    pub b: S,
    pub c: S,
    pub d: S,
    pub e: S,
    pub f: S,
    pub g: S,
    pub h: S,
}

impl<S: Copy> Clone for Eight<S> {
    ghost use Rattle.std.specs.Prelude.{◌≡◌, ⊤};

    ghost is_clone = { λ x y. y ≡ x };

    ghost is_infallible = { λ _. ⊤ };

    fn clone(&self) -> Result<Eight<S>, AllocError> {
        Ok(*self)
    }
}

impl<S: Copy> Copy for Eight<S> {}

/// What a node's summary is computed from.
#[derive(PartialEq, Eq)]
pub enum Contents<S> {
    /// At level 1, the elements.
    Elements([i64; 8]),
    /// Above, the summaries of the eight children.
    Children(Eight<S>),
}

impl<S: Copy> Clone for Contents<S> {
    ghost use Rattle.std.specs.Prelude.{◌≡◌, ⊤};

    ghost is_clone = { λ x y. y ≡ x };

    ghost is_infallible = { λ _. ⊤ };

    fn clone(&self) -> Result<Contents<S>, AllocError> {
        Ok(*self)
    }
}

impl<S: Copy> Copy for Contents<S> {}
