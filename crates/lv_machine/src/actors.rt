//! An actor: its look, and its call, if one is under way.
ghost use Rattle.std.specs.Prelude.{◌≡◌, ⊤};

use crate::tasks::Task;
use std::alloc::AllocError;

/// The state of an actor: the descriptor that it last saw, and its call, if one is under way.
#[derive(Copy)]
pub struct Actor<S> {
    pub look: u64,
    pub task: Option<Task<S>>,
}

impl<S: Copy> Clone for Actor<S> {
    ghost is_clone = { λ x y. y ≡ x };

    ghost is_infallible = { λ _. ⊤ };

    fn clone(&self) -> Result<Actor<S>, AllocError> {
        Ok(*self)
    }
}
