//! How calls end, and the outcomes of events.
ghost use Rattle.std.specs.Prelude.{◌≡◌, ⊤};

use lv_edits::Receipt;
use lv_geometry::Refusal;
use lv_reduce::Answer;
use std::alloc::AllocError;

/// An element, and the number of the last update at which it was read.
#[derive(Clone, Copy, PartialEq, Eq)]
pub struct Read {
    pub edit: u32,
    pub value: i64,
}

/// The number of elements after an update.
#[derive(Clone, Copy, PartialEq, Eq)]
pub struct Sized {
    pub edit: u32,
    pub size: u32,
}

/// The parts of a block were made. After `edit`, the last update that touched the block was `version`.
#[derive(Clone, Copy, PartialEq, Eq)]
pub struct Refreshed {
    pub edit: u32,
    pub version: u32,
}

/// How a call ends.
#[derive(Copy, PartialEq, Eq)]
pub enum Said<S> {
    /// An update was accepted.
    Did(Receipt),
    /// An element.
    Read(Read),
    /// The size.
    Sized(Sized),
    /// A fold.
    Answered(Answer<S>),
    /// The parts of a block were made.
    Refreshed(Refreshed),
    /// The call was refused.
    Refused(Refusal),
}

/// The outcome of an event.
#[derive(Copy, PartialEq, Eq)]
pub enum Outcome<S> {
    /// The call begins, and needs a step.
    Started,
    /// The step is done, and the call continues.
    Going,
    /// The call has ended.
    Done(Said<S>),
    /// The event is refused with `NotNow`, and nothing has changed.
    Refused(Refusal),
}

impl<S: Copy> Clone for Said<S> {
    ghost is_clone = { λ x y. y ≡ x };

    ghost is_infallible = { λ _. ⊤ };

    fn clone(&self) -> Result<Said<S>, AllocError> {
        Ok(*self)
    }
}

impl<S: Copy> Clone for Outcome<S> {
    ghost is_clone = { λ x y. y ≡ x };

    ghost is_infallible = { λ _. ⊤ };

    fn clone(&self) -> Result<Outcome<S>, AllocError> {
        Ok(*self)
    }
}
