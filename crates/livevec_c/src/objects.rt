//! The objects that a slot can hold.
ghost use Rattle.std.specs.Prelude.{◌≡◌};

use crate::ended::Ended;
use crate::kind_boards::KindBoard;
use crate::kind_seats::KindSeat;
use crate::kind_vectors::KindVector;
use crate::queries::Queries;
use lv_board::{Closed, Elements};
use lv_bodies::{Kind, SixByTable};
use lv_live::{Batch, BatchOutcome};
use lv_refresh::{Job, Outcome, SubtreeJob, SubtreeOutcome};
use lv_saved::Loader;
use lv_series::{Samples, Series};
use std::alloc::Global;
use std::mem;

/// An object that a slot holds for C.
#[derive(Drop)]
pub enum Object {
    /// A vector, and the one kind that it is of, if it is of one.
    Vector(KindVector, Option<Kind>),
    Job(Job<SixByTable>),
    Outcome(Outcome<SixByTable>),
    /// Jobs of many blocks, and what they gave.
    Batch(Batch<SixByTable>),
    BatchOutcome(BatchOutcome<SixByTable>),
    /// The job of a subtree, and what it gave.
    Subtree(SubtreeJob<SixByTable>),
    SubtreeOutcome(SubtreeOutcome<SixByTable>),
    Board(KindBoard),
    Seat(KindSeat),
    Closed(Ended),
    Series(Series),
    Samples(Samples),
    /// The bytes of what is loaded.
    Loader(Loader),
    Queries(Queries),
}

/// An object without memory.
pub fn nothing(alloc: Global) -> Object {
    Object::Closed(Ended {
        closed: Closed {
            edit: 0,
            elements: Elements::from_vec(Vec::new(alloc)),
        },
        size: 0,
    })
}

/// Puts another object in an object's place, which is dropped.
pub fn refill(object: &mut Object, other: Object)
    ensures { object.new ≡ other }
{
    drop(mem::replace(object, other));
}
