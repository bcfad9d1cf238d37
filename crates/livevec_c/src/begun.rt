//! One export makes each object that has no parameter: a series, samples, a set of queries, or a loader.
ghost use Rattle.std.specs.Prelude.{◌≡◌, IfOk};
ghost use Rattle.livevec_c.specs.Begun.{Begins, IsBegun};

use crate::objects::Object;
use crate::queries_calls::new_queries;
use crate::results::{IN_USE, NO_MEMORY};
use crate::samples::new_samples;
use crate::series::new_series;
use crate::series_saved::new_loader;
use crate::slots::{Slot, is_full, put};
use std::alloc::{AllocError, Global};

// Makes the object that a number names, in a place of its own.
fn new_object(alloc: Global, what: u32) -> Result<Box<Object>, AllocError>
    ensures { IfOk result (λ b. IsBegun what b.value) }
{
    match what {
        0 => new_series(alloc),
        1 => new_samples(alloc),
        2 => new_loader(alloc),
        _ => new_queries(alloc),
    }
}

/// Puts the object that a number names into an empty slot: a series (0) or samples (1) with the program's automaton, a loader (2), or a set without
/// queries (any other number).
#[unsafe(no_mangle)]
pub extern "C" fn livevec_proved_begin(alloc: Global, slot: &mut Slot, what: u32) -> u32
    ensures { Begins what result slot.old.raw.inner slot.new.raw.inner }
{
    if is_full(slot) {
        return IN_USE;
    }
    match new_object(alloc, what) {
        Err(_) => NO_MEMORY,
        Ok(held) => {
            put(slot, held);
            0
        }
    }
}
