//! Jobs of many blocks at once: they are copied with the vector, and computed without it.
ghost use Rattle.std.specs.Prelude.{◌≡◌, ◌<◌, ◌^◌, IfOk, None, length};
ghost use Rattle.livevec_c.specs.declared.objects.Object.TheVariants as behind;
ghost use Rattle.livevec_c.specs.Blocks.{CopiesObject, CopiesVector, KeepsCopies, RunsBatch, RunsBlocks, RunsObject};
ghost use Rattle.livevec_c.specs.Subtrees.{Copies, CopiesJobs};

use crate::objects::{Object, nothing, refill};
use crate::results::{Count, IN_USE, NO_HANDLE, NO_MEMORY, not_copied};
use crate::slots::{Slot, is_full, put, take};
use crate::subtrees::{copy_subtree, run_subtree};
use lv_bodies::SixByTable;
use lv_live::{Batch, Live};
use std::alloc::{AllocError, Global};
use std::mem;

// A batch in a place of its own.
fn place_of(alloc: Global, batch: Batch<SixByTable>) -> Result<Box<Object>, AllocError>
    ensures { IfOk result (λ b. b.value ≡ behind.Batch batch) }
{
    Ok(Box::new(alloc, Object::Batch(batch))?)
}

// Puts a batch into an empty slot, if it has jobs.
fn keep_copies(alloc: Global, batch: Batch<SixByTable>, slot: &mut Slot) -> Count
    requires empty { slot.old.raw.inner ≡ None }
    requires few { length batch < 2 ^ 32 }
    ensures { KeepsCopies batch result slot.new.raw.inner }
{
    let jobs = batch.len();
    if jobs == 0 {
        return not_copied(0);
    }
    match place_of(alloc, batch) {
        Err(AllocError) => not_copied(NO_MEMORY),
        Ok(held) => {
            put(slot, held);
            Count {
                refusal: 0,
                value: jobs as u32,
            }
        }
    }
}

// Copies blocks of a vector into an empty slot.
fn copy_vector(
    alloc: Global,
    live: &Live<SixByTable>,
    first: u32,
    limit: u32,
    slot: &mut Slot,
) -> Count
    requires { slot.old.raw.inner ≡ None }
    ensures { CopiesVector first limit result live.now slot.new.raw.inner }
{
    match live.copy_blocks(alloc, first, limit) {
        Err(_) => not_copied(NO_MEMORY),
        Ok(batch) => keep_copies(alloc, batch, slot),
    }
}

// Copies blocks of an object into an empty slot.
fn copy_of(alloc: Global, object: &Object, first: u32, limit: u32, slot: &mut Slot) -> Count
    requires { slot.old.raw.inner ≡ None }
    ensures { CopiesObject first limit result object.now slot.new.raw.inner }
{
    match object {
        Object::Vector(vector, _) => copy_vector(alloc, vector.live(), first, limit, slot),
        _ => not_copied(NO_HANDLE),
    }
}

// Copies jobs of an object into an empty slot: of blocks from one on, or of a subtree.
fn copy_jobs(
    alloc: Global,
    object: &Object,
    subtree: bool,
    first: u32,
    limit: u32,
    slot: &mut Slot,
) -> Count
    requires { slot.old.raw.inner ≡ None }
    ensures { CopiesJobs subtree first limit result object.now slot.new.raw.inner }
{
    if subtree {
        copy_subtree(alloc, object, first, slot)
    } else {
        copy_of(alloc, object, first, limit, slot)
    }
}

/// Copies each block that is whole and not fresh, of at most `limit` blocks from one on, into an empty slot. Or it copies the elements of the
/// subtree of that number, a node of level 4, if it is whole and neither its first block nor its last is fresh. Nothing is claimed by it.
#[unsafe(no_mangle)]
pub extern "C" fn livevec_proved_copy(
    alloc: Global,
    slot: &mut Slot,
    batch: &mut Slot,
    subtree: bool,
    first: u32,
    limit: u32,
) -> Count
    ensures answer { Copies subtree first limit result slot.old.raw.inner batch.old.raw.inner batch.new.raw.inner }
    ensures same { slot.new.raw.inner ≡ slot.old.raw.inner }
{
    if is_full(batch) {
        return not_copied(IN_USE);
    }
    match take(alloc, slot) {
        None => not_copied(NO_HANDLE),
        Some(held) => {
            let answer = copy_jobs(alloc, &held, subtree, first, limit, batch);
            put(slot, held);
            answer
        }
    }
}

// Computes a batch of jobs. Returns 0 and the outcomes, or the number of the refusal and the jobs.
fn run_batch(alloc: Global, batch: Batch<SixByTable>) -> (u32, Object)
    ensures { RunsBatch result.0 batch result.1 }
{
    match batch.run(alloc) {
        Err(_) => (NO_MEMORY, Object::Batch(batch)),
        Ok(outcomes) => (0, Object::BatchOutcome(outcomes)),
    }
}

// Computes an object that is jobs of blocks, or the job of a subtree. Returns any other object as it is, with a number.
fn run_object(alloc: Global, object: Object) -> (u32, Object)
    ensures { RunsObject result.0 object result.1 }
{
    match object {
        Object::Batch(batch) => run_batch(alloc, batch),
        Object::Subtree(job) => run_subtree(alloc, job),
        other => (NO_HANDLE, other),
    }
}

// Computes an object in its place.
fn run_of(alloc: Global, object: &mut Object) -> u32
    ensures { RunsObject result object.old object.new }
{
    let (answer, left) = run_object(alloc, mem::replace(object, nothing(alloc)));
    refill(object, left);
    answer
}

/// Computes a batch of jobs, or the job of a subtree. The slot then holds the outcomes, or still the jobs if the call is refused.
#[unsafe(no_mangle)]
pub extern "C" fn livevec_proved_run_blocks(alloc: Global, batch: &mut Slot) -> u32
    ensures { RunsBlocks result batch.old.raw.inner batch.new.raw.inner }
{
    match take(alloc, batch) {
        None => NO_HANDLE,
        Some(mut held) => {
            let answer = run_of(alloc, &mut held);
            put(batch, held);
            answer
        }
    }
}
