//! Jobs of whole subtrees: one is copied with the vector, computed without it, and taken in by it.
ghost use Rattle.std.specs.Prelude.{◌≡◌, IfOk, None, option_map};
ghost use Rattle.livevec_c.specs.declared.objects.Object.TheVariants as behind;
ghost use Rattle.livevec_c.specs.Blocks.{RunsSubtree};
ghost use Rattle.livevec_c.specs.Subtrees.{CopiesFrom, CopiesFromVector, KeepsJob, TakesInAt, TakesInFrom, TakesObjectIn, TakesSubtree, TakesSubtreeIn, copied_answer};

use crate::kind_vectors::KindVector;
use crate::objects::Object;
use crate::results::{Count, NO_HANDLE, NO_MEMORY, not_copied};
use crate::slots::{Slot, put, take};
use lv_bodies::SixByTable;
use lv_live::Live;
use lv_refresh::{SUBTREE_SUMMARIES, SubtreeJob, SubtreeOutcome};
use std::alloc::{AllocError, Global};

// A subtree's job in a place of its own.
fn place_of(alloc: Global, job: SubtreeJob<SixByTable>) -> Result<Box<Object>, AllocError>
    ensures { IfOk result (λ b. b.value ≡ behind.Subtree job) }
{
    Ok(Box::new(alloc, Object::Subtree(job))?)
}

// Puts a subtree's job into an empty slot.
fn keep_job(alloc: Global, job: SubtreeJob<SixByTable>, slot: &mut Slot) -> Count
    requires { slot.old.raw.inner ≡ None }
    ensures { KeepsJob (Some job) result slot.new.raw.inner }
{
    match place_of(alloc, job) {
        Err(AllocError) => not_copied(NO_MEMORY),
        Ok(held) => {
            put(slot, held);
            Count {
                refusal: 0,
                value: SUBTREE_SUMMARIES,
            }
        }
    }
}

// Copies a subtree of a vector into an empty slot.
fn copy_vector(alloc: Global, live: &Live<SixByTable>, number: u32, slot: &mut Slot) -> Count
    requires { slot.old.raw.inner ≡ None }
    ensures { CopiesFromVector number result live.now slot.new.raw.inner }
{
    match live.copy_subtree(alloc, number) {
        Err(_) => not_copied(NO_MEMORY),
        Ok(None) => not_copied(0),
        Ok(Some(job)) => keep_job(alloc, job, slot),
    }
}

/// Copies a subtree of an object into an empty slot.
pub fn copy_subtree(alloc: Global, object: &Object, number: u32, slot: &mut Slot) -> Count
    requires { slot.old.raw.inner ≡ None }
    ensures { CopiesFrom number result object.now slot.new.raw.inner }
{
    match object {
        Object::Vector(vector, _) => copy_vector(alloc, vector.live(), number, slot),
        _ => not_copied(NO_HANDLE),
    }
}

/// Computes a subtree's job. Returns 0 and its outcome, or the number of the refusal and the job.
pub fn run_subtree(alloc: Global, job: SubtreeJob<SixByTable>) -> (u32, Object)
    ensures { RunsSubtree result.0 job result.1 }
{
    match job.run(alloc) {
        Err(job) => (NO_MEMORY, Object::Subtree(job)),
        Ok(outcome) => (0, Object::SubtreeOutcome(outcome)),
    }
}

// Takes a subtree in at a vector, if it wasn't taken in yet and the vector still has the elements that it was computed from.
fn take_in(vector: &mut KindVector, outcome: &mut SubtreeOutcome<SixByTable>) -> Count
    ensures { TakesSubtreeIn result vector.old vector.new outcome.old outcome.new }
{
    if vector.accept_subtree(outcome) {
        Count {
            refusal: 0,
            value: SUBTREE_SUMMARIES,
        }
    } else {
        not_copied(0)
    }
}

// Takes an object in at a vector, if it is the outcome of a subtree's job.
fn accept_vector(vector: &mut KindVector, brought: &mut Object) -> Count
    ensures { TakesObjectIn result vector.old vector.new brought.old brought.new }
{
    match brought {
        Object::SubtreeOutcome(outcome) => take_in(vector, outcome),
        _ => not_copied(NO_HANDLE),
    }
}

// Takes an object in at another.
fn accept_of(object: &mut Object, brought: &mut Object) -> Count
    ensures { TakesInAt result object.old object.new brought.old brought.new }
{
    match object {
        Object::Vector(vector, _) => accept_vector(vector, brought),
        _ => not_copied(NO_HANDLE),
    }
}

// Takes in the object that a slot holds. It stays in the slot.
fn accept_from(alloc: Global, object: &mut Object, batch: &mut Slot) -> Count
    ensures { TakesInFrom result object.old object.new batch.old.raw.inner batch.new.raw.inner }
{
    match take(alloc, batch) {
        None => not_copied(NO_HANDLE),
        Some(mut brought) => {
            let answer = accept_of(object, &mut brought);
            put(batch, brought);
            answer
        }
    }
}

/// Takes in the outcome of a subtree's job, if it wasn't taken in yet and the vector still has the elements that it was computed from. Returns how
/// many summaries were taken in. The batch's slot keeps the outcome, which is spent if it was taken in.
#[unsafe(no_mangle)]
pub extern "C" fn livevec_proved_accept_subtree(
    alloc: Global,
    slot: &mut Slot,
    batch: &mut Slot,
) -> Count
    ensures { TakesSubtree result slot.old.raw.inner slot.new.raw.inner batch.old.raw.inner batch.new.raw.inner }
{
    match take(alloc, slot) {
        None => not_copied(NO_HANDLE),
        Some(mut held) => {
            let answer = accept_from(alloc, &mut held, batch);
            put(slot, held);
            answer
        }
    }
}
