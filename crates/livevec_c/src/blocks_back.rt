//! How a vector takes in the outcomes of jobs of many blocks.
ghost use Rattle.std.specs.Prelude.{◌≡◌};
ghost use Rattle.livevec_c.specs.Blocks.{Takes, TakesBrought, TakesLive, TakesObject, TakesVector, taken_by, untaken};

use crate::kind_vectors::KindVector;
use crate::objects::Object;
use crate::results::{NO_HANDLE, Taken};
use crate::slots::{Slot, put, take};
use lv_bodies::SixByTable;
use lv_live::{BatchOutcome, Batched};
use std::alloc::Global;

// The answer if nothing was taken in.
fn not_taken() -> Taken
    ensures { result ≡ untaken }
{
    Taken {
        refusal: NO_HANDLE,
        installed: 0,
        held: 0,
        stale: 0,
        strangers: 0,
    }
}

// What became of outcomes, for C.
fn taken_answer(told: Batched) -> Taken
    ensures { result ≡ taken_by told }
{
    Taken {
        refusal: 0,
        installed: told.installed as u64,
        held: told.held as u64,
        stale: told.stale as u64,
        strangers: told.strangers as u64,
    }
}

// Takes outcomes in at a vector.
fn take_in(vector: &mut KindVector, outcomes: &BatchOutcome<SixByTable>) -> Taken
    ensures { TakesVector result vector.old vector.new outcomes.now }
{
    taken_answer(vector.accept_batch(outcomes))
}

// Takes an object in at a vector, if it is the outcomes of a batch.
fn accept_vector(vector: &mut KindVector, brought: &Object) -> Taken
    ensures { TakesLive result vector.old vector.new brought.now }
{
    match brought {
        Object::BatchOutcome(outcomes) => take_in(vector, outcomes),
        _ => not_taken(),
    }
}

// Takes an object in at another.
fn accept_of(object: &mut Object, brought: &Object) -> Taken
    ensures { TakesObject result object.old object.new brought.now }
{
    match object {
        Object::Vector(vector, _) => accept_vector(vector, brought),
        _ => not_taken(),
    }
}

// Takes in the object that a slot holds. The slot is empty afterwards if it was taken in.
fn accept_from(alloc: Global, object: &mut Object, batch: &mut Slot) -> Taken
    ensures { TakesBrought result object.old object.new batch.old.raw.inner batch.new.raw.inner }
{
    match take(alloc, batch) {
        None => not_taken(),
        Some(brought) => {
            let answer = accept_of(object, &brought);
            if answer.refusal == 0 {
                drop(brought);
            } else {
                put(batch, brought);
            }
            answer
        }
    }
}

/// Takes in the outcomes of a batch, each one if vetting says yes, and returns what became of them. The batch's slot is empty afterwards, unless
/// the call was refused.
#[unsafe(no_mangle)]
pub extern "C" fn livevec_proved_accept_blocks(
    alloc: Global,
    slot: &mut Slot,
    batch: &mut Slot,
) -> Taken
    ensures { Takes result slot.old.raw.inner slot.new.raw.inner batch.old.raw.inner batch.new.raw.inner }
{
    match take(alloc, slot) {
        None => not_taken(),
        Some(mut held) => {
            let answer = accept_from(alloc, &mut held, batch);
            put(slot, held);
            answer
        }
    }
}
