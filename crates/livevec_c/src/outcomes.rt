//! Outcomes of jobs: whether one is accepted, and what becomes of it.
ghost use Rattle.std.specs.Prelude.{◌≡◌};
ghost use Rattle.livevec_c.specs.Answers.{accepted_by, unaccepted, unvetted};
ghost use Rattle.livevec_c.specs.Working.{Accepts, AcceptsLive, AcceptsObject, AcceptsVector, AcceptsWith, Vets, VetsObject, VetsVector, VetsWith};

use crate::jobs::{Delivered, Vetted};
use crate::kind_vectors::KindVector;
use crate::objects::Object;
use crate::results::NO_HANDLE;
use crate::slots::{Slot, put, take};
use lv_bodies::SixByTable;
use lv_live::Live;
use lv_refresh::Outcome;
use lv_summary::Accepted;
use std::alloc::Global;

// The answer of vetting if a slot does not hold what it should.
fn not_vetted() -> Vetted
    ensures { result ≡ unvetted }
{
    Vetted {
        refusal: NO_HANDLE,
        yes: false,
    }
}

// Whether a vector would accept an object.
fn vet_live(live: &Live<SixByTable>, brought: &Object) -> Vetted
    ensures { VetsVector result live.now brought.now }
{
    match brought {
        Object::Outcome(outcome) => Vetted {
            refusal: 0,
            yes: live.vet(outcome),
        },
        _ => not_vetted(),
    }
}

// Whether an object would accept another.
fn vet_of(object: &Object, brought: &Object) -> Vetted
    ensures { VetsObject result object.now brought.now }
{
    match object {
        Object::Vector(vector, _) => vet_live(vector.live(), brought),
        _ => not_vetted(),
    }
}

// Whether an object would accept the one in a slot.
fn vet_with(alloc: Global, object: &Object, outcome: &mut Slot) -> Vetted
    ensures answer { VetsWith result object.now outcome.old.raw.inner }
    ensures same { outcome.new.raw.inner ≡ outcome.old.raw.inner }
{
    match take(alloc, outcome) {
        None => not_vetted(),
        Some(brought) => {
            let answer = vet_of(object, &brought);
            put(outcome, brought);
            answer
        }
    }
}

/// Whether an outcome would be accepted.
#[unsafe(no_mangle)]
pub extern "C" fn livevec_proved_vet(alloc: Global, slot: &mut Slot, outcome: &mut Slot) -> Vetted
    ensures answer { Vets result slot.old.raw.inner outcome.old.raw.inner }
    ensures same { slot.new.raw.inner ≡ slot.old.raw.inner }
    ensures kept { outcome.new.raw.inner ≡ outcome.old.raw.inner }
{
    match take(alloc, slot) {
        None => not_vetted(),
        Some(held) => {
            let answer = vet_with(alloc, &held, outcome);
            put(slot, held);
            answer
        }
    }
}

// The answer of a delivery that was refused.
fn not_accepted(refusal: u32) -> Delivered
    ensures { result ≡ unaccepted refusal }
{
    Delivered {
        refusal,
        became: 0,
        now: 0,
    }
}

// The answer of a delivery that was accepted.
fn delivery_answer(accepted: Accepted) -> Delivered
    ensures { result ≡ accepted_by accepted }
{
    let (became, now) = match accepted {
        Accepted::Installed => (1, 0),
        Accepted::Held => (2, 0),
        Accepted::Stale { now } => (3, now),
    };
    Delivered {
        refusal: 0,
        became,
        now,
    }
}

// Delivers an outcome to a vector.
fn accept_outcome(vector: &mut KindVector, outcome: Outcome<SixByTable>) -> Delivered
    ensures { AcceptsVector result vector.old vector.new outcome }
{
    // 15 is the library's `Stranger`.
    if vector.vet(&outcome) {
        delivery_answer(vector.accept(outcome))
    } else {
        not_accepted(15)
    }
}

// Delivers an object to a vector.
fn accept_vector(vector: &mut KindVector, brought: &Object) -> Delivered
    ensures { AcceptsLive result vector.old vector.new brought.now }
{
    match brought {
        Object::Outcome(outcome) => accept_outcome(vector, *outcome),
        _ => not_accepted(NO_HANDLE),
    }
}

// Delivers an object to another.
fn accept_of(object: &mut Object, brought: &Object) -> Delivered
    ensures { AcceptsObject result object.old object.new brought.now }
{
    match object {
        Object::Vector(vector, _) => accept_vector(vector, brought),
        _ => not_accepted(NO_HANDLE),
    }
}

// Delivers the object in a slot to another.
fn accept_with(alloc: Global, object: &mut Object, outcome: &mut Slot) -> Delivered
    ensures answer { AcceptsWith result object.old object.new outcome.old.raw.inner }
    ensures same { outcome.new.raw.inner ≡ outcome.old.raw.inner }
{
    match take(alloc, outcome) {
        None => not_accepted(NO_HANDLE),
        Some(brought) => {
            let answer = accept_of(object, &brought);
            put(outcome, brought);
            answer
        }
    }
}

/// Delivers an outcome, if vetting says yes. The outcome stays in its slot as it is.
#[unsafe(no_mangle)]
pub extern "C" fn livevec_proved_accept(
    alloc: Global,
    slot: &mut Slot,
    outcome: &mut Slot,
) -> Delivered
    ensures answer { Accepts result slot.old.raw.inner slot.new.raw.inner outcome.old.raw.inner }
    ensures kept { outcome.new.raw.inner ≡ outcome.old.raw.inner }
{
    match take(alloc, slot) {
        None => not_accepted(NO_HANDLE),
        Some(mut held) => {
            let answer = accept_with(alloc, &mut held, outcome);
            put(slot, held);
            answer
        }
    }
}
