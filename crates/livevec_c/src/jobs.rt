//! Refresh: jobs, how they are claimed and run, and what their calls answer.
ghost use Rattle.std.specs.Prelude.{◌≡◌, None};
ghost use Rattle.livevec_c.specs.Answers.{claimed_by, unclaimed};
ghost use Rattle.livevec_c.specs.Working.{Claims, ClaimsObject, ClaimsVector, Forgets, ForgetsObject, Refreshes, RefreshesObject, Runs, RunsObject};

use crate::kind_vectors::KindVector;
use crate::lifetimes::new_vector;
use crate::objects::{Object, refill};
use crate::results::{Count, IN_USE, NO_HANDLE, NO_MEMORY};
use crate::slots::{Slot, is_full, put, take};
use lv_bodies::Automaton;
use lv_geometry::{Limits, Node};
use std::alloc::Global;

/// The answer of a claim.
#[repr(C)]
#[derive(Clone, Copy)]
pub struct ClaimedJob {
    pub refusal: u32,
    pub found: bool,
    pub level: u32,
    pub number: u32,
    pub version: u32,
}

/// What became of an outcome.
#[repr(C)]
#[derive(Clone, Copy)]
pub struct Delivered {
    pub refusal: u32,
    pub became: u32,
    pub now: u32,
}

/// A yes or a no.
#[repr(C)]
#[derive(Clone, Copy)]
pub struct Vetted {
    pub refusal: u32,
    pub yes: bool,
}

// A refresh of an object.
fn refresh_of(object: &mut Object, jobs: u32) -> Count
    ensures { RefreshesObject jobs result object.old object.new }
{
    match object {
        Object::Vector(vector, _) => Count {
            refusal: 0,
            value: vector.refresh(jobs),
        },
        _ => Count {
            refusal: NO_HANDLE,
            value: 0,
        },
    }
}

/// Computes at most so many summaries in place.
#[unsafe(no_mangle)]
pub extern "C" fn livevec_proved_refresh(alloc: Global, slot: &mut Slot, jobs: u32) -> Count
    ensures { Refreshes jobs result slot.old.raw.inner slot.new.raw.inner }
{
    match take(alloc, slot) {
        None => Count {
            refusal: NO_HANDLE,
            value: 0,
        },
        Some(mut held) => {
            let answer = refresh_of(&mut held, jobs);
            put(slot, held);
            answer
        }
    }
}

// Forgets the claims of an object.
fn forget_of(object: &mut Object) -> u32
    ensures { ForgetsObject result object.old object.new }
{
    match object {
        Object::Vector(vector, _) => {
            vector.forget_claims();
            0
        }
        _ => NO_HANDLE,
    }
}

/// Forgets all claims.
#[unsafe(no_mangle)]
pub extern "C" fn livevec_proved_forget(alloc: Global, slot: &mut Slot) -> u32
    ensures { Forgets result slot.old.raw.inner slot.new.raw.inner }
{
    match take(alloc, slot) {
        None => NO_HANDLE,
        Some(mut held) => {
            let answer = forget_of(&mut held);
            put(slot, held);
            answer
        }
    }
}

// The answer of a claim that found no job, or was refused.
fn not_claimed(refusal: u32) -> ClaimedJob
    ensures { result ≡ unclaimed refusal }
{
    ClaimedJob {
        refusal,
        found: false,
        level: 0,
        number: 0,
        version: 0,
    }
}

// The answer of a claim that found a job.
fn claim_answer(node: Node, version: u32) -> ClaimedJob
    ensures { result ≡ claimed_by node version }
{
    ClaimedJob {
        refusal: 0,
        found: true,
        level: node.level,
        number: node.number,
        version,
    }
}

/// A box with another object in it.
pub fn refilled(room: Box<Object>, object: Object) -> Box<Object>
    ensures { result.value ≡ object }
{
    let mut room = room;
    refill(&mut room, object);
    room
}

// A claim of a vector, for an empty slot and a box.
fn claim_into(vector: &mut KindVector, room: Box<Object>, job: &mut Slot) -> ClaimedJob
    requires { job.old.raw.inner ≡ None }
    ensures { ClaimsVector result vector.old vector.new job.new.raw.inner }
{
    match vector.claim() {
        None => not_claimed(0),
        Some(found) => {
            let answer = claim_answer(found.node(), found.version());
            put(job, refilled(room, Object::Job(found)));
            answer
        }
    }
}

// A claim of a vector, for an empty slot. Room is made before anything changes.
fn claim_vector(alloc: Global, vector: &mut KindVector, job: &mut Slot) -> ClaimedJob
    requires { job.old.raw.inner ≡ None }
    ensures { ClaimsVector result vector.old vector.new job.new.raw.inner }
{
    match new_vector(alloc, None, Limits::greatest(), Automaton::program()) {
        Err(_) => not_claimed(NO_MEMORY),
        Ok(room) => claim_into(vector, room, job),
    }
}

// A claim of an object, for an empty slot.
fn claim_of(alloc: Global, object: &mut Object, job: &mut Slot) -> ClaimedJob
    requires { job.old.raw.inner ≡ None }
    ensures { ClaimsObject result object.old object.new job.new.raw.inner }
{
    match object {
        Object::Vector(vector, _) => claim_vector(alloc, vector, job),
        _ => not_claimed(NO_HANDLE),
    }
}

/// Puts a job for the least node that needs one into an empty slot.
#[unsafe(no_mangle)]
pub extern "C" fn livevec_proved_claim(alloc: Global, slot: &mut Slot, job: &mut Slot) -> ClaimedJob
    ensures { Claims result slot.old.raw.inner job.old.raw.inner slot.new.raw.inner job.new.raw.inner }
{
    if is_full(job) {
        return not_claimed(IN_USE);
    }
    match take(alloc, slot) {
        None => not_claimed(NO_HANDLE),
        Some(mut held) => {
            let answer = claim_of(alloc, &mut held, job);
            put(slot, held);
            answer
        }
    }
}

// Computes an object that is a job, and returns whether it is one.
fn run_of(object: &mut Object) -> bool
    ensures { RunsObject result object.old object.new }
{
    match object {
        Object::Job(job) => {
            let outcome = job.run();
            refill(object, Object::Outcome(outcome));
            true
        }
        _ => false,
    }
}

/// Computes a job. Its outcome is then in the other slot.
#[unsafe(no_mangle)]
pub extern "C" fn livevec_proved_run(alloc: Global, job: &mut Slot, outcome: &mut Slot) -> u32
    ensures { Runs result job.old.raw.inner outcome.old.raw.inner job.new.raw.inner outcome.new.raw.inner }
{
    if is_full(outcome) {
        return IN_USE;
    }
    match take(alloc, job) {
        None => NO_HANDLE,
        Some(mut held) => {
            if run_of(&mut held) {
                put(outcome, held);
                0
            } else {
                put(job, held);
                NO_HANDLE
            }
        }
    }
}
