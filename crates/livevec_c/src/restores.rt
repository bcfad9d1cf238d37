//! A vector that is made anew from the edits of a prefix of a transcript.
ghost use Rattle.std.specs.Prelude.{◌≡◌, None};
ghost use Rattle.lv_edits.specs.Kept.{IsLegalInLimits};
ghost use Rattle.lv_live.specs.State.{SameRefresh};
ghost use Rattle.lv_transcript.specs.ReadTexts.{FindsFront};
ghost use Rattle.livevec_c.specs.Only.{only_asked};
ghost use Rattle.livevec_c.specs.Restores.{PlacesRemade, Remakes, RemakesObject, RemakesState, Restores, RestoresAt, RestoresEdits, RestoresFront, RestoresIn, restored_by};

use crate::kind_vectors::KindVector;
use crate::lifetimes::new_vector;
use crate::objects::Object;
use crate::only::only_of;
use crate::results::{BAD_KIND, IN_USE, detail};
use crate::slots::{Slot, is_full, put};
use crate::transcript_audits::{Audited, front_answer, front_refused, not_audited, unread_number};
use lv_bodies::{Automaton, Kind};
use lv_edits::Edit;
use lv_geometry::{Limits, Refusal};
use lv_transcript::{FoundFront, FrontVerdict, front_in};
use std::alloc::Global;

/// Why edits were not made anew to their end: the refusal, and how many were made before it.
#[derive(Clone, Copy)]
pub struct Stopped {
    pub refusal: Refusal,
    pub made: u32,
}

// Makes edits one after the other, up to the first that is refused.
fn remake(vector: &mut KindVector, edits: &[Edit]) -> Result<(), Refusal>
    requires { IsLegalInLimits vector.old.history }
    ensures edits { Remakes edits.now vector.old.history vector.new.history result }
    ensures refresh { SameRefresh vector.old vector.new }
    ensures limits { IsLegalInLimits vector.new.history }
{
    for edit in edits {
        match vector.apply(*edit) {
            Ok(_) => {}
            Err(refusal) => return Err(refusal),
        }
    }
    Ok(())
}

// Makes edits at a vector, one after the other. If one is refused, it returns how many edits the vector has then.
fn remake_told(vector: &mut KindVector, edits: &[Edit]) -> Result<(), Stopped>
    ensures { RemakesState edits.now result vector.old vector.new }
{
    vector.live().keeps();
    match remake(vector, edits) {
        Ok(()) => Ok(()),
        Err(refusal) => Err(Stopped {
            refusal,
            made: vector.live().edit(),
        }),
    }
}

// Makes edits at an object, one after the other, if it is a vector. With any other it makes none and returns `NoMemory`.
fn remake_object(object: &mut Object, edits: &[Edit]) -> Result<(), Stopped>
    ensures { RemakesObject edits.now result object.old object.new }
{
    match object {
        Object::Vector(vector, _) => remake_told(vector, edits),
        _ => Err(Stopped {
            refusal: Refusal::NoMemory,
            made: 0,
        }),
    }
}

// Makes edits at an object, one after the other, and puts the object into an empty slot if all were made.
fn place_remade(slot: &mut Slot, held: Box<Object>, edits: &[Edit]) -> Result<(), Stopped>
    requires { slot.old.raw.inner ≡ None }
    ensures { PlacesRemade edits.now held.value result slot.new.raw.inner }
{
    let mut held = held;
    match remake_object(&mut held, edits) {
        Ok(()) => {
            put(slot, held);
            Ok(())
        }
        Err(stopped) => Err(stopped),
    }
}

// Puts a vector that is made anew from edits into an empty slot.
fn restore_edits(
    alloc: Global,
    slot: &mut Slot,
    only: Option<Kind>,
    limits: Limits,
    edits: &[Edit],
) -> Result<(), Stopped>
    requires { slot.old.raw.inner ≡ None }
    ensures { RestoresEdits only limits edits.now result slot.new.raw.inner }
{
    match new_vector(alloc, only, limits, Automaton::program()) {
        Err(_) => Err(Stopped {
            refusal: Refusal::NoMemory,
            made: 0,
        }),
        Ok(held) => place_remade(slot, held, edits),
    }
}

// The answer of a restoration, by the verdict on its text and by what became of its edits.
fn restored_answer(verdict: FrontVerdict, became: Result<(), Stopped>) -> Audited
    ensures { result ≡ restored_by verdict became }
{
    match became {
        Ok(()) => front_answer(verdict),
        Err(stopped) => {
            let mut answer = not_audited(stopped.refusal.number());
            answer.detail = detail(stopped.refusal);
            answer.edits = stopped.made;
            answer
        }
    }
}

// Puts a vector that is made anew from what was found of a text into an empty slot, if the text is a prefix of a transcript.
fn restore_found(
    alloc: Global,
    slot: &mut Slot,
    only: Option<Kind>,
    limits: Limits,
    found: FoundFront,
) -> Audited
    requires { slot.old.raw.inner ≡ None }
    ensures { RestoresFront only limits found.edits.journal found.verdict result slot.new.raw.inner }
{
    let FoundFront { verdict, edits, .. } = found;
    match verdict {
        FrontVerdict::Front { .. } => {
            let became = restore_edits(alloc, slot, only, limits, edits.journal());
            drop(edits);
            restored_answer(verdict, became)
        }
        FrontVerdict::No(_) | FrontVerdict::Bad(_) => {
            drop(edits);
            front_refused(verdict)
        }
    }
}

// Puts a vector that is made anew from a text into an empty slot.
fn restore_at(
    alloc: Global,
    slot: &mut Slot,
    only: Option<Kind>,
    limits: Limits,
    text: &[u8],
) -> Audited
    requires { slot.old.raw.inner ≡ None }
    ensures { RestoresAt only limits text.now result slot.new.raw.inner }
{
    match front_in(alloc, text) {
        Err(why) => not_audited(unread_number(why)),
        Ok(found) => restore_found(alloc, slot, only, limits, found),
    }
}

// Puts a vector that is made anew from a text into an empty slot, within limits that may not be allowed.
fn restore_within(
    alloc: Global,
    slot: &mut Slot,
    only: Option<Kind>,
    buckets: u32,
    edits: u32,
    text: &[u8],
) -> Audited
    requires { slot.old.raw.inner ≡ None }
    ensures { RestoresIn only buckets edits text.now result slot.new.raw.inner }
{
    match Limits::new(buckets, edits) {
        Err(refusal) => not_audited(refusal.number()),
        Ok(limits) => restore_at(alloc, slot, only, limits, text),
    }
}

/// Puts a vector with the edits of a transcript's prefix into an empty slot, of all six kinds or of the one that a number names.
#[unsafe(no_mangle)]
pub extern "C" fn livevec_proved_restore(
    alloc: Global,
    slot: &mut Slot,
    six: bool,
    kind: u32,
    buckets: u32,
    edits: u32,
    text: &[u8],
) -> Audited
    ensures { Restores (only_asked six kind) buckets edits text.now result slot.old.raw.inner slot.new.raw.inner }
{
    if is_full(slot) {
        return not_audited(IN_USE);
    }
    let Some(only) = only_of(six, kind) else {
        return not_audited(BAD_KIND);
    };
    restore_within(alloc, slot, only, buckets, edits, text)
}
