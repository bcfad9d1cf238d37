//! A series as bytes, or samples, and back.
ghost use Rattle.std.specs.Prelude.{◌≡◌, ◌%◌, IfOk, None};
ghost use Rattle.livevec_c.specs.SavedBehind.{EndsLoad, EndsLoadIn, EndsLoadOf, GivesBytes, GivesObject, IsNewLoader, LoadsOf, SavesFrom, SavesIn, saved_behind, saved_in};

use crate::jobs::refilled;
use crate::objects::{Object, nothing};
use crate::results::NO_HANDLE;
use crate::series_results::{
    Refused, SeriesScanned, not_held, not_refused, not_scanned, refusal_answer,
};
use crate::slots::{Slot, put, take};
use lv_saved::{LoadRefusal, Loader, save, save_samples};
use lv_series::LongRefusal;
use std::alloc::{AllocError, Global};
use std::mem;

// A piece of the bytes of an object, from a place on that is a multiple of 8.
fn save_of(object: &Object, from: u64, buffer: &mut [u8]) -> SeriesScanned
    requires { from % 8 ≡ 0 }
    ensures { SavesFrom (saved_in object.now) from result buffer.old buffer.new }
{
    let (edit, many) = match object {
        Object::Series(series) => (series.edits(), save(series, from, buffer)),
        Object::Samples(samples) => (
            samples.series().edits(),
            save_samples(samples, from, buffer),
        ),
        _ => return not_scanned(not_held()),
    };
    SeriesScanned {
        why: not_refused(),
        edit,
        length: many as u64,
    }
}

/// Puts the bytes of a series, or of samples, into a buffer, from a place on, as many as it takes in whole numbers of 8.
#[unsafe(no_mangle)]
pub extern "C" fn livevec_proved_series_save(
    alloc: Global,
    slot: &mut Slot,
    from: u64,
    buffer: &mut [u8],
) -> SeriesScanned
    ensures answer { SavesIn (saved_behind slot.old.raw.inner) from result buffer.old buffer.new }
    ensures same { slot.new.raw.inner ≡ slot.old.raw.inner }
{
    if from % 8 != 0 {
        return not_scanned(refusal_answer(LongRefusal::BadRange));
    }
    match take(alloc, slot) {
        None => not_scanned(not_held()),
        Some(held) => {
            let answer = save_of(&held, from, buffer);
            put(slot, held);
            answer
        }
    }
}

/// A loader in a place of its own.
pub fn new_loader(alloc: Global) -> Result<Box<Object>, AllocError>
    ensures { IfOk result (λ b. IsNewLoader b.value) }
{
    let loader = Loader::new(alloc);
    Ok(Box::new(alloc, Object::Loader(loader))?)
}

// Gives bytes to an object, if it is a loader.
fn give_object(object: &mut Object, bytes: &[u8]) -> u32
    ensures { GivesObject bytes.now result object.old object.new }
{
    match object {
        Object::Loader(loader) => match loader.give(bytes) {
            Ok(()) => 0,
            Err(refusal) => refusal.number(),
        },
        _ => NO_HANDLE,
    }
}

/// Takes in bytes of what is loaded, after the others.
#[unsafe(no_mangle)]
pub extern "C" fn livevec_proved_series_load(alloc: Global, slot: &mut Slot, bytes: &[u8]) -> u32
    ensures { GivesBytes bytes.now result slot.old.raw.inner slot.new.raw.inner }
{
    match take(alloc, slot) {
        None => NO_HANDLE,
        Some(mut held) => {
            let answer = give_object(&mut held, bytes);
            put(slot, held);
            answer
        }
    }
}

// The object that has the loaded bytes: samples, if that is asked, or a series.
fn loaded(alloc: Global, loader: Loader, timed: bool) -> Result<Object, LoadRefusal>
    ensures { LoadsOf timed loader result }
{
    if timed {
        match loader.samples(alloc) {
            Ok(samples) => Ok(Object::Samples(samples)),
            Err(refusal) => Err(refusal),
        }
    } else {
        match loader.series(alloc) {
            Ok(series) => Ok(Object::Series(series)),
            Err(refusal) => Err(refusal),
        }
    }
}

// Puts what was loaded into a slot that is empty, in the room of its loader; or leaves the slot empty.
fn place_loaded(
    alloc: Global,
    slot: &mut Slot,
    room: Box<Object>,
    loader: Loader,
    timed: bool,
) -> u32
    requires empty { slot.old.raw.inner ≡ None }
    ensures { EndsLoadOf timed loader result slot.new.raw.inner }
{
    match loaded(alloc, loader, timed) {
        Err(refusal) => {
            drop(room);
            refusal.number()
        }
        Ok(object) => {
            put(slot, refilled(room, object));
            0
        }
    }
}

// Ends a load, if the object is a loader. Any other is put into the slot again.
fn end_load_of(alloc: Global, slot: &mut Slot, mut held: Box<Object>, timed: bool) -> u32
    requires empty { slot.old.raw.inner ≡ None }
    ensures { EndsLoadIn timed held.value result slot.new.raw.inner }
{
    match mem::replace(&mut *held, nothing(alloc)) {
        Object::Loader(loader) => place_loaded(alloc, slot, held, loader, timed),
        other => {
            put(slot, refilled(held, other));
            NO_HANDLE
        }
    }
}

/// Makes what was loaded a series, or samples, if its bytes are exactly those of one. Otherwise the slot is empty.
#[unsafe(no_mangle)]
pub extern "C" fn livevec_proved_series_end_load(alloc: Global, slot: &mut Slot, timed: bool) -> u32
    ensures { EndsLoad timed result slot.old.raw.inner slot.new.raw.inner }
{
    match take(alloc, slot) {
        None => NO_HANDLE,
        Some(held) => end_load_of(alloc, slot, held, timed),
    }
}
