//! A vector's journal, read in pieces, and its transcript with answers that were recorded, put into memory of the caller's.
ghost use Rattle.std.specs.Prelude.{◌≡◌, length};
ghost use Rattle.lv_transcript.specs.Transcript.{AreInOrder};
ghost use Rattle.livevec_c.specs.Transcribed.{Transcribes, TranscribesBehind, TranscribesLive, TranscribesObject, edits_behind, edits_put, journal_behind, journal_read, object_edits, object_journal, unread_journal, unwritten_text, written_text};

use crate::claims::{Recorded, claims_in_order};
use crate::objects::Object;
use crate::results::{NO_HANDLE, NO_MEMORY, SHORT_BUFFER};
use crate::slots::{Slot, put, take};
use lv_bodies::SixByTable;
use lv_live::Live;
use lv_transcript::{Claimed, FlatEdit, Unput, copy_edits, put_transcript};
use std::alloc::Global;

/// The answer of a read of a journal.
#[repr(C)]
#[derive(Clone, Copy)]
pub struct JournalRead {
    pub refusal: u32,
    pub edit: u32,
    pub length: usize,
}

/// The answer of a call that puts a text into the caller's bytes: how many bytes the text takes.
#[repr(C)]
#[derive(Clone, Copy)]
pub struct TextPut {
    pub refusal: u32,
    pub length: usize,
}

// The answer of a read if a slot holds no vector.
fn not_read() -> JournalRead
    ensures { result ≡ unread_journal }
{
    JournalRead {
        refusal: NO_HANDLE,
        edit: 0,
        length: 0,
    }
}

// The edits of a vector after the first `from`, as many as there are and fit.
fn read_live(live: &Live<SixByTable>, from: u32, edits: &mut [FlatEdit]) -> JournalRead
    ensures answer { result ≡ journal_read from (length edits.old) live.now }
    ensures edits { edits.new ≡ edits_put from edits.old live.now }
{
    let length = copy_edits(live.journal(), from as usize, edits);
    JournalRead {
        refusal: 0,
        edit: live.edit(),
        length,
    }
}

// The edits of an object after the first `from`, if it is a vector, as many as there are and fit.
fn read_of(object: &Object, from: u32, edits: &mut [FlatEdit]) -> JournalRead
    ensures answer { result ≡ object_journal from (length edits.old) object.now }
    ensures edits { edits.new ≡ object_edits from edits.old object.now }
{
    match object {
        Object::Vector(vector, _) => read_live(vector.live(), from, edits),
        _ => not_read(),
    }
}

/// Puts the accepted edits after the first `from` into the caller's places, as many as there are and fit.
#[unsafe(no_mangle)]
pub extern "C" fn livevec_proved_journal(
    alloc: Global,
    slot: &mut Slot,
    from: u32,
    edits: &mut [FlatEdit],
) -> JournalRead
    ensures answer { result ≡ journal_behind from (length edits.old) slot.old.raw.inner }
    ensures edits { edits.new ≡ edits_behind from edits.old slot.old.raw.inner }
    ensures same { slot.new.raw.inner ≡ slot.old.raw.inner }
{
    match take(alloc, slot) {
        None => not_read(),
        Some(held) => {
            let answer = read_of(&held, from, edits);
            put(slot, held);
            answer
        }
    }
}

// The answer for a text that was not put into the caller's bytes.
fn not_put(refusal: u32) -> TextPut
    ensures { result ≡ unwritten_text refusal }
{
    TextPut { refusal, length: 0 }
}

// The answer for a text, by what became of it.
fn put_answer(became: Result<usize, Unput>) -> TextPut
    ensures { result ≡ written_text became }
{
    match became {
        Ok(length) => TextPut { refusal: 0, length },
        Err(Unput::NoMemory) => not_put(NO_MEMORY),
        Err(Unput::Short { wanted }) => TextPut {
            refusal: SHORT_BUFFER,
            length: wanted,
        },
    }
}

// The transcript of a vector and of claims, which are in the order of their edits.
fn transcribe_live(
    alloc: Global,
    live: &Live<SixByTable>,
    claims: &[Claimed],
    text: &mut [u8],
) -> TextPut
    requires { AreInOrder claims.now }
    ensures { TranscribesLive claims.now result text.old text.new live.now }
{
    put_answer(put_transcript(alloc, live.journal(), claims, text))
}

// The transcript of an object and of claims, if the object is a vector.
fn transcribe_of(alloc: Global, object: &Object, claims: &[Claimed], text: &mut [u8]) -> TextPut
    requires { AreInOrder claims.now }
    ensures { TranscribesObject claims.now result text.old text.new object.now }
{
    match object {
        Object::Vector(vector, _) => transcribe_live(alloc, vector.live(), claims, text),
        _ => not_put(NO_HANDLE),
    }
}

// The transcript of the object in a slot and of claims.
fn transcribe_held(alloc: Global, slot: &mut Slot, claims: &[Claimed], text: &mut [u8]) -> TextPut
    requires { AreInOrder claims.now }
    ensures answer { TranscribesBehind claims.now result text.old text.new slot.old.raw.inner }
    ensures same { slot.new.raw.inner ≡ slot.old.raw.inner }
{
    match take(alloc, slot) {
        None => not_put(NO_HANDLE),
        Some(held) => {
            let answer = transcribe_of(alloc, &held, claims, text);
            put(slot, held);
            answer
        }
    }
}

/// Puts the transcript of a vector's journal and of recorded answers at the start of the caller's bytes. The answers must be in the order of their
/// edits, or the call is refused.
#[unsafe(no_mangle)]
pub extern "C" fn livevec_proved_transcript(
    alloc: Global,
    slot: &mut Slot,
    answers: &[Recorded],
    text: &mut [u8],
) -> TextPut
    ensures answer { Transcribes answers.now result text.old text.new slot.old.raw.inner }
    ensures same { slot.new.raw.inner ≡ slot.old.raw.inner }
{
    match claims_in_order(alloc, answers) {
        Err(refusal) => not_put(refusal),
        Ok(claims) => transcribe_held(alloc, slot, claims.as_slice(), text),
    }
}
