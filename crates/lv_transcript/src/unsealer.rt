//! The removal of seals from the lines of a log.
ghost use Rattle.std.specs.Prelude.{◌≡◌, ◌+◌, ◌<◌, ◌≤◌, ◌++◌, ◌∷◌, [], ℕ, List, Some, false, length, take, IfOk, vec_len, vec_capacity};
ghost use Rattle.lv_lines.specs.Input.{has_end};
ghost use Rattle.lv_lines.specs.Output.{HasRoom, KeepsRoom};
ghost use Rattle.lv_transcript.specs.Seals.{hash_behind, hash_of_none, in_version_2, is_unended, is_version_3, last_in, line_in, logical_of};
ghost use Rattle.lv_transcript.specs.Unsealing.{AreKept, Takes, text_after, text_to_come};
ghost use Rattle.lv_transcript.specs.declared.unsealer.Form.TheVariants.{Unknown, Sealed};

use crate::seals::{LF, LONGEST_SEALED, SEAL_BYTES, hash_behind};
use arrayvec::ArrayVec;
use lv_lines::put;
use lv_shards::CHECKSUM_OF_NONE;
use memchr::memchr;
use std::alloc::{AllocError, Global};

/// How many bytes of a line decide whether it is too long, and what it says if it isn't.
pub(crate) const KEPT: usize = LONGEST_SEALED + 1;

// How many bytes decide whether the lines of a file have seals.
const FIRST: usize = 10;

// The start of a file of version 3, and of its text.
const VERSION_3: [u8; FIRST] = *b"livevec 3 ";

const VERSION_2: [u8; FIRST] = *b"livevec 2 ";

/// How a file is read.
#[derive(Clone, Copy, PartialEq, Eq)]
pub(crate) enum Form {
    /// It is not known yet.
    Unknown,
    /// As it is.
    Plain,
    /// Without seals.
    Sealed,
}

/// Takes bytes of a file, and gives its text: without seals if it is of version 3, and as it is if not. From the first line on that isn't rightly
/// sealed, each line is empty, as no line of a log is.
#[derive(Drop)]
pub(crate) struct Unsealer {
    pub(crate) form: Form,
    // The checksum of all lines so far. None after a wrong one.
    pub(crate) hash: Option<u64>,
    // The first bytes of the line that was begun.
    pub(crate) kept: ArrayVec<u8, KEPT>,
    // The text that waits to be given.
    pub(crate) ready: Vec<u8>,
    ghost are_kept: { AreKept form hash kept.items },
}

impl Unsealer {
    /// Before the first byte, with room for the text of so many bytes.
    pub(crate) fn new(alloc: Global, most: usize) -> Result<Unsealer, AllocError>
        requires { most ≤ 65536 }
        ensures text { IfOk result (λ u. (bytes : List ℕ) → text_to_come u.form u.hash u.kept.items u.ready.items bytes ≡ logical_of bytes) }
        ensures room { IfOk result (λ u. most + 149 ≤ vec_capacity u.ready) }
        ensures none { IfOk result (λ u. u.ready.items ≡ []) }
    {
        Ok(Unsealer {
            form: Form::Unknown,
            hash: Some(CHECKSUM_OF_NONE),
            kept: ArrayVec::new(),
            ready: Vec::with_capacity(alloc, most + KEPT + FIRST + 1)?,
        })
    }

    /// Takes bytes of the file.
    pub(crate) fn take(&mut self, bytes: &[u8])
        requires room { vec_len self.old.ready + 148 + length bytes.now < vec_capacity self.old.ready }
        ensures text { Takes self.old.form self.old.hash self.old.kept.items self.old.ready.items bytes.now self.new.form self.new.hash self.new.kept.items self.new.ready.items }
        ensures capacity { KeepsRoom self.old.ready self.new.ready }
    {
        match self.form {
            Form::Unknown => self.take_unknown(bytes),
            Form::Plain | Form::Sealed => self.take_known(bytes),
        }
    }

    // Takes bytes of a file whose form isn't known.
    fn take_unknown(&mut self, bytes: &[u8])
        requires room { vec_len self.old.ready + 148 + length bytes.now < vec_capacity self.old.ready }
        requires unknown { self.old.form ≡ Form.Unknown }
        ensures text { Takes self.old.form self.old.hash self.old.kept.items self.old.ready.items bytes.now self.new.form self.new.hash self.new.kept.items self.new.ready.items }
        ensures capacity { KeepsRoom self.old.ready self.new.ready }
    {
        let (first, rest) = bytes.split_at(bytes.len().min(FIRST - self.kept.len()));
        let form = take_first(&mut self.kept, &mut self.ready, first);
        self.form = form;
        if !rest.is_empty() {
            self.take_known(rest);
        }
    }

    // Takes bytes of a file whose form is known.
    fn take_known(&mut self, bytes: &[u8])
        requires room { vec_len self.old.ready + 138 + length bytes.now < vec_capacity self.old.ready }
        requires known { self.old.form ≡ Form.Unknown → ⊥ }
        ensures text { Takes self.old.form self.old.hash self.old.kept.items self.old.ready.items bytes.now self.new.form self.new.hash self.new.kept.items self.new.ready.items }
        ensures capacity { KeepsRoom self.old.ready self.new.ready }
    {
        match self.form {
            Form::Unknown => unreachable!(),
            Form::Plain => put(&mut self.ready, bytes),
            Form::Sealed => {
                let hash = take_lines(&mut self.kept, &mut self.ready, self.hash, bytes);
                self.hash = hash;
            }
        }
    }

    /// Ends the file. A rightly sealed line whose LF is another byte was not cut off: it is wrong.
    pub(crate) fn end(&mut self)
        requires room { vec_len self.old.ready + 138 < vec_capacity self.old.ready }
        ensures text { self.new.ready.items ≡ text_to_come self.old.form self.old.hash self.old.kept.items self.old.ready.items [] }
        ensures none { text_after self.new.form self.new.hash self.new.kept.items [] ≡ [] }
        ensures capacity { KeepsRoom self.old.ready self.new.ready }
    {
        match self.form {
            Form::Unknown => {
                put(&mut self.ready, self.kept.as_slice());
                self.kept.clear();
                self.form = Form::Plain;
            }
            Form::Plain => {}
            Form::Sealed => {
                put_last(&mut self.ready, self.hash, self.kept.as_slice());
                self.kept.clear();
            }
        }
    }
}

// Takes bytes up to those that decide the form of a file, and returns it.
fn take_first(kept: &mut ArrayVec<u8, KEPT>, ready: &mut Vec<u8>, bytes: &[u8]) -> Form
    requires few { length kept.old.items + length bytes.now ≤ 10 }
    requires room { vec_len ready.old + 10 < vec_capacity ready.old }
    ensures text { Takes Unknown (Some hash_of_none) kept.old.items ready.old.items bytes.now result (Some hash_of_none) kept.new.items ready.new.items }
    ensures kept { AreKept result (Some hash_of_none) kept.new.items }
    ensures whole { result ≡ Form.Unknown → length kept.old.items + length bytes.now < 10 }
    ensures len { vec_len ready.new ≤ vec_len ready.old + 10 }
    ensures capacity { KeepsRoom ready.old ready.new }
{
    keep(kept, bytes);
    if kept.len() < FIRST {
        return Form::Unknown;
    }
    if is_version_3(kept.as_slice()) {
        return Form::Sealed;
    }
    put(ready, kept.as_slice());
    kept.clear();
    Form::Plain
}

// Takes bytes of lines that have seals, and returns the checksum of the lines that have ended.
fn take_lines(
    kept: &mut ArrayVec<u8, KEPT>,
    ready: &mut Vec<u8>,
    hash: Option<u64>,
    bytes: &[u8],
) -> Option<u64>
    requires begun { has_end kept.old.items ≡ false }
    requires room { vec_len ready.old + length kept.old.items + length bytes.now < vec_capacity ready.old }
    ensures text { Takes Sealed hash kept.old.items ready.old.items bytes.now Sealed result kept.new.items ready.new.items }
    ensures begun { has_end kept.new.items ≡ false }
    ensures short { length kept.new.items ≤ 138 }
    ensures capacity { KeepsRoom ready.old ready.new }
{
    let mut hash = hash;
    let mut rest = bytes;
    while let Some(end) = memchr(LF, rest) {
        let (piece, ended) = rest.split_at(end);
        keep(kept, piece);
        hash = put_line(ready, hash, kept.as_slice());
        kept.clear();
        (_, rest) = ended.split_at(1);
    }
    keep(kept, rest);
    hash
}

// Whether a file of version 3 begins with these bytes.
fn is_version_3(bytes: &[u8]) -> bool
    ensures { result ≡ is_version_3 bytes.now }
{
    front(bytes, FIRST) == VERSION_3.as_slice()
}

// The first bytes, at most `most`.
fn front(bytes: &[u8], most: usize) -> &[u8]
    ensures value { result.now ≡ take most bytes.now }
    ensures short { length result.now ≤ most }
{
    let (front, _) = bytes.split_at(bytes.len().min(most));
    front
}

// Puts a line of a file as it is in the text, and returns the checksum after it.
fn put_line(ready: &mut Vec<u8>, hash: Option<u64>, line: &[u8]) -> Option<u64>
    requires room { HasRoom ready.old (length line.now + 1) }
    ensures items { ready.new.items ≡ ready.old.items ++ (line_in hash line.now ++ 10 ∷ []) }
    ensures len { vec_len ready.new ≤ vec_len ready.old + length line.now + 1 }
    ensures hash { result ≡ hash_behind hash line.now }
    ensures capacity { KeepsRoom ready.old ready.new }
{
    match behind(hash, line) {
        Some(behind) => {
            let (text, _) = line.split_at(line.len() - SEAL_BYTES);
            put_text(ready, text);
            put(ready, b"\n");
            Some(behind)
        }
        None => {
            put(ready, b"\n");
            None
        }
    }
}

// The checksum after a line, if there is one before it.
fn behind(hash: Option<u64>, line: &[u8]) -> Option<u64>
    ensures { result ≡ hash_behind hash line.now }
{
    match hash {
        Some(hash) => hash_behind(hash, line),
        None => None,
    }
}

// Puts a line without its seal, with the version that its text has.
fn put_text(ready: &mut Vec<u8>, text: &[u8])
    requires room { HasRoom ready.old (length text.now) }
    ensures items { ready.new.items ≡ ready.old.items ++ in_version_2 text.now }
    ensures len { vec_len ready.new ≡ vec_len ready.old + length text.now }
    ensures capacity { KeepsRoom ready.old ready.new }
{
    if is_version_3(text) {
        let (_, rest) = text.split_at(FIRST);
        put(ready, &VERSION_2);
        put(ready, rest);
    } else {
        put(ready, text);
    }
}

// Puts an empty line if the bytes after the last LF are a rightly sealed line and another byte.
fn put_last(ready: &mut Vec<u8>, hash: Option<u64>, bytes: &[u8])
    requires room { HasRoom ready.old 1 }
    ensures items { ready.new.items ≡ ready.old.items ++ last_in hash bytes.now }
    ensures capacity { KeepsRoom ready.old ready.new }
{
    if is_unended(hash, bytes) {
        put(ready, b"\n");
    }
}

// Whether a line is rightly sealed, and then comes another byte than LF.
fn is_unended(hash: Option<u64>, bytes: &[u8]) -> bool
    ensures { result ≡ is_unended hash bytes.now }
{
    let Some(hash) = hash else {
        return false;
    };
    if bytes.is_empty() {
        return false;
    }
    let (line, _) = bytes.split_at(bytes.len() - 1);
    hash_behind(hash, line).is_some()
}

// Keeps so many of the bytes as there is room for.
fn keep(kept: &mut ArrayVec<u8, KEPT>, bytes: &[u8])
    ensures { kept.new.items ≡ take 138 (kept.old.items ++ bytes.now) }
{
    let room = KEPT - kept.len();
    let Ok(()) = kept.try_extend_from_slice(front(bytes, room)) else {
        unreachable!();
    };
}
