//! Sets of standing queries: how they begin, and how their questions come and go.
ghost use Rattle.std.specs.Prelude.{◌≡◌, IfOk};
ghost use Rattle.livevec_c.specs.Begun.{IsNewQueries};
ghost use Rattle.livevec_c.specs.Queried.{Unwatches, UnwatchesBehind, UnwatchesObject, Watches, WatchesBehind, WatchesObject, question_by, question_in};

use crate::boards::kind_of;
use crate::objects::Object;
use crate::queries::Queries;
use crate::results::{BAD_KIND, NO_HANDLE};
use crate::set_queries::{SetQuery, bound_of, span_of};
use crate::slots::{Slot, put, take};
use lv_bodies::{Kind, Name};
use lv_script::{SampleQuery, SampleSpan};
use lv_tree::Bound;
use std::alloc::{AllocError, Global};

/// The number for bytes that are no name.
pub const BAD_NAME: u32 = 114;

/// A set without questions in a place of its own.
pub fn new_queries(alloc: Global) -> Result<Box<Object>, AllocError>
    ensures { IfOk result (λ b. IsNewQueries b.value) }
{
    Ok(Box::new(alloc, Object::Queries(Queries::new(alloc)))?)
}

// The question of a name by what numbers name, or the number for why there is none.
fn question_by(
    name: Name,
    kind: Option<Kind>,
    span: Option<SampleSpan>,
    bound: Option<Option<Bound>>,
) -> Result<SetQuery, u32>
    ensures { result ≡ question_by name kind span bound }
{
    let Some(kind) = kind else {
        return Err(BAD_KIND);
    };
    let Some(span) = span else {
        return Err(BAD_KIND);
    };
    let Some(bound) = bound else {
        return Err(BAD_KIND);
    };
    Ok(SetQuery {
        query: SampleQuery {
            name,
            kind,
            span,
            bound,
        },
    })
}

// The question that a caller asks for, or the number for why there is none.
fn question_in(
    name: &[u8],
    kind: u32,
    span: u32,
    lo: u64,
    hi: u64,
    bound: u32,
    x: i64,
) -> Result<SetQuery, u32>
    ensures { result ≡ question_in name.now kind span lo hi bound x }
{
    let kind = kind_of(kind);
    let span = span_of(span, lo, hi);
    let bound = bound_of(bound, x);
    match Name::new(name) {
        None => Err(BAD_NAME),
        Some(name) => question_by(name, kind, span, bound),
    }
}

// Registers a question at an object.
fn watch_object(object: &mut Object, question: &SetQuery) -> u32
    ensures { WatchesObject question.now result object.old object.new }
{
    match object {
        Object::Queries(set) => match set.watch(question) {
            Ok(()) => 0,
            Err(refusal) => refusal.number(),
        },
        _ => NO_HANDLE,
    }
}

// Registers a question in the set that a slot holds.
fn watch_held(alloc: Global, slot: &mut Slot, question: &SetQuery) -> u32
    ensures { WatchesBehind question.now result slot.old.raw.inner slot.new.raw.inner }
{
    match take(alloc, slot) {
        None => NO_HANDLE,
        Some(mut held) => {
            let number = watch_object(&mut held, question);
            put(slot, held);
            number
        }
    }
}

/// Registers a question by a name: the value by a kind of the elements in a span, which numbers name, and the bound that decides when it is
/// reported.
#[unsafe(no_mangle)]
pub extern "C" fn livevec_proved_watch(
    alloc: Global,
    slot: &mut Slot,
    name: &[u8],
    kind: u32,
    span: u32,
    lo: u64,
    hi: u64,
    bound: u32,
    x: i64,
) -> u32
    ensures { Watches (question_in name.now kind span lo hi bound x) result slot.old.raw.inner slot.new.raw.inner }
{
    match question_in(name, kind, span, lo, hi, bound, x) {
        Err(number) => number,
        Ok(question) => watch_held(alloc, slot, &question),
    }
}

// Forgets the question of a name at an object.
fn unwatch_object(object: &mut Object, name: &Name) -> u32
    ensures { UnwatchesObject name.now result object.old object.new }
{
    match object {
        Object::Queries(set) => set.unwatch(name),
        _ => NO_HANDLE,
    }
}

// Forgets the question of a name in the set that a slot holds.
fn unwatch_held(alloc: Global, slot: &mut Slot, name: &Name) -> u32
    ensures { UnwatchesBehind name.now result slot.old.raw.inner slot.new.raw.inner }
{
    match take(alloc, slot) {
        None => NO_HANDLE,
        Some(mut held) => {
            let number = unwatch_object(&mut held, name);
            put(slot, held);
            number
        }
    }
}

/// Forgets the question of a name; the others keep their order.
#[unsafe(no_mangle)]
pub extern "C" fn livevec_proved_unwatch(alloc: Global, slot: &mut Slot, name: &[u8]) -> u32
    ensures { Unwatches name.now result slot.old.raw.inner slot.new.raw.inner }
{
    match Name::new(name) {
        None => BAD_NAME,
        Some(name) => unwatch_held(alloc, slot, &name),
    }
}
