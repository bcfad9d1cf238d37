//! Why an edit would be refused, before it is made.
ghost use Rattle.std.specs.Prelude.{◌≡◌};
ghost use Rattle.livevec_c.specs.Answers.{judged_by, unjudged};
ghost use Rattle.livevec_c.specs.Behind.{Judges, JudgesBy, JudgesObject};
ghost use Rattle.livevec_c.specs.FlatEdits.{edit_at};

use crate::flat_edits::edit_of;
use crate::objects::Object;
use crate::results::{NO_HANDLE, Verdict, detail};
use crate::slots::{Slot, put, take};
use lv_edits::Edit;
use lv_geometry::Refusal;
use std::alloc::Global;

// The verdict if a slot holds no vector.
fn not_judged() -> Verdict
    ensures { result ≡ unjudged }
{
    Verdict {
        refusal: NO_HANDLE,
        detail: 0,
    }
}

// A verdict for C.
fn verdict_answer(verdict: Option<Refusal>) -> Verdict
    ensures { result ≡ judged_by verdict }
{
    match verdict {
        None => Verdict {
            refusal: 0,
            detail: 0,
        },
        Some(refusal) => Verdict {
            refusal: refusal.number(),
            detail: detail(refusal),
        },
    }
}

// A verdict on an edit of an object.
fn judge_of(object: &Object, edit: &Edit) -> Verdict
    ensures { JudgesObject edit.now result object.now }
{
    match object {
        Object::Vector(vector, _) => verdict_answer(vector.live().verdict(edit)),
        _ => not_judged(),
    }
}

// A verdict on an edit of the object in a slot.
fn judge_held(alloc: Global, slot: &mut Slot, edit: Edit) -> Verdict
    ensures answer { Judges edit result slot.old.raw.inner }
    ensures same { slot.new.raw.inner ≡ slot.old.raw.inner }
{
    match take(alloc, slot) {
        None => not_judged(),
        Some(held) => {
            let answer = judge_of(&held, &edit);
            put(slot, held);
            answer
        }
    }
}

/// Why the edit that a number names would be refused.
#[unsafe(no_mangle)]
pub extern "C" fn livevec_proved_verdict(
    alloc: Global,
    slot: &mut Slot,
    what: u32,
    index: u32,
    second: u32,
    value: i64,
) -> Verdict
    ensures answer { JudgesBy (edit_at what index second value) result slot.old.raw.inner }
    ensures same { slot.new.raw.inner ≡ slot.old.raw.inner }
{
    match edit_of(what, index, second, value) {
        None => not_judged(),
        Some(edit) => judge_held(alloc, slot, edit),
    }
}
