//! Standing queries: their answers, and the notes of those for whose answer one is due.
ghost use Rattle.std.specs.Prelude.{◌≡◌, None, false, option_map, true};
ghost use Rattle.lv_script.specs.Values.{without_trees};
ghost use Rattle.livevec_c.specs.Queried.{TellsAll, TellsBehind, TellsBy, TellsObject, TellsUnless, answered, answered_behind, answered_if, first_refused, found_behind, found_in, object_answered, question_of};
ghost use Rattle.livevec_c.specs.Targets.{bare, is_asked, seen_samples, seen_series};

use crate::objects::Object;
use crate::queries::Queries;
use crate::queries_calls::BAD_NAME;
use crate::queries_notes::{Note, Noted, not_noted};
use crate::queries_told::answer_asked;
use crate::results::NO_HANDLE;
use crate::series_results::{SeriesReduced, not_held, not_reduced, unnamed};
use crate::set_queries::SetQuery;
use crate::slots::{Slot, put, take};
use crate::trees::{prepare_samples, prepare_samples_each, prepare_series, prepare_series_each};
use lv_bodies::Name;
use lv_script::{AskedSamples, AskedSeries};
use lv_series::{Samples, Series};
use std::alloc::Global;

// The question of a name at an object.
fn find_in(object: &Object, name: &Name) -> Result<SetQuery, u32>
    ensures { result ≡ found_in name.now object.now }
{
    match object {
        Object::Queries(set) => set.find(name),
        _ => Err(NO_HANDLE),
    }
}

// The question of a name in the set that a slot holds.
fn find_held(alloc: Global, slot: &mut Slot, name: &Name) -> Result<SetQuery, u32>
    ensures found { result ≡ found_behind name.now slot.old.raw.inner }
    ensures same { slot.new.raw.inner ≡ slot.old.raw.inner }
{
    match take(alloc, slot) {
        None => Err(NO_HANDLE),
        Some(held) => {
            let found = find_in(&held, name);
            put(slot, held);
            found
        }
    }
}

// The question that some bytes name in the set that a slot holds, if they are a name.
fn question_of(alloc: Global, slot: &mut Slot, name: &[u8]) -> Result<SetQuery, u32>
    ensures found { result ≡ question_of name.now slot.old.raw.inner }
    ensures same { slot.new.raw.inner ≡ slot.old.raw.inner }
{
    match Name::new(name) {
        None => Err(BAD_NAME),
        Some(name) => find_held(alloc, slot, &name),
    }
}

// The answer of a series to a question, from the trees that there are.
fn answer_kept(series: &Series, question: &SetQuery) -> SeriesReduced
    ensures { result ≡ answered_if (is_asked None false question.now.query) question.now (seen_series series.now) }
{
    let mut asked = AskedSeries { series };
    answer_asked(&mut asked, None, false, question)
}

// The answer of a series to a question. A tree of its kind is made first if there is none, and memory for it.
fn answer_series(series: &mut Series, question: &SetQuery) -> SeriesReduced
    ensures answer { result ≡ answered_if (is_asked None false question.now.query) question.now (seen_series series.old) }
    ensures same { without_trees series.new ≡ without_trees series.old }
{
    prepare_series(series, question.query.kind);
    answer_kept(series, question)
}

// The answer of samples to a question, from the trees that there are.
fn answer_taken(samples: &Samples, question: &SetQuery) -> SeriesReduced
    ensures { result ≡ answered_if (is_asked None true question.now.query) question.now (seen_samples samples.now) }
{
    let mut asked = AskedSamples { samples };
    answer_asked(&mut asked, None, true, question)
}

// The answer of samples to a question. A tree of its kind is made first if there is none, and memory for it.
fn answer_samples(samples: &mut Samples, question: &SetQuery) -> SeriesReduced
    ensures answer { result ≡ answered_if (is_asked None true question.now.query) question.now (seen_samples samples.old) }
    ensures same { seen_samples samples.new ≡ seen_samples samples.old }
{
    prepare_samples(samples, question.query.kind);
    answer_taken(samples, question)
}

// The answer of an object to a question.
fn answer_object(object: &mut Object, question: &SetQuery) -> SeriesReduced
    ensures answer { result ≡ object_answered question.now object.old }
    ensures same { bare object.new ≡ bare object.old }
{
    match object {
        Object::Vector(vector, only) => answer_asked(vector, *only, false, question),
        Object::Series(series) => answer_series(series, question),
        Object::Samples(samples) => answer_samples(samples, question),
        _ => not_reduced(not_held()),
    }
}

// The answer of the object in a slot to a question.
fn answer_held(alloc: Global, slot: &mut Slot, question: &SetQuery) -> SeriesReduced
    ensures answer { result ≡ answered_behind question.now slot.old.raw.inner }
    ensures same { option_map bare slot.new.raw.inner ≡ option_map bare slot.old.raw.inner }
{
    match take(alloc, slot) {
        None => not_reduced(not_held()),
        Some(mut held) => {
            let answer = answer_object(&mut held, question);
            put(slot, held);
            answer
        }
    }
}

/// The answer that a vector, a series or samples give now to the question of a name. It doesn't count as reported. Trees are made if there is none.
#[unsafe(no_mangle)]
pub extern "C" fn livevec_proved_answer(
    alloc: Global,
    slot: &mut Slot,
    target: &mut Slot,
    name: &[u8],
) -> SeriesReduced
    ensures answer { result ≡ answered (question_of name.now slot.old.raw.inner) target.old.raw.inner }
    ensures same { slot.new.raw.inner ≡ slot.old.raw.inner }
    ensures kept { option_map bare target.new.raw.inner ≡ option_map bare target.old.raw.inner }
{
    match question_of(alloc, slot, name) {
        Err(number) => not_reduced(unnamed(number)),
        Ok(question) => answer_held(alloc, target, &question),
    }
}

// Reports a set's questions by the answers of a series, from the trees that there are.
fn tell_kept(set: &mut Queries, series: &Series, notes: &mut [Note]) -> Noted
    ensures { TellsUnless (first_refused None false set.old.questions) set.old set.new (seen_series series.now) notes.old notes.new result }
{
    let mut asked = AskedSeries { series };
    set.tell_asked(&mut asked, None, false, notes)
}

// Reports a set's questions by the answers of a series. Missing trees of the kinds that are asked for are made first, if there is memory.
fn tell_series(set: &mut Queries, series: &mut Series, notes: &mut [Note]) -> Noted
    ensures told { TellsUnless (first_refused None false set.old.questions) set.old set.new (seen_series series.old) notes.old notes.new result }
    ensures same { without_trees series.new ≡ without_trees series.old }
{
    prepare_series_each(series, set.questions());
    tell_kept(set, series, notes)
}

// Reports a set's questions by the answers of samples, from the trees that there are.
fn tell_taken(set: &mut Queries, samples: &Samples, notes: &mut [Note]) -> Noted
    ensures { TellsUnless (first_refused None true set.old.questions) set.old set.new (seen_samples samples.now) notes.old notes.new result }
{
    let mut asked = AskedSamples { samples };
    set.tell_asked(&mut asked, None, true, notes)
}

// Reports a set's questions by the answers of samples. Missing trees of the kinds that are asked for are made first, if there is memory.
fn tell_samples(set: &mut Queries, samples: &mut Samples, notes: &mut [Note]) -> Noted
    ensures told { TellsUnless (first_refused None true set.old.questions) set.old set.new (seen_samples samples.old) notes.old notes.new result }
    ensures same { seen_samples samples.new ≡ seen_samples samples.old }
{
    prepare_samples_each(samples, set.questions());
    tell_taken(set, samples, notes)
}

// Reports a set's questions by the answers of an object.
fn tell_by(set: &mut Queries, object: &mut Object, notes: &mut [Note]) -> Noted
    ensures told { TellsBy set.old set.new object.old notes.old notes.new result }
    ensures same { bare object.new ≡ bare object.old }
{
    match object {
        Object::Vector(vector, only) => set.tell_asked(vector, *only, false, notes),
        Object::Series(series) => tell_series(set, series, notes),
        Object::Samples(samples) => tell_samples(set, samples, notes),
        _ => not_noted(NO_HANDLE, 0),
    }
}

// Reports a set's questions by the answers of the object in a slot.
fn tell_held(alloc: Global, set: &mut Queries, target: &mut Slot, notes: &mut [Note]) -> Noted
    ensures told { TellsBehind set.old set.new target.old.raw.inner notes.old notes.new result }
    ensures same { option_map bare target.new.raw.inner ≡ option_map bare target.old.raw.inner }
{
    match take(alloc, target) {
        None => not_noted(NO_HANDLE, 0),
        Some(mut held) => {
            let answer = tell_by(set, &mut held, notes);
            put(target, held);
            answer
        }
    }
}

// Reports the questions of an object, which is to be a set.
fn tell_of(alloc: Global, object: &mut Object, target: &mut Slot, notes: &mut [Note]) -> Noted
    ensures told { TellsObject object.old object.new target.old.raw.inner notes.old notes.new result }
    ensures same { option_map bare target.new.raw.inner ≡ option_map bare target.old.raw.inner }
{
    match object {
        Object::Queries(set) => tell_held(alloc, set, target, notes),
        _ => not_noted(NO_HANDLE, 0),
    }
}

/// Reports each question of a set, in order, for whose answer by a vector, a series or samples a note is due. Trees are made if there is none.
#[unsafe(no_mangle)]
pub extern "C" fn livevec_proved_notes(
    alloc: Global,
    slot: &mut Slot,
    target: &mut Slot,
    notes: &mut [Note],
) -> Noted
    ensures told { TellsAll slot.old.raw.inner slot.new.raw.inner target.old.raw.inner notes.old notes.new result }
    ensures same { option_map bare target.new.raw.inner ≡ option_map bare target.old.raw.inner }
{
    match take(alloc, slot) {
        None => not_noted(NO_HANDLE, 0),
        Some(mut held) => {
            let answer = tell_of(alloc, &mut held, target, notes);
            put(slot, held);
            answer
        }
    }
}
