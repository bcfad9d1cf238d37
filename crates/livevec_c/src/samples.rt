//! Samples: values with times that do not fall. Their values are a series, and answer as one.
ghost use Rattle.std.specs.Prelude.{◌≡◌, IfOk, length};
ghost use Rattle.lv_bodies.specs.Plain.{program_table};
ghost use Rattle.livevec_c.specs.SamplesBehind.{IsNewSamples, SamplesEdited, SamplesObject, TellsWindow, WindowOf, WindowsBehind, WindowsIn, sample_edit, sample_in, times_in, times_put_in, unwindowed};
ghost use Rattle.livevec_c.specs.SeriesBehind.{EditsSamples};
ghost use Rattle.livevec_c.specs.declared.objects.Object.TheVariants as objects;

use crate::objects::Object;
use crate::results::NO_HANDLE;
use crate::series_pieces::{lay_elements, piece_answer};
use crate::series_results::{
    SampleElement, SeriesEdited, SeriesScanned, no_element, not_edited, not_held, not_refused,
    not_scanned, refusal_answer, sample_answer,
};
use crate::slots::{Slot, put, take};
use lv_bodies::Automaton;
use lv_series::{LongRefusal, Sample, Samples, Window};
use std::alloc::{AllocError, Global};

/// The indices of a window of time, from `lo` up to `hi`, and after which edit they are those.
#[repr(C)]
#[derive(Clone, Copy)]
pub struct SampleWindow {
    pub refusal: u32,
    pub edit: u64,
    pub lo: u64,
    pub hi: u64,
}

/// New samples in a place of their own.
pub fn new_samples(alloc: Global) -> Result<Box<Object>, AllocError>
    ensures { IfOk result (λ b. IsNewSamples program_table b.value) }
{
    let samples = Samples::new(alloc, Automaton::program());
    Ok(Box::new(alloc, Object::Samples(samples))?)
}

// An edit of samples: a push, or an expiry of those that were taken before a time.
fn edit_samples(samples: &mut Samples, expires: bool, time: i64, value: i64) -> SeriesEdited
    ensures { EditsSamples (sample_edit expires time value samples.old) result samples.old samples.new }
{
    if expires {
        sample_answer(samples.expire_before(time))
    } else {
        sample_answer(samples.push(time, value))
    }
}

// An edit of an object, if it is samples.
fn edit_object(object: &mut Object, expires: bool, time: i64, value: i64) -> SeriesEdited
    ensures { SamplesObject expires time value result object.old object.new }
{
    match object {
        Object::Samples(samples) => edit_samples(samples, expires, time, value),
        _ => not_edited(not_held()),
    }
}

/// Puts a sample at the end, or drops those that were taken before a time.
#[unsafe(no_mangle)]
pub extern "C" fn livevec_proved_samples_edit(
    alloc: Global,
    slot: &mut Slot,
    expires: bool,
    time: i64,
    value: i64,
) -> SeriesEdited
    ensures { SamplesEdited expires time value result slot.old.raw.inner slot.new.raw.inner }
{
    match take(alloc, slot) {
        None => not_edited(not_held()),
        Some(mut held) => {
            let answer = edit_object(&mut held, expires, time, value);
            put(slot, held);
            answer
        }
    }
}

/// A sample of an object.
pub fn sample_of(object: &Object, index: u64) -> SampleElement
    ensures { result ≡ sample_in index object.now }
{
    match object {
        Object::Samples(samples) => match samples.get(index) {
            Err(refusal) => no_element(refusal_answer(refusal)),
            Ok(Sample { time, value }) => SampleElement {
                why: not_refused(),
                time,
                value,
            },
        },
        _ => no_element(not_held()),
    }
}

// The answer if there is no window.
fn no_window(refusal: u32) -> SampleWindow
    ensures { result ≡ unwindowed refusal }
{
    SampleWindow {
        refusal,
        edit: 0,
        lo: 0,
        hi: 0,
    }
}

// A window of samples.
fn window_answer(samples: &Samples, answer: Result<Window, LongRefusal>) -> SampleWindow
    ensures { TellsWindow samples.now.series.edits answer result }
{
    match answer {
        Err(refusal) => no_window(refusal.number()),
        Ok(Window { lo, hi }) => SampleWindow {
            refusal: 0,
            edit: samples.series().edits(),
            lo,
            hi,
        },
    }
}

// The samples from a time up to another, or of the last so much time.
fn window_in(samples: &Samples, last: bool, since: i64, until: i64, span: u64) -> SampleWindow
    ensures { WindowOf last since until span result samples.now }
{
    if last {
        window_answer(samples, Ok(samples.last(span)))
    } else {
        window_answer(samples, samples.between(since, until))
    }
}

// A window of an object, if it is samples.
fn window_of(object: &Object, last: bool, since: i64, until: i64, span: u64) -> SampleWindow
    ensures { WindowsIn last since until span result object.now }
{
    match object {
        Object::Samples(samples) => window_in(samples, last, since, until, span),
        _ => no_window(NO_HANDLE),
    }
}

/// The samples from a time up to another, one at `since` among them and none at `until`; or those of the last so much time, whose times are above
/// that of the last sample less `span`.
#[unsafe(no_mangle)]
pub extern "C" fn livevec_proved_samples_window(
    alloc: Global,
    slot: &mut Slot,
    last: bool,
    since: i64,
    until: i64,
    span: u64,
) -> SampleWindow
    ensures answer { WindowsBehind last since until span result slot.old.raw.inner }
    ensures same { slot.new.raw.inner ≡ slot.old.raw.inner }
{
    match take(alloc, slot) {
        None => no_window(NO_HANDLE),
        Some(held) => {
            let answer = window_of(&held, last, since, until, span);
            put(slot, held);
            answer
        }
    }
}

// The times of samples, as many as fit into a buffer.
fn read_times(samples: &Samples, lo: u64, hi: u64, buffer: &mut [i64]) -> SeriesScanned
    ensures answer { result ≡ times_in lo hi (length buffer.old) (objects.Samples samples.now) }
    ensures buffer { buffer.new ≡ times_put_in lo hi buffer.old (objects.Samples samples.now) }
{
    // There is a time for each value.
    samples.holds();
    match samples.times(lo, hi) {
        Err(refusal) => not_scanned(refusal_answer(refusal)),
        Ok(times) => {
            let many = buffer.len().min(times.len());
            lay_elements(&times[..many], buffer);
            piece_answer(samples.series(), many)
        }
    }
}

/// The times of an object, if it is samples, as many as fit into a buffer.
pub fn times_of(object: &Object, lo: u64, hi: u64, buffer: &mut [i64]) -> SeriesScanned
    ensures answer { result ≡ times_in lo hi (length buffer.old) object.now }
    ensures buffer { buffer.new ≡ times_put_in lo hi buffer.old object.now }
{
    match object {
        Object::Samples(samples) => read_times(samples, lo, hi, buffer),
        _ => not_scanned(not_held()),
    }
}
