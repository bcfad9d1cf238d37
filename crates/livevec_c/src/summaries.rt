//! Summaries that travel, which C has as their bytes.
ghost use Rattle.std.specs.Prelude.{◌≡◌, Ok, take, min};
ghost use Rattle.lv_bodies.specs.Plain.{program_table};
ghost use Rattle.lv_edits.specs.Ranges.{range_refusal};
ghost use Rattle.lv_shards.specs.Summaries.{empty_of, leads_of};
ghost use Rattle.livevec_c.specs.Lives.{table_asked};
ghost use Rattle.livevec_c.specs.Summed.{Extends, ExtendsRead, IsEmpty, IsEmptyBy, Joins, JoinsWith, OpensBytes, Reads, Sums, SumsBy, SumsObject, SumsRange, joined_answer, opened_by, summarised, unread, unsummarised};

use crate::lifetimes::Table;
use crate::objects::Object;
use crate::results::{BAD_KIND, BAD_TABLE, NO_HANDLE, detail};
use crate::slots::{Slot, put, take};
use crate::values::{PlainValues, each_values, no_values};
use lv_bodies::{Automaton, Kind, SixByTable};
use lv_live::Live;
use lv_shards::{JoinRefusal, ReadRefusal, SUMMARY_BYTES, ShardSummary};
use std::alloc::Global;

/// How many elements a call takes at once.
const CHUNK: usize = 1024;

/// The number for bytes of another version of the layout.
const OTHER_VERSION: u32 = 109;

/// The number for bytes that no summary has.
const DAMAGED: u32 = 110;

/// The number for summaries by automata of two tables.
const OTHER_TABLE: u32 = 111;

/// The number for more elements together than summaries may have.
const TOO_LONG: u32 = 112;

/// A summary as C has it.
#[repr(C)]
#[derive(Clone, Copy)]
pub struct SummaryBytes {
    pub bytes: [u8; SUMMARY_BYTES],
}

/// The answer of a call that returns a summary.
#[repr(C)]
#[derive(Clone, Copy)]
pub struct Summarised {
    pub refusal: u32,
    pub detail: u32,
    pub summary: SummaryBytes,
}

/// What a summary says.
#[repr(C)]
#[derive(Clone, Copy)]
pub struct Opened {
    pub refusal: u32,
    pub edit: u32,
    pub count: u64,
    pub values: PlainValues,
    pub table: Table,
    pub at_edit: bool,
}

/// Elements for a call.
#[repr(C)]
#[derive(Clone, Copy)]
pub struct Chunk {
    pub values: [i64; CHUNK],
}

// The answer of a call for a summary that was refused.
fn not_summarised(refusal: u32, detail: u32) -> Summarised
    ensures { result ≡ unsummarised refusal detail }
{
    let summary = SummaryBytes {
        bytes: [0; SUMMARY_BYTES],
    };
    Summarised {
        refusal,
        detail,
        summary,
    }
}

// An answer by a summary.
fn summary_answer(summary: &ShardSummary) -> Summarised
    ensures { result ≡ summarised summary.now }
{
    let bytes = summary.to_bytes();
    let summary = SummaryBytes { bytes };
    Summarised {
        refusal: 0,
        detail: 0,
        summary,
    }
}

// A join's answer.
fn join_answer(joined: Result<ShardSummary, JoinRefusal>) -> Summarised
    ensures { result ≡ joined_answer joined }
{
    match joined {
        Ok(summary) => summary_answer(&summary),
        Err(JoinRefusal::OtherTable) => not_summarised(OTHER_TABLE, 0),
        Err(JoinRefusal::TooLong) => not_summarised(TOO_LONG, 0),
    }
}

// The number for why bytes are not read.
fn unread_number(refusal: ReadRefusal) -> u32
    ensures { result ≡ unread refusal }
{
    match refusal {
        ReadRefusal::OtherVersion => OTHER_VERSION,
        ReadRefusal::Damaged => DAMAGED,
    }
}

// Reads a summary from its bytes.
fn read(bytes: &SummaryBytes) -> Result<ShardSummary, ReadRefusal>
    ensures { Reads bytes.now.bytes result }
{
    ShardSummary::from_bytes(&bytes.bytes)
}

// The summary of no elements, by the program's automaton.
fn empty_by_program() -> Summarised
    ensures { result ≡ summarised (empty_of (leads_of program_table)) }
{
    summary_answer(&ShardSummary::empty(Automaton::program()))
}

// The summary of no elements, by an automaton of a table that may have a wrong entry.
fn empty_by_table(table: &Table) -> Summarised
    ensures { IsEmptyBy table.now.next result }
{
    match Automaton::new(table.next) {
        Err(_) => not_summarised(BAD_TABLE, 0),
        Ok(automaton) => summary_answer(&ShardSummary::empty(automaton)),
    }
}

/// The summary of no elements, by the program's automaton, or by one of this table.
#[unsafe(no_mangle)]
pub extern "C" fn livevec_proved_summary_empty(by_table: bool, table: &Table) -> Summarised
    ensures { IsEmpty (table_asked by_table table.now.next) result }
{
    if by_table {
        empty_by_table(table)
    } else {
        empty_by_program()
    }
}

// The summary of a range of a vector.
fn sum_up(live: &Live<SixByTable>, lo: u32, hi: u32) -> Summarised
    ensures { SumsRange (range_refusal live.now.history.journal lo hi) lo hi result live.now }
{
    live.keeps();
    let automaton = live.body().automaton;
    match live.reduce(lo, hi) {
        Err(refusal) => not_summarised(refusal.number(), detail(refusal)),
        Ok(answer) => {
            let count = u64::from(hi - lo);
            let edit = Some(answer.edit);
            let six = answer.value.each();
            summary_answer(&ShardSummary::of_fold(automaton, count, edit, six))
        }
    }
}

// The summary of a range of a vector, if the vector is of all six kinds.
fn sum_six(live: &Live<SixByTable>, only: Option<Kind>, lo: u32, hi: u32) -> Summarised
    ensures { SumsBy only lo hi result live.now }
{
    match only {
        Some(_) => not_summarised(BAD_KIND, 0),
        None => sum_up(live, lo, hi),
    }
}

// The summary of a range of an object, if it is a vector.
fn sum_of(object: &Object, lo: u32, hi: u32) -> Summarised
    ensures { SumsObject lo hi result object.now }
{
    match object {
        Object::Vector(vector, only) => sum_six(vector.live(), *only, lo, hi),
        _ => not_summarised(NO_HANDLE, 0),
    }
}

/// The summary of the elements of a range.
#[unsafe(no_mangle)]
pub extern "C" fn livevec_proved_summary_of(
    alloc: Global,
    slot: &mut Slot,
    lo: u32,
    hi: u32,
) -> Summarised
    ensures answer { Sums lo hi result slot.old.raw.inner }
    ensures same { slot.new.raw.inner ≡ slot.old.raw.inner }
{
    match take(alloc, slot) {
        None => not_summarised(NO_HANDLE, 0),
        Some(held) => {
            let answer = sum_of(&held, lo, hi);
            put(slot, held);
            answer
        }
    }
}

// Joins a summary with the one that is read from some bytes.
fn join_read(left: &ShardSummary, right: &SummaryBytes) -> Summarised
    ensures { JoinsWith (Ok left.now) right.now.bytes result }
{
    match read(right) {
        Err(refusal) => not_summarised(unread_number(refusal), 0),
        Ok(right) => join_answer(left.join(&right)),
    }
}

/// The summary of the elements of the left one and then those of the right one.
#[unsafe(no_mangle)]
pub extern "C" fn livevec_proved_summary_join(
    left: &SummaryBytes,
    right: &SummaryBytes,
) -> Summarised
    ensures { Joins left.now.bytes right.now.bytes result }
{
    match read(left) {
        Err(refusal) => not_summarised(unread_number(refusal), 0),
        Ok(left) => join_read(&left, right),
    }
}

// Joins a summary with that of more elements.
fn extend_read(summary: &ShardSummary, chunk: &Chunk, length: u32) -> Summarised
    ensures { ExtendsRead (Ok summary.now) (take (min length 1024) chunk.now.values) result }
{
    let length = (length as usize).min(CHUNK);
    join_answer(summary.extend(&chunk.values[..length]))
}

/// The summary of a summary's elements and then of `length` more, at most 1,024.
#[unsafe(no_mangle)]
pub extern "C" fn livevec_proved_summary_extend(
    summary: &SummaryBytes,
    chunk: &Chunk,
    length: u32,
) -> Summarised
    ensures { Extends summary.now.bytes (take (min length 1024) chunk.now.values) result }
{
    match read(summary) {
        Err(refusal) => not_summarised(unread_number(refusal), 0),
        Ok(summary) => extend_read(&summary, chunk, length),
    }
}

// What a summary says.
fn said_by(summary: &ShardSummary) -> Opened
    ensures { result ≡ opened_by (Ok summary.now) }
{
    let edit = summary.edit();
    let table = Table {
        next: summary.rows(),
    };
    Opened {
        refusal: 0,
        edit: edit.unwrap_or(0),
        count: summary.count(),
        values: each_values(summary.six()),
        table,
        at_edit: edit.is_some(),
    }
}

/// What a summary says.
#[unsafe(no_mangle)]
pub extern "C" fn livevec_proved_summary_values(summary: &SummaryBytes) -> Opened
    ensures { OpensBytes summary.now.bytes result }
{
    match read(summary) {
        Ok(summary) => said_by(&summary),
        Err(refusal) => Opened {
            refusal: unread_number(refusal),
            edit: 0,
            count: 0,
            values: no_values(),
            table: Table { next: [[0; 4]; 8] },
            at_edit: false,
        },
    }
}
