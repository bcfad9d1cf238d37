//! The replies to each command of a series' script.
ghost use Rattle.std.specs.Prelude.{◌≡◌, List, ℕ, ◌++◌, IfErr, OnOk, map, vec_capacity};
ghost use Rattle.lv_bodies.specs.Plain.{program_table};
ghost use Rattle.lv_lines.specs.Output.{HasRoom, KeepsRoom, Puts, PutsFront, SamePlaces};
ghost use Rattle.lv_lines.specs.Texts.{size_text};
ghost use Rattle.lv_series.specs.Series.{SeriesState, element_at, size_of};
ghost use Rattle.lv_standing.specs.QuerySets.{QuerySetState};
ghost use Rattle.lv_standing.specs.declared.queries.Query.{Query as Asked};
ghost use Rattle.lv_standing.specs.Standings.{HaveOwnNames};
ghost use Rattle.lv_script.specs.Inside.{IsReady, Told, known_of};
ghost use Rattle.lv_script.specs.LongGrammar.{watch_of};
ghost use Rattle.lv_script.specs.PlainSeriesScript.{long_answer};
ghost use Rattle.lv_script.specs.LongTexts.{first_text, long_element_text};

use crate::long_commands::{LongCommand, Search};
use crate::running_scans::{Slice, put_running_scan};
use crate::series_scripts::queries::{register, tell};
use crate::series_scripts::searches::{index_of, run_of};
use crate::series_scripts::texts::{put_first, put_index, put_receipt, put_run, put_value};
use crate::series_scripts::values::show_value;
use crate::watch_replies::{ROOM, put_notes};
use lv_bodies::{Kind, Name};
use lv_geometry::Refusal;
use lv_lines::{
    Fault, ReplyBuffer, put_answer, put_named, put_refused, put_size, put_unwatched, put_watching,
};
use lv_series::{LongEdit, Series};
use lv_standing::{Note, Query, QuerySet};
use std::io::Write;

/// Answers a command. Only the reply to a scan may be longer than what is held.
pub fn answer<W: Write>(
    series: &mut Series,
    queries: &mut QuerySet<Query>,
    notes: &mut Vec<Note>,
    command: LongCommand,
    buffer: &mut ReplyBuffer<'_, W>,
) -> Result<(), Fault>
    requires ready { IsReady series.old queries.old (vec_capacity notes.old) }
    requires room { HasRoom buffer.old.held.now ROOM }
    ensures places { SamePlaces buffer.old buffer.new }
    ensures ok { OnOk result ((reply : List ℕ) × Told (known_of series.old queries.old.queries) command reply (known_of series.new queries.new.queries)
        × Puts W.contents buffer.old buffer.new reply) }
    ensures fault { IfErr result (λ fault. (fault ≡ Fault.WriteFault) × (reply : List ℕ)
        × Told (known_of series.old queries.old.queries) command reply (known_of series.new queries.new.queries)
        × PutsFront W.contents buffer.old buffer.new reply) }
    ensures ready { IsReady series.new queries.new (vec_capacity notes.new) }
{
    match command {
        LongCommand::Edit(edit) => put_edit(series, queries, notes, edit, buffer.held),
        LongCommand::First => put_front(series, buffer.held),
        LongCommand::Size => put_extent(series, buffer.held),
        LongCommand::Get(i) => put_element_at(series, i, buffer.held),
        LongCommand::Reduce { kind, lo, hi } => put_reduced(series, kind, lo, hi, buffer.held),
        LongCommand::Scan {
            inclusive,
            kind,
            lo,
            hi,
        } => {
            return answer_scan(series, buffer, inclusive, kind, lo, hi);
        }
        LongCommand::Find { sought, lo, hi } => put_index_of(series, sought, lo, hi, buffer.held),
        LongCommand::BestRun { lo, hi } => put_run_of(series, lo, hi, buffer.held),
        LongCommand::Watch {
            name,
            kind,
            span,
            bound,
        } => {
            let query = Query {
                name,
                kind,
                span,
                bound,
            };
            put_watch(series, queries, notes, &query, buffer.held);
        }
        LongCommand::Unwatch(name) => put_unwatch(queries, name, buffer.held),
        LongCommand::Answer(name) => put_named_answer(series, queries, name, buffer.held),
    }
    Ok(())
}

// Makes an edit: its receipt and its notes, or its refusal.
fn put_edit(
    series: &mut Series,
    queries: &mut QuerySet<Query>,
    notes: &mut Vec<Note>,
    edit: LongEdit,
    held: &mut Vec<u8>,
)
    requires ready { IsReady series.old queries.old (vec_capacity notes.old) }
    requires room { HasRoom held.old ROOM }
    ensures answer { (reply : List ℕ) × Told (known_of series.old queries.old.queries) (LongCommand.Edit edit) reply (known_of series.new queries.new.queries)
        × (held.new.items ≡ held.old.items ++ reply) }
    ensures ready { IsReady series.new queries.new (vec_capacity notes.new) }
    ensures room { KeepsRoom held.old held.new }
{
    match series.apply(&edit) {
        Ok(receipt) => {
            put_receipt(held, receipt, series.first());
            tell(series, queries, notes);
            put_notes(held, notes.as_slice());
        }
        Err(refusal) => put_refused(held, refusal.number()),
    }
}

// The first index that is kept, and the number of the last edit.
fn put_front(series: &Series, held: &mut Vec<u8>)
    requires { HasRoom held.old ROOM }
    ensures text { held.new.items ≡ held.old.items ++ first_text series.now.held.first series.now.edits }
    ensures room { KeepsRoom held.old held.new }
{
    put_first(held, series.first(), series.edits());
}

// Puts the index after the last element, and the number of the last update.
fn put_extent(series: &Series, held: &mut Vec<u8>)
    requires { HasRoom held.old ROOM }
    ensures text { held.new.items ≡ held.old.items ++ size_text (size_of series.now.held) series.now.edits }
    ensures room { KeepsRoom held.old held.new }
{
    put_size(held, series.size(), series.edits());
}

// The element under an index, or that there is none.
fn put_element_at(series: &Series, i: u64, held: &mut Vec<u8>)
    requires { HasRoom held.old ROOM }
    ensures text { held.new.items ≡ held.old.items ++ long_element_text (element_at series.now.held i) }
    ensures room { KeepsRoom held.old held.new }
{
    put_value(held, series.get(i));
}

// Puts the value of a kind over a range, or the error for the range.
fn put_reduced(series: &mut Series, kind: Kind, lo: u64, hi: u64, held: &mut Vec<u8>)
    requires table { series.old.table ≡ program_table }
    requires room { HasRoom held.old ROOM }
    ensures answer { (reply : List ℕ) × ((queries : List Asked) → Told (known_of series.old queries) (LongCommand.Reduce kind lo hi) reply (known_of series.new queries))
        × (held.new.items ≡ held.old.items ++ reply) }
    ensures ready { (set : QuerySetState Asked) (room : ℕ) → IsReady series.old set room → IsReady series.new set room }
    ensures room { KeepsRoom held.old held.new }
{
    match show_value(series, kind, lo, hi) {
        Ok(value) => put_answer(held, series.edits(), kind, value),
        Err(refusal) => put_refused(held, refusal.number()),
    }
}

// Puts a scan of a range, or the error for the range.
fn answer_scan<W: Write>(
    series: &Series,
    buffer: &mut ReplyBuffer<'_, W>,
    inclusive: bool,
    kind: Kind,
    lo: u64,
    hi: u64,
) -> Result<(), Fault>
    requires room { HasRoom buffer.old.held.now ROOM }
    ensures places { SamePlaces buffer.old buffer.new }
    ensures ok { OnOk result ((reply : List ℕ)
        × ((queries : List Asked) → Told (known_of series.now queries) (LongCommand.Scan inclusive kind lo hi) reply (known_of series.now queries))
        × Puts W.contents buffer.old buffer.new reply) }
    ensures fault { IfErr result (λ fault. (fault ≡ Fault.WriteFault) × (reply : List ℕ)
        × ((queries : List Asked) → Told (known_of series.now queries) (LongCommand.Scan inclusive kind lo hi) reply (known_of series.now queries))
        × PutsFront W.contents buffer.old buffer.new reply) }
{
    series.holds();
    match series.elements(lo, hi) {
        Ok(elements) => {
            let elements = Slice { elements };
            put_running_scan(buffer, series.edits(), inclusive, kind, &elements)
        }
        Err(refusal) => {
            put_refused(buffer.held, refusal.number());
            Ok(())
        }
    }
}

// The index of what is looked for in a range, or why there is no answer.
fn put_index_of(series: &mut Series, sought: Search, lo: u64, hi: u64, held: &mut Vec<u8>)
    requires room { HasRoom held.old ROOM }
    ensures answer { (reply : List ℕ) × ((queries : List Asked) → Told (known_of series.old queries) (LongCommand.Find sought lo hi) reply (known_of series.new queries))
        × (held.new.items ≡ held.old.items ++ reply) }
    ensures ready { (set : QuerySetState Asked) (room : ℕ) → IsReady series.old set room → IsReady series.new set room }
    ensures room { KeepsRoom held.old held.new }
{
    match index_of(series, sought, lo, hi) {
        Ok(index) => put_index(held, series.edits(), index),
        Err(refusal) => put_refused(held, refusal.number()),
    }
}

// Puts the start and the end of the run of a range with the greatest sum, or the reason that there is none.
fn put_run_of(series: &mut Series, lo: u64, hi: u64, held: &mut Vec<u8>)
    requires room { HasRoom held.old ROOM }
    ensures answer { (reply : List ℕ) × ((queries : List Asked) → Told (known_of series.old queries) (LongCommand.BestRun lo hi) reply (known_of series.new queries))
        × (held.new.items ≡ held.old.items ++ reply) }
    ensures ready { (set : QuerySetState Asked) (room : ℕ) → IsReady series.old set room → IsReady series.new set room }
    ensures room { KeepsRoom held.old held.new }
{
    match run_of(series, lo, hi) {
        Ok(run) => put_run(held, series.edits(), run),
        Err(refusal) => put_refused(held, refusal.number()),
    }
}

// Registers a query.
fn put_watch(
    series: &mut Series,
    queries: &mut QuerySet<Query>,
    notes: &mut Vec<Note>,
    query: &Query,
    held: &mut Vec<u8>,
)
    requires ready { IsReady series.old queries.old (vec_capacity notes.old) }
    requires room { HasRoom held.old ROOM }
    ensures answer { (reply : List ℕ) × Told (known_of series.old queries.old.queries) (watch_of query.now) reply (known_of series.new queries.new.queries)
        × (held.new.items ≡ held.old.items ++ reply) }
    ensures ready { IsReady series.new queries.new (vec_capacity notes.new) }
    ensures room { KeepsRoom held.old held.new }
{
    match register(series, queries, notes, query) {
        Ok(()) => put_watching(held, query.name),
        Err(refusal) => put_refused(held, refusal.number()),
    }
}

// Forgets a query.
fn put_unwatch(queries: &mut QuerySet<Query>, name: Name, held: &mut Vec<u8>)
    requires apart { HaveOwnNames queries.old.queries }
    requires room { HasRoom held.old ROOM }
    ensures answer { (reply : List ℕ) × ((s : SeriesState) → Told (known_of s queries.old.queries) (LongCommand.Unwatch name) reply (known_of s queries.new.queries))
        × (held.new.items ≡ held.old.items ++ reply) }
    ensures ready { (s : SeriesState) (room : ℕ) → IsReady s queries.old room → IsReady s queries.new room }
    ensures room { KeepsRoom held.old held.new }
{
    match queries.place(&name) {
        Some(place) => {
            queries.forget(place);
            put_unwatched(held, name);
        }
        None => put_refused(held, Refusal::NoSuchName.number()),
    }
}

// Puts the answer of a query: the one that it reported last.
fn put_named_answer(series: &Series, queries: &QuerySet<Query>, name: Name, held: &mut Vec<u8>)
    requires told { queries.now.told ≡ map (long_answer series.now.held) queries.now.queries }
    requires room { HasRoom held.old ROOM }
    ensures answer { (reply : List ℕ) × Told (known_of series.now queries.now.queries) (LongCommand.Answer name) reply (known_of series.now queries.now.queries)
        × (held.new.items ≡ held.old.items ++ reply) }
    ensures room { KeepsRoom held.old held.new }
{
    match queries.place(&name) {
        Some(place) => put_named(held, series.edits(), name, queries.told()[place]),
        None => put_refused(held, Refusal::NoSuchName.number()),
    }
}
