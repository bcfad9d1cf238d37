//! Standing queries of a live vector, each with the aggregate (*summary*) of its elements, and how an edit is reported to them.
ghost use Rattle.std.specs.Prelude.{◌≡◌, ◌↔◌, ℤ, IsTrue, IfSome, true, map, slice_index_or, take, ◌+◌, ◌<◌, ◌≤◌, List, [], ◌++◌, ◌∷◌, drop, length, vec_capacity, vec_len};
ghost use Rattle.lv_bodies.specs.Body.{CanFold};
ghost use Rattle.lv_bodies.specs.Plain.{program_table};
ghost use Rattle.lv_edits.specs.declared.edit.Edit.{Edit as Change};
ghost use Rattle.lv_edits.specs.History.{list_of};
ghost use Rattle.lv_edits.specs.Kept.{IsLegalInLimits};
ghost use Rattle.lv_tree.specs.Kinds.{AreReady, LeavesOthers};
ghost use Rattle.lv_tree.specs.KindSummaries.{summary_of};
ghost use Rattle.lv_tree.specs.declared.kind_summaries.KindSummary.{KindSummary as Summary};
ghost use Rattle.lv_standing.specs.declared.notes.Note.{Note as Told};
ghost use Rattle.lv_standing.specs.Inner.{AddsNotesUpTo, AreToldUpTo, IsPushed, SameElsewhere, asked, has_changed, joined_to};
ghost use Rattle.lv_standing.specs.Queries.{AddsNotesOf, watch_answer};
ghost use Rattle.lv_standing.specs.Standings.{LeavesUnasked, summary_at};

use crate::asking::ask_span;
use crate::changes::Changed;
use crate::notes::Note;
use crate::queries::Query;
use crate::query_set::QuerySet;
use crate::spans::Span;
use lv_bodies::Six;
use lv_live::Live;
use lv_tree::{KindSummary, Kinds};

/// How many queries have an element that changed.
#[inline(always)]
pub fn count_asked(queries: &[Query], changed: Changed) -> usize
    ensures { result ≡ length (asked changed queries.now) }
{
    let mut count = 0;
    for query in queries {
        if query.span.has_changed(changed) {
            count += 1;
        }
    }
    count
}

/// Brings each query that has a changed element up to an edit, in the order of registration, and appends the notes that are due to a
/// list. A push costs one join for a range that ends with it. Any other edit costs a question by the query's kind. Queries with equal
/// span and kind share it if at most five other queries are between them.
pub fn tell(
    live: &Live<Six>,
    kinds: &mut Kinds,
    set: &mut QuerySet<Query>,
    summaries: &mut Vec<KindSummary>,
    changed: Changed,
    notes: &mut Vec<Note>,
)
    ghost old: { List Change }
    requires limits { IsLegalInLimits live.now.history }
    requires kept { AreReady program_table live.now.history.journal kinds.old }
    requires before { CanFold (list_of old) }
    requires elsewhere { SameElsewhere changed old live.now.history.journal }
    requires pushed { IfSome changed.pushed (IsPushed changed old live.now.history.journal) }
    requires told { set.old.told ≡ map (watch_answer old) set.old.queries }
    requires summaries { summaries.old.items ≡ map (summary_at old) set.old.queries }
    requires room { vec_len notes.old + length (asked changed set.old.queries) ≤ vec_capacity notes.old }
    ensures told { set.new ≡ record set.old { told = map (watch_answer live.now.history.journal) set.old.queries } }
    ensures summaries { summaries.new.items ≡ map (summary_at live.now.history.journal) set.old.queries }
    ensures notes { AddsNotesOf set.old.queries set.old.told set.new.told notes.old.items notes.new.items }
    ensures kept { AreReady program_table live.now.history.journal kinds.new }
    ensures others { LeavesUnasked set.old.queries kinds.old kinds.new }
{
    for i in 0..set.queries().len() {
        tell_one(live, kinds, set, summaries, i, changed, notes);
    }
}

// Brings the query at a place up to the edit, if an element of it changed.
fn tell_one(
    live: &Live<Six>,
    kinds: &mut Kinds,
    set: &mut QuerySet<Query>,
    summaries: &mut Vec<KindSummary>,
    i: usize,
    changed: Changed,
    notes: &mut Vec<Note>,
)
    ghost old: { List Change }
    requires limits { IsLegalInLimits live.now.history }
    requires kept { AreReady program_table live.now.history.journal kinds.old }
    requires before { CanFold (list_of old) }
    requires elsewhere { SameElsewhere changed old live.now.history.journal }
    requires pushed { IfSome changed.pushed (IsPushed changed old live.now.history.journal) }
    requires within { i < length set.old.queries }
    requires told { AreToldUpTo old live.now.history.journal i set.old summaries.old.items }
    requires room { vec_len notes.old + length (asked changed (drop i set.old.queries)) ≤ vec_capacity notes.old }
    ensures told { AreToldUpTo old live.now.history.journal (i + 1) set.new summaries.new.items }
    ensures set { set.new ≡ record set.old { told = set.new.told } }
    ensures notes { (first : List Told) → AddsNotesUpTo old live.now.history.journal i set.old.queries first notes.old.items
        → AddsNotesUpTo old live.now.history.journal (i + 1) set.old.queries first notes.new.items }
    ensures room { vec_len notes.new + length (asked changed (drop (i + 1) set.old.queries)) ≤ vec_capacity notes.new }
    ensures kept { AreReady program_table live.now.history.journal kinds.new }
    ensures others { LeavesUnasked set.old.queries kinds.old kinds.new }
{
    let query = set.queries()[i];
    if !query.span.has_changed(changed) {
        return;
    }
    let summary = summary_after(live, kinds, set.queries(), summaries, i, changed, &query);
    set.tell_at(i, summary.shown(), notes);
    summaries[i] = summary;
}

// The summary, after the edit, of the query at a place, which has a changed element.
fn summary_after(
    live: &Live<Six>,
    kinds: &mut Kinds,
    queries: &[Query],
    summaries: &[KindSummary],
    i: usize,
    changed: Changed,
    query: &Query,
) -> KindSummary
    ghost old: { List Change }
    requires limits { IsLegalInLimits live.now.history }
    requires kept { AreReady program_table live.now.history.journal kinds.old }
    requires pushed { IfSome changed.pushed (IsPushed changed old live.now.history.journal) }
    requires changed { has_changed query.now.span changed ≡ true }
    requires within { i < length queries.now }
    requires each { length summaries.now ≡ length queries.now }
    requires told { take i summaries.now ≡ map (summary_at live.now.history.journal) (take i queries.now) }
    requires here { (d : Summary) → slice_index_or summaries.now i d ≡ summary_at old query.now }
    ensures value { result ≡ summary_at live.now.history.journal query.now }
    ensures kept { AreReady program_table live.now.history.journal kinds.new }
    ensures others { LeavesOthers query.now.kind kinds.old kinds.new }
{
    match joined_to(query.span, changed.pushed) {
        Some(x) => joined(query, summaries[i], x),
        None => told_or_asked(live, kinds, queries, summaries, i, query),
    }
}

// The summary of a query's elements with one more at the end. The query is only needed by the proof.
#[inline(always)]
fn joined(_query: &Query, summary: KindSummary, x: i64) -> KindSummary
    ghost before: { List ℤ }
    requires can { CanFold (before ++ x ∷ []) }
    requires is { summary ≡ summary_of _query.now.kind before }
    ensures { result ≡ summary_of _query.now.kind (before ++ x ∷ []) }
{
    summary.with_last(x)
}

// The element that a push appends to a span, if it appends one: it does so to a range, but not to the last so many.
#[inline(always)]
fn joined_to(span: Span, pushed: Option<i64>) -> Option<i64>
    ensures { result ≡ joined_to span pushed }
{
    match span {
        Span::Between { .. } => pushed,
        Span::Last(_) => None,
    }
}

// The summary of a query's elements at the last edit: that of an equal query before it, or else the vector is asked by the query's kind.
fn told_or_asked(
    live: &Live<Six>,
    kinds: &mut Kinds,
    queries: &[Query],
    summaries: &[KindSummary],
    i: usize,
    query: &Query,
) -> KindSummary
    requires kept { AreReady program_table live.now.history.journal kinds.old }
    requires within { i ≤ length queries.now }
    requires each { length summaries.now ≡ length queries.now }
    requires told { take i summaries.now ≡ map (summary_at live.now.history.journal) (take i queries.now) }
    ensures value { result ≡ summary_at live.now.history.journal query.now }
    ensures kept { AreReady program_table live.now.history.journal kinds.new }
    ensures others { LeavesOthers query.now.kind kinds.old kinds.new }
{
    match told_before(live, queries, summaries, i, query) {
        Some(summary) => summary,
        None => ask_span(live, kinds, query.kind, query.span),
    }
}

// The summary of one of the six queries before a place, if one of them has the span and kind of a query. Six suffice if queries of all
// six kinds take turns. The vector is only needed by the proof.
fn told_before(
    _live: &Live<Six>,
    queries: &[Query],
    summaries: &[KindSummary],
    i: usize,
    query: &Query,
) -> Option<KindSummary>
    requires within { i ≤ length queries.now }
    requires each { length summaries.now ≡ length queries.now }
    requires told { take i summaries.now ≡ map (summary_at _live.now.history.journal) (take i queries.now) }
    ensures { IfSome result (λ s. s ≡ summary_at _live.now.history.journal query.now) }
{
    for j in i.saturating_sub(6)..i {
        if is_alike(&queries[j], query) {
            return Some(summaries[j]);
        }
    }
    None
}

// Whether two queries have equal spans and kinds.
#[inline(always)]
fn is_alike(a: &Query, b: &Query) -> bool
    ensures { IsTrue result ↔ ((a.now.span ≡ b.now.span) × (a.now.kind ≡ b.now.kind)) }
{
    a.span == b.span && a.kind == b.kind
}
