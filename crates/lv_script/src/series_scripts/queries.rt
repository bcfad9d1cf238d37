//! Standing queries of a script: one more is registered, and an edit's notes are listed.
ghost use Rattle.std.specs.Prelude.{◌≡◌, ◌≤◌, None, IfErr, OnErr, OnOk, length, map, vec_capacity};
ghost use Rattle.lv_bodies.specs.Plain.{program_table};
ghost use Rattle.lv_edits.specs.Verdict.{IsRefusal};
ghost use Rattle.lv_standing.specs.QuerySets.{with_answers, with_query};
ghost use Rattle.lv_script.specs.Inside.{AreNotesDue, brought_up};
ghost use Rattle.lv_standing.specs.Queries.{query_refusal};
ghost use Rattle.lv_script.specs.PlainSeriesScript.{long_answer};
ghost use Rattle.lv_script.specs.Values.{without_trees};

use crate::asked_series::AskedSeries;
use crate::series_scripts::values::prepare;
use lv_bodies::Shown;
use lv_geometry::Refusal;
use lv_series::Series;
use lv_standing::{Asks, Note, Query, QuerySet};

/// Registers a query. Its present answer counts as reported, and there is room for a notification of it. The errors, in the order in which
/// they are checked, are `BadRange`, `NameTaken`, `TooMany` and `NoMemory`.
pub fn register(
    series: &mut Series,
    queries: &mut QuerySet<Query>,
    notes: &mut Vec<Note>,
    query: &Query,
) -> Result<(), Refusal>
    requires table { series.old.table ≡ program_table }
    requires most { queries.old.most ≡ 64 }
    ensures free { OnOk result (query_refusal 64 queries.old.queries query.now ≡ None) }
    ensures added { OnOk result (queries.new ≡ with_query queries.old query.now (long_answer series.old.held query.now)) }
    ensures few { OnOk result (length queries.new.queries ≤ 64) }
    ensures room { OnOk result (length queries.new.queries ≤ vec_capacity notes.new) }
    ensures same { without_trees series.new ≡ without_trees series.old }
    ensures err { IfErr result (λ refusal. IsRefusal (query_refusal 64 queries.old.queries query.now) refusal) }
    ensures unchanged { OnErr result (queries.new.queries ≡ queries.old.queries) }
    ensures untold { OnErr result (queries.new.told ≡ queries.old.told) }
    ensures most { queries.new.most ≡ 64 }
    ensures keeps { vec_capacity notes.old ≤ vec_capacity notes.new }
{
    if let Some(refusal) = queries.refusal(query) {
        return Err(refusal);
    }
    let Ok(()) = notes.reserve(queries.queries().len() + 1) else {
        return Err(Refusal::NoMemory);
    };
    let told = prepared_answer(series, query);
    queries.watch(query, told)
}

// The answer of a query. The tree of its kind is made first, if there is memory for it.
fn prepared_answer(series: &mut Series, query: &Query) -> Shown
    requires table { series.old.table ≡ program_table }
    ensures value { result ≡ long_answer series.old.held query.now }
    ensures same { without_trees series.new ≡ without_trees series.old }
{
    prepare(series, query.kind);
    answer(series, query)
}

// The answer of a query, computed with the trees that there are.
fn answer(series: &Series, query: &Query) -> Shown
    requires { series.now.table ≡ program_table }
    ensures { result ≡ long_answer series.now.held query.now }
{
    let mut asked = AskedSeries { series };
    query.answer_by(&mut asked)
}

/// Computes the answers of all queries once, and lists the notifications that are due. These answers count as reported then.
pub fn tell(series: &mut Series, queries: &mut QuerySet<Query>, notes: &mut Vec<Note>)
    requires table { series.old.table ≡ program_table }
    requires room { length queries.old.queries ≤ vec_capacity notes.old }
    ensures same { without_trees series.new ≡ without_trees series.old }
    ensures queries { queries.new ≡ brought_up series.old.held queries.old }
    ensures notes { AreNotesDue series.old.held queries.old.queries queries.old.told notes.new.items }
    ensures capacity { vec_capacity notes.new ≡ vec_capacity notes.old }
{
    notes.clear();
    ask_all(series, queries);
    queries.put_due(notes);
    queries.mark_told();
}

// Computes the answers of all queries once. The trees of their kinds are made first, if there is memory for them.
fn ask_all(series: &mut Series, queries: &mut QuerySet<Query>)
    requires table { series.old.table ≡ program_table }
    ensures answers { queries.new ≡ with_answers queries.old (map (long_answer series.old.held) queries.old.queries) }
    ensures same { without_trees series.new ≡ without_trees series.old }
{
    prepare_each(series, queries.queries());
    ask_prepared(series, queries);
}

// Makes the trees of the queries' kinds.
fn prepare_each(series: &mut Series, queries: &[Query])
    ensures { without_trees series.new ≡ without_trees series.old }
{
    for query in queries {
        prepare(series, query.kind);
    }
}

// Computes the answers of all queries once, with the trees that there are.
fn ask_prepared(series: &Series, queries: &mut QuerySet<Query>)
    requires { series.now.table ≡ program_table }
    ensures { queries.new ≡ with_answers queries.old (map (long_answer series.now.held) queries.old.queries) }
{
    let mut asked = AskedSeries { series };
    queries.ask(&mut asked);
}
