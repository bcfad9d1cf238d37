//! A set of named queries, whatever they ask.
ghost use Rattle.std.specs.Prelude.{◌≡◌, ◌+◌, ◌<◌, ◌≤◌, ◌∷◌, [], None, IfErr, OnErr, OnOk, get_or, length, map, vec_capacity, vec_len};
ghost use Rattle.lv_bodies.specs.declared.kinds.Shown.{Shown as Told};
ghost use Rattle.lv_edits.specs.Verdict.{IsRefusal};
ghost use Rattle.lv_standing.specs.QuerySets.{AddsDue, name_of, place_of, refusal_of, told_at, with_answers, with_query, without_place, with_told};

use crate::askable::Askable;
use crate::notes::Note;
use crate::questions::{Asks, Question, Terms, refusal_by};
use indexmap::IndexSet;
use lv_bodies::{Name, Shown};
use lv_geometry::Refusal;
use std::alloc::{AllocError, Global};
use std::marker::Model;
use std::mem;

/// Named queries in the order of their registration, and the answer of each that was reported last. Asking and reporting are separate
/// steps, so that all answers are of one edit and a lock need be held only while asking.
#[derive(Drop)]
pub struct QuerySet<Q: Question> {
    queries: Vec<Q>,
    // The names of the queries, in the same order: the index by which a query is found. Asking and reporting don't use it.
    names: IndexSet<Name>,
    told: Vec<Shown>,
    // The answers that were computed last, with room for the answers of all queries.
    answers: Vec<Shown>,
    most: usize,
}

impl<Q: Question> Model for QuerySet<Q> {
    ghost use Rattle.std.specs.Prelude.{◌≡◌, ◌≤◌, length, map, vec_capacity};
    ghost use Rattle.lv_standing.specs.QuerySets.{QuerySetState, name_of};

    ghost Value = { QuerySetState Q };

    ghost view = { λ s. record { queries = s.queries.items; told = s.told.items; answers = s.answers.items; most = s.most } };

    ghost invariant = { λ s. (s.names.keys ≡ map (name_of Q.terms_of) s.queries.items) × (length s.told.items ≡ length s.queries.items) × (length s.queries.items ≤ vec_capacity s.told) × (length s.queries.items ≤ vec_capacity s.answers) × (length s.queries.items ≤ s.most) };
}

impl<Q: Question> QuerySet<Q> {
    /// A set without queries, which may have at most `most`. Takes no memory.
    pub fn new(alloc: Global, most: usize) -> QuerySet<Q>
        ensures { result ≡ record { queries = []; told = []; answers = []; most = most } }
    {
        QuerySet {
            queries: Vec::new(alloc),
            names: IndexSet::new(alloc),
            told: Vec::new(alloc),
            answers: Vec::new(alloc),
            most,
        }
    }

    /// Registers a query behind the others; `told` counts as its last reported answer. Refused with the error of `refusal`, then with
    /// `NoMemory`. After an error nothing has changed. On success the answers that were computed before are forgotten.
    pub fn watch(&mut self, query: &Q, told: Shown) -> Result<(), Refusal>
        ensures ok { OnOk result ((refusal_of Q.terms_of self.old.most self.old.queries query.now ≡ None) × (self.new ≡ with_query self.old query.now told)) }
        ensures err { IfErr result (λ refusal. IsRefusal (refusal_of Q.terms_of self.old.most self.old.queries query.now) refusal) }
        ensures unchanged { OnErr result (self.new ≡ self.old) }
    {
        match self.refusal(query) {
            Some(refusal) => Err(refusal),
            None => self.add(query, told),
        }
    }

    /// Why a query would be rejected if memory sufficed, or none.
    pub fn refusal(&self, query: &Q) -> Option<Refusal>
        ensures why { result ≡ refusal_of Q.terms_of self.now.most self.now.queries query.now }
        ensures free { result ≡ None → place_of Q.terms_of self.now.queries (name_of Q.terms_of query.now) ≡ None }
        ensures few { result ≡ None → length self.now.queries < self.now.most }
    {
        let Terms {
            name,
            is_backwards,
            ..
        } = query.terms();
        let place = self.place(&name);
        refusal_by(is_backwards, place.is_some(), self.queries.len(), self.most)
    }

    // Registers a query whose only possible error is `NoMemory`.
    fn add(&mut self, query: &Q, told: Shown) -> Result<(), Refusal>
        requires free { place_of Q.terms_of self.old.queries (name_of Q.terms_of query.now) ≡ None }
        requires few { length self.old.queries < self.old.most }
        ensures ok { OnOk result (self.new ≡ with_query self.old query.now told) }
        ensures err { IfErr result (λ refusal. refusal ≡ Refusal.NoMemory) }
        ensures unchanged { OnErr result (self.new ≡ self.old) }
    {
        let Ok(()) = make_room(&mut self.queries, &mut self.told, &mut self.answers) else {
            return Err(Refusal::NoMemory);
        };
        let Ok(_) = self.names.insert(query.terms().name) else {
            return Err(Refusal::NoMemory);
        };
        self.queries.push_reserved(*query);
        self.told.push_reserved(told);
        self.answers.clear();
        Ok(())
    }

    /// The place of the query with a name, if there is one.
    pub fn place(&self, name: &Name) -> Option<usize>
        ensures { result ≡ place_of Q.terms_of self.now.queries name.now }
    {
        self.names.get_index_of(name)
    }

    /// Removes the query at a place. The others keep their order and their reported answers. The computed answers are forgotten.
    pub fn forget(&mut self, place: usize)
        requires { place < length self.old.queries }
        ensures { self.new ≡ without_place self.old place }
    {
        self.queries.remove(place);
        self.names.shift_remove_index(place);
        self.told.remove(place);
        self.answers.clear();
    }

    /// The queries, in the order of their registration.
    pub fn queries(&self) -> &[Q]
        ensures queries { result.now ≡ self.now.queries }
        ensures few { length result.now ≤ self.now.most }
    {
        &self.queries
    }

    /// Takes the set apart into its queries, in that order.
    pub fn into_queries(self) -> Vec<Q>
        ensures { result.items ≡ self.queries }
    {
        let QuerySet { queries, .. } = self;
        queries
    }

    /// The answer of each query that was reported last.
    pub fn told(&self) -> &[Shown]
        ensures told { result.now ≡ self.now.told }
        ensures each { length result.now ≡ length self.now.queries }
    {
        &self.told
    }

    /// The answers that were computed last.
    pub fn answers(&self) -> &[Shown]
        ensures { result.now ≡ self.now.answers }
    {
        &self.answers
    }

    /// Computes the answers of all queries at one edit, and returns its number. Takes no memory. No answer counts as reported by it.
    pub fn ask<A: Askable>(&mut self, asked: &mut A) -> u64
    where
        Q: Asks<A>,
        ensures answers { self.new ≡ with_answers self.old (map (Q.answer_of asked.old) self.old.queries) }
        ensures edit { result ≡ (A.state asked.old).edit }
        ensures same { asked.new ≡ asked.old }
    {
        ask_each(&self.queries, asked, &mut self.answers);
        asked.edit()
    }

    /// Appends to a list a note of each query, in order, whose last computed answer is due.
    pub fn put_due(&self, notes: &mut Vec<Note>)
        requires asked { length self.now.answers ≡ length self.now.queries }
        requires room { vec_len notes.old + length self.now.queries ≤ vec_capacity notes.old }
        ensures notes { AddsDue Q.terms_of self.now.queries self.now.told self.now.answers notes.old.items notes.new.items }
        ensures capacity { vec_capacity notes.new ≡ vec_capacity notes.old }
    {
        note_each(&self.queries, &self.told, &self.answers, notes);
    }

    /// Records the answer that the query at a place has now: it counts as reported, and a note of it, if one is due, is appended to a list.
    pub fn tell_at(&mut self, place: usize, answer: Shown, notes: &mut Vec<Note>)
        requires within { place < length self.old.queries }
        requires room { vec_len notes.old + 1 ≤ vec_capacity notes.old }
        ensures told { self.new ≡ told_at self.old place answer }
        ensures noted { (q : Q) (before : Told) → q ≡ get_or self.old.queries place q → before ≡ get_or self.old.told place before
            → AddsDue Q.terms_of (q ∷ []) (before ∷ []) (answer ∷ []) notes.old.items notes.new.items }
        ensures few { vec_len notes.new ≤ vec_len notes.old + 1 }
        ensures capacity { vec_capacity notes.new ≡ vec_capacity notes.old }
    {
        note_one(&self.queries[place], &self.told[place], &answer, notes);
        self.told[place] = answer;
    }

    /// The answers that were computed last now count as reported.
    pub fn mark_told(&mut self)
        requires { length self.old.answers ≡ length self.old.queries }
        ensures { self.new ≡ with_told self.old }
    {
        mem::swap(&mut self.told, &mut self.answers);
        self.answers.clear();
    }
}

// Makes room for one more query, for its reported answer, and for the computed answers of all.
fn make_room<Q>(
    queries: &mut Vec<Q>,
    told: &mut Vec<Shown>,
    answers: &mut Vec<Shown>,
) -> Result<(), AllocError>
    ensures queries { queries.new.items ≡ queries.old.items }
    ensures told { told.new.items ≡ told.old.items }
    ensures answers { answers.new.items ≡ answers.old.items }
    ensures query_room { OnOk result (vec_len queries.new + 1 ≤ vec_capacity queries.new) }
    ensures told_room { OnOk result (vec_len told.new + 1 ≤ vec_capacity told.new) }
    ensures answer_room { OnOk result (vec_len queries.new + 1 ≤ vec_capacity answers.new) }
    ensures told_keeps { vec_capacity told.old ≤ vec_capacity told.new }
    ensures answers_keep { vec_capacity answers.old ≤ vec_capacity answers.new }
{
    let count = queries.len().saturating_add(1);
    answers.reserve(count.saturating_sub(answers.len()))?;
    told.reserve(1)?;
    queries.reserve(1)
}

// Computes the answers of the queries, which take the place of those there were. The room was made before.
fn ask_each<A, Q: Asks<A>>(queries: &[Q], asked: &mut A, answers: &mut Vec<Shown>)
    requires { length queries.now ≤ vec_capacity answers.old }
    ensures answers { answers.new.items ≡ map (Q.answer_of asked.old) queries.now }
    ensures capacity { vec_capacity answers.new ≡ vec_capacity answers.old }
    ensures same { asked.new ≡ asked.old }
{
    answers.clear();
    for query in queries {
        let answer = query.answer_by(asked);
        answers.push_reserved(answer);
    }
}

// Appends to a list a note of each query, in order, whose answer is due.
fn note_each<Q: Question>(queries: &[Q], told: &[Shown], answers: &[Shown], notes: &mut Vec<Note>)
    requires told { length told.now ≡ length queries.now }
    requires answers { length answers.now ≡ length queries.now }
    requires room { vec_len notes.old + length queries.now ≤ vec_capacity notes.old }
    ensures notes { AddsDue Q.terms_of queries.now told.now answers.now notes.old.items notes.new.items }
    ensures capacity { vec_capacity notes.new ≡ vec_capacity notes.old }
{
    for i in 0..queries.len() {
        note_one(&queries[i], &told[i], &answers[i], notes);
    }
}

// Appends a note of a query to a list, if its answer is due.
fn note_one<Q: Question>(query: &Q, before: &Shown, answer: &Shown, notes: &mut Vec<Note>)
    requires { vec_len notes.old + 1 ≤ vec_capacity notes.old }
    ensures noted { AddsDue Q.terms_of (query.now ∷ []) (before.now ∷ []) (answer.now ∷ []) notes.old.items notes.new.items }
    ensures few { vec_len notes.new ≤ vec_len notes.old + 1 }
    ensures capacity { vec_capacity notes.new ≡ vec_capacity notes.old }
{
    if query.is_due(before, answer) {
        notes.push_reserved(Note {
            name: query.terms().name,
            value: *answer,
        });
    }
}
