//! A live vector with standing queries.
ghost use Rattle.std.specs.Prelude.{◌≡◌, ◌↔◌, ◌⊎◌, ◌+◌, ◌<◌, ◌≤◌, None, Some, IsTrue, IsSome, IfSome, IfOk, IfErr, OnOk, OnErr, List, [], ◌∷◌, ◌++◌, length, option_map};
ghost use Rattle.lv_geometry.specs.declared.nodes.Node.{Node};
ghost use Rattle.lv_bodies.specs.Six.{six_operations};
ghost use Rattle.lv_edits.specs.Kept.{IsLegalInLimits};
ghost use Rattle.lv_edits.specs.Verdict.{Accepts, IsRefusal, Refuses};
ghost use Rattle.lv_edits.specs.Ranges.{range_refusal};
ghost use Rattle.lv_refresh.specs.Claim.{IsNextJob};
ghost use Rattle.lv_refresh.specs.Delivery.{delivery_of};
ghost use Rattle.lv_refresh.specs.Honesty.{IsHonest, Vouched};
ghost use Rattle.lv_live.specs.Kept.{IsWorld};
ghost use Rattle.lv_live.specs.State.{HasClaim, HasDelivery, HasNoClaims, SameLive, SameRefresh, node_and_version, recorded, with_issued};
ghost use Rattle.lv_live.specs.Step.{Step, accepted_reply, numbered_reply};
ghost use Rattle.lv_live.specs.declared.events.Event.TheVariants as event;
ghost use Rattle.lv_tree.specs.Kinds.{IsCaughtUp, IsNear, LeavesOthers};
ghost use Rattle.lv_standing.specs.Standings.{LeavesOrFollowsUnasked};
ghost use Rattle.lv_standing.specs.declared.queries.Query.{Query as Asked};
ghost use Rattle.lv_standing.specs.Queries.{AreNotes, TellsNotes, between, query_of, query_refusal, watch_answer, watch_refusal, without_query, IsValue};

mod searches;

use crate::asking::ask_span;
use crate::edits::edit_noted;
use crate::notes::{Answered, Note};
use crate::queries::Query;
use crate::query_set::QuerySet;
use crate::values::value_beside;
use lv_bodies::{Automaton, Body, Kind, Name, Six};
use lv_edits::{Edit, Receipt};
use lv_geometry::{Limits, Node, Refusal};
use lv_live::{Issued, Live};
use lv_refresh::{Job, Outcome};
use lv_summary::Accepted;
use lv_tree::{KindSummary, Kinds};
use std::alloc::Global;
use std::marker::Model;

// The greatest number of queries.
const MOST: usize = 64;

/// A live vector of all six aggregates (*kinds*), with named standing queries. Each kind that is asked stores what answers it quickly.
#[derive(Drop)]
pub struct Standing {
    live: Live<Six>,
    // The queries. The reported answer of each is the one at the last edit.
    set: QuerySet<Query>,
    // The aggregate (*summary*) of each query's elements by the query's kind, in the order of the queries.
    summaries: Vec<KindSummary>,
    kinds: Kinds,
}

impl Model for Standing {
    ghost use Rattle.lv_standing.specs.Standings.{IsStanding, StandingState};

    ghost Value = { StandingState };

    ghost view = { λ a. record { live = a.live; queries = a.set.queries; kinds = a.kinds } };

    ghost invariant = { λ a. IsStanding a.live a.set a.summaries.items a.kinds };
}

impl Standing {
    /// An empty vector, and no queries. Takes no memory.
    pub fn new(alloc: Global, limits: Limits) -> Standing
        ensures history { result.live.history ≡ record { limits = limits; journal = [] } }
        ensures limits { IsLegalInLimits result.live.history }
        ensures queries { result.queries ≡ [] }
        ensures unclaimed { (n : Node) → (recorded result.live).claimed n ≡ None }
        ensures nothing_kept { (n : Node) → (recorded result.live).kept n ≡ None }
    {
        Standing {
            live: Live::new(alloc, limits, Six),
            set: QuerySet::new(alloc, MOST),
            summaries: Vec::new(alloc),
            kinds: Kinds::new(alloc, Automaton::program()),
        }
    }

    /// Registers a query of a range, from index `lo` up to `hi`, as `watch_query` does.
    pub fn watch(&mut self, name: Name, kind: Kind, lo: u32, hi: u32) -> Result<(), Refusal>
        ensures ok { OnOk result ((watch_refusal self.old.queries name lo hi ≡ None)
            × (self.new.queries ≡ self.old.queries ++ between name kind lo hi ∷ [])) }
        ensures err { IfErr result (λ refusal. IsRefusal (watch_refusal self.old.queries name lo hi) refusal) }
        ensures unchanged { OnErr result (self.new.queries ≡ self.old.queries) }
        ensures live { self.new.live ≡ self.old.live }
        ensures others { LeavesOthers kind self.old.kinds self.new.kinds }
    {
        self.watch_query(&Query::between(name, kind, lo, hi))
    }

    /// Registers a query. Refused with `BadRange`, `NameTaken`, `TooMany`, then `NoMemory`. Its span may reach past the end: its answer is
    /// about the elements that exist. Only the query's kind is asked, and no other kind follows more edits for it.
    pub fn watch_query(&mut self, query: &Query) -> Result<(), Refusal>
        ensures ok { OnOk result ((query_refusal 64 self.old.queries query.now ≡ None) × (self.new.queries ≡ self.old.queries ++ query.now ∷ [])) }
        ensures err { IfErr result (λ refusal. IsRefusal (query_refusal 64 self.old.queries query.now) refusal) }
        ensures unchanged { OnErr result (self.new.queries ≡ self.old.queries) }
        ensures live { self.new.live ≡ self.old.live }
        ensures others { LeavesOthers query.now.kind self.old.kinds self.new.kinds }
    {
        if let Some(refusal) = self.set.refusal(query) {
            return Err(refusal);
        }
        let Ok(()) = self.summaries.reserve(1) else {
            return Err(Refusal::NoMemory);
        };
        let summary = ask_span(&self.live, &mut self.kinds, query.kind, query.span);
        match self.set.watch(query, summary.shown()) {
            Err(refusal) => Err(refusal),
            Ok(()) => {
                self.summaries.push_reserved(summary);
                Ok(())
            }
        }
    }

    /// Removes a query. The others keep their order. Refused with `NoSuchName`.
    pub fn unwatch(&mut self, name: Name) -> Result<(), Refusal>
        ensures ok { OnOk result (IsSome (query_of self.old.queries name) × (self.new.queries ≡ without_query self.old.queries name)) }
        ensures err { IfErr result (λ refusal. (query_of self.old.queries name ≡ None) × (refusal ≡ Refusal.NoSuchName)) }
        ensures unchanged { OnErr result (self.new.queries ≡ self.old.queries) }
        ensures live { self.new.live ≡ self.old.live }
        ensures kinds { self.new.kinds ≡ self.old.kinds }
    {
        let Some(place) = self.set.place(&name) else {
            return Err(Refusal::NoSuchName);
        };
        self.set.forget(place);
        self.summaries.remove(place);
        Ok(())
    }

    /// The answer of a query at the last edit. Refused with `NoSuchName`.
    pub fn answer(&self, name: Name) -> Result<Answered, Refusal>
        ensures ok { IfOk result (λ answered. (q : Asked) × (query_of self.now.queries name ≡ Some q)
            × (answered.edit ≡ length self.now.live.history.journal) × (answered.value ≡ watch_answer self.now.live.history.journal q)) }
        ensures err { IfErr result (λ refusal. (query_of self.now.queries name ≡ None) × (refusal ≡ Refusal.NoSuchName)) }
    {
        match self.set.place(&name) {
            Some(place) => Ok(Answered {
                edit: self.live.edit(),
                value: self.set.told()[place],
            }),
            None => Err(Refusal::NoSuchName),
        }
    }

    /// Makes an edit, and returns its notes: one for each query whose note is due, in the order of registration, with the answer after the
    /// edit. Refused with the error of the vector's verdict, then with `NoMemory`: the room for the notes, and for what may be stored by
    /// kind, is made before the edit. A kind follows the edit at once only if a query of that kind has to be asked or many edits have waited.
    pub fn edit(&mut self, alloc: Global, edit: Edit) -> Result<(Receipt, Vec<Note>), Refusal>
        ensures ok { IfOk result (λ told. Accepts self.old.live.history edit told.0 self.new.live.history) }
        ensures err { IfErr result (λ refusal. Refuses self.old.live.history edit refusal self.new.live.history) }
        ensures notes { IfOk result (λ told. AreNotes self.old.live.history.journal self.new.live.history.journal self.old.queries told.1.items) }
        ensures few { IfOk result (λ told. length told.1.items ≤ 64) }
        ensures limits { IsLegalInLimits self.new.live.history }
        ensures refresh { SameRefresh self.old.live self.new.live }
        ensures queries { self.new.queries ≡ self.old.queries }
        ensures others { LeavesOrFollowsUnasked self.new.live.history.journal self.old.queries self.old.kinds self.new.kinds }
    {
        let mut notes = Vec::new(alloc);
        match self.edit_into(edit, &mut notes) {
            Err(refusal) => Err(refusal),
            Ok(receipt) => Ok((receipt, notes)),
        }
    }

    /// Makes an edit as `edit` does, and appends its notes to a list. If the list has room for them, they take no memory. Refused as `edit`
    /// is. After an error no note is added.
    pub fn edit_into(&mut self, edit: Edit, notes: &mut Vec<Note>) -> Result<Receipt, Refusal>
        ensures ok { IfOk result (λ receipt. Accepts self.old.live.history edit receipt self.new.live.history) }
        ensures err { IfErr result (λ refusal. Refuses self.old.live.history edit refusal self.new.live.history) }
        ensures notes { IfOk result (λ _. TellsNotes self.old.live.history.journal self.new.live.history.journal self.old.queries notes.old.items notes.new.items) }
        ensures untold { OnErr result (notes.new.items ≡ notes.old.items) }
        ensures limits { IsLegalInLimits self.new.live.history }
        ensures refresh { SameRefresh self.old.live self.new.live }
        ensures queries { self.new.queries ≡ self.old.queries }
        ensures others { LeavesOrFollowsUnasked self.new.live.history.journal self.old.queries self.old.kinds self.new.kinds }
    {
        let receipt = edit_noted(
            &mut self.live,
            &mut self.kinds,
            &mut self.set,
            &mut self.summaries,
            edit,
            notes,
        )?;
        self.kinds.follow_waiting(self.live.view().cells);
        Ok(receipt)
    }

    /// The value of a kind over the elements from index `lo` up to `hi`. If the range is short, its elements are folded one by one. For a
    /// longer range the kind first follows all edits that it hasn't followed yet, unless the range is the one whose sum was asked for last,
    /// and what the kind stores is asked. Refused with `BadRange`, then `OutOfRange`. Takes no memory.
    pub fn value(&mut self, kind: Kind, lo: u32, hi: u32) -> Result<Answered, Refusal>
        ensures ok { IfOk result (λ answered. IsValue self.old.live.history.journal kind lo hi answered) }
        ensures err { IfErr result (λ refusal. range_refusal self.old.live.history.journal lo hi ≡ Some refusal) }
        ensures live { SameLive self.old.live self.new.live }
        ensures queries { self.new.queries ≡ self.old.queries }
        ensures limits { IsLegalInLimits self.new.live.history }
        ensures same { self.new.live ≡ self.old.live }
        ensures others { LeavesOthers kind self.old.kinds self.new.kinds }
        ensures caught_up { IfOk result (λ _. IsNear kind lo hi self.old.kinds ⊎ IsCaughtUp self.old.live.history.journal kind hi self.new.kinds) }
    {
        value_beside(&self.live, &mut self.kinds, kind, lo, hi)
    }

    /// The live vector.
    pub fn live(&self) -> &Live<Six>
        ensures value { result.now ≡ self.now.live }
        ensures limits { IsLegalInLimits self.now.live.history }
    {
        &self.live
    }

    /// Completes the pending write, if there is one. Changes no answer.
    pub fn settle(&mut self)
        ensures live { SameLive self.old.live self.new.live }
        ensures queries { self.new.queries ≡ self.old.queries }
        ensures kinds { self.new.kinds ≡ self.old.kinds }
    {
        self.live.settle();
    }

    /// A task (*job*) for the least node that needs one, or none. Takes no memory.
    pub fn claim(&mut self) -> Option<Job<Six>>
        ensures next { IsNextJob (recorded self.old.live) (option_map node_and_version result) }
        ensures claimed { HasClaim self.old.live self.new.live (option_map node_and_version result) }
        ensures body { IfSome result (λ job. job.body ≡ self.old.live.body) }
        ensures honest { IfSome result (λ job. IsHonest six_operations
            (recorded self.new.live) job.node job.version job.contents) }
        ensures queries { self.new.queries ≡ self.old.queries }
        ensures kinds { self.new.kinds ≡ self.old.kinds }
    {
        self.live.claim()
    }

    /// Claims a job for the least node that needs one, and keeps it under a number. Returns that number, the node and the version, or none
    /// if no node needs a job. Room was made before. Takes no memory.
    pub fn claim_numbered(&mut self, issued: &mut Issued<Six>) -> Option<(u64, Node, u32)>
        requires room { 0 < issued.old.room }
        ensures step { Step six_operations self.old.live.history.limits (with_issued self.old.live issued.old.jobs) event.Claim (numbered_reply result) (with_issued self.new.live issued.new.jobs) }
        ensures world { IsWorld six_operations self.old.live issued.old.jobs → IsWorld six_operations self.new.live issued.new.jobs }
        ensures history { self.new.live.history ≡ self.old.live.history }
        ensures queries { self.new.queries ≡ self.old.queries }
        ensures kinds { self.new.kinds ≡ self.old.kinds }
        ensures most { issued.new.most ≡ issued.old.most }
        ensures few { length issued.new.jobs ≤ length issued.old.jobs + 1 }
    {
        lv_live::claim(&mut self.live, issued)
    }

    /// Forgets all claims. Results of jobs that were handed out can still be delivered. Takes no memory.
    pub fn forget_claims(&mut self)
        ensures live { HasNoClaims self.old.live self.new.live }
        ensures queries { self.new.queries ≡ self.old.queries }
        ensures kinds { self.new.kinds ≡ self.old.kinds }
    {
        self.live.forget_claims();
    }

    /// Whether a result (*outcome*) may be accepted. It is true for each outcome of a job that this vector handed out. Takes no memory.
    pub fn vet(&self, outcome: &Outcome<Six>) -> bool
        ensures { IsTrue result ↔ Vouched six_operations (recorded self.now.live)
            (⟦<Six as Body>⟧.meaning self.now.live.body ≡ ⟦<Six as Body>⟧.meaning outcome.now.body) outcome.now.node outcome.now.version outcome.now.contents }
    {
        self.live.vet(outcome)
    }

    /// Delivers an outcome: it is outdated (*stale*), or already present (*held*), or its summary is stored (*installed*). Takes no memory.
    pub fn accept(&mut self, outcome: Outcome<Six>) -> Accepted
        requires { Vouched six_operations (recorded self.old.live)
            (⟦<Six as Body>⟧.meaning self.old.live.body ≡ ⟦<Six as Body>⟧.meaning outcome.body) outcome.node outcome.version outcome.contents }
        ensures accepted { result ≡ delivery_of (recorded self.old.live) outcome.node outcome.version }
        ensures delivered { HasDelivery self.old.live self.new.live outcome.node outcome.version result }
        ensures queries { self.new.queries ≡ self.old.queries }
        ensures kinds { self.new.kinds ≡ self.old.kinds }
    {
        self.live.accept(outcome)
    }

    /// Delivers the result of the job with a number, however late and however often. Refused with `NoJob` if no such job was handed out.
    /// Takes no memory.
    pub fn deliver(&mut self, issued: &Issued<Six>, k: u64) -> Result<Accepted, Refusal>
        requires world { IsWorld six_operations self.old.live issued.now.jobs }
        ensures step { Step six_operations self.old.live.history.limits (with_issued self.old.live issued.now.jobs) (event.Deliver k) (accepted_reply result) (with_issued self.new.live issued.now.jobs) }
        ensures world { IsWorld six_operations self.new.live issued.now.jobs }
        ensures history { self.new.live.history ≡ self.old.live.history }
        ensures queries { self.new.queries ≡ self.old.queries }
        ensures kinds { self.new.kinds ≡ self.old.kinds }
    {
        lv_live::deliver(&mut self.live, issued, k)
    }
}
