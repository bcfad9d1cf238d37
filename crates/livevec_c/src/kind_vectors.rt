//! A vector for C: a live one of all six kinds, and what is kept for queries by one kind at a time.
ghost use Rattle.std.specs.Prelude.{◌≡◌, ◌↔◌, ◌≤◌, ◌<◌, IsTrue, true, false, ◌-◌, None, [], length, option_map, IfOk, IfErr, IfSome, Some};
ghost use Rattle.lv_geometry.specs.declared.nodes.Node.{Node};
ghost use Rattle.lv_bodies.specs.Automata.{table_of};
ghost use Rattle.lv_bodies.specs.Six.{six_operations_by};
ghost use Rattle.lv_edits.specs.declared.edit.Edit.{Edit as AnEdit};
ghost use Rattle.lv_edits.specs.Batches.{AnswersEdits, writes_at};
ghost use Rattle.lv_edits.specs.History.{list_of};
ghost use Rattle.lv_edits.specs.Kept.{IsLegalInLimits};
ghost use Rattle.lv_edits.specs.Pushes.{AnswersAll};
ghost use Rattle.lv_edits.specs.Verdict.{Answers};
ghost use Rattle.lv_edits.specs.Ranges.{range_refusal};
ghost use Rattle.lv_refresh.specs.Claim.{IsNextJob};
ghost use Rattle.lv_refresh.specs.Delivery.{delivery_of};
ghost use Rattle.lv_refresh.specs.Honesty.{IsHonest, Vouched};
ghost use Rattle.lv_live.specs.Batches.{DeliversEach};
ghost use Rattle.lv_live.specs.State.{HasClaim, HasDelivery, HasNoClaims, SameRefresh, node_and_version, recorded};
ghost use Rattle.lv_live.specs.Subtrees.{CanTake, HasSubtree};
ghost use Rattle.lv_live.specs.Turns.{TakesTurns};
ghost use Rattle.lv_tree.specs.Asked.{IsKindAnswer};
ghost use Rattle.lv_tree.specs.Where.{IsEndReached, IsFirstIndex, IsLastIndex, IsPlaceOfBest, IsPlaceOfGreatest, IsPlaceOfLeast, IsStartReached};

use lv_bodies::{Automaton, Kind, SixByTable};
use lv_edits::{Edit, Receipt};
use lv_geometry::{Limits, Refusal};
use lv_live::{BatchOutcome, Batched, Live};
use lv_refresh::{Job, Outcome, SubtreeOutcome};
use lv_standing::{make_beside, push_all_beside, write_all_beside, write_beside};
use lv_summary::Accepted;
use lv_tree::{Bound, KindAnswer, Kinds, Placed, Run};
use std::alloc::Global;
use std::marker::Model;

/// A live vector, its limits, and what it keeps for queries by one kind. Contracts see only the live vector, since what is kept changes no answer.
#[derive(Drop)]
pub struct KindVector {
    limits: Limits,
    live: Live<SixByTable>,
    kinds: Kinds,
}

impl Model for KindVector {
    ghost use Rattle.lv_bodies.specs.Six.{SixSummary};
    ghost use Rattle.lv_bodies.specs.declared.sixes.SixByTable.{SixByTable};
    ghost use Rattle.lv_live.specs.State.{LiveState};
    ghost use Rattle.livevec_c.specs.KindVectors.{IsKindVector};

    ghost Value = { LiveState SixByTable SixSummary };

    ghost view = { λ a. a.live };

    ghost invariant = { λ a. IsKindVector a.limits a.live a.kinds };
}

impl KindVector {
    /// An empty vector, for which nothing is claimed and nothing kept. Takes no memory.
    pub fn new(alloc: Global, limits: Limits, automaton: Automaton) -> KindVector
        ensures table { table_of result.body.automaton ≡ table_of automaton }
        ensures history { result.history ≡ record { limits = limits; journal = [] } }
        ensures limits { IsLegalInLimits result.history }
        ensures unclaimed { (n : Node) → (recorded result).claimed n ≡ None }
        ensures nothing_kept { (n : Node) → (recorded result).kept n ≡ None }
    {
        KindVector {
            limits,
            live: Live::new(alloc, limits, SixByTable { automaton }),
            kinds: Kinds::new(alloc, automaton),
        }
    }

    /// The live vector, to be read.
    #[inline(always)]
    pub fn live(&self) -> &Live<SixByTable>
        ensures { result.now ≡ self.now }
    {
        &self.live
    }

    /// How many more edits the limits allow.
    pub fn edits_left(&self) -> u32
        ensures { result ≡ self.now.history.limits.edits - length self.now.history.journal }
    {
        self.live.keeps();
        self.limits.edits() - self.live.edit()
    }

    /// Makes an edit. Refused as `verdict` says, else with `NoMemory`, and nothing has changed then.
    pub fn apply(&mut self, edit: Edit) -> Result<Receipt, Refusal>
        ensures answer { Answers self.old.history edit result self.new.history }
        ensures limits { IsLegalInLimits self.new.history }
        ensures refresh { SameRefresh self.old self.new }
    {
        // This makes it known that the vector is within its limits, also if the edit is refused.
        self.live.keeps();
        match self.live.verdict(&edit) {
            Some(refusal) => Err(refusal),
            None => {
                let answer = make_beside(&mut self.live, &mut self.kinds, edit);
                self.kinds.follow_waiting(self.live.view().cells);
                answer
            }
        }
    }

    /// Overwrites the element at an index, and completes that at once. Refused as `apply` refuses it.
    #[inline(always)]
    pub fn write(&mut self, index: u32, value: i64) -> Result<Receipt, Refusal>
        ensures answer { Answers self.old.history (AnEdit.Write index value) result self.new.history }
        ensures limits { IsLegalInLimits self.new.history }
        ensures refresh { SameRefresh self.old self.new }
    {
        let answer = write_beside(&mut self.live, &mut self.kinds, index, value);
        self.kinds.follow_waiting(self.live.view().cells);
        answer
    }

    /// Pushes values in order, all of them or none, and returns the number of the last edit. Refused as the first push that would be refused, else
    /// with `NoMemory`, and nothing has changed then.
    pub fn push_all(&mut self, values: &[i64]) -> Result<u32, Refusal>
        ensures answer { AnswersAll self.old.history values.now result self.new.history }
        ensures limits { IsLegalInLimits self.new.history }
        ensures refresh { SameRefresh self.old self.new }
    {
        let answer = push_all_beside(&mut self.live, &mut self.kinds, values);
        self.kinds.follow_waiting(self.live.view().cells);
        answer
    }

    /// Writes values at indices in order, all of them or none. Refused as the first write that would be refused, else with `NoMemory`,
    /// and nothing has changed then.
    pub fn write_all(&mut self, indices: &[u32], values: &[i64]) -> Result<u32, Refusal>
        requires paired { length indices.now ≡ length values.now }
        ensures answer { AnswersEdits self.old.history (writes_at indices.now values.now) result self.new.history }
        ensures limits { IsLegalInLimits self.new.history }
        ensures refresh { SameRefresh self.old self.new }
    {
        let answer = write_all_beside(&mut self.live, &mut self.kinds, indices, values);
        self.kinds.follow_waiting(self.live.view().cells);
        answer
    }

    /// The summary by a kind of the elements from index `lo` up to `hi`, with the number of the last edit. Only that kind follows the edits that it
    /// hasn't followed yet. Refused with `BadRange`, then `OutOfRange`. Takes no memory.
    #[inline(always)]
    pub fn value(&mut self, kind: Kind, lo: u32, hi: u32) -> Result<KindAnswer, Refusal>
        ensures ok { IfOk result (λ answer. IsKindAnswer (table_of self.old.body.automaton) self.old.history.journal kind lo hi answer) }
        ensures err { IfErr result (λ refusal. range_refusal self.old.history.journal lo hi ≡ Some refusal) }
        ensures limits { IsLegalInLimits self.old.history }
        ensures same { self.new ≡ self.old }
    {
        self.live.keeps();
        self.kinds.ask(self.live.view().cells, kind, lo, hi)
    }

    /// The first of the least elements of a range, with its index; none of an empty range. Asked and refused as `value`.
    pub fn first_least(&mut self, lo: u32, hi: u32) -> Result<Option<Placed>, Refusal>
        ensures ok { IfOk result (λ place. IsPlaceOfLeast (list_of self.old.history.journal) lo hi place) }
        ensures granted { IfOk result (λ _. range_refusal self.old.history.journal lo hi ≡ None) }
        ensures err { IfErr result (λ refusal. range_refusal self.old.history.journal lo hi ≡ Some refusal) }
        ensures same { self.new ≡ self.old }
    {
        lv_tree::first_least(self.live.view().cells, &mut self.kinds, lo, hi)
    }

    /// The first of the greatest elements of a range, with its index; none of an empty range. Asked and refused as `value`.
    pub fn first_greatest(&mut self, lo: u32, hi: u32) -> Result<Option<Placed>, Refusal>
        ensures ok { IfOk result (λ place. IsPlaceOfGreatest (list_of self.old.history.journal) lo hi place) }
        ensures granted { IfOk result (λ _. range_refusal self.old.history.journal lo hi ≡ None) }
        ensures err { IfErr result (λ refusal. range_refusal self.old.history.journal lo hi ≡ Some refusal) }
        ensures same { self.new ≡ self.old }
    {
        lv_tree::first_greatest(self.live.view().cells, &mut self.kinds, lo, hi)
    }

    /// The best run of a range: of several the one that ends first, and of those the shortest. Asked and refused as `value`.
    pub fn best_run(&mut self, lo: u32, hi: u32) -> Result<Option<Run>, Refusal>
        ensures ok { IfOk result (λ place. IsPlaceOfBest (list_of self.old.history.journal) lo hi place) }
        ensures granted { IfOk result (λ _. range_refusal self.old.history.journal lo hi ≡ None) }
        ensures err { IfErr result (λ refusal. range_refusal self.old.history.journal lo hi ≡ Some refusal) }
        ensures same { self.new ≡ self.old }
    {
        lv_tree::best_run(self.live.view().cells, &mut self.kinds, lo, hi)
    }

    /// The least end up to which the elements from index `lo` on add up to `sum`, or none. Asked and refused as `value`.
    pub fn reaches(&mut self, lo: u32, hi: u32, sum: i128) -> Result<Option<u32>, Refusal>
        ensures ok { IfOk result (λ place. IsEndReached (list_of self.old.history.journal) lo hi sum place) }
        ensures granted { IfOk result (λ _. range_refusal self.old.history.journal lo hi ≡ None) }
        ensures err { IfErr result (λ refusal. range_refusal self.old.history.journal lo hi ≡ Some refusal) }
        ensures same { self.new ≡ self.old }
    {
        lv_tree::reaches(self.live.view().cells, &mut self.kinds, lo, hi, sum)
    }

    /// The greatest start from which on the elements up to index `hi` add up to `sum`, or none. Asked and refused as `value`.
    pub fn reaches_back(&mut self, lo: u32, hi: u32, sum: i128) -> Result<Option<u32>, Refusal>
        ensures ok { IfOk result (λ place. IsStartReached (list_of self.old.history.journal) lo hi sum place) }
        ensures granted { IfOk result (λ _. range_refusal self.old.history.journal lo hi ≡ None) }
        ensures err { IfErr result (λ refusal. range_refusal self.old.history.journal lo hi ≡ Some refusal) }
        ensures same { self.new ≡ self.old }
    {
        lv_tree::reaches_back(self.live.view().cells, &mut self.kinds, lo, hi, sum)
    }

    /// The first index of a range whose element is within a bound, or none. Asked and refused as `value`.
    pub fn first_index(&mut self, bound: Bound, lo: u32, hi: u32) -> Result<Option<u32>, Refusal>
        ensures ok { IfOk result (λ place. IsFirstIndex bound (list_of self.old.history.journal) lo hi place) }
        ensures granted { IfOk result (λ _. range_refusal self.old.history.journal lo hi ≡ None) }
        ensures err { IfErr result (λ refusal. range_refusal self.old.history.journal lo hi ≡ Some refusal) }
        ensures same { self.new ≡ self.old }
    {
        lv_tree::first_index(self.live.view().cells, &mut self.kinds, bound, lo, hi)
    }

    /// The last index of a range whose element is within a bound, or none. Asked and refused as `value`.
    pub fn last_index(&mut self, bound: Bound, lo: u32, hi: u32) -> Result<Option<u32>, Refusal>
        ensures ok { IfOk result (λ place. IsLastIndex bound (list_of self.old.history.journal) lo hi place) }
        ensures granted { IfOk result (λ _. range_refusal self.old.history.journal lo hi ≡ None) }
        ensures err { IfErr result (λ refusal. range_refusal self.old.history.journal lo hi ≡ Some refusal) }
        ensures same { self.new ≡ self.old }
    {
        lv_tree::last_index(self.live.view().cells, &mut self.kinds, bound, lo, hi)
    }

    /// Does jobs in place, the least first, at most `jobs` of them, and returns how many it did.
    pub fn refresh(&mut self, jobs: u32) -> u32
        ensures turns { TakesTurns (six_operations_by (table_of self.old.body.automaton)) self.old self.new result }
        ensures most { result ≤ jobs }
        ensures idle { result < jobs → IsNextJob (recorded self.new) None }
    {
        self.live.refresh(jobs)
    }

    /// A job for the least node that needs one, or none. Takes no memory.
    pub fn claim(&mut self) -> Option<Job<SixByTable>>
        ensures next { IsNextJob (recorded self.old) (option_map node_and_version result) }
        ensures claimed { HasClaim self.old self.new (option_map node_and_version result) }
        ensures body { IfSome result (λ job. job.body ≡ self.old.body) }
        ensures honest { IfSome result (λ job. IsHonest (six_operations_by (table_of self.old.body.automaton)) (recorded self.new) job.node job.version job.contents) }
    {
        self.live.claim()
    }

    /// Forgets all claims. Takes no memory.
    pub fn forget_claims(&mut self)
        ensures forgotten { HasNoClaims self.old self.new }
    {
        self.live.forget_claims();
    }

    /// Whether an outcome may be accepted: yes for each outcome of a job that this vector handed out. Takes no memory.
    pub fn vet(&self, outcome: &Outcome<SixByTable>) -> bool
        ensures { IsTrue result ↔ Vouched (six_operations_by (table_of self.now.body.automaton)) (recorded self.now)
            (table_of self.now.body.automaton ≡ table_of outcome.now.body.automaton) outcome.now.node outcome.now.version outcome.now.contents }
    {
        self.live.vet(outcome)
    }

    /// Delivers an outcome: it is stale, or held already, or its summary is installed. Takes no memory.
    pub fn accept(&mut self, outcome: Outcome<SixByTable>) -> Accepted
        requires { Vouched (six_operations_by (table_of self.old.body.automaton)) (recorded self.old)
            (table_of self.old.body.automaton ≡ table_of outcome.body.automaton) outcome.node outcome.version outcome.contents }
        ensures accepted { result ≡ delivery_of (recorded self.old) outcome.node outcome.version }
        ensures delivered { HasDelivery self.old self.new outcome.node outcome.version result }
    {
        self.live.accept(outcome)
    }

    /// Takes in the outcomes, in order, each one as `accept` would, if `vet` says yes. One of another vector changes nothing. Takes no memory.
    pub fn accept_batch(&mut self, outcomes: &BatchOutcome<SixByTable>) -> Batched
        ensures delivers { DeliversEach (six_operations_by (table_of self.old.body.automaton)) (λ body. table_of self.old.body.automaton ≡ table_of body.automaton) outcomes.now self.old self.new result }
        ensures body { self.new.body ≡ self.old.body }
        ensures history { self.new.history ≡ self.old.history }
    {
        self.live.accept_batch(outcomes)
    }

    /// Takes a subtree in, if it wasn't taken in yet and the vector still has the elements that it was computed from. Then it returns yes, and the
    /// outcome is spent. Otherwise nothing has changed. Takes no memory.
    pub fn accept_subtree(&mut self, outcome: &mut SubtreeOutcome<SixByTable>) -> bool
        ensures answer { IsTrue result ↔ CanTake (λ body. table_of self.old.body.automaton ≡ table_of body.automaton) self.old.history.journal outcome.old }
        ensures kept { result ≡ true → IfSome outcome.old (λ copied. HasSubtree self.old self.new copied.number) }
        ensures spent { result ≡ true → outcome.new ≡ None }
        ensures refused { result ≡ false → (self.new ≡ self.old) × (outcome.new ≡ outcome.old) }
    {
        self.live.accept_subtree(outcome)
    }
}
