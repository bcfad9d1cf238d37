//! The hub: a lock around a desk. Each call of the hub makes one call of the desk.
ghost use Rattle.std.specs.Prelude.{◌≡◌, ◌↔◌, ◌<◌, ◌≤◌, true, false, [], All, IfOk, IfSome, OnOk, length, map, Err, None, Some};
ghost use mathlib.Core.List.{IsPrefix};
ghost use Rattle.lv_geometry.specs.Elements.{IsElement};
ghost use Rattle.lv_edits.specs.History.{list_of};
ghost use Rattle.lv_transcript.specs.Transcript.{AreAccepted, greatest};
ghost use Rattle.lv_hub.specs.Counting.{Counts, having_seen};
ghost use Rattle.lv_hub.specs.Logging.{CameSince, entry_of};
ghost use Rattle.lv_hub.specs.Renewing.{IsClosed, IsMadeOf, IsOfOneVector, IsVector, lasting, opened_limits, renewed_after, vector_limits};
ghost use Rattle.lv_hub.specs.Told.{ClaimTold, EditTold, DeliveryTold, ReadsTold, ReductionTold, ScanTold, StretchTold, ValueTold, receipt_at};

use crate::desks::Desk;
use crate::log_entry::LogEntry;
use crate::shares::Share;
use crate::tap::Came;
use lv_bodies::{Body, Kind};
use lv_edits::{Edit, Receipt};
use lv_geometry::{Limits, Refusal};
use lv_history::{HistoryPrefix, Opened, WithBody};
use lv_live::Live;
use lv_reduce::{Answer, Scan, Stretch};
use lv_refresh::{Job, Outcome};
use lv_standing::Answered;
use lv_summary::Accepted;
use lv_tree::Kinds;
use std::alloc::Global;
use std::marker::Model;
use std::sync::ledger::Blank;
use std::sync::{Condvar, Mutex, Wait};
use std::thread::Threads;

/// A live vector that threads share. Each of its calls except `new` and `close` waits for the lock, and holds it for one call of the desk. Its
/// updates are one list, which only grows. Contracts see the hub as its monoid instance. A share that is passed to a call is one of this hub.
#[derive(Drop)]
pub struct Hub<B: Body, N: WithBody<B>> {
    pub(crate) desk: Mutex<Desk<B, N>>,
    // Where workers sleep.
    pub(crate) bell: Condvar,
    // Where subscribers sleep.
    pub(crate) news: Condvar,
    // The vector's monoid instance.
    body: B,
}

impl<B: Body, N: WithBody<B>> Model for Hub<B, N> {
    ghost use Rattle.std.specs.Prelude.{◌≡◌, Some};

    ghost Value = { B };

    ghost view = { λ h. h.body };

    ghost invariant = { λ h. N.body ≡ Some h.body };
}

impl<B: Body, N: WithBody<B>> Hub<B, N> {
    /// An empty vector, with a share of all parts of the blank's ledger, which counts nothing and has seen nothing. Its updates go into the
    /// history that was opened. Allocates no memory.
    pub fn new(
        alloc: Global,
        limits: Limits,
        body: B,
        blank: Blank,
        parts: u64,
        opened: Opened,
    ) -> (Hub<B, N>, Share<N>)
        requires name { blank.name ≡ N.name }
        requires all { blank.parts ≡ N.parts }
        requires parts { blank.parts ≡ parts }
        requires some { 0 < parts }
        requires limits { limits ≡ N.limits }
        requires history { opened ≡ N.history }
        requires body { N.body ≡ Some body }
        ensures body { result.0 ≡ body }
        ensures one { IsOfOneVector N.limits }
        ensures share { result.1 ≡ record { parts = parts; count = 0; seen = [] } }
    {
        let (desk, share) = Desk::new(alloc, limits, body, blank, parts, opened);
        (Hub::of_desk(desk, body), share)
    }

    /// Does what `new` does, for a hub of one vector or, if it lasts, for a hub that continues when its vector's updates are used up. The vector
    /// has these limits, and is made anew before that happens (`renew`). Between the two an update is refused with `NoMemory`.
    pub fn open(
        alloc: Global,
        limits: Limits,
        lasts: bool,
        body: B,
        blank: Blank,
        parts: u64,
        opened: Opened,
    ) -> (Hub<B, N>, Share<N>)
        requires name { blank.name ≡ N.name }
        requires all { blank.parts ≡ N.parts }
        requires parts { blank.parts ≡ parts }
        requires some { 0 < parts }
        requires limits { N.limits ≡ opened_limits lasts limits }
        requires many { lasts ≡ true → limits.edits ≡ 16777215 }
        requires history { opened ≡ N.history }
        requires body { N.body ≡ Some body }
        ensures body { result.0 ≡ body }
        ensures share { result.1 ≡ record { parts = parts; count = 0; seen = [] } }
    {
        let (desk, share) = Desk::open(alloc, limits, lasts, body, blank, parts, opened);
        (Hub::of_desk(desk, body), share)
    }

    // A lock around a desk.
    fn of_desk(desk: Desk<B, N>, body: B) -> Hub<B, N>
        requires { N.body ≡ Some body }
        ensures { result ≡ body }
    {
        Hub {
            desk: Mutex::new(desk),
            bell: Condvar::new(),
            news: Condvar::new(),
            body,
        }
    }

    /// Makes the updates that a hub begins with, with a share that has all parts and counts none, so that the hub has no others then. Stops at
    /// the first one that is refused, as `edit` refuses it.
    pub fn begin<R: Wait>(
        &self,
        rt: &R,
        share: &mut Share<N>,
        edits: &[Edit],
    ) -> Result<(), Refusal>
        requires parts { share.old.parts ≡ N.parts }
        requires count { share.old.count ≡ 0 }
        ensures { OnOk result (share.new ≡ record share.old { count = length edits.now; seen = edits.now }) }
    {
        self.desk.lock(rt).begin(share, edits)
    }

    /// Makes an update, and counts it on the share if it is accepted. The share then sees all updates, and its own is the last. Refused as
    /// `Live::apply` is.
    pub fn edit<R: Wait>(
        &self,
        rt: &R,
        share: &mut Share<N>,
        edit: Edit,
    ) -> Result<Receipt, Refusal>
        ensures told { EditTold N.limits share.old.seen share.new.seen edit result }
        // The vector of a hub that is never made anew has the same update numbers as the hub.
        ensures number { IsOfOneVector N.limits → result ≡ receipt_at (length share.new.seen) result }
        ensures counts { Counts (having_seen share.old share.new.seen) result share.new }
    {
        let mut desk = self.desk.lock(rt);
        let answer = desk.edit(share, edit);
        let (wakes, calls) = desk.wakes_after(answer);
        drop(desk);
        self.wake(wakes, calls);
        answer
    }

    /// The fold of the elements from index `lo` up to `hi`, at the last update. The share sees all updates up to it. Refused as `Live::reduce`
    /// is. Allocates no memory.
    pub fn reduce<R: Wait>(
        &self,
        rt: &R,
        share: &mut Share<N>,
        lo: u32,
        hi: u32,
    ) -> Result<Answer<B::S>, Refusal>
        ensures told { ReductionTold (B.operations self.now) N.limits share.old.seen share.new.seen lo hi result }
        ensures reads { IsOfOneVector N.limits → ReadsTold B (B.operations self.now) N.limits share.new.seen lo hi result }
        ensures number { IsOfOneVector N.limits → IfOk result (λ answer. answer.edit ≡ length share.new.seen) }
        ensures share { share.new ≡ having_seen share.old share.new.seen }
        ensures bad_range { (result ≡ Err Refusal.BadRange) ↔ (hi < lo) }
    {
        let mut desk = self.desk.lock(rt);
        desk.show(share);
        desk.live().reduce(lo, hi)
    }

    /// The plain value of a kind over the elements from index `lo` up to `hi`, at the last update. The share sees all updates up to it. Each kind
    /// has a tree, which follows the updates since the kind's last question. A question costs O(log n) and the time to follow those. Refused with
    /// `BadRange`, then `OutOfRange`. Allocates no memory.
    pub fn value<R: Wait>(
        &self,
        rt: &R,
        share: &mut Share<N>,
        kind: Kind,
        lo: u32,
        hi: u32,
    ) -> Result<Answered, Refusal>
        ensures told { ValueTold N.limits share.old.seen share.new.seen kind lo hi result }
        ensures number { IsOfOneVector N.limits → IfOk result (λ answered. answered.edit ≡ length share.new.seen) }
        ensures share { share.new ≡ having_seen share.old share.new.seen }
        ensures bad_range { (result ≡ Err Refusal.BadRange) ↔ (hi < lo) }
    {
        let mut desk = self.desk.lock(rt);
        desk.show(share);
        desk.value(kind, lo, hi)
    }

    /// The inclusive running folds of the elements from index `lo` up to `hi`, computed from a copy by several threads after the lock is
    /// released. Refused as `Live::scan_inclusive` is.
    pub fn scan_inclusive<R: Threads + Wait + Sync>(
        &self,
        rt: &R,
        alloc: Global,
        share: &mut Share<N>,
        lo: u32,
        hi: u32,
    ) -> Result<Scan<B::S>, Refusal>
        ensures told { ScanTold (B.operations self.now) N.limits share.old.seen share.new.seen lo hi true result }
        ensures number { IsOfOneVector N.limits → IfOk result (λ scan. scan.edit ≡ length share.new.seen) }
        ensures share { share.new ≡ having_seen share.old share.new.seen }
        ensures bad_range { (result ≡ Err Refusal.BadRange) ↔ (hi < lo) }
    {
        self.scan(rt, alloc, share, lo, hi, true)
    }

    /// The exclusive running folds of the elements from index `lo` up to `hi`, computed as the inclusive ones are. Refused as
    /// `Live::scan_exclusive` is.
    pub fn scan_exclusive<R: Threads + Wait + Sync>(
        &self,
        rt: &R,
        alloc: Global,
        share: &mut Share<N>,
        lo: u32,
        hi: u32,
    ) -> Result<Scan<B::S>, Refusal>
        ensures told { ScanTold (B.operations self.now) N.limits share.old.seen share.new.seen lo hi false result }
        ensures number { IsOfOneVector N.limits → IfOk result (λ scan. scan.edit ≡ length share.new.seen) }
        ensures share { share.new ≡ having_seen share.old share.new.seen }
        ensures bad_range { (result ≡ Err Refusal.BadRange) ↔ (hi < lo) }
    {
        self.scan(rt, alloc, share, lo, hi, false)
    }

    // One of the two scans, of a copy that is made under the lock.
    fn scan<R: Threads + Wait + Sync>(
        &self,
        rt: &R,
        alloc: Global,
        share: &mut Share<N>,
        lo: u32,
        hi: u32,
        inclusive: bool,
    ) -> Result<Scan<B::S>, Refusal>
        ensures told { ScanTold (B.operations self.now) N.limits share.old.seen share.new.seen lo hi inclusive result }
        ensures number { IsOfOneVector N.limits → IfOk result (λ scan. scan.edit ≡ length share.new.seen) }
        ensures share { share.new ≡ having_seen share.old share.new.seen }
        ensures bad_range { (result ≡ Err Refusal.BadRange) ↔ (hi < lo) }
    {
        let stretch = self.copy_range(rt, alloc, share, lo, hi)?;
        stretch.scan(rt, alloc, inclusive)
    }

    // The elements of a range, copied under the lock.
    pub(crate) fn copy_range<R: Wait>(
        &self,
        rt: &R,
        alloc: Global,
        share: &mut Share<N>,
        lo: u32,
        hi: u32,
    ) -> Result<Stretch<B>, Refusal>
        ensures told { StretchTold self.now N.limits share.old.seen share.new.seen lo hi result }
        ensures number { IsOfOneVector N.limits → IfOk result (λ stretch. stretch.edit ≡ length share.new.seen) }
        ensures share { share.new ≡ having_seen share.old share.new.seen }
    {
        let mut desk = self.desk.lock(rt);
        desk.show(share);
        desk.live().copy_range(alloc, lo, hi)
    }

    /// Makes an update as `edit` does. If a log has no room for it, returns none, and nothing has changed.
    pub fn try_edit<R: Wait>(
        &self,
        rt: &R,
        share: &mut Share<N>,
        edit: Edit,
    ) -> Option<Result<Receipt, Refusal>>
        ensures told { IfSome result (λ answer. EditTold N.limits share.old.seen share.new.seen edit answer) }
        ensures counts { IfSome result (λ answer. Counts (having_seen share.old share.new.seen) answer share.new) }
        ensures unchanged { result ≡ None → share.new ≡ share.old }
    {
        let mut desk = self.desk.lock(rt);
        if !desk.has_place() {
            return None;
        }
        let answer = desk.edit(share, edit);
        let (wakes, calls) = desk.wakes_after(answer);
        drop(desk);
        self.wake(wakes, calls);
        Some(answer)
    }

    /// Returns what `value` does, and keeps the answer for the log, if there is one. `entry` becomes its number among the log's entries: the log
    /// must have been written up to it before the answer is sent. If the log has no room for the answer, returns none, and nothing has changed.
    pub fn try_value<R: Wait>(
        &self,
        rt: &R,
        share: &mut Share<N>,
        entry: &mut u64,
        kind: Kind,
        lo: u32,
        hi: u32,
    ) -> Option<Result<Answered, Refusal>>
        ensures told { IfSome result (λ answer. ValueTold N.limits share.old.seen share.new.seen kind lo hi answer) }
        ensures number { IsOfOneVector N.limits → IfSome result (λ answer. IfOk answer (λ answered. answered.edit ≡ length share.new.seen)) }
        ensures share { share.new ≡ having_seen share.old share.new.seen }
        ensures unchanged { result ≡ None → share.new ≡ share.old }
        ensures unlogged { result ≡ None → entry.new ≡ entry.old }
    {
        let mut desk = self.desk.lock(rt);
        if !desk.has_place() {
            return None;
        }
        desk.show(share);
        let answer = desk.value_logged(kind, lo, hi);
        *entry = desk.given();
        Some(answer)
    }

    // The vector's monoid instance.
    pub(crate) fn body(&self) -> B
        ensures { N.body ≡ Some result }
    {
        self.body
    }

    // Has the hub keep what comes for a log.
    pub(crate) fn tap<R: Wait>(&self, rt: &R, entries: Vec<LogEntry>)
        requires { entries.items ≡ [] }
    {
        self.desk.lock(rt).tap(entries);
    }

    // Lets a prefix of this hub see all updates, hands over what came for a log and after which update it began, and puts a list without entries
    // in its place.
    pub(crate) fn hand_over<R: Wait>(
        &self,
        rt: &R,
        prefix: &mut HistoryPrefix<N>,
        entries: &mut Vec<LogEntry>,
    ) -> Option<Came>
        requires { entries.old.items ≡ [] }
        ensures begins { IsPrefix prefix.old prefix.new }
        ensures came { IfSome result (λ came. CameSince (renewed_after came.renewed prefix.new) came.from (map entry_of entries.new.items)) }
        ensures some { IfSome result (λ came. came.renewed ≤ length prefix.new) }
    {
        self.desk.lock(rt).hand_over(prefix, entries)
    }

    // Copies the elements, if a prefix has seen all updates. Refused as `Desk::copy_elements` is.
    pub(crate) fn copy_elements<R: Wait>(
        &self,
        rt: &R,
        alloc: Global,
        prefix: &HistoryPrefix<N>,
    ) -> Result<Stretch<B>, Refusal>
        ensures elements { IfOk result (λ copied. copied.elements ≡ list_of prefix.now) }
        ensures few { IfOk result (λ copied. length copied.elements ≤ 1048568) }
        ensures all { IfOk result (λ copied. All IsElement copied.elements) }
    {
        self.desk.lock(rt).copy_elements(alloc, prefix)
    }

    // Replaces the hub's vector by a new one, as `Desk::renew` does, and wakes a worker, which may find jobs there.
    pub(crate) fn renew<R: Wait>(
        &self,
        rt: &R,
        prefix: &HistoryPrefix<N>,
        live: &mut Live<B>,
        kinds: &mut Kinds,
        entries: Vec<LogEntry>,
    ) -> bool
        requires lasts { N.limits ≡ lasting N.limits }
        requires made { IsMadeOf (vector_limits N.limits) N.body (list_of prefix.now) live.old kinds.old }
        requires entries { entries.items ≡ [] }
    {
        let mut desk = self.desk.lock(rt);
        let is_renewed = desk.renew(prefix, live, kinds, entries);
        let wakes = is_renewed && desk.wakes_another();
        drop(desk);
        self.wake(wakes, false);
        is_renewed
    }

    /// A job for the least node that needs one, or none. Allocates no memory.
    pub fn claim<R: Wait>(&self, rt: &R) -> Option<Job<B>>
        ensures { ClaimTold (B.operations self.now) self.now (vector_limits N.limits) result }
    {
        self.desk.lock(rt).claim()
    }

    /// Delivers an outcome. Refused with `Stranger` if its node is full and was last touched by the update that it names, and its monoid instance
    /// or its contents are not this vector's. Allocates no memory.
    pub fn give<R: Wait>(&self, rt: &R, outcome: Outcome<B>) -> Result<Accepted, Refusal>
        ensures { DeliveryTold B.meaning B.operations self.now (vector_limits N.limits) outcome result }
    {
        self.desk.lock(rt).give(outcome)
    }

    /// The vector, once all threads are done. The share that is handed in has all parts. The vector has the elements that there are after all
    /// updates. If it was never made anew, it has as many updates as the share counts, and begins with all that the share has seen. Each of its
    /// updates would be accepted within the greatest limits.
    pub fn close(self, share: Share<N>) -> Live<B>
        requires { share.parts ≡ N.parts }
        ensures counted { IsOfOneVector N.limits → length result.history.journal ≡ share.count }
        ensures vector { IsOfOneVector N.limits → IsVector N.limits result.history }
        ensures body { result.body ≡ self }
        ensures seen { IsOfOneVector N.limits → IsPrefix share.seen result.history.journal }
        ensures accepted { AreAccepted greatest result.history.journal }
    {
        let (live, edits) = self.finish(share);
        drop(edits);
        live
    }

    /// Returns what `close` does, together with all updates of the hub.
    pub fn finish(self, share: Share<N>) -> (Live<B>, HistoryPrefix<N>)
        requires { share.parts ≡ N.parts }
        ensures counted { length result.1 ≡ share.count }
        ensures seen { IsPrefix share.seen result.1 }
        ensures closed { IsClosed N.limits result.1 result.0.history }
        ensures body { result.0.body ≡ self }
    {
        self.desk.into_inner().finish(share)
    }
}
