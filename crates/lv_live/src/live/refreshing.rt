//! Refresh of a live vector: claims of jobs, turns in place, and what is delivered.
ghost use Rattle.std.specs.Prelude.{◌≡◌, ◌↔◌, ◌<◌, ◌≤◌, IsTrue, None, option_map, IfSome, true, false};
ghost use Rattle.lv_geometry.specs.declared.nodes.Node.{Node};
ghost use Rattle.lv_refresh.specs.Claim.{IsNextJob};
ghost use Rattle.lv_refresh.specs.Delivery.{delivery_of};
ghost use Rattle.lv_refresh.specs.Honesty.{IsHonest, Vouched};
ghost use Rattle.lv_live.specs.State.{CanRemake, HasClaim, HasDelivery, HasNoClaims, Remembers, node_and_version, recorded};
ghost use Rattle.lv_live.specs.Turns.{TakesTurn, TakesTurns};

use crate::delivering::deliver_anew;
use crate::live::Live;
use crate::vouching::stands_here;
use lv_bodies::Body;
use lv_geometry::Node;
use lv_refresh::{Job, Outcome};
use lv_summary::Accepted;

impl<B: Body> Live<B> {
    /// A job for the least node that wants one, or none. Takes no memory.
    #[inline(always)]
    pub fn claim(&mut self) -> Option<Job<B>>
        ensures next { IsNextJob (recorded self.old) (option_map node_and_version result) }
        ensures claimed { HasClaim self.old self.new (option_map node_and_version result) }
        ensures body { IfSome result (λ job. job.body ≡ self.old.body) }
        ensures honest { IfSome result (λ job. IsHonest (B.operations self.old.body) (recorded self.new) job.node job.version job.contents) }
        ensures remembers { Remembers self.old self.new }
    {
        self.claims.claim(&self.history, &self.table, self.body)
    }

    /// Does jobs in place, the least first, at most so many: each is claimed, run and delivered. Returns how many it did. These are fewer than
    /// allowed only if no node wants a job any longer. Takes no memory.
    pub fn refresh(&mut self, jobs: u32) -> u32
        ensures turns { TakesTurns (B.operations self.old.body) self.old self.new result }
        ensures most { result ≤ jobs }
        ensures idle { result < jobs → IsNextJob (recorded self.new) None }
        ensures remembers { Remembers self.old self.new }
    {
        self.complete();
        self.take_turns(jobs)
    }

    // Completes what is pending, so that elements can be folded in their cells.
    fn complete(&mut self)
        ensures { self.new ≡ self.old }
    {
        let history = &mut self.history;
        history.settle();
    }

    // Takes turns, at most so many, while a node wants a job.
    #[inline(always)]
    fn take_turns(&mut self, jobs: u32) -> u32
        ensures turns { TakesTurns (B.operations self.old.body) self.old self.new result }
        ensures most { result ≤ jobs }
        ensures idle { result < jobs → IsNextJob (recorded self.new) None }
        ensures remembers { Remembers self.old self.new }
    {
        let swept = self.take_block_turns(jobs);
        for done in swept..jobs {
            if !self.take_turn() {
                return done;
            }
        }
        jobs
    }

    // Takes turns of blocks, at most so many, while many neighbouring blocks want a job.
    #[inline(always)]
    fn take_block_turns(&mut self, jobs: u32) -> u32
        ensures turns { TakesTurns (B.operations self.old.body) self.old self.new result }
        ensures most { result ≤ jobs }
        ensures remembers { Remembers self.old self.new }
    {
        self.claims
            .refresh_blocks(&self.history, &mut self.table, &self.body, jobs)
    }

    // Claims the least node that wants a job, computes its summary without copying its contents, and installs it. Returns whether a node wanted
    // one. No job is made, since jobs are wide.
    #[inline(always)]
    fn take_turn(&mut self) -> bool
        ensures turn { result ≡ true → TakesTurn self.old self.new }
        ensures idle { result ≡ false → IsNextJob (recorded self.old) None }
        ensures same { result ≡ false → HasClaim self.old self.new None }
        ensures remembers { Remembers self.old self.new }
    {
        self.claims
            .refresh_next(&self.history, &mut self.table, &self.body)
    }

    /// Forgets all claims. Jobs that were handed out stay good. Takes no memory.
    pub fn forget_claims(&mut self)
        ensures forgotten { HasNoClaims self.old self.new }
        ensures remembers { Remembers self.old self.new }
    {
        self.claims.forget_claims();
    }

    /// Whether an outcome may be accepted: its node isn't whole, or was touched by another edit last, or what it carries, its body included, is
    /// what the vector has now. Yes for each outcome of a job that this vector handed out. Takes no memory.
    #[inline(always)]
    pub fn vet(&self, outcome: &Outcome<B>) -> bool
        ensures { IsTrue result ↔ Vouched (B.operations self.now.body) (recorded self.now)
            (B.meaning self.now.body ≡ B.meaning outcome.now.body) outcome.now.node outcome.now.version outcome.now.contents }
    {
        let node = outcome.node();
        if !self.table.whole(node) || self.table.touched(node) != outcome.version() {
            return true;
        }
        let contents = outcome.as_contents();
        self.body.same(&outcome.body())
            && stands_here(&self.body, &self.history, &self.table, node, contents)
    }

    /// Delivers an outcome: it is stale, or held already, or its summary is installed. Takes no memory.
    #[inline(always)]
    pub fn accept(&mut self, outcome: Outcome<B>) -> Accepted
        requires { Vouched (B.operations self.old.body) (recorded self.old)
            (B.meaning self.old.body ≡ B.meaning outcome.body) outcome.node outcome.version outcome.contents }
        ensures accepted { result ≡ delivery_of (recorded self.old) outcome.node outcome.version }
        ensures delivered { HasDelivery self.old self.new outcome.node outcome.version result }
        ensures remembers { Remembers self.old self.new }
    {
        let node = outcome.node();
        let accepted = self
            .table
            .install(node, outcome.version(), outcome.summary());
        if let Accepted::Installed = accepted {
            self.claims.hint_parent(node);
        }
        accepted
    }

    /// Delivers what a job of this vector gave, given only the job's node and version. If the outcome is to be installed, the vector still has
    /// what the job carried, and so its summary is computed anew. Takes no memory.
    pub fn deliver(&mut self, node: Node, version: u32) -> Accepted
        requires { CanRemake (recorded self.old) node version }
        ensures accepted { result ≡ delivery_of (recorded self.old) node version }
        ensures delivered { HasDelivery self.old self.new node version result }
        ensures remembers { Remembers self.old self.new }
    {
        deliver_anew(
            &mut self.claims,
            &self.history,
            &mut self.table,
            &self.body,
            node,
            version,
        )
    }
}
