//! Claims: which nodes are claimed, hints at those that may want a job, and the next job.
ghost use Rattle.std.specs.Prelude.{◌≡◌, ℕ, ◌+◌, ◌*◌, ◌/◌, ◌<◌, ◌≤◌, ◌&&◌, ◌||◌, not, true, false, None, Some, length, option_map, IfSome, IfNone, OnOk, OnErr, IfErr, if◌then◌else◌};
ghost use Rattle.lv_geometry.specs.Levels.{thing_at};
ghost use Rattle.lv_geometry.specs.Nodes.{is_below, is_node, over, parent, same_node};
ghost use Rattle.lv_summary.specs.Agrees.{Agrees};
ghost use Rattle.lv_refresh.specs.Claim.{IsNextJob};
ghost use Rattle.lv_refresh.specs.ClaimTable.{AreHints, claim_blocks, claimed_in, is_hinted, record_of};
ghost use Rattle.lv_refresh.specs.Honesty.{Stands};
ghost use Rattle.lv_refresh.specs.Refreshed.{RefreshesNext};
ghost use Rattle.lv_refresh.specs.Inner.{AreFilled, CanServe, GivesNext, HaveRoom, HaveSameRows, HintsNode, HintsWants, ServesNext, UnhintsSubtree, node_at};
ghost use Rattle.lv_refresh.specs.Subtrees.{is_block_of};

mod handing;
mod sweeps;

use crate::computing::refresh_node;
use crate::jobs::Job;
use crate::level::Level;
use crate::wants::wanted;
use handing::job_of;
use lv_bodies::Body;
use lv_edits::Edits;
use lv_geometry::{Levels, Node, Refusal, rows_of};
use lv_summary::Summaries;
use std::alloc::Global;
use std::marker::Model;

/// Which nodes are claimed, and hints at those that may want a job. Whoever keeps it together with a table reports each touch and install to it,
/// so that every node that wants a job is hinted at; a hint at any other node is only looked at.
#[derive(Drop)]
pub struct Claims {
    levels: Levels<Level>,
}

impl Model for Claims {
    ghost use Rattle.lv_refresh.specs.ClaimTable.{ClaimTable};
    ghost use Rattle.lv_refresh.specs.Inner.{AreClaims, claims_of};

    ghost Value = { ClaimTable };

    ghost view = { λ a. claims_of a.levels };

    ghost invariant = { λ a. AreClaims (claims_of a.levels) };
}

impl Claims {
    /// No claims, and room for none. Takes no memory.
    pub fn new(alloc: Global) -> Claims
        ensures blocks { claim_blocks result ≡ 0 }
        ensures claimed { (n : Node) → claimed_in result n ≡ None }
    {
        Claims {
            levels: Levels {
                level_1: Level::new(alloc),
                level_2: Level::new(alloc),
                level_3: Level::new(alloc),
                level_4: Level::new(alloc),
                level_5: Level::new(alloc),
                level_6: Level::new(alloc),
            },
        }
    }

    /// Makes rows for so many blocks, and for the nodes above them. Refused with `NoMemory`.
    pub fn grow(&mut self, blocks: u32) -> Result<(), Refusal>
        requires { blocks ≤ 131071 }
        ensures claimed { (n : Node) → claimed_in self.new n ≡ claimed_in self.old n }
        ensures hints { (n : Node) → is_hinted self.old n ≡ true → is_hinted self.new n ≡ true }
        ensures more { claim_blocks self.old ≤ claim_blocks self.new }
        ensures ok { OnOk result (blocks ≤ claim_blocks self.new) }
        ensures err { IfErr result (λ refusal. refusal ≡ Refusal.NoMemory) }
        ensures unchanged { OnErr result (self.new ≡ self.old) }
    {
        let rows = rows_of(blocks);
        reserve_levels(&mut self.levels, &rows)?;
        fill_levels(&mut self.levels, &rows);
        Ok(())
    }

    /// How many blocks have rows.
    pub fn blocks(&self) -> u32
        ensures value { result ≡ claim_blocks self.now }
        ensures bound { result ≤ 131071 }
    {
        self.levels.level_1.rows() as u32
    }

    /// Takes note that an edit touched index `i`, so that its block may want a job. No node above can, before the summary of its child is
    /// installed again.
    #[inline(always)]
    pub fn touch(&mut self, i: u32)
        requires { i / 8 < claim_blocks self.old }
        ensures claimed { (n : Node) → claimed_in self.new n ≡ claimed_in self.old n }
        ensures hints { (n : Node) → is_hinted self.new n ≡ (same_node n (over 1 i) || is_hinted self.old n) }
        ensures blocks { claim_blocks self.new ≡ claim_blocks self.old }
    {
        self.levels.level_1.hint(i / 8);
    }

    /// Takes note that a summary was installed for a node, so that its parent may want a job.
    #[inline]
    pub fn hint_parent(&mut self, node: Node)
        requires member { is_node node ≡ true }
        requires inside { is_below node (8 * claim_blocks self.old) ≡ true }
        ensures claimed { (n : Node) → claimed_in self.new n ≡ claimed_in self.old n }
        ensures hints { (n : Node) → is_hinted self.new n ≡ ((is_node n && same_node n (parent node)) || is_hinted self.old n) }
        ensures blocks { claim_blocks self.new ≡ claim_blocks self.old }
    {
        self.hint_above(node);
    }

    // Hints at the node one level up, if there is one.
    #[inline(always)]
    fn hint_above(&mut self, node: Node)
        requires member { is_node node ≡ true }
        requires inside { is_below node (8 * claim_blocks self.old) ≡ true }
        ensures { HintsNode self.old self.new (parent node) }
    {
        let above = node.parent();
        if above.level <= 6 {
            self.levels.at_mut(above.level).hint(above.number);
        }
    }

    /// Takes note that every summary of a subtree was installed: that of the node of level 4 with the given number, and those of all nodes below
    /// it. So none of its blocks wants a job, and the node above it may.
    pub fn pass_subtree(&mut self, number: u32)
        requires inside { is_below (node_at 4 number) (8 * claim_blocks self.old) ≡ true }
        ensures claimed { (n : Node) → claimed_in self.new n ≡ claimed_in self.old n }
        ensures hints { (n : Node) → is_hinted self.new n ≡ (same_node n (parent (node_at 4 number)) || (not (is_block_of number n) && is_hinted self.old n)) }
        ensures blocks { claim_blocks self.new ≡ claim_blocks self.old }
    {
        unhint_subtree(&mut self.levels.level_1, number);
        self.hint_above(Node { level: 4, number });
    }

    /// Makes every claim void, so that every node may want a job. Jobs handed out before stay good.
    pub fn forget_claims(&mut self)
        ensures claimed { (n : Node) → claimed_in self.new n ≡ None }
        ensures hints { (n : Node) → is_node n ≡ true → is_below n (8 * claim_blocks self.old) ≡ true → is_hinted self.new n ≡ true }
        ensures blocks { claim_blocks self.new ≡ claim_blocks self.old }
    {
        self.levels.level_1.forget();
        self.levels.level_2.forget();
        self.levels.level_3.forget();
        self.levels.level_4.forget();
        self.levels.level_5.forget();
        self.levels.level_6.forget();
    }

    /// The job of the least node that wants one, by level and then by number. The node is claimed with it. None if no node wants one. Takes no
    /// memory, and looks only at nodes that are hinted at.
    pub fn claim<B: Body>(
        &mut self,
        history: &Edits,
        table: &Summaries<B::S>,
        body: B,
    ) -> Option<Job<B>>
        requires agrees { Agrees (B.operations body) history.now.journal table.now }
        requires hints { AreHints (record_of history.now.journal table.now self.old) self.old }
        requires grown { table.now.size ≤ 8 * claim_blocks self.old }
        ensures next { IsNextJob (record_of history.now.journal table.now self.old) (option_map (λ job. (job.node, job.version)) result) }
        ensures claimed { IfSome result (λ job. (n : Node) → claimed_in self.new n ≡ (if same_node n job.node then Some job.version else claimed_in self.old n)) }
        ensures idle { IfNone result ((n : Node) → claimed_in self.new n ≡ claimed_in self.old n) }
        ensures hints { AreHints (record_of history.now.journal table.now self.new) self.new }
        ensures job { IfSome result (λ job. Stands (B.operations body) (record_of history.now.journal table.now self.old) job.node job.contents) }
        ensures body { IfSome result (λ job. job.body ≡ body) }
        ensures blocks { claim_blocks self.new ≡ claim_blocks self.old }
    {
        match self.next(table) {
            Some((node, version)) => job_of(history, table, node, version, body),
            None => None,
        }
    }

    /// Refreshes the least node that wants a job: claims it, as `claim` would, keeps its summary, computed without copying its contents, and
    /// hints at its parent. Returns whether a node wanted one. Takes no memory, and looks only at nodes that are hinted at.
    #[inline(always)]
    pub fn refresh_next<B: Body>(
        &mut self,
        history: &Edits,
        table: &mut Summaries<B::S>,
        body: &B,
    ) -> bool
        requires agrees { Agrees (B.operations body.now) history.now.journal table.old }
        requires hints { AreHints (record_of history.now.journal table.old self.old) self.old }
        requires grown { table.old.size ≤ 8 * claim_blocks self.old }
        ensures refreshed { result ≡ true → RefreshesNext (B.operations body.now) history.now.journal table.old table.new self.old self.new }
        ensures idle { result ≡ false → IsNextJob (record_of history.now.journal table.old self.old) None }
        ensures claimed { result ≡ false → (n : Node) → claimed_in self.new n ≡ claimed_in self.old n }
        ensures same { result ≡ false → table.new ≡ table.old }
        ensures hints { AreHints (record_of history.now.journal table.old self.new) self.new }
        ensures blocks { claim_blocks self.new ≡ claim_blocks self.old }
    {
        let Some((node, version)) = self.next(table) else {
            return false;
        };
        refresh_node(self, history, table, body, node, version);
        true
    }

    // The least node that wants a job, and the number of the edit that touched it last, which is claimed with it. It hands
    // out no job, since jobs are wide.
    #[inline(always)]
    fn next<S: Copy>(&mut self, table: &Summaries<S>) -> Option<(Node, u32)>
        requires hints { HintsWants table.now self.old }
        requires grown { table.now.size ≤ 8 * claim_blocks self.old }
        ensures { ServesNext table.now self.old self.new result }
    {
        if let Some(next) = next_of(&mut self.levels.level_1, 1, table) {
            return Some(next);
        }
        if let Some(next) = next_of(&mut self.levels.level_2, 2, table) {
            return Some(next);
        }
        if let Some(next) = next_of(&mut self.levels.level_3, 3, table) {
            return Some(next);
        }
        if let Some(next) = next_of(&mut self.levels.level_4, 4, table) {
            return Some(next);
        }
        if let Some(next) = next_of(&mut self.levels.level_5, 5, table) {
            return Some(next);
        }
        next_of(&mut self.levels.level_6, 6, table)
    }
}

// Makes memory for so many rows on each level. No row changes.
fn reserve_levels(levels: &mut Levels<Level>, rows: &Levels<u32>) -> Result<(), Refusal>
    ensures rows { HaveSameRows levels.old levels.new }
    ensures ok { OnOk result (HaveRoom levels.new rows.now) }
    ensures err { IfErr result (λ refusal. refusal ≡ Refusal.NoMemory) }
{
    for level in 1..=6 {
        levels.at_mut(level).reserve(*rows.at(level))?;
    }
    Ok(())
}

// Adds rows on each level that were not claimed and are not hinted at, so that there are so many in all, if there are fewer.
fn fill_levels(levels: &mut Levels<Level>, rows: &Levels<u32>)
    requires room { HaveRoom levels.old rows.now }
    requires few { (level : ℕ) → 1 ≤ level → level ≤ 6 → thing_at rows.now level ≤ 131071 }
    ensures { AreFilled levels.old levels.new rows.now }
{
    for level in 1..=6 {
        levels.at_mut(level).fill(*rows.at(level));
    }
}

// Takes the hints at the 512 blocks of a subtree away.
fn unhint_subtree(rows: &mut Level, number: u32)
    requires inside { 8 * number + 8 ≤ length rows.old.rows.hints }
    requires few { 8 * number + 8 ≤ 2048 }
    ensures { UnhintsSubtree rows.old.rows rows.new.rows number }
{
    for word in 8 * number..8 * number + 8 {
        rows.unhint_word(word);
    }
}

// The least node of a level that wants a job, and the number of the edit that touched it last, which is claimed with it.
// Each hint is taken away once it was looked at: its node wants no job then, or none any longer. It is made anew for each level,
// so that none is picked by its number.
#[inline(always)]
fn next_of<S: Copy>(rows: &mut Level, level: u32, table: &Summaries<S>) -> Option<(Node, u32)>
    requires { CanServe table.now level rows.old.rows }
    ensures { GivesNext table.now level rows.old.rows rows.new.rows result }
{
    while let Some(number) = rows.first_hint() {
        let node = Node { level, number };
        rows.unhint(number);
        if let Some(version) = wanted(rows, table, node) {
            rows.claim(number, version);
            return Some((node, version));
        }
    }
    None
}
