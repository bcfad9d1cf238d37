//! Refreshing whole runs of blocks: 64 at a time, without a search for each.
ghost use Rattle.std.specs.Prelude.{◌≡◌, ℕ, ◌+◌, ◌*◌, ◌/◌, ◌<◌, ◌≤◌, length, false, slice_range, IfSome, IfNone};
ghost use Rattle.lv_edits.specs.History.{list_of};
ghost use Rattle.lv_summary.specs.Agrees.{Agrees};
ghost use Rattle.lv_refresh.specs.ClaimTable.{AreHints, claim_blocks, claimed_in, record_of};
ghost use Rattle.lv_refresh.specs.Inner.{HintsWants, ServesNode, node_at, wants_in};
ghost use Rattle.lv_refresh.specs.Refreshed.{RefreshesEach};
ghost use Rattle.lv_refresh.specs.Sweep.{IsSwept, Sweeps};

use crate::claims::Claims;
use crate::computing::fold_near;
use crate::wants::wanted;
use lv_bodies::Body;
use lv_edits::Edits;
use lv_geometry::Node;
use lv_summary::Summaries;

impl Claims {
    /// Refreshes blocks in the order of their numbers, at most so many: 64 at a time, while each of the next 64 is hinted at. Each is the least
    /// node that wants a job then, and is refreshed as `refresh_next` would. Returns how many it refreshed; other nodes may want a job after it.
    /// Takes no memory.
    #[inline(always)]
    pub fn refresh_blocks<B: Body>(
        &mut self,
        history: &Edits,
        table: &mut Summaries<B::S>,
        body: &B,
        jobs: u32,
    ) -> u32
        requires agrees { Agrees (B.operations body.now) history.now.journal table.old }
        requires hints { AreHints (record_of history.now.journal table.old self.old) self.old }
        requires grown { table.old.size ≤ 8 * claim_blocks self.old }
        ensures refreshed { RefreshesEach (B.operations body.now) history.now.journal table.old table.new self.old self.new result }
        ensures agrees { Agrees (B.operations body.now) history.now.journal table.new }
        ensures hints { AreHints (record_of history.now.journal table.new self.new) self.new }
        ensures blocks { claim_blocks self.new ≡ claim_blocks self.old }
        ensures most { result ≤ jobs }
    {
        // Among few blocks each is found as soon.
        if table.size() < 4096 {
            return 0;
        }
        let Some(first) = self.levels.level_1.first_hint() else {
            return 0;
        };
        let mut done = 0;
        for word in first / 64..table.size() / 512 {
            if jobs - done < 64 || !self.levels.level_1.has_word(word) {
                return done;
            }
            done += self.refresh_word(history, table, body, word);
        }
        done
    }

    // Refreshes the 64 blocks of a word of hints as far as they want it, and takes their hints away.
    #[inline(never)]
    fn refresh_word<B: Body>(
        &mut self,
        history: &Edits,
        table: &mut Summaries<B::S>,
        body: &B,
        word: u32,
    ) -> u32
        requires swept { IsSwept (B.operations body.now) history.now.journal table.old self.old (64 * word) }
        requires inside { 512 * word + 512 ≤ table.old.size }
        ensures sweeps { Sweeps (B.operations body.now) history.now.journal table.old table.new self.old self.new result (64 * word + 64) }
        ensures few { result ≤ 64 }
    {
        let done = self.refresh_each(history, table, body, word);
        self.levels.level_1.unhint_word(word);
        done
    }

    // Refreshes the 64 blocks of a word of hints as far as they want it, and leaves their hints.
    #[inline(always)]
    fn refresh_each<B: Body>(
        &mut self,
        history: &Edits,
        table: &mut Summaries<B::S>,
        body: &B,
        word: u32,
    ) -> u32
        requires swept { IsSwept (B.operations body.now) history.now.journal table.old self.old (64 * word) }
        requires inside { 512 * word + 512 ≤ table.old.size }
        ensures sweeps { Sweeps (B.operations body.now) history.now.journal table.old table.new self.old self.new result (64 * word + 64) }
        ensures few { result ≤ 64 }
    {
        // The elements are few enough for their indices to be of 32 bits.
        let _size = history.size();
        let near = history.stretch(512 * word, 512 * word + 512);
        let mut done = 0;
        for number in 64 * word..64 * word + 64 {
            done += self.refresh_block(history, table, body, near, number);
        }
        done
    }

    // Refreshes a block, if it wants it and no block before it does, and leaves its hint. `near` are those elements of its word that are in
    // neighbouring cells. Returns 1 if the block wanted it, else 0.
    #[inline(always)]
    fn refresh_block<B: Body>(
        &mut self,
        history: &Edits,
        table: &mut Summaries<B::S>,
        body: &B,
        near: &[i64],
        number: u32,
    ) -> u32
        requires swept { IsSwept (B.operations body.now) history.now.journal table.old self.old number }
        requires inside { 8 * number + 8 ≤ table.old.size }
        requires near { near.now ≡ slice_range (list_of history.now.journal) (512 * (number / 64)) (512 * (number / 64) + length near.now) }
        ensures sweeps { Sweeps (B.operations body.now) history.now.journal table.old table.new self.old self.new result (number + 1) }
        ensures few { result ≤ 1 }
    {
        let Some(version) = self.claim_block(table, number) else {
            return 0;
        };
        let block = Node { level: 1, number };
        let summary = fold_near(history, table, body, near, block);
        table.install_due(block, version, summary);
        self.hint_above(block);
        1
    }

    // Claims a block at the number of the edit that touched it last, which it gives, if the block wants a job and none before it does.
    #[inline(always)]
    fn claim_block<S: Copy>(&mut self, table: &Summaries<S>, number: u32) -> Option<u32>
        requires hints { HintsWants table.now self.old }
        requires grown { table.now.size ≤ 8 * claim_blocks self.old }
        requires calm { (k : ℕ) → k < number → wants_in table.now (claimed_in self.old (node_at 1 k)) (node_at 1 k) ≡ false }
        ensures some { IfSome result (λ version. ServesNode table.now self.old self.new (node_at 1 number, version)) }
        ensures none { IfNone result (wants_in table.now (claimed_in self.old (node_at 1 number)) (node_at 1 number) ≡ false) }
        ensures same { IfNone result (self.new ≡ self.old) }
    {
        let block = Node { level: 1, number };
        let Some(version) = wanted(&self.levels.level_1, table, block) else {
            return None;
        };
        self.levels.level_1.claim(number, version);
        Some(version)
    }
}
