//! The claims and hints of one level.
ghost use Rattle.std.specs.Prelude.{◌≡◌, ◌+◌, ◌-◌, ◌*◌, ◌^◌, ◌<◌, ◌≤◌, length, nat_eq, slice_index, IfSome, IfNone, OnOk, IfErr, ℕ, false};
ghost use Rattle.lv_refresh.specs.ClaimTable.{no_claims, version_of};
ghost use Rattle.lv_refresh.specs.Inner.{FillsClaims, ForgetsClaims, HintsAt, IsFirstHint, UnhintsAt, UnhintsWord, with_claim};
ghost use Rattle.lv_refresh.specs.Marks.{is_marked};
ghost use Rattle.lv_refresh.specs.Record.{is_version};

use crate::marks::Marks;
use crate::one_word::OneWord;
use crate::upper::Upper;
use lv_geometry::Refusal;
use lv_summary::LateNumbers;
use std::alloc::Global;
use std::marker::Model;

/// The claims of one level: for each node one more than the version at which it was claimed, 0 for none; and hints at
/// those nodes that may want a job.
#[derive(Drop)]
pub struct Level {
    claimed: LateNumbers,
    // Three levels of words.
    hints: Marks<Marks<OneWord>>,
}

impl Model for Level {
    ghost use Rattle.std.specs.Prelude.{min};
    ghost use Rattle.lv_refresh.specs.Inner.{ClaimLevelState};

    ghost Value = { ClaimLevelState };

    ghost view = { λ a. record { rows = record { claimed = a.claimed.items; hints = a.hints.words }; capacity = min a.claimed.capacity a.hints.capacity } };
}

impl Level {
    /// A level with no rows. Takes no memory.
    pub fn new(alloc: Global) -> Level
        ensures { result.rows ≡ no_claims }
    {
        Level {
            claimed: LateNumbers::new(alloc),
            hints: Marks::new(alloc),
        }
    }

    /// How many rows there are.
    pub fn rows(&self) -> usize
        ensures { result ≡ length self.now.rows.claimed }
    {
        self.claimed.len()
    }

    /// Makes memory for so many rows in all.
    pub fn reserve(&mut self, rows: u32) -> Result<(), Refusal>
        ensures rows { self.new.rows ≡ self.old.rows }
        ensures ok { OnOk result (rows ≤ self.new.capacity) }
        ensures err { IfErr result (λ refusal. refusal ≡ Refusal.NoMemory) }
    {
        if !self.claimed.reserve(rows as usize) {
            return Err(Refusal::NoMemory);
        }
        self.hints.reserve(rows)
    }

    /// Adds rows that were not claimed and are not hinted at, so that there are so many in all, if there are fewer.
    pub fn fill(&mut self, rows: u32)
        requires capacity { rows ≤ self.old.capacity }
        requires few { rows ≤ 131071 }
        ensures { FillsClaims self.old.rows self.new.rows rows }
    {
        self.claimed.fill(rows as usize);
        self.hints.grow(rows);
    }

    /// Hints at a node.
    #[inline(always)]
    pub fn hint(&mut self, number: u32)
        requires { number < 64 * length self.old.rows.hints }
        ensures { HintsAt self.old.rows self.new.rows number }
    {
        self.hints.set(number);
    }

    /// Takes the hint at a node away.
    #[inline(always)]
    pub fn unhint(&mut self, number: u32)
        requires { number < 64 * length self.old.rows.hints }
        ensures { UnhintsAt self.old.rows self.new.rows number }
    {
        self.hints.clear(number);
    }

    /// Takes the hints at 64 nodes away, those of a word.
    #[inline(always)]
    pub fn unhint_word(&mut self, word: u32)
        requires { word < length self.old.rows.hints }
        ensures { UnhintsWord self.old.rows self.new.rows word }
    {
        self.hints.clear_word(word);
    }

    /// Whether each of 64 nodes is hinted at, those of a word.
    #[inline(always)]
    pub fn has_word(&self, word: u32) -> bool
        ensures { result ≡ nat_eq (slice_index self.now.rows.hints word) (2 ^ 64 - 1) }
    {
        self.hints.has_word(word)
    }

    /// The least node that is hinted at.
    #[inline(always)]
    pub fn first_hint(&self) -> Option<u32>
        ensures some { IfSome result (λ number. IsFirstHint self.now.rows number) }
        ensures none { IfNone result ((k : ℕ) → is_marked self.now.rows.hints k ≡ false) }
    {
        self.hints.least()
    }

    /// Whether a node is claimed at a version.
    #[inline(always)]
    pub fn is_claimed(&self, number: u32, version: u32) -> bool
        requires inside { number < length self.now.rows.claimed }
        requires version { version ≤ 16777215 }
        ensures { result ≡ is_version version (version_of (slice_index self.now.rows.claimed number)) }
    {
        self.claimed.at(number as usize) == version + 1
    }

    /// Notes that a node was claimed at a version.
    pub fn claim(&mut self, number: u32, version: u32)
        requires inside { number < length self.old.rows.claimed }
        requires version { version ≤ 16777215 }
        ensures { self.new.rows ≡ with_claim self.old.rows number version }
    {
        self.claimed.set(number as usize, version + 1);
    }

    /// Makes every claim void, and hints at every node.
    pub fn forget(&mut self)
        ensures { ForgetsClaims self.old.rows self.new.rows }
    {
        self.claimed.forget();
        self.hints.set_all();
    }
}
