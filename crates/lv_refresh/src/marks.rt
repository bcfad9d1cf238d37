//! A set of small numbers, whose least is found in a step a level: the words that have a mark are a set over it.
ghost use Rattle.std.specs.Prelude.{◌≡◌, ℕ, ◌-◌, ◌*◌, ◌/◌, ◌^◌, ◌<◌, ◌≤◌, ◌&&◌, ◌||◌, not, true, false, [], length, sum, nat_eq, slice_index, OnOk, IfErr, IfSome, IfNone};
ghost use Rattle.lv_refresh.specs.Marks.{is_marked};

use crate::upper::Upper;
use lv_geometry::Refusal;
use std::alloc::Global;
use std::marker::Model;

/// A set of numbers below 131,072, 64 a word.
#[derive(Drop)]
pub struct Marks<U: Upper> {
    words: Vec<u64>,
    // The words that have a mark.
    over: U,
}

impl<U: Upper> Model for Marks<U> {
    ghost use Rattle.std.specs.Prelude.{◌*◌, min, vec_capacity};
    ghost use Rattle.lv_refresh.specs.Inner.{AreMarks};
    ghost use Rattle.lv_refresh.specs.Marks.{MarksState};

    ghost Value = { MarksState };

    ghost view = { λ a. record { words = a.words.items; capacity = 64 * min (vec_capacity a.words) (U.capacity a.over) } };

    ghost invariant = { λ a. AreMarks a.words.items (U.words a.over) };
}

impl<U: Upper> Marks<U> {
    /// Takes the marks of 64 numbers away, those of a word.
    #[inline(always)]
    pub fn clear_word(&mut self, word: u32)
        requires { word < length self.old.words }
        ensures marks { (j : ℕ) → is_marked self.new.words j ≡ (not (nat_eq (j / 64) word) && is_marked self.old.words j) }
        ensures room { length self.new.words ≡ length self.old.words }
    {
        self.words[word as usize] = 0;
        self.over.clear(word);
    }

    /// Whether each of 64 numbers is marked, those of a word.
    #[inline(always)]
    pub fn has_word(&self, word: u32) -> bool
        ensures { result ≡ nat_eq (slice_index self.now.words word) (2 ^ 64 - 1) }
    {
        self.words.get(word as usize).copied().unwrap_or(0) == u64::MAX
    }

    /// Marks every number that there is room for.
    pub fn set_all(&mut self)
        ensures marks { (j : ℕ) → j < 64 * length self.old.words → is_marked self.new.words j ≡ true }
        ensures room { length self.new.words ≡ length self.old.words }
    {
        self.words.fill(u64::MAX);
        self.over.set_below(self.words.len() as u32);
    }

    /// Whether a number is marked.
    pub fn is_set(&self, i: u32) -> bool
        requires { i < 64 * length self.now.words }
        ensures { result ≡ is_marked self.now.words i }
    {
        self.words[i as usize / 64] >> (i % 64) & 1 == 1
    }
}

impl<U: Upper> Upper for Marks<U> {
    ghost words = { λ m. m.words };

    ghost capacity = { λ m. m.capacity };

    /// No marks, and room for none. Takes no memory.
    fn new(alloc: Global) -> Marks<U>
        ensures { result.words ≡ [] }
    {
        Marks {
            words: Vec::new(alloc),
            over: U::new(alloc),
        }
    }

    fn reserve(&mut self, marks: u32) -> Result<(), Refusal>
        ensures words { self.new.words ≡ self.old.words }
        ensures ok { OnOk result (marks ≤ self.new.capacity) }
        ensures err { IfErr result (λ refusal. refusal ≡ Refusal.NoMemory) }
    {
        let words = marks.div_ceil(64);
        let more = (words as usize).saturating_sub(self.words.len());
        self.words.reserve(more).map_err(|_| Refusal::NoMemory)?;
        self.over.reserve(words)
    }

    fn grow(&mut self, marks: u32)
        requires capacity { marks ≤ self.old.capacity }
        requires few { marks ≤ 131071 }
        ensures alike { (i : ℕ) → is_marked self.new.words i ≡ is_marked self.old.words i }
        ensures more { length self.old.words ≤ length self.new.words }
        ensures room { marks ≤ 64 * length self.new.words }
    {
        let words = self.words.len().max(marks.div_ceil(64) as usize);
        let Ok(()) = self.words.resize(words, 0) else {
            unreachable!()
        };
        self.over.grow(marks.div_ceil(64));
    }

    #[inline(always)]
    fn set(&mut self, i: u32)
        requires { i < 64 * length self.old.words }
        ensures marks { (j : ℕ) → is_marked self.new.words j ≡ (nat_eq j i || is_marked self.old.words j) }
        ensures room { length self.new.words ≡ length self.old.words }
    {
        let word = self.words[i as usize / 64];
        self.words[i as usize / 64] = word | 1 << (i % 64);
        if word == 0 {
            self.over.set(i / 64);
        }
    }

    /// Takes the mark of a number away, so that the words together are less if it had one.
    #[inline(always)]
    fn clear(&mut self, i: u32)
        requires { i < 64 * length self.old.words }
        ensures marks { (j : ℕ) → is_marked self.new.words j ≡ (not (nat_eq j i) && is_marked self.old.words j) }
        ensures room { length self.new.words ≡ length self.old.words }
        ensures lighter { is_marked self.old.words i ≡ true → sum self.new.words < sum self.old.words }
    {
        let rest = self.words[i as usize / 64] & !(1 << (i % 64));
        self.words[i as usize / 64] = rest;
        if rest == 0 {
            self.over.clear(i / 64);
        }
    }

    #[inline(always)]
    fn least(&self) -> Option<u32>
        ensures marked { IfSome result (λ i. is_marked self.now.words i ≡ true) }
        ensures room { IfSome result (λ i. i < 64 * length self.now.words) }
        ensures least { IfSome result (λ i. (j : ℕ) → j < i → is_marked self.now.words j ≡ false) }
        ensures none { IfNone result ((j : ℕ) → is_marked self.now.words j ≡ false) }
    {
        let Some(word) = self.over.least() else {
            return None;
        };
        Some(word * 64 + self.words[word as usize].trailing_zeros())
    }
}
