//! What a set of numbers can do that is kept over another: over the words of that one which have a mark.
ghost use Rattle.std.specs.Prelude.{◌≡◌, ℕ, ◌*◌, ◌<◌, ◌≤◌, ◌&&◌, ◌||◌, List, not, true, false, length, nat_eq, nat_lt, OnOk, IfErr, IfSome, IfNone};
ghost use Rattle.lv_refresh.specs.Marks.{is_marked};

use lv_geometry::Refusal;
use std::alloc::Global;

/// A set of numbers, 64 a word.
pub trait Upper: Drop {
    // its words
    ghost words: { Self → List ℕ };

    // for how many numbers there is memory
    ghost capacity: { Self → ℕ };

    /// No marks. Takes no memory.
    fn new(alloc: Global) -> Self
        ensures { (j : ℕ) → is_marked (words result) j ≡ false };

    /// Makes memory for the numbers below `marks`.
    fn reserve(&mut self, marks: u32) -> Result<(), Refusal>
        ensures words { words self.new ≡ words self.old }
        ensures ok { OnOk result (marks ≤ capacity self.new) }
        ensures err { IfErr result (λ refusal. refusal ≡ Refusal.NoMemory) };

    /// Makes room for the numbers below `marks`. None of the new ones is marked.
    fn grow(&mut self, marks: u32)
        requires capacity { marks ≤ capacity self.old }
        requires few { marks ≤ 131071 }
        ensures alike { (i : ℕ) → is_marked (words self.new) i ≡ is_marked (words self.old) i }
        ensures more { length (words self.old) ≤ length (words self.new) }
        ensures room { marks ≤ 64 * length (words self.new) };

    /// Marks a number.
    fn set(&mut self, i: u32)
        requires { i < 64 * length (words self.old) }
        ensures marks { (j : ℕ) → is_marked (words self.new) j ≡ (nat_eq j i || is_marked (words self.old) j) }
        ensures room { length (words self.new) ≡ length (words self.old) };

    /// Takes the mark of a number away.
    fn clear(&mut self, i: u32)
        requires { i < 64 * length (words self.old) }
        ensures marks { (j : ℕ) → is_marked (words self.new) j ≡ (not (nat_eq j i) && is_marked (words self.old) j) }
        ensures room { length (words self.new) ≡ length (words self.old) };

    /// The least number that is marked.
    fn least(&self) -> Option<u32>
        ensures marked { IfSome result (λ i. is_marked (words self.now) i ≡ true) }
        ensures room { IfSome result (λ i. i < 64 * length (words self.now)) }
        ensures least { IfSome result (λ i. (j : ℕ) → j < i → is_marked (words self.now) j ≡ false) }
        ensures none { IfNone result ((j : ℕ) → is_marked (words self.now) j ≡ false) };

    /// Marks the numbers below `count`.
    fn set_below(&mut self, count: u32)
        requires { count ≤ 64 * length (words self.old) }
        ensures marks { (j : ℕ) → is_marked (words self.new) j ≡ (nat_lt j count || is_marked (words self.old) j) }
        ensures room { length (words self.new) ≡ length (words self.old) }
    {
        for i in 0..count {
            self.set(i);
        }
    }
}
