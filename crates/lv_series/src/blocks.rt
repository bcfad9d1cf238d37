//! The elements of a series and the trees over their blocks, changed together.
ghost use Rattle.std.specs.Prelude.{◌≡◌, ◌+◌, ◌-◌, ◌*◌, ◌^◌, ◌<◌, ◌≤◌, ◌++◌, ◌∷◌, [], true, false, length, take, drop, slice_set};
ghost use Rattle.std.specs.List.{swap};
ghost use Rattle.lv_series.specs.Blocks.{IsWindow};
ghost use Rattle.lv_series.specs.Trees.{AreOver, KeepsKinds};

use crate::trees::Trees;
use crate::windows::{add_element, is_wide, remove_and_shrink, set_element};

/// How many elements a block has.
pub const BLOCK: usize = 8;

/// Adds an element at the end, and the leaf of its block if that is whole now. If there is no memory, nothing has changed, and the result is
/// false.
#[tactic(auto, using(crate::proofs::WindowLaws::window_more))]
#[inline(always)]
pub fn push_into(elements: &mut Vec<i64>, trees: &mut Trees, base: u64, first: u64, x: i64) -> bool
    requires window { IsWindow base first elements.old.items }
    requires over { AreOver base first elements.old.items trees.old }
    requires numbered { 8 * base + length elements.old.items < 2 ^ 62 }
    ensures pushed { result ≡ true → elements.new.items ≡ elements.old.items ++ x ∷ [] }
    ensures same { result ≡ false → elements.new.items ≡ elements.old.items }
    ensures window { IsWindow base first elements.new.items }
    ensures over { AreOver base first elements.new.items trees.new }
    ensures kinds { KeepsKinds trees.old trees.new }
{
    if !add_element(elements, x) {
        return false;
    }
    let len = elements.len();
    if len % BLOCK != 0 {
        return true;
    }
    if trees.grow(&elements.as_slice()[len - BLOCK..len]) {
        return true;
    }
    elements.truncate(len - 1);
    false
}

/// Overwrites the element at a place, and renews the leaf of its block.
#[tactic(auto, using(crate::proofs::WindowLaws::window_written))]
#[inline(always)]
pub fn write_into(
    elements: &mut Vec<i64>,
    trees: &mut Trees,
    base: u64,
    first: u64,
    at: usize,
    x: i64,
)
    requires window { IsWindow base first elements.old.items }
    requires over { AreOver base first elements.old.items trees.old }
    requires low { first ≤ 8 * base + at }
    requires high { at < length elements.old.items }
    ensures written { elements.new.items ≡ slice_set elements.old.items at x }
    ensures len { length elements.new.items ≡ length elements.old.items }
    ensures window { IsWindow base first elements.new.items }
    ensures over { AreOver base first elements.new.items trees.new }
    ensures kinds { KeepsKinds trees.old trees.new }
{
    set_element(elements, at, x);
    let block = at / BLOCK;
    if block < elements.len() / BLOCK {
        trees.renew(
            base + block as u64,
            &elements.as_slice()[BLOCK * block..BLOCK * block + BLOCK],
        );
    }
}

/// Exchanges the elements at two places, which may be one, and renews the leaves of their blocks.
pub fn swap_into(
    elements: &mut Vec<i64>,
    trees: &mut Trees,
    base: u64,
    first: u64,
    a: usize,
    b: usize,
)
    requires window { IsWindow base first elements.old.items }
    requires over { AreOver base first elements.old.items trees.old }
    requires low { first ≤ 8 * base + a }
    requires high { a < length elements.old.items }
    requires low_too { first ≤ 8 * base + b }
    requires high_too { b < length elements.old.items }
    ensures swapped { elements.new.items ≡ swap elements.old.items a b }
    ensures window { IsWindow base first elements.new.items }
    ensures over { AreOver base first elements.new.items trees.new }
    ensures kinds { KeepsKinds trees.old trees.new }
{
    let (x, y) = (elements[a], elements[b]);
    write_into(elements, trees, base, first, a, y);
    write_into(elements, trees, base, first, b, x);
}

/// Keeps the first so many elements in memory, and the leaves of the blocks that are still whole.
pub fn cut(elements: &mut Vec<i64>, trees: &mut Trees, base: u64, first: u64, kept: usize)
    requires window { IsWindow base first elements.old.items }
    requires over { AreOver base first elements.old.items trees.old }
    requires low { first ≤ 8 * base + kept }
    requires high { kept ≤ length elements.old.items }
    ensures elements { elements.new.items ≡ take kept elements.old.items }
    ensures window { IsWindow base first elements.new.items }
    ensures over { AreOver base first elements.new.items trees.new }
    ensures kinds { KeepsKinds trees.old trees.new }
{
    elements.truncate(kept);
    trees.truncate(base + (kept / BLOCK) as u64);
}

/// Drops the elements before an index, and the leaves of their blocks. If those that are gone are a quarter of those that are left, whole blocks
/// of them are removed, so that each that expires pays for four that move. Memory is given back, also that of the trees, if more than half of the
/// elements' memory would be idle. Returns which block is first in memory then.
#[tactic(auto, using(crate::proofs::WindowLaws::window_expired))]
pub fn forget(elements: &mut Vec<i64>, trees: &mut Trees, base: u64, first: u64, to: u64) -> u64
    requires window { IsWindow base first elements.old.items }
    requires over { AreOver base first elements.old.items trees.old }
    requires low { first ≤ to }
    requires high { to ≤ 8 * base + length elements.old.items }
    ensures low { base ≤ result }
    ensures elements { drop (to - 8 * result) elements.new.items ≡ drop (to - 8 * base) elements.old.items }
    ensures window { IsWindow result to elements.new.items }
    ensures over { AreOver result to elements.new.items trees.new }
    ensures kinds { KeepsKinds trees.old trees.new }
{
    trees.expire(to / BLOCK as u64);
    let gone = (to - 8 * base) as usize;
    let wide = is_wide(elements, gone);
    if !wide && gone < (elements.len() - gone) / 4 {
        return base;
    }
    let whole = gone / BLOCK;
    let start = base + whole as u64;
    remove_and_shrink(elements, BLOCK * whole, wide);
    trees.shrink(elements, start, to, wide);
    start
}
