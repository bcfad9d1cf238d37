//! The pending writes of one edit, one or two: how they are put into their cells, and at which indices and blocks they are.
ghost use Rattle.std.specs.Prelude.{◌≡◌, ℕ, ℤ, ◌/◌, ◌<◌, ◌≤◌, None, length, map, IfSome};
ghost use Rattle.lv_store.specs.Inner.{EndsBefore};
ghost use Rattle.lv_store.specs.State.{are_at, are_in, indices_of, is_at, is_in, with_element, with_version, writes_of, written};

use crate::descriptors::Writes;
use crate::directories::Directory;

/// The writes of an edit that announces a first and a second, or one, or none.
#[inline(always)]
pub fn writes_of(first: Option<(u32, i64)>, second: Option<(u32, i64)>) -> Option<Writes>
    ensures { result ≡ writes_of first second }
{
    match first {
        Some(first) => Some(Writes { first, second }),
        None => None,
    }
}

/// Puts a write of an edit, if there is one, into its cell, and the edit's number for its block.
#[inline(always)]
pub fn put(
    values: &mut Directory<i64>,
    versions: &mut Vec<u32>,
    edit: u32,
    write: Option<(u32, i64)>,
)
    requires values { IfSome write (λ write. write.0 < length values.old.cells) }
    requires versions { IfSome write (λ write. write.0 / 8 < length versions.old.items) }
    ensures values { values.new ≡ record values.old { cells = with_element write values.old.cells } }
    ensures versions { versions.new.items ≡ with_version write edit versions.old.items }
{
    if let Some((index, element)) = write {
        values.set(index, element);
        versions[(index / 8) as usize] = edit;
    }
}

/// Puts a write, if there is one, into a copy of a block's cells, if it is a write in that block.
#[inline(always)]
pub fn put_among(cells: &mut [i64; 8], block: u32, write: Option<(u32, i64)>)
    ensures { (f : ℕ → ℤ) → cells.old ≡ map f (indices_of block) → cells.new ≡ map (λ i. written write i (f i)) (indices_of block) }
{
    if let Some((index, element)) = write {
        if index / 8 == block {
            cells[(index % 8) as usize] = element;
        }
    }
}

/// The end of the range from `from` up to `to` when it is cut before the first of an edit's writes that is in it, if one is.
pub fn end_before_writes(writes: Option<Writes>, from: u32, to: u32) -> u32
    requires { from ≤ to }
    ensures { EndsBefore (λ i. are_at i writes) from to result }
{
    match writes {
        Some(writes) => {
            let end = end_before(Some(writes.first), from, to);
            end_before(writes.second, from, end)
        }
        None => to,
    }
}

// The end of the range from `from` up to `to` when it is cut before one write, if there is a write and it is in the range.
fn end_before(write: Option<(u32, i64)>, from: u32, to: u32) -> u32
    requires { from ≤ to }
    ensures { EndsBefore (λ i. is_at i write) from to result }
{
    match write {
        Some((index, _)) if from <= index && index < to => index,
        _ => to,
    }
}

/// Whether one of an edit's writes, if it has any, is in a block.
#[inline(always)]
pub fn are_in(block: u32, writes: Option<Writes>) -> bool
    ensures { result ≡ are_in block writes }
{
    match writes {
        Some(writes) => is_in(block, writes.second) || is_in(block, Some(writes.first)),
        None => false,
    }
}

// Whether a write, if there is one, is in a block.
#[inline(always)]
fn is_in(block: u32, write: Option<(u32, i64)>) -> bool
    ensures { result ≡ is_in block write }
{
    match write {
        Some((index, _)) => index / 8 == block,
        None => false,
    }
}
