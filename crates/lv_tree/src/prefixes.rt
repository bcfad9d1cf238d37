//! Sums: the sum of any range is the difference of two prefixes.
ghost use Rattle.std.specs.Prelude.{◌≡◌, ℕ, ℤ, ◌+◌, ◌-◌, ◌≤◌, List, length, map, vec_capacity, IfSome};

use crate::rows::{add_in, larger_rows, sum_before, take_in};
use crate::tree::Tree;
use lv_bodies::Sum;
use lv_geometry::Refusal;
use std::alloc::Global;
use std::marker::Model;

/// The sums of leaves in order, modulo 2^64. A range is two numbers for each eightfold of the room, and a write changes at most
/// seven.
#[derive(Drop)]
pub struct Prefixes {
    body: Sum,
    room: usize,
    leaves: Vec<u64>,
    rows: Vec<Vec<u64>>,
}

impl Model for Prefixes {
    ghost use Rattle.std.specs.Prelude.{map, vec_capacity};
    ghost use Rattle.lv_tree.specs.Rows.{AreKept, SumLeaves};

    ghost Value = { SumLeaves };

    ghost view = { λ a. record { body = a.body; room = a.room; sums = a.leaves.items } };

    ghost invariant = { λ a. AreKept a.room (vec_capacity a.leaves) a.leaves.items (map (λ r. r.items) a.rows.items) };
}

// A copy of some leaves, in memory for so many.
fn larger_leaves(leaves: &Vec<u64>, room: usize) -> Option<Vec<u64>>
    ensures same { IfSome result (λ more. more.items ≡ leaves.now.items) }
    ensures room { IfSome result (λ more. room ≤ vec_capacity more) }
{
    let mut more = Vec::with_capacity(*leaves.allocator(), room).ok()?;
    more.extend_from_slice(leaves.as_slice()).ok()?;
    Some(more)
}

impl Tree for Prefixes {
    type B = Sum;

    ghost sums = { λ t. t.sums };

    ghost room = { λ t. t.room };

    ghost by = { λ t. t.body };

    fn new(alloc: Global, body: Sum) -> Prefixes {
        Prefixes {
            body,
            room: 0,
            leaves: Vec::new(alloc),
            rows: Vec::new(alloc),
        }
    }

    #[inline(always)]
    fn body(&self) -> Sum {
        self.body
    }

    #[inline(always)]
    fn len(&self) -> usize {
        self.leaves.len()
    }

    fn reserve(&mut self, leaves: usize) -> Result<(), Refusal> {
        if leaves <= self.room {
            return Ok(());
        }
        let room = leaves.max(2 * self.room);
        let Some(rows) = larger_rows(&self.rows, room) else {
            return Err(Refusal::NoMemory);
        };
        let Some(more) = larger_leaves(&self.leaves, room) else {
            return Err(Refusal::NoMemory);
        };
        self.rows = rows;
        self.leaves = more;
        self.room = room;
        Ok(())
    }

    #[inline(always)]
    fn push(&mut self, summary: u64) {
        let _ = self.leaves.push(summary);
        take_in(&mut self.rows, &self.leaves);
    }

    #[inline(always)]
    fn set(&mut self, leaf: usize, summary: u64) {
        let more = summary.wrapping_sub(self.leaves[leaf]);
        self.leaves[leaf] = summary;
        add_in(&mut self.rows, leaf, more);
    }

    fn truncate(&mut self, count: usize) {
        self.leaves.truncate(count);
    }

    #[inline(always)]
    fn fold(&self, from: usize, to: usize) -> u64 {
        sum_before(&self.rows, to).wrapping_sub(sum_before(&self.rows, from))
    }
}
