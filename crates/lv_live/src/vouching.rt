//! Whether contents are those that a node has now.
ghost use Rattle.std.specs.Prelude.{◌≡◌, ◌↔◌, ◌+◌, ◌*◌, ◌<◌, ◌≤◌, IsTrue, true, length, take, drop, slice_range};
ghost use Rattle.lv_geometry.specs.Nodes.{is_below};
ghost use Rattle.lv_edits.specs.History.{list_of};
ghost use Rattle.lv_edits.specs.Touch.{elements_under};
ghost use Rattle.lv_summary.specs.Agrees.{Agrees};
ghost use Rattle.lv_summary.specs.Table.{whole_in};
ghost use Rattle.lv_refresh.specs.ClaimTable.{ClaimTable, record_of};
ghost use Rattle.lv_refresh.specs.Honesty.{Stands};
ghost use Rattle.lv_refresh.specs.Inner.{node_at};
ghost use Rattle.lv_refresh.specs.Subtrees.{IsInside};

use lv_bodies::Body;
use lv_edits::Edits;
use lv_geometry::Node;
use lv_refresh::{Contents, Eight, SUBTREE_BLOCKS, children_of};
use lv_summary::Summaries;

/// Whether contents are those that a whole node has now.
#[inline(always)]
pub fn stands_here<B: Body>(
    body: &B,
    history: &Edits,
    table: &Summaries<B::S>,
    node: Node,
    contents: &Contents<B::S>,
) -> bool
    requires agrees { Agrees (B.operations body.now) history.now.journal table.now }
    requires whole { whole_in table.now node ≡ true }
    ensures { (c : ClaimTable) → IsTrue result ↔ Stands (B.operations body.now) (record_of history.now.journal table.now c) node contents.now }
{
    match contents {
        Contents::Elements(elements) => node.level == 1 && have_elements(history, node, elements),
        Contents::Children(summaries) => {
            node.level > 1 && have_summaries(body, history, table, node, summaries)
        }
    }
}

/// Whether elements are those of a whole block.
#[inline(always)]
pub fn have_elements(history: &Edits, block: Node, elements: &[i64; 8]) -> bool
    requires level { block.level ≡ 1 }
    requires whole { is_below block (length (list_of history.now.journal)) ≡ true }
    ensures { IsTrue result ↔ (elements.now ≡ elements_under history.now.journal block) }
{
    *elements == history.block(block.number)
}

/// Whether elements are those of a whole node of level 4.
pub fn has_elements(history: &Edits, number: u32, elements: &[i64]) -> bool
    requires inside { IsInside number (length (list_of history.now.journal)) }
    requires many { length elements.now ≡ 4096 }
    ensures { IsTrue result ↔ (elements.now ≡ elements_under history.now.journal (node_at 4 number)) }
{
    // The elements are few enough for their indices to be of 32 bits.
    let _size = history.size();
    let first = SUBTREE_BLOCKS * number;
    for k in 0..SUBTREE_BLOCKS {
        if !has_block(history, first + k, elements, 8 * k as usize) {
            return false;
        }
    }
    true
}

// Whether the eight elements from a place on are those of a block whose number is given.
#[inline(always)]
fn has_block(history: &Edits, number: u32, elements: &[i64], at: usize) -> bool
    requires block { (number + 1) * 8 ≤ length (list_of history.now.journal) }
    requires inside { at + 8 ≤ length elements.now }
    ensures { IsTrue result ↔ (slice_range elements.now at (at + 8) ≡ take 8 (drop (number * 8) (list_of history.now.journal))) }
{
    let here = history.block(number);
    &elements[at..at + 8] == &here[..]
}

// Whether summaries are those of a whole node's children, which are fresh. The cells are those that the table is of.
fn have_summaries<B: Body>(
    body: &B,
    _history: &Edits,
    table: &Summaries<B::S>,
    node: Node,
    summaries: &Eight<B::S>,
) -> bool
    requires agrees { Agrees (B.operations body.now) _history.now.journal table.now }
    requires whole { whole_in table.now node ≡ true }
    requires above { 1 < node.level }
    ensures { (c : ClaimTable) → IsTrue result ↔ Stands (B.operations body.now) (record_of _history.now.journal table.now c) node (Contents.Children summaries.now) }
{
    match children_of(table, node) {
        Some(here) => same_summaries(body, &here, summaries),
        None => false,
    }
}

// Whether eight summaries equal eight others. The body only names their type.
fn same_summaries<B: Body>(body: &B, x: &Eight<B::S>, y: &Eight<B::S>) -> bool
    ensures { IsTrue result ↔ (x.now ≡ y.now) }
{
    same_first(body, x, y) && same_last(body, x, y)
}

// Whether the first four are the same.
fn same_first<B: Body>(_body: &B, x: &Eight<B::S>, y: &Eight<B::S>) -> bool
    ensures { IsTrue result ↔ ((x.now.a ≡ y.now.a) × (x.now.b ≡ y.now.b) × (x.now.c ≡ y.now.c) × (x.now.d ≡ y.now.d)) }
{
    x.a == y.a && x.b == y.b && x.c == y.c && x.d == y.d
}

// Whether the last four are the same.
fn same_last<B: Body>(_body: &B, x: &Eight<B::S>, y: &Eight<B::S>) -> bool
    ensures { IsTrue result ↔ ((x.now.e ≡ y.now.e) × (x.now.f ≡ y.now.f) × (x.now.g ≡ y.now.g) × (x.now.h ≡ y.now.h)) }
{
    x.e == y.e && x.f == y.f && x.g == y.g && x.h == y.h
}
