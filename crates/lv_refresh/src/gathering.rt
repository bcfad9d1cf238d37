//! The summaries of a node's children, if all eight are fresh.
ghost use Rattle.std.specs.Prelude.{◌≡◌, ℕ, ◌<◌, ◌≤◌, true, false, slice_get, IfSome, IfNone};
ghost use Rattle.lv_geometry.specs.Nodes.{child};
ghost use Rattle.lv_summary.specs.Table.{entry_in, whole_in};
ghost use Rattle.lv_refresh.specs.Contents.{in_order};
ghost use Rattle.lv_refresh.specs.Inner.{HasEntries, children_fresh_in, four_fresh_in};

use crate::contents::Eight;
use lv_geometry::Node;
use lv_summary::Summaries;

/// The summaries of a whole node's children; none if one of them is not fresh.
pub fn children_of<S: Copy>(table: &Summaries<S>, node: Node) -> Option<Eight<S>>
    requires whole { whole_in table.now node ≡ true }
    requires above { 1 < node.level }
    ensures some { IfSome result (λ summaries. (k : ℕ) → k < 8 → slice_get (in_order summaries) k ≡ entry_in table.now (child node k)) }
    ensures ready { IfSome result (λ summaries. children_fresh_in table.now node ≡ true) }
    ensures none { IfNone result (children_fresh_in table.now node ≡ false) }
{
    let (a, b, c, d) = four_children_of(table, node, 0)?;
    let (e, f, g, h) = four_children_of(table, node, 4)?;
    Some(Eight {
        a,
        b,
        c,
        d,
        e,
        f,
        g,
        h,
    })
}

// The summaries of four of a whole node's children, from one on; none if one of them is not fresh.
#[inline(always)]
fn four_children_of<S: Copy>(table: &Summaries<S>, node: Node, first: u32) -> Option<(S, S, S, S)>
    requires whole { whole_in table.now node ≡ true }
    requires above { 1 < node.level }
    requires few { first ≤ 4 }
    ensures some { IfSome result (λ four. HasEntries table.now node first four.0 four.1 four.2 four.3) }
    ensures none { IfNone result (four_fresh_in table.now node first ≡ false) }
{
    // By the size, the children's numbers are of 32 bits.
    let _size = table.size();
    Some((
        table.entry(node.child(first))?,
        table.entry(node.child(first + 1))?,
        table.entry(node.child(first + 2))?,
        table.entry(node.child(first + 3))?,
    ))
}
