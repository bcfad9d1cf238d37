//! Summaries that are computed directly from the cells and the table, without a job.
ghost use Rattle.std.specs.Prelude.{◌≡◌, ℕ, ◌+◌, ◌*◌, ◌/◌, ◌<◌, length, true, slice_get, slice_range};
ghost use Rattle.lv_geometry.specs.Nodes.{child, is_below, parent};
ghost use Rattle.lv_bodies.specs.Body.{fold_of};
ghost use Rattle.lv_edits.specs.History.{list_of};
ghost use Rattle.lv_edits.specs.Touch.{elements_under};
ghost use Rattle.lv_summary.specs.Agrees.{Agrees};
ghost use Rattle.lv_summary.specs.declared.accepted.Accepted.TheVariants.{Installed};
ghost use Rattle.lv_summary.specs.Changes.{Keeps};
ghost use Rattle.lv_summary.specs.Table.{delivery_in, entry_in, whole_in};
ghost use Rattle.lv_refresh.specs.ClaimTable.{claim_blocks};
ghost use Rattle.lv_refresh.specs.Inner.{HintsNode, IsReady};

use crate::claims::Claims;
use lv_bodies::{Body, fold_slice};
use lv_edits::Edits;
use lv_geometry::Node;
use lv_summary::Summaries;

/// Keeps the fold of the elements of a node that is due, and hints at its parent. It is made anew for each level, so that no row is
/// picked by the number of its level.
#[inline(always)]
pub fn refresh_node<B: Body>(
    claims: &mut Claims,
    history: &Edits,
    table: &mut Summaries<B::S>,
    body: &B,
    node: Node,
    version: u32,
)
    requires agrees { Agrees (B.operations body.now) history.now.journal table.old }
    requires due { delivery_in table.old node version ≡ Installed }
    requires ready { IsReady table.old node }
    requires inside { is_below node (8 * claim_blocks claims.old) ≡ true }
    ensures keeps { Keeps table.old table.new node version (fold_of (B.operations body.now) (elements_under history.now.journal node)) }
    ensures hinted { HintsNode claims.old claims.new (parent node) }
{
    if node.level == 1 {
        return refresh_at(claims, history, table, body, on_level(node, 1), version);
    }
    if node.level == 2 {
        return refresh_at(claims, history, table, body, on_level(node, 2), version);
    }
    if node.level == 3 {
        return refresh_at(claims, history, table, body, on_level(node, 3), version);
    }
    if node.level == 4 {
        return refresh_at(claims, history, table, body, on_level(node, 4), version);
    }
    if node.level == 5 {
        return refresh_at(claims, history, table, body, on_level(node, 5), version);
    }
    refresh_at(claims, history, table, body, node, version)
}

// A node itself, whose level is known where this is written.
#[inline(always)]
fn on_level(node: Node, level: u32) -> Node
    requires { node.level ≡ level }
    ensures { result ≡ node }
{
    Node {
        level,
        number: node.number,
    }
}

// What `refresh_node` does.
#[inline(always)]
fn refresh_at<B: Body>(
    claims: &mut Claims,
    history: &Edits,
    table: &mut Summaries<B::S>,
    body: &B,
    node: Node,
    version: u32,
)
    requires agrees { Agrees (B.operations body.now) history.now.journal table.old }
    requires due { delivery_in table.old node version ≡ Installed }
    requires ready { IsReady table.old node }
    requires inside { is_below node (8 * claim_blocks claims.old) ≡ true }
    ensures keeps { Keeps table.old table.new node version (fold_of (B.operations body.now) (elements_under history.now.journal node)) }
    ensures hinted { HintsNode claims.old claims.new (parent node) }
{
    let summary = summary_of(history, table, body, node);
    table.install_due(node, version, summary);
    claims.hint_parent(node);
}

// The fold of a whole node's elements, computed without copying its contents: from the elements of a block, and above from the summaries of the
// children, which are fresh.
#[inline(always)]
fn summary_of<B: Body>(history: &Edits, table: &Summaries<B::S>, body: &B, node: Node) -> B::S
    requires agrees { Agrees (B.operations body.now) history.now.journal table.now }
    requires whole { whole_in table.now node ≡ true }
    requires ready { IsReady table.now node }
    ensures { result ≡ fold_of (B.operations body.now) (elements_under history.now.journal node) }
{
    if node.level == 1 {
        fold_block(history, table, body, node)
    } else {
        join_node(history, table, body, node)
    }
}

// The fold of the elements of a whole block, which are only copied if a write among them is pending. The table only says that the block is whole.
#[inline(always)]
fn fold_block<B: Body>(history: &Edits, _table: &Summaries<B::S>, body: &B, block: Node) -> B::S
    requires agrees { Agrees (B.operations body.now) history.now.journal _table.now }
    requires whole { whole_in _table.now block ≡ true }
    requires level { block.level ≡ 1 }
    ensures { result ≡ fold_of (B.operations body.now) (elements_under history.now.journal block) }
{
    // The elements are few enough for a fold, and their indices are of 32 bits.
    let _size = history.size();
    let first = 8 * block.number;
    let elements = history.stretch(first, first + 8);
    if elements.len() == 8 {
        return fold_slice(body, elements);
    }
    let elements = history.block(block.number);
    fold_slice(body, &elements)
}

/// The fold of the elements of a whole block. `near` are elements from the first of its word of 64 blocks on, as far as they are in neighbouring
/// cells; those of the block are among them, but for a bucket's end or a pending write.
#[inline(always)]
pub fn fold_near<B: Body>(
    history: &Edits,
    table: &Summaries<B::S>,
    body: &B,
    near: &[i64],
    block: Node,
) -> B::S
    requires agrees { Agrees (B.operations body.now) history.now.journal table.now }
    requires whole { whole_in table.now block ≡ true }
    requires level { block.level ≡ 1 }
    requires near { near.now ≡ slice_range (list_of history.now.journal) (512 * (block.number / 64)) (512 * (block.number / 64) + length near.now) }
    ensures { result ≡ fold_of (B.operations body.now) (elements_under history.now.journal block) }
{
    let from = block.number as usize % 64 * 8;
    match near.get(from..from + 8) {
        Some(elements) => fold_slice(body, elements),
        None => fold_block(history, table, body, block),
    }
}

// The join of the summaries of a whole node's children, from left to right.
#[inline(always)]
fn join_children<B: Body>(history: &Edits, table: &Summaries<B::S>, body: &B, node: Node) -> B::S
    requires agrees { Agrees (B.operations body.now) history.now.journal table.now }
    requires whole { whole_in table.now node ≡ true }
    requires above { 1 < node.level }
    requires ready { IsReady table.now node }
    ensures { result ≡ fold_of (B.operations body.now) (elements_under history.now.journal node) }
{
    // The elements are few enough for a fold, and the children's numbers are of 32 bits.
    let _size = history.size();
    let mut sum = body.identity();
    for k in 0..8 {
        sum = body.combine(sum, table.summary(node.child(k)));
    }
    sum
}

// The join of the summaries of a whole node's children, from left to right, from neighbouring rows if they all were written.
#[inline(always)]
fn join_node<B: Body>(history: &Edits, table: &Summaries<B::S>, body: &B, node: Node) -> B::S
    requires agrees { Agrees (B.operations body.now) history.now.journal table.now }
    requires whole { whole_in table.now node ≡ true }
    requires above { 1 < node.level }
    requires ready { IsReady table.now node }
    ensures { result ≡ fold_of (B.operations body.now) (elements_under history.now.journal node) }
{
    match table.children(node) {
        Some(summaries) => join_all(history, table, body, node, summaries),
        None => join_children(history, table, body, node),
    }
}

// The join of eight summaries, which are those of a node's children. The table only says so.
#[inline(always)]
fn join_all<B: Body>(
    history: &Edits,
    _table: &Summaries<B::S>,
    body: &B,
    node: Node,
    summaries: &[B::S],
) -> B::S
    requires agrees { Agrees (B.operations body.now) history.now.journal _table.now }
    requires above { 1 < node.level }
    requires eight { length summaries.now ≡ 8 }
    requires entries { (k : ℕ) → k < 8 → slice_get summaries.now k ≡ entry_in _table.now (child node k) }
    ensures { result ≡ fold_of (B.operations body.now) (elements_under history.now.journal node) }
{
    // The elements are few enough for a fold.
    let _size = history.size();
    let mut sum = body.identity();
    for k in 0..8 {
        sum = body.combine(sum, summaries[k]);
    }
    sum
}
