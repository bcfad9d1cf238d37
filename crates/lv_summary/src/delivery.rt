//! What becomes of a summary that is delivered, and whether nodes are whole and fresh.
ghost use Rattle.std.specs.Prelude.{◌≡◌, ◌≤◌, true, false, IfSome, IfNone};
ghost use Rattle.lv_geometry.specs.Nodes.{is_node};
ghost use Rattle.lv_summary.specs.Inner.{IsLevelOf, IsRowOf, IsSound, table_of};
ghost use Rattle.lv_summary.specs.Changes.{AfterDelivery, Keeps};
ghost use Rattle.lv_summary.specs.Table.{delivery_in, fresh_in, touched_in, whole_in};

use crate::accepted::Accepted;
use crate::level::Level;
use lv_geometry::{Levels, Node};

/// What would become of a summary of a version that is delivered to the table of six levels and a size. It is installed if the node is whole, was
/// touched last by the edit of that number, and has no summary of that version yet.
pub fn delivery<S: Copy>(levels: &Levels<Level<S>>, size: u32, node: Node, version: u32) -> Accepted
    requires { IsSound (table_of size levels.now) }
    ensures { result ≡ delivery_in (table_of size levels.now) node version }
{
    let now = last_touch(levels, size, node);
    if !node.is_whole(size) || now != version {
        return Accepted::Stale { now };
    }
    if is_fresh(levels, size, node) {
        return Accepted::Held;
    }
    Accepted::Installed
}

/// Delivers a summary of a version, and returns what became of it.
pub fn deliver<S: Copy>(
    levels: &mut Levels<Level<S>>,
    size: u32,
    node: Node,
    version: u32,
    s: S,
) -> Accepted
    requires { IsSound (table_of size levels.old) }
    ensures sound { IsSound (table_of size levels.new) }
    ensures answer { result ≡ delivery_in (table_of size levels.old) node version }
    ensures after { AfterDelivery (table_of size levels.old) (table_of size levels.new) node version s result }
{
    let accepted = delivery(levels, size, node, version);
    if let Accepted::Installed = accepted {
        keep(levels, size, node, version, s);
    }
    accepted
}

// Keeps a summary of a version for a whole node. The size only says which nodes are whole.
fn keep<S: Copy>(levels: &mut Levels<Level<S>>, size: u32, node: Node, version: u32, s: S)
    requires sound { IsSound (table_of size levels.old) }
    requires whole { whole_in (table_of size levels.old) node ≡ true }
    requires version { version ≤ 16777215 }
    ensures sound { IsSound (table_of size levels.new) }
    ensures kept { Keeps (table_of size levels.old) (table_of size levels.new) node version s }
{
    levels.at_mut(node.level).keep(node.number, version, s);
}

/// The number of the last edit that touched a node; 0 if none did, and outside the table.
#[inline(always)]
pub fn last_touch<S: Copy>(levels: &Levels<Level<S>>, size: u32, node: Node) -> u32
    requires { IsSound (table_of size levels.now) }
    ensures value { result ≡ touched_in (table_of size levels.now) node }
    ensures bound { result ≤ 16777215 }
{
    match level_of(levels, size, node) {
        Some(level) => level.touched(node.number),
        None => 0,
    }
}

/// Whether a node is whole, and what is kept for it has the number of the last edit that touched it.
#[inline(always)]
pub fn is_fresh<S: Copy>(levels: &Levels<Level<S>>, size: u32, node: Node) -> bool
    requires { IsSound (table_of size levels.now) }
    ensures { result ≡ fresh_in (table_of size levels.now) node }
{
    match whole_level(levels, size, node) {
        Some(level) => level.is_current(node.number),
        None => false,
    }
}

/// The level of a node that is whole. The node has a row in it. None if the node is not whole.
#[inline(always)]
pub fn whole_level<S: Copy>(levels: &Levels<Level<S>>, size: u32, node: Node) -> Option<&Level<S>>
    requires { IsSound (table_of size levels.now) }
    ensures some { IfSome result (λ level. IsRowOf (table_of size levels.now) node level.now.rows) }
    ensures none { IfNone result (whole_in (table_of size levels.now) node ≡ false) }
{
    if node.is_whole(size) {
        level_of(levels, size, node)
    } else {
        None
    }
}

/// The level of a node; none if there is no such level.
#[inline(always)]
pub fn level_of<S: Copy>(levels: &Levels<Level<S>>, size: u32, node: Node) -> Option<&Level<S>>
    requires { IsSound (table_of size levels.now) }
    ensures some { IfSome result (λ level. IsLevelOf (table_of size levels.now) node level.now.rows) }
    ensures none { IfNone result (is_node node ≡ false) }
{
    if node.level == 0 || node.level > 6 {
        return None;
    }
    Some(levels.at(node.level))
}
