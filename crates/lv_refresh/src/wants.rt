//! Whether a node wants a job.
ghost use Rattle.std.specs.Prelude.{◌≡◌, ◌*◌, ◌^◌, ◌≤◌, length, true, false, slice_index, IfSome, IfNone};
ghost use Rattle.lv_summary.specs.Table.{touched_in};
ghost use Rattle.lv_refresh.specs.ClaimTable.{version_of};
ghost use Rattle.lv_refresh.specs.Inner.{wants_in};

use crate::level::Level;
use lv_geometry::Node;
use lv_summary::Summaries;

/// The number of the edit that touched a node last, if the node wants a job; none if it wants none. `rows` are those of its level.
#[inline(always)]
pub fn wanted<S: Copy>(rows: &Level, table: &Summaries<S>, node: Node) -> Option<u32>
    requires { table.now.size ≤ length rows.now.rows.claimed * 8 ^ node.level }
    ensures some { IfSome result (λ version. (wants_in table.now (version_of (slice_index rows.now.rows.claimed node.number)) node ≡ true)
        × (version ≡ touched_in table.now node)) }
    ensures none { IfNone result (wants_in table.now (version_of (slice_index rows.now.rows.claimed node.number)) node ≡ false) }
    ensures bound { IfSome result (λ version. version ≤ 16777215) }
{
    let Some(version) = table.due(node) else {
        return None;
    };
    if rows.is_claimed(node.number, version) {
        return None;
    }
    if node.level == 1 {
        return Some(version);
    }
    if table.children_fresh(node) {
        return Some(version);
    }
    None
}
