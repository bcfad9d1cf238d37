//! Deliveries to a node, whose summary is computed anew from the vector's current state.
ghost use Rattle.std.specs.Prelude.{◌≡◌, ◌*◌, true};
ghost use Rattle.lv_geometry.specs.Nodes.{is_below};
ghost use Rattle.lv_bodies.specs.Body.{fold_of};
ghost use Rattle.lv_edits.specs.Touch.{elements_under};
ghost use Rattle.lv_summary.specs.Agrees.{Agrees};
ghost use Rattle.lv_summary.specs.Changes.{AfterDelivery};
ghost use Rattle.lv_summary.specs.Table.{delivery_in};
ghost use Rattle.lv_refresh.specs.ClaimTable.{claim_blocks};
ghost use Rattle.lv_refresh.specs.Inner.{IsReady};
ghost use Rattle.lv_live.specs.Follows.{ClaimsHear};

use lv_bodies::Body;
use lv_edits::Edits;
use lv_geometry::Node;
use lv_refresh::{Claims, refresh_node};
use lv_summary::{Accepted, Summaries};

/// Delivers a summary of a version to a node. It is computed only if it is to be installed, from the vector's current state; the node's parent is
/// then hinted at.
pub fn deliver_anew<B: Body>(
    claims: &mut Claims,
    history: &Edits,
    table: &mut Summaries<B::S>,
    body: &B,
    node: Node,
    version: u32,
) -> Accepted
    requires agrees { Agrees (B.operations body.now) history.now.journal table.old }
    requires ready { delivery_in table.old node version ≡ Accepted.Installed → IsReady table.old node }
    requires inside { delivery_in table.old node version ≡ Accepted.Installed → is_below node (8 * claim_blocks claims.old) ≡ true }
    ensures accepted { result ≡ delivery_in table.old node version }
    ensures after { AfterDelivery table.old table.new node version (fold_of (B.operations body.now) (elements_under history.now.journal node)) result }
    ensures hears { ClaimsHear claims.old claims.new node result }
{
    let accepted = table.delivery(node, version);
    if let Accepted::Installed = accepted {
        refresh_node(claims, history, table, body, node, version);
    }
    accepted
}
