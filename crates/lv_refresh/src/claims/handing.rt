//! The job that is handed out for a node.
ghost use Rattle.std.specs.Prelude.{◌≡◌, ◌<◌, true, false, IfSome, IfNone};
ghost use Rattle.lv_summary.specs.Agrees.{Agrees};
ghost use Rattle.lv_summary.specs.Table.{whole_in};
ghost use Rattle.lv_refresh.specs.Inner.{IsJobOf, children_fresh_in};

use crate::contents::Contents;
use crate::gathering::children_of;
use crate::jobs::{Job, JobOf};
use lv_bodies::Body;
use lv_edits::Edits;
use lv_geometry::Node;
use lv_summary::Summaries;

/// The job of a node that wants one; none if one of its children is not fresh.
#[inline(always)]
pub fn job_of<B: Body>(
    history: &Edits,
    table: &Summaries<B::S>,
    node: Node,
    version: u32,
    body: B,
) -> Option<Job<B>>
    requires agrees { Agrees (B.operations body) history.now.journal table.now }
    requires whole { whole_in table.now node ≡ true }
    ensures job { IfSome result (λ job. IsJobOf history.now.journal table.now node version body job) }
    ensures none { IfNone result ((1 < node.level) × (children_fresh_in table.now node ≡ false)) }
{
    if node.level == 1 {
        block_job(history, table, node, version, body)
    } else {
        parent_job(history, table, node, version, body)
    }
}

// The job of a block. It has a function of its own, since most jobs are of blocks, and eight summaries are wide.
#[inline(never)]
fn block_job<B: Body>(
    history: &Edits,
    table: &Summaries<B::S>,
    node: Node,
    version: u32,
    body: B,
) -> Option<Job<B>>
    requires agrees { Agrees (B.operations body) history.now.journal table.now }
    requires whole { whole_in table.now node ≡ true }
    requires level { node.level ≡ 1 }
    ensures job { IfSome result (λ job. IsJobOf history.now.journal table.now node version body job) }
    ensures some { IfNone result ⊥ }
{
    // The elements are few enough for a fold, and of 64 bits.
    let _size = history.size();
    let elements = history.block(node.number);
    Some(JobOf::new(node, version, Contents::Elements(elements), body))
}

// The job of a node above level 1; none if one of its children is not fresh.
#[inline(never)]
fn parent_job<B: Body>(
    history: &Edits,
    table: &Summaries<B::S>,
    node: Node,
    version: u32,
    body: B,
) -> Option<Job<B>>
    requires agrees { Agrees (B.operations body) history.now.journal table.now }
    requires whole { whole_in table.now node ≡ true }
    requires above { 1 < node.level }
    ensures job { IfSome result (λ job. IsJobOf history.now.journal table.now node version body job) }
    ensures none { IfNone result (children_fresh_in table.now node ≡ false) }
{
    // The elements are few enough for a fold, and of 64 bits.
    let _size = history.size();
    let summaries = children_of(table, node)?;
    Some(JobOf::new(node, version, Contents::Children(summaries), body))
}
