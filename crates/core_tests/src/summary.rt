//! Tests of the table of summaries, which a caller may hold without a vector: what it keeps, for which nodes, and as it grows.
ghost use Rattle.std.specs.Prelude.{◌≡◌, ◌*◌, ◌≤◌, OnOk};
ghost use Rattle.lv_summary.specs.Table.{blocks_in};

use crate::same::assert_same;
use lv_geometry::{Node, Refusal};
use lv_summary::{Accepted, Summaries};
use std::process::Abort;

fn node(level: u32, number: u32) -> Node {
    Node { level, number }
}

// Makes room for blocks, and has edits 1, 2, 3 and so on touch their indices in turn.
fn fill(table: &mut Summaries<u64>, blocks: u32) -> Result<(), Refusal>
    requires { blocks ≤ 8 }
    ensures { OnOk result (blocks ≤ blocks_in table.new) }
{
    table.grow(blocks)?;
    for i in 0..8 * blocks {
        table.touch(i, i + 1);
    }
    table.set_size(8 * blocks);
    Ok(())
}

fn check_block(rt: &impl Abort, table: &mut Summaries<u64>) -> Result<(), Refusal> {
    fill(table, 1)?;
    let block = node(1, 0);
    assert_same(
        rt,
        &(table.touched(block), table.whole(block), table.fresh(block)),
        &(8, true, false),
    );
    assert_same(rt, &table.install(block, 8, 36), &Accepted::Installed);
    assert_same(rt, &table.entry(block), &Some(36));
    assert_same(rt, &table.install(block, 8, 36), &Accepted::Held);
    assert_same(
        rt,
        &table.install(block, 7, 36),
        &Accepted::Stale { now: 8 },
    );
    table.set_size(7);
    assert_same(
        rt,
        &table.install(block, 8, 36),
        &Accepted::Stale { now: 8 },
    );
    assert_same(rt, &table.entry(block), &None);
    table.set_size(8);
    assert_same(
        rt,
        &(table.entry(block), table.kept_version(block)),
        &(Some(36), Some(8)),
    );
    Ok(())
}

#[test]
fn a_summary_is_kept_for_a_block(rt: HostRuntime) -> Result<(), Refusal> {
    let mut table = Summaries::new(rt.alloc(), 0);
    let seen = check_block(&rt, &mut table);
    drop(table);
    seen
}
