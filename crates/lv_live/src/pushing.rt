//! How the table of summaries and the claims follow many pushes at once.
ghost use Rattle.std.specs.Prelude.{◌≡◌, ◌+◌, ◌*◌, ◌<◌, ◌≤◌};
ghost use Rattle.lv_summary.specs.Table.{blocks_in};
ghost use Rattle.lv_refresh.specs.ClaimTable.{claim_blocks};
ghost use Rattle.lv_live.specs.Pushed.{PushesFollow};

use crate::following::{Touched, follow};
use lv_refresh::Claims;
use lv_summary::Summaries;

/// Takes note of pushes that were made from an index on, after so many edits: once for each block that they touched, by the last of them there.
pub fn follow_pushes<S: Copy>(
    table: &mut Summaries<S>,
    claims: &mut Claims,
    first: u32,
    edit: u32,
    count: u32,
)
    requires size { table.old.size ≡ first }
    requires some { 0 < count }
    requires rows { first + count ≤ 8 * blocks_in table.old }
    requires claim_rows { first + count ≤ 8 * claim_blocks claims.old }
    requires few { first + count ≤ 1048568 }
    requires edit { edit + count ≤ 16777215 }
    ensures { PushesFollow table.old table.new claims.old claims.new first edit count }
{
    let mut done = 0;
    while done < count {
        let to = done + (8 - (first + done) % 8).min(count - done);
        let size = first + to;
        follow(table, claims, Touched::One(size - 1), edit + to, size);
        done = to;
    }
}
