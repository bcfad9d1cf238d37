//! How the table of summaries and the claims follow many writes at once.
ghost use Rattle.std.specs.Prelude.{◌≡◌, ◌+◌, ◌*◌, ◌<◌, ◌≤◌, All, length};
ghost use Rattle.lv_refresh.specs.ClaimTable.{claim_blocks};
ghost use Rattle.lv_live.specs.Written.{WritesFollow};

use crate::following::{Touched, follow};
use lv_refresh::Claims;
use lv_summary::Summaries;

/// Takes note of writes that were made at indices, after so many edits, one by one.
pub fn follow_writes<S: Copy>(
    table: &mut Summaries<S>,
    claims: &mut Claims,
    indices: &[u32],
    edit: u32,
)
    requires inside { All (λ i. i < table.old.size) indices.now }
    requires claim_rows { table.old.size ≤ 8 * claim_blocks claims.old }
    requires edit { edit + length indices.now ≤ 16777215 }
    ensures { WritesFollow table.old table.new claims.old claims.new indices.now edit }
{
    let size = table.size();
    for place in 0..indices.len() {
        let number = edit + place as u32 + 1;
        follow(table, claims, Touched::One(indices[place]), number, size);
    }
}
