//! Values that are put one after another, with the numbers of their edits.
ghost use Rattle.std.specs.Prelude.{All, ◌≡◌, ◌+◌, ◌*◌, ◌≤◌, length};
ghost use Rattle.lv_geometry.specs.Elements.{IsElement};
ghost use Rattle.lv_store.specs.Directory.{with_run};
ghost use Rattle.lv_store.specs.State.{with_versions};

use crate::directories::Directory;

/// Puts values into the cells from an index on, and the number of the edit of each for its block.
pub fn put_all(
    values: &mut Directory<i64>,
    versions: &mut Vec<u32>,
    edit: u32,
    size: u32,
    xs: &[i64],
)
    requires values { size + length xs.now ≤ length values.old.cells }
    requires versions { length values.old.cells ≤ 8 * length versions.old.items }
    requires few { length values.old.cells ≤ 1048568 }
    requires edits { edit + length xs.now ≤ 16777215 }
    ensures values { values.new ≡ record values.old { cells = with_run values.old.cells size xs.now } }
    ensures versions { versions.new.items ≡ with_versions versions.old.items size edit xs.now }
    ensures elements { All IsElement xs.now }
{
    for k in 0..xs.len() {
        let i = size + k as u32;
        values.set(i, xs[k]);
        versions[(i / 8) as usize] = edit + k as u32 + 1;
    }
}
