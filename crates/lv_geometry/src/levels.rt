//! A record with one value for each of the six levels of nodes.
ghost use Rattle.std.specs.Prelude.{◌≡◌, ℕ, ◌+◌, ◌*◌, ◌^◌, ◌<◌, ◌≤◌};
ghost use Rattle.std.specs.Borrow.{Lends, sem};
ghost use Rattle.std.specs.Int.{div_ceil};
ghost use Rattle.lv_geometry.specs.Levels.{thing_at, with_thing};
ghost use Rattle.lv_geometry.specs.contracts.levels.Levels.{the_row};

use crate::nodes::parents_of;

/// One value for each of the six levels of nodes.
#[derive(Drop)]
pub struct Levels<T> {
    pub level_1: T,
    pub level_2: T,
    pub level_3: T,
    pub level_4: T,
    pub level_5: T,
    pub level_6: T,
}

impl<T> Levels<T> {
    /// The value of a level.
    #[inline(always)]
    pub fn at(&self, level: u32) -> &T
        requires low { 1 ≤ level }
        requires high { level ≤ 6 }
        ensures { result.now ≡ thing_at self.now level }
    {
        match level {
            1 => &self.level_1,
            2 => &self.level_2,
            3 => &self.level_3,
            4 => &self.level_4,
            5 => &self.level_5,
            _ => &self.level_6,
        }
    }

    /// The value of a level, which the caller may change.
    #[inline(always)]
    pub fn at_mut(&mut self, level: u32) -> &mut T
        requires low { 1 ≤ level }
        requires high { level ≤ 6 }
        ensures* others { sem 𝓛 (Lends (the_row T.row) T.row self.entry result (with_thing self.old level)) }
        ensures thing { result.now ≡ thing_at self.old level }
    {
        match level {
            1 => &mut self.level_1,
            2 => &mut self.level_2,
            3 => &mut self.level_3,
            4 => &mut self.level_4,
            5 => &mut self.level_5,
            _ => &mut self.level_6,
        }
    }
}

/// How many rows each level needs for a number of blocks. Level 1 has one row for each block. Each higher level has an eighth of
/// the rows of the level below it, rounded up.
pub fn rows_of(blocks: u32) -> Levels<u32>
    ensures blocks { result.level_1 ≡ blocks }
    ensures above { (level : ℕ) → 1 ≤ level → level < 6 → thing_at result (level + 1) ≡ div_ceil (thing_at result level) 8 }
    ensures few { (level : ℕ) → 1 ≤ level → level ≤ 6 → thing_at result level ≤ blocks }
    ensures covers { (level : ℕ) → 1 ≤ level → level ≤ 6 → 8 * blocks ≤ thing_at result level * 8 ^ level }
{
    let level_2 = parents_of(blocks);
    let level_3 = parents_of(level_2);
    let level_4 = parents_of(level_3);
    let level_5 = parents_of(level_4);
    Levels {
        level_1: blocks,
        level_2,
        level_3,
        level_4,
        level_5,
        level_6: parents_of(level_5),
    }
}
