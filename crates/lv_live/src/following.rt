//! How the table of summaries and the claims follow an edit: which indices it touches, and rows for their blocks.
ghost use Rattle.std.specs.Prelude.{◌≡◌, ◌+◌, ◌*◌, ◌/◌, ◌<◌, ◌≤◌, ℤ, List, length, OnOk, OnErr, IfErr};
ghost use Rattle.lv_edits.specs.Touch.{indices_written};
ghost use Rattle.lv_summary.specs.Changes.{AnswersAlike, TouchesEach};
ghost use Rattle.lv_summary.specs.Table.{blocks_in};
ghost use Rattle.lv_refresh.specs.ClaimTable.{claim_blocks};
ghost use Rattle.lv_live.specs.Follows.{ClaimsAlike, ClaimsFollow, HaveBlocks, HaveRows, TableFollows, indices_in};

use lv_edits::Edit;
use lv_geometry::Refusal;
use lv_refresh::Claims;
use lv_summary::Summaries;

/// The indices that an edit touches: none, one, or two that may be the same.
#[derive(Clone, Copy)]
pub enum Touched {
    Nothing,
    One(u32),
    Two(u32, u32),
}

/// The indices at which an edit of a vector of this size writes.
#[inline(always)]
pub fn touched_indices(edit: &Edit, size: u32) -> Touched
    ensures { (xs : List ℤ) → length xs ≡ size → indices_in result ≡ indices_written xs edit.now }
{
    match edit {
        Edit::Push(_) => Touched::One(size),
        Edit::Write { index, .. } => Touched::One(*index),
        Edit::Swap { first, second } => Touched::Two(*first, *second),
        Edit::Pop | Edit::Reserve(_) | Edit::Truncate(_) => Touched::Nothing,
    }
}

// Makes rows for the block of an index, and for all blocks before it: in the table, and then for claims. They are made for 64 blocks
// at once, so that most pushes make none.
#[inline(always)]
fn make_row<S: Copy>(
    table: &mut Summaries<S>,
    claims: &mut Claims,
    index: u32,
) -> Result<(), Refusal>
    requires { index < 1048568 }
    ensures table { AnswersAlike table.old table.new }
    ensures more { blocks_in table.old ≤ blocks_in table.new }
    ensures claims { ClaimsAlike claims.old claims.new }
    ensures rows { OnOk result (index / 8 < blocks_in table.new) }
    ensures claim_rows { OnOk result (index / 8 < claim_blocks claims.new) }
    ensures err { IfErr result (λ refusal. refusal ≡ Refusal.NoMemory) }
{
    let blocks = (index / 512 * 64 + 64).min(131_071);
    if table.blocks() < blocks {
        table.grow(blocks)?;
    }
    if claims.blocks() < blocks {
        claims.grow(blocks)?;
    }
    Ok(())
}

/// Makes rows for the blocks of the indices that are to be touched: in the table, and then for claims.
#[inline(always)]
pub fn make_room<S: Copy>(
    table: &mut Summaries<S>,
    claims: &mut Claims,
    touched: Touched,
) -> Result<(), Refusal>
    requires { HaveBlocks (indices_in touched) }
    ensures table { AnswersAlike table.old table.new }
    ensures more { blocks_in table.old ≤ blocks_in table.new }
    ensures claims { ClaimsAlike claims.old claims.new }
    ensures rows { OnOk result (HaveRows (blocks_in table.new) (indices_in touched)) }
    ensures claim_rows { OnOk result (HaveRows (claim_blocks claims.new) (indices_in touched)) }
    ensures err { IfErr result (λ refusal. refusal ≡ Refusal.NoMemory) }
{
    match touched {
        Touched::Nothing => Ok(()),
        Touched::One(index) => make_row(table, claims, index),
        Touched::Two(first, second) => make_row(table, claims, first.max(second)),
    }
}

// Touches each of these indices.
#[inline(always)]
fn touch_each<S: Copy>(table: &mut Summaries<S>, claims: &mut Claims, touched: Touched, edit: u32)
    requires rows { HaveRows (blocks_in table.old) (indices_in touched) }
    requires claim_rows { HaveRows (claim_blocks claims.old) (indices_in touched) }
    requires edit { edit ≤ 16777215 }
    ensures table { TouchesEach table.old table.new (indices_in touched) edit }
    ensures claims { ClaimsFollow claims.old claims.new (indices_in touched) }
{
    match touched {
        Touched::Nothing => {}
        Touched::One(index) => {
            table.touch(index, edit);
            claims.touch(index);
        }
        Touched::Two(first, second) => {
            table.touch(first, edit);
            table.touch(second, edit);
            claims.touch(first);
            claims.touch(second);
        }
    }
}

/// Takes note of an edit, given the indices that it touched, its number, and the size after it.
#[inline(always)]
pub fn follow<S: Copy>(
    table: &mut Summaries<S>,
    claims: &mut Claims,
    touched: Touched,
    edit: u32,
    size: u32,
)
    requires rows { HaveRows (blocks_in table.old) (indices_in touched) }
    requires claim_rows { HaveRows (claim_blocks claims.old) (indices_in touched) }
    requires edit { edit ≤ 16777215 }
    requires size { size ≤ 8 * blocks_in table.old }
    ensures table { TableFollows table.old table.new (indices_in touched) edit size }
    ensures claims { ClaimsFollow claims.old claims.new (indices_in touched) }
{
    touch_each(table, claims, touched, edit);
    table.set_size(size);
}
