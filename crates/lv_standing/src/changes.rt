//! Which elements an edit changes, and the size after it.
ghost use Rattle.std.specs.Prelude.{◌≡◌, ◌≤◌, ℤ, List, length};
ghost use Rattle.lv_edits.specs.Touch.{indices_written};
ghost use Rattle.lv_live.specs.Follows.{indices_in};
ghost use Rattle.lv_standing.specs.Inner.{IsChangedBy, pushed_by, size_after};

use lv_edits::Edit;
use lv_live::{Touched, touched_indices};

/// What an edit changes: the indices at which it writes (`written`), the size after it (`from`) and before it (`to`), and the element
/// that it appends, if it appends one. The indices that it drops are those from the size after it up to the size before it.
#[derive(Clone, Copy)]
pub struct Changed {
    pub written: Touched,
    pub from: u32,
    pub to: u32,
    pub pushed: Option<i64>,
}

/// What an edit of a vector of this size changes.
#[inline(always)]
pub fn changed_by(edit: &Edit, size: u32) -> Changed
    requires { size ≤ 1048568 }
    ensures { (xs : List ℤ) → length xs ≡ size → IsChangedBy xs edit.now result }
{
    Changed {
        written: touched_indices(edit, size),
        from: size_after(edit, size),
        to: size,
        pushed: pushed_by(edit),
    }
}

/// How many elements a vector of this size has after an edit that it accepts.
#[inline(always)]
pub fn size_after(edit: &Edit, size: u32) -> u32
    requires { size ≤ 1048568 }
    ensures { result ≡ size_after size edit.now }
{
    match edit {
        Edit::Push(_) => size + 1,
        Edit::Pop => size.saturating_sub(1),
        Edit::Truncate(count) => *count,
        Edit::Write { .. } | Edit::Reserve(_) | Edit::Swap { .. } => size,
    }
}

// The element that an edit appends, if it appends one.
#[inline(always)]
fn pushed_by(edit: &Edit) -> Option<i64>
    ensures { result ≡ pushed_by edit.now }
{
    match edit {
        Edit::Push(x) => Some(*x),
        Edit::Pop | Edit::Write { .. } | Edit::Reserve(_) | Edit::Swap { .. } | Edit::Truncate(_) =>
            None,
    }
}
