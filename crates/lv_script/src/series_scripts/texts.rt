//! Lines of reply: each is put after what is held, in room that was made before.
ghost use Rattle.std.specs.Prelude.{◌≡◌, ◌+◌, ◌≤◌, ◌++◌, codes, decimal, vec_len};
ghost use Rattle.lv_lines.specs.Output.{HasRoom, KeepsRoom};
ghost use Rattle.lv_lines.specs.Texts.{reply_line};
ghost use Rattle.lv_script.specs.LongTexts.{first_text, index_text, long_element_text, long_receipt_text, none_text, run_text};

use lv_lines::{
    LINE, put, put_counted, put_found, put_number, put_refused, put_swapped, put_valued,
};
use lv_series::{LongReceipt, LongRefusal};

/// Puts the reply to an accepted update, given the first index that is kept after it.
pub fn put_receipt(held: &mut Vec<u8>, receipt: LongReceipt, first: u64)
    requires { HasRoom held.old LINE }
    ensures text { held.new.items ≡ held.old.items ++ long_receipt_text receipt first }
    ensures len { vec_len held.new ≤ vec_len held.old + LINE }
    ensures room { KeepsRoom held.old held.new }
{
    match receipt {
        LongReceipt::Pushed { edit, index } => put_counted(held, edit, b" at ", index),
        LongReceipt::Popped { edit, value } => put_valued(held, edit, b" value ", value),
        LongReceipt::Written { edit, before } => put_valued(held, edit, b" was ", before),
        LongReceipt::Expired { edit, .. } => put_counted(held, edit, b" first ", first),
        LongReceipt::Swapped {
            edit,
            first,
            second,
        } => put_swapped(held, edit, first, second),
        LongReceipt::Truncated { edit, dropped } => put_counted(held, edit, b" dropped ", dropped),
    }
}

/// An element, or why there is none.
pub fn put_value(held: &mut Vec<u8>, value: Result<i64, LongRefusal>)
    requires { HasRoom held.old LINE }
    ensures text { held.new.items ≡ held.old.items ++ long_element_text value }
    ensures room { KeepsRoom held.old held.new }
{
    match value {
        Ok(x) => put_found(held, x),
        Err(refusal) => put_refused(held, refusal.number()),
    }
}

/// The first index that is kept, and the number of the last edit.
pub fn put_first(held: &mut Vec<u8>, first: u64, edit: u64)
    requires { HasRoom held.old LINE }
    ensures text { held.new.items ≡ held.old.items ++ first_text first edit }
    ensures room { KeepsRoom held.old held.new }
{
    put(held, b"first ");
    put_number(held, first);
    put(held, b" edit ");
    put_number(held, edit);
    put(held, b"\n");
}

/// An index at an edit, or that there is none.
pub fn put_index(held: &mut Vec<u8>, edit: u64, index: Option<u64>)
    requires { HasRoom held.old LINE }
    ensures text { held.new.items ≡ held.old.items ++ index_text edit index }
    ensures room { KeepsRoom held.old held.new }
{
    match index {
        Some(i) => put_place(held, edit, i),
        None => put_none(held, edit),
    }
}

// An index at an edit.
fn put_place(held: &mut Vec<u8>, edit: u64, i: u64)
    requires { HasRoom held.old LINE }
    ensures text { held.new.items ≡ held.old.items ++ reply_line (codes "at " ++ decimal edit ++ codes " index " ++ decimal i) }
    ensures room { KeepsRoom held.old held.new }
{
    put(held, b"at ");
    put_number(held, edit);
    put(held, b" index ");
    put_number(held, i);
    put(held, b"\n");
}

// That there is none, at an edit.
fn put_none(held: &mut Vec<u8>, edit: u64)
    requires { HasRoom held.old LINE }
    ensures text { held.new.items ≡ held.old.items ++ none_text edit }
    ensures room { KeepsRoom held.old held.new }
{
    put(held, b"at ");
    put_number(held, edit);
    put(held, b" none\n");
}

/// From which index up to which a run is, at an edit, or that there is none.
pub fn put_run(held: &mut Vec<u8>, edit: u64, run: Option<(u64, u64)>)
    requires { HasRoom held.old LINE }
    ensures text { held.new.items ≡ held.old.items ++ run_text edit run }
    ensures room { KeepsRoom held.old held.new }
{
    match run {
        Some((from, to)) => put_ends(held, edit, from, to),
        None => put_none(held, edit),
    }
}

// From which index up to which, at an edit.
fn put_ends(held: &mut Vec<u8>, edit: u64, from: u64, to: u64)
    requires { HasRoom held.old LINE }
    ensures text { held.new.items ≡ held.old.items ++ reply_line (codes "at " ++ decimal edit ++ codes " from " ++ decimal from ++ codes " to " ++ decimal to) }
    ensures room { KeepsRoom held.old held.new }
{
    put(held, b"at ");
    put_number(held, edit);
    put(held, b" from ");
    put_number(held, from);
    put(held, b" to ");
    put_number(held, to);
    put(held, b"\n");
}
