//! The lines of reply to edits and reads, and those of refusals.
ghost use Rattle.std.specs.Prelude.{◌≡◌, ◌+◌, ◌≤◌, ◌++◌, IfSome, codes, length, map, decimal, vec_len};
ghost use Rattle.std.specs.Fmt.{signed_decimal};
ghost use Rattle.lv_edits.specs.declared.receipt.Receipt.TheVariants as receipt;
ghost use Rattle.lv_lines.specs.Output.{HasRoom, KeepsRoom};
ghost use Rattle.lv_lines.specs.Grammar.{command_of};
ghost use Rattle.lv_lines.specs.Words.{spaced};
ghost use Rattle.lv_lines.specs.Texts.{answer_text, bad_text, capacity_text, numbered, receipt_text, refused_by, refused_text, reply_line, scan_head, settled_text, size_text, shown_text, element_text, unasked_text, value_text};

use crate::backward_line::BackwardLine;
use crate::lines::Line;
use crate::output::{put, put_element, put_number, put_wide};
use crate::words::{kind_name, scan_name};
use lv_bodies::{Kind, Shown};
use lv_edits::Receipt;
use lv_geometry::Refusal;

/// At most how many bytes one line of reply has.
pub const LINE: usize = 256;

/// Puts the reply to an accepted update.
pub fn put_receipt(held: &mut Vec<u8>, receipt: Receipt)
    requires { HasRoom held.old LINE }
    ensures text { held.new.items ≡ held.old.items ++ receipt_text receipt }
    ensures len { vec_len held.new ≤ vec_len held.old + LINE }
    ensures room { KeepsRoom held.old held.new }
{
    put_receipt_at(held, edit_of(receipt), receipt);
}

// The number of the edit that a receipt is of.
#[inline(always)]
fn edit_of(receipt: Receipt) -> u64
    ensures { numbered result receipt ≡ receipt }
{
    match receipt {
        Receipt::Pushed { edit, .. } => edit.into(),
        Receipt::Popped { edit, .. } => edit.into(),
        Receipt::Written { edit, .. } => edit.into(),
        Receipt::Reserved { edit, .. } => edit.into(),
        Receipt::Swapped { edit, .. } => edit.into(),
        Receipt::Truncated { edit, .. } => edit.into(),
    }
}

/// Puts the reply to an accepted update, with another number than the update's own.
#[inline(always)]
pub fn put_receipt_at(held: &mut Vec<u8>, number: u64, receipt: Receipt)
    requires { HasRoom held.old LINE }
    ensures text { held.new.items ≡ held.old.items ++ receipt_text (numbered number receipt) }
    ensures len { vec_len held.new ≤ vec_len held.old + LINE }
    ensures room { KeepsRoom held.old held.new }
{
    match receipt {
        Receipt::Pushed { edit: _, index } => put_counted(held, number, b" at ", index.into()),
        Receipt::Popped { edit: _, value } => put_valued(held, number, b" value ", value),
        Receipt::Written { edit: _, before } => put_valued(held, number, b" was ", before),
        Receipt::Reserved { edit: _, capacity } => {
            put_counted(held, number, b" capacity ", capacity.into());
        }
        Receipt::Swapped {
            edit: _,
            first,
            second,
        } => put_swapped(held, number, first, second),
        Receipt::Truncated { edit: _, dropped } => {
            put_counted(held, number, b" dropped ", dropped.into());
        }
    }
}

/// Puts a line of an update, with a word and a count after it.
#[inline(always)]
pub fn put_counted(held: &mut Vec<u8>, edit: u64, word: &[u8], count: u64)
    requires room { HasRoom held.old 80 }
    requires short { length word.now ≤ 20 }
    ensures text { held.new.items ≡ held.old.items ++ reply_line (codes "edit " ++ decimal edit ++ word.now ++ decimal count) }
    ensures len { vec_len held.new ≤ vec_len held.old + 80 }
    ensures room { KeepsRoom held.old held.new }
{
    let mut line = BackwardLine::new();
    line.put_number(count);
    line.put(word);
    line.put_number(edit);
    line.put(b"edit ");
    put(held, line.as_bytes());
}

/// Puts a line of an update, with a word and an element after it.
#[inline(always)]
pub fn put_valued(held: &mut Vec<u8>, edit: u64, word: &[u8], x: i64)
    requires room { HasRoom held.old 80 }
    requires short { length word.now ≤ 20 }
    ensures text { held.new.items ≡ held.old.items ++ reply_line (codes "edit " ++ decimal edit ++ word.now ++ signed_decimal x) }
    ensures len { vec_len held.new ≤ vec_len held.old + 80 }
    ensures room { KeepsRoom held.old held.new }
{
    let mut line = BackwardLine::new();
    line.put_element(x);
    line.put(word);
    line.put_number(edit);
    line.put(b"edit ");
    put(held, line.as_bytes());
}

/// Puts the line of a swap: the elements at its two indices after it.
pub fn put_swapped(held: &mut Vec<u8>, edit: u64, first: i64, second: i64)
    requires { HasRoom held.old 80 }
    ensures text { held.new.items ≡ held.old.items ++ receipt_text (receipt.Swapped edit first second) }
    ensures len { vec_len held.new ≤ vec_len held.old + 80 }
    ensures room { KeepsRoom held.old held.new }
{
    let mut line = BackwardLine::new();
    line.put_element(second);
    line.put(b" ");
    line.put_element(first);
    line.put(b" now ");
    line.put_number(edit);
    line.put(b"edit ");
    put(held, line.as_bytes());
}

/// A refusal.
pub fn put_refusal(held: &mut Vec<u8>, refusal: Refusal)
    requires { HasRoom held.old LINE }
    ensures text { held.new.items ≡ held.old.items ++ refused_text refusal }
    ensures room { KeepsRoom held.old held.new }
{
    put_refused(held, refusal.number());
}

/// A refusal, by its number.
pub fn put_refused(held: &mut Vec<u8>, number: u32)
    requires { HasRoom held.old LINE }
    ensures text { held.new.items ≡ held.old.items ++ refused_by number }
    ensures room { KeepsRoom held.old held.new }
{
    put(held, b"refused ");
    put_number(held, number.into());
    put(held, b"\n");
}

/// That line `number` says nothing known.
pub fn put_bad(held: &mut Vec<u8>, number: u32)
    requires { HasRoom held.old LINE }
    ensures text { held.new.items ≡ held.old.items ++ bad_text number }
    ensures room { KeepsRoom held.old held.new }
{
    put(held, b"bad ");
    put_number(held, number.into());
    put(held, b"\n");
}

/// The command that a line is, if it is one. A bad line is answered by its number, and a line that says nothing has no reply.
pub fn command_of<C: Copy>(number: u32, line: Line<C>, held: &mut Vec<u8>) -> Option<C>
    requires { HasRoom held.old LINE }
    ensures command { result ≡ command_of line }
    ensures text { held.new.items ≡ held.old.items ++ unasked_text number line }
    ensures len { IfSome result (λ _. vec_len held.new ≡ vec_len held.old) }
    ensures room { KeepsRoom held.old held.new }
{
    match line {
        Line::Nothing => None,
        Line::Bad => {
            put_bad(held, number);
            None
        }
        Line::Do(command) => Some(command),
    }
}

/// That a pending write is complete.
pub fn put_settled(held: &mut Vec<u8>)
    requires { HasRoom held.old LINE }
    ensures text { held.new.items ≡ held.old.items ++ settled_text }
    ensures room { KeepsRoom held.old held.new }
{
    put(held, b"settled\n");
}

/// An element, or why there is none.
pub fn put_value(held: &mut Vec<u8>, value: Result<i64, Refusal>)
    requires { HasRoom held.old LINE }
    ensures text { held.new.items ≡ held.old.items ++ element_text value }
    ensures room { KeepsRoom held.old held.new }
{
    match value {
        Ok(x) => put_found(held, x),
        Err(refusal) => put_refusal(held, refusal),
    }
}

/// An element that was asked for.
pub fn put_found(held: &mut Vec<u8>, x: i64)
    requires { HasRoom held.old LINE }
    ensures text { held.new.items ≡ held.old.items ++ value_text x }
    ensures room { KeepsRoom held.old held.new }
{
    let mut line = BackwardLine::new();
    line.put_element(x);
    line.put(b"value ");
    put(held, line.as_bytes());
}

/// The size, and the number of the last edit.
pub fn put_size(held: &mut Vec<u8>, size: u64, edit: u64)
    requires { HasRoom held.old LINE }
    ensures text { held.new.items ≡ held.old.items ++ size_text size edit }
    ensures room { KeepsRoom held.old held.new }
{
    let mut line = BackwardLine::new();
    line.put_number(edit);
    line.put(b" edit ");
    line.put_number(size);
    line.put(b"size ");
    put(held, line.as_bytes());
}

/// How many elements the open buckets hold.
pub fn put_capacity(held: &mut Vec<u8>, cells: u32)
    requires { HasRoom held.old LINE }
    ensures text { held.new.items ≡ held.old.items ++ capacity_text cells }
    ensures room { KeepsRoom held.old held.new }
{
    put(held, b"capacity ");
    put_number(held, cells.into());
    put(held, b"\n");
}

/// The value of a kind at an edit.
pub fn put_answer(held: &mut Vec<u8>, edit: u64, kind: Kind, value: Shown)
    requires { HasRoom held.old LINE }
    ensures text { held.new.items ≡ held.old.items ++ answer_text edit kind value }
    ensures room { KeepsRoom held.old held.new }
{
    let mut head = BackwardLine::empty();
    head.put(b" ");
    head.put(kind_name(kind).as_bytes());
    head.put(b" ");
    head.put_number(edit);
    head.put(b"at ");
    put(held, head.as_bytes());
    put_shown(held, value);
    put(held, b"\n");
}

/// How many values a scan at an edit has.
pub fn put_scan_head(held: &mut Vec<u8>, edit: u64, inclusive: bool, kind: Kind, count: u64)
    requires { HasRoom held.old LINE }
    ensures text { held.new.items ≡ held.old.items ++ scan_head edit inclusive kind count }
    ensures len { vec_len held.new ≤ vec_len held.old + LINE }
    ensures room { KeepsRoom held.old held.new }
{
    put(held, b"at ");
    put_number(held, edit);
    put(held, b" ");
    put(held, scan_name(inclusive).as_bytes());
    put(held, b" ");
    put(held, kind_name(kind).as_bytes());
    put(held, b" ");
    put_number(held, count);
    put(held, b"\n");
}

/// The value of a kind, as it is shown.
pub fn put_shown(held: &mut Vec<u8>, value: Shown)
    requires { HasRoom held.old 168 }
    ensures text { held.new.items ≡ held.old.items ++ shown_text value }
    ensures len { vec_len held.new ≤ vec_len held.old + 168 }
    ensures room { KeepsRoom held.old held.new }
{
    match value {
        Shown::Sum(n) => put_number(held, n),
        Shown::Least(None) | Shown::Greatest(None) | Shown::Best(None) => put(held, b"none"),
        Shown::Least(Some(x)) | Shown::Greatest(Some(x)) => put_element(held, x),
        Shown::Best(Some(x)) => put_wide(held, x),
        Shown::Affine { a, b } => {
            put_number(held, a.into());
            put(held, b" ");
            put_number(held, b.into());
        }
        Shown::Automaton(states) => put_states(held, states),
    }
}

// The states of an automaton, with one space between.
fn put_states(held: &mut Vec<u8>, states: [u8; 8])
    requires { HasRoom held.old 168 }
    ensures text { held.new.items ≡ held.old.items ++ spaced (map decimal states) }
    ensures len { vec_len held.new ≤ vec_len held.old + 168 }
    ensures room { KeepsRoom held.old held.new }
{
    put_number(held, states[0].into());
    for state in &states[1..] {
        put(held, b" ");
        put_number(held, (*state).into());
    }
}
