//! Scans of elements as they are read: their running values, each on a line of its own.
ghost use Rattle.std.specs.Prelude.{◌≡◌, ◌+◌, ◌<◌, ℤ, List, All, length, take, slice_index_or, if◌then◌else◌, IfErr, OnOk};
ghost use Rattle.lv_geometry.specs.Elements.{IsElement};
ghost use Rattle.lv_bodies.specs.Body.{fold_of};
ghost use Rattle.lv_bodies.specs.Long.{CanFoldLong};
ghost use Rattle.lv_bodies.specs.Plain.{plain_value, program_table};
ghost use Rattle.lv_lines.specs.Output.{HasRoom, Puts, PutsFront, SamePlaces};
ghost use Rattle.lv_lines.specs.Texts.{scan_text, values_text};
ghost use Rattle.lv_script.specs.PlainScript.{scan_by};
ghost use Rattle.lv_script.specs.Puts.{FailsToPut};

use crate::scan_replies::put_scanned;
use lv_bodies::{Affine, Automaton, Highest, Kind, Lowest, Runs, Shown, Sum, long_laws};
use lv_lines::{Fault, LINE, ReplyBuffer, put_scan_head};
use lv_tree::OfKind;
use std::io::Write;

/// A list of elements, where each is read at its index.
pub trait Elements {
    // The elements.
    ghost list: { Self → List ℤ };

    /// How many there are.
    fn count(&self) -> usize
        ensures { result ≡ length (list self.now) };

    /// The element at an index.
    fn element(&self, i: usize) -> i64
        requires { i < length (list self.now) }
        ensures { result ≡ slice_index_or (list self.now) i result };
}

/// The elements of a slice.
#[derive(Clone, Copy)]
pub struct Slice<'a> {
    pub elements: &'a [i64],
}

impl Elements for Slice<'_> {
    ghost list = { λ s. s.elements.now };

    #[inline(always)]
    fn count(&self) -> usize {
        self.elements.len()
    }

    #[inline(always)]
    fn element(&self, i: usize) -> i64 {
        self.elements[i]
    }
}

/// Puts the scan of elements by a kind, at an update. The reply may be longer than the buffer: each value is put as it is computed, so no
/// memory is taken.
pub fn put_running_scan<E: Elements, W: Write>(
    buffer: &mut ReplyBuffer<'_, W>,
    edit: u64,
    inclusive: bool,
    kind: Kind,
    elements: &E,
) -> Result<(), Fault>
    requires can { CanFoldLong (E.list elements.now) }
    requires room { HasRoom buffer.old.held.now LINE }
    ensures places { SamePlaces buffer.old buffer.new }
    ensures ok { OnOk result (Puts W.contents buffer.old buffer.new
        (scan_text edit inclusive kind (scan_by (plain_value kind) inclusive (E.list elements.now)))) }
    ensures fault { IfErr result (λ fault. (fault ≡ Fault.WriteFault) × PutsFront W.contents buffer.old buffer.new
        (scan_text edit inclusive kind (scan_by (plain_value kind) inclusive (E.list elements.now)))) }
{
    put_scan_head(buffer.held, edit, inclusive, kind, elements.count() as u64);
    put_values(buffer, inclusive, kind, elements)
}

// Puts the values of a scan, computed only by the monoid instance (body) of its kind.
fn put_values<E: Elements, W: Write>(
    buffer: &mut ReplyBuffer<'_, W>,
    inclusive: bool,
    kind: Kind,
    elements: &E,
) -> Result<(), Fault>
    requires can { CanFoldLong (E.list elements.now) }
    ensures places { SamePlaces buffer.old buffer.new }
    ensures ok { OnOk result (Puts W.contents buffer.old buffer.new
        (values_text (scan_by (plain_value kind) inclusive (E.list elements.now)))) }
    ensures fault { FailsToPut W.contents buffer.old buffer.new (values_text (scan_by (plain_value kind) inclusive (E.list elements.now))) result }
{
    match kind {
        Kind::Sum => put_running_values(buffer, &Sum, inclusive, elements),
        Kind::Least => put_running_values(buffer, &Lowest, inclusive, elements),
        Kind::Greatest => put_running_values(buffer, &Highest, inclusive, elements),
        Kind::Best => put_running_values(buffer, &Runs, inclusive, elements),
        Kind::Affine => put_running_values(buffer, &Affine, inclusive, elements),
        Kind::Automaton => put_running_values(buffer, &Automaton::program(), inclusive, elements),
    }
}

// Puts the output of the running fold by a monoid instance of one kind at each element, each on a line of its own.
fn put_running_values<K: OfKind, E: Elements, W: Write>(
    buffer: &mut ReplyBuffer<'_, W>,
    body: &K,
    inclusive: bool,
    elements: &E,
) -> Result<(), Fault>
    requires fits { K.fits body.now program_table }
    requires can { CanFoldLong (E.list elements.now) }
    ensures places { SamePlaces buffer.old buffer.new }
    ensures ok { OnOk result (Puts W.contents buffer.old buffer.new
        (values_text (scan_by (plain_value K.told_kind) inclusive (E.list elements.now)))) }
    ensures fault { FailsToPut W.contents buffer.old buffer.new (values_text (scan_by (plain_value K.told_kind) inclusive (E.list elements.now))) result }
{
    long_laws(body);
    let mut sum = body.identity();
    for i in 0..elements.count() {
        let next = body.extend_long(sum, elements.element(i));
        put_scanned(buffer, running_value::<K>(inclusive, i, sum, next))?;
        sum = next;
    }
    Ok(())
}

// The value at an index, by the fold of the elements before it and the fold with its own element.
#[inline(always)]
fn running_value<K: OfKind>(inclusive: bool, i: usize, before: K::S, after: K::S) -> Shown
    ensures { (b : K) (xs : List ℤ) → K.fits b program_table → All IsElement xs → i < length xs
        → before ≡ fold_of (K.operations b) (take i xs) → after ≡ fold_of (K.operations b) (take (i + 1) xs)
        → result ≡ plain_value K.told_kind (take (if inclusive then i + 1 else i) xs) }
{
    if inclusive {
        K::tell(true, after).shown()
    } else {
        K::tell(i > 0, before).shown()
    }
}
