//! How a vector begins.
ghost use Rattle.std.specs.Prelude.{◌≡◌, Some, None, IfOk};
ghost use Rattle.lv_bodies.specs.Automata.{table_of};
ghost use Rattle.livevec_c.specs.Lives.{IsNewObject, Opens, OpensAt, OpensBy, table_asked};
ghost use Rattle.livevec_c.specs.Only.{only_asked};

use crate::kind_vectors::KindVector;
use crate::objects::Object;
use crate::only::only_of;
use crate::results::{BAD_KIND, IN_USE, NO_MEMORY};
use crate::slots::{Slot, is_full, put};
use lv_bodies::{Automaton, Kind};
use lv_geometry::Limits;
use std::alloc::{AllocError, Global};

/// An automaton's table as C has it.
#[repr(C)]
#[derive(Clone, Copy)]
pub struct Table {
    pub next: [[u8; 4]; 8],
}

/// A new vector in a place of its own, of one kind or of all six.
pub fn new_vector(
    alloc: Global,
    only: Option<Kind>,
    limits: Limits,
    automaton: Automaton,
) -> Result<Box<Object>, AllocError>
    ensures { IfOk result (λ b. IsNewObject only limits (table_of automaton) b.value) }
{
    Ok(Box::new(
        alloc,
        Object::Vector(KindVector::new(alloc, limits, automaton), only),
    )?)
}

// Puts a new vector into an empty slot.
fn open(
    alloc: Global,
    slot: &mut Slot,
    only: Option<Kind>,
    limits: Limits,
    automaton: Automaton,
) -> u32
    requires { slot.old.raw.inner ≡ None }
    ensures { OpensAt only limits (table_of automaton) result slot.new.raw.inner }
{
    match new_vector(alloc, only, limits, automaton) {
        Err(_) => NO_MEMORY,
        Ok(held) => {
            put(slot, held);
            0
        }
    }
}

// Puts a new vector into an empty slot, with an automaton of a table that may have a wrong entry.
fn open_with(
    alloc: Global,
    slot: &mut Slot,
    only: Option<Kind>,
    limits: Limits,
    table: &Table,
) -> u32
    requires { slot.old.raw.inner ≡ None }
    ensures { OpensBy only (Some table.now.next) limits result slot.new.raw.inner }
{
    match Automaton::new(table.next) {
        Err(refusal) => refusal.number(),
        Ok(automaton) => open(alloc, slot, only, limits, automaton),
    }
}

// Puts a new vector into an empty slot, with an automaton of such a table or with the program's.
fn open_by(
    alloc: Global,
    slot: &mut Slot,
    only: Option<Kind>,
    limits: Limits,
    by_table: bool,
    table: &Table,
) -> u32
    requires { slot.old.raw.inner ≡ None }
    ensures { OpensBy only (table_asked by_table table.now.next) limits result slot.new.raw.inner }
{
    if by_table {
        open_with(alloc, slot, only, limits, table)
    } else {
        open(alloc, slot, only, limits, Automaton::program())
    }
}

/// Puts a new vector into an empty slot, of all six kinds or of the one that a number names. Its automaton is the program's, or has this table.
#[unsafe(no_mangle)]
pub extern "C" fn livevec_proved_new(
    alloc: Global,
    slot: &mut Slot,
    six: bool,
    kind: u32,
    buckets: u32,
    edits: u32,
    by_table: bool,
    table: &Table,
) -> u32
    ensures { Opens (only_asked six kind) (table_asked by_table table.now.next) buckets edits result slot.old.raw.inner slot.new.raw.inner }
{
    if is_full(slot) {
        return IN_USE;
    }
    let Some(only) = only_of(six, kind) else {
        return BAD_KIND;
    };
    match Limits::new(buckets, edits) {
        Err(refusal) => refusal.number(),
        Ok(limits) => open_by(alloc, slot, only, limits, by_table, table),
    }
}
