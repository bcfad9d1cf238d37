//! The growth of a store, of a table of summaries, and of claims.

ghost use Rattle.std.specs.Prelude.{◌≡◌};

use crate::told::{Told, again, begin, end, first, right};
use lv_geometry::{Limits, Node};
use lv_refresh::Claims;
use lv_store::Store;
use lv_summary::Summaries;
use std::alloc::Global;

fn try_open<R: Eprint>(rt: &R, store: &mut Store) -> Told
    requires { store.old.limits ≡ record { buckets = 17; edits = 16777215 } }
{
    let before = (store.buckets(), store.descriptor());
    begin(rt);
    let answer = store.open_to(56);
    end(rt);
    let told = match first(answer, ()) {
        Told::Refused => {
            let same = (store.buckets(), store.descriptor()) == before;
            again(same, store.open_to(56), ())
        }
        told => told,
    };
    right(store.buckets() == 3, told)
}

/// The opening of three buckets.
pub fn open_to<R: Eprint>(rt: &R, alloc: Global) -> Told {
    let mut store = Store::new(alloc, Limits::greatest());
    let told = try_open(rt, &mut store);
    drop(store);
    told
}

// Room for nine blocks: level 2 gets its first two nodes.
fn try_grow<R: Eprint>(rt: &R, table: &mut Summaries<u64>) -> Told {
    let node = Node {
        level: 1,
        number: 8,
    };
    begin(rt);
    let answer = table.grow(9);
    end(rt);
    let told = match first(answer, ()) {
        Told::Refused => {
            let same = table.blocks() == 0 && table.touched(node) == 0;
            again(same, table.grow(9), ())
        }
        told => told,
    };
    right(table.blocks() >= 9, told)
}

/// The growth of a table of summaries.
pub fn grow_table<R: Eprint>(rt: &R, alloc: Global) -> Told {
    let mut table = Summaries::new(alloc, 0);
    let told = try_grow(rt, &mut table);
    drop(table);
    told
}

fn try_claims<R: Eprint>(rt: &R, claims: &mut Claims) -> Told {
    begin(rt);
    let answer = claims.grow(9);
    end(rt);
    let told = match first(answer, ()) {
        Told::Refused => again(claims.blocks() == 0, claims.grow(9), ()),
        told => told,
    };
    right(claims.blocks() >= 9, told)
}

/// The growth of claims.
pub fn grow_claims<R: Eprint>(rt: &R, alloc: Global) -> Told {
    let mut claims = Claims::new(alloc);
    let told = try_claims(rt, &mut claims);
    drop(claims);
    told
}
