//! Tests of the store: a pending write, and memory that is refused.
ghost use Rattle.std.specs.Prelude.{◌≡◌, ◌+◌, ◌<◌, ◌≤◌, None, IfOk};
ghost use Rattle.lv_geometry.specs.Cells.{capacity_of};

use crate::same::assert_same;
use lv_geometry::{Limits, Refusal};
use lv_store::{Descriptor, Store, Writes};
use std::alloc::Global;
use std::process::Abort;
use std::test::Fail;

// A store of the greatest limits, with at least so many open cells and nothing written.
fn opened(alloc: Global, cells: u32) -> Result<Store, Refusal>
    requires { cells ≤ 1048568 }
    ensures cells { IfOk result (λ store. cells ≤ capacity_of store.buckets) }
    ensures limits { IfOk result (λ store. store.limits ≡ record { buckets = 17; edits = 16777215 }) }
    ensures descriptor { IfOk result (λ store. store.descriptor ≡ record { edit = 0; size = 0; pending = None }) }
{
    let mut store = Store::new(alloc, Limits::greatest());
    match store.open_to(cells) {
        Ok(()) => Ok(store),
        Err(refusal) => {
            drop(store);
            Err(refusal)
        }
    }
}

// The first element, and the numbers of the last edit and of the last one in the first block.
fn first(store: &Store) -> (i64, u32, u32)
    requires { 0 < capacity_of store.now.buckets }
{
    (store.read(0), store.edit(), store.version(0))
}

// How many elements there are, the number of the last edit, and that of the last one in the first block.
fn extent(store: &Store) -> (u32, u32, u32) {
    (store.size(), store.edit(), store.version(0))
}

#[test]
fn a_pending_write_is_read(rt: HostRuntime) -> Result<(), Fail> {
    let mut store = opened(rt.alloc(), 1)?;
    store.announce(Some((0, 5)), None, 1);
    let pending = first(&store);
    store.settle();
    let complete = first(&store);
    store.announce(None, None, 0);
    let popped = extent(&store);
    store.announce(Some((0, 5)), None, 1);
    let pushed = extent(&store);
    assert_same(&rt, &(pending, complete), &((5, 1, 1), (5, 1, 1)));
    assert_same(&rt, &(popped, pushed), &((0, 2, 1), (1, 3, 3)));
    assert_same(
        &rt,
        &store.descriptor(),
        &Descriptor {
            edit: 3,
            size: 1,
            pending: Some(Writes {
                first: (0, 5),
                second: None,
            }),
        },
    );
    drop(store);
    Ok(())
}

// Opens the buckets of so many cells. If there is no memory, it checks that nothing has changed, and opens them again.
fn open_or_again(rt: &impl Abort, store: &mut Store, cells: u32) -> Result<(), Refusal>
    requires { cells ≤ capacity_of store.old.limits.buckets }
    ensures { store.new.limits ≡ store.old.limits }
{
    let before = (store.buckets(), store.descriptor(), store.version(0));
    let first = store.open_to(cells);
    if first == Err(Refusal::NoMemory) {
        let after = (store.buckets(), store.descriptor(), store.version(0));
        assert_same(rt, &after, &before);
        return store.open_to(cells);
    }
    first
}

fn check_opening(rt: &impl Abort, store: &mut Store)
    requires { store.old.limits ≡ record { buckets = 17; edits = 16777215 } }
{
    let one = (open_or_again(rt, store, 8), store.buckets());
    let four = (open_or_again(rt, store, 57), store.buckets());
    let fewer = (open_or_again(rt, store, 9), store.buckets());
    assert_same(rt, &one, &(Ok(()), 1));
    assert_same(rt, &four, &(Ok(()), 4));
    assert_same(rt, &fewer, &(Ok(()), 4));
}

// To be run with each allocation failing in turn, too.
#[test]
fn want_of_memory_opens_no_bucket(rt: HostRuntime) {
    let mut store = Store::new(rt.alloc(), Limits::greatest());
    check_opening(&rt, &mut store);
    drop(store);
}
