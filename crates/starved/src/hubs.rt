//! Updates of a desk and of a hub, and a hub's scans.

ghost use Rattle.std.specs.Prelude.{◌≡◌, Some};

use crate::rows::Row;
use crate::told::{Told, again, begin, end, first};
use lv_bodies::Sum;
use lv_edits::Edit;
use lv_geometry::{Limits, Refusal};
use lv_hub::{Desk, Hub, Opened, Share, WithBody};
use std::alloc::Global;
use std::marker::Brand;
use std::sync::Wait;
use std::sync::ledger::Blank;
use std::thread::Threads;

fn try_desk<N: WithBody<Sum>, R: Eprint>(
    rt: &R,
    desk: &mut Desk<Sum, N>,
    share: &mut Share<N>,
    row: Row,
) -> Told {
    for _ in 0..row.pushes {
        let _ = desk.edit(share, Edit::Push(1));
    }
    let before = (share.count(), desk.live().capacity());
    begin(rt);
    let answer = desk.edit(share, row.edit);
    end(rt);
    match first(answer, row.receipt) {
        Told::Refused => {
            let same = (share.count(), desk.live().capacity()) == before;
            again(same, desk.edit(share, row.edit), row.receipt)
        }
        told => told,
    }
}

fn of_desk<N: WithBody<Sum>, R: Eprint>(
    rt: &R,
    alloc: Global,
    limits: Limits,
    blank: Blank,
    opened: Opened,
    body: Sum,
    row: Row,
) -> Told
    requires name { blank.name ≡ N.name }
    requires all { blank.parts ≡ N.parts }
    requires one { blank.parts ≡ 1 }
    requires limits { limits ≡ N.limits }
    requires history { opened ≡ N.history }
    requires body { N.body ≡ Some body }
{
    let (mut desk, mut share) = Desk::<Sum, N>::new(alloc, limits, body, blank, 1, opened);
    let told = try_desk(rt, &mut desk, &mut share, row);
    drop(desk);
    told
}

/// An update of a desk.
pub fn edit_desk<R: Eprint>(rt: &R, alloc: Global, row: Row) -> Told {
    let (limits, blank, opened) = (Limits::greatest(), Blank::new(1), Opened::new());
    of_desk::<Brand, R>(rt, alloc, limits, blank, opened, Sum, row)
}

fn try_hub<N: WithBody<Sum>, R: Wait + Eprint>(
    rt: &R,
    hub: &Hub<Sum, N>,
    share: &mut Share<N>,
    row: Row,
) -> Told {
    for _ in 0..row.pushes {
        let _ = hub.edit(rt, share, Edit::Push(1));
    }
    let before = share.count();
    begin(rt);
    let answer = hub.edit(rt, share, row.edit);
    end(rt);
    match first(answer, row.receipt) {
        Told::Refused => {
            let same = share.count() == before;
            again(same, hub.edit(rt, share, row.edit), row.receipt)
        }
        told => told,
    }
}

// The version, how many values there are, and the last value.
fn scan<N: WithBody<Sum>, R: Threads + Wait + Sync>(
    rt: &R,
    alloc: Global,
    hub: &Hub<Sum, N>,
    share: &mut Share<N>,
    inclusive: bool,
) -> Result<(u32, usize, Option<u64>), Refusal> {
    let answer = if inclusive {
        hub.scan_inclusive(rt, alloc, share, 0, 20)
    } else {
        hub.scan_exclusive(rt, alloc, share, 0, 20)
    };
    let scan = answer?;
    let last = scan.values.as_slice().last().copied();
    Ok((scan.edit, scan.values.len(), last))
}

fn try_scan<N: WithBody<Sum>, R: Threads + Wait + Eprint + Sync>(
    rt: &R,
    alloc: Global,
    hub: &Hub<Sum, N>,
    share: &mut Share<N>,
    inclusive: bool,
) -> Told {
    for _ in 0..20 {
        let _ = hub.edit(rt, share, Edit::Push(1));
    }
    let wanted = (20, 20, Some(if inclusive { 20 } else { 19 }));
    begin(rt);
    let answer = scan(rt, alloc, hub, share, inclusive);
    end(rt);
    match first(answer, wanted) {
        Told::Refused => {
            let same = share.count() == 20;
            again(same, scan(rt, alloc, hub, share, inclusive), wanted)
        }
        told => told,
    }
}

// The update of a row, or one of the two scans.
#[derive(Clone, Copy)]
enum Ask {
    Edit(Row),
    Scan(bool),
}

fn of_hub<N: WithBody<Sum>, R: Threads + Wait + Eprint + Sync>(
    rt: &R,
    alloc: Global,
    limits: Limits,
    blank: Blank,
    opened: Opened,
    body: Sum,
    ask: Ask,
) -> Told
    requires name { blank.name ≡ N.name }
    requires all { blank.parts ≡ N.parts }
    requires one { blank.parts ≡ 1 }
    requires limits { limits ≡ N.limits }
    requires history { opened ≡ N.history }
    requires body { N.body ≡ Some body }
{
    let (hub, mut share) = Hub::<Sum, N>::new(alloc, limits, body, blank, 1, opened);
    let told = match ask {
        Ask::Edit(row) => try_hub(rt, &hub, &mut share, row),
        Ask::Scan(inclusive) => try_scan(rt, alloc, &hub, &mut share, inclusive),
    };
    drop(hub);
    told
}

fn ask_hub<R: Threads + Wait + Eprint + Sync>(rt: &R, alloc: Global, ask: Ask) -> Told {
    let (limits, blank, opened) = (Limits::greatest(), Blank::new(1), Opened::new());
    of_hub::<Brand, R>(rt, alloc, limits, blank, opened, Sum, ask)
}

/// An update of a hub.
pub fn edit_hub<R: Threads + Wait + Eprint + Sync>(rt: &R, alloc: Global, row: Row) -> Told {
    ask_hub(rt, alloc, Ask::Edit(row))
}

/// A scan of a hub.
pub fn scan_hub<R: Threads + Wait + Eprint + Sync>(rt: &R, alloc: Global, inclusive: bool) -> Told {
    ask_hub(rt, alloc, Ask::Scan(inclusive))
}
