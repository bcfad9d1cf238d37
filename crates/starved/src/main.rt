//! Calls that may run out of memory. `starved LAYER ROW` makes the call of that row and prints its result. If there is no such row, it prints
//! nothing, and without arguments it makes each call once. `tools/soak_memory` makes each request for memory of each call fail in turn.
#![tactic(auto)]

mod boards;
mod edits;
mod hubs;
mod queries;
mod rows;
mod scans;
mod tables;
mod told;
mod wholes;

use crate::told::Told;
use std::alloc::Global;
use std::process::ExitCode;
use std::rt::Env;
use std::sync::Wait;
use std::thread::Threads;
use std::{env, io};

fn main(rt: HostRuntime) -> ExitCode {
    match said(&rt) {
        Ok(()) => ExitCode::SUCCESS,
        Err(_) => ExitCode::FAILURE,
    }
}

/// The layers to which the calls belong. Each has fewer rows than `ROWS`.
const LAYERS: [&str; 8] = [
    "Edits",
    "Edits::apply",
    "Live::apply",
    "Standing::edit",
    "Desk::edit",
    "Hub::edit",
    "scans",
    "wholes",
];

const ROWS: u32 = 16;

// Makes the call that the command line names, or each.
fn said<R: AllocGlobal + Env + Eprint + Print + Sync + Threads + Wait>(rt: &R) -> io::Result<()> {
    let words: Vec<String> = env::args(rt)?.collect(rt.alloc())?;
    match words.as_slice() {
        [_, layer, row] => match row.as_str().parse::<u32>() {
            Ok(number) => say(rt, rt.alloc(), layer.as_str(), number),
            Err(_) => Ok(()),
        },
        _ => say_all(rt, rt.alloc()),
    }
}

// Makes each call, and prints its result.
fn say_all<R: Eprint + Print + Sync + Threads + Wait>(rt: &R, alloc: Global) -> io::Result<()> {
    for layer in LAYERS {
        for number in 0..ROWS {
            say(rt, alloc, layer, number)?;
        }
    }
    Ok(())
}

// Makes the call of a layer's row, and prints its result. Prints nothing if there is no such row.
fn say<R: Eprint + Print + Sync + Threads + Wait>(
    rt: &R,
    alloc: Global,
    layer: &str,
    number: u32,
) -> io::Result<()> {
    if let Some((name, told)) = called(rt, alloc, layer, number) {
        println!(rt; "{layer}, {name}: {told:?}")?;
    }
    Ok(())
}

// Makes the call of a layer's row.
fn called<R: Eprint + Sync + Threads + Wait>(
    rt: &R,
    alloc: Global,
    layer: &str,
    number: u32,
) -> Option<(&'static str, Told)> {
    match layer {
        "scans" => {
            let (name, wanted) = scans::name(number)?;
            Some((name, scans::ask(rt, alloc, number, wanted)))
        }
        "wholes" => whole(rt, alloc, number),
        _ => edited(rt, alloc, layer, number),
    }
}

// Makes an update in a layer.
fn edited<R: Eprint + Sync + Threads + Wait>(
    rt: &R,
    alloc: Global,
    layer: &str,
    number: u32,
) -> Option<(&'static str, Told)> {
    let row = rows::row_of(number)?;
    let told = match layer {
        "Edits" => edits::edit_list(rt, alloc, row, false),
        "Edits::apply" => edits::edit_list(rt, alloc, row, true),
        "Live::apply" => edits::edit_live(rt, alloc, row),
        "Standing::edit" => queries::edit_under_queries(rt, alloc, row),
        "Desk::edit" => hubs::edit_desk(rt, alloc, row),
        "Hub::edit" => hubs::edit_hub(rt, alloc, row),
        _ => return None,
    };
    Some((row.name, told))
}

// The calls of the layer `wholes`.
fn whole<R: Eprint + Sync + Threads + Wait>(
    rt: &R,
    alloc: Global,
    number: u32,
) -> Option<(&'static str, Told)> {
    match number {
        0 => Some(("Store::open_to 56", tables::open_to(rt, alloc))),
        1 => Some(("Summaries::grow 9", tables::grow_table(rt, alloc))),
        2 => Some(("Claims::grow 9", tables::grow_claims(rt, alloc))),
        3 => Some(("Standing::watch, the first", queries::watch(rt, alloc, 0))),
        4 => Some(("Standing::watch, the 64th", queries::watch(rt, alloc, 63))),
        5 => Some(("World of 100 events", wholes::run_world(rt, alloc))),
        6 => Some(("Machine::new", wholes::new_machine(rt, alloc))),
        7 => Some(("Machine::run", wholes::run_machine(rt, alloc))),
        8 => Some(("print_command", wholes::print(rt, alloc))),
        9 => Some(("Hub::scan_inclusive", hubs::scan_hub(rt, alloc, true))),
        10 => Some(("Hub::scan_exclusive", hubs::scan_hub(rt, alloc, false))),
        11 => Some(("Board::new", boards::open(rt, alloc))),
        12 => Some(("Board::close", boards::close(rt, alloc))),
        _ => None,
    }
}
