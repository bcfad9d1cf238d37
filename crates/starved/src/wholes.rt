//! A world of 100 events, a machine, a printed command.

use crate::told::{Told, again, begin, end, first, right};
use lv_bodies::Sum;
use lv_edits::{Edit, Receipt};
use lv_geometry::{Limits, Refusal};
use lv_live::{Event, ReplyOf, World, run};
use lv_machine::{Call, Event as Turn, Machine, Outcome, Said};
use lv_script::{Line, print_command, read_line};
use std::alloc::Global;

// 100 events: pushes, and a claim after each eighth push.
fn events() -> [Event; 100] {
    let mut events = [Event::Edit(Edit::Push(1)); 100];
    for place in events.iter_mut().skip(8).step_by(9) {
        *place = Event::Claim;
    }
    events
}

// How many of the replies are receipts, and how many are the refusal `NoMemory`.
fn counted(replies: &[ReplyOf<u64>]) -> (usize, usize) {
    let (mut receipts, mut refused) = (0usize, 0usize);
    for reply in replies {
        match reply {
            ReplyOf::Did(_) => receipts = receipts.saturating_add(1),
            ReplyOf::Refused(Refusal::NoMemory) => refused = refused.saturating_add(1),
            _ => {}
        }
    }
    (receipts, refused)
}

// Each event has its own reply. One push may be refused, and then there is one element less.
fn run_100(alloc: Global, world: &mut World<Sum>) -> Result<(bool, bool), Refusal> {
    let replies = run(alloc, world, &events())?;
    let (receipts, refused) = counted(replies.as_slice());
    let size = world.live().size() as usize;
    Ok((
        receipts.saturating_add(refused) >= 89
            && size == receipts
            && world.live().journal().len() == receipts,
        refused > 0,
    ))
}

fn try_run<R: Eprint>(rt: &R, alloc: Global, world: &mut World<Sum>) -> Told {
    begin(rt);
    let answer = run_100(alloc, world);
    end(rt);
    match answer {
        Ok((is_right, false)) => right(is_right, Told::Answered),
        Ok((is_right, true)) => right(is_right, Told::Refused),
        Err(refusal) => {
            let same = refusal == Refusal::NoMemory && world.live().edit() == 0;
            again(same, run_100(alloc, world), (true, false))
        }
    }
}

/// A run of 100 events.
pub fn run_world<R: Eprint>(rt: &R, alloc: Global) -> Told {
    let mut world = World::new(alloc, Limits::greatest(), Sum);
    let told = try_run(rt, alloc, &mut world);
    drop(world);
    told
}

fn opened(alloc: Global) -> Result<Machine<Sum>, Refusal> {
    Machine::new(alloc, Limits::new(9, 16_777_215)?, 2, Sum)
}

fn made(alloc: Global) -> Result<(), Refusal> {
    let machine = opened(alloc)?;
    drop(machine);
    Ok(())
}

/// A machine with two actors.
pub fn new_machine<R: Eprint>(rt: &R, alloc: Global) -> Told {
    begin(rt);
    let answer = made(alloc);
    end(rt);
    match first(answer, ()) {
        Told::Refused => again(true, made(alloc), ()),
        told => told,
    }
}

// Whether a push by the actor 0 is the first update.
fn pushed(machine: &mut Machine<Sum>) -> Result<bool, Refusal> {
    let step = Turn::Step { actor: 0 };
    let call = Turn::Call {
        actor: 0,
        call: Call::Push(4),
    };
    let outcomes = machine.run(&[call, step, step])?;
    let done = Outcome::Done(Said::Did(Receipt::Pushed { edit: 1, index: 0 }));
    let wanted = [Outcome::Started, Outcome::Going, done];
    Ok(outcomes.as_slice() == wanted.as_slice())
}

fn try_machine<R: Eprint>(rt: &R, machine: &mut Machine<Sum>) -> Told {
    begin(rt);
    let answer = pushed(machine);
    end(rt);
    match first(answer, true) {
        Told::Refused => again(true, pushed(machine), true),
        told => told,
    }
}

/// A run of three events of a machine.
pub fn run_machine<R: Eprint>(rt: &R, alloc: Global) -> Told {
    let Ok(mut machine) = opened(alloc) else {
        return Told::Wrong;
    };
    let told = try_machine(rt, &mut machine);
    drop(machine);
    told
}

// Whether a command is printed as it should be.
fn printed(alloc: Global) -> Result<bool, Refusal> {
    let Line::Do(command) = read_line(b"  watch window automaton 0007 00123  ") else {
        return Ok(false);
    };
    match print_command(alloc, &command) {
        Ok(text) => Ok(text.as_slice() == b"watch window automaton 7 123".as_slice()),
        Err(_) => Err(Refusal::NoMemory),
    }
}

/// A command that is printed.
pub fn print<R: Eprint>(rt: &R, alloc: Global) -> Told {
    begin(rt);
    let answer = printed(alloc);
    end(rt);
    match first(answer, true) {
        Told::Refused => again(true, printed(alloc), true),
        told => told,
    }
}
