//! Tests of the lock-free machine as values: a list of events, and memory that is refused.
use crate::same::assert_same;
use lv_bodies::Sum;
use lv_edits::Receipt;
use lv_geometry::{Limits, Refusal};
use lv_machine::{Call, Event, Machine, Outcome, Said, Sized};
use std::alloc::Global;
use std::process::Abort;
use std::test::Fail;

// The greatest limits of the lock-free form.
fn greatest() -> Result<Limits, Refusal> {
    Limits::new(9, 16_777_215)
}

fn call(actor: u32, call: Call) -> Event {
    Event::Call { actor, call }
}

fn step(actor: u32) -> Event {
    Event::Step { actor }
}

fn refused(refusal: Refusal) -> Outcome<u64> {
    Outcome::Done(Said::Refused(refusal))
}

// Two pushes that looked at the same descriptor, so that the exchange of the later one finds another descriptor; a size; and an element too wide.
fn contended() -> [(Event, Outcome<u64>); 10] {
    let pushed = Receipt::Pushed { edit: 1, index: 0 };
    let sized = Sized { edit: 1, size: 1 };
    [
        (call(0, Call::Push(4)), Outcome::Started),
        (call(1, Call::Push(5)), Outcome::Started),
        (step(0), Outcome::Going),
        (step(1), Outcome::Going),
        (step(1), Outcome::Done(Said::Did(pushed))),
        (step(0), refused(Refusal::Contended { edit: 1 })),
        (call(0, Call::Size), Outcome::Started),
        (step(0), Outcome::Done(Said::Sized(sized))),
        (step(0), Outcome::Refused(Refusal::NotNow)),
        (call(1, Call::Push(40_000)), refused(Refusal::TooWide)),
    ]
}

fn check_contended(rt: &impl Abort, machine: &mut Machine<Sum>) -> Result<(), Fail> {
    let table = contended();
    let outcomes = machine.run(&table.map(|(event, _)| event))?;
    assert_same(
        rt,
        &outcomes.as_slice(),
        &table.map(|(_, outcome)| outcome).as_slice(),
    );
    Ok(())
}

#[test]
fn a_list_of_events(rt: HostRuntime) -> Result<(), Fail> {
    let mut machine = Machine::new(rt.alloc(), greatest()?, 2, Sum)?;
    let seen = check_contended(&rt, &mut machine);
    drop(machine);
    seen
}

// Runs events. If there is no memory, it runs them again, and checks that the outcomes are those of a first run.
fn run_or_again(rt: &impl Abort, machine: &mut Machine<Sum>) -> Result<(), Fail> {
    let events = [call(0, Call::Push(4)), step(0), step(0)];
    let mut outcomes = machine.run(&events);
    if let Err(refusal) = &outcomes {
        assert_same(rt, &*refusal, &Refusal::NoMemory);
        outcomes = machine.run(&events);
    }
    let pushed = Outcome::Done(Said::Did(Receipt::Pushed { edit: 1, index: 0 }));
    let expected = [Outcome::Started, Outcome::Going, pushed];
    assert_same(rt, &outcomes?.as_slice(), &expected.as_slice());
    Ok(())
}

// A machine with one actor. If there is no memory, it is made once more.
fn made_or_again(alloc: Global) -> Result<Machine<Sum>, Refusal> {
    let made = Machine::new(alloc, greatest()?, 1, Sum);
    if matches!(made, Err(Refusal::NoMemory)) {
        return Machine::new(alloc, greatest()?, 1, Sum);
    }
    made
}

// To be run with each allocation failing in turn, too.
#[test]
fn want_of_memory_changes_no_machine(rt: HostRuntime) -> Result<(), Fail> {
    let mut machine = made_or_again(rt.alloc())?;
    let seen = run_or_again(&rt, &mut machine);
    drop(machine);
    seen
}
