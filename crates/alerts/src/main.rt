//! A worked program that uses the crates as a library. Two sensors push their readings onto one vector at a hub, each in a thread of its own.
//! Meanwhile a worker precomputes aggregates, and a subscriber is notified of the hottest reading, the coldest reading and their total, as they
//! change.
//!
//! The contract of `run` proves this. Each note has the plain value of its question after as many updates as its number says. These numbers
//! increase. The last reported value of each question is its answer at the end. There are as many updates as readings that count as accepted.
#![tactic(auto)]

ghost use Rattle.std.specs.Prelude.{◌≡◌, IfOk, None};

mod feeding;
mod following;
mod running;

use lv_vector::hub::{Query, Told};
use lv_vector::{Kind, Limits, Name, Refusal, Shown};
use running::{Report, run};
use std::{fmt, io};

// Why the program ends early.
#[derive(Debug, Drop)]
enum Failure {
    BadName,
    Refused(Refusal),
    NotWritten,
}

impl From<Refusal> for Failure {
    fn from(refusal: Refusal) -> Failure {
        Failure::Refused(refusal)
    }
}

impl From<io::Error> for Failure {
    fn from(_error: io::Error) -> Failure {
        Failure::NotWritten
    }
}

fn main(rt: HostRuntime) -> Result<(), Failure> {
    let questions = [
        ask(b"hottest", Kind::Greatest)?,
        ask(b"coldest", Kind::Least)?,
        ask(b"total", Kind::Sum)?,
    ];
    let report = run(&rt, rt.alloc(), Limits::greatest(), &questions)?;
    show(&rt, &questions, &report)?;
    if report.starved {
        return Err(Failure::Refused(Refusal::NoMemory));
    }
    Ok(())
}

// A question about all readings.
fn ask(name: &[u8], kind: Kind) -> Result<Query, Failure>
    ensures { IfOk result (λ question. question.bound ≡ None) }
{
    match Name::new(name) {
        Some(name) => Ok(Query::between(name, kind, 0, u32::MAX)),
        None => Err(Failure::BadName),
    }
}

// Shows how many readings there were, the last reported value of each question, and how many notifications have a number that doesn't increase.
fn show<R: Print>(rt: &R, questions: &[Query], report: &Report) -> Result<(), Failure> {
    println!(rt;
        "{} readings accepted, {} refused",
        report.accepted, report.refused
    )?;
    println!(rt; "told last, after edit {}:", report.last.edit)?;
    for question in questions {
        show_one(rt, question, last_told(question, report))?;
    }
    println!(rt; "{} notes went back", falls_in(report))?;
    Ok(())
}

// Shows the last reported value of a question.
fn show_one<R: Print>(rt: &R, question: &Query, value: Option<Shown>) -> Result<(), Failure> {
    let what = match question.kind {
        Kind::Greatest => "hottest",
        Kind::Least => "coldest",
        _ => "total",
    };
    match value {
        Some(Shown::Greatest(Some(x)) | Shown::Least(Some(x))) => println!(rt; "{what} {x}")?,
        Some(Shown::Sum(total)) => println!(rt; "{what} {total}")?,
        _ => println!(rt; "{what} none")?,
    }
    Ok(())
}

// The last reported value of a question, if there is one.
fn last_told(question: &Query, report: &Report) -> Option<Shown> {
    let mut last = None;
    for told in &report.told {
        last = told_by(question, told).or(last);
    }
    told_by(question, &report.last).or(last)
}

// The value of a question in a notification, if there is one.
fn told_by(question: &Query, told: &Told) -> Option<Shown> {
    for note in &told.notes {
        if note.name == question.name {
            return Some(note.value);
        }
    }
    None
}

// How many notifications have a number that isn't greater than the one before. If the last notification is empty, its number may equal the one
// before.
fn falls_in(report: &Report) -> u64 {
    let (mut edit, mut falls) = (0, 0_u64);
    for told in &report.told {
        if told.edit <= edit {
            falls = falls.wrapping_add(1);
        }
        edit = told.edit;
    }
    if report.last.edit < edit || (report.last.edit == edit && !report.last.notes.is_empty()) {
        falls = falls.wrapping_add(1);
    }
    falls
}
