//! The program `livevec`: it reads a command line, hands the streams to the crates below, and prints. It decides
//! nothing else.
#![tactic(auto)]

mod command_line;
mod help;
mod misuse;
mod modes;
mod status;

use crate::misuse::{Misuse, NAME_BYTES, misuse_in, unreadable_in, unshown_in};
use crate::modes::{BOARD, COMPACT, RESTORE, SERVE};
use crate::status::{CUT, show, show_misuse, status_of, status_of_front, status_told, tell};
use clap::{ArgMatches, Error};
use lv_bodies::Sum;
use lv_files::{
    Compacted, Escaped, LogFolder, PipeFolder, Piped, ProgramError, Waited, compact_file,
    null_files,
};
use lv_machine::Machine;
use lv_script::{
    Fault, MOST_NUMBERED, Verdict, audit, audit_front, run_schedule, run_script_within,
    run_series_script,
};
use lv_server::{hold_files, restore_file, serve_files, serve_logged_files};
use std::alloc::{AllocError, Global};
use std::fs::{File, Files};
use std::io::{Read, Write};
use std::process::ExitCode;
use std::rt::Env;
use std::sync::Wait;
use std::thread::Threads;
use std::time::Clock;
use std::{env, io};

/// Statuses: 0; 1 on a fault, printed on standard error as `livevec: fault N` with a line in words behind it, and of an audit that
/// says no or bad; 2 on a usage fault, whose text goes to standard error; 3, without a word, where
/// --quiet-pipe is given and what reads standard output has ended.
fn main(rt: HostRuntime) -> ExitCode {
    let _kept = null_files(&rt);
    match run(&rt) {
        Ok(status) => ExitCode::from(status),
        Err(fault) => ExitCode::from(tell(&rt, ProgramError::standard(fault), &[])),
    }
}

// Reads the command line and does what it asks.
fn run<
    R: AllocGlobal
        + Clock
        + Env
        + Eprint
        + Files<File = File>
        + Input
        + LogFolder
        + PipeFolder
        + Print
        + Sync
        + Threads
        + Wait,
>(rt: &R) -> Result<u8, Fault> {
    let words = match words_of(rt) {
        Ok(words) => words,
        Err(error) if error.kind() == io::ErrorKind::OutOfMemory => return Err(Fault::NoMemory),
        Err(_) => return Ok(show_unreadable(rt)),
    };
    let command = command_line::command(rt.alloc()).map_err(|_| Fault::NoMemory)?;
    match command.try_get_matches_from(words.as_slice()) {
        Ok(matches) => obey(rt, &matches),
        Err(error) => show_unless_unshown(rt, words.as_slice(), &error),
    }
}

// Shows what `clap` says, but where a word of the command line would speak for itself in it.
fn show_unless_unshown<R: Clock + Eprint + Print>(
    rt: &R,
    words: &[String],
    error: &Error,
) -> Result<u8, Fault> {
    match unshown_in(words) {
        Some(misuse) => Ok(show_misuse(rt, misuse)),
        None => show(rt, error),
    }
}

// Shows the first word that isn't UTF-8.
fn show_unreadable<R: Env + Eprint>(rt: &R) -> u8 {
    let mut name = [0u8; NAME_BYTES];
    let length = unreadable_in(rt, &mut name);
    let (word, _) = name.split_at(length);
    show_misuse(rt, Misuse::NotText(word))
}

// Standard input, which is waited for.
fn lines_of<R: Clock + Input>(rt: &R) -> Waited<&R, R::Reader> {
    Waited::new(rt, rt.reader())
}

// The words of the command line.
fn words_of<R: AllocGlobal + Env>(rt: &R) -> io::Result<Vec<String>> {
    Ok(env::args(rt)?.collect(rt.alloc())?)
}

// Does what a command line asks for. With --quiet-pipe nothing is reported when the reader of standard output has ended.
fn obey<
    R: AllocGlobal
        + Clock
        + Eprint
        + Files<File = File>
        + Input
        + LogFolder
        + PipeFolder
        + Print
        + Sync
        + Threads
        + Wait,
>(rt: &R, matches: &ArgMatches<'_>) -> Result<u8, Fault> {
    let mut writer = Piped::new(
        Waited::new(rt, io::writer(rt)),
        command_line::is_quiet(matches),
    );
    let ended = answer(rt, matches, &mut writer);
    if writer.ends_quietly() {
        Ok(CUT)
    } else {
        ended
    }
}

// Does what a command line asks for, writing to this writer in place of standard output.
fn answer<
    R: AllocGlobal
        + Clock
        + Eprint
        + Files<File = File>
        + Input
        + LogFolder
        + PipeFolder
        + Print
        + Sync
        + Threads
        + Wait,
    W: Write,
>(rt: &R, matches: &ArgMatches<'_>, writer: &mut Piped<W>) -> Result<u8, Fault> {
    let alloc = rt.alloc();
    let Some((name, asked)) = matches.subcommand() else {
        return Ok(0);
    };
    if let Some(misuse) = misuse_in(name, asked) {
        return Ok(show_misuse(rt, misuse));
    }
    match name {
        "run" if asked.get_flag("series") => {
            run_series_script(alloc, &mut lines_of(rt), writer)?;
            Ok(0)
        }
        "run" => {
            run_script_within(
                alloc,
                command_line::limits(asked),
                command_line::jobs(asked),
                &mut lines_of(rt),
                writer,
            )?;
            Ok(0)
        }
        "serve" => serve(rt, asked, writer),
        "restore" => restore(rt, asked, writer),
        "compact" => compact(rt, asked, writer),
        "board" => board(rt, asked),
        "schedule" => {
            schedule(alloc, asked, &mut lines_of(rt), writer)?;
            Ok(0)
        }
        _ => audit_input(rt, asked, writer),
    }
}

// Audits a transcript, or a prefix (*front*) of one.
fn audit_input<R: AllocGlobal + Clock + Eprint + Input, W: Write>(
    rt: &R,
    asked: &ArgMatches<'_>,
    writer: &mut W,
) -> Result<u8, Fault> {
    let alloc = rt.alloc();
    if asked.get_flag("front") {
        Ok(status_of_front(audit_front(alloc, MOST_NUMBERED, lines_of(rt), writer)?))
    } else {
        let verdict = audit(alloc, &mut lines_of(rt), writer)?;
        if let Verdict::Bad(1) = verdict {
            let _ = eprintln!(rt; "{}", help::NO_TRANSCRIPT);
        }
        Ok(status_of(verdict))
    }
}

// Answers a schedule, on a new machine. Its options keep to the limits of machines.
fn schedule<R: Read, W: Write>(
    alloc: Global,
    asked: &ArgMatches<'_>,
    reader: &mut R,
    writer: &mut W,
) -> Result<(), Fault> {
    let limits = command_line::limits(asked);
    let actors = command_line::actors(asked);
    let Ok(mut machine) = Machine::new(alloc, limits, actors, Sum) else {
        return Err(Fault::NoMemory);
    };
    let ended = run_schedule(alloc, &mut machine, reader, writer);
    drop(machine);
    ended
}

// Serves the sessions and the subscribers that a command line names.
fn serve<
    R: AllocGlobal
        + Clock
        + Eprint
        + Files<File = File>
        + LogFolder
        + PipeFolder
        + Print
        + Sync
        + Threads
        + Wait,
    W: Write,
>(rt: &R, asked: &ArgMatches<'_>, writer: &mut Piped<W>) -> Result<u8, Fault> {
    let alloc = rt.alloc();
    let Ok(all) = files_of(alloc, asked) else {
        return Err(Fault::NoMemory);
    };
    let names = command_line::names(asked, all.as_slice());
    let plan = command_line::plan(asked);
    let ended = if asked.get_str("log").is_some() {
        serve_logged_files(rt, rt, alloc, plan, command_line::kept(asked), names)
    } else {
        serve_files(rt, rt, alloc, plan, names, writer)
    };
    status_told(rt, &SERVE, all.as_slice(), writer.ends_quietly(), ended)
}

// The files of sessions, those of subscribers, and that of the transcript or of the log.
fn files_of<'a>(alloc: Global, asked: &ArgMatches<'a>) -> Result<Vec<&'a str>, AllocError> {
    let mut names = Vec::new(alloc);
    names.extend_from_slice(asked.get_strs("files").unwrap_or(&[]))?;
    names.extend_from_slice(asked.get_strs("watch").unwrap_or(&[]))?;
    if let Some(name) = asked.get_str("transcript") {
        names.push(name)?;
    }
    if let Some(name) = asked.get_str("log") {
        names.push(name)?;
    }
    Ok(names)
}

// Compacts the file that a command line names, and says what became of it.
fn compact<R: AllocGlobal + Clock + Eprint + Files<File = File> + Print, W: Write>(
    rt: &R,
    asked: &ArgMatches<'_>,
    writer: &mut Piped<W>,
) -> Result<u8, Fault> {
    let file = asked.get_str("front").unwrap_or("");
    match compact_file(rt, rt, rt.alloc(), file, asked.get_flag("drop-old")) {
        Ok(compacted) => match write_compacted(file, compacted, writer) {
            Ok(()) => Ok(0),
            Err(_) => Err(Fault::WriteFault),
        },
        Err(error) => status_told(rt, &COMPACT, &[file], writer.ends_quietly(), Err(error)),
    }
}

// Writes the line that says what became of a file that was compacted.
fn write_compacted<W: Write>(file: &str, compacted: Compacted, writer: &mut W) -> io::Result<()> {
    let base = compacted.heading.base;
    let elements = compacted.heading.elements;
    let name = Escaped(file);
    if compacted.is_kept {
        writeln!(
            writer,
            "compacted '{name}': {base} base {elements} elements, '{name}.1' is what it was"
        )
    } else {
        writeln!(
            writer,
            "compacted '{name}': {base} base {elements} elements, what it was is dropped"
        )
    }
}

// Restores a vector from the file that a command line names, and answers a script.
fn restore<R: AllocGlobal + Clock + Eprint + Files<File = File> + Input + Print, W: Write>(
    rt: &R,
    asked: &ArgMatches<'_>,
    writer: &mut Piped<W>,
) -> Result<u8, Fault> {
    let file = asked.get_str("front").unwrap_or("");
    let ended = restore_file(rt, rt.alloc(), file, &mut lines_of(rt), writer);
    status_told(rt, &RESTORE, &[file], writer.ends_quietly(), ended)
}

// Holds the sessions that a command line names at a board.
fn board<
    R: AllocGlobal + Clock + Eprint + Files<File = File> + PipeFolder + Print + Sync + Threads,
>(rt: &R, asked: &ArgMatches<'_>) -> Result<u8, Fault> {
    let all = asked.get_strs("files").unwrap_or(&[]);
    let limits = command_line::limits(asked);
    let kind = command_line::kind(asked);
    let ended = hold_files(
        rt,
        rt,
        rt.alloc(),
        limits,
        kind,
        command_line::names(asked, all),
    );
    status_told(rt, &BOARD, all, false, ended)
}
