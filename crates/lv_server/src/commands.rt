//! What a program does with the files that are named: it serves them with a transcript or a log, runs them at a board, or restores from one.

use crate::board_sessions::hold_sessions;
use crate::clients::{Clients, first_unwritten};
use crate::log_server::serve_log;
use crate::opened_client::{OpenedClient, open_all, open_with_log};
use crate::server::{Plan, serve};
use lv_bodies::Kind;
use lv_files::{
    AnnouncedFile, LogFolder, LogPlan, Names, PipeFolder, ProgramError, Reason, StartedLog,
    StoredLog, Waited, is_written, open_input, standard_files,
};
use lv_geometry::Limits;
use lv_hub::Watched;
use lv_script::{Fault, FrontVerdict, Unrestored, restore_script};
use std::alloc::Global;
use std::fs::{File, Files};
use std::io::{Read, Write};
use std::sync::Wait;
use std::thread::Threads;
use std::time::Clock;

/// Opens files, and serves them. Input is waited for with the clock. If notifications couldn't be written, that is the fault once everything else
/// is done.
pub fn serve_files<
    C: Clock + Copy + Send,
    R: Eprint + Files<File = File> + PipeFolder + Sync + Threads + Wait,
    W: Write,
>(
    clock: C,
    rt: &R,
    alloc: Global,
    plan: Plan,
    names: Names<'_>,
    writer: &mut W,
) -> Result<(), ProgramError> {
    let (Clients { streams, watches }, file) = open_all(clock, rt, alloc, names)?;
    tell_ready(rt, names, &streams);
    let file = announced(rt, names, file);
    let is_file = standard_files(rt)[1].is_some();
    let mut output = AnnouncedFile::of_output(rt, is_file, writer);
    match serve(rt, alloc, plan, &[], streams, watches, file, &mut output) {
        Ok((streams, file, watched)) => {
            drop(file);
            closed(streams, watched)
        }
        Err(error) => Err(error),
    }
}

// Closes the clients' files. If notifications couldn't be written, that is the fault.
fn closed<F: Write + Drop>(
    streams: Vec<OpenedClient<F>>,
    watched: Vec<Watched<F>>,
) -> Result<(), ProgramError> {
    let ended = first_unwritten(&watched);
    drop((streams, watched));
    ended
}

// Says on standard error that all files are there and that clients are served from now on, if one of them may come later.
fn tell_ready<R: Eprint, F: Drop>(rt: &R, names: Names<'_>, sessions: &[OpenedClient<F>]) {
    if sessions.iter().any(|session| session.is_absent) {
        let _ = eprintln!(rt; "livevec: ready, {} clients", names.clients);
    }
}

// The file of a transcript, if there is one, wrapped so that its failure is reported at once.
fn announced<'a, R, F: Write + Drop>(
    rt: &'a R,
    names: Names<'a>,
    file: Option<F>,
) -> Option<AnnouncedFile<'a, &'a R, F>>
where
    R: Eprint,
{
    match file {
        Some(file) => Some(AnnouncedFile::of_transcript(rt, names.of_record().unwrap_or(""), file)),
        None => None,
    }
}

/// Opens files and a log, and serves them from where the log ends. Input is waited for with the clock. Updates are written to the log, and
/// answers if that is planned. A failure to write to the log is reported at once, and is the fault at the end. If notifications couldn't be
/// written, that is the fault once everything else is done.
pub fn serve_logged_files<
    C: Clock + Copy + Send,
    R: Eprint + Files<File = File> + LogFolder + PipeFolder + Sync + Threads + Wait,
>(
    clock: C,
    rt: &R,
    alloc: Global,
    plan: Plan,
    kept: LogPlan,
    names: Names<'_>,
) -> Result<(), ProgramError> {
    let (Clients { streams, watches }, log) = open_with_log(
        clock,
        rt,
        alloc,
        plan.limits,
        kept,
        names,
    )?;
    let StartedLog {
        file,
        heading,
        edits,
        ..
    } = log;
    tell_ready(rt, names, &streams);
    let file = AnnouncedFile::of_log(rt, names.of_record().unwrap_or(""), file);
    let begun = edits.journal();
    let served = serve_log(
        rt,
        alloc,
        plan,
        kept.logs_answers,
        heading,
        begun,
        streams,
        watches,
        file,
    );
    drop(edits);
    match served {
        Ok((streams, file, watched)) => {
            let is_lost = is_lost(file);
            let ended = closed(streams, watched);
            if is_lost {
                return Err(ProgramError::new(Fault::WriteFault, Reason::Log, names.clients));
            }
            ended
        }
        Err(error) => Err(about_log(error, names)),
    }
}

// Whether a log's name no longer leads to it at its end, which is reported.
fn is_lost<'a, C: Clock + Copy, R: Eprint + LogFolder>(
    file: Option<AnnouncedFile<'a, &'a R, StoredLog<'a, C, &'a R>>>,
) -> bool {
    match file {
        Some(mut file) => file.see_name().is_err(),
        None => false,
    }
}

// An error about the record's file, as one that names the log.
fn about_log(error: ProgramError, names: Names<'_>) -> ProgramError {
    match error.reason {
        Reason::Transcript => ProgramError::new(error.fault, Reason::Log, names.clients),
        _ => error,
    }
}

/// Opens files, and runs their sessions at a board. Input is waited for with the clock.
pub fn hold_files<
    C: Clock + Copy + Send,
    R: Eprint + Files<File = File> + PipeFolder + Sync + Threads,
>(
    clock: C,
    rt: &R,
    alloc: Global,
    limits: Limits,
    kind: Kind,
    names: Names<'_>,
) -> Result<(), ProgramError> {
    let (Clients { streams, .. }, _) = open_all(clock, rt, alloc, names)?;
    hold_sessions(rt, alloc, limits, kind, streams)
}

/// Makes the updates of the file's valid prefix anew, and answers a script from there on. A line that is false or misspelt is the fault. No
/// standard stream may write the file.
pub fn restore_file<R: Clock + Files<File = File>, I: Read, W: Write>(
    rt: &R,
    alloc: Global,
    file: &str,
    reader: &mut I,
    writer: &mut W,
) -> Result<(), ProgramError> {
    let (front, input) = open_input(rt, 0, file)?;
    if is_written(&standard_files(rt), input) {
        return Err(ProgramError::new(Fault::WriteFault, Reason::Standard, 0));
    }
    restore_from(alloc, Waited::new(rt, front), reader, writer)
}

// Makes the updates of a prefix anew, and answers a script from there on.
fn restore_from<F: Read + Drop, I: Read, W: Write>(
    alloc: Global,
    front: F,
    reader: &mut I,
    writer: &mut W,
) -> Result<(), ProgramError> {
    let reason = match restore_script(alloc, front, reader, writer) {
        Ok(FrontVerdict::Front { .. }) => return Ok(()),
        Ok(FrontVerdict::No(line)) => Reason::False(line),
        Ok(FrontVerdict::Bad(line)) => Reason::Misspelt(line),
        Err(Unrestored::Front(fault)) => return Err(ProgramError::front(0, fault)),
        Err(Unrestored::Script(fault)) => return Err(ProgramError::standard(fault)),
    };
    Err(ProgramError::new(Fault::ReadFault, reason, 0))
}
