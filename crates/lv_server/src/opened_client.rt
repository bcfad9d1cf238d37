//! The files of clients, and of the transcript or of the log, and how they are opened. None is changed before all are found fit.

ghost use Rattle.std.specs.Prelude.{◌≡◌, IfOk};
ghost use Rattle.lv_files.specs.Stores.{IsFit, IsRightStore, MayStart};

use crate::clients::Clients;
use lv_files::{
    Access, ClientFile, Found, Identity, Left, LogFile, LogFolder, LogPlaces, LogPlan, NULL, Names,
    OutputFile, PipeFolder, ProgramError, REPLIES, Reason, StartedLog, StoreFile, StoredLog,
    StreamEnd, Use, Waited, first_clash, is_written, lasts, names_of, open_input, open_locked,
    pipe_at, renew_store, standard_files, sync_folder,
};
use lv_geometry::Limits;
use lv_hub::{Query, Unasked, read_questions};
use lv_script::Fault;
use std::alloc::Global;
use std::fs::{File, Files, TryLockError};
use std::io::Read;
use std::mem;
use std::time::Clock;

/// A session's file and that of its replies, or a subscriber's file, its questions, and the file of its notes.
#[derive(Drop)]
pub struct OpenedClient<F: Drop> {
    /// Which of the files it is, counted from 0.
    pub number: usize,
    pub lines: F,
    pub replies: F,
    /// The questions of a subscriber. A session has none.
    pub questions: Vec<Query>,
    /// Whether its lines come from a pipe that is opened once it is read.
    pub is_absent: bool,
    input: Identity,
    output: OutputFile,
    // The name of the file of replies.
    name: String,
}

// A file of a client as it is served.
type Served<'a, C, R> = Waited<C, ClientFile<'a, &'a R>>;

impl OpenedClient<File> {
    // The client as it is served: its streams are waited for, and a pipe that isn't open yet is opened once it is read. Until then another file
    // has its descriptor.
    fn served<'a, C: Clock + Copy, R: Eprint + PipeFolder>(
        self,
        clock: C,
        rt: &'a R,
        names: Names<'a>,
    ) -> OpenedClient<Served<'a, C, R>> {
        let OpenedClient {
            number,
            lines,
            replies,
            questions,
            is_absent,
            input,
            output,
            name,
        } = self;
        let lines = if is_absent {
            let file = names.of_clients().get(number).copied().unwrap_or("");
            ClientFile::absent(rt, file, input, lines, StreamEnd::torn(names.goes_on))
        } else {
            ClientFile::new(rt, lines)
        };
        OpenedClient {
            number,
            lines: Waited::new(clock, lines),
            replies: Waited::new(clock, ClientFile::new(rt, replies)),
            questions,
            is_absent,
            input,
            output,
            name,
        }
    }
}

/// Opens each file and that of its replies, in order: those of sessions, and then those of subscribers. If there is a transcript, the pipe of a
/// session isn't opened here but once it is read, so that whoever serves it waits for its client. Files of replies are emptied only after all are
/// open, each is found to be a regular file that nothing else here reads or writes under whatever name, standard streams included, and the
/// questions of subscribers are known. All are waited for with the clock.
///
/// The first failure is the fault. It is `ReadFault` if a file can't be opened or is a directory, and `WriteFault` if the file of its replies
/// can't be made, or is there but no regular file. Files that were made here are then removed. This also holds for the questions of a
/// subscriber's file, which is read next, and for the file of a transcript, which comes last and is locked. Each file of replies is locked too,
/// until it is closed. If another process has locked it, or has written to it since it was made here, or if its name leads elsewhere by then, it
/// is refused and left as it is. Names that clash are reported before any file is opened.
pub fn open_all<'a, C: Clock + Copy, R: Eprint + Files<File = File> + PipeFolder>(
    clock: C,
    rt: &'a R,
    alloc: Global,
    names: Names<'a>,
) -> Result<(Clients<Served<'a, C, R>>, Option<Waited<C, LogFile<File>>>), ProgramError> {
    let (clients, mut all) = room_for(alloc, names)?;
    match open_and_ask(rt, alloc, names, &mut all) {
        Ok(last) => empty_with(clock, rt, all, clients, last, names),
        Err(error) => Err(without_new(rt, &all, error)),
    }
}

/// Opens each file and that of its replies in the same way, and the log that a server continues. The log is locked first, before it is read, so a
/// second server on it is turned away at once. The log is begun, or a torn line of it cut off, once all files are found fit. A log is fit if it
/// has whole lines that are a log whose updates keep to these limits, or if it is new and one may be made. If it may be made anew later, nothing
/// must be in the way of that in its folder.
pub fn open_with_log<'a, C: Clock + Copy, R: Eprint + Files<File = File> + LogFolder + PipeFolder>(
    clock: C,
    rt: &'a R,
    alloc: Global,
    limits: Limits,
    kept: LogPlan,
    names: Names<'a>,
) -> Result<
    (
        Clients<Served<'a, C, R>>,
        StartedLog<StoredLog<'a, C, &'a R>>,
    ),
    ProgramError,
>
    ensures { IfOk result (λ opened. MayStart opened.1.heading opened.1.edits.journal) }
{
    let (clients, mut all) = room_for(alloc, names)?;
    let store = open_store(clock, rt, alloc, kept, names)?;
    match open_and_start(clock, rt, alloc, limits, kept, names, store, &mut all) {
        Ok(log) => {
            let clients = empty_all(clock, rt, all, clients, names)?;
            Ok((clients, log))
        }
        Err(error) => Err(without_new(rt, &all, error)),
    }
}

// Room for all clients, if their names don't clash.
fn room_for<F: Drop>(
    alloc: Global,
    names: Names<'_>,
) -> Result<(Clients<F>, Vec<OpenedClient<File>>), ProgramError> {
    let files = names.of_clients();
    if let Some(error) = first_clash(files) {
        return Err(error);
    }
    let watches = files.len().saturating_sub(names.sessions);
    let (Ok(clients), Ok(all)) = (
        Clients::with_room(alloc, names.sessions, watches),
        Vec::with_capacity(alloc, files.len()),
    ) else {
        return Err(ProgramError::memory());
    };
    Ok((clients, all))
}

// Opens the clients' files, reads what subscribers ask, and opens the file of a transcript if there is to be one.
fn open_and_ask<R: Files<File = File>>(
    rt: &R,
    alloc: Global,
    names: Names<'_>,
    all: &mut Vec<OpenedClient<File>>,
) -> Result<Option<(File, OutputFile)>, ProgramError> {
    open_asked(rt, alloc, names, all)?;
    match names.of_record() {
        Some(name) => match open_unshared(rt, names, name, all) {
            Ok(opened) => Ok(Some(opened)),
            Err(error) => Err(error),
        },
        None => {
            lock_replies(rt, all)?;
            Ok(None)
        }
    }
}

// Opens the clients' files, and reads what subscribers ask.
fn open_asked<R: Files<File = File>>(
    rt: &R,
    alloc: Global,
    names: Names<'_>,
    all: &mut Vec<OpenedClient<File>>,
) -> Result<(), ProgramError> {
    open_each(rt, alloc, names, all)?;
    ask_each(alloc, all.as_mut_slice(), names.sessions)
}

// Opens and locks the log, which is made if that is allowed.
fn open_store<C: Clock + Copy, R: Files<File = File>>(
    clock: C,
    rt: &R,
    alloc: Global,
    kept: LogPlan,
    names: Names<'_>,
) -> Result<StoreFile, ProgramError>
    ensures { IfOk result (λ store. IsRightStore store.found) }
{
    let name = names.of_record().unwrap_or("");
    match StoreFile::open(clock, rt, alloc, name, names.clients, !kept.must_exist) {
        Ok(store) => Ok(store),
        Err(error) => Err(unfound(error, kept.must_exist)),
    }
}

// The error that is reported for a log that can't be opened: if it had to exist, the error says that it is missing.
fn unfound(error: ProgramError, must_exist: bool) -> ProgramError {
    match error.reason {
        Reason::Unopened if must_exist => {
            ProgramError::new(error.fault, Reason::Missing, error.file)
        }
        _ => error,
    }
}

// Opens the clients' files, reads what subscribers ask, and begins the log. A log that was made here and can't begin is removed before it is
// unlocked.
fn open_and_start<'a, C: Clock + Copy, R: Eprint + Files<File = File> + LogFolder>(
    clock: C,
    rt: &'a R,
    alloc: Global,
    limits: Limits,
    kept: LogPlan,
    names: Names<'a>,
    store: StoreFile,
    all: &mut Vec<OpenedClient<File>>,
) -> Result<StartedLog<StoredLog<'a, C, &'a R>>, ProgramError>
    requires { IsRightStore store.found }
    ensures { IfOk result (λ log. MayStart log.heading log.edits.journal) }
{
    match open_asked(rt, alloc, names, all) {
        Ok(()) => start(clock, rt, alloc, limits, kept, names, store, all),
        Err(error) => Err(store.without(rt, names.of_record().unwrap_or(""), error)),
    }
}

// Begins the log, once it is checked that no client reads or writes it, and that it is fit.
fn start<'a, C: Clock + Copy, R: Eprint + Files<File = File> + LogFolder>(
    clock: C,
    rt: &'a R,
    alloc: Global,
    limits: Limits,
    kept: LogPlan,
    names: Names<'a>,
    store: StoreFile,
    all: &[OpenedClient<File>],
) -> Result<StartedLog<StoredLog<'a, C, &'a R>>, ProgramError>
    requires { IsRightStore store.found }
    ensures { IfOk result (λ log. MayStart log.heading log.edits.journal) }
{
    let mut store = store;
    let name = names.of_record().unwrap_or("");
    match see_log(rt, alloc, limits, kept, names, &mut store, all) {
        Ok(places) => {
            let mut places = places;
            let renews = lasts(limits) && !kept.keeps_version;
            let store = renew_store(clock, rt, alloc, name, store, &mut places, renews)?;
            let started = store.start(clock, rt, alloc, name, names.syncs)?;
            Ok(stored(clock, rt, places, kept, names, started))
        }
        Err(error) => Err(store.without(rt, name, error)),
    }
}

// Checks that no client reads or writes the log, that it is fit, and that no other file is in its way.
fn see_log<'a, R: Files<File = File>>(
    rt: &R,
    alloc: Global,
    limits: Limits,
    kept: LogPlan,
    names: Names<'a>,
    store: &mut StoreFile,
    all: &[OpenedClient<File>],
) -> Result<LogPlaces<'a>, ProgramError>
    ensures same { store.new.found ≡ store.old.found }
    ensures fit { IfOk result (λ _. IsFit store.old.found) }
{
    if is_taken(rt, all, store.output) {
        return Err(ProgramError::new(Fault::WriteFault, Reason::RecordTaken, names.clients));
    }
    lock_replies(rt, all)?;
    store.check_log(alloc, limits)?;
    if kept.must_exist {
        store.check_there()?;
    }
    let name = names.of_record().unwrap_or("");
    let mut places = LogPlaces::of(alloc, name, names.clients, kept.drops_old)?;
    if lasts(limits) {
        places.look(rt, alloc, store.output.identity, store.base())?;
        see_places(rt, &places, store.output.identity, all)?;
    }
    Ok(places)
}

// Checks that no other file is in the way of a log when it is made anew, and that no client reads or writes one.
fn see_places<R: Files<File = File>>(
    rt: &R,
    places: &LogPlaces<'_>,
    log: Identity,
    all: &[OpenedClient<File>],
) -> Result<(), ProgramError> {
    places.see(rt, log)?;
    let [kept, made] = places.found(rt);
    if is_at(all, kept) {
        return Err(places.fault(Reason::KeptUsed));
    }
    if is_at(all, made) {
        return Err(places.fault(Reason::CompactingUsed));
    }
    Ok(())
}

// Whether a client reads or writes what was found under a name.
fn is_at(all: &[OpenedClient<File>], found: Found) -> bool {
    match found {
        Found::Regular(identity) => is_used(all, usize::MAX, identity),
        Found::Nothing | Found::Else | Found::TooLong | Found::Unknown => false,
    }
}

// The started log, as one that may be made anew.
fn stored<'a, C: Clock + Copy, R: Eprint + LogFolder>(
    clock: C,
    rt: &'a R,
    places: LogPlaces<'a>,
    kept: LogPlan,
    names: Names<'a>,
    log: StartedLog<Waited<C, LogFile<File>>>,
) -> StartedLog<StoredLog<'a, C, &'a R>>
    ensures heading { result.heading ≡ log.heading }
    ensures edits { result.edits ≡ log.edits }
{
    let StartedLog {
        file,
        output,
        heading,
        edits,
    } = log;
    let file = StoredLog::new(clock, rt, places, names.syncs, kept, file, output);
    StartedLog {
        file,
        output,
        heading,
        edits,
    }
}

// Opens the clients' files in order, and checks that none is written that is read or written otherwise.
fn open_each<R: Files<File = File>>(
    rt: &R,
    alloc: Global,
    names: Names<'_>,
    all: &mut Vec<OpenedClient<File>>,
) -> Result<(), ProgramError> {
    for (number, file) in names.of_clients().iter().enumerate() {
        let opened = open(rt, alloc, number, file, names.may_be_absent(number))?;
        if all.push(opened).is_err() {
            return Err(ProgramError::memory());
        }
    }
    let standard = standard_files(rt);
    for opened in all.as_slice() {
        if let Some(reason) = clash_of(all, opened, &standard) {
            return Err(ProgramError::new(Fault::WriteFault, reason, opened.number));
        }
    }
    Ok(())
}

// Opens the file of a number and that of its replies. A pipe that may be absent isn't opened.
fn open<R: Files<File = File>>(
    rt: &R,
    alloc: Global,
    number: usize,
    file: &str,
    may_be_absent: bool,
) -> Result<OpenedClient<File>, ProgramError> {
    let absent = if may_be_absent {
        pipe_at(rt, file)
    } else {
        None
    };
    let opened = if absent.is_some() { NULL } else { file };
    let (lines, input) = open_input(rt, number, opened)?;
    let Ok(name) = format!(in alloc; "{file}{REPLIES}") else {
        return Err(ProgramError::memory());
    };
    match OutputFile::open(rt, name.as_str()) {
        Ok((replies, output)) => Ok(OpenedClient {
            number,
            lines,
            replies,
            questions: Vec::new(alloc),
            is_absent: absent.is_some(),
            input: absent.unwrap_or(input),
            output,
            name,
        }),
        Err(reason) => Err(ProgramError::new(Fault::WriteFault, reason, number)),
    }
}

// How the files of a client clash with those of the others and with the standard streams, if they do.
fn clash_of<F: Drop>(
    all: &[OpenedClient<F>],
    one: &OpenedClient<F>,
    standard: &[Option<Identity>; 3],
) -> Option<Reason> {
    let output = one.output.identity;
    if standard.contains(&Some(output)) || is_used(all, one.number, output) {
        return Some(Reason::Shared);
    }
    if is_written(standard, one.input) {
        return Some(Reason::Standard);
    }
    None
}

// Whether a file is read by a client, or written by one of another number.
fn is_used<F: Drop>(all: &[OpenedClient<F>], number: usize, output: Identity) -> bool {
    for opened in all {
        if opened.input == output || (opened.number != number && opened.output.identity == output) {
            return true;
        }
    }
    false
}

// Opens the file of a transcript. It is fit if no client reads or writes it, no standard stream leads there, nobody else has locked it, and it
// has only one name, which is flushed to the disk if that is wanted. Otherwise a file that was made here is removed before it is unlocked.
fn open_unshared<R: Files<File = File>>(
    rt: &R,
    names: Names<'_>,
    name: &str,
    all: &[OpenedClient<File>],
) -> Result<(File, OutputFile), ProgramError> {
    let how = Access {
        purpose: Use::Written,
        makes: true,
    };
    let (file, output) = match open_locked(rt, how, name) {
        Ok(opened) => opened,
        Err(reason) => {
            return Err(ProgramError::new(Fault::WriteFault, reason, names.clients));
        }
    };
    match see_transcript(rt, names, name, all, &file, output) {
        Ok(()) => Ok((file, output)),
        Err(error) => {
            let error = output.without(rt, name, Left::Record(names.clients), error);
            drop(file);
            Err(error)
        }
    }
}

// Checks this of a file that is open and locked, and flushes its folder if that is wanted.
fn see_transcript<R: Files<File = File>>(
    rt: &R,
    names: Names<'_>,
    name: &str,
    all: &[OpenedClient<File>],
    file: &File,
    output: OutputFile,
) -> Result<(), ProgramError> {
    let number = names.clients;
    if is_taken(rt, all, output) {
        return Err(ProgramError::new(Fault::WriteFault, Reason::RecordTaken, number));
    }
    lock_replies(rt, all)?;
    match names_of(file) {
        Ok(count) if count <= 1 => {}
        Ok(_) => return Err(ProgramError::new(Fault::WriteFault, Reason::RecordNames, number)),
        Err(reason) => return Err(ProgramError::new(Fault::WriteFault, reason, number)),
    }
    if names.syncs {
        return sync_folder(rt, name, number);
    }
    Ok(())
}

// Locks each file of replies until it is closed. Checks that its name still leads to it, that it has no other name, and that nobody has written
// to one that was made here. So none is the log or the transcript of another server, nor becomes one.
fn lock_replies<R: Files>(rt: &R, all: &[OpenedClient<File>]) -> Result<(), ProgramError> {
    for opened in all {
        let reason = match lost_by(opened) {
            None if !opened.output.is_named(rt, opened.name.as_str()) => Some(Reason::Exchanged),
            None if has_more_names(&opened.replies) => Some(Reason::RepliesNames),
            reason => reason,
        };
        if let Some(reason) = reason {
            return Err(ProgramError::new(Fault::WriteFault, reason, opened.number));
        }
    }
    Ok(())
}

// Why a client's file of replies belongs to another process, if it does: another has locked it, or has written to it although it was made here.
// If not, it is locked here.
fn lost_by(opened: &OpenedClient<File>) -> Option<Reason> {
    if is_held(&opened.replies) {
        return Some(Reason::Locked);
    }
    if !opened.output.is_untouched(&opened.replies) {
        return Some(Reason::Written);
    }
    None
}

// Whether a file has a second name, if that can be found out.
fn has_more_names(file: &File) -> bool {
    match names_of(file) {
        Ok(count) => count > 1,
        Err(_) => false,
    }
}

// Whether another process has locked a file. If not, it is locked from now on, where locks are supported.
fn is_held(file: &File) -> bool {
    match file.try_lock() {
        Err(TryLockError::WouldBlock) => true,
        Ok(()) | Err(TryLockError::Error(_)) => false,
    }
}

// Whether a client reads or writes a file, or a standard stream leads there.
fn is_taken<R: Files, F: Drop>(rt: &R, all: &[OpenedClient<F>], output: OutputFile) -> bool {
    is_used(all, usize::MAX, output.identity) || standard_files(rt).contains(&Some(output.identity))
}

// Reads the questions of each file after those of the first `sessions` clients. The first file that can't be read, or has a bad line, is the
// fault: `ReadFault`, with the line's number.
fn ask_each<F: Read + Drop>(
    alloc: Global,
    all: &mut [OpenedClient<F>],
    sessions: usize,
) -> Result<(), ProgramError> {
    for opened in all {
        if opened.number >= sessions {
            ask(alloc, opened)?;
        }
    }
    Ok(())
}

// Reads the questions of a file, and keeps them.
fn ask<F: Read + Drop>(alloc: Global, opened: &mut OpenedClient<F>) -> Result<(), ProgramError> {
    let number = opened.number;
    match read_questions(alloc, &mut opened.lines) {
        Ok(questions) => {
            drop(mem::replace(&mut opened.questions, questions));
            Ok(())
        }
        Err(Unasked::Fault(fault)) => Err(ProgramError::session(number, fault)),
        Err(Unasked::Damage(damage)) => {
            Err(ProgramError::damaged(number, damage.line, damage.refusal))
        }
    }
}

// Empties the files of replies that were there before, and then that of the transcript.
fn empty_with<'a, C: Clock + Copy, R: Eprint + PipeFolder>(
    clock: C,
    rt: &'a R,
    all: Vec<OpenedClient<File>>,
    clients: Clients<Served<'a, C, R>>,
    last: Option<(File, OutputFile)>,
    names: Names<'a>,
) -> Result<(Clients<Served<'a, C, R>>, Option<Waited<C, LogFile<File>>>), ProgramError> {
    let clients = empty_all(clock, rt, all, clients, names)?;
    match last {
        None => Ok((clients, None)),
        Some((file, output)) if output.is_emptied(&file) => {
            let file = LogFile::new(file, names.syncs, 0, None);
            Ok((clients, Some(Waited::new(clock, file))))
        }
        Some(_) => Err(ProgramError::new(Fault::WriteFault, Reason::Transcript, 0)),
    }
}

// Empties the files of replies that were there before.
fn empty_all<'a, C: Clock + Copy, R: Eprint + PipeFolder>(
    clock: C,
    rt: &'a R,
    all: Vec<OpenedClient<File>>,
    mut clients: Clients<Served<'a, C, R>>,
    names: Names<'a>,
) -> Result<Clients<Served<'a, C, R>>, ProgramError> {
    for opened in all {
        let number = opened.number;
        if !opened.output.is_emptied(&opened.replies) {
            return Err(ProgramError::new(Fault::WriteFault, Reason::Unmade, number));
        }
        if !clients.add(opened.served(clock, rt, names), number < names.sessions) {
            return Err(ProgramError::memory());
        }
    }
    Ok(clients)
}

// Removes the files of replies that were made here and that nobody else has locked or written to. Adds to an error which is the first that is
// left.
fn without_new<R: Files>(rt: &R, all: &[OpenedClient<File>], error: ProgramError) -> ProgramError {
    let mut error = error;
    for opened in all {
        if lost_by(opened).is_none() {
            let left = Left::Replies(opened.number);
            error = opened.output.without(rt, opened.name.as_str(), left, error);
        }
    }
    error
}
