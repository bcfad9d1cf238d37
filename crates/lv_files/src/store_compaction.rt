//! Logs that are made anew of the elements that there are at their end.

ghost use Rattle.std.specs.Prelude.{◌≤◌, ◌^◌, IfOk};
ghost use Rattle.lv_files.specs.Stores.{IsFit, IsRightStore};
ghost use Rattle.lv_transcript.specs.Logs.{base_of};

use crate::escaped::Escaped;
use crate::identity::{is_written, standard_files};
use crate::log_file::LogFile;
use crate::log_places::LogPlaces;
use crate::output_file::OutputFile;
use crate::program_error::{ProgramError, Reason};
use crate::seal_buffer::SealBuffer;
use crate::store_file::StoreFile;
use crate::waited::Waited;
use lv_lines::Fault;
use lv_transcript::{LogHeading, compact_log, compacted_heading};
use std::alloc::Global;
use std::fs::{File, Files};
use std::time::Clock;

/// The result of compacting a file.
#[derive(Clone, Copy)]
pub struct Compacted {
    /// How it begins now.
    pub heading: LogHeading,
    /// Whether the old file is kept next to it.
    pub is_kept: bool,
}

/// Replaces the log of this name, or the prefix (*front*) of a transcript, by a log of the elements that there are after all its updates. The next
/// update has the number that it would have had. The old file is kept as FILE.1, in place of an older log there, unless it is dropped. Nobody
/// serves the log meanwhile: it is locked. Standard error says how many bytes after its last whole line are left out.
///
/// The new log is written and flushed to the disk under another name, FILE.compacting, and takes the name when it is whole. A kill therefore leaves
/// the old file or the new one under the name, each with everything. A kill between the two steps leaves the old file under FILE.1 too, and an
/// earlier one leaves FILE.compacting; the next compaction takes either over.
///
/// A file that can't be read is `ReadFault`, as is one that is not a prefix, with its first wrong line. What can't be made or written is
/// `WriteFault`, which is also the fault if another file has the name by then. After a fault the file is as it was, except if its folder can't be
/// flushed to the disk: then the new log has the name, and the reason is `Unflushed`.
pub fn compact_file<C: Clock + Copy, R: Eprint + Files<File = File>>(
    clock: C,
    rt: &R,
    alloc: Global,
    name: &str,
    drops_old: bool,
) -> Result<Compacted, ProgramError> {
    let mut store = StoreFile::open(clock, rt, alloc, name, 0, false)?;
    if is_written(&standard_files(rt), store.output.identity) {
        return Err(clash(Reason::Standard));
    }
    store.check_front()?;
    let mut places = LogPlaces::of(alloc, name, 0, drops_old)?;
    places.look(rt, alloc, store.output.identity, store.base())?;
    places.see(rt, store.output.identity)?;
    let (file, _, heading) = make_anew(clock, rt, alloc, &store, &places)?;
    drop(file);
    store.tell_of_torn_end(rt, name);
    Ok(Compacted {
        heading,
        // a compaction that was killed has left it the name, which it keeps
        is_kept: !drops_old || store.is_kept,
    })
}

/// Returns the log that was opened. If it is of version 2, whose lines have no checksums, and is to be renewed, it is made anew in its place as a
/// compaction does it. The next update has the number that it would have had. The new log is open and locked, and the old file is kept as after a
/// compaction. Standard error says what was done, or that the log stays as it is.
///
/// Faults are those of a compaction.
pub fn renew_store<C: Clock + Copy, R: Eprint + Files<File = File>>(
    clock: C,
    rt: &R,
    alloc: Global,
    name: &str,
    store: StoreFile,
    places: &mut LogPlaces<'_>,
    renews: bool,
) -> Result<StoreFile, ProgramError>
    requires right { IsRightStore store.found }
    requires fit { IsFit store.found }
    ensures right { IfOk result (λ store. IsRightStore store.found) }
    ensures fit { IfOk result (λ store. IsFit store.found) }
{
    if !store.is_unsealed() {
        return Ok(store);
    }
    if !renews {
        let _ = eprintln!(rt;
            "livevec: '{}' stays a log of version 2, whose lines have no checksums",
            Escaped(name)
        );
        return Ok(store);
    }
    renewed(clock, rt, alloc, name, store, places)
}

// A log that is made anew, and read.
fn renewed<C: Clock + Copy, R: Eprint + Files<File = File>>(
    clock: C,
    rt: &R,
    alloc: Global,
    name: &str,
    store: StoreFile,
    places: &mut LogPlaces<'_>,
) -> Result<StoreFile, ProgramError>
    requires fit { IsFit store.found }
    ensures right { IfOk result (λ store. IsRightStore store.found) }
    ensures fit { IfOk result (λ store. IsFit store.found) }
{
    let mut store = store;
    let (file, output, _) = make_anew(clock, rt, alloc, &store, places)?;
    store.tell_of_torn_end(rt, name);
    tell_of_renewal(rt, name, !places.drops_old() || store.is_kept);
    places.remember(&store.file);
    let mut store = store.replaced(clock, rt, alloc, name, file, output)?;
    store.check_front()?;
    Ok(store)
}

// Reports that a log of version 2 was made anew.
fn tell_of_renewal<R: Eprint>(rt: &R, name: &str, is_kept: bool) {
    let name = Escaped(name);
    if is_kept {
        let _ = eprintln!(rt;
            "livevec: '{name}' was a log of version 2, and was made anew in version 3, whose lines end in checksums: the old file is kept as '{name}.1'"
        );
    } else {
        let _ = eprintln!(rt;
            "livevec: '{name}' was a log of version 2, and was made anew in version 3, whose lines end in checksums"
        );
    }
}

// Makes a log of the elements that there are at the end of a file in its place. It is locked, and all of it is on the disk.
fn make_anew<C: Clock + Copy, R: Files<File = File>>(
    clock: C,
    rt: &R,
    alloc: Global,
    store: &StoreFile,
    places: &LogPlaces<'_>,
) -> Result<(File, OutputFile, LogHeading), ProgramError>
    requires { base_of store.now.found.heading ≤ 2 ^ 62 }
{
    let seals = SealBuffer::of_new(alloc)?;
    let (file, output) = places.make(rt, store.output)?;
    let mut log = Waited::new(clock, LogFile::new(file, true, 0, Some(seals)));
    match fill_and_replace(rt, alloc, store, places, &mut log, output) {
        Ok(heading) => Ok((log.into_stream().into_file(), output, heading)),
        Err(error) => {
            places.unmake(rt, output);
            drop(log);
            Err(error)
        }
    }
}

// The error that files can't be used in this way.
fn clash(reason: Reason) -> ProgramError {
    ProgramError::new(Fault::WriteFault, reason, 0)
}

// Fills the new file, and puts it in place of the old one, which is kept if that is wanted.
fn fill_and_replace<C: Clock + Copy, R: Files<File = File>>(
    rt: &R,
    alloc: Global,
    store: &StoreFile,
    places: &LogPlaces<'_>,
    log: &mut Waited<C, LogFile<File>>,
    made: OutputFile,
) -> Result<LogHeading, ProgramError>
    requires { base_of store.now.found.heading ≤ 2 ^ 62 }
{
    match compact_log(alloc, &store.found, log) {
        Ok(()) => {}
        Err(Fault::NoMemory) => return Err(ProgramError::memory()),
        Err(_) => return Err(places.fault(Reason::Uncompacted)),
    }
    places.replace(rt, &store.file, store.output, &log.stream().file, made)?;
    places.sync(rt)?;
    Ok(compacted_heading(store.found.heading, &store.found.edits))
}
