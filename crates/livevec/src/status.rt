//! The status with which the program ends, and what it reports then.

ghost use Rattle.std.specs.Prelude.{◌≡◌, ◌≢◌};

use crate::command_line::clash_error;
use crate::misuse::Misuse;
use crate::modes::Mode;
use clap::Error;
use clap::error::ErrorKind;
use lv_files::{ErrorText, ProgramError, Waited};
use lv_script::{Fault, FrontVerdict, Verdict};
use std::io;
use std::io::Write;
use std::time::Clock;

/// The status with --quiet-pipe if the reader of standard output has ended.
pub const CUT: u8 = 3;

/// Reports an error on standard error, and returns the status that it ends with.
pub fn tell<R: Eprint>(rt: &R, error: ProgramError, files: &[&str]) -> u8
    ensures { result ≡ 1 }
{
    let _ = eprintln!(rt; "{error}");
    let _ = eprintln!(rt; "{}", error.in_words(files));
    1
}

/// Reports how a command ended that was given these files, and returns the status. Nothing is reported if the reader of standard output has ended and
/// that is not to be reported. Files that clash are a wrong use of the command.
pub fn status_told<R: AllocGlobal + Clock + Eprint + Print>(
    rt: &R,
    mode: &Mode,
    files: &[&str],
    is_quiet: bool,
    ended: Result<(), ProgramError>,
) -> Result<u8, Fault> {
    let Err(error) = ended else {
        return Ok(0);
    };
    if error.reason.is_clash() {
        return show_clash(rt, mode, error.in_words(files));
    }
    if is_quiet {
        return Ok(CUT);
    }
    Ok(tell(rt, error, files))
}

// Shows that files can't be served together.
fn show_clash<R: AllocGlobal + Clock + Eprint + Print>(
    rt: &R,
    mode: &Mode,
    text: ErrorText<'_>,
) -> Result<u8, Fault> {
    let Ok(error) = clash_error(rt.alloc(), mode, text) else {
        return Err(Fault::NoMemory);
    };
    show(rt, &error)
}

/// Shows help on standard output, or what is wrong with the command line on standard error.
pub fn show<R: Clock + Eprint + Print>(rt: &R, error: &Error) -> Result<u8, Fault> {
    if error.kind() == ErrorKind::OutOfMemory {
        return Err(Fault::NoMemory);
    }
    if error.use_stderr() {
        let _ = error.print(rt);
        return Ok(2);
    }
    match write!(Waited::new(rt, io::writer(rt)), "{error}") {
        Ok(()) => Ok(0),
        Err(_) => Err(Fault::WriteFault),
    }
}

/// Reports on standard error why a word of the command line is rejected, and returns the status that the program ends with.
pub fn show_misuse<R: Eprint>(rt: &R, misuse: Misuse<'_>) -> u8
    ensures { result ≡ 2 }
{
    let _ = eprintln!(rt; "{misuse}");
    2
}

/// The status for a verdict.
pub fn status_of(verdict: Verdict) -> u8
    ensures sound { verdict ≡ Verdict.Yes → result ≡ 0 }
    ensures unsound { verdict ≢ Verdict.Yes → result ≡ 1 }
{
    match verdict {
        Verdict::Yes => 0,
        Verdict::No(_) | Verdict::Bad(_) => 1,
    }
}

/// The status for the verdict on a prefix.
pub fn status_of_front(verdict: FrontVerdict) -> u8 {
    match verdict {
        FrontVerdict::Front { .. } => 0,
        FrontVerdict::No(_) | FrontVerdict::Bad(_) => 1,
    }
}
