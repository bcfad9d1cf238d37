//! How the tests of several crates serve lines over readers and writers that fail, and over those that give or take little at once.
#![tactic(auto)]

ghost use Rattle.std.specs.Prelude.{◌<◌};

use lv_script::Fault;
use lv_script::devices::{FailingReader, FailingWriter, Failure};
use std::alloc::{AllocError, Global};
use std::test::Fail;

/// How a writer takes bytes: how many it takes at once at most, after how many it stops, and how it stops.
pub type Takes = (usize, usize, Failure);

/// A writer that takes all bytes, at most `step` of them at once.
pub fn all(step: usize) -> Takes {
    (step, 1000, Failure::Refuses)
}

/// A writer that took nothing yet.
pub fn writer(alloc: Global, takes: Takes) -> Result<FailingWriter, AllocError> {
    let (step, left, failure) = takes;
    Ok(FailingWriter {
        taken: Vec::with_capacity(alloc, left)?,
        step,
        left,
        failure,
    })
}

/// Something that reads lines and writes replies.
pub trait Server<R> {
    /// The lines that it reads.
    fn lines(&self) -> &'static [u8];

    /// What it writes if it reads all of them.
    fn replies(&self) -> &'static [u8];

    /// Serves once, and returns how that ends.
    fn serve(
        &self,
        rt: &R,
        alloc: Global,
        reader: &mut FailingReader<'_>,
        writer: &mut FailingWriter,
    ) -> Result<(), Fault>;
}

// Serves the lines, and checks that this ends as it should, with these bytes written.
fn check<S: Server<R>, R>(
    rt: &R,
    alloc: Global,
    server: &S,
    reads: (usize, usize),
    takes: Takes,
    end: Result<(), Fault>,
    replies: &[u8],
) -> Result<(), Fail>
    requires { 0 < reads.0 }
{
    let (step, left) = reads;
    let mut reader = FailingReader {
        rest: server.lines(),
        step,
        left,
    };
    let mut writer = writer(alloc, takes)?;
    let ended = server.serve(rt, alloc, &mut reader, &mut writer);
    let is_same = ended == end && writer.taken.as_slice() == replies;
    drop(writer);
    if is_same {
        return Ok(());
    }
    Err(Fail::new("it ends in another way, or writes other bytes"))
}

/// Checks that all replies are written, however few bytes are read and written at once.
pub fn check_all<S: Server<R>, R>(rt: &R, alloc: Global, server: &S) -> Result<(), Fail> {
    for step in [1, 3, 1000] {
        let replies = server.replies();
        check(rt, alloc, server, (step, 1000), all(step), Ok(()), replies)?;
    }
    Ok(())
}

/// Checks what is written if the reader fails. The table says after how many bytes it fails, and how many bytes of the replies are written then.
pub fn check_reads<S: Server<R>, R>(
    rt: &R,
    alloc: Global,
    server: &S,
    table: &[(usize, usize)],
) -> Result<(), Fail> {
    let replies = server.replies();
    for &(left, answered) in table {
        let (replies, _) = replies.split_at(answered.min(replies.len()));
        for step in [1, 1000] {
            let end = Err(Fault::ReadFault);
            check(rt, alloc, server, (step, left), all(1000), end, replies)?;
        }
    }
    Ok(())
}

/// Checks that the replies are cut off where the writer fails, after any number of bytes and in either way.
pub fn check_writes<S: Server<R>, R>(rt: &R, alloc: Global, server: &S) -> Result<(), Fail> {
    let replies = server.replies();
    for failure in [Failure::Refuses, Failure::Stalls] {
        for left in 0..replies.len() {
            let (replies, _) = replies.split_at(left);
            let (end, takes) = (Err(Fault::WriteFault), (3, left, failure));
            check(rt, alloc, server, (1000, 1000), takes, end, replies)?;
        }
    }
    Ok(())
}
