//! Tests of transcripts and the auditor over readers and writers that fail.
use lv_bodies::{Kind, Shown};
use lv_edits::Edit;
use lv_script::devices::{FailingReader, FailingWriter};
use lv_script::{Claimed, Fault, audit, write_transcript};
use std::alloc::Global;
use std::test::Fail;
use stream_fixtures::{Server, check_all, check_reads, check_writes};

// Writes the transcript of a push, a pop and the sum between them, and reads nothing.
struct Written;

impl<R> Server<R> for Written {
    fn lines(&self) -> &'static [u8] {
        b""
    }

    fn replies(&self) -> &'static [u8] {
        b"livevec 1\nj push 5\nj pop\na 1 sum 0 1 5\nend\n"
    }

    fn serve(
        &self,
        _rt: &R,
        alloc: Global,
        _reader: &mut FailingReader<'_>,
        writer: &mut FailingWriter,
    ) -> Result<(), Fault> {
        let answer = Claimed {
            edit: 1,
            kind: Kind::Sum,
            lo: 0,
            hi: 1,
            value: Shown::Sum(5),
        };
        write_transcript(alloc, &[Edit::Push(5), Edit::Pop], &[answer], writer)
    }
}

#[test]
fn a_writer_fails_under_a_transcript(rt: HostRuntime) -> Result<(), Fail> {
    check_all(&rt, rt.alloc(), &Written)?;
    check_writes(&rt, rt.alloc(), &Written)
}

// Audits a transcript of two edits and one answer.
struct Audited;

impl<R> Server<R> for Audited {
    fn lines(&self) -> &'static [u8] {
        b"livevec 1\nj push 5\nj push -7\na 2 sum 0 2 18446744073709551614\nend\n"
    }

    fn replies(&self) -> &'static [u8] {
        b"yes\n"
    }

    fn serve(
        &self,
        _rt: &R,
        alloc: Global,
        reader: &mut FailingReader<'_>,
        writer: &mut FailingWriter,
    ) -> Result<(), Fault> {
        match audit(alloc, reader, writer) {
            Ok(_) => Ok(()),
            Err(fault) => Err(fault),
        }
    }
}

#[test]
fn a_reader_fails_under_an_audit(rt: HostRuntime) -> Result<(), Fail> {
    let table = [(0, 0), (9, 0), (10, 0), (60, 0)];
    check_reads(&rt, rt.alloc(), &Audited, &table)
}

#[test]
fn a_writer_fails_under_an_audit(rt: HostRuntime) -> Result<(), Fail> {
    check_writes(&rt, rt.alloc(), &Audited)
}

#[test]
fn an_audit_by_any_steps(rt: HostRuntime) -> Result<(), Fail> {
    check_all(&rt, rt.alloc(), &Audited)
}
