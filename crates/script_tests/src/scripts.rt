//! Tests of scripts over readers and writers that fail.
use lv_geometry::Limits;
use lv_script::devices::{FailingReader, FailingWriter};
use lv_script::{Fault, run_script};
use std::alloc::Global;
use std::test::Fail;
use stream_fixtures::{Server, check_all, check_reads, check_writes};

struct Script;

impl<R> Server<R> for Script {
    fn lines(&self) -> &'static [u8] {
        b"push 5\npush -7\nreduce sum 0 2\n"
    }

    fn replies(&self) -> &'static [u8] {
        b"edit 1 at 0\nedit 2 at 1\nat 2 sum 18446744073709551614\n"
    }

    fn serve(
        &self,
        _rt: &R,
        alloc: Global,
        reader: &mut FailingReader<'_>,
        writer: &mut FailingWriter,
    ) -> Result<(), Fault> {
        run_script(alloc, Limits::greatest(), reader, writer)
    }
}

#[test]
fn a_script_by_any_steps(rt: HostRuntime) -> Result<(), Fail> {
    check_all(&rt, rt.alloc(), &Script)
}

#[test]
fn a_reader_fails_under_a_script(rt: HostRuntime) -> Result<(), Fail> {
    let table = [(0, 0), (6, 0), (9, 12), (15, 24), (29, 24)];
    check_reads(&rt, rt.alloc(), &Script, &table)
}

#[test]
fn a_writer_fails_under_a_script(rt: HostRuntime) -> Result<(), Fail> {
    check_writes(&rt, rt.alloc(), &Script)
}
