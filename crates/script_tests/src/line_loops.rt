//! Tests of the loop of lines over readers and writers that fail, that give or take little, and that give too much.
ghost use Rattle.std.specs.Prelude.{◌≡◌, ◌<◌, ◌≤◌, ◌^◌, ℕ, [], ◌∷◌, ◌++◌, length};
ghost use Rattle.std.specs.Fmt.{decimal};
ghost use Rattle.lv_lines.specs.Output.{HasRoom, KeepsRoom};

use crate::same::assert_same;
use lv_bodies::{Kind, Sum, fold_slice};
use lv_geometry::Limits;
use lv_script::devices::{FailingReader, FailingWriter, Failure};
use lv_script::{
    Fault, HELD, Line, LineHandler, MOST_READ, ReplyBuffer, Slice, print_command, put, put_element,
    put_number, put_running_scan, put_wide, read_line, run_script, serve_lines,
};
use std::alloc::{AllocError, Global};
use std::io;
use std::io::{Error, ErrorKind, Read, Write};
use std::process::Abort;
use std::test::Fail;
use stream_fixtures::{Server, check_all, check_reads, check_writes, writer};

/// Answers a line by its number and its length, up to 121.
#[derive(Drop)]
struct Echo {
    last: u32,
}

impl<W: Write> LineHandler<W> for Echo {
    ghost State = { ℕ };

    ghost state = { λ echo. echo.last };

    ghost step = { λ old number line reply new. (new ≡ number) × (reply ≡ decimal number ++ 32 ∷ decimal (length line) ++ 10 ∷ []) };

    ghost may_send = { λ _. Unit {0} };

    fn handle(
        &mut self,
        number: u32,
        line: &[u8],
        buffer: &mut ReplyBuffer<'_, W>,
    ) -> Result<(), Fault> {
        buffer.make_room(64)?;
        put_number(buffer.held, u64::from(number));
        put(buffer.held, b" ");
        put_number(buffer.held, line.len() as u64);
        put(buffer.held, b"\n");
        self.last = number;
        Ok(())
    }

    fn before_send(&self) -> Result<(), Fault> {
        Ok(())
    }
}

const INPUT: &[u8] = b"push 1\n\nab\nlast";

// An echo of the input.
struct EchoOfInput;

impl<R> Server<R> for EchoOfInput {
    fn lines(&self) -> &'static [u8] {
        INPUT
    }

    fn replies(&self) -> &'static [u8] {
        b"1 6\n2 0\n3 2\n4 4\n"
    }

    fn serve(
        &self,
        _rt: &R,
        alloc: Global,
        reader: &mut FailingReader<'_>,
        writer: &mut FailingWriter,
    ) -> Result<(), Fault> {
        let mut echo = Echo { last: 0 };
        serve_lines(MOST_READ, alloc, &mut echo, reader, writer)
    }
}

#[test]
fn whole_input_by_any_steps(rt: HostRuntime) -> Result<(), Fail> {
    check_all(&rt, rt.alloc(), &EchoOfInput)
}

#[test]
fn failing_reads(rt: HostRuntime) -> Result<(), Fail> {
    let table = [(0, 0), (6, 0), (7, 4), (8, 8), (10, 8), (11, 12), (15, 12)];
    check_reads(&rt, rt.alloc(), &EchoOfInput, &table)
}

#[test]
fn failing_writes(rt: HostRuntime) -> Result<(), Fail> {
    check_writes(&rt, rt.alloc(), &EchoOfInput)
}

/// Counts what was written, and how much of it was flushed.
#[derive(Drop)]
struct Counter {
    written: usize,
    flushed: usize,
    fails: bool,
}

impl Write for Counter {
    fn write(&mut self, buf: &[u8]) -> io::Result<usize> {
        self.written = self.written.saturating_add(buf.len());
        Ok(buf.len())
    }

    fn flush(&mut self) -> io::Result<()> {
        if self.fails {
            return Err(Error::from(ErrorKind::Other));
        }
        self.flushed = self.written;
        Ok(())
    }
}

#[test]
fn replies_are_flushed(rt: HostRuntime) {
    for (fails, end, flushed) in [(false, Ok(()), 16), (true, Err(Fault::WriteFault), 0)] {
        let mut echo = Echo { last: 0 };
        let mut reader = INPUT;
        let mut writer = Counter {
            written: 0,
            flushed: 0,
            fails,
        };
        let result = serve_lines(MOST_READ, rt.alloc(), &mut echo, &mut reader, &mut writer);
        assert_same(&rt, &result, &end);
        assert_same(&rt, &writer.flushed, &flushed);
    }
}

// Puts the longest numbers and the shortest one, with a space between them.
fn put_numbers(held: &mut Vec<u8>)
    requires { HasRoom held.old 200 }
    ensures { KeepsRoom held.old held.new }
{
    put_number(held, u64::MAX);
    put(held, b" ");
    put_element(held, i64::MIN);
    put(held, b" ");
    put_wide(held, i128::MIN);
    put(held, b" ");
    put_number(held, 0);
}

#[test]
fn numbers_in_decimal(rt: HostRuntime) -> Result<(), Fail> {
    let mut held = Vec::with_capacity(rt.alloc(), HELD)?;
    let mut writer = Vec::new(rt.alloc());
    let mut buffer = ReplyBuffer {
        writer: &mut writer,
        held: &mut held,
    };
    put_numbers(buffer.held);
    assert_same(&rt, &buffer.make_room(10), &Ok(()));
    assert!(rt; buffer.writer.is_empty());
    assert_same(&rt, &buffer.send(), &Ok(()));
    assert!(rt; buffer.held.is_empty());
    let text =
        b"18446744073709551615 -9223372036854775808 -170141183460469231731687303715884105728 0";
    assert_same(&rt, &writer.as_slice(), &text.as_slice());
    Ok(())
}

#[test]
fn faults_have_numbers_and_texts(rt: HostRuntime) -> Result<(), Fail> {
    let table = [
        (Fault::NoMemory, 6, "fault 6"),
        (Fault::ReadFault, 13, "fault 13"),
        (Fault::TooLong, 13, "fault 13"),
        (Fault::WriteFault, 14, "fault 14"),
    ];
    for (fault, number, text) in table {
        assert_same(&rt, &fault.number(), &number);
        assert_same(&rt, &fault.to_string(rt.alloc())?.as_str(), &text);
    }
    Ok(())
}

// Gives `left` bytes `#`, and no LF.
#[derive(Drop)]
struct Hashes {
    left: usize,
}

impl Read for Hashes {
    fn read(&mut self, buf: &mut [u8]) -> io::Result<usize> {
        let count = buf.len().min(self.left);
        buf[..count].fill(b'#');
        self.left -= count;
        Ok(count)
    }
}

#[test]
fn an_input_has_at_most_2_to_the_30_bytes(rt: HostRuntime) {
    let most = 1 << 30;
    let table: [(usize, Result<(), Fault>, &[u8]); 2] = [
        (most, Ok(()), b"bad 1\n"),
        (most + 1, Err(Fault::TooLong), b""),
    ];
    for (left, end, replies) in table {
        let mut reader = Hashes { left };
        let mut written = Vec::new(rt.alloc());
        let ended = run_script(rt.alloc(), Limits::greatest(), &mut reader, &mut written);
        assert_same(&rt, &ended, &end);
        assert_same(&rt, &written.as_slice(), &replies);
    }
}

#[test]
fn commands_are_printed(rt: HostRuntime) -> Result<(), Fail> {
    let lines: [(&[u8], &[u8]); 4] = [
        (b"  write 007  -0", b"write 7 0"),
        (b"push -0042\r", b"push -42"),
        (b"watch  w sum 00 10 ", b"watch w sum 0 10"),
        (b" settle", b"settle"),
    ];
    for (bytes, text) in lines {
        let Line::Do(command) = read_line(bytes) else {
            return Err("no command".into());
        };
        let printed = print_command(rt.alloc(), &command)?;
        assert_same(&rt, &printed.as_slice(), &text);
    }
    Ok(())
}

// Puts a scan of 20,000 zeros into a writer that fails, and checks what the writer took.
fn check_scan(
    rt: &impl Abort,
    alloc: Global,
    failure: Failure,
    zeros: &[i64],
) -> Result<(), AllocError>
    requires { length zeros.now ≤ 2 ^ 20 }
{
    // The elements are of 64 bits.
    let _sum = fold_slice(&Sum, zeros);
    let mut held = Vec::with_capacity(alloc, HELD)?;
    let mut writer = writer(alloc, (50, 60, failure))?;
    let mut buffer = ReplyBuffer {
        writer: &mut writer,
        held: &mut held,
    };
    let ended = put_running_scan(&mut buffer, 9, true, Kind::Sum, &Slice { elements: zeros });
    let text = b"at 9 inc sum 20000\n= 0\n= 0\n= 0\n= 0\n= 0\n= 0\n= 0\n= 0\n= 0\n= 0\n=";
    assert_same(
        rt,
        &(ended, writer.taken.as_slice()),
        &(Err(Fault::WriteFault), text.as_slice()),
    );
    drop(held);
    drop(writer);
    Ok(())
}

#[test]
fn scans_that_are_not_written(rt: HostRuntime) -> Result<(), Fail> {
    let zeros = [0; 20_000];
    for failure in [Failure::Refuses, Failure::Stalls] {
        check_scan(&rt, rt.alloc(), failure, &zeros)?;
    }
    Ok(())
}
