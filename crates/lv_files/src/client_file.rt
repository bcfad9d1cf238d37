//! The files of a client: its lines and its replies.

use crate::escaped::Escaped;
use crate::identity::Identity;
use crate::stream_end::StreamEnd;
use std::fs::{File, Files, OpenFile};
use std::io;
use std::io::{Error, ErrorKind, Read, Write};

const MOVED: &str = "this name no longer leads to the pipe that was found here";

/// Opens pipes. Whatever opens files does so.
pub trait PipeFolder {
    /// Opens the pipe of this name for reading, which waits for a writer where the system does so. It must be the one that was found.
    fn open_pipe(&self, name: &str, found: Identity) -> io::Result<File>;
}

impl<R: Files<File = File>> PipeFolder for R {
    fn open_pipe(&self, name: &str, found: Identity) -> io::Result<File> {
        let pipe = File::open(self, name)?;
        let opened = pipe.metadata()?;
        if Identity::of(&opened) == found {
            return Ok(pipe);
        }
        Err(Error::new(ErrorKind::NotFound, MOVED))
    }
}

/// A file of a client, which is open, or a pipe that is opened at its first read. A client that isn't there yet therefore holds up only whoever
/// reads it. If a pipe can't be opened, the reason is reported on standard error at once.
#[derive(Drop)]
pub struct ClientFile<'a, E: Copy> {
    rt: E,
    // The name of a pipe that isn't open yet, and which was found there.
    absent: Option<(&'a str, Identity)>,
    // None where the pipe can't be opened.
    file: Option<File>,
    end: StreamEnd,
}

impl<'a, R: Eprint + PipeFolder> ClientFile<'a, &'a R> {
    /// A file that is open, whose last line counts.
    pub fn new(rt: &'a R, file: File) -> ClientFile<'a, &'a R> {
        ClientFile {
            rt,
            absent: None,
            file: Some(file),
            end: StreamEnd::plain(),
        }
    }

    /// A pipe of this name that was found and isn't open yet. Until it is, some other file holds its descriptor.
    pub fn absent(
        rt: &'a R,
        name: &'a str,
        found: Identity,
        held: File,
        end: StreamEnd,
    ) -> ClientFile<'a, &'a R> {
        ClientFile {
            rt,
            absent: Some((name, found)),
            file: Some(held),
            end,
        }
    }

    // Opens the pipe of this name, or reports why it can't be opened.
    fn open(&mut self, name: &str, found: Identity) {
        self.absent = None;
        drop(self.file.take());
        match self.rt.open_pipe(name, found) {
            Ok(pipe) => self.file = Some(pipe),
            Err(error) => {
                let name = Escaped(name);
                let _ = eprintln!(self.rt;
                    "livevec: '{name}' can't be opened, and its session ends: {error}"
                );
            }
        }
    }
}

impl<'a, R: Eprint + PipeFolder> Read for ClientFile<'a, &'a R> {
    fn read(&mut self, buf: &mut [u8]) -> io::Result<usize> {
        if let Some((name, found)) = self.absent {
            self.open(name, found);
        }
        match &mut self.file {
            Some(file) => self.end.read(file, buf),
            None => Err(Error::from(ErrorKind::NotFound)),
        }
    }
}

impl<'a, R: Eprint + PipeFolder> Write for ClientFile<'a, &'a R> {
    fn write(&mut self, buf: &[u8]) -> io::Result<usize> {
        match &mut self.file {
            Some(file) => file.write(buf),
            None => Err(Error::from(ErrorKind::NotFound)),
        }
    }

    fn flush(&mut self) -> io::Result<()> {
        match &mut self.file {
            Some(file) => file.flush(),
            None => Err(Error::from(ErrorKind::NotFound)),
        }
    }
}
