//! Which file a name leads to, or an open file is.

use std::fs::{Files, Metadata, OpenFile, OpenOptions, metadata};
use std::io;
use std::os::unix::fs::MetadataExt;

/// A file, identified by its device and its number there. Two names lead to one file if and only if these are the same.
#[derive(Clone, Copy, PartialEq)]
pub struct Identity {
    device: u64,
    inode: u64,
}

impl Identity {
    /// The file that some metadata are of.
    pub fn of(metadata: &Metadata) -> Identity {
        Identity {
            device: metadata.dev(),
            inode: metadata.ino(),
        }
    }
}

/// Which file was looked at, and how long it was then.
#[derive(Clone, Copy, PartialEq)]
pub struct SeenFile {
    identity: Identity,
    length: u64,
}

impl SeenFile {
    /// A file that is open, if it can be looked at.
    pub fn of<F: OpenFile>(file: &F) -> Option<SeenFile> {
        match file.metadata() {
            Ok(found) => Some(SeenFile {
                identity: Identity::of(&found),
                length: found.len(),
            }),
            Err(_) => None,
        }
    }
}

/// The regular files to which standard input, output and error lead, in this order; none for a stream that leads elsewhere.
pub fn standard_files<R: Files>(rt: &R) -> [Option<Identity>; 3] {
    [
        behind(rt, "/dev/stdin"),
        behind(rt, "/dev/stdout"),
        behind(rt, "/dev/stderr"),
    ]
}

/// The file that a name leads to, if it is neither a regular file nor a folder, such as a pipe.
pub fn pipe_at<R: Files>(rt: &R, name: &str) -> Option<Identity> {
    match metadata(rt, name) {
        Ok(found) if !found.is_file() && !found.is_dir() => Some(Identity::of(&found)),
        _ => None,
    }
}

// The regular file to which a name leads, if there is one.
fn behind<R: Files>(rt: &R, name: &str) -> Option<Identity> {
    match metadata(rt, name) {
        Ok(found) if found.is_file() => Some(Identity::of(&found)),
        _ => None,
    }
}

/// Whether standard output or standard error goes into a file that is read.
pub fn is_written(standard: &[Option<Identity>; 3], input: Identity) -> bool {
    standard[1] == Some(input) || standard[2] == Some(input)
}

/// The null device.
pub const NULL: &str = "/dev/null";

/// Opens the null device as often as there are standard streams. A standard stream that was closed at the start then leads there, and no file that is
/// opened later is taken for it. The files are kept until the program ends.
pub fn null_files<R: Files>(rt: &R) -> [io::Result<R::File>; 3] {
    [null_file(rt), null_file(rt), null_file(rt)]
}

// The null device, to be read and written.
fn null_file<R: Files>(rt: &R) -> io::Result<R::File> {
    OpenOptions::new().read(true).write(true).open(rt, NULL)
}
