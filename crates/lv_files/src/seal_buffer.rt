//! Bytes of a log on their way to its file, where each line ends in a checksum.

ghost use Rattle.std.specs.Prelude.{◌≡◌, ◌+◌, ◌<◌, ◌≤◌, ◌^◌, [], IfOk, OnOk, drop, length, take, vec_capacity};
ghost use Rattle.lv_files.specs.Sealing.{Seals, Sends};

use crate::program_error::ProgramError;
use lv_shards::CHECKSUM_OF_NONE;
use lv_transcript::{SEAL_BYTES, put_sealed};
use std::alloc::Global;
use std::io;
use std::io::{Error, ErrorKind, Write};

// At most how many bytes of a log's text are taken at once.
const PIECE: usize = 4096;

// How many bytes are held at least until they are written, and room for a piece after them, which may be nothing but line ends.
const HELD: usize = 65_536;

const ROOM: usize = HELD + PIECE * (SEAL_BYTES + 1);

/// Bytes of a log on their way to its file: they are held with their checksums until there are many, or until they are sent.
#[derive(Drop)]
pub struct SealBuffer {
    // The checksum of all bytes of the file, with those that are held.
    hash: u64,
    held: Vec<u8>,
    // How many of the bytes that are held are in the file already.
    sent: usize,
    ghost within: { sent ≤ length held.items },
    ghost room: { 73728 ≤ vec_capacity held },
}

impl SealBuffer {
    /// For a file of bytes with this checksum. All memory that is needed is taken here.
    pub fn new(alloc: Global, hash: u64) -> Result<SealBuffer, ProgramError> {
        match Vec::with_capacity(alloc, ROOM) {
            Ok(held) => Ok(SealBuffer {
                hash,
                held,
                sent: 0,
            }),
            Err(_) => Err(ProgramError::memory()),
        }
    }

    /// For a file that has nothing yet.
    pub fn of_new(alloc: Global) -> Result<SealBuffer, ProgramError> {
        SealBuffer::new(alloc, CHECKSUM_OF_NONE)
    }

    /// Takes the first bytes of a text, as many as are taken at once, after those that are held, in a file that has so many bytes with them. If
    /// there is no room, what is held is written first. Returns how many it took.
    pub fn take<W: Write>(&mut self, bytes: u64, text: &[u8], file: &mut W) -> io::Result<usize>
        requires within { bytes < 2 ^ 63 }
        ensures few { IfOk result (λ count. count ≤ length text.now) }
        // The bytes that went to the file, and those that are held, are the held ones and then the text as a file has it.
        ensures sealed { IfOk result (λ count. Seals self.old.hash bytes (take count text.now) (drop self.old.sent self.old.held.items) (drop self.new.sent self.new.held.items) self.new.hash (W.contents file.old) (W.contents file.new)) }
    {
        let (piece, _) = text.split_at(text.len().min(PIECE));
        match self.make_room(piece.len() * (SEAL_BYTES + 1), file) {
            Ok(()) => {
                let hash = put_sealed(&mut self.held, self.hash, bytes, piece);
                self.hash = hash;
                Ok(piece.len())
            }
            Err(error) => Err(error),
        }
    }

    // Writes what is held, if there is no room for so many bytes more.
    fn make_room<W: Write>(&mut self, more: usize, file: &mut W) -> io::Result<()>
        requires { more ≤ 73728 }
        ensures sent { Sends (drop self.old.sent self.old.held.items) (drop self.new.sent self.new.held.items) (W.contents file.old) (W.contents file.new) }
        ensures room { OnOk result (length self.new.held.items + more ≤ vec_capacity self.new.held) }
        ensures hash { self.new.hash ≡ self.old.hash }
    {
        if self.held.capacity() - self.held.len() < more {
            return self.send(file);
        }
        Ok(())
    }

    /// Writes what is held. If that fails, what is not in the file stays.
    pub fn send<W: Write>(&mut self, file: &mut W) -> io::Result<()>
        ensures sent { Sends (drop self.old.sent self.old.held.items) (drop self.new.sent self.new.held.items) (W.contents file.old) (W.contents file.new) }
        ensures all { OnOk result (self.new.held.items ≡ []) }
        ensures none { OnOk result (self.new.sent ≡ 0) }
        ensures hash { self.new.hash ≡ self.old.hash }
    {
        'sending: while self.sent < self.held.len() {
            match file.write(unsent(&self.held, self.sent)) {
                Ok(0) => return Err(Error::from(ErrorKind::WriteZero)),
                Ok(count) => self.sent += count,
                Err(error) => return Err(error),
            }
        }
        self.held.clear();
        self.sent = 0;
        Ok(())
    }
}

// The bytes from an index on.
fn unsent(held: &[u8], sent: usize) -> &[u8]
    requires { sent ≤ length held.now }
    ensures { result.now ≡ drop sent held.now }
{
    let (_, unsent) = held.split_at(sent);
    unsent
}
