//! The checksums (*seals*) that end the lines of a log in its file.
ghost use Rattle.std.specs.Prelude.{◌≡◌, ◌+◌, ◌*◌, ◌<◌, ◌≤◌, ◌^◌, ◌++◌, ◌∷◌, ◌==◌, [], false, if◌then◌else◌, length, Some, vec_len};
ghost use Rattle.std.specs.Str.{bytes_eq};
ghost use Rattle.lv_lines.specs.Input.{has_end};
ghost use Rattle.lv_lines.specs.Output.{HasRoom, KeepsRoom};
ghost use Rattle.lv_shards.specs.Bytes.{checksum_from};
ghost use Rattle.lv_transcript.specs.Seals.{hash_behind, seal_by, sealed_behind};

use hex::encode_to_slice;
use lv_lines::put;
use lv_shards::checksum_more;
use memchr::memchr;

pub(crate) const LF: u8 = 10;

/// How many bytes a line of a log has in its file more than in its text: a space, and the 16 digits of a checksum.
pub const SEAL_BYTES: usize = 17;

/// How many bytes a line of a log has at most in its file, without its LF.
pub(crate) const LONGEST_SEALED: usize = 137;

// The place of the digit of a file's version, and that digit.
const VERSION_AT: u64 = 8;

const VERSION: u8 = b'3';

/// Puts bytes of a log's text as they are in its file, where each line ends in the checksum of all bytes of the file before it: that of its first
/// `count` bytes is `hash`. Returns the checksum of all bytes then. The room for them was made before: they are at most 18 for each of the text.
pub fn put_sealed(held: &mut Vec<u8>, hash: u64, count: u64, text: &[u8]) -> u64
    requires room { HasRoom held.old (18 * length text.now) }
    requires few { length text.now ≤ 4096 }
    requires within { count < 2 ^ 63 }
    ensures items { held.new.items ≡ held.old.items ++ sealed_behind hash count text.now }
    ensures hash { result ≡ checksum_from hash (sealed_behind hash count text.now) }
    ensures capacity { KeepsRoom held.old held.new }
{
    let mut hash = hash;
    let mut count = count;
    let mut rest = text;
    while let Some(end) = memchr(LF, rest) {
        let (piece, ended) = rest.split_at(end);
        hash = put_piece(held, hash, count, piece);
        hash = put_seal(held, hash);
        count += (end + SEAL_BYTES + 1) as u64;
        (_, rest) = ended.split_at(1);
    }
    put_piece(held, hash, count, rest)
}

/// How many bytes these have in a file.
pub fn sealed_length(text: &[u8]) -> u64 {
    let mut length = text.len() as u64;
    let mut rest = text;
    while let Some(end) = memchr(LF, rest) {
        length = length.saturating_add(SEAL_BYTES as u64);
        let (_, ended) = rest.split_at(end);
        (_, rest) = ended.split_at(1);
    }
    length
}

// Puts bytes of a line.
fn put_piece(held: &mut Vec<u8>, hash: u64, count: u64, piece: &[u8]) -> u64
    requires room { HasRoom held.old (length piece.now) }
    requires line { has_end piece.now ≡ false }
    requires few { length piece.now ≤ 4096 }
    requires within { count < 2 ^ 63 + 2 ^ 60 }
    ensures items { held.new.items ≡ held.old.items ++ sealed_behind hash count piece.now }
    ensures len { vec_len held.new ≡ vec_len held.old + length piece.now }
    ensures hash { result ≡ checksum_from hash (sealed_behind hash count piece.now) }
    ensures capacity { KeepsRoom held.old held.new }
{
    if count <= VERSION_AT {
        return put_first(held, hash, count, piece);
    }
    put(held, piece);
    checksum_more(hash, piece)
}

// Puts bytes of the first line, which has the version.
fn put_first(held: &mut Vec<u8>, hash: u64, count: u64, piece: &[u8]) -> u64
    requires room { HasRoom held.old (length piece.now) }
    requires line { has_end piece.now ≡ false }
    requires few { length piece.now ≤ 4096 }
    requires within { count ≤ 8 }
    ensures items { held.new.items ≡ held.old.items ++ sealed_behind hash count piece.now }
    ensures len { vec_len held.new ≡ vec_len held.old + length piece.now }
    ensures hash { result ≡ checksum_from hash (sealed_behind hash count piece.now) }
    ensures capacity { KeepsRoom held.old held.new }
{
    let mut hash = hash;
    let mut count = count;
    for byte in piece {
        let byte = with_version(count, *byte);
        put(held, &[byte]);
        hash = checksum_more(hash, &[byte]);
        count += 1;
    }
    hash
}

// A byte of the first line as it is in the file, after so many bytes.
fn with_version(count: u64, byte: u8) -> u8
    ensures { result ≡ (if count == 8 then 51 else byte) }
{
    if count == VERSION_AT { VERSION } else { byte }
}

// Puts the end of a line: its seal, and LF.
fn put_seal(held: &mut Vec<u8>, hash: u64) -> u64
    requires room { HasRoom held.old 18 }
    ensures items { held.new.items ≡ held.old.items ++ (seal_by (checksum_from hash (32 ∷ [])) ++ 10 ∷ []) }
    ensures len { vec_len held.new ≡ vec_len held.old + 18 }
    ensures hash { result ≡ checksum_from hash (seal_by (checksum_from hash (32 ∷ [])) ++ 10 ∷ []) }
    ensures capacity { KeepsRoom held.old held.new }
{
    let seal = seal_by(checksum_more(hash, b" "));
    put(held, &seal);
    put(held, b"\n");
    checksum_more(checksum_more(hash, &seal), b"\n")
}

// The seal of a line, if all bytes up to its digits have this checksum.
#[tactic(auto, unfolding(crate::specs::Seals::seal_by))]
fn seal_by(hash: u64) -> [u8; SEAL_BYTES]
    ensures { result ≡ seal_by hash }
{
    let mut seal = [b' '; SEAL_BYTES];
    let Ok(()) = encode_to_slice(hash.to_be_bytes(), &mut seal[1..]) else {
        unreachable!();
    };
    seal
}

/// The checksum of all bytes up to the LF of a line that comes after bytes with this checksum. None if the line isn't rightly sealed.
pub(crate) fn hash_behind(hash: u64, line: &[u8]) -> Option<u64>
    ensures { result ≡ hash_behind (Some hash) line.now }
{
    if line.len() < SEAL_BYTES {
        return None;
    }
    if line.len() > LONGEST_SEALED {
        return None;
    }
    let (text, seal) = line.split_at(line.len() - SEAL_BYTES);
    let before = checksum_more(checksum_more(hash, text), b" ");
    if is_seal(seal, before) {
        let (_, digits) = seal.split_at(1);
        return Some(checksum_more(checksum_more(before, digits), b"\n"));
    }
    None
}

// Whether bytes are the seal of a line, if all bytes up to its digits have this checksum.
fn is_seal(bytes: &[u8], hash: u64) -> bool
    ensures { result ≡ bytes_eq bytes.now (seal_by hash) }
{
    bytes == seal_by(hash).as_slice()
}
